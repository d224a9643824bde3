//! What a driver has done.

ghost use Rattle.std.specs.Prelude.{◌≡◌, [], None, false, true};
ghost use Rattle.zk_driver.specs.Noting.{is_come, notes_of, passed_in};
ghost use Rattle.zk_driver.specs.inner.Noting.{notes_of_event};

use crate::reason::Reason;
use std::alloc::{Allocator, Global};
use zk_agent::Action;

/// One turn of a driver.
#[derive(Drop)]
pub enum Turn<A: Allocator = Global> {
    /// The agent tells the program this.
    Told(Action<A>),
    /// An address is to be dialled: the next turn dials it.
    Dials,
    /// The connection that was asked for is there.
    Opened,
    /// The connection that was asked for could not be made.
    Failed(Reason),
    /// The connection is over.
    Ended(Reason),
    /// Nothing that is told has happened.
    Quiet,
    /// The moment has come, and nothing waits to be told.
    Come,
}

/// What has happened to a connection.
#[derive(Clone, Copy)]
pub(crate) enum Event {
    Opened,
    Failed(Reason),
    Ended(Reason),
    Nothing,
}

/// What a read came to: the clock's moment after it, the moment that was told, what has happened, and whether the connection is to be read
/// again before the clock's moment is told.
#[derive(Clone, Copy)]
pub(crate) struct Glance {
    pub(crate) now: u64,
    pub(crate) told: u64,
    pub(crate) event: Event,
    pub(crate) is_again: bool,
}

impl Event {
    /// Whether nothing has happened.
    pub(crate) fn is_nothing(self) -> bool
        ensures { result ≡ true → notes_of_event self ≡ [] }
    {
        matches!(self, Event::Nothing)
    }

    /// The turn in which this has happened, and nothing else that is told.
    pub(crate) fn turn<A: Allocator>(self) -> Turn<A>
        ensures notes { notes_of result ≡ notes_of_event self }
        ensures passed { passed_in result ≡ None }
        ensures goes_on { is_come result ≡ false }
    {
        match self {
            Event::Opened => Turn::Opened,
            Event::Failed(why) => Turn::Failed(why),
            Event::Ended(why) => Turn::Ended(why),
            Event::Nothing => Turn::Quiet,
        }
    }
}
