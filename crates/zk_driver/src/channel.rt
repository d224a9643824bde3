//! What a driver has of a connection.

ghost use Rattle.std.specs.Prelude.{◌≡◌, ◌++◌, [], None, Some, IfOk, OnOk, is_some};
ghost use Rattle.zk_driver.specs.Driving.{channel_view, closed, opened, Looks, Writes};
ghost use Rattle.zk_driver.specs.inner.Driving.{is_nothing, look_after};
ghost use Rattle.zk_driver.specs.inner.Noting.{notes_of_event};
ghost use Rattle.zk_driver.specs.Noting.{notes_in};
ghost use Rattle.std.specs.Io.KnownBytes.{Keeps};
ghost use Rattle.zk_driver.specs.inner.Driving.{input_of};
ghost use Rattle.zk_link.specs.FarEnds.{reached_of, Reaches, Trades};
ghost use Rattle.zk_link.specs.Streams.{Sends};
ghost use Rattle.zk_driver.specs.Flowing.{bytes_in};
ghost use Rattle.zk_driver.specs.inner.Reads.{IsBrought};

use crate::bring::{bring, make_room};
use crate::look::{Look, is_nothing, look_after};
use crate::reason::Reason;
use crate::send::send;
use crate::turn::Event;
use std::alloc::{AllocError, Allocator};
use zk_link::{Brought, Stream};

/// How long a read may wait, in milliseconds, while bytes are left to be written.
const PRESSED_WAIT: u64 = 10;

/// An address that is to be dialled: its place in the program's list, and how long that may take, in milliseconds.
#[derive(Clone, Copy)]
pub(crate) struct Attempt {
    pub(crate) place: usize,
    pub(crate) within_ms: u64,
}

/// The connection, if there is one, and the last read of it; the address that is to be dialled, if one is; what is left to be written; and
/// why the last connection has ended.
#[derive(Drop)]
pub(crate) struct Channel<A: Allocator, S: Drop> {
    pub(crate) stream: Option<S>,
    pub(crate) attempt: Option<Attempt>,
    pub(crate) looked: Option<Look>,
    unsent: Vec<u8, A>,
    room: Vec<u8, A>,
    why: Reason,
}

impl<A: Allocator + Copy, S: Stream> Channel<A, S> {
    /// No connection, and none is asked for.
    pub(crate) fn new(alloc: A) -> Channel<A, S>
        ensures { channel_view result ≡ closed }
    {
        Channel {
            stream: None,
            attempt: None,
            looked: None,
            unsent: Vec::new(alloc),
            room: Vec::new(alloc),
            why: Reason::Other,
        }
    }

    /// Whether there is a connection.
    pub(crate) fn is_open(&self) -> bool
        ensures { result ≡ is_some self.now.stream }
    {
        self.stream.is_some()
    }

    /// An address is to be dialled.
    pub(crate) fn ask(&mut self, attempt: Attempt)
        ensures view { channel_view self.new ≡ record (channel_view self.old) { attempt = Some attempt } }
        ensures stream { self.new.stream ≡ self.old.stream }
    {
        self.attempt = Some(attempt);
    }

    /// A connection begins.
    pub(crate) fn hold(&mut self, stream: S)
        ensures view { channel_view self.new ≡ opened }
        ensures stream { self.new.stream ≡ Some stream }
    {
        self.close();
        self.stream = Some(stream);
    }

    /// The connection is over, and what is left to be written is forgotten. Nothing is to be dialled.
    pub(crate) fn close(&mut self)
        ensures view { channel_view self.new ≡ closed }
        ensures stream { self.new.stream ≡ None }
    {
        self.attempt = None;
        self.looked = None;
        self.unsent.clear();
        self.stream = None;
    }

    /// These bytes are to be written, after what is left.
    pub(crate) fn queue(&mut self, bytes: &[u8]) -> Result<(), AllocError>
        ensures view { OnOk result
            (channel_view self.new ≡ record (channel_view self.old) { unsent = self.old.unsent.items ++ bytes.now }) }
        ensures stream { self.new.stream ≡ self.old.stream }
    {
        self.unsent.extend_from_slice(bytes)
    }

    /// Writes what is left, as much as the connection takes for now. Whether the connection has not failed.
    pub(crate) fn flush(&mut self) -> bool
        ensures writes { Writes (channel_view self.old) (channel_view self.new) }
        ensures sends { Sends self.old.unsent.items self.new.unsent.items
            ((reached_of S.remaining S.contents S.far S.state self.old.stream).took)
            ((reached_of S.remaining S.contents S.far S.state self.new.stream).took) }
        ensures gives { Keeps ((reached_of S.remaining S.contents S.far S.state self.old.stream).left)
            ((reached_of S.remaining S.contents S.far S.state self.new.stream).left) }
        ensures trades { Trades S.far self.old.unsent.items self.new.unsent.items []
            ((reached_of S.remaining S.contents S.far S.state self.old.stream).end)
            ((reached_of S.remaining S.contents S.far S.state self.new.stream).end) }
    {
        match &mut self.stream {
            Some(stream) => send(stream, &mut self.unsent),
            None => true,
        }
    }

    /// Writes what is left, and reads once, as the next read of a row or the first one: for `ms` milliseconds, at least 1, or for 10 at
    /// most while bytes are left. It begins at this moment.
    pub(crate) fn exchange(
        &mut self,
        alloc: A,
        began: u64,
        is_again: bool,
        ms: u64,
    ) -> Result<Brought<A>, AllocError>
        ensures looks { IfOk result (λ brought.
            Looks (look_after began is_again (is_nothing brought) self.old.looked) (channel_view self.old) (channel_view self.new)) }
        ensures brings { IfOk result (λ brought. IsBrought S.remaining self.new.stream brought) }
        ensures whole { IfOk result (λ brought. Reaches self.old.unsent.items self.new.unsent.items
            (reached_of S.remaining S.contents S.far S.state self.old.stream)
            (reached_of S.remaining S.contents S.far S.state self.new.stream)
            (bytes_in (input_of brought))) }
    {
        let brought = self.read(alloc, ms)?;
        let is_quiet = is_nothing(&brought);
        self.looked = Some(look_after(began, is_again, is_quiet, self.looked));
        Ok(brought)
    }

    /// Writes what is left, and reads once. A connection that can't be written to has ended.
    fn read(&mut self, alloc: A, ms: u64) -> Result<Brought<A>, AllocError>
        ensures writes { Writes (channel_view self.old) (channel_view self.new) }
        ensures brings { IfOk result (λ brought. IsBrought S.remaining self.new.stream brought) }
        ensures whole { IfOk result (λ brought. Reaches self.old.unsent.items self.new.unsent.items
            (reached_of S.remaining S.contents S.far S.state self.old.stream)
            (reached_of S.remaining S.contents S.far S.state self.new.stream)
            (bytes_in (input_of brought))) }
    {
        make_room(&mut self.room)?;
        let Some(stream) = &mut self.stream else {
            return Ok(Brought::End);
        };
        if !send(stream, &mut self.unsent) {
            self.why = Reason::Unwritten;
            return Ok(Brought::End);
        }
        let wait = if self.unsent.is_empty() {
            ms
        } else {
            ms.min(PRESSED_WAIT)
        };
        bring(alloc, stream, &mut self.room, wait.max(1), &mut self.why)
    }

    /// What has happened with that.
    pub(crate) fn event_of(&self, brought: &Brought<A>) -> Event
        ensures { notes_of_event result ≡ notes_in (input_of brought.now) }
    {
        match brought {
            Brought::End => Event::Ended(self.why),
            _ => Event::Nothing,
        }
    }
}
