//! What a server tells by itself.

ghost use Rattle.std.specs.Prelude.{◌≡◌, false, true};
ghost use Rattle.zk_records.specs.Layouts.{watcher_event};

use std::alloc::Allocator;
use zk_jute::{Cursor, PutError, Readable, Record, TakeError, Text, TextRef, Then};

/// What a server tells by itself of a node that is watched.
#[derive(Clone, Copy)]
pub struct WatcherEventRef<'a> {
    /// The wire's `type`: the number of an [`Event`](crate::Event), or another.
    pub kind: i32,
    /// The state of the connection as the server sees it, which nothing depends on.
    pub state: i32,
    pub path: TextRef<'a>,
}

impl<'a, A: Allocator + Copy> Record<A> for WatcherEventRef<'a> {
    ghost layout = { watcher_event };

    ghost view = { λ r. (r.kind, (r.state, ⟦<TextRef<'a> as Record<A>>⟧.view r.path)) };

    fn write(&self, out: &mut Vec<u8, A>) -> Result<(), PutError> {
        Then(self.kind, Then(self.state, self.path)).write(out)
    }
}

impl<'a, A: Allocator + Copy> Readable<'a, A> for WatcherEventRef<'a> {
    ghost takes_memory = { false };

    fn read(alloc: A, at: &mut Cursor<'a>) -> Result<WatcherEventRef<'a>, TakeError> {
        let Then(kind, Then(state, path)) = Then::read(alloc, at)?;
        Ok(WatcherEventRef { kind, state, path })
    }
}

/// What a server tells by itself of a node that is watched.
#[derive(Drop)]
pub struct WatcherEvent<A: Allocator> {
    /// The wire's `type`: the number of an [`Event`](crate::Event), or another.
    pub kind: i32,
    /// The state of the connection as the server sees it, which nothing depends on.
    pub state: i32,
    pub path: Text<A>,
}

impl<A: Allocator + Copy> Record<A> for WatcherEvent<A> {
    ghost layout = { watcher_event };

    ghost view = { λ r. (r.kind, (r.state, r.path)) };

    fn write(&self, out: &mut Vec<u8, A>) -> Result<(), PutError> {
        Then(self.kind, Then(self.state, &self.path)).write(out)
    }
}

impl<'a, A: Allocator + Copy> Readable<'a, A> for WatcherEvent<A> {
    ghost takes_memory = { true };

    fn read(alloc: A, at: &mut Cursor<'a>) -> Result<WatcherEvent<A>, TakeError> {
        let Then(kind, Then(state, path)) = Then::read(alloc, at)?;
        Ok(WatcherEvent { kind, state, path })
    }
}
