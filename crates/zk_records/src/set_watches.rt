//! The request that sets watches again.

ghost use Rattle.std.specs.Prelude.{◌≡◌, true, map, Some};
ghost use Rattle.zk_records.specs.Layouts.{set_watches};

use std::alloc::Allocator;
use zk_jute::{Cursor, List, ListRef, PutError, Readable, Record, TakeError, Text, Then};

/// The request that sets watches again. The server compares each path with the relative zxid, and tells of what has
/// happened since instead of setting the watch.
#[derive(Drop)]
pub struct SetWatches<A: Allocator> {
    /// The last zxid that the client has seen.
    pub relative_zxid: i64,
    /// Paths whose nodes were there.
    pub data_watches: List<Text<A>, A>,
    /// Paths at which no node was.
    pub exist_watches: List<Text<A>, A>,
    /// Paths whose children were asked for.
    pub child_watches: List<Text<A>, A>,
}

impl<A: Allocator + Copy> Record<A> for SetWatches<A> {
    ghost layout = { set_watches };

    ghost view = { λ r. (
      r.relative_zxid,
      (
        ⟦<List<Text<A>, A> as Record<A>>⟧.view r.data_watches,
        (⟦<List<Text<A>, A> as Record<A>>⟧.view r.exist_watches, ⟦<List<Text<A>, A> as Record<A>>⟧.view r.child_watches),
      ),
    ) };

    fn write(&self, out: &mut Vec<u8, A>) -> Result<(), PutError> {
        let after = Then(&self.exist_watches, &self.child_watches);
        Then(self.relative_zxid, Then(&self.data_watches, after)).write(out)
    }
}

impl<'a, A: Allocator + Copy> Readable<'a, A> for SetWatches<A> {
    ghost takes_memory = { true };

    fn read(alloc: A, at: &mut Cursor<'a>) -> Result<SetWatches<A>, TakeError> {
        let Then(relative_zxid, Then(data_watches, Then(exist_watches, child_watches))) =
            Then::read(alloc, at)?;
        Ok(SetWatches {
            relative_zxid,
            data_watches,
            exist_watches,
            child_watches,
        })
    }
}

/// The request that sets watches again, over lists of paths. An empty list is written as count 0, never as null.
#[derive(Clone, Copy)]
pub struct SetWatchesRef<'a> {
    /// The last zxid that the client has seen.
    pub relative_zxid: i64,
    pub data_watches: &'a [&'a str],
    pub exist_watches: &'a [&'a str],
    pub child_watches: &'a [&'a str],
}

impl<'a, A: Allocator + Copy> Record<A> for SetWatchesRef<'a> {
    ghost layout = { set_watches };

    ghost view = { λ r. (
      r.relative_zxid,
      (
        Some (map (λ s. Some s.now) r.data_watches.now),
        (Some (map (λ s. Some s.now) r.exist_watches.now), Some (map (λ s. Some s.now) r.child_watches.now)),
      ),
    ) };

    fn write(&self, out: &mut Vec<u8, A>) -> Result<(), PutError> {
        let data = ListRef {
            elements: Some(self.data_watches),
        };
        let exist = ListRef {
            elements: Some(self.exist_watches),
        };
        let child = ListRef {
            elements: Some(self.child_watches),
        };
        Then(self.relative_zxid, Then(data, Then(exist, child))).write(out)
    }
}
