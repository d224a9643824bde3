//! The reply to getChildren2.

ghost use Rattle.std.specs.Prelude.{◌≡◌, true};
ghost use Rattle.zk_records.specs.Layouts.{get_children2_response};

use std::alloc::Allocator;
use zk_jute::{Cursor, List, PutError, Readable, Record, TakeError, Text, TextRef, Then};
use zk_nodes::Stat;

/// The names below a node, in no order, and what is known of it.
#[derive(Drop)]
pub struct GetChildren2Response<A: Allocator> {
    pub children: List<Text<A>, A>,
    pub stat: Stat,
}

impl<A: Allocator + Copy> Record<A> for GetChildren2Response<A> {
    ghost layout = { get_children2_response };

    ghost view = { λ r. (⟦<List<Text<A>, A> as Record<A>>⟧.view r.children, ⟦<Stat as Record<A>>⟧.view r.stat) };

    fn write(&self, out: &mut Vec<u8, A>) -> Result<(), PutError> {
        Then(&self.children, self.stat).write(out)
    }
}

impl<'a, A: Allocator + Copy> Readable<'a, A> for GetChildren2Response<A> {
    ghost takes_memory = { true };

    fn read(alloc: A, at: &mut Cursor<'a>) -> Result<GetChildren2Response<A>, TakeError> {
        let Then(children, stat) = Then::read(alloc, at)?;
        Ok(GetChildren2Response { children, stat })
    }
}

/// The names below a node, and what is known of it. The list of names takes memory.
#[derive(Drop)]
pub struct GetChildren2Ref<'a, A: Allocator> {
    pub children: List<TextRef<'a>, A>,
    pub stat: Stat,
}

impl<'a, A: Allocator + Copy> Record<A> for GetChildren2Ref<'a, A> {
    ghost layout = { get_children2_response };

    ghost view = { λ r. (⟦<List<TextRef<'a>, A> as Record<A>>⟧.view r.children, ⟦<Stat as Record<A>>⟧.view r.stat) };

    fn write(&self, out: &mut Vec<u8, A>) -> Result<(), PutError> {
        Then(&self.children, self.stat).write(out)
    }
}

impl<'a, A: Allocator + Copy> Readable<'a, A> for GetChildren2Ref<'a, A> {
    ghost takes_memory = { true };

    fn read(alloc: A, at: &mut Cursor<'a>) -> Result<GetChildren2Ref<'a, A>, TakeError> {
        Ok(GetChildren2Ref {
            children: List::read(alloc, at)?,
            stat: Stat::read(alloc, at)?,
        })
    }
}
