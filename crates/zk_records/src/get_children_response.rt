//! The reply to getChildren.

ghost use Rattle.std.specs.Prelude.{◌≡◌, true};
ghost use Rattle.zk_records.specs.Layouts.{get_children_response};

use std::alloc::Allocator;
use zk_jute::{Cursor, List, PutError, Readable, Record, TakeError, Text};

/// The names below a node, in no order.
#[derive(Drop)]
pub struct GetChildrenResponse<A: Allocator> {
    pub children: List<Text<A>, A>,
}

impl<A: Allocator + Copy> Record<A> for GetChildrenResponse<A> {
    ghost layout = { get_children_response };

    ghost view = { λ r. ⟦<List<Text<A>, A> as Record<A>>⟧.view r.children };

    fn write(&self, out: &mut Vec<u8, A>) -> Result<(), PutError> {
        self.children.write(out)
    }
}

impl<'a, A: Allocator + Copy> Readable<'a, A> for GetChildrenResponse<A> {
    ghost takes_memory = { true };

    fn read(alloc: A, at: &mut Cursor<'a>) -> Result<GetChildrenResponse<A>, TakeError> {
        let children = List::read(alloc, at)?;
        Ok(GetChildrenResponse { children })
    }
}
