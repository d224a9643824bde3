//! What is followed of trees.

ghost use Rattle.std.specs.Prelude.{◌≡◌, IfOk};
ghost use Rattle.zk_trees.specs.Trees.{aim_of};

use crate::subject::NodeSide;
use std::alloc::{AllocError, Allocator};

/// A subject that is followed by a ticket, whether it was found below a root, and what the one who follows it notes of it.
#[derive(Drop)]
pub(crate) struct Member<A: Allocator, N: Drop> {
    pub(crate) subject: NodeSide<A>,
    pub(crate) ticket: u64,
    pub(crate) is_found: bool,
    pub(crate) note: N,
}

/// A side of a node, as it is followed by this ticket. An error means that memory ran out.
pub(crate) fn member_of<A: Allocator + Copy>(
    alloc: A,
    ticket: u64,
    subject: &NodeSide<A>,
    is_found: bool,
) -> Result<Member<A, ()>, AllocError>
    ensures aim { IfOk result (λ one. aim_of one.subject ≡ aim_of subject.now) }
    ensures ticket { IfOk result (λ one. one.ticket ≡ ticket) }
    ensures found { IfOk result (λ one. one.is_found ≡ is_found) }
{
    let subject = NodeSide::of(alloc, subject.side, &subject.path)?;
    Ok(Member {
        subject,
        ticket,
        is_found,
        note: (),
    })
}
