//! What is followed: a side of a node.

ghost use Rattle.std.specs.Prelude.{◌≡◌, ◌&&◌, IfOk, bytes_eq};
ghost use Rattle.zk_client.specs.Clients.{view_of};
ghost use Rattle.zk_follow.specs.Following.{is_kept, says_none};
ghost use Rattle.zk_trees.specs.Trees.{aim_of, is_side};

use std::alloc::{AllocError, Allocator};
use zk_client::{Client, DataAnswer, Mark, Path, Side};

/// What is followed: the data of a node, or the names below it.
#[derive(Drop)]
pub struct NodeSide<A: Allocator> {
    pub side: Side,
    pub path: Path<A>,
}

/// A copy of a path. An error means that memory ran out.
pub fn copy_of<A: Allocator + Copy>(alloc: A, path: &Path<A>) -> Result<Path<A>, AllocError>
    ensures { IfOk result (λ copy. copy ≡ path.now) }
{
    match Path::new(alloc, path.as_str()) {
        Ok(copy) => Ok(copy),
        Err(_) => Err(AllocError),
    }
}

/// Whether it is kept and good that there is no node.
pub fn is_missing<A: Allocator + Copy>(client: &Client<A>, path: &Path<A>) -> bool
    ensures { result ≡ is_kept says_none ((view_of client.now).cache.nodes path.now) }
{
    matches!(
        client.peek_data(path),
        Some((DataAnswer::Absent, Mark::Good))
    )
}

/// Whether both are data, or both names.
fn is_side(side: Side, other: Side) -> bool
    ensures { result ≡ is_side side other }
{
    matches!(
        (side, other),
        (Side::Data, Side::Data) | (Side::Child, Side::Child)
    )
}

impl<A: Allocator + Copy> NodeSide<A> {
    /// A side of a copy of a path. An error means that memory ran out.
    pub fn of(alloc: A, side: Side, path: &Path<A>) -> Result<NodeSide<A>, AllocError>
        ensures { IfOk result (λ subject. aim_of subject ≡ (side, path.now)) }
    {
        let path = copy_of(alloc, path)?;
        Ok(NodeSide { side, path })
    }

    /// Whether both are the same side of the same path.
    pub fn is_same(&self, other: &NodeSide<A>) -> bool
        ensures { result ≡ (is_side self.now.side other.now.side && bytes_eq self.now.path other.now.path) }
    {
        is_side(self.side, other.side) && self.path.as_str() == other.path.as_str()
    }
}
