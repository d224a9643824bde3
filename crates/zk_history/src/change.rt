//! Changes of the tree, and the transactions that make them.

ghost use Rattle.std.specs.Prelude.{◌<◌, ◌^◌};

use std::alloc::Allocator;
use zk_nodes::Path;

/// A change of the tree.
#[derive(Drop)]
pub enum Change<A: Allocator> {
    /// A node is made, with its data, null or bytes, and the session that owns it, or 0.
    Create(Path<A>, Option<Vec<u8, A>>, i64),
    /// The data of a node are written.
    Set(Path<A>, Option<Vec<u8, A>>),
    /// A node is deleted.
    Delete(Path<A>),
}

// Changes under one zxid.
#[derive(Drop)]
pub(crate) struct Transaction<A: Allocator> {
    pub(crate) zxid: u64,
    pub(crate) time: i64,
    pub(crate) changes: Vec<Change<A>, A>,
    ghost small: { zxid < 2 ^ 63 },
}
