//! What is kept of the children of a node.

use crate::sorted_names::SortedNames;
use std::alloc::{Allocator, Global};

/// The names of a node's children as they are kept, and the zxid of the last change of this set.
#[derive(Drop)]
pub struct Children<A: Allocator = Global> {
    pub names: SortedNames<A>,
    pub pzxid: i64,
}
