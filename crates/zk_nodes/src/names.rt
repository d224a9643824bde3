//! The names of a node's children.

use std::alloc::{Allocator, Global};
use std::collections::BTreeSet;

/// The names of a node's children, in byte order, and the zxid of the last change of this set.
#[derive(Drop)]
pub struct Names<A: Allocator = Global> {
    pub names: BTreeSet<String<A>, A>,
    pub pzxid: i64,
}
