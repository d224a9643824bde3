//! The data of a node, as look-ups answer them.

use std::alloc::{Allocator, Global};
use zk_nodes::DataStat;

/// The data of a node, null or bytes, and the fields that change with them.
#[derive(Drop)]
pub struct Data<A: Allocator = Global> {
    pub bytes: Option<Vec<u8, A>>,
    pub stat: DataStat,
}
