//! What is watched, and for how long.

use std::alloc::Allocator;
use zk_client::Path;
use zk_trees::NodeSide;

/// How lines are printed.
#[derive(Clone, Copy)]
pub enum Style {
    /// In words, and data in hex.
    Hex,
    /// In words, and data in quotes, with the escapes of JSON, if they are text: UTF-8 with no control character other than tab and
    /// newline. Else in hex.
    Text,
    /// An object of JSON a line.
    Json,
}

/// What to watch, for how long, by which timeout, and how it is printed.
#[derive(Drop)]
pub struct WatchPlan<'a, A: Allocator + Copy> {
    /// What the dial takes: for `Tcp` a host and a port each.
    pub addresses: &'a [&'a str],
    pub subjects: Vec<NodeSide<A>, A>,
    /// The roots of trees: the data of each and the names below it are watched, and those of each node below it, as it comes to be known.
    pub trees: Vec<Path<A>, A>,
    /// Of a tree that is known to have more nodes than this, no more are taken on.
    pub most: u64,
    /// The timeout to ask for, in milliseconds; one below 1 counts as 1.
    pub timeout_ms: i32,
    /// How long, in milliseconds; none: until output fails.
    pub for_ms: Option<u64>,
    pub style: Style,
}
