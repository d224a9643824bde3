//! What is asked, and how its answer is printed.

use std::alloc::Allocator;
use zk_client::{Call, Path};

/// How an answer is printed.
#[derive(Clone, Copy)]
pub enum Form {
    /// Data as text if they are text, and else in hex after `hex:`.
    Plain,
    /// Data in hex.
    Hex,
    /// The bytes of data as they are, and nothing else.
    Raw,
    /// Neither data nor a Stat.
    Quiet,
    /// An object of JSON in a line.
    Json,
}

/// A call, and how its answer is printed.
#[derive(Drop)]
pub struct CallPlan<'a, A: Allocator + Copy> {
    /// What the dial takes: for `Tcp` a host and a port each.
    pub addresses: &'a [&'a str],
    pub call: Call<A>,
    /// What the node is named in what is told.
    pub name: &'a str,
    /// What a path that is printed is below.
    pub chroot: &'a str,
    pub form: Form,
    /// How long to wait for the answer, in milliseconds.
    pub wait_ms: u64,
}

/// A tree whose paths are printed, and how.
#[derive(Drop)]
pub struct TreePlan<'a, A: Allocator + Copy> {
    /// What the dial takes: for `Tcp` a host and a port each.
    pub addresses: &'a [&'a str],
    /// The root's path.
    pub path: Path<A>,
    /// The root's path below the chroot, with which each path begins that is printed or told.
    pub name: Path<A>,
    /// How many levels below the root are gone through.
    pub deepest: u64,
    /// How many nodes are printed at most.
    pub most: u64,
    pub form: Form,
    /// How long to wait for all answers together, in milliseconds.
    pub wait_ms: u64,
}
