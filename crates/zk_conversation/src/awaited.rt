//! What is pending.

use crate::question::Question;
use std::alloc::Allocator;

/// A request whose reply is awaited.
#[derive(Drop)]
pub(crate) struct Awaited<A: Allocator> {
    pub(crate) xid: i32,
    pub(crate) waiting: Waiting<A>,
}

/// What waits for the reply.
#[derive(Drop)]
pub(crate) enum Waiting<A: Allocator> {
    /// A part of setWatches.
    Part { last: bool },
    /// A call, by the caller's number.
    Call { ticket: u64, question: Question<A> },
}
