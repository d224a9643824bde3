//! What a connection brings.

use std::alloc::Allocator;

/// What a connection brings within a time.
#[derive(Drop)]
pub enum Brought<A: Allocator> {
    /// Bytes, at least one and at most 65,536.
    Piece(Vec<u8, A>),
    /// None in time, or the read was interrupted.
    Nothing,
    /// None any more: it has ended, or it has failed.
    End,
}
