//! Where a connection is.

/// Where a connection is.
#[derive(Clone, Copy)]
pub enum Phase {
    /// There is none, and what the last one left may be taken.
    Closed,
    /// The ConnectRequest was sent, and its answer is awaited.
    Opening,
    /// The answer came, and requests may be sent.
    Talking,
}
