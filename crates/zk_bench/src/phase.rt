//! How far a connection is.

/// How far the connection to a server is.
#[derive(Clone, Copy, PartialEq, Eq)]
pub(crate) enum Phase {
    /// No server is connected.
    Apart,
    /// A server is connected, and the client has not been accepted.
    Opening,
    /// The server has accepted the client.
    Accepted,
    /// The server has ended the connection. What it sent before can still be taken out.
    Ended,
}
