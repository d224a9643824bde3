//! How a call ends, or a walk.

/// How a call ended, or a walk.
#[derive(Clone, Copy)]
pub enum CallEnd {
    /// It is done, and what was asked for is printed.
    Done,
    /// There is no such node.
    NoNode,
    /// It was refused: it is not done.
    Refused,
    /// No server has accepted a session: it is not done.
    Unconnected,
    /// There is no answer to it: it may or may not be done.
    Unanswered,
    /// As many nodes of a tree as may be are printed, and there are more.
    More,
    /// Memory ran out, and nothing is written.
    Memory,
    /// A write failed.
    Stream,
}
