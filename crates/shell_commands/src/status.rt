//! How a command ended.

/// How a command ended; its number is the program's exit status.
#[derive(Clone, Copy, PartialEq, Eq)]
pub enum Status {
    /// It is done.
    Done = 0,
    /// The input has a fault, which was told.
    Fault = 1,
    /// The command line has a fault, which was told.
    Usage = 2,
    /// Memory ran out.
    Memory = 3,
    /// Standard input or output failed.
    Stream = 4,
    /// There is no such node, which was told.
    NoNode = 5,
    /// The call was refused, which was told.
    Refused = 6,
    /// No server has accepted a session, which was told.
    Unconnected = 7,
    /// There is no answer to the call, which was told: it may or may not be done.
    Unanswered = 8,
    /// The time of a watch is over, and no server has ever accepted its session.
    NeverConnected = 9,
    /// The file that is named gives no data, which was told.
    Unread = 10,
    /// As many nodes of a tree as are to be are printed, and there are more, which was told.
    More = 11,
}
