//! Why there is no connection.

ghost use Rattle.std.specs.Prelude.{◌≡◌};
ghost use Rattle.zk_driver.specs.inner.Reads.{reason_of};

use std::io::ErrorKind;

/// Why a connection could not be made, or why one has ended, as far as it is known.
#[derive(Clone, Copy)]
pub enum Reason {
    /// The other side has ended it: no more bytes come.
    EndOfStream,
    /// Nobody listens at the address.
    Refused,
    /// It took too long.
    TimedOut,
    /// The other side has broken it off.
    Reset,
    /// No way leads to the address.
    Unreachable,
    /// The address is a name, and nothing was found for it.
    NotFound,
    /// A write failed.
    Unwritten,
    /// Anything else.
    Other,
}

/// The reason that an error has.
pub(crate) fn reason_of(kind: ErrorKind) -> Reason
    ensures { result ≡ reason_of kind }
{
    match kind {
        ErrorKind::ConnectionRefused => Reason::Refused,
        ErrorKind::TimedOut => Reason::TimedOut,
        ErrorKind::ConnectionReset => Reason::Reset,
        ErrorKind::HostUnreachable => Reason::Unreachable,
        ErrorKind::NetworkUnreachable => Reason::Unreachable,
        ErrorKind::NotFound => Reason::NotFound,
        _ => Reason::Other,
    }
}
