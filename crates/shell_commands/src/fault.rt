//! Why nothing could be shown.

use script_replay::faults::ToldFault;
use std::fmt;
use zk_frames::FrameFault;
use zk_jute::TakeError;
use zk_records::RequestFault;

/// Why nothing could be shown: the first that applies, in this order.
#[derive(Clone, Copy)]
pub enum ShowFault {
    /// The text is not hex.
    Hex,
    /// The frame is cut off.
    Incomplete,
    /// The frame's length is below 0.
    Negative,
    /// The frame's length is above 4,194,304.
    TooLong,
    /// Bytes stand after the frame.
    BytesAfter,
    /// A request's header names a type that no operation has.
    Unknown(i32),
    /// The payload has another fault.
    Reading(TakeError),
    /// Memory ran out, at any place.
    Memory,
}

impl fmt::Display for ShowFault {
    ghost use Rattle.std.specs.Prelude.{Some};
    ghost use Rattle.shell_commands.specs.Show.{fault_text};

    ghost output = { λ f. Some (fault_text f) };

    fn fmt<W: fmt::Write>(&self, f: &mut fmt::Formatter<W>) -> fmt::Result {
        match self {
            ShowFault::Hex => write!(f, "fault: hex"),
            ShowFault::Incomplete => write!(f, "fault: incomplete frame"),
            ShowFault::Negative => write!(f, "fault: {}", FrameFault::Negative.code()),
            ShowFault::TooLong => write!(f, "fault: {}", FrameFault::TooLong.code()),
            ShowFault::BytesAfter => write!(f, "fault: bytes after the frame"),
            ShowFault::Unknown(number) => write!(f, "fault: unknown type {number}"),
            ShowFault::Reading(e) => write!(f, "fault: {}", ToldFault(*e)),
            ShowFault::Memory => write!(f, "out of memory"),
        }
    }
}

impl From<RequestFault> for ShowFault {
    ghost use Rattle.std.specs.Prelude.{◌≡◌};
    ghost use Rattle.shell_commands.specs.inner.Show.{shown_fault};

    ghost from_gives = { λ e f. f ≡ shown_fault e };

    fn from(e: RequestFault) -> ShowFault {
        match e {
            RequestFault::Unknown(number) => ShowFault::Unknown(number),
            RequestFault::Unread(TakeError::Memory) => ShowFault::Memory,
            RequestFault::Unread(e) => ShowFault::Reading(e),
        }
    }
}
