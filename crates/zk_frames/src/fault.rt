//! What can be wrong with a frame.
ghost use Rattle.std.specs.Prelude.{◌≡◌};
ghost use Rattle.zk_frames.specs.FaultText.{frame_fault_code, put_fault_code};

use std::alloc::AllocError;
use std::error::Error;
use std::fmt;

/// Why a reader gives no frame, or takes no piece.
#[derive(Clone, Copy, Debug)]
pub enum FrameFault {
    /// The length is below 0.
    Negative,
    /// The length is above the limit of incoming payloads.
    TooLong,
    /// A growth was refused.
    Memory,
}

impl FrameFault {
    /// The code of the fault, `F1` to `F3`.
    pub fn code(self) -> &'static str
        ensures { result.now ≡ frame_fault_code self }
    {
        match self {
            FrameFault::Negative => "F1",
            FrameFault::TooLong => "F2",
            FrameFault::Memory => "F3",
        }
    }
}

impl fmt::Display for FrameFault {
    ghost use Rattle.std.specs.Prelude.{Some};
    ghost use Rattle.zk_frames.specs.FaultText.{frame_fault_words};

    ghost output = { λ fault. Some (frame_fault_words fault) };

    fn fmt<W: fmt::Write>(&self, f: &mut fmt::Formatter<W>) -> fmt::Result {
        match self {
            FrameFault::Negative => write!(f, "the length of a frame is below 0"),
            FrameFault::TooLong => write!(f, "the length of a frame is above 4,194,304 bytes"),
            FrameFault::Memory => write!(f, "out of memory"),
        }
    }
}

impl Error for FrameFault {}

impl From<AllocError> for FrameFault {
    ghost use Rattle.std.specs.Prelude.{◌≡◌};
    ghost use Rattle.zk_frames.specs.declared.fault.FrameFault.TheVariants.{Memory};

    ghost from_gives = { λ _ e. e ≡ Memory };

    fn from(_e: AllocError) -> FrameFault {
        FrameFault::Memory
    }
}

/// Why no frame was put.
#[derive(Clone, Copy, Debug)]
pub enum PutFault {
    /// The payload is above the limit of outgoing payloads.
    TooLarge,
    /// A growth was refused.
    Memory,
}

impl PutFault {
    /// The code of the fault, `G1` or `G2`.
    pub fn code(self) -> &'static str
        ensures { result.now ≡ put_fault_code self }
    {
        match self {
            PutFault::TooLarge => "G1",
            PutFault::Memory => "G2",
        }
    }
}

impl fmt::Display for PutFault {
    ghost use Rattle.std.specs.Prelude.{Some};
    ghost use Rattle.zk_frames.specs.FaultText.{put_fault_words};

    ghost output = { λ fault. Some (put_fault_words fault) };

    fn fmt<W: fmt::Write>(&self, f: &mut fmt::Formatter<W>) -> fmt::Result {
        match self {
            PutFault::TooLarge => write!(f, "the payload has more than 1,048,575 bytes"),
            PutFault::Memory => write!(f, "out of memory"),
        }
    }
}

impl Error for PutFault {}

impl From<AllocError> for PutFault {
    ghost use Rattle.std.specs.Prelude.{◌≡◌};
    ghost use Rattle.zk_frames.specs.declared.fault.PutFault.TheVariants.{Memory};

    ghost from_gives = { λ _ e. e ≡ Memory };

    fn from(_e: AllocError) -> PutFault {
        PutFault::Memory
    }
}
