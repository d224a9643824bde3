//! Why a device does not do what it is asked.

ghost use Rattle.std.specs.Prelude.{◌≡◌};
ghost use Rattle.ffi_device.specs.Codes.{refusal_code, code_of};

use std::alloc::AllocError;
use zk_client::Halt;
use zk_conclusions::NoSubtree;

/// Why a device does not do what it is asked. But for `Halted`, nothing happened then.
#[derive(Clone, Copy)]
pub enum DeviceRefusal {
    /// The client ran out of memory within a step. It has no use from then on, but its saved session can be taken.
    Halted,
    /// There was no memory for what was given.
    Memory,
    /// The path is no UTF-8.
    NotText,
    /// The text is no path.
    NotPath,
    /// The timeout is not above 0.
    BadTimeout,
    /// No kind of node has this number.
    NoSuchMode,
    /// The bytes are no saved session.
    NotSaved,
    /// Not all nodes at and below the path are kept whole and good.
    NotWhole,
    /// There are more of them than were asked for.
    TooMany,
    /// The bytes are no texts that follow one another, each after its length.
    NotTexts,
    /// No operation that a caller may spell has this number.
    NoSuchOperation,
    /// The payload that introduces a session by this credential has more bytes than a server takes.
    CredentialTooLarge,
    /// No session may have these limits of payloads.
    NoSuchLimits,
    /// The bytes spell no ACL of one entry or more.
    NotAcl,
}

impl DeviceRefusal {
    /// Its number, below 0.
    pub fn code(self) -> i32
        ensures { result ≡ refusal_code self }
    {
        match self {
            DeviceRefusal::Halted => -1,
            DeviceRefusal::Memory => -2,
            DeviceRefusal::NotText => -4,
            DeviceRefusal::NotPath => -5,
            DeviceRefusal::BadTimeout => -6,
            DeviceRefusal::NoSuchMode => -7,
            DeviceRefusal::NotSaved => -8,
            DeviceRefusal::NotWhole => -9,
            DeviceRefusal::TooMany => -10,
            DeviceRefusal::NotTexts => -11,
            DeviceRefusal::NoSuchOperation => -12,
            DeviceRefusal::CredentialTooLarge => -13,
            DeviceRefusal::NoSuchLimits => -14,
            DeviceRefusal::NotAcl => -15,
        }
    }
}

impl From<AllocError> for DeviceRefusal {
    ghost use Rattle.std.specs.Prelude.{◌≡◌};
    ghost use Rattle.ffi_device.specs.declared.refusal.DeviceRefusal.TheVariants.{Memory};

    ghost from_gives = { λ _ refusal. refusal ≡ Memory };

    fn from(_error: AllocError) -> DeviceRefusal {
        DeviceRefusal::Memory
    }
}

impl From<Halt> for DeviceRefusal {
    ghost use Rattle.std.specs.Prelude.{◌≡◌};
    ghost use Rattle.ffi_device.specs.declared.refusal.DeviceRefusal.TheVariants.{Halted};

    ghost from_gives = { λ _ refusal. refusal ≡ Halted };

    fn from(_halt: Halt) -> DeviceRefusal {
        DeviceRefusal::Halted
    }
}

impl From<NoSubtree> for DeviceRefusal {
    ghost use Rattle.std.specs.Prelude.{◌≡◌};
    ghost use Rattle.ffi_device.specs.Codes.{refusal_of};

    ghost from_gives = { λ why refusal. refusal ≡ refusal_of why };

    fn from(why: NoSubtree) -> DeviceRefusal {
        match why {
            NoSubtree::NotWhole => DeviceRefusal::NotWhole,
            NoSubtree::TooMany => DeviceRefusal::TooMany,
            NoSubtree::Memory => DeviceRefusal::Memory,
        }
    }
}

/// The number of what was done: that of the refusal, and 0 if there is none.
pub fn code_of(done: Result<(), DeviceRefusal>) -> i32
    ensures { result ≡ code_of done }
{
    match done {
        Ok(()) => 0,
        Err(refusal) => refusal.code(),
    }
}
