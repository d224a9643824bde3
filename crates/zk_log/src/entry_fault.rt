//! Why an entry could not be read.

ghost use Rattle.zk_jute.specs.declared.fault.TakeError.TheVariants as take_errors;
ghost use Rattle.zk_log.specs.declared.entry_fault.EntryFault.TheVariants as faults;
ghost use Rattle.std.specs.Prelude.{◌≡◌};

use std::alloc::AllocError;
use std::error::Error;
use std::fmt;
use zk_jute::TakeError;

/// Why an entry could not be read: the first fault from left to right. A place is a number of bytes, counted from the entry's first.
#[derive(Clone, Copy, Debug)]
pub enum EntryFault {
    /// Its header, its fields or its digest cannot be read.
    Unread(TakeError),
    /// Its header is whole, and the number is no operation's.
    Unknown(i32),
    /// Bytes come after its end, from this place on.
    Trailing(usize),
}

impl fmt::Display for EntryFault {
    ghost use Rattle.std.specs.Prelude.{Some};
    ghost use Rattle.zk_log.specs.FaultText.{entry_fault_words};

    ghost output = { λ fault. Some (entry_fault_words fault) };

    fn fmt<W: fmt::Write>(&self, f: &mut fmt::Formatter<W>) -> fmt::Result {
        match self {
            EntryFault::Unread(fault) => write!(f, "{fault}"),
            EntryFault::Unknown(number) => write!(f, "unknown type {number}"),
            EntryFault::Trailing(place) => write!(
                f,
                "bytes come after its end, from byte {place} on"
            ),
        }
    }
}

impl Error for EntryFault {}

impl From<TakeError> for EntryFault {
    ghost from_gives = { λ e fault. fault ≡ faults.Unread e };

    fn from(fault: TakeError) -> EntryFault {
        EntryFault::Unread(fault)
    }
}

impl From<AllocError> for EntryFault {
    ghost from_gives = { λ _ fault. fault ≡ faults.Unread take_errors.Memory };

    fn from(_e: AllocError) -> EntryFault {
        EntryFault::Unread(TakeError::Memory)
    }
}
