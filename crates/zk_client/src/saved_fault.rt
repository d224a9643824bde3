//! Why nothing is taken for a saved session.

ghost use Rattle.std.specs.Prelude.{◌≡◌};
ghost use Rattle.zk_client.specs.declared.saved_fault.SavedFault.TheVariants as saved_faults;

use std::alloc::AllocError;
use std::error::Error;
use std::fmt;
use zk_jute::TakeError;

/// Why a text, bytes or numbers are no saved session: the first reason that applies, in the order of the variants. A place is
/// counted in bytes, from 0.
#[derive(Clone, Copy, Debug)]
pub enum SavedFault {
    /// The text has an odd number of bytes: how many. It is told also where not all of them are digits.
    OddDigits { count: usize },
    /// The text has a byte that is no hexadecimal digit. The place of the first one.
    NotHex { place: usize },
    /// The bytes begin with no record of a saved session. It never says that memory ran out.
    Unread(TakeError),
    /// There are bytes after the record: how many.
    BytesBehind { count: usize },
    /// The password is null. One of no bytes is a password.
    NoPassword,
    /// The password has more than 4,194,284 bytes: how many.
    LongPassword { length: usize },
    /// The last seen zxid is below 0: which it is.
    NegativeZxid { last_zxid: i64 },
    /// The allocator refused a request. It comes last, except for a text: its bytes take memory before its digits are read.
    Memory,
}

impl fmt::Display for SavedFault {
    ghost use Rattle.std.specs.Prelude.{Some};
    ghost use Rattle.zk_client.specs.SavedSessions.{saved_fault_text};

    ghost output = { λ fault. Some (saved_fault_text fault) };

    fn fmt<W: fmt::Write>(&self, f: &mut fmt::Formatter<W>) -> fmt::Result {
        match self {
            SavedFault::OddDigits { count } => {
                write!(f, "an odd number of hexadecimal digits: {count}")
            }
            SavedFault::NotHex { place } => {
                write!(f, "the byte at place {place} is no hexadecimal digit")
            }
            SavedFault::Unread(fault) => write!(f, "no saved session: {fault}"),
            SavedFault::BytesBehind { count } => {
                write!(f, "bytes after the saved session: {count}")
            }
            SavedFault::NoPassword => write!(f, "the password is null"),
            SavedFault::LongPassword { length } => {
                write!(
                    f,
                    "a password of {length} bytes, where 4194284 are the most"
                )
            }
            SavedFault::NegativeZxid { last_zxid } => {
                write!(f, "the last seen zxid is below 0: {last_zxid}")
            }
            SavedFault::Memory => write!(f, "out of memory"),
        }
    }
}

impl Error for SavedFault {}

impl From<AllocError> for SavedFault {
    ghost from_gives = { λ _ fault. fault ≡ saved_faults.Memory };

    fn from(_e: AllocError) -> SavedFault {
        SavedFault::Memory
    }
}
