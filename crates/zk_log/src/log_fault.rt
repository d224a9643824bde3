//! Why a log could not be read.

ghost use Rattle.zk_log.specs.declared.log_fault.LogFault.TheVariants as faults;
ghost use Rattle.std.specs.Prelude.{◌≡◌};

use crate::entry_fault::EntryFault;
use std::alloc::{AllocError, AllocFailed};
use std::error::Error;
use std::fmt;
use zk_jute::TakeError;

/// Why a log could not be read: the first fault from left to right. A place is a number of bytes, counted from the file's first.
#[derive(Clone, Copy, Debug)]
pub enum LogFault {
    /// The header of the file cannot be read.
    Header(TakeError),
    /// The file does not begin with `ZKLG`.
    Magic,
    /// The format's version is not 2.
    Version(i32),
    /// The record at this place has a length below 1, and its rest is no zeros.
    Length(usize),
    /// Trailing the entry of the record at this place stands no `B`.
    EndByte(usize),
    /// The record at this place has another checksum than its entry.
    Checksum(usize),
    /// The entry of the record at this place, whose checksum is right, cannot be read. Places in its fault are counted from the entry's
    /// first byte, which is the record's 13th.
    Entry(usize, EntryFault),
    /// The record at this place has this zxid, which is not above that of the record before, and above 0.
    Order(usize, i64),
    /// The allocator refused a request.
    Memory,
}

impl fmt::Display for LogFault {
    ghost use Rattle.std.specs.Prelude.{Some};
    ghost use Rattle.zk_log.specs.FaultText.{log_fault_words};

    ghost output = { λ fault. Some (log_fault_words fault) };

    fn fmt<W: fmt::Write>(&self, f: &mut fmt::Formatter<W>) -> fmt::Result {
        match self {
            LogFault::Header(fault) => write!(f, "byte 0: no log: {fault}"),
            LogFault::Magic => write!(f, "byte 0: no log: it does not begin with ZKLG"),
            LogFault::Version(number) => {
                write!(f, "byte 4: version {number} of the format is unknown")
            }
            LogFault::Length(place) => write!(f, "byte {place}: a record of no length"),
            LogFault::EndByte(place) => write!(f, "byte {place}: a record whose end is no B"),
            LogFault::Checksum(place) => {
                write!(f, "byte {place}: a record with another checksum")
            }
            LogFault::Entry(place, fault) => write!(f, "byte {place}: an entry: {fault}"),
            LogFault::Order(place, zxid) => {
                write!(f, "byte {place}: zxid {zxid} is not above the one before")
            }
            LogFault::Memory => write!(f, "out of memory"),
        }
    }
}

impl Error for LogFault {}

impl From<AllocError> for LogFault {
    ghost from_gives = { λ _ e. e ≡ faults.Memory };

    fn from(_e: AllocError) -> LogFault {
        LogFault::Memory
    }
}

impl<T: Drop> From<AllocFailed<T>> for LogFault {
    ghost from_gives = { λ _ e. e ≡ faults.Memory };

    fn from(_e: AllocFailed<T>) -> LogFault {
        LogFault::Memory
    }
}
