//! Why a request could not be read.

ghost use Rattle.zk_records.specs.declared.request_fault.RequestFault.TheVariants as faults;
ghost use Rattle.std.specs.Prelude.{◌≡◌};
ghost use Rattle.std.specs.Option.{option_copied};
ghost use Rattle.zk_records.specs.FaultText.{request_fault_code};

use std::error::Error;
use std::fmt;
use zk_jute::TakeError;

/// Why a request could not be read: the first fault from left to right.
#[derive(Clone, Copy, Debug)]
pub enum RequestFault {
    /// The header is whole, and its type is none of the ten operations' numbers.
    Unknown(i32),
    /// The header or the record after it could not be read.
    Unread(TakeError),
}

impl RequestFault {
    /// The code of the fault of reading; an unknown type has none.
    pub fn code(self) -> Option<&'static str>
        ensures { option_copied result ≡ request_fault_code self }
    {
        match self {
            RequestFault::Unknown(_) => None,
            RequestFault::Unread(fault) => Some(fault.code()),
        }
    }
}

impl fmt::Display for RequestFault {
    ghost use Rattle.std.specs.Prelude.{Some};
    ghost use Rattle.zk_records.specs.FaultText.{request_fault_words};

    ghost output = { λ fault. Some (request_fault_words fault) };

    fn fmt<W: fmt::Write>(&self, f: &mut fmt::Formatter<W>) -> fmt::Result {
        match self {
            RequestFault::Unknown(number) => write!(f, "unknown type {number}"),
            RequestFault::Unread(fault) => write!(f, "{fault}"),
        }
    }
}

impl Error for RequestFault {}

impl From<TakeError> for RequestFault {
    ghost from_gives = { λ e fault. fault ≡ faults.Unread e };

    fn from(fault: TakeError) -> RequestFault {
        RequestFault::Unread(fault)
    }
}
