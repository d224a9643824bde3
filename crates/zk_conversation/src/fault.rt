//! What can be wrong with a request, and with what arrives.

ghost use Rattle.std.specs.Prelude.{◌≡◌};
ghost use Rattle.zk_conversation.specs.FaultText.{ask_fault_code, talk_fault_code};
ghost use Rattle.zk_conversation.specs.declared.fault.AskFault.TheVariants as ask_faults;

use std::alloc::{AllocError, AllocFailed};
use std::error::Error;
use std::fmt;
use zk_jute::TakeError;

/// Why a call is not sent: the first that applies. Nothing was sent then, and nothing changed.
#[derive(Clone, Copy, Debug)]
pub enum AskFault {
    /// A1: its payload is above the limit of outgoing payloads.
    TooLarge,
    /// A2: as many calls are pending as may be.
    TooMany,
    /// A3: the allocator refused a request.
    Memory,
}

impl AskFault {
    /// The code of the fault, `A1` to `A3`.
    pub fn code(self) -> &'static str
        ensures { result.now ≡ ask_fault_code self }
    {
        match self {
            AskFault::TooLarge => "A1",
            AskFault::TooMany => "A2",
            AskFault::Memory => "A3",
        }
    }
}

impl fmt::Display for AskFault {
    ghost use Rattle.std.specs.Prelude.{Some};
    ghost use Rattle.zk_conversation.specs.FaultText.{ask_fault_words};

    ghost output = { λ fault. Some (ask_fault_words fault) };

    fn fmt<W: fmt::Write>(&self, f: &mut fmt::Formatter<W>) -> fmt::Result {
        match self {
            AskFault::TooLarge => write!(f, "the payload has more than 1,048,575 bytes"),
            AskFault::TooMany => write!(f, "1,024 calls are pending"),
            AskFault::Memory => write!(f, "out of memory"),
        }
    }
}

impl Error for AskFault {}

impl From<AllocError> for AskFault {
    ghost from_gives = { λ _ fault. fault ≡ ask_faults.Memory };

    fn from(_e: AllocError) -> AskFault {
        AskFault::Memory
    }
}

impl<T: Drop> From<AllocFailed<T>> for AskFault {
    ghost from_gives = { λ _ fault. fault ≡ ask_faults.Memory };

    fn from(_e: AllocFailed<T>) -> AskFault {
        AskFault::Memory
    }
}

/// Why a payload is not taken. What the peer sent breaks the protocol then, or memory was refused.
#[derive(Clone, Copy, Debug)]
pub enum TalkFault {
    /// C1: the payload has fewer than the 16 bytes of a header.
    BadHeader,
    /// C2: a reply came, and no request is pending.
    NobodyAsked { came: i32 },
    /// C3: the reply has another xid than the oldest pending request.
    OtherXid { awaited: i32, came: i32 },
    /// C4: the record of a reply, or the answer to the ConnectRequest, doesn't read.
    BadRecord(TakeError),
    /// C5: the record of a notice doesn't read.
    BadNotice(TakeError),
    /// C6: the allocator refused a request.
    Memory,
}

impl TalkFault {
    /// The code of the fault, `C1` to `C6`: its values are no part of it.
    pub fn code(self) -> &'static str
        ensures { result.now ≡ talk_fault_code self }
    {
        match self {
            TalkFault::BadHeader => "C1",
            TalkFault::NobodyAsked { .. } => "C2",
            TalkFault::OtherXid { .. } => "C3",
            TalkFault::BadRecord(_) => "C4",
            TalkFault::BadNotice(_) => "C5",
            TalkFault::Memory => "C6",
        }
    }
}

impl fmt::Display for TalkFault {
    ghost use Rattle.std.specs.Prelude.{Some};
    ghost use Rattle.zk_conversation.specs.FaultText.{talk_fault_words};

    ghost output = { λ fault. Some (talk_fault_words fault) };

    fn fmt<W: fmt::Write>(&self, f: &mut fmt::Formatter<W>) -> fmt::Result {
        match self {
            TalkFault::BadHeader => write!(f, "a payload has fewer than the 16 bytes of a header"),
            TalkFault::NobodyAsked { came } => {
                write!(f, "a reply with xid {came} came, and no request is pending")
            }
            TalkFault::OtherXid { awaited, came } => {
                write!(
                    f,
                    "a reply is awaited with xid {awaited}, and one came with xid {came}"
                )
            }
            TalkFault::BadRecord(fault) => write!(f, "a reply does not read: {fault}"),
            TalkFault::BadNotice(fault) => write!(f, "a notice does not read: {fault}"),
            TalkFault::Memory => write!(f, "out of memory"),
        }
    }
}

impl Error for TalkFault {}
