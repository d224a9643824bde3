//! Faults, as lines of scripts tell them: by a code, and by their values.

ghost use Rattle.std.specs.Prelude.{◌≡◌, ◌++◌, OnOk, string_bytes};
ghost use Rattle.zk_client.specs.Views.{fault_view};
ghost use Rattle.script_replay.specs.FaultTexts.{fault_values, talk_values};
ghost use Rattle.script_replay.specs.Shown.{drop_words};

use crate::words::push_spaced;
use script_words::values::push_word;
use std::alloc::{AllocError, Allocator};
use std::fmt;
use zk_client::Fault;
use zk_conversation::TalkFault;
use zk_jute::TakeError;

/// A fault of reading as it is told: its code, and its place where it has one.
#[derive(Clone, Copy)]
pub struct ToldFault(pub TakeError);

impl fmt::Display for ToldFault {
    ghost use Rattle.std.specs.Prelude.{Some};
    ghost use Rattle.script_replay.specs.FaultTexts.{take_error_text};

    ghost output = { λ told. Some (take_error_text told.0) };

    fn fmt<W: fmt::Write>(&self, f: &mut fmt::Formatter<W>) -> fmt::Result {
        let place = match self.0 {
            TakeError::Memory => return f.write_str(self.0.code()),
            TakeError::Short(place) => place,
            TakeError::BadLength(place) => place,
            TakeError::BadBool(place) => place,
            TakeError::NotUtf8(place) => place,
        };
        write!(f, "{} at {place}", self.0.code())
    }
}

/// Adds the values of why a payload is not taken, a space before each.
fn push_talk_values<A: Allocator + Copy>(
    text: &mut String<A>,
    alloc: A,
    fault: TalkFault,
) -> Result<(), AllocError>
    ensures { OnOk result (string_bytes text.new ≡ string_bytes text.old ++ talk_values fault) }
{
    match fault {
        TalkFault::BadHeader | TalkFault::Memory => Ok(()),
        TalkFault::NobodyAsked { came } => push_word(text, alloc, &came),
        TalkFault::OtherXid { awaited, came } => {
            push_word(text, alloc, &awaited)?;
            push_word(text, alloc, &came)
        }
        TalkFault::BadRecord(fault) => push_word(text, alloc, &ToldFault(fault)),
        TalkFault::BadNotice(fault) => push_word(text, alloc, &ToldFault(fault)),
    }
}

/// Adds the values of why a connection is given up, a space before each.
fn push_values<A: Allocator + Copy>(
    text: &mut String<A>,
    alloc: A,
    fault: Fault,
) -> Result<(), AllocError>
    ensures { OnOk result (string_bytes text.new ≡ string_bytes text.old ++ fault_values (fault_view fault)) }
{
    match fault {
        Fault::Framed(_) | Fault::Silent => Ok(()),
        Fault::Talked(fault) => push_talk_values(text, alloc, fault),
        Fault::Behind { seen, came } => {
            push_word(text, alloc, &seen)?;
            push_word(text, alloc, &came)
        }
        Fault::WatchesRefused { code } => push_word(text, alloc, &code),
    }
}

/// Adds why a connection is given up, a space before it: the code of the fault, and its values.
pub fn push_fault<A: Allocator + Copy>(
    text: &mut String<A>,
    alloc: A,
    fault: &Fault,
) -> Result<(), AllocError>
    ensures { OnOk result (string_bytes text.new ≡ string_bytes text.old ++ drop_words (fault_view fault.now)) }
{
    push_spaced(text, fault.code())?;
    push_values(text, alloc, *fault)
}
