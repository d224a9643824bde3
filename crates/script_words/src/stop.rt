//! Why a line of a script is not done.

ghost use Rattle.std.specs.Prelude.{◌≡◌};
ghost use Rattle.script_words.specs.Stops.{stop_of};
ghost use Rattle.script_words.specs.declared.stop.LineStop.TheVariants as stops;

use crate::script_fault::ScriptFault;
use std::alloc::AllocError;

/// Why a line is not done.
#[derive(Clone, Copy)]
pub enum LineStop {
    /// Its words are refused.
    Refused(ScriptFault),
    /// A step of the client ran out of memory.
    Halted,
    /// Memory ran out elsewhere.
    Memory,
}

impl From<ScriptFault> for LineStop {
    ghost from_gives = { λ fault stop. stop ≡ stop_of fault };

    fn from(fault: ScriptFault) -> LineStop {
        match fault {
            ScriptFault::Memory => LineStop::Memory,
            fault => LineStop::Refused(fault),
        }
    }
}

impl From<AllocError> for LineStop {
    ghost from_gives = { λ _ stop. stop ≡ stops.Memory };

    fn from(_e: AllocError) -> LineStop {
        LineStop::Memory
    }
}
