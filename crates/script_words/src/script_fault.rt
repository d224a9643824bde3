//! Why a script is refused.

ghost use Rattle.std.specs.Prelude.{◌≡◌};
ghost use Rattle.script_words.specs.declared.script_fault.ScriptFault.TheVariants as faults;

use std::alloc::AllocError;
use std::error::Error;
use std::fmt;
use zk_nodes::PathFault;

/// Why a line of a script is refused: the first reason that applies, in this order.
#[derive(Clone, Copy, Debug)]
pub enum ScriptFault {
    /// The first word is no line of the command.
    Unknown,
    /// The line is not allowed here.
    Place,
    /// The number of words is wrong, or a word is none of those allowed.
    Words,
    /// A number is none, or out of its range.
    Number,
    /// A word for bytes is no hex.
    Hex,
    /// A path is refused.
    Path(PathFault),
    /// A zxid is not above the one before it.
    Order,
    /// A change is not legal.
    Illegal,
    /// Memory ran out, at any place.
    Memory,
}

impl fmt::Display for ScriptFault {
    ghost use Rattle.std.specs.Prelude.{Some};
    ghost use Rattle.script_words.specs.ScriptFaults.{script_fault_text};

    ghost output = { λ f. Some (script_fault_text f) };

    fn fmt<W: fmt::Write>(&self, f: &mut fmt::Formatter<W>) -> fmt::Result {
        let words = match self {
            ScriptFault::Unknown => "unknown",
            ScriptFault::Place => "place",
            ScriptFault::Words => "words",
            ScriptFault::Number => "number",
            ScriptFault::Hex => "hex",
            ScriptFault::Path(fault) => return write!(f, "path {}", fault.code()),
            ScriptFault::Order => "order",
            ScriptFault::Illegal => "illegal",
            ScriptFault::Memory => "out of memory",
        };
        f.write_str(words)
    }
}

impl Error for ScriptFault {}

impl From<AllocError> for ScriptFault {
    ghost from_gives = { λ _ f. f ≡ faults.Memory };

    fn from(_e: AllocError) -> ScriptFault {
        ScriptFault::Memory
    }
}
