//! Why a path is not registered.

ghost use Rattle.std.specs.Prelude.{◌≡◌};
ghost use Rattle.zk_watches.specs.FaultText.{register_fault_code};
ghost use Rattle.zk_watches.specs.declared.register_fault.RegisterFault.TheVariants as register_faults;

use std::alloc::AllocError;
use std::error::Error;
use std::fmt;

/// Why a path is not registered: the first fault that applies, in this order.
#[derive(Clone, Copy, Debug)]
pub enum RegisterFault {
    /// The path is new to its side, and the side has all the paths that it can hold.
    Full,
    /// Memory ran out.
    Memory,
}

impl RegisterFault {
    /// The code of the fault, `W1` or `W2`.
    pub fn code(self) -> &'static str
        ensures { result.now ≡ register_fault_code self }
    {
        match self {
            RegisterFault::Full => "W1",
            RegisterFault::Memory => "W2",
        }
    }
}

impl fmt::Display for RegisterFault {
    ghost use Rattle.std.specs.Prelude.{Some};
    ghost use Rattle.zk_watches.specs.FaultText.{register_fault_words};

    ghost output = { λ f. Some (register_fault_words f) };

    fn fmt<W: fmt::Write>(&self, f: &mut fmt::Formatter<W>) -> fmt::Result {
        match self {
            RegisterFault::Full => write!(f, "65,536 paths of the side are watched"),
            RegisterFault::Memory => write!(f, "out of memory"),
        }
    }
}

impl Error for RegisterFault {}

impl From<AllocError> for RegisterFault {
    ghost from_gives = { λ _ e. e ≡ register_faults.Memory };

    fn from(_error: AllocError) -> RegisterFault {
        RegisterFault::Memory
    }
}
