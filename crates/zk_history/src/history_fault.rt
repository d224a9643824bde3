//! Why a history refuses what it is given.

ghost use Rattle.std.specs.Prelude.{◌≡◌};
ghost use Rattle.zk_history.specs.FaultText.{history_fault_code};
ghost use Rattle.zk_history.specs.declared.history_fault.HistoryFault.TheVariants as history_faults;

use std::alloc::AllocError;
use std::error::Error;
use std::fmt;

/// Why a history refuses what it is given: the first fault that applies, in this order.
#[derive(Clone, Copy, Debug)]
pub enum HistoryFault {
    /// A node of the first tree comes after the first transaction, or a change before it.
    Place,
    /// A zxid is below 1, or not above the one before.
    Order,
    /// The tree as it stands does not admit the node or the change, or no `Stat` could tell what it makes.
    Illegal,
    /// Memory ran out.
    Memory,
}

impl HistoryFault {
    /// The code of the fault, `H1` to `H4`.
    pub fn code(self) -> &'static str
        ensures { result.now ≡ history_fault_code self }
    {
        match self {
            HistoryFault::Place => "H1",
            HistoryFault::Order => "H2",
            HistoryFault::Illegal => "H3",
            HistoryFault::Memory => "H4",
        }
    }
}

impl fmt::Display for HistoryFault {
    ghost use Rattle.std.specs.Prelude.{Some};
    ghost use Rattle.zk_history.specs.FaultText.{history_fault_words};

    ghost output = { λ f. Some (history_fault_words f) };

    fn fmt<W: fmt::Write>(&self, f: &mut fmt::Formatter<W>) -> fmt::Result {
        f.write_str(match self {
            HistoryFault::Place => {
                "a node of the first tree comes after the first transaction, or a change before it"
            }
            HistoryFault::Order => "a zxid is below 1, or not above the one before",
            HistoryFault::Illegal => "the tree as it stands does not admit the node or the change",
            HistoryFault::Memory => "out of memory",
        })
    }
}

impl Error for HistoryFault {}

impl From<AllocError> for HistoryFault {
    ghost from_gives = { λ _ f. f ≡ history_faults.Memory };

    fn from(_e: AllocError) -> HistoryFault {
        HistoryFault::Memory
    }
}
