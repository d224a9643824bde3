//! Why logs tell no history.

ghost use Rattle.zk_log_history.specs.declared.untold.Untold.TheVariants as untold;
ghost use Rattle.std.specs.Prelude.{◌≡◌};

use std::alloc::{AllocError, AllocFailed};
use std::error::Error;
use std::fmt;
use zk_history::HistoryFault;
use zk_log::EntryFault;
use zk_nodes::PathFault;

/// Why an entry is no transaction of the history so far.
#[derive(Clone, Copy, Debug)]
pub enum Untold {
    /// A path of it is none.
    Path(PathFault),
    /// A part of a multi cannot be read.
    Part(EntryFault),
    /// Its zxid is not above the one before, and above 0.
    Order,
    /// Transactions before it are missing, by its zxid and the one before.
    Missing,
    /// A change of it is none that the tree admits.
    Illegal,
    /// The allocator refused a request.
    Memory,
}

/// Why logs tell no history: the first entry that is no transaction, by the place of its record.
#[derive(Clone, Copy)]
pub struct UntoldEntry {
    pub place: usize,
    pub why: Untold,
}

impl fmt::Display for Untold {
    ghost use Rattle.std.specs.Prelude.{Some};
    ghost use Rattle.zk_log_history.specs.UntoldText.{untold_words};

    ghost output = { λ why. Some (untold_words why) };

    fn fmt<W: fmt::Write>(&self, f: &mut fmt::Formatter<W>) -> fmt::Result {
        match self {
            Untold::Path(fault) => write!(f, "a path: {fault}"),
            Untold::Part(fault) => write!(f, "a part of a multi: {fault}"),
            Untold::Order => write!(f, "its zxid is not above the one before"),
            Untold::Missing => write!(f, "transactions before it are not in the logs"),
            Untold::Illegal => write!(f, "the tree as it stands does not admit a change"),
            Untold::Memory => write!(f, "out of memory"),
        }
    }
}

impl Error for Untold {}

impl From<AllocError> for Untold {
    ghost from_gives = { λ _ e. e ≡ untold.Memory };

    fn from(_e: AllocError) -> Untold {
        Untold::Memory
    }
}

impl<T: Drop> From<AllocFailed<T>> for Untold {
    ghost from_gives = { λ _ e. e ≡ untold.Memory };

    fn from(_e: AllocFailed<T>) -> Untold {
        Untold::Memory
    }
}
