//! Why there is no subtree.

ghost use Rattle.std.specs.Prelude.{◌≡◌};
ghost use Rattle.zk_conclusions.specs.declared.no_subtree.NoSubtree.TheVariants as why;

use std::alloc::{AllocError, AllocFailed};
use std::error::Error;
use std::fmt;

/// Why there is no subtree.
#[derive(Clone, Copy, Debug)]
pub enum NoSubtree {
    /// A node that is reached through kept names is not kept with its data, or the names below it are not kept; one of both is not
    /// good; or one of the names makes no path. Read what is not good, and ask again.
    NotWhole,
    /// It has more nodes than were asked for.
    TooMany,
    /// Memory ran out.
    Memory,
}

impl fmt::Display for NoSubtree {
    fn fmt<W: fmt::Write>(&self, f: &mut fmt::Formatter<W>) -> fmt::Result {
        f.write_str(match self {
            NoSubtree::NotWhole => "the subtree is not whole",
            NoSubtree::TooMany => "the subtree has too many nodes",
            NoSubtree::Memory => "out of memory",
        })
    }
}

impl Error for NoSubtree {}

impl From<AllocError> for NoSubtree {
    ghost from_gives = { λ _ f. f ≡ why.Memory };

    fn from(_e: AllocError) -> NoSubtree {
        NoSubtree::Memory
    }
}

impl<T: Drop> From<AllocFailed<T>> for NoSubtree {
    ghost from_gives = { λ _ f. f ≡ why.Memory };

    fn from(_e: AllocFailed<T>) -> NoSubtree {
        NoSubtree::Memory
    }
}
