//! Why a text is no path, and why a path has no child.

ghost use Rattle.std.specs.Prelude.{◌≡◌};
ghost use Rattle.zk_nodes.specs.FaultText.{path_fault_code};
ghost use Rattle.zk_nodes.specs.declared.path_fault.PathFault.TheVariants as path_faults;

use std::alloc::AllocError;
use std::error::Error;
use std::fmt;

/// Why a text is no path: the first fault that applies, in this order. `SlashInName` is told of a name that is joined to a
/// path, and of no text.
#[derive(Clone, Copy, Debug)]
pub enum PathFault {
    /// It has no byte.
    Empty,
    /// It has more than 4,096 bytes.
    TooLong,
    /// Its first byte is no slash.
    NoSlashFirst,
    /// It has a character that no path may have: U+0000 to U+001F, U+007F to U+009F, U+E000 to U+F8FF, or U+FFF0
    /// and above.
    BadCharacter,
    /// It has an empty name: two slashes follow one another, or it ends with a slash and is not the root.
    EmptyName,
    /// It has a name `.` or `..`.
    DotName,
    /// A name that is to be joined to a path has a slash.
    SlashInName,
    /// Memory ran out.
    Memory,
}

impl PathFault {
    /// The code of the fault, `P1` to `P8`.
    pub fn code(self) -> &'static str
        ensures { result.now ≡ path_fault_code self }
    {
        match self {
            PathFault::Empty => "P1",
            PathFault::TooLong => "P2",
            PathFault::NoSlashFirst => "P3",
            PathFault::BadCharacter => "P4",
            PathFault::EmptyName => "P5",
            PathFault::DotName => "P6",
            PathFault::SlashInName => "P8",
            PathFault::Memory => "P7",
        }
    }
}

impl fmt::Display for PathFault {
    ghost use Rattle.std.specs.Prelude.{Some};
    ghost use Rattle.zk_nodes.specs.FaultText.{path_fault_words};

    ghost output = { λ f. Some (path_fault_words f) };

    fn fmt<W: fmt::Write>(&self, f: &mut fmt::Formatter<W>) -> fmt::Result {
        f.write_str(match self {
            PathFault::Empty => "the path is empty",
            PathFault::TooLong => "the path has more than 4,096 bytes",
            PathFault::NoSlashFirst => "the path does not begin with a slash",
            PathFault::BadCharacter => "the path has a character that no path may have",
            PathFault::EmptyName => {
                "the path has an empty name: two slashes follow one another, or it ends with a slash"
            }
            PathFault::DotName => "the path has a name of one dot or of two",
            PathFault::SlashInName => "the name has a slash",
            PathFault::Memory => "out of memory",
        })
    }
}

impl Error for PathFault {}

impl From<AllocError> for PathFault {
    ghost from_gives = { λ _ f. f ≡ path_faults.Memory };

    fn from(_e: AllocError) -> PathFault {
        PathFault::Memory
    }
}
