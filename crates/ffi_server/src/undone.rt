//! Why a server in memory does not do what it is asked.

ghost use Rattle.std.specs.Prelude.{◌≡◌};
ghost use Rattle.ffi_server.specs.Codes.{undone_code, code_of};

use std::alloc::AllocError;

/// Why a server in memory does not do what it is asked. Nothing happened then, except what is said of `Memory` where it may be told. What
/// the tree does not admit has the number by which a server tells a client.
#[derive(Clone, Copy)]
pub enum Undone {
    /// There is nothing to do.
    Nothing,
    /// Memory ran out; or data are longer than a `Stat` can tell, or a node would have more children.
    Memory,
    /// The path is no UTF-8.
    NotText,
    /// The text is no path.
    NotPath,
    /// The server has no number from 1 to 8.
    NoSuchServer,
    /// No kind of change has this number.
    NoSuchKind,
    /// The root is to be deleted, or a version is at its end.
    BadArguments,
    /// The zxid or the time would be past 2^63 - 1, or a transaction has not one change, or a time below 0.
    NoTransaction,
    /// No node is at the path, or at its parent's if one is to be made.
    NoNode,
    /// The node below which one is to be made is ephemeral.
    NoChildrenForEphemerals,
    /// A node is there already.
    NodeExists,
    /// The node has children.
    NotEmpty,
}

impl Undone {
    /// Its number.
    pub fn code(self) -> i32
        ensures { result ≡ undone_code self }
    {
        match self {
            Undone::Nothing => 1,
            Undone::Memory => -2,
            Undone::NotText => -4,
            Undone::NotPath => -5,
            Undone::NoSuchServer => -6,
            Undone::NoSuchKind => -7,
            Undone::BadArguments => -8,
            Undone::NoTransaction => -9,
            Undone::NoNode => -101,
            Undone::NoChildrenForEphemerals => -108,
            Undone::NodeExists => -110,
            Undone::NotEmpty => -111,
        }
    }
}

impl From<AllocError> for Undone {
    ghost use Rattle.std.specs.Prelude.{◌≡◌};
    ghost use Rattle.ffi_server.specs.declared.undone.Undone.TheVariants.{Memory};

    ghost from_gives = { λ _ undone. undone ≡ Memory };

    fn from(_error: AllocError) -> Undone {
        Undone::Memory
    }
}

/// The number of what was done: 0, or that of why it was not.
pub fn code_of(done: Result<(), Undone>) -> i32
    ensures { result ≡ code_of done }
{
    match done {
        Ok(()) => 0,
        Err(undone) => undone.code(),
    }
}
