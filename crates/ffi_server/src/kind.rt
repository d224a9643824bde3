//! Kinds of changes.

ghost use Rattle.std.specs.Prelude.{◌≡◌};
ghost use Rattle.ffi_server.specs.Changes.{kind_told};

/// What a change does with a node.
#[derive(Clone, Copy)]
pub(crate) enum Kind {
    /// It is made, with an owner.
    Made,
    /// Its data are written.
    Written,
    /// It is deleted.
    Deleted,
}

/// The kind of this number: 1 makes a node, 2 writes its data, 3 deletes it.
pub(crate) fn kind_of(number: i32) -> Option<Kind>
    ensures { result ≡ kind_told number }
{
    match number {
        1 => Some(Kind::Made),
        2 => Some(Kind::Written),
        3 => Some(Kind::Deleted),
        _ => None,
    }
}
