//! The last read of a connection.

ghost use Rattle.std.specs.Prelude.{◌≡◌};
ghost use Rattle.zk_driver.specs.inner.Driving.{is_nothing, look_after};

use std::alloc::Allocator;
use zk_link::Brought;

/// A read: the moment at which it began, or one before that; its number in a row of reads, one after the other; and whether it brought
/// nothing.
#[derive(Clone, Copy)]
pub(crate) struct Look {
    pub(crate) began: u64,
    pub(crate) row: u32,
    pub(crate) is_quiet: bool,
}

/// Whether a read has brought nothing.
pub(crate) fn is_nothing<A: Allocator>(brought: &Brought<A>) -> bool
    ensures { result ≡ is_nothing brought.now }
{
    matches!(brought, Brought::Nothing)
}

/// A read that began at this moment, after the one before it or as the first of a row.
pub(crate) fn look_after(began: u64, is_again: bool, is_quiet: bool, before: Option<Look>) -> Look
    ensures { result ≡ look_after began is_again is_quiet before }
{
    let made = match before {
        Some(look) => look.row,
        None => 0,
    };
    let row = if is_again { made.saturating_add(1) } else { 1 };
    Look {
        began,
        row,
        is_quiet,
    }
}
