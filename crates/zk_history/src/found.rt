//! A node as it was found in a history.

ghost use Rattle.std.specs.Prelude.{◌<◌, ◌≤◌, ◌^◌};
ghost use Rattle.std.specs.Option.{option_copied};
ghost use Rattle.zk_nodes.specs.History.{size_of};

use crate::version::Entry;

// A node as it was found in a history, with its data lent.
#[derive(Clone, Copy)]
pub(crate) struct Found<'a> {
    pub(crate) bytes: Option<&'a [u8]>,
    pub(crate) entry: Entry,
    ghost small_czxid: { entry.czxid < 2 ^ 63 },
    ghost small_mzxid: { entry.mzxid < 2 ^ 63 },
    ghost small_pzxid: { entry.pzxid < 2 ^ 63 },
    ghost small_version: { entry.version ≤ 2147483647 },
    ghost small_bytes: { size_of (option_copied bytes) ≤ 2147483647 },
}
