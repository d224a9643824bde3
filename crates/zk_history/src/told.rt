//! What is told of a node that was found.

ghost use Rattle.std.specs.Prelude.{◌≡◌, ◌≤◌, pos, nat_le};
ghost use Rattle.std.specs.Option.{option_map, option_copied};
ghost use Rattle.zk_nodes.specs.History.{size_of, node_fields};
ghost use Rattle.zk_history.specs.inner.Made.{node_of};
ghost use Rattle.zk_history.specs.Shown.{stat_of};

use crate::found::Found;
use std::alloc::Allocator;
use zk_nodes::{DataStat, Stat};

/// The longest data whose length a `Stat` can tell.
const LONGEST_DATA: usize = 2147483647;

// Whether a Stat can tell the length of some data.
pub(crate) fn has_length<A: Allocator>(bytes: &Option<Vec<u8, A>>) -> bool
    ensures { result ≡ nat_le (size_of (option_map (λ v. v.items) bytes.now)) 2147483647 }
{
    match bytes {
        Some(bytes) => bytes.len() <= LONGEST_DATA,
        None => true,
    }
}

fn data_length(found: &Found<'_>) -> i32
    ensures { result ≡ pos (size_of (option_copied found.now.bytes)) }
{
    match found.bytes {
        Some(bytes) => bytes.len() as i32,
        None => 0,
    }
}

pub(crate) fn data_stat(found: &Found<'_>) -> DataStat
    ensures { result ≡ node_fields (node_of found.now) }
{
    DataStat {
        czxid: found.entry.czxid as i64,
        mzxid: found.entry.mzxid as i64,
        ctime: found.entry.ctime,
        mtime: found.entry.mtime,
        version: found.entry.version as i32,
        ephemeral_owner: found.entry.owner,
        data_length: data_length(found),
    }
}

pub(crate) fn full_stat(found: &Found<'_>, children: u32) -> Stat
    requires { children ≤ 2147483647 }
    ensures { result ≡ stat_of children (node_of found.now) }
{
    Stat {
        czxid: found.entry.czxid as i64,
        mzxid: found.entry.mzxid as i64,
        ctime: found.entry.ctime,
        mtime: found.entry.mtime,
        version: found.entry.version as i32,
        cversion: 0,
        aversion: 0,
        ephemeral_owner: found.entry.owner,
        data_length: data_length(found),
        num_children: children as i32,
        pzxid: found.entry.pzxid as i64,
    }
}
