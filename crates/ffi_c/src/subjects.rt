//! What a session follows.

ghost use Rattle.std.specs.Prelude.{◌≡◌, Some, None};
ghost use Rattle.ffi_device.specs.declared.device.Device.{Device};
ghost use Rattle.zk_nodes.specs.declared.side.Side.TheVariants.{Child, Data};
ghost use Rattle.ffi_device.specs.Steps.{Follows, FollowsTree, Steps, Unfollows, UnfollowsTree};
ghost use Rattle.ffi_device.specs.Refused.{RefusesNothing, RefusesPath};
ghost use Rattle.ffi_c.specs.Held.{Holds, IsClosed};

use crate::handle::DwSession;
use crate::taking::drive;
use std::alloc::Global;

/// Follows the data of a node, or that there is none.
#[unsafe(no_mangle)]
pub extern "C" fn dw_session_follow_data(
    alloc: Global,
    handle: &mut DwSession,
    now_ms: u64,
    ticket: u64,
    path: &[u8],
) -> i32
    ensures closed { handle.old.slot.held ≡ None → IsClosed result handle.new.slot.held }
    ensures steps { (d : Device) → handle.old.slot.held ≡ Some d
        → Holds handle.new.slot.held (Steps (RefusesPath path.now) now_ms (Follows ticket Data path.now) d result) }
{
    drive(
        alloc,
        handle,
        |session| session.follow_data_at(alloc, now_ms, ticket, path),
    )
}

/// Follows the names of the children of a node, or that there is no node.
#[unsafe(no_mangle)]
pub extern "C" fn dw_session_follow_names(
    alloc: Global,
    handle: &mut DwSession,
    now_ms: u64,
    ticket: u64,
    path: &[u8],
) -> i32
    ensures closed { handle.old.slot.held ≡ None → IsClosed result handle.new.slot.held }
    ensures steps { (d : Device) → handle.old.slot.held ≡ Some d
        → Holds handle.new.slot.held (Steps (RefusesPath path.now) now_ms (Follows ticket Child path.now) d result) }
{
    drive(
        alloc,
        handle,
        |session| session.follow_names_at(alloc, now_ms, ticket, path),
    )
}

/// Follows the subject of this ticket no more.
#[unsafe(no_mangle)]
pub extern "C" fn dw_session_unfollow(
    alloc: Global,
    handle: &mut DwSession,
    now_ms: u64,
    ticket: u64,
) -> i32
    ensures closed { handle.old.slot.held ≡ None → IsClosed result handle.new.slot.held }
    ensures steps { (d : Device) → handle.old.slot.held ≡ Some d
        → Holds handle.new.slot.held (Steps RefusesNothing now_ms (Unfollows ticket) d result) }
{
    drive(alloc, handle, |session| session.unfollow_at(now_ms, ticket))
}

/// Follows all nodes at and below a path, of which no more are taken on if there are more than `most`. Its root has the ticket, and its
/// other nodes have tickets from 2^63 on.
#[unsafe(no_mangle)]
pub extern "C" fn dw_session_follow_tree(
    alloc: Global,
    handle: &mut DwSession,
    now_ms: u64,
    ticket: u64,
    path: &[u8],
    most: usize,
) -> i32
    ensures closed { handle.old.slot.held ≡ None → IsClosed result handle.new.slot.held }
    ensures steps { (d : Device) → handle.old.slot.held ≡ Some d
        → Holds handle.new.slot.held (Steps (RefusesPath path.now) now_ms (FollowsTree ticket path.now most) d result) }
{
    let most = most as u64;
    drive(
        alloc,
        handle,
        |session| session.follow_tree_at(alloc, now_ms, ticket, path, most),
    )
}

/// Follows the tree of this ticket no more.
#[unsafe(no_mangle)]
pub extern "C" fn dw_session_unfollow_tree(
    alloc: Global,
    handle: &mut DwSession,
    now_ms: u64,
    ticket: u64,
) -> i32
    ensures closed { handle.old.slot.held ≡ None → IsClosed result handle.new.slot.held }
    ensures steps { (d : Device) → handle.old.slot.held ≡ Some d
        → Holds handle.new.slot.held (Steps RefusesNothing now_ms (UnfollowsTree ticket) d result) }
{
    drive(
        alloc,
        handle,
        |session| session.unfollow_tree_at(now_ms, ticket),
    )
}
