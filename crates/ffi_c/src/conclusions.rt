//! What follows from several answers together, of a session.

ghost use Rattle.std.specs.Prelude.{◌≡◌, Some, None, negsuc, pos};
ghost use Rattle.zk_client.specs.Clients.{view_of};
ghost use Rattle.zk_conclusions.specs.Lacks.{HasNoPath};
ghost use Rattle.zk_conclusions.specs.Subtrees.{HasMoreNodes, IsWholeBelow};
ghost use Rattle.ffi_device.specs.declared.device.Device.{Device};
ghost use Rattle.ffi_device.specs.Kept.{WritesText};
ghost use Rattle.ffi_device.specs.Refused.{RefusesNodes};
ghost use Rattle.ffi_device.specs.Snapshots.{IsSnapshotText, RefusesSnapshot};
ghost use Rattle.ffi_device.specs.Subtrees.{IsLackingText, IsSubtreeText};
ghost use Rattle.ffi_c.specs.Held.{LeavesRoom};
ghost use Rattle.ffi_c.specs.Kept.{FindsText};
ghost use Rattle.ffi_c.specs.Stood.{FindsHolder, FindsStanding};
ghost use Rattle.ffi_c.specs.inner.Stood.{TellsStands};

use crate::handle::DwSession;
use crate::taking::{CLOSED, NONE, WAITS};
use ffi_device::{Contender, DeviceRefusal, Stands, holder, lacking, snapshot, standing, subtree};
use ffi_handles::{Handle, take_value};
use std::alloc::Global;

/// Copies all nodes at and below a path, of which there may be at most `most`, each after its parent, as many bytes of them as there is
/// room for, and writes how many there are.
#[unsafe(no_mangle)]
pub extern "C" fn dw_session_subtree(
    alloc: Global,
    handle: &mut DwSession,
    path: &[u8],
    most: usize,
    out: &mut [u8],
    count: &mut usize,
) -> i32
    ensures closed { handle.old.slot.held ≡ None → LeavesRoom result out.old out.new count.new }
    ensures finds { (d : Device) → handle.old.slot.held ≡ Some d
        → FindsText (RefusesNodes (¬ (IsWholeBelow (view_of d.agent.asker.follower.client).cache path.now))
        (HasMoreNodes (view_of d.agent.asker.follower.client).cache path.now most) path.now)
        (WritesText (IsSubtreeText (view_of d.agent.asker.follower.client) path.now most)) result out.old out.new count.new }
    ensures same { handle.new.slot.held ≡ handle.old.slot.held }
{
    *count = 0;
    let Some(session) = take_value(alloc, handle) else {
        return CLOSED;
    };
    let found = subtree(alloc, session.agent.client(), path, most, out);
    *handle = DwSession::of(session);
    match found {
        Ok(length) => {
            *count = length;
            0
        }
        Err(refusal) => refusal.code(),
    }
}

/// Copies the reads that are lacking before there is a subtree of a path with at most `most` nodes, as many bytes of them as there is
/// room for, and writes how many there are.
#[unsafe(no_mangle)]
pub extern "C" fn dw_session_lacking(
    alloc: Global,
    handle: &mut DwSession,
    path: &[u8],
    most: usize,
    out: &mut [u8],
    count: &mut usize,
) -> i32
    ensures closed { handle.old.slot.held ≡ None → LeavesRoom result out.old out.new count.new }
    ensures finds { (d : Device) → handle.old.slot.held ≡ Some d
        → FindsText (RefusesNodes (HasNoPath (view_of d.agent.asker.follower.client).cache path.now)
        (HasMoreNodes (view_of d.agent.asker.follower.client).cache path.now most) path.now)
        (WritesText (IsLackingText (view_of d.agent.asker.follower.client).cache path.now most)) result out.old out.new count.new }
    ensures same { handle.new.slot.held ≡ handle.old.slot.held }
{
    *count = 0;
    let Some(session) = take_value(alloc, handle) else {
        return CLOSED;
    };
    let found = lacking(alloc, session.agent.client(), path, most, out);
    *handle = DwSession::of(session);
    match found {
        Ok(length) => {
            *count = length;
            0
        }
        Err(refusal) => refusal.code(),
    }
}

/// Copies what is kept of the nodes of the first paths, and of the names below the second ones, if all of it is good, as many bytes of
/// it as there is room for, and writes how many there are.
#[unsafe(no_mangle)]
pub extern "C" fn dw_session_snapshot(
    alloc: Global,
    handle: &mut DwSession,
    nodes: &[u8],
    parents: &[u8],
    out: &mut [u8],
    count: &mut usize,
) -> i32
    ensures closed { handle.old.slot.held ≡ None → LeavesRoom result out.old out.new count.new }
    ensures finds { (d : Device) → handle.old.slot.held ≡ Some d
        → FindsText (RefusesSnapshot (view_of d.agent.asker.follower.client).cache nodes.now parents.now)
        (WritesText (IsSnapshotText (view_of d.agent.asker.follower.client) nodes.now parents.now)) result out.old out.new count.new }
    ensures same { handle.new.slot.held ≡ handle.old.slot.held }
{
    *count = 0;
    let Some(session) = take_value(alloc, handle) else {
        return CLOSED;
    };
    let found = snapshot(alloc, session.agent.client(), nodes, parents, out);
    *handle = DwSession::of(session);
    match found {
        Ok(length) => {
            *count = length;
            0
        }
        Err(refusal) => refusal.code(),
    }
}

// Writes where a session stands, or that nothing is told, and answers the number of it.
fn write_stands(stands: Result<Stands, DeviceRefusal>, token: &mut i64, count: &mut usize) -> i32
    ensures { TellsStands stands result token.new count.new }
{
    (*token, *count) = (0, 0);
    match stands {
        Ok(Stands::First(first)) => {
            *token = first;
            0
        }
        Ok(Stands::After(length)) => {
            *count = length;
            WAITS
        }
        Ok(Stands::Unsure) => NONE,
        Err(refusal) => refusal.code(),
    }
}

/// Tells whether the session comes first in a directory by its node of this name, by the names of a listing that was answered at a zxid,
/// and by markers, that of its name first: writes its token where it stands first, and else copies the name of the last rival before it.
#[unsafe(no_mangle)]
pub extern "C" fn dw_session_standing(
    alloc: Global,
    handle: &mut DwSession,
    directory: &[u8],
    name: &[u8],
    names: &[u8],
    listed: i64,
    markers: &[u8],
    token: &mut i64,
    out: &mut [u8],
    count: &mut usize,
) -> i32
    ensures closed { handle.old.slot.held ≡ None → LeavesRoom result out.old out.new count.new × (token.new ≡ pos 0) }
    ensures stands { (d : Device) → handle.old.slot.held ≡ Some d → FindsStanding (view_of d.agent.asker.follower.client) directory.now
        name.now names.now listed markers.now result token.new out.old out.new count.new }
    ensures same { handle.new.slot.held ≡ handle.old.slot.held }
{
    (*token, *count) = (0, 0);
    let Some(session) = take_value(alloc, handle) else {
        return CLOSED;
    };
    let contender = Contender {
        directory,
        name,
        names,
        listed,
        markers,
    };
    let stands = standing(alloc, session.agent.client(), &contender, out);
    *handle = DwSession::of(session);
    write_stands(stands, token, count)
}

/// Tells whether the session holds the first place of the names in a directory that begin with a prefix, by its node of this path: writes
/// its token if it does.
#[unsafe(no_mangle)]
pub extern "C" fn dw_session_holder(
    alloc: Global,
    handle: &mut DwSession,
    directory: &[u8],
    prefix: &[u8],
    path: &[u8],
    token: &mut i64,
) -> i32
    ensures closed { handle.old.slot.held ≡ None → (result ≡ negsuc 2) × (token.new ≡ pos 0) }
    ensures finds { (d : Device) → handle.old.slot.held ≡ Some d
        → FindsHolder (view_of d.agent.asker.follower.client) directory.now prefix.now path.now result token.new }
    ensures same { handle.new.slot.held ≡ handle.old.slot.held }
{
    *token = 0;
    let Some(session) = take_value(alloc, handle) else {
        return CLOSED;
    };
    let found = holder(alloc, session.agent.client(), directory, prefix, path);
    *handle = DwSession::of(session);
    match found {
        Ok(Some(shown)) => {
            *token = shown;
            0
        }
        Ok(None) => NONE,
        Err(refusal) => refusal.code(),
    }
}
