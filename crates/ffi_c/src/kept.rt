//! What a session keeps of a path.

ghost use Rattle.std.specs.Prelude.{◌≡◌, None, Some, negsuc};
ghost use Rattle.zk_client.specs.Clients.{view_of};
ghost use Rattle.ffi_device.specs.declared.device.Device.{Device};
ghost use Rattle.ffi_device.specs.Kept.{WritesName, WritesNames};
ghost use Rattle.ffi_device.specs.Refused.{RefusesPath};
ghost use Rattle.ffi_c.specs.Held.{ForgetsStale, Holds, IsClosed, LeavesRoom};
ghost use Rattle.ffi_c.specs.Kept.{FindsData, FindsNames, FindsText};

use crate::handle::DwSession;
use crate::taking::CLOSED;
use ffi_device::{KeptData, KeptNames, peek_children, peek_data, peek_name, peek_names};
use ffi_handles::{Handle, take_value};
use std::alloc::Global;

/// Tells what is kept about the data of a path, and copies the data, as much of them as there is room for.
#[unsafe(no_mangle)]
pub extern "C" fn dw_session_peek_data(
    alloc: Global,
    handle: &mut DwSession,
    path: &[u8],
    kept: &mut KeptData,
    out: &mut [u8],
) -> i32
    ensures closed { handle.old.slot.held ≡ None → (result ≡ negsuc 2) × (kept.new ≡ kept.old) × (out.new ≡ out.old) }
    ensures finds { (d : Device) → handle.old.slot.held ≡ Some d → FindsData (RefusesPath path.now)
        ((view_of d.agent.asker.follower.client).cache.nodes path.now) result kept.old kept.new out.old out.new }
    ensures same { handle.new.slot.held ≡ handle.old.slot.held }
{
    let Some(session) = take_value(alloc, handle) else {
        return CLOSED;
    };
    let found = peek_data(session.agent.client(), path, out);
    *handle = DwSession::of(session);
    match found {
        Ok(found) => {
            *kept = found;
            0
        }
        Err(refusal) => refusal.code(),
    }
}

/// Tells what is kept about the children of a path.
#[unsafe(no_mangle)]
pub extern "C" fn dw_session_peek_children(
    alloc: Global,
    handle: &mut DwSession,
    path: &[u8],
    kept: &mut KeptNames,
) -> i32
    ensures closed { handle.old.slot.held ≡ None → (result ≡ negsuc 2) × (kept.new ≡ kept.old) }
    ensures finds { (d : Device) → handle.old.slot.held ≡ Some d
        → FindsNames (RefusesPath path.now) ((view_of d.agent.asker.follower.client).cache.children path.now) result kept.old kept.new }
    ensures same { handle.new.slot.held ≡ handle.old.slot.held }
{
    let Some(session) = take_value(alloc, handle) else {
        return CLOSED;
    };
    let found = peek_children(session.agent.client(), path);
    *handle = DwSession::of(session);
    match found {
        Ok(found) => {
            *kept = found;
            0
        }
        Err(refusal) => refusal.code(),
    }
}

/// Copies the name of this index, in byte order, of those that are kept of a path, as much of it as there is room for, and writes
/// how many bytes it has.
#[unsafe(no_mangle)]
pub extern "C" fn dw_session_peek_name(
    alloc: Global,
    handle: &mut DwSession,
    path: &[u8],
    index: usize,
    out: &mut [u8],
    count: &mut usize,
) -> i32
    ensures closed { handle.old.slot.held ≡ None → LeavesRoom result out.old out.new count.new }
    ensures finds { (d : Device) → handle.old.slot.held ≡ Some d → FindsText (RefusesPath path.now)
        (WritesName index ((view_of d.agent.asker.follower.client).cache.children path.now)) result out.old out.new count.new }
    ensures same { handle.new.slot.held ≡ handle.old.slot.held }
{
    *count = 0;
    let Some(session) = take_value(alloc, handle) else {
        return CLOSED;
    };
    let found = peek_name(session.agent.client(), path, index, out);
    *handle = DwSession::of(session);
    match found {
        Ok(found) => {
            *count = found;
            0
        }
        Err(refusal) => refusal.code(),
    }
}

/// Copies all names that are kept of a path, in byte order and each after its length in four bytes, as many bytes of them as there is
/// room for, and writes how many there are.
#[unsafe(no_mangle)]
pub extern "C" fn dw_session_peek_names(
    alloc: Global,
    handle: &mut DwSession,
    path: &[u8],
    out: &mut [u8],
    count: &mut usize,
) -> i32
    ensures closed { handle.old.slot.held ≡ None → LeavesRoom result out.old out.new count.new }
    ensures finds { (d : Device) → handle.old.slot.held ≡ Some d → FindsText (RefusesPath path.now)
        (WritesNames ((view_of d.agent.asker.follower.client).cache.children path.now)) result out.old out.new count.new }
    ensures same { handle.new.slot.held ≡ handle.old.slot.held }
{
    *count = 0;
    let Some(session) = take_value(alloc, handle) else {
        return CLOSED;
    };
    let found = peek_names(alloc, session.agent.client(), path, out);
    *handle = DwSession::of(session);
    match found {
        Ok(length) => {
            *count = length;
            0
        }
        Err(refusal) => refusal.code(),
    }
}

/// Takes the stale answers out of what the session keeps.
#[unsafe(no_mangle)]
pub extern "C" fn dw_session_forget(alloc: Global, handle: &mut DwSession) -> i32
    ensures closed { handle.old.slot.held ≡ None → IsClosed result handle.new.slot.held }
    ensures forgets { (d : Device) → handle.old.slot.held ≡ Some d → Holds handle.new.slot.held (ForgetsStale d result) }
{
    let Some(mut session) = take_value(alloc, handle) else {
        return CLOSED;
    };
    session.forget_stale();
    *handle = DwSession::of(session);
    0
}
