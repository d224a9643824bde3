//! What a session shows of itself.

ghost use Rattle.std.specs.Prelude.{◌≡◌, ◌≢◌, ◌≤◌, pos, negsuc, Some, None};
ghost use Rattle.zk_client.specs.Clients.{view_of};
ghost use Rattle.zk_client.specs.SavedSessions.{saved_bytes};
ghost use Rattle.ffi_device.specs.declared.device.Device.{Device};
ghost use Rattle.ffi_device.specs.Sessions.{put_of, state_number};
ghost use Rattle.ffi_c.specs.Held.{FirstDue, LeavesRoom, TellsMoment, Writes};

use crate::handle::DwSession;
use crate::taking::{CLOSED, NONE};
use ffi_device::{DeviceRefusal, copy_into, saved, state};
use ffi_handles::{Handle, take_value};
use std::alloc::Global;

/// Where the client stands: 0 idle, 1 connecting, 2 connected, 3 expired, 4 closed.
#[unsafe(no_mangle)]
pub extern "C" fn dw_session_state(alloc: Global, handle: &mut DwSession) -> i32
    ensures closed { handle.old.slot.held ≡ None → result ≡ negsuc 2 }
    ensures state { (d : Device) → handle.old.slot.held ≡ Some d
        → result ≡ pos (state_number (view_of d.agent.asker.follower.client).standing.state) }
    ensures same { handle.new.slot.held ≡ handle.old.slot.held }
{
    let Some(session) = take_value(alloc, handle) else {
        return CLOSED;
    };
    let state = state(session.agent.client());
    *handle = DwSession::of(session);
    state
}

/// The greatest zxid seen, or -3 if the handle holds no session.
#[unsafe(no_mangle)]
pub extern "C" fn dw_session_last_zxid(alloc: Global, handle: &mut DwSession) -> i64
    ensures closed { handle.old.slot.held ≡ None → result ≡ negsuc 2 }
    ensures last { (d : Device) → handle.old.slot.held ≡ Some d → result ≡ (view_of d.agent.asker.follower.client).saved.last }
    ensures same { handle.new.slot.held ≡ handle.old.slot.held }
{
    let Some(session) = take_value(alloc, handle) else {
        return i64::from(CLOSED);
    };
    let last = session.agent.client().last_zxid();
    *handle = DwSession::of(session);
    last
}

/// A number that rises where what the session's client keeps and shows as good may have changed, or 0 if the handle holds no session.
#[unsafe(no_mangle)]
pub extern "C" fn dw_session_revision(alloc: Global, handle: &mut DwSession) -> u64
    ensures closed { handle.old.slot.held ≡ None → result ≡ 0 }
    ensures number { (d : Device) → handle.old.slot.held ≡ Some d → result ≡ d.revision.number }
    ensures begun { (d : Device) → handle.old.slot.held ≡ Some d → 1 ≤ result }
    ensures same { handle.new.slot.held ≡ handle.old.slot.held }
{
    let Some(session) = take_value(alloc, handle) else {
        return 0;
    };
    let number = session.revision.number();
    *handle = DwSession::of(session);
    number
}

/// The timeout of the session in milliseconds, or -3 if the handle holds no session.
#[unsafe(no_mangle)]
pub extern "C" fn dw_session_timeout_ms(alloc: Global, handle: &mut DwSession) -> i64
    ensures closed { handle.old.slot.held ≡ None → result ≡ negsuc 2 }
    ensures timeout { (d : Device) → handle.old.slot.held ≡ Some d
        → result ≡ pos (view_of d.agent.asker.follower.client).saved.session.timeout }
    ensures same { handle.new.slot.held ≡ handle.old.slot.held }
{
    let Some(session) = take_value(alloc, handle) else {
        return i64::from(CLOSED);
    };
    let timeout = session.agent.client().timeout_ms();
    *handle = DwSession::of(session);
    i64::from(timeout)
}

/// The first moment at which something is due. 1 says that there is none, and then 0 is written.
#[unsafe(no_mangle)]
pub extern "C" fn dw_session_deadline(
    alloc: Global,
    handle: &mut DwSession,
    first_ms: &mut u64,
) -> i32
    ensures closed { handle.old.slot.held ≡ None → result ≡ negsuc 2 }
    ensures unwritten { result ≢ pos 0 → first_ms.new ≡ 0 }
    ensures first { (d : Device) → handle.old.slot.held ≡ Some d → FirstDue d result first_ms.new }
    ensures same { handle.new.slot.held ≡ handle.old.slot.held }
{
    *first_ms = 0;
    let Some(session) = take_value(alloc, handle) else {
        return CLOSED;
    };
    let deadline = session.deadline();
    *handle = DwSession::of(session);
    match deadline {
        Some(first) => {
            *first_ms = first;
            0
        }
        None => NONE,
    }
}

/// The moment at which the server was heard last, on any connection. 1 says that it was not yet, and then 0 is written.
#[unsafe(no_mangle)]
pub extern "C" fn dw_session_heard_at(
    alloc: Global,
    handle: &mut DwSession,
    moment_ms: &mut u64,
) -> i32
    ensures closed { handle.old.slot.held ≡ None → (result ≡ negsuc 2) × (moment_ms.new ≡ 0) }
    ensures moment { (d : Device) → handle.old.slot.held ≡ Some d → TellsMoment d.agent.heard_at result moment_ms.new }
    ensures same { handle.new.slot.held ≡ handle.old.slot.held }
{
    *moment_ms = 0;
    let Some(session) = take_value(alloc, handle) else {
        return CLOSED;
    };
    let heard = session.agent.heard_at();
    *handle = DwSession::of(session);
    match heard {
        Some(moment) => {
            *moment_ms = moment;
            0
        }
        None => NONE,
    }
}

/// Writes the bytes from which the session can be taken up, as many as there is room for, and how many there are.
#[unsafe(no_mangle)]
pub extern "C" fn dw_session_saved(
    alloc: Global,
    handle: &mut DwSession,
    out: &mut [u8],
    count: &mut usize,
) -> i32
    ensures closed { handle.old.slot.held ≡ None → LeavesRoom result out.old out.new count.new }
    ensures saved { (d : Device) → handle.old.slot.held ≡ Some d
        → Writes (saved_bytes (put_of (view_of d.agent.asker.follower.client).saved)) result out.old out.new count.new }
    ensures same { handle.new.slot.held ≡ handle.old.slot.held }
{
    *count = 0;
    let Some(session) = take_value(alloc, handle) else {
        return CLOSED;
    };
    let saved = saved(alloc, session.agent.client());
    *handle = DwSession::of(session);
    match saved {
        Ok(bytes) => {
            *count = copy_into(bytes.as_slice(), out);
            0
        }
        Err(_) => DeviceRefusal::Memory.code(),
    }
}
