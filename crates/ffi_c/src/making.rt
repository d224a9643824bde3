//! A handle gets a session, and gives it up.

ghost use Rattle.std.specs.Prelude.{◌≡◌, ◌≢◌, ◌<ℤ◌, ◌⊎◌, Some, None, Ok, Err, pos, negsuc, unsigned_abs};
ghost use Rattle.zk_frames.specs.Limits.{MayLimit};
ghost use Rattle.zk_frames.specs.declared.limits.FrameLimits.{FrameLimits};
ghost use Rattle.zk_turns.specs.Turns.{new_start};
ghost use Rattle.zk_client.specs.SavedSessions.{PutAway, bytes_read};
ghost use Rattle.zk_client.specs.declared.saved_fault.SavedFault.{SavedFault};
ghost use Rattle.zk_client.specs.declared.saved_fault.SavedFault.TheVariants as saved_faults;
ghost use Rattle.ffi_device.specs.Refused.{RefusesTimeout};
ghost use Rattle.ffi_device.specs.Sessions.{put_start};
ghost use Rattle.ffi_device.specs.Steps.{Dials, within};
ghost use Rattle.ffi_device.specs.declared.device.Device.{Device};
ghost use Rattle.ffi_c.specs.Held.{Makes, MakesWithin};

use crate::handle::DwSession;
use ffi_device::{Device, DeviceRefusal};
use ffi_handles::Handle;
use std::alloc::Global;
use zk_client::FrameLimits;

// Has a handle hold this. If there is no memory for it, the handle is left as it was.
fn hold<H: Handle>(alloc: Global, handle: &mut H, value: H::Value) -> i32
    ensures { ((result ≡ pos 0) × (H.held handle.new ≡ Some value))
        ⊎ ((result ≡ negsuc 1) × (H.held handle.new ≡ H.held handle.old)) }
{
    if ffi_handles::hold(alloc, handle, value) {
        return 0;
    }
    DeviceRefusal::Memory.code()
}

/// Makes a session of no server yet, which asks for this timeout in milliseconds and has this many addresses, in an order that is random by
/// the seed. What the handle held is freed first.
#[unsafe(no_mangle)]
pub extern "C" fn dw_session_open(
    alloc: Global,
    handle: &mut DwSession,
    timeout_ms: i32,
    addresses: usize,
    seed: u64,
) -> i32
    ensures makes { Makes (RefusesTimeout timeout_ms) (new_start (unsigned_abs timeout_ms)) result handle.new.slot.held }
    ensures dials { (d : Device) → handle.new.slot.held ≡ Some d → Dials addresses seed d.agent.dialler }
{
    *handle = DwSession::closed(alloc);
    match Device::open(alloc, timeout_ms, addresses, seed, FrameLimits::standard()) {
        Ok(session) => hold(alloc, handle, session),
        Err(refusal) => refusal.code(),
    }
}

/// The same, which takes up the session of these bytes first.
#[unsafe(no_mangle)]
pub extern "C" fn dw_session_resume(
    alloc: Global,
    handle: &mut DwSession,
    timeout_ms: i32,
    addresses: usize,
    seed: u64,
    saved: &[u8],
) -> i32
    ensures makes { (put : PutAway) → bytes_read saved.now ≡ Ok put
        → Makes (RefusesTimeout timeout_ms) (put_start timeout_ms put) result handle.new.slot.held }
    ensures dials { (d : Device) → handle.new.slot.held ≡ Some d → Dials addresses seed d.agent.dialler }
    ensures broken { (fault : SavedFault) → bytes_read saved.now ≡ Err fault → (result ≢ pos 0) × (handle.new.slot.held ≡ None) }
    ensures unread { (fault : SavedFault) → bytes_read saved.now ≡ Err fault → fault ≢ saved_faults.Memory
        → pos 0 <ℤ timeout_ms → result ≡ negsuc 7 }
{
    *handle = DwSession::closed(alloc);
    let standard = FrameLimits::standard();
    match Device::resume(alloc, timeout_ms, addresses, seed, standard, saved) {
        Ok(session) => hold(alloc, handle, session),
        Err(refusal) => refusal.code(),
    }
}

/// As `dw_session_open`, with limits of its own: the most bytes of a payload that comes, and of one that is sent.
#[unsafe(no_mangle)]
pub extern "C" fn dw_session_open_with_limits(
    alloc: Global,
    handle: &mut DwSession,
    timeout_ms: i32,
    addresses: usize,
    seed: u64,
    incoming: usize,
    outgoing: usize,
) -> i32
    ensures makes { MakesWithin incoming outgoing (RefusesTimeout timeout_ms) (new_start (unsigned_abs timeout_ms)) result
        handle.new.slot.held }
    ensures dials { (d : Device) → handle.new.slot.held ≡ Some d → Dials addresses seed d.agent.dialler }
    ensures refused { ¬ MayLimit incoming outgoing → (result ≡ negsuc 13) × (handle.new.slot.held ≡ None) }
{
    *handle = DwSession::closed(alloc);
    let Some(limits) = FrameLimits::new(incoming, outgoing) else {
        return DeviceRefusal::NoSuchLimits.code();
    };
    match Device::open(alloc, timeout_ms, addresses, seed, limits) {
        Ok(session) => hold(alloc, handle, session),
        Err(refusal) => refusal.code(),
    }
}

/// As `dw_session_resume`, with limits of its own.
#[unsafe(no_mangle)]
pub extern "C" fn dw_session_resume_with_limits(
    alloc: Global,
    handle: &mut DwSession,
    timeout_ms: i32,
    addresses: usize,
    seed: u64,
    incoming: usize,
    outgoing: usize,
    saved: &[u8],
) -> i32
    ensures makes { (put : PutAway) → bytes_read saved.now ≡ Ok put
        → MakesWithin incoming outgoing (RefusesTimeout timeout_ms) (put_start timeout_ms put) result handle.new.slot.held }
    ensures dials { (d : Device) → handle.new.slot.held ≡ Some d → Dials addresses seed d.agent.dialler }
    ensures broken { (fault : SavedFault) → bytes_read saved.now ≡ Err fault → (result ≢ pos 0) × (handle.new.slot.held ≡ None) }
    ensures unread { (fault : SavedFault) → MayLimit incoming outgoing → bytes_read saved.now ≡ Err fault → fault ≢ saved_faults.Memory
        → pos 0 <ℤ timeout_ms → result ≡ negsuc 7 }
    ensures refused { ¬ MayLimit incoming outgoing → (result ≡ negsuc 13) × (handle.new.slot.held ≡ None) }
{
    *handle = DwSession::closed(alloc);
    let Some(limits) = FrameLimits::new(incoming, outgoing) else {
        return DeviceRefusal::NoSuchLimits.code();
    };
    match Device::resume(alloc, timeout_ms, addresses, seed, limits, saved) {
        Ok(session) => hold(alloc, handle, session),
        Err(refusal) => refusal.code(),
    }
}

/// Frees the session of a handle, if it has one.
#[unsafe(no_mangle)]
pub extern "C" fn dw_session_free(alloc: Global, handle: &mut DwSession)
    ensures { handle.new.slot.held ≡ None }
{
    *handle = DwSession::closed(alloc);
}
