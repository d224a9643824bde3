//! What happens to a session.

ghost use Rattle.std.specs.Prelude.{◌≡◌, Some, None};
ghost use Rattle.ffi_device.specs.declared.device.Device.{Device};
ghost use Rattle.ffi_device.specs.Steps.{Addressed, Bytes, Cut, Failed, Moment, Opened, Steps};
ghost use Rattle.ffi_device.specs.Refused.{RefusesMemory, RefusesNothing};
ghost use Rattle.ffi_c.specs.Held.{Holds, IsClosed};

use crate::handle::DwSession;
use crate::taking::drive;
use std::alloc::Global;

/// The connection that was asked for is there at this moment.
#[unsafe(no_mangle)]
pub extern "C" fn dw_session_opened(alloc: Global, handle: &mut DwSession, now_ms: u64) -> i32
    ensures closed { handle.old.slot.held ≡ None → IsClosed result handle.new.slot.held }
    ensures steps { (d : Device) → handle.old.slot.held ≡ Some d
        → Holds handle.new.slot.held (Steps RefusesNothing now_ms Opened d result) }
{
    drive(alloc, handle, |session| session.opened_at(now_ms))
}

/// The connection that was asked for could not be made.
#[unsafe(no_mangle)]
pub extern "C" fn dw_session_failed(alloc: Global, handle: &mut DwSession, now_ms: u64) -> i32
    ensures closed { handle.old.slot.held ≡ None → IsClosed result handle.new.slot.held }
    ensures steps { (d : Device) → handle.old.slot.held ≡ Some d
        → Holds handle.new.slot.held (Steps RefusesNothing now_ms Failed d result) }
{
    drive(alloc, handle, |session| session.failed_at(now_ms))
}

/// Bytes came from the server at this moment, cut in any way.
#[unsafe(no_mangle)]
pub extern "C" fn dw_session_bytes(
    alloc: Global,
    handle: &mut DwSession,
    now_ms: u64,
    bytes: &[u8],
) -> i32
    ensures closed { handle.old.slot.held ≡ None → IsClosed result handle.new.slot.held }
    ensures steps { (d : Device) → handle.old.slot.held ≡ Some d
        → Holds handle.new.slot.held (Steps RefusesMemory now_ms (Bytes bytes.now) d result) }
{
    drive(
        alloc,
        handle,
        |session| session.bytes_at(alloc, now_ms, bytes),
    )
}

/// The connection is over at this moment.
#[unsafe(no_mangle)]
pub extern "C" fn dw_session_cut(alloc: Global, handle: &mut DwSession, now_ms: u64) -> i32
    ensures closed { handle.old.slot.held ≡ None → IsClosed result handle.new.slot.held }
    ensures steps { (d : Device) → handle.old.slot.held ≡ Some d
        → Holds handle.new.slot.held (Steps RefusesNothing now_ms Cut d result) }
{
    drive(alloc, handle, |session| session.cut_at(now_ms))
}

/// The moment, in milliseconds of a clock that does not go back.
#[unsafe(no_mangle)]
pub extern "C" fn dw_session_moment(alloc: Global, handle: &mut DwSession, now_ms: u64) -> i32
    ensures closed { handle.old.slot.held ≡ None → IsClosed result handle.new.slot.held }
    ensures steps { (d : Device) → handle.old.slot.held ≡ Some d
        → Holds handle.new.slot.held (Steps RefusesNothing now_ms Moment d result) }
{
    drive(alloc, handle, |session| session.tick(now_ms))
}

/// The list of addresses is another one: its first ones, as many as `kept`, were in the list before, and as many as `added`, after them,
/// were not. `is_listed` says whether it has that of the connection or of the attempt, or else the one that was dialled last.
#[unsafe(no_mangle)]
pub extern "C" fn dw_session_addresses(
    alloc: Global,
    handle: &mut DwSession,
    now_ms: u64,
    kept: usize,
    added: usize,
    is_listed: bool,
) -> i32
    ensures closed { handle.old.slot.held ≡ None → IsClosed result handle.new.slot.held }
    ensures steps { (d : Device) → handle.old.slot.held ≡ Some d
        → Holds handle.new.slot.held (Steps RefusesNothing now_ms (Addressed kept added is_listed) d result) }
{
    drive(
        alloc,
        handle,
        |session| session.addresses_at(now_ms, kept, added, is_listed),
    )
}
