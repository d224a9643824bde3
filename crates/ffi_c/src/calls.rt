//! What a caller asks a session.

ghost use Rattle.std.specs.Prelude.{◌≡◌, Option, Some, None, if◌then◌else◌};
ghost use Rattle.std.specs.Option.{option_map};
ghost use Rattle.zk_conversation.specs.Calls.{Exists, GetData, GetChildren, SetData, Create, Delete, Close, raw_numbered};
ghost use Rattle.ffi_device.specs.declared.device.Device.{Device};
ghost use Rattle.ffi_device.specs.Refused.{RefusesCreate, RefusesNothing, RefusesPath};
ghost use Rattle.ffi_device.specs.Steps.{Calls, Steps, StepsRaw, limit_of};
ghost use Rattle.ffi_c.specs.Held.{Holds, IsClosed};

use crate::handle::DwSession;
use crate::taking::drive;
use std::alloc::Global;

/// Data, or null.
pub(crate) fn data_of(bytes: &[u8], is_null: bool) -> Option<&[u8]>
    ensures { option_map (λ s. s.now) result ≡ (if is_null then None else Some bytes.now) }
{
    if is_null { None } else { Some(bytes) }
}

/// Asks whether there is a node, and what is known of it. As each call it waits until this moment at most, and without a limit at the last
/// one of all.
#[unsafe(no_mangle)]
pub extern "C" fn dw_session_exists(
    alloc: Global,
    handle: &mut DwSession,
    now_ms: u64,
    ticket: u64,
    until_ms: u64,
    path: &[u8],
    watch: bool,
) -> i32
    ensures closed { handle.old.slot.held ≡ None → IsClosed result handle.new.slot.held }
    ensures steps { (d : Device) → handle.old.slot.held ≡ Some d → Holds handle.new.slot.held
        (Steps (RefusesPath path.now) now_ms (Calls ticket (Exists path.now watch) (limit_of until_ms)) d result) }
{
    drive(alloc, handle, |session| {
        session.exists_at(alloc, now_ms, ticket, until_ms, path, watch)
    })
}

/// Asks for the data of a node.
#[unsafe(no_mangle)]
pub extern "C" fn dw_session_get_data(
    alloc: Global,
    handle: &mut DwSession,
    now_ms: u64,
    ticket: u64,
    until_ms: u64,
    path: &[u8],
    watch: bool,
) -> i32
    ensures closed { handle.old.slot.held ≡ None → IsClosed result handle.new.slot.held }
    ensures steps { (d : Device) → handle.old.slot.held ≡ Some d → Holds handle.new.slot.held
        (Steps (RefusesPath path.now) now_ms (Calls ticket (GetData path.now watch) (limit_of until_ms)) d result) }
{
    drive(alloc, handle, |session| {
        session.get_data_at(alloc, now_ms, ticket, until_ms, path, watch)
    })
}

/// Asks for the names below a node.
#[unsafe(no_mangle)]
pub extern "C" fn dw_session_get_children(
    alloc: Global,
    handle: &mut DwSession,
    now_ms: u64,
    ticket: u64,
    until_ms: u64,
    path: &[u8],
    watch: bool,
) -> i32
    ensures closed { handle.old.slot.held ≡ None → IsClosed result handle.new.slot.held }
    ensures steps { (d : Device) → handle.old.slot.held ≡ Some d → Holds handle.new.slot.held
        (Steps (RefusesPath path.now) now_ms (Calls ticket (GetChildren path.now watch) (limit_of until_ms)) d result) }
{
    drive(alloc, handle, |session| {
        session.get_children_at(alloc, now_ms, ticket, until_ms, path, watch)
    })
}

/// Asks to set the data of a node. Version -1 is any.
#[unsafe(no_mangle)]
pub extern "C" fn dw_session_set_data(
    alloc: Global,
    handle: &mut DwSession,
    now_ms: u64,
    ticket: u64,
    until_ms: u64,
    path: &[u8],
    bytes: &[u8],
    is_null: bool,
    version: i32,
) -> i32
    ensures closed { handle.old.slot.held ≡ None → IsClosed result handle.new.slot.held }
    ensures steps { (d : Device) → handle.old.slot.held ≡ Some d → Holds handle.new.slot.held (Steps (RefusesPath path.now) now_ms
        (Calls ticket (SetData path.now (if is_null then None else Some bytes.now) version) (limit_of until_ms)) d result) }
{
    drive(alloc, handle, |session| {
        let data = data_of(bytes, is_null);
        session.set_data_at(alloc, now_ms, ticket, until_ms, path, data, version)
    })
}

/// Asks to make a node. The mode is a sum: 1 if it goes with the session, and 2 if a number is added to its name.
#[unsafe(no_mangle)]
pub extern "C" fn dw_session_create(
    alloc: Global,
    handle: &mut DwSession,
    now_ms: u64,
    ticket: u64,
    until_ms: u64,
    path: &[u8],
    bytes: &[u8],
    is_null: bool,
    mode: u32,
) -> i32
    ensures closed { handle.old.slot.held ≡ None → IsClosed result handle.new.slot.held }
    ensures steps { (d : Device) → handle.old.slot.held ≡ Some d → Holds handle.new.slot.held (Steps (RefusesCreate path.now mode)
        now_ms (Calls ticket (Create path.now (if is_null then None else Some bytes.now) mode) (limit_of until_ms)) d result) }
{
    drive(alloc, handle, |session| {
        let data = data_of(bytes, is_null);
        session.create_at(alloc, now_ms, ticket, until_ms, path, data, mode)
    })
}

/// Asks to delete a node. Version -1 is any.
#[unsafe(no_mangle)]
pub extern "C" fn dw_session_delete(
    alloc: Global,
    handle: &mut DwSession,
    now_ms: u64,
    ticket: u64,
    until_ms: u64,
    path: &[u8],
    version: i32,
) -> i32
    ensures closed { handle.old.slot.held ≡ None → IsClosed result handle.new.slot.held }
    ensures steps { (d : Device) → handle.old.slot.held ≡ Some d → Holds handle.new.slot.held
        (Steps (RefusesPath path.now) now_ms (Calls ticket (Delete path.now version) (limit_of until_ms)) d result) }
{
    drive(alloc, handle, |session| {
        session.delete_at(alloc, now_ms, ticket, until_ms, path, version)
    })
}

/// Asks for another operation, by its number, with the bytes that stand after the header of its request: they go out as they are, and what
/// stands after the header of the reply comes back as it came.
#[unsafe(no_mangle)]
pub extern "C" fn dw_session_raw(
    alloc: Global,
    handle: &mut DwSession,
    now_ms: u64,
    ticket: u64,
    until_ms: u64,
    operation: i32,
    bytes: &[u8],
) -> i32
    ensures closed { handle.old.slot.held ≡ None → IsClosed result handle.new.slot.held }
    ensures steps { (d : Device) → handle.old.slot.held ≡ Some d → Holds handle.new.slot.held
        (StepsRaw (raw_numbered operation) bytes.now now_ms ticket (limit_of until_ms) d result) }
{
    drive(alloc, handle, |session| {
        session.raw_at(alloc, now_ms, ticket, until_ms, operation, bytes)
    })
}

/// Asks to end the session.
#[unsafe(no_mangle)]
pub extern "C" fn dw_session_close(
    alloc: Global,
    handle: &mut DwSession,
    now_ms: u64,
    ticket: u64,
    until_ms: u64,
) -> i32
    ensures closed { handle.old.slot.held ≡ None → IsClosed result handle.new.slot.held }
    ensures steps { (d : Device) → handle.old.slot.held ≡ Some d
        → Holds handle.new.slot.held (Steps RefusesNothing now_ms (Calls ticket Close (limit_of until_ms)) d result) }
{
    drive(alloc, handle, |session| {
        session.close_session_at(now_ms, ticket, until_ms)
    })
}
