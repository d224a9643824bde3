//! What a session said at its last step.

ghost use Rattle.std.specs.Prelude.{◌≡◌, ◌++◌, Some, None, drop, length, pos, take};
ghost use Rattle.ffi_device.specs.declared.device.Device.{Device};
ghost use Rattle.ffi_device.specs.Kept.{WritesText};
ghost use Rattle.ffi_device.specs.Outputs.{told_name, told_names, told_text, told_words};
ghost use Rattle.ffi_device.specs.Texts.{AreTexts};
ghost use Rattle.ffi_c.specs.Held.{Holds, IsClosed, LeavesRoom, Tells, TellsAll, Writes};

use crate::handle::DwSession;
use crate::taking::{CLOSED, NONE};
use ffi_device::{DeviceRefusal, Flat, copy_into};
use ffi_handles::{Handle, take_value};
use std::alloc::Global;

/// Writes the next action of the last step, as numbers. The one before is over. 1 says that there is none.
#[unsafe(no_mangle)]
pub extern "C" fn dw_session_next(alloc: Global, handle: &mut DwSession, out: &mut Flat) -> i32
    ensures closed { handle.old.slot.held ≡ None → IsClosed result handle.new.slot.held × (out.new ≡ out.old) }
    ensures next { (d : Device) → handle.old.slot.held ≡ Some d → Holds handle.new.slot.held (Tells d out.old result out.new) }
{
    let Some(mut session) = take_value(alloc, handle) else {
        return CLOSED;
    };
    let next = session.next();
    *handle = DwSession::of(session);
    match next {
        Some(flat) => {
            *out = flat;
            0
        }
        None => NONE,
    }
}

/// Copies the text of the action that was told last, from this place on, as much of it as there is room for, and tells how many
/// bytes there are from there on.
#[unsafe(no_mangle)]
pub extern "C" fn dw_session_copy(
    alloc: Global,
    handle: &mut DwSession,
    from: usize,
    out: &mut [u8],
) -> usize
    ensures closed { handle.old.slot.held ≡ None → (result ≡ 0) × (out.new ≡ out.old) }
    ensures count { (d : Device) → handle.old.slot.held ≡ Some d
        → result ≡ length (drop from (told_text d.said.items d.read)) }
    ensures copied { (d : Device) → handle.old.slot.held ≡ Some d
        → out.new ≡ take (length out.old) (drop from (told_text d.said.items d.read))
        ++ drop (length (drop from (told_text d.said.items d.read))) out.old }
    ensures same { handle.new.slot.held ≡ handle.old.slot.held }
{
    let Some(session) = take_value(alloc, handle) else {
        return 0;
    };
    let count = session.copy_text(from, out);
    *handle = DwSession::of(session);
    count
}

/// Copies the name of this index in the listing that was told last, as much of it as there is room for, and tells how many bytes
/// it has.
#[unsafe(no_mangle)]
pub extern "C" fn dw_session_name(
    alloc: Global,
    handle: &mut DwSession,
    index: usize,
    out: &mut [u8],
) -> usize
    ensures closed { handle.old.slot.held ≡ None → (result ≡ 0) × (out.new ≡ out.old) }
    ensures count { (d : Device) → handle.old.slot.held ≡ Some d → result ≡ length (told_name index d.said.items d.read) }
    ensures copied { (d : Device) → handle.old.slot.held ≡ Some d → out.new
        ≡ take (length out.old) (told_name index d.said.items d.read) ++ drop (length (told_name index d.said.items d.read)) out.old }
    ensures same { handle.new.slot.held ≡ handle.old.slot.held }
{
    let Some(session) = take_value(alloc, handle) else {
        return 0;
    };
    let count = session.copy_name(index, out);
    *handle = DwSession::of(session);
    count
}

/// Copies all names of the listing that was told last, in the order of the reply and each after its length in four bytes, as many bytes
/// of them as there is room for, and writes how many there are.
#[unsafe(no_mangle)]
pub extern "C" fn dw_session_names(
    alloc: Global,
    handle: &mut DwSession,
    out: &mut [u8],
    count: &mut usize,
) -> i32
    ensures closed { handle.old.slot.held ≡ None → LeavesRoom result out.old out.new count.new }
    ensures names { (d : Device) → handle.old.slot.held ≡ Some d
        → (result ≡ pos 0) × WritesText (AreTexts (told_names d.said.items d.read)) out.old out.new count.new }
    ensures same { handle.new.slot.held ≡ handle.old.slot.held }
{
    *count = 0;
    let Some(session) = take_value(alloc, handle) else {
        return CLOSED;
    };
    *count = session.copy_names(out);
    *handle = DwSession::of(session);
    0
}

/// Writes the words of why a connection is given up, if that was told last, as many bytes as there is room for, and how many there are.
#[unsafe(no_mangle)]
pub extern "C" fn dw_session_words(
    alloc: Global,
    handle: &mut DwSession,
    out: &mut [u8],
    count: &mut usize,
) -> i32
    ensures closed { handle.old.slot.held ≡ None → LeavesRoom result out.old out.new count.new }
    ensures words { (d : Device) → handle.old.slot.held ≡ Some d
        → Writes (told_words d.said.items d.read) result out.old out.new count.new }
    ensures same { handle.new.slot.held ≡ handle.old.slot.held }
{
    *count = 0;
    let Some(session) = take_value(alloc, handle) else {
        return CLOSED;
    };
    let words = session.words(alloc);
    *handle = DwSession::of(session);
    match words {
        Ok(words) => {
            *count = copy_into(words.as_bytes(), out);
            0
        }
        Err(_) => DeviceRefusal::Memory.code(),
    }
}

/// Writes all that waits to be told, in the order in which [`dw_session_next`] tells it, if there is room for all; and how many bytes
/// that is. If there is less room, nothing is told.
#[unsafe(no_mangle)]
pub extern "C" fn dw_session_outputs(
    alloc: Global,
    handle: &mut DwSession,
    out: &mut [u8],
    count: &mut usize,
) -> i32
    ensures closed { handle.old.slot.held ≡ None → IsClosed result handle.new.slot.held × LeavesRoom result out.old out.new count.new }
    ensures outputs { (d : Device) → handle.old.slot.held ≡ Some d
        → Holds handle.new.slot.held (TellsAll d out.old out.new count.new result) }
{
    *count = 0;
    let Some(mut session) = take_value(alloc, handle) else {
        return CLOSED;
    };
    let told = session.outputs(alloc, out);
    *handle = DwSession::of(session);
    match told {
        Ok(wanted) => {
            *count = wanted;
            0
        }
        Err(_) => DeviceRefusal::Memory.code(),
    }
}
