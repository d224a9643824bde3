//! Contenders of a session for locks and elections.

ghost use Rattle.std.specs.Prelude.{◌≡◌, Some, None, negsuc, option_map, pos, if◌then◌else◌};
ghost use Rattle.zk_contend.specs.Collections.{one_of, own_at};
ghost use Rattle.ffi_device.specs.Contending.{view_in};
ghost use Rattle.ffi_device.specs.declared.device.Device.{Device};
ghost use Rattle.ffi_device.specs.Refused.{RefusesContender, RefusesNothing};
ghost use Rattle.ffi_device.specs.Steps.{Contends, GivesUp, Steps};
ghost use Rattle.ffi_c.specs.Contending.{acl_in, FindsHeld, FindsPlace};
ghost use Rattle.ffi_c.specs.Held.{Holds, IsClosed, LeavesRoom};

use crate::calls::data_of;
use crate::handle::DwSession;
use crate::taking::{CLOSED, NONE, drive};
use ffi_device::{code_of, copy_into};
use ffi_handles::{Handle, take_value};
use std::alloc::Global;

/// The ACL that bytes spell, and none if there are no bytes.
fn acl_of(acl: &[u8]) -> Option<&[u8]>
    ensures { option_map (λ s. s.now) result ≡ acl_in acl.now }
{
    if acl.len() == 0 { None } else { Some(acl) }
}

/// A contender joins in a directory under this ticket, by names of this number, unless another one has the ticket. The guid is a text that
/// no other contender has, and `may_be_there` says that this session may have made a place with it before. What it makes has the ACL that
/// the last bytes spell, and without any it is open to everybody.
#[unsafe(no_mangle)]
pub extern "C" fn dw_session_contend(
    alloc: Global,
    handle: &mut DwSession,
    now_ms: u64,
    ticket: u64,
    directory: &[u8],
    naming: u32,
    guid: &[u8],
    bytes: &[u8],
    is_null: bool,
    may_be_there: bool,
    acl: &[u8],
) -> i32
    ensures closed { handle.old.slot.held ≡ None → IsClosed result handle.new.slot.held }
    ensures steps { (d : Device) → handle.old.slot.held ≡ Some d → Holds handle.new.slot.held
        (Steps (RefusesContender directory.now naming guid.now (acl_in acl.now)) now_ms
        (Contends ticket directory.now naming guid.now (if is_null then None else Some bytes.now) (acl_in acl.now) may_be_there) d
        result) }
{
    let Some(mut session) = take_value(alloc, handle) else {
        return CLOSED;
    };
    let data = data_of(bytes, is_null);
    let list = acl_of(acl);
    let done = session.contend_at(
        alloc,
        now_ms,
        ticket,
        directory,
        naming,
        guid,
        data,
        list,
        may_be_there,
    );
    *handle = DwSession::of(session);
    code_of(done)
}

/// The contender of this ticket is given up, if there is one.
#[unsafe(no_mangle)]
pub extern "C" fn dw_session_give_up(
    alloc: Global,
    handle: &mut DwSession,
    now_ms: u64,
    ticket: u64,
) -> i32
    ensures closed { handle.old.slot.held ≡ None → IsClosed result handle.new.slot.held }
    ensures steps { (d : Device) → handle.old.slot.held ≡ Some d
        → Holds handle.new.slot.held (Steps RefusesNothing now_ms (GivesUp ticket) d result) }
{
    drive(alloc, handle, |session| session.give_up_at(now_ms, ticket))
}

/// Tells whether the session holds by the contender of this ticket: writes its token if it does.
#[unsafe(no_mangle)]
pub extern "C" fn dw_session_held(
    alloc: Global,
    handle: &mut DwSession,
    ticket: u64,
    token: &mut i64,
) -> i32
    ensures closed { handle.old.slot.held ≡ None → (result ≡ negsuc 2) × (token.new ≡ pos 0) }
    ensures finds { (d : Device) → handle.old.slot.held ≡ Some d
        → FindsHeld (view_in d.agent) (one_of d.contenders ticket) result token.new }
    ensures same { handle.new.slot.held ≡ handle.old.slot.held }
{
    *token = 0;
    let Some(session) = take_value(alloc, handle) else {
        return CLOSED;
    };
    let held = session.held(ticket);
    *handle = DwSession::of(session);
    match held {
        Some(shown) => {
            *token = shown;
            0
        }
        None => NONE,
    }
}

/// Writes the path of the place of the contender of this ticket, if that is known, as many bytes as there is room for, and how many
/// there are.
#[unsafe(no_mangle)]
pub extern "C" fn dw_session_place(
    alloc: Global,
    handle: &mut DwSession,
    ticket: u64,
    out: &mut [u8],
    count: &mut usize,
) -> i32
    ensures closed { handle.old.slot.held ≡ None → LeavesRoom result out.old out.new count.new }
    ensures finds { (d : Device) → handle.old.slot.held ≡ Some d
        → FindsPlace (own_at (one_of d.contenders ticket)) result out.old out.new count.new }
    ensures same { handle.new.slot.held ≡ handle.old.slot.held }
{
    *count = 0;
    let Some(session) = take_value(alloc, handle) else {
        return CLOSED;
    };
    let length = session.copy_place(ticket, out);
    *handle = DwSession::of(session);
    match length {
        Some(length) => {
            *count = length;
            0
        }
        None => NONE,
    }
}
