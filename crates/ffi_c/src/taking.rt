//! What a call on a handle answers, and a step of what the handle holds.

ghost use Rattle.std.specs.Prelude.{◌≡◌, ⊤, Result, Some, None};
ghost use Rattle.std.specs.Fn.{FnOnceReturnsAtMut};
ghost use Rattle.ffi_device.specs.Codes.{code_of};
ghost use Rattle.ffi_device.specs.declared.refusal.DeviceRefusal.{DeviceRefusal};
ghost use Rattle.ffi_c.specs.Held.{IsClosed};

use ffi_device::{DeviceRefusal, code_of};
use ffi_handles::Handle;
use std::alloc::Global;

/// The handle holds nothing.
pub const CLOSED: i32 = -3;

/// There is none.
pub const NONE: i32 = 1;

/// The session does not stand first: it waits for another one.
pub const WAITS: i32 = 2;

/// Does this with what a handle holds, if anything, puts it back, and tells the number of what was done.
pub fn drive<H: Handle, F: FnOnce(&mut H::Value) -> Result<(), DeviceRefusal>>(
    alloc: Global,
    handle: &mut H,
    step: F,
) -> i32
    requires { F.IsAlwaysCallable step }
    ensures closed { H.held handle.old ≡ None → IsClosed result (H.held handle.new) }
    ensures done { (before : H.Value) → H.held handle.old ≡ Some before → (after : H.Value) × (done : Result ⊤ DeviceRefusal)
        × (H.held handle.new ≡ Some after) × (result ≡ code_of done) × FnOnceReturnsAtMut F.FnOnce step before done after }
{
    match ffi_handles::drive(alloc, handle, step) {
        Some(done) => code_of(done),
        None => CLOSED,
    }
}
