//! What a call on a handle answers, and a step of its server.

ghost use Rattle.std.specs.Prelude.{◌≡◌, ⊤, Result, Some, None};
ghost use Rattle.std.specs.Fn.{FnOnceReturnsAtMut};
ghost use Rattle.ffi_server.specs.Codes.{code_of};
ghost use Rattle.ffi_bench.specs.Held.{IsClosed};
ghost use Rattle.ffi_server.specs.declared.server.MemoryServer.{MemoryServer};
ghost use Rattle.ffi_server.specs.declared.undone.Undone.{Undone};

use crate::handle::DwBench;
use ffi_server::{MemoryServer, Undone, code_of};
use std::alloc::Global;

/// The handle holds no server.
pub const CLOSED: i32 = -3;

/// Does this with the server of a handle, if it has one, puts it back, and tells the number of what was done.
pub fn drive<F: FnOnce(&mut MemoryServer) -> Result<(), Undone>>(
    alloc: Global,
    handle: &mut DwBench,
    step: F,
) -> i32
    requires { F.IsAlwaysCallable step }
    ensures closed { handle.old.slot.held ≡ None → IsClosed result handle.new.slot.held }
    ensures done { (before : MemoryServer) → handle.old.slot.held ≡ Some before → (after : MemoryServer) × (done : Result ⊤ Undone)
        × (handle.new.slot.held ≡ Some after) × (result ≡ code_of done) × FnOnceReturnsAtMut F.FnOnce step before done after }
{
    match ffi_handles::drive(alloc, handle, step) {
        Some(done) => code_of(done),
        None => CLOSED,
    }
}
