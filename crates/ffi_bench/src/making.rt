//! A handle gets a server, and gives it up.

ghost use Rattle.std.specs.Prelude.{◌≡◌, ◌⊎◌, Some, None, pos, negsuc};
ghost use Rattle.ffi_bench.specs.Held.{Makes};

use crate::handle::DwBench;
use ffi_handles::Handle;
use ffi_server::{MemoryServer, Undone};
use std::alloc::Global;

// Has a handle hold this server. If there is no memory for it, the handle is left as it was.
fn hold(alloc: Global, handle: &mut DwBench, server: MemoryServer) -> i32
    ensures { ((result ≡ pos 0) × (handle.new.slot.held ≡ Some server))
        ⊎ ((result ≡ negsuc 1) × (handle.new.slot.held ≡ handle.old.slot.held)) }
{
    if ffi_handles::hold(alloc, handle, server) {
        return 0;
    }
    Undone::Memory.code()
}

/// Makes a server of the session of this number, over a history with the root alone. What the handle held is freed first.
#[unsafe(no_mangle)]
pub extern "C" fn dw_bench_open(alloc: Global, handle: &mut DwBench, session: i64) -> i32
    ensures { Makes session result handle.new.slot.held }
{
    *handle = DwBench::closed(alloc);
    hold(alloc, handle, MemoryServer::new(alloc, session))
}

/// Frees the server of a handle, if it has one.
#[unsafe(no_mangle)]
pub extern "C" fn dw_bench_close(alloc: Global, handle: &mut DwBench)
    ensures { handle.new.slot.held ≡ None }
{
    *handle = DwBench::closed(alloc);
}
