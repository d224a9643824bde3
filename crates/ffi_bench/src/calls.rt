//! The connection of a server, and its moves.

ghost use Rattle.std.specs.Prelude.{◌≡◌, Some, None};
ghost use Rattle.ffi_bench.specs.Held.{IsClosed, Tells};
ghost use Rattle.ffi_server.specs.Moves.{Connects, Cuts, Expires, Hears, Processes, Says, Takes};
ghost use Rattle.ffi_server.specs.declared.server.MemoryServer.{MemoryServer};

use crate::handle::DwBench;
use crate::taking::{CLOSED, drive};
use ffi_handles::{Handle, take_value};
use ffi_server::code_of;
use std::alloc::Global;

/// A new connection of the client to a server, 1 to 8. What the one before left is dropped.
#[unsafe(no_mangle)]
pub extern "C" fn dw_bench_connect(alloc: Global, handle: &mut DwBench, number: i32) -> i32
    ensures closed { handle.old.slot.held ≡ None → IsClosed result handle.new.slot.held }
    ensures connects { (s : MemoryServer) → handle.old.slot.held ≡ Some s → Tells (Connects number s.bench) result handle.new.slot.held }
{
    drive(alloc, handle, |server| server.connect(number))
}

/// The connection is gone, with its watches and all bytes on their way.
#[unsafe(no_mangle)]
pub extern "C" fn dw_bench_cut(alloc: Global, handle: &mut DwBench) -> i32
    ensures closed { handle.old.slot.held ≡ None → IsClosed result handle.new.slot.held }
    ensures cuts { (s : MemoryServer) → handle.old.slot.held ≡ Some s → Tells (Cuts s.bench) result handle.new.slot.held }
{
    drive(alloc, handle, |server| server.cut())
}

/// Bytes of the client come in, cut in any way. They are lost if no server takes requests.
#[unsafe(no_mangle)]
pub extern "C" fn dw_bench_hear(alloc: Global, handle: &mut DwBench, bytes: &[u8]) -> i32
    ensures closed { handle.old.slot.held ≡ None → IsClosed result handle.new.slot.held }
    ensures hears { (s : MemoryServer) → handle.old.slot.held ≡ Some s → Tells (Hears bytes.now s.bench) result handle.new.slot.held }
{
    drive(alloc, handle, |server| server.hear(bytes))
}

/// Writes the first bytes that the server sent, as many as there is room for, and how many there are. 1 says that no server has the
/// connection, or that it has ended it: what is written was sent before.
#[unsafe(no_mangle)]
pub extern "C" fn dw_bench_say(
    alloc: Global,
    handle: &mut DwBench,
    out: &mut [u8],
    count: &mut usize,
) -> i32
    ensures closed { handle.old.slot.held ≡ None → IsClosed result handle.new.slot.held × (out.new ≡ out.old) × (count.new ≡ 0) }
    ensures says { (s : MemoryServer) → handle.old.slot.held ≡ Some s
        → Tells (Says out.old out.new count.new s.bench) result handle.new.slot.held }
{
    *count = 0;
    let Some(mut server) = take_value(alloc, handle) else {
        return CLOSED;
    };
    let done = server.say(out, count);
    *handle = DwBench::of(server);
    code_of(done)
}

/// The connected server processes the next whole request at this moment. 1 says that there is none.
#[unsafe(no_mangle)]
pub extern "C" fn dw_bench_process(alloc: Global, handle: &mut DwBench, now_ms: u64) -> i32
    ensures closed { handle.old.slot.held ≡ None → IsClosed result handle.new.slot.held }
    ensures processes { (s : MemoryServer) → handle.old.slot.held ≡ Some s → Tells (Processes now_ms s.bench) result handle.new.slot.held }
{
    drive(alloc, handle, |server| server.process(now_ms))
}

/// A server, 1 to 8, takes the next transaction, if there is one. The one that is connected sends the notices of the watches that fire.
#[unsafe(no_mangle)]
pub extern "C" fn dw_bench_take(alloc: Global, handle: &mut DwBench, number: i32) -> i32
    ensures closed { handle.old.slot.held ≡ None → IsClosed result handle.new.slot.held }
    ensures takes { (s : MemoryServer) → handle.old.slot.held ≡ Some s → Tells (Takes number s.bench) result handle.new.slot.held }
{
    drive(alloc, handle, |server| server.take(number))
}

/// From now on clients are told that the session has expired, or are admitted again.
#[unsafe(no_mangle)]
pub extern "C" fn dw_bench_expire(alloc: Global, handle: &mut DwBench, is_expired: bool) -> i32
    ensures closed { handle.old.slot.held ≡ None → IsClosed result handle.new.slot.held }
    ensures expires { (s : MemoryServer) → handle.old.slot.held ≡ Some s → Tells (Expires is_expired s.bench) result handle.new.slot.held }
{
    drive(alloc, handle, |server| server.expire(is_expired))
}
