//! The history of a server: what other sessions change.

ghost use Rattle.std.specs.Prelude.{◌≡◌, negsuc, pos, Some, None};
ghost use Rattle.zk_nodes.specs.History.{newest};
ghost use Rattle.ffi_bench.specs.Held.{IsClosed, Tells};
ghost use Rattle.ffi_server.specs.Moves.{Changes, Learns};
ghost use Rattle.ffi_server.specs.declared.server.MemoryServer.{MemoryServer};

use crate::handle::DwBench;
use crate::taking::{CLOSED, drive};
use ffi_handles::{Handle, take_value};
use std::alloc::Global;

/// Another session changes the tree at this moment: 1 makes a node with an owner, or 0 for none, 2 writes its data, 3 deletes it. What the
/// tree does not admit is answered as a server answers a client. No server has taken the transaction yet.
#[unsafe(no_mangle)]
pub extern "C" fn dw_bench_change(
    alloc: Global,
    handle: &mut DwBench,
    now_ms: u64,
    kind: i32,
    owner: i64,
    path: &[u8],
    content: &[u8],
) -> i32
    ensures closed { handle.old.slot.held ≡ None → IsClosed result handle.new.slot.held }
    ensures changes { (s : MemoryServer) → handle.old.slot.held ≡ Some s
        → Tells (Changes now_ms kind owner path.now content.now s.bench) result handle.new.slot.held }
{
    drive(alloc, handle, |server| {
        server.change(alloc, now_ms, kind, owner, path, content)
    })
}

/// Takes over the next transaction that the server of another handle has and this one has not. 1 says that there is none.
#[unsafe(no_mangle)]
pub extern "C" fn dw_bench_learn(alloc: Global, handle: &mut DwBench, other: &mut DwBench) -> i32
    ensures closed { handle.old.slot.held ≡ None → IsClosed result handle.new.slot.held }
    ensures lacks { other.old.slot.held ≡ None → (result ≡ negsuc 2) × (handle.new.slot.held ≡ handle.old.slot.held) }
    ensures learns { (s o : MemoryServer) → handle.old.slot.held ≡ Some s → other.old.slot.held ≡ Some o
        → Tells (Learns o.bench s.bench) result handle.new.slot.held }
    ensures same { other.new.slot.held ≡ other.old.slot.held }
{
    let Some(from) = take_value(alloc, other) else {
        return CLOSED;
    };
    let code = drive(alloc, handle, |server| server.learn(alloc, &from));
    *other = DwBench::of(from);
    code
}

/// The zxid of the last transaction, or -3 if the handle holds no server.
#[unsafe(no_mangle)]
pub extern "C" fn dw_bench_zxid(alloc: Global, handle: &mut DwBench) -> i64
    ensures closed { handle.old.slot.held ≡ None → result ≡ negsuc 2 }
    ensures last { (s : MemoryServer) → handle.old.slot.held ≡ Some s → result ≡ pos (newest 0 s.bench.history.transactions) }
    ensures same { handle.new.slot.held ≡ handle.old.slot.held }
{
    let Some(server) = take_value(alloc, handle) else {
        return i64::from(CLOSED);
    };
    let last = server.bench.history().last_zxid();
    *handle = DwBench::of(server);
    last
}
