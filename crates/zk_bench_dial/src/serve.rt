//! How a bench takes bytes, answers, and gives bytes.

ghost use Rattle.std.specs.Prelude.{◌≡◌, ◌<◌, [], true, None, IfErr, IfOk, IfSome, IsOk, IsSome};
ghost use Rattle.std.specs.Io.{ReadsAtMost, WritesAtMost};
ghost use Rattle.std_io.specs.IoError.{error_kind};
ghost use Rattle.zk_bench.specs.Served.{is_open};
ghost use Rattle.zk_bench.specs.Stepping.{IsReady};
ghost use Rattle.zk_link.specs.FarEnds.{front_by};
ghost use Rattle.zk_bench_dial.specs.BenchActs.{Answers, GoesBy};
ghost use Rattle.zk_bench_dial.specs.Lines.{IsAnswering, IsIdle, IsUp, LineDoes, LineWaits};

use crate::line::Past;
use std::alloc::{AllocError, Allocator};
use std::io::{self, ErrorKind};
use zk_bench::Bench;

/// The most requests that are answered after one write.
const REQUESTS: usize = 16;

/// Processes the request that stands first, if it is whole. Whether memory sufficed and the history is as it was.
fn serve_one<A: Allocator + Copy>(bench: &mut Bench<A>) -> bool
    requires { IsReady bench.old }
    ensures ready { IsReady bench.new }
    ensures server { bench.new.server ≡ bench.old.server }
    ensures goes { result ≡ true → GoesBy Answers bench.old [] [] bench.new }
{
    let last = bench.history().last_zxid();
    let _front = bench.front();
    let Ok(()) = bench.process() else {
        return false;
    };
    bench.history().last_zxid() == last
}

/// Processes what is whole. Whether memory sufficed and the history is as it was.
#[tactic(auto, using(crate::proofs::Acting::goes_first, crate::proofs::Acting::goes_on))]
fn serve<A: Allocator + Copy>(bench: &mut Bench<A>) -> bool
    requires { IsReady bench.old }
    ensures ready { IsReady bench.new }
    ensures server { bench.new.server ≡ bench.old.server }
    ensures goes { result ≡ true → GoesBy Answers bench.old [] [] bench.new }
{
    for _ in 0..REQUESTS {
        if !serve_one(bench) {
            return false;
        }
    }
    true
}

/// Bytes go to a bench, which answers them. The line is over if memory runs out, and if the history is longer then.
pub(crate) fn deliver<A: Allocator + Copy, K: Past>(
    line: &mut Option<Bench<A>>,
    bytes: &[u8],
) -> io::Result<usize>
    requires { IfSome line.old (IsUp K.past) }
    ensures bound { WritesAtMost result bytes.now }
    ensures does { IsAnswering line.old (front_by result bytes.now) [] line.new }
    ensures up { IfSome line.new (IsUp K.past) }
{
    let Some(mut bench) = line.take() else {
        return Err(ErrorKind::BrokenPipe.into());
    };
    let Ok(()) = bench.receive(bytes) else {
        return Err(ErrorKind::OutOfMemory.into());
    };
    if !serve(&mut bench) {
        return Ok(bytes.len());
    }
    *line = Some(bench);
    Ok(bytes.len())
}

/// All that came was received, and somebody waits: the server takes the next transaction. After the last wait the connection is cut, and
/// the line is over, as it is if memory runs out. Whether it is still there.
fn wait<A: Allocator + Copy, K: Past>(
    line: &mut Option<Bench<A>>,
    waits: &mut u64,
) -> Result<bool, AllocError>
    requires up { IfSome line.old (IsUp K.past) }
    requires idle { IfSome line.old IsIdle }
    ensures does { LineDoes (record { served = line.old; waits = waits.old }) [] [] (record { served = line.new; waits = waits.new }) }
    ensures up { IfSome line.new (IsUp K.past) }
    ensures takes { IfOk result (λ there. there ≡ true
        → LineWaits (record { served = line.old; waits = waits.old }) [] [] (record { served = line.new; waits = waits.new })) }
    ensures cut { IsOk result → IsSome line.old → line.new ≡ None → waits.old ≡ 0 }
{
    let Some(mut bench) = line.take() else {
        return Ok(false);
    };
    if *waits == 0 {
        return Ok(false);
    }
    bench.take(1)?;
    *waits -= 1;
    *line = Some(bench);
    Ok(true)
}

/// Whether a bench has the connection, and had sent no byte more if there was room for some.
fn is_idle<A: Allocator + Copy>(bench: &Bench<A>, count: usize, most: usize) -> bool
    ensures { result ≡ true → (is_open bench.now.connection.phase ≡ true) × (count ≡ 0) × (0 < most) }
{
    count == 0 && most > 0 && bench.is_open()
}

/// The bytes that a bench sent, as many as there is room for. If there are none, none come for now, or none any more.
pub(crate) fn fetch<A: Allocator + Copy, K: Past>(
    line: &mut Option<Bench<A>>,
    waits: &mut u64,
    buf: &mut [u8],
) -> io::Result<usize>
    requires { IfSome line.old (IsUp K.past) }
    ensures bound { ReadsAtMost result buf.new }
    ensures does { LineDoes (record { served = line.old; waits = waits.old }) [] (front_by result buf.new)
        (record { served = line.new; waits = waits.new }) }
    ensures up { IfSome line.new (IsUp K.past) }
    // If nothing comes for now, its server has taken the next transaction; it is cut only after the last wait.
    ensures takes { IfErr result (λ fault. error_kind fault ≡ ErrorKind.WouldBlock
        → LineWaits (record { served = line.old; waits = waits.old }) [] [] (record { served = line.new; waits = waits.new })) }
    ensures cut { IsOk result → IsSome line.old → line.new ≡ None → waits.old ≡ 0 }
{
    let Some(bench) = line else {
        return Ok(0);
    };
    let Ok(bytes) = bench.output(buf.len()) else {
        return Err(ErrorKind::OutOfMemory.into());
    };
    let count = bytes.len();
    if is_idle(bench, count, buf.len()) {
        return match wait::<A, K>(line, waits) {
            Ok(true) => Err(ErrorKind::WouldBlock.into()),
            Ok(false) => Ok(0),
            Err(_) => Err(ErrorKind::OutOfMemory.into()),
        };
    }
    buf[..count].copy_from_slice(bytes.as_slice());
    Ok(count)
}
