//! What dials servers in memory.

ghost use Rattle.std.specs.Prelude.{◌≡◌, All};
ghost use Rattle.std.proofs.Props.{props};
ghost use Rattle.zk_bench_dial.specs.Lines.{IsLeft};

use crate::line::{BenchStream, Past};
use std::alloc::Allocator;
use std::io::{self, ErrorKind};
use std::marker::PhantomData;
use zk_bench::Bench;
use zk_link::Dial;

/// Benches over one history, one for each connection, whatever the address. If none is left, none is made.
#[derive(Drop)]
pub struct Benches<A: Allocator + Copy, K: Past> {
    lines: Vec<(Bench<A>, u64), A>,
    of: PhantomData<K>,
    ghost are: { All (IsLeft K.past) lines.items } by { Prim.hlevel props },
}

impl<A: Allocator + Copy, K: Past> Benches<A, K> {
    /// Over these, of which the last is dialled first. The number beside a bench is how often somebody waits for it, until the connection
    /// is cut.
    pub fn of(lines: Vec<(Bench<A>, u64), A>) -> Benches<A, K>
        requires { All (IsLeft K.past) lines.items }
        ensures { result.lines.items ≡ lines.items }
    {
        Benches {
            lines,
            of: PhantomData,
        }
    }
}

impl<A: Allocator + Copy, K: Past> Dial for Benches<A, K> {
    type Stream = BenchStream<A, K>;

    /// Connects to the first server of the next bench.
    fn dial(&mut self, _address: &str, _within_ms: u64) -> io::Result<BenchStream<A, K>> {
        let Some((mut bench, waits)) = self.lines.pop() else {
            return Err(ErrorKind::ConnectionRefused.into());
        };
        bench.connect(1);
        Ok(BenchStream {
            bench: Some(bench),
            waits,
            of: PhantomData,
        })
    }
}
