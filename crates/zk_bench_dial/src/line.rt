//! A connection to a server in memory.

ghost use Rattle.std.specs.Prelude.{◌≡◌, [], IfSome};
ghost use Rattle.std.proofs.Props.{props};
ghost use Rattle.zk_history.specs.HistoryView.{empty_kept};
ghost use Rattle.zk_bench_dial.specs.Lines.{bench_end, IsUp, PastView};

use crate::serve::{deliver, fetch};
use std::alloc::Allocator;
use std::io::{self, Read, Write};
use std::marker::{Brand, PhantomData};
use zk_bench::Bench;
use zk_link::Stream;

/// Which history the benches have, and which of them there are. Whoever begins them picks that (`std::marker::Brand`).
pub trait Past {
    ghost past: { PastView };
}

impl Past for Brand {
    ghost past = { record { history = empty_kept; lines = [] } };
}

/// A connection to a bench, or one that is over.
#[derive(Drop)]
pub struct BenchStream<A: Allocator + Copy, K: Past> {
    pub(crate) bench: Option<Bench<A>>,
    // How often somebody still waits for the bench, until the connection is cut.
    pub(crate) waits: u64,
    pub(crate) of: PhantomData<K>,
    ghost is: { IfSome bench (IsUp K.past) } by { Prim.hlevel props },
}

impl<A: Allocator + Copy, K: Past> Read for BenchStream<A, K> {
    fn read(&mut self, buf: &mut [u8]) -> io::Result<usize> {
        fetch::<A, K>(&mut self.bench, &mut self.waits, buf)
    }
}

impl<A: Allocator + Copy, K: Past> Write for BenchStream<A, K> {
    fn write(&mut self, buf: &[u8]) -> io::Result<usize> {
        deliver::<A, K>(&mut self.bench, buf)
    }

    fn flush(&mut self) -> io::Result<()> {
        Ok(())
    }
}

impl<A: Allocator + Copy, K: Past> Stream for BenchStream<A, K> {
    ghost far = { bench_end K.past };

    ghost state = { λ line. record { served = line.bench; waits = line.waits } };

    fn wait_at_most(&mut self, _ms: u64) -> io::Result<()> {
        Ok(())
    }

    fn read_some(&mut self, buf: &mut [u8]) -> io::Result<usize> {
        fetch::<A, K>(&mut self.bench, &mut self.waits, buf)
    }

    fn give(&mut self, buf: &[u8]) -> io::Result<usize> {
        deliver::<A, K>(&mut self.bench, buf)
    }
}
