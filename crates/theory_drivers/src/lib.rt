//! A driver whose connections lead to servers of the model, as those in memory are: its client was served by them, wherever cuts fall. The
//! functions have empty bodies: their contracts are the laws.
#![tactic(auto)]

ghost use Rattle.theory_drivers.specs.Benches.{BenchAdvances, BenchConnects, BenchEnds, BenchGives, BenchProcesses, BenchTakes};
ghost use Rattle.theory_drivers.specs.ServedDrivers.{BytesServe, StreamsCohere, StreamsServe};

use std::alloc::Allocator;
use zk_link::Stream;

/// Over streams that know their bytes: if what each took was what a server of the model had, and what it gave was what this server had
/// sent, the client within was served from the history (`IsServedFrom`). So all that is said of such a client holds.
pub fn streams_serve<A: Allocator, S: Stream>()
    ensures { StreamsServe A S.far }
{}

/// And each of its good answers is the history's at the last seen zxid.
pub fn streams_cohere<A: Allocator, S: Stream>()
    ensures { StreamsCohere A S.far }
{}

/// The same by what the driver wrote and read, over any streams.
pub fn bytes_serve<A: Allocator, S: Stream>()
    ensures { BytesServe A S.far }
{}

/// What befalls a connection is what servers in memory do, by the clauses of `zk_bench::Bench`: it begins, bytes come to the connected
/// server, the first bytes that it sent are taken out, it takes a transaction, it processes a request, it ends the connection.
pub fn benches_act()
    ensures connects { BenchConnects }
    ensures takes { BenchTakes }
    ensures gives { BenchGives }
    ensures advances { BenchAdvances }
    ensures processes { BenchProcesses }
    ensures ends { BenchEnds }
{}
