//! What is printed of a client whose connections lead to servers of the model agrees with their history, wherever cuts fall. A driver whose
//! connections lead to a server in memory was served from the bench's history, so what `watch` and `live` print over such connections
//! agrees with it. The functions have empty bodies, or read a bench for what is known of it: their contracts are the laws.
#![tactic(auto)]

ghost use Rattle.zk_history.specs.HistoryView.{history_of};
ghost use Rattle.zk_nodes.specs.History.{IsHistory};
ghost use Rattle.theory_drivers.specs.Worlds.{ByDriver, ByStream};
ghost use Rattle.theory_shown.specs.Agreeing.{LifeAgrees, LivesWait, WatchAgrees, WatchEndAgrees};
ghost use Rattle.theory_shown.specs.Benched.{BenchesCohere, BenchesMeet, BenchesReceive, BenchesServe, BenchesWait};
ghost use Rattle.std.specs.Prelude.{◌≡◌, ◌≢◌, All, ℕ, List, true, false};
ghost use Rattle.std.specs.Io.KnownBytes.{Appends};
ghost use Rattle.shell_watch.specs.Watching.{aims_of};
ghost use Rattle.zk_bench.specs.Served.{Served};
ghost use Rattle.zk_bench_dial.specs.Lines.{IsLeft, IsOver};
ghost use Rattle.theory_shown.specs.Linked.{LinkedEndAgrees, LinkedWatchAgrees, PrintsPast, WatchesPast};
ghost use Rattle.theory_shown.specs.Lived.{ByClient, ByKnown, LifeCoheres};
ghost use Rattle.theory_shown.specs.Watched.{EndsCohere, PrintsCohere};

use shell_watch::{WatchEnd, WatchPlan, watch};
use std::alloc::Allocator;
use std::io::Write;
use std::marker::Brand;
use zk_bench::{Bench, History};
use zk_bench_dial::{Benches, Past};
use zk_link::{Clock, Stream};

/// Where what each connection took was what a server of the model had, and what it gave was what this server had sent: each good answer of
/// the client of which a watch prints is the history's, at the last seen zxid that is printed with it. Over streams that know their bytes,
/// and by what was written and read, over any stream.
pub fn watches_cohere<A: Allocator, S: Stream>()
    ensures printed { PrintsCohere A S.far ByStream }
    ensures over { EndsCohere A S.far ByStream }
    ensures printed_bytes { PrintsCohere A S.far ByDriver }
    ensures over_bytes { EndsCohere A S.far ByDriver }
{}

/// The same of a client that a script drives over such connections: each good answer that it has, and that is looked up and printed, is the
/// history's.
pub fn lives_cohere()
    ensures known { LifeCoheres ByKnown }
    ensures bytes { LifeCoheres ByClient }
{}

/// A driver whose connections lead to a server in memory was served from the bench's history: over a whole run, beside which a bench does
/// what its clauses say, with the bytes that streams took and gave, or that the driver wrote and read. What the bench shows is then what
/// servers of the model show, so its client was served from that history, and each good answer that it has is the history's.
pub fn benches_serve<A: Allocator, S: Stream>()
    ensures meets { BenchesMeet A S.far ByStream }
    ensures meets_bytes { BenchesMeet A S.far ByDriver }
    ensures served { BenchesServe A S.far ByStream }
    ensures served_bytes { BenchesServe A S.far ByDriver }
    ensures coheres { BenchesCohere A S.far ByStream }
    ensures coheres_bytes { BenchesCohere A S.far ByDriver }
    // And each ready bench can begin a connection and receive what is written on it.
    ensures receives { BenchesReceive A S.far }
    // Beside any run in which nothing comes it can go on.
    ensures waits { BenchesWait A S.far }
{}

/// What is known of the history of any bench: it is one.
fn known_of<B: Allocator + Copy>(bench: &Bench<B>) -> i64
    ensures { IsHistory (history_of bench.now.history) }
{
    bench.history().last_zxid()
}

/// What `watch` prints over connections to a server in memory agrees with its history, wherever pieces and cuts fall: each good answer of
/// the client of which it prints a line is what the history of the bench has, as it is in the end, at the last seen zxid in that line. The
/// bench did beside the watch what its clauses say, with the bytes that the driver wrote and read, or that streams took and gave.
pub fn watches_agree<A: Allocator, S: Stream, B: Allocator + Copy>(bench: &Bench<B>)
    ensures printed { WatchAgrees A S.far ByDriver bench.now }
    ensures over { WatchEndAgrees A S.far ByDriver bench.now }
    ensures printed_known { WatchAgrees A S.far ByStream bench.now }
    ensures over_known { WatchEndAgrees A S.far ByStream bench.now }
{
    known_of(bench);
}

/// Over a dial whose streams say that servers in memory are at their far end, which go through this history (`bench_end`), what `watch`
/// prints agrees with the history, wherever pieces and cuts fall: nothing is premise of what a bench does beside the watch, since the
/// streams say that.
pub fn linked_watches_agree<A: Allocator, B: Allocator + Copy>(bench: &Bench<B>)
    ensures printed { (lines : List (Served × ℕ)) → LinkedWatchAgrees A (record { history = bench.now.history; lines = lines }) }
    ensures over { (lines : List (Served × ℕ)) → LinkedEndAgrees A (record { history = bench.now.history; lines = lines }) }
{
    known_of(bench);
}

// A watch over benches that it dials.
fn watch_past<A: Allocator + Copy, K: Past, C: Clock + Drop, O: Write>(
    alloc: A,
    history: &History<A>,
    lines: Vec<(Bench<A>, u64), A>,
    clock: C,
    plan: WatchPlan<'_, A>,
    out: &mut O,
) -> WatchEnd
    requires past { history.now ≡ K.past.history }
    requires left { All (IsLeft K.past) lines.items }
    ensures over { result ≡ WatchEnd.Over → (text : List ℕ) × WatchesPast A K.past plan.entry.style
        (aims_of plan.entry.subjects.items) plan.entry.trees.items plan.entry.most plan.entry.for_ms text true
        × Appends (O.contents out.old) (O.contents out.new) text }
    ensures never { result ≡ WatchEnd.NeverConnected → (text : List ℕ) × WatchesPast A K.past plan.entry.style
        (aims_of plan.entry.subjects.items) plan.entry.trees.items plan.entry.most plan.entry.for_ms text false
        × Appends (O.contents out.old) (O.contents out.new) text }
    ensures printed { result ≢ WatchEnd.Stream → (text : List ℕ) × PrintsPast A K.past plan.entry.style
        (aims_of plan.entry.subjects.items) plan.entry.trees.items plan.entry.most text
        × Appends (O.contents out.old) (O.contents out.new) text }
{
    history.last_zxid();
    let dial: Benches<A, K> = Benches::of(lines);
    watch(alloc, dial, clock, plan, out)
}

/// `watch` over servers in memory that it dials, all with this history. Each goes through it: its server takes the next transaction
/// wherever the watch has received all that came, and waits. After as many such waits as the number beside the bench says the connection
/// is cut, and the next one is dialled. Each good answer of the client of which a line is printed is what the history has at the last seen
/// zxid in that line, wherever pieces and cuts fall. Nothing is premise of what the servers do.
pub fn watch_benches<A: Allocator + Copy, C: Clock + Drop, O: Write>(
    alloc: A,
    history: &History<A>,
    lines: Vec<(Bench<A>, u64), A>,
    clock: C,
    plan: WatchPlan<'_, A>,
    out: &mut O,
) -> WatchEnd
    requires { All (λ line. IsOver history.now line.0) lines.items }
    ensures over { result ≡ WatchEnd.Over
        → (text : List ℕ) × WatchesPast A (record { history = history.now; lines = lines.items }) plan.entry.style
        (aims_of plan.entry.subjects.items) plan.entry.trees.items plan.entry.most plan.entry.for_ms text true
        × Appends (O.contents out.old) (O.contents out.new) text }
    ensures never { result ≡ WatchEnd.NeverConnected
        → (text : List ℕ) × WatchesPast A (record { history = history.now; lines = lines.items }) plan.entry.style
        (aims_of plan.entry.subjects.items) plan.entry.trees.items plan.entry.most plan.entry.for_ms text false
        × Appends (O.contents out.old) (O.contents out.new) text }
    ensures printed { result ≢ WatchEnd.Stream
        → (text : List ℕ) × PrintsPast A (record { history = history.now; lines = lines.items }) plan.entry.style
        (aims_of plan.entry.subjects.items) plan.entry.trees.items plan.entry.most text
        × Appends (O.contents out.old) (O.contents out.new) text }
{
    watch_past::<A, Brand, C, O>(alloc, history, lines, clock, plan, out)
}

/// And so does what `live` prints: it is what a list of deeds of its client prints, and each good answer that this has after each of them,
/// and that is looked up and printed, is what the history of the bench has at the last seen zxid. Nothing is asked of how it begins.
pub fn lives_agree<B: Allocator + Copy>(bench: &Bench<B>)
    ensures bytes { LifeAgrees ByClient bench.now }
    ensures known { LifeAgrees ByKnown bench.now }
{
    known_of(bench);
}

/// Beside whatever a client of `live` does if nothing comes, each ready bench can go on: what is premise of a bench asks nothing of it
/// but what its reads bring.
pub fn lives_wait()
    ensures { LivesWait }
{}
