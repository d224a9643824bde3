//! A watch over servers in memory that change meanwhile: what it prints is proved to be what their history has.

ghost use Rattle.std.specs.Prelude.{◌≡◌, All, IfOk, OnOk, Some, codes};
ghost use Rattle.zk_history.specs.HistoryView.{natural, with_change, with_transaction};
ghost use Rattle.zk_nodes.specs.History.{Sets};
ghost use Rattle.zk_nodes.specs.Path.{path_of};
ghost use Rattle.zk_bench_dial.specs.Lines.{IsOver};
ghost use Rattle.test_links.specs.inner.Tale.{begun, told};

use anyhow::Result;
use shell_watch::{NodeSide, Style, WatchEnd, WatchPlan};
use std::alloc::Global;
use std::io::Write;
use theory_shown::watch_benches;
use zk_bench::{Bench, Change, History};
use zk_client::{Path, Side};
use zk_link::Clock;

/// What is dialled.
static ADDRESSES: [&str; 1] = ["a"];

/// A clock that goes on by a millisecond whenever it is looked at.
#[derive(Drop)]
struct Ticks {
    now: u64,
}

impl Clock for Ticks {
    fn now(&mut self) -> u64 {
        self.now = self.now.saturating_add(1);
        self.now
    }

    fn pause(&mut self, ms: u64) {
        self.now = self.now.saturating_add(ms);
    }
}

/// One more transaction: the data of /config are set.
fn set(alloc: Global, zxid: i64, time: i64, text: &str, history: &mut History<Global>) -> Result<()>
    ensures { OnOk result (history.new ≡ with_change (with_transaction history.old (natural zxid) time)
        (Sets (path_of (codes "/config")) (Some text.now))) }
{
    let path = Path::new(alloc, "/config")?;
    let bytes = Vec::from_slice(alloc, text.as_bytes())?;
    history.begin(zxid, time)?;
    history.change(Change::Set(path, Some(bytes)))?;
    Ok(())
}

/// How the history begins: with a node.
fn begin(alloc: Global) -> Result<History<Global>>
    ensures { IfOk result (λ history. history ≡ begun) }
{
    let mut history = History::new(alloc);
    let path = Path::new(alloc, "/config")?;
    let bytes = Vec::from_slice(alloc, b"one")?;
    history.node(path, Some(bytes), 1_000)?;
    Ok(history)
}

/// The history: a node, and four transactions that set its data. It is the same whenever it is told.
fn tell(alloc: Global) -> Result<History<Global>>
    ensures { IfOk result (λ history. history ≡ told) }
{
    let mut history = begin(alloc)?;
    set(alloc, 5, 5_000, "two", &mut history)?;
    set(alloc, 6, 6_000, "three", &mut history)?;
    set(alloc, 7, 7_000, "four", &mut history)?;
    set(alloc, 8, 8_000, "five", &mut history)?;
    Ok(history)
}

/// A bench over the history, whose first server has taken this many transactions.
fn bench_at(alloc: Global, place: usize) -> Result<Bench<Global>>
    ensures { IfOk result (λ bench. IsOver told bench) }
{
    let mut bench = Bench::new(alloc, tell(alloc)?);
    for _ in 0..place {
        bench.take(1)?;
    }
    Ok(bench)
}

/// Where the benches stand, the last of which is dialled first, and how often somebody waits for each until it is cut. The first begins
/// before the first transaction, and takes two. The second is behind that. The third is one transaction further than the first was, and
/// takes the last. At the fourth the time runs out.
static PLACES: [(usize, u64); 4] = [(4, u64::MAX), (3, 1), (1, 0), (0, 2)];

fn benches(alloc: Global) -> Result<Vec<(Bench<Global>, u64)>>
    ensures { IfOk result (λ lines. All (λ line. IsOver told line.0) lines.items) }
{
    let mut lines = Vec::new(alloc);
    for (place, waits) in &PLACES {
        lines.push((bench_at(alloc, *place)?, *waits))?;
    }
    Ok(lines)
}

/// Watches the data of /config over the benches for two seconds.
fn watched(alloc: Global, out: &mut Vec<u8>) -> Result<WatchEnd> {
    let mut subjects = Vec::new(alloc);
    let path = Path::new(alloc, "/config")?;
    subjects.push(NodeSide {
        side: Side::Data,
        path,
    })?;
    let plan = WatchPlan {
        addresses: &ADDRESSES,
        subjects,
        trees: Vec::new(alloc),
        most: 1_000,
        timeout_ms: 9_000,
        for_ms: Some(2_000),
        style: Style::Hex,
    };
    let history = tell(alloc)?;
    let lines = benches(alloc)?;
    Ok(watch_benches(alloc, &history, lines, Ticks { now: 0 }, plan, out))
}

/// Plays the watch, and tells what it printed, each line without its time.
pub fn play_benches<W: Write>(alloc: Global, out: &mut W) -> Result<()> {
    let mut text = Vec::new(alloc);
    let end = watched(alloc, &mut text)?;
    for line in std::str::from_utf8(text.as_slice())?.lines() {
        let (_, words) = line.split_once(' ').unwrap_or(("", line));
        writeln!(out, "{words}")?;
    }
    writeln!(out, "{end:?}").map_err(From::from)
}
