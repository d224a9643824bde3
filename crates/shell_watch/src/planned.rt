//! A watch.

ghost use Rattle.std.specs.Prelude.{◌≡◌, ◌≢◌, ℕ, List, true, false};
ghost use Rattle.std.specs.Io.KnownBytes.{Appends};
ghost use Rattle.shell_watch.specs.Watching.{aims_of, IsPrinted, IsWatched};

use crate::end::WatchEnd;
use crate::growth::Growth;
use crate::plan::WatchPlan;
use crate::watcher::Watcher;
use std::alloc::Allocator;
use std::io::Write;
use zk_driver::Driver;
use zk_link::{Clock, Dial};

/// Watches the subjects of a plan, and prints to `out` what changes, until its time is over or a write fails. Then the session is ended,
/// which is waited for: a third of the timeout at most, and 2 seconds.
///
/// A driver follows each subject, and decides when it is read, which address is dialled, and when another session begins. A line tells each
/// thing that it tells of the session, of its connections and of reads that are refused; and of a subject its path, what is kept of it now,
/// and the last seen zxid, if that is not what was printed of it last. At first it is as if nothing that is kept had been printed. Each
/// line begins with the time since the watch began.
///
/// The driver follows each tree: its root from the first, even if it is not there yet, and each node that good names lead to from there
/// on, its data and the names below it. What it takes on is watched, if it is not watched already, so that nothing is printed twice; and
/// what it lets go is watched no more, after it was printed once more if it has changed: that it does not exist. If a tree has more
/// nodes than the most, no more of it are taken on, and a line tells that if none had more before.
///
/// Lines are written whole, those of one turn in one write, and flushed. If memory runs out, those of the last turn are not written.
pub fn watch<A: Allocator + Copy, D: Dial + Drop, C: Clock + Drop, O: Write>(
    alloc: A,
    dial: D,
    clock: C,
    plan: WatchPlan<'_, A>,
    out: &mut O,
) -> WatchEnd
    // Its time is over. Each subject was followed; each turn of the driver was printed; after each, what was printed last of each subject
    // was what the client kept of it; and a server had accepted a session.
    ensures over { result ≡ WatchEnd.Over → (text : List ℕ) × IsWatched A D.Stream.far plan.entry.style
        (aims_of plan.entry.subjects.items) plan.entry.trees.items plan.entry.most plan.entry.for_ms text true
        × Appends (O.contents out.old) (O.contents out.new) text }
    // The same, if none had.
    ensures never { result ≡ WatchEnd.NeverConnected → (text : List ℕ) × IsWatched A D.Stream.far plan.entry.style
        (aims_of plan.entry.subjects.items) plan.entry.trees.items plan.entry.most plan.entry.for_ms text false
        × Appends (O.contents out.old) (O.contents out.new) text }
    // Turns are printed so, wherever it stopped.
    ensures printed { result ≢ WatchEnd.Stream
        → (text : List ℕ)
        × IsPrinted A D.Stream.far plan.entry.style (aims_of plan.entry.subjects.items) plan.entry.trees.items plan.entry.most text
        × Appends (O.contents out.old) (O.contents out.new) text }
{
    let WatchPlan {
        addresses,
        subjects,
        trees,
        most,
        timeout_ms,
        for_ms,
        style,
    } = plan;
    let Ok(driver) = Driver::begin(alloc, timeout_ms.max(1), dial, clock, addresses) else {
        return WatchEnd::Memory;
    };
    let mut watcher = Watcher {
        alloc,
        driver,
        watched: Vec::new(alloc),
        is_accepted: false,
        begins: 0,
        style,
        growth: Growth {
            most,
            bounded: 0,
            ticket: 1,
            is_growing: true,
        },
    };
    let end = watcher.watch_for(subjects.as_slice(), trees.as_slice(), for_ms, out);
    drop(watcher);
    drop(subjects);
    drop(trees);
    end
}
