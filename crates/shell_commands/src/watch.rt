//! The command that watches nodes over connections.

ghost use Rattle.std.specs.Prelude.{◌≡◌, ◌≢◌, ◌++◌, List, ℕ, true, false};
ghost use Rattle.std.specs.Io.KnownBytes.{Appends};
ghost use Rattle.shell_watch.specs.Watching.{aims_of, IsPrinted, IsWatched};
ghost use Rattle.shell_commands.specs.Asks.{IsUndone};
ghost use Rattle.shell_commands.specs.Written.{IsHalt};

use crate::status::Status;
use crate::written::halt;
use shell_watch::{WatchEnd, WatchPlan, watch};
use std::alloc::Allocator;
use std::io::Write;
use zk_link::{Clock, Dial};

/// Watches what a plan names over connections, and prints a line at each change that the client learns, until the plan's time is over:
/// `NeverConnected` where no server had ever accepted its session by then. `Memory` where memory ran out, with the line `halt` after the
/// others if that was in a step of the client; `Stream` where a write of what is printed failed. A connection that fails is no fault.
pub fn watch_over<A: Allocator + Copy, D: Dial + Drop, C: Clock + Drop, O: Write>(
    alloc: A,
    dial: D,
    clock: C,
    plan: WatchPlan<'_, A>,
    out: &mut O,
) -> Status
    ensures done { result ≡ Status.Done → (text : List ℕ) × IsWatched A D.Stream.far plan.entry.style (aims_of plan.entry.subjects.items)
        plan.entry.trees.items plan.entry.most plan.entry.for_ms text true × Appends (O.contents out.old) (O.contents out.new) text }
    ensures never { result ≡ Status.NeverConnected
        → (text : List ℕ) × IsWatched A D.Stream.far plan.entry.style (aims_of plan.entry.subjects.items)
        plan.entry.trees.items plan.entry.most plan.entry.for_ms text false × Appends (O.contents out.old) (O.contents out.new) text }
    // The line of a halt stands after what is printed if a step halted.
    ensures memory { result ≡ Status.Memory → (text told : List ℕ)
        × IsPrinted A D.Stream.far plan.entry.style (aims_of plan.entry.subjects.items) plan.entry.trees.items plan.entry.most text
        × IsHalt told
        × Appends (O.contents out.old) (O.contents out.new) (text ++ told) }
    ensures fault { result ≢ Status.Fault }
    ensures usage { result ≢ Status.Usage }
    ensures asks { IsUndone result → ⊥ }
    ensures more { result ≢ Status.More }
{
    match watch(alloc, dial, clock, plan, out) {
        WatchEnd::Over => Status::Done,
        WatchEnd::NeverConnected => Status::NeverConnected,
        WatchEnd::Halted => halt(out),
        WatchEnd::Memory => Status::Memory,
        WatchEnd::Stream => Status::Stream,
    }
}
