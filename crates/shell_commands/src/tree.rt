//! The command that lists a tree.

ghost use Rattle.std.specs.Prelude.{◌≡◌, ◌≢◌, ℕ, List};
ghost use Rattle.std.specs.Io.KnownBytes.{Appends};
ghost use Rattle.shell_ask.specs.Trees.{Full, Whole, ending_told};
ghost use Rattle.shell_commands.specs.Asks.{IsUndone};
ghost use Rattle.shell_commands.specs.Tours.{PrintsTree, TellsTree};

use crate::command::Tour;
use crate::status::Status;
use shell_ask::{CallEnd, TreePlan, tree};
use std::alloc::Global;
use std::io::Write;
use zk_link::{Clock, Dial};

/// Goes through a tree over a connection, and prints the path of each node; or tells why that is not done: `More` where as many nodes as
/// are to be are printed, and there are more.
pub fn tour_over<D: Dial + Drop, C: Clock + Drop, O: Write, E: Write>(
    alloc: Global,
    dial: D,
    clock: C,
    tour: Tour<'_>,
    out: &mut O,
    errors: &mut E,
) -> Status
    ensures done { result ≡ Status.Done
        → (text : List ℕ) × PrintsTree D.Stream.far tour.entry Whole text × Appends (O.contents out.old) (O.contents out.new) text
        × (errors.new ≡ errors.old) }
    ensures more { result ≡ Status.More
        → (text : List ℕ) × PrintsTree D.Stream.far tour.entry Full text × Appends (O.contents out.old) (O.contents out.new) text
        × Appends (E.contents errors.old) (E.contents errors.new) (ending_told tour.entry.name tour.entry.most Full) }
    ensures undone { IsUndone result
        → (told : List ℕ) × TellsTree D.Stream.far tour.entry result told × Appends (E.contents errors.old) (E.contents errors.new) told
        × (out.new ≡ out.old) }
    ensures memory { result ≡ Status.Memory → (out.new ≡ out.old) × (errors.new ≡ errors.old) }
    ensures fault { result ≢ Status.Fault }
    ensures usage { result ≢ Status.Usage }
    ensures never { result ≢ Status.NeverConnected }
{
    let Tour {
        addresses,
        path,
        name,
        deepest,
        most,
        form,
        wait_ms,
    } = tour;
    let plan = TreePlan {
        addresses: addresses.as_slice(),
        path,
        name,
        deepest,
        most,
        form,
        wait_ms,
    };
    match tree(alloc, dial, clock, plan, out, errors) {
        CallEnd::Done => Status::Done,
        CallEnd::NoNode => Status::NoNode,
        CallEnd::Refused => Status::Refused,
        CallEnd::Unconnected => Status::Unconnected,
        CallEnd::Unanswered => Status::Unanswered,
        CallEnd::More => Status::More,
        CallEnd::Memory => Status::Memory,
        CallEnd::Stream => Status::Stream,
    }
}
