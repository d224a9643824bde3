//! A tree, listed and printed.

ghost use Rattle.std.specs.Prelude.{◌≡◌, ◌≢◌, ◌⊎◌, ◌∷◌, [], List, None, IfOk, IfSome};
ghost use Rattle.std.specs.Io.KnownBytes.{Appends};
ghost use Rattle.zk_nodes.specs.Path.{Text};
ghost use Rattle.zk_driver.specs.Flowing.{flow_of};
ghost use Rattle.shell_ask.specs.Printing.{IsToldEnd};
ghost use Rattle.shell_ask.specs.Trees.{ending_end, ending_told, root_of, scope_of, tree_text, Ending as Ends};
ghost use Rattle.shell_ask.specs.inner.Trees.{ending_view, waiting_view};
ghost use Rattle.shell_ask.specs.Trees.{Full, Tours, WalksFrom, Whole};
ghost use Rattle.shell_ask.specs.inner.Trees.{IsUndone};

use crate::answered::{close, timeout_for};
use crate::asked::write;
use crate::end::CallEnd;
use crate::plan::TreePlan;
use crate::spots::{Spot, copied};
use crate::tree_text::{ending_end, ending_told, tree_text};
use crate::walk::{Bounds, Ending, Walk};
use std::alloc::Allocator;
use std::io::Write;
use zk_client::Path;
use zk_driver::{Driver, Stop};
use zk_link::{Clock, Dial};

/// The paths that a walk prints, and how it ends.
#[derive(Drop)]
struct Tour<A: Allocator> {
    printed: Vec<Path<A>, A>,
    ending: Ending<A>,
}

/// A walk whose root waits.
fn begun<A: Allocator + Copy>(alloc: A, plan: &TreePlan<'_, A>) -> Result<Walk<A>, Stop>
    ensures { IfOk result (λ walk. (waiting_view walk.waiting.items ≡ root_of (scope_of plan.now) ∷ []) × (walk.printed.items ≡ [])) }
{
    let root = Spot {
        depth: 0,
        path: copied(alloc, &plan.path)?,
        name: copied(alloc, &plan.name)?,
    };
    let mut waiting = Vec::new(alloc);
    if waiting.push(root).is_err() {
        return Err(Stop::Memory);
    }
    Ok(Walk {
        waiting,
        printed: Vec::new(alloc),
    })
}

/// Walks through the tree of a plan.
fn walked<A: Allocator + Copy, D: Dial + Drop, C: Clock + Drop>(
    alloc: A,
    driver: &mut Driver<'_, A, D, C>,
    plan: &TreePlan<'_, A>,
    until: u64,
) -> Result<Tour<A>, Stop>
    ensures { IfOk result
        (λ tour. WalksFrom (flow_of D.Stream.remaining D.Stream.contents D.Stream.far D.Stream.state driver.old.engine None)
        until (scope_of plan.now)
        (ending_view tour.ending) tour.printed.items) }
{
    let bounds = Bounds {
        deepest: plan.deepest,
        most: plan.most,
        until,
    };
    let mut walk = begun(alloc, plan)?;
    let ending = walk.finish(driver, alloc, bounds)?;
    let Walk { waiting, printed } = walk;
    drop(waiting);
    Ok(Tour { printed, ending })
}

/// Walks through the tree of a plan in a session of its own. None says that memory ran out.
fn make_tour<A: Allocator + Copy, D: Dial + Drop, C: Clock + Drop>(
    alloc: A,
    dial: D,
    clock: C,
    plan: &TreePlan<'_, A>,
) -> Option<Tour<A>>
    ensures tours { IfSome result (λ tour. Tours A D.Stream.far (scope_of plan.now) (ending_view tour.ending) tour.printed.items) }
    ensures undone { IfSome result (λ tour. IsUndone (ending_view tour.ending)) }
{
    let timeout_ms = timeout_for(plan.wait_ms);
    let Ok(mut driver) = Driver::begin(alloc, timeout_ms, dial, clock, plan.addresses) else {
        return None;
    };
    let until = driver.now().saturating_add(plan.wait_ms);
    let tour = walked(alloc, &mut driver, plan, until);
    close(&mut driver);
    drop(driver);
    match tour {
        Ok(tour) => Some(tour),
        Err(_) => None,
    }
}

/// Prints the paths of a walk that has printed as many as may be, and tells that there are more.
fn print_most<O: Write, E: Write>(out: &mut O, errors: &mut E, text: &[u8], told: &[u8]) -> CallEnd
    ensures written { result ≢ CallEnd.Stream → (result ≡ CallEnd.More) × Appends (O.contents out.old) (O.contents out.new) text.now
        × Appends (E.contents errors.old) (E.contents errors.new) told.now }
{
    match write(out, text, CallEnd::More) {
        CallEnd::Stream => CallEnd::Stream,
        _ => write(errors, told, CallEnd::More),
    }
}

/// Prints the paths of a walk, or tells why it stopped.
fn finish<A: Allocator + Copy, O: Write, E: Write>(
    alloc: A,
    plan: &TreePlan<'_, A>,
    tour: &Tour<A>,
    out: &mut O,
    errors: &mut E,
) -> CallEnd
    requires { IsUndone (ending_view tour.now.ending) }
    ensures done { result ≡ CallEnd.Done → (ending_view tour.now.ending ≡ Whole)
        × Appends (O.contents out.old) (O.contents out.new) (tree_text plan.now.form tour.now.printed.items) × (errors.new ≡ errors.old) }
    ensures more { result ≡ CallEnd.More → (ending_view tour.now.ending ≡ Full)
        × Appends (O.contents out.old) (O.contents out.new) (tree_text plan.now.form tour.now.printed.items)
        × Appends (E.contents errors.old) (E.contents errors.new) (ending_told plan.now.name plan.now.most Full) }
    ensures told { IsToldEnd result → result ≢ CallEnd.More → (result ≡ ending_end (ending_view tour.now.ending))
        × Appends (E.contents errors.old) (E.contents errors.new) (ending_told plan.now.name plan.now.most (ending_view tour.now.ending))
        × (out.new ≡ out.old) }
    ensures memory { result ≡ CallEnd.Memory → (out.new ≡ out.old) × (errors.new ≡ errors.old) }
{
    let Ok(text) = tree_text(alloc, plan.form, tour.printed.as_slice()) else {
        return CallEnd::Memory;
    };
    let Ok(told) = ending_told(alloc, plan.name.as_str(), plan.most, &tour.ending) else {
        return CallEnd::Memory;
    };
    match ending_end(&tour.ending) {
        CallEnd::Done => write(out, text.as_slice(), CallEnd::Done),
        CallEnd::More => print_most(out, errors, text.as_slice(), told.as_bytes()),
        end => write(errors, told.as_bytes(), end),
    }
}

/// Prints to `out` the path of a node and of all nodes below it, each before those below it, those below one node in the order of their
/// names' bytes, a line each; in [`Form::Json`] an object each. It lists one node after the other, in a session of its own, and ends the
/// session.
///
/// The text is written after the walk is whole, or if as many nodes are listed as may be printed: then `errors` is told that there are
/// more. If the walk stops, nothing is printed, and `errors` is told why, with the path at which it stopped. A node that is gone when it
/// is listed is left out, unless it is the root. What changes while the walk goes on is seen or not: it is no picture of one moment.
///
/// It waits for all answers together as long as the plan says, and for the end of the session a second at most.
pub fn tree<A: Allocator + Copy, D: Dial + Drop, C: Clock + Drop, O: Write, E: Write>(
    alloc: A,
    dial: D,
    clock: C,
    plan: TreePlan<'_, A>,
    out: &mut O,
    errors: &mut E,
) -> CallEnd
    // It is whole, and this is printed.
    ensures done { result ≡ CallEnd.Done → (printed : List Text) × Tours A D.Stream.far (scope_of plan.entry) Whole printed
        × Appends (O.contents out.old) (O.contents out.new) (tree_text plan.entry.form printed) × (errors.new ≡ errors.old) }
    // As many nodes as may be are printed, and that there are more is told.
    ensures more { result ≡ CallEnd.More → (printed : List Text) × Tours A D.Stream.far (scope_of plan.entry) Full printed
        × Appends (O.contents out.old) (O.contents out.new) (tree_text plan.entry.form printed)
        × Appends (E.contents errors.old) (E.contents errors.new) (ending_told plan.entry.name plan.entry.most Full) }
    // It stopped, and this is told.
    ensures told { IsToldEnd result → result ≢ CallEnd.More
        → (ending : Ends) × (printed : List Text) × Tours A D.Stream.far (scope_of plan.entry) ending printed
        × (result ≡ ending_end ending) × Appends (E.contents errors.old) (E.contents errors.new)
        (ending_told plan.entry.name plan.entry.most ending) × (out.new ≡ out.old) }
    ensures memory { result ≡ CallEnd.Memory → (out.new ≡ out.old) × (errors.new ≡ errors.old) }
{
    let Some(tour) = make_tour(alloc, dial, clock, &plan) else {
        return CallEnd::Memory;
    };
    let end = finish(alloc, &plan, &tour, out, errors);
    drop(tour);
    end
}
