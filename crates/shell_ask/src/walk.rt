//! A walk through a tree, one node after the other.

ghost use Rattle.std.specs.Prelude.{◌≡◌, ◌≢◌, ◌++◌, ◌∷◌, [], ◌<◌, ◌-◌, ◌^◌, true, false, List, Contains, None, IfOk, IfSome, IfNone, OnOk};
ghost use Rattle.std.specs.Prelude.{length, map, option_map, unwrap_or};
ghost use Rattle.zk_nodes.specs.Path.{Text};
ghost use Rattle.zk_driver.specs.Driving.{course_of};
ghost use Rattle.zk_driver.specs.Flowing.{flow_of, Runs};
ghost use Rattle.shell_ask.specs.inner.Asking.{came_view};
ghost use Rattle.shell_ask.specs.Asking.{Heard};
ghost use Rattle.shell_ask.specs.Printing.{end_of};
ghost use Rattle.shell_ask.specs.declared.end.CallEnd.TheVariants as ends;
ghost use Rattle.shell_ask.specs.Trees.{child_of, listing_of, names_within};
ghost use Rattle.shell_ask.specs.inner.Trees.{ending_view, spot_view, stage_of, waiting_view, with_next};
ghost use Rattle.shell_ask.specs.Trees.{AreInOrder, EndsAt, HasNoPath, IsGone, IsListed, Misnamed, Reaches, Stage, Steps};

use crate::answered::{CALL, answered};
use crate::came::Came;
use crate::end::CallEnd;
use crate::spots::{Spot, copied, is_of_text, put_first, spots_below};
use crate::told::end_of;
use std::alloc::Allocator;
use zk_client::{Call, CallResult, JoinedTexts, Outcome, Path};
use zk_driver::{Driver, Stop};
use zk_link::{Clock, Dial};

/// How many levels below the root are gone through, how many nodes are printed at most, and the moment to which calls wait.
#[derive(Clone, Copy)]
pub(crate) struct Bounds {
    pub(crate) deepest: u64,
    pub(crate) most: u64,
    pub(crate) until: u64,
}

/// How a walk ends.
#[derive(Drop)]
pub(crate) enum Ending<A: Allocator> {
    /// All is printed.
    Whole,
    /// As many nodes as may be are printed, and there are more.
    Full,
    /// A node could not be listed.
    Stopped(Path<A>, Came<A>),
    /// A node has one below it with a name that no path has.
    Misnamed(Path<A>),
}

/// How far a walk has come: the nodes that wait, the next one last, and the paths to be printed.
#[derive(Drop)]
pub(crate) struct Walk<A: Allocator> {
    pub(crate) waiting: Vec<Spot<A>, A>,
    pub(crate) printed: Vec<Path<A>, A>,
}

/// The names that an answer lists, of the nodes below a node that are gone through.
fn names_within<'a, A: Allocator>(
    deepest: u64,
    spot: &Spot<A>,
    came: &'a Came<A>,
) -> Option<&'a JoinedTexts<A>>
    ensures { unwrap_or (option_map (λ lent. lent.now) result) [] ≡ names_within deepest (spot_view spot.now) (came_view came.now) }
{
    match came {
        Came::Answered(
            Outcome::Replied {
                zxid: _,
                result: CallResult::Names { names, stat: _ },
            },
        ) if spot.depth < deepest => Some(names),
        _ => None,
    }
}

/// Whether a node is listed.
fn is_listed<A: Allocator>(deepest: u64, spot: &Spot<A>) -> bool
    ensures listed { result ≡ true → IsListed deepest (spot_view spot.now) }
    ensures leaf { result ≡ false → IsListed deepest (spot_view spot.now) → ⊥ }
{
    spot.depth == 0 || spot.depth < deepest
}

/// Whether a call is done.
fn is_done<A: Allocator>(came: &Came<A>) -> bool
    ensures done { result ≡ true → end_of (came_view came.now) ≡ ends.Done }
    ensures undone { result ≡ false → end_of (came_view came.now) ≢ ends.Done }
{
    match end_of(came) {
        CallEnd::Done => true,
        _ => false,
    }
}

/// Whether there is such a node no more.
fn is_gone<A: Allocator>(spot: &Spot<A>, came: &Came<A>) -> bool
    ensures gone { result ≡ true → IsGone (spot_view spot.now) (came_view came.now) }
    ensures stays { result ≡ false → IsGone (spot_view spot.now) (came_view came.now) → ⊥ }
{
    match end_of(came) {
        CallEnd::NoNode => spot.depth != 0,
        _ => false,
    }
}

/// What comes of the call that lists a node.
fn listed<A: Allocator + Copy, D: Dial + Drop, C: Clock + Drop>(
    driver: &mut Driver<'_, A, D, C>,
    alloc: A,
    spot: &Spot<A>,
    ticket: u64,
    until: u64,
) -> Result<Came<A>, Stop>
    ensures heard { IfOk result (λ came. Heard (listing_of (spot_view spot.now)) until (course_of driver.old.engine None) (came_view came)
        (course_of driver.new.engine None)) }
    ensures runs { OnOk result (Runs (flow_of D.Stream.remaining D.Stream.contents D.Stream.far D.Stream.state driver.old.engine None)
        (flow_of D.Stream.remaining D.Stream.contents D.Stream.far D.Stream.state driver.new.engine None)) }
{
    let path = copied(alloc, &spot.path)?;
    answered(
        driver,
        ticket,
        Call::GetChildren { path, watch: false },
        until,
    )
}

impl<A: Allocator + Copy> Walk<A> {
    /// Prints a node that is listed, and puts those below it before all that wait; or says that one of these has no path.
    fn open(
        &mut self,
        alloc: A,
        bounds: Bounds,
        spot: Spot<A>,
        came: &Came<A>,
    ) -> Result<Option<Ending<A>>, Stop>
        requires { spot.depth < 2 ^ 64 - 1 }
        ensures some { IfOk result (λ ending. IfSome ending (λ e. (each : List Text) × (child : Text)
            × AreInOrder each (names_within bounds.deepest (spot_view spot) (came_view came.now)) × Contains each child
            × HasNoPath (spot_view spot) child
            × (ending_view e ≡ Misnamed spot.name) × (self.new.printed.items ≡ self.old.printed.items))) }
        ensures none { IfOk result (λ ending.
            IfNone ending ((each : List Text) × AreInOrder each (names_within bounds.deepest (spot_view spot) (came_view came.now))
            × (waiting_view self.new.waiting.items ≡ map (child_of (spot_view spot)) each ++ waiting_view self.old.waiting.items)
            × (self.new.printed.items ≡ self.old.printed.items ++ spot.name ∷ []))) }
    {
        match spots_below(alloc, &spot, names_within(bounds.deepest, &spot, came)) {
            Ok(spots) => {
                let Ok(()) = self.printed.push(spot.name) else {
                    return Err(Stop::Memory);
                };
                let Ok(()) = put_first(&mut self.waiting, spots) else {
                    return Err(Stop::Memory);
                };
                Ok(None)
            }
            Err(fault) => {
                if is_of_text(&fault) {
                    return Ok(Some(Ending::Misnamed(spot.name)));
                }
                Err(Stop::Memory)
            }
        }
    }

    /// Lists a node, and prints it.
    fn list<D: Dial + Drop, C: Clock + Drop>(
        &mut self,
        driver: &mut Driver<'_, A, D, C>,
        alloc: A,
        bounds: Bounds,
        spot: Spot<A>,
        ticket: u64,
    ) -> Result<Option<Ending<A>>, Stop>
        requires listed { IsListed bounds.deepest (spot_view spot) }
        requires room { length self.old.printed.items < bounds.most }
        ensures some { IfOk result (λ ending. IfSome ending (λ e.
            EndsAt bounds (with_next (spot_view spot)
            (stage_of (flow_of D.Stream.remaining D.Stream.contents D.Stream.far D.Stream.state driver.old.engine None) self.old))
            (ending_view e)
            × (self.new.printed.items ≡ self.old.printed.items))) }
        ensures none { IfOk result (λ ending. IfNone ending (
            Steps bounds
            (with_next (spot_view spot)
            (stage_of (flow_of D.Stream.remaining D.Stream.contents D.Stream.far D.Stream.state driver.old.engine None) self.old))
            (stage_of (flow_of D.Stream.remaining D.Stream.contents D.Stream.far D.Stream.state driver.new.engine None) self.new))) }
    {
        let came = listed(driver, alloc, &spot, ticket, bounds.until)?;
        if is_done(&came) {
            let opened = self.open(alloc, bounds, spot, &came);
            drop(came);
            return opened;
        }
        if is_gone(&spot, &came) {
            drop(spot);
            drop(came);
            return Ok(None);
        }
        Ok(Some(Ending::Stopped(spot.name, came)))
    }

    /// Goes on with the next node that waits, or says how the walk ends.
    fn step<D: Dial + Drop, C: Clock + Drop>(
        &mut self,
        driver: &mut Driver<'_, A, D, C>,
        alloc: A,
        bounds: Bounds,
        ticket: u64,
    ) -> Result<Option<Ending<A>>, Stop>
        ensures some { IfOk result (λ ending. IfSome ending (λ e.
            EndsAt bounds (stage_of (flow_of D.Stream.remaining D.Stream.contents D.Stream.far D.Stream.state driver.old.engine None)
            self.old) (ending_view e)
            × (self.new.printed.items ≡ self.old.printed.items))) }
        ensures none { IfOk result (λ ending. IfNone ending (
            Steps bounds
            (stage_of (flow_of D.Stream.remaining D.Stream.contents D.Stream.far D.Stream.state driver.old.engine None) self.old)
            (stage_of (flow_of D.Stream.remaining D.Stream.contents D.Stream.far D.Stream.state driver.new.engine None) self.new))) }
    {
        let Some(spot) = self.waiting.pop() else {
            return Ok(Some(Ending::Whole));
        };
        if bounds.most <= self.printed.len() as u64 {
            return Ok(Some(Ending::Full));
        }
        if is_listed(bounds.deepest, &spot) {
            return self.list(driver, alloc, bounds, spot, ticket);
        }
        match self.printed.push(spot.name) {
            Ok(()) => Ok(None),
            Err(_) => Err(Stop::Memory),
        }
    }

    /// Goes on to the end.
    pub(crate) fn finish<D: Dial + Drop, C: Clock + Drop>(
        &mut self,
        driver: &mut Driver<'_, A, D, C>,
        alloc: A,
        bounds: Bounds,
    ) -> Result<Ending<A>, Stop>
        ensures { IfOk result (λ ending. (last : Stage A D.Stream.far)
            × Reaches bounds
            (stage_of (flow_of D.Stream.remaining D.Stream.contents D.Stream.far D.Stream.state driver.old.engine None) self.old) last
            × EndsAt bounds last (ending_view ending) × (self.new.printed.items ≡ last.printed)) }
    {
        for ticket in CALL..u64::MAX {
            if let Some(ending) = self.step(driver, alloc, bounds, ticket)? {
                return Ok(ending);
            }
        }
        Err(Stop::Memory)
    }
}
