//! Which sides of nodes are watched, as trees grow and lose nodes.

ghost use Rattle.std.specs.Prelude.{◌≡◌, ◌==◌, map, not, OnOk};
ghost use Rattle.std.specs.List.{filter};
ghost use Rattle.shell_watch.specs.Trees.{aim_of, has_nothing_left, is_at, is_watched, joined, kept_on, leaving, left, stays, staying};

use crate::shown::{Watched, fresh, printed};
use std::alloc::{AllocError, Allocator};
use zk_client::{Path, Side};
use zk_trees::NodeSide;

/// Whether that side of a node is watched.
fn is_watched<A: Allocator + Copy>(watched: &[Watched<A>], subject: &NodeSide<A>) -> bool
    ensures { result ≡ is_watched (aim_of subject.now) watched.now }
{
    watched.iter().any(|one| one.subject.is_same(subject))
}

/// What is followed again is not let go, and has this ticket from then on.
fn keep_on<A: Allocator + Copy>(one: &mut Watched<A>, subject: &NodeSide<A>, ticket: u64)
    ensures { one.new ≡ kept_on ticket (aim_of subject.now) one.old }
{
    if one.is_leaving && one.subject.is_same(subject) {
        one.ticket = ticket;
        one.is_leaving = false;
    }
}

/// The same of each.
fn keep_all_on<A: Allocator + Copy>(watched: &mut [Watched<A>], subject: &NodeSide<A>, ticket: u64)
    ensures { watched.new ≡ map (kept_on ticket (aim_of subject.now)) watched.old }
{
    for one in watched.iter_mut() {
        keep_on(one, subject, ticket);
    }
}

/// A side of a node is watched that is followed by this ticket, as if nothing were kept of it and that were printed. It is watched once,
/// even if it is followed twice.
pub(crate) fn join<A: Allocator + Copy>(
    alloc: A,
    ticket: u64,
    side: Side,
    path: &Path<A>,
    watched: &mut Vec<Watched<A>, A>,
) -> Result<(), AllocError>
    ensures { OnOk result (watched.new.items ≡ joined ticket (side, path.now) watched.old.items) }
{
    let one = fresh(alloc, ticket, side, path)?;
    if is_watched(watched.as_slice(), &one.subject) {
        keep_all_on(watched.as_mut_slice(), &one.subject, ticket);
        return Ok(());
    }
    watched.push(one)?;
    Ok(())
}

/// Whether nothing is left to be printed of what this ticket follows: that there is no node was printed last.
fn has_nothing_left<A: Allocator + Copy>(one: &Watched<A>, ticket: u64) -> bool
    ensures { result ≡ has_nothing_left ticket one.now }
{
    one.ticket == ticket && printed(one) == "does not exist"
}

/// What this ticket follows is let go.
fn let_go<A: Allocator + Copy>(one: &mut Watched<A>, ticket: u64)
    ensures { one.new ≡ leaving ticket one.old }
{
    if one.ticket == ticket {
        one.is_leaving = true;
    }
}

/// The same of each.
fn let_each_go<A: Allocator + Copy>(watched: &mut [Watched<A>], ticket: u64)
    ensures { watched.new ≡ map (leaving ticket) watched.old }
{
    for one in watched.iter_mut() {
        let_go(one, ticket);
    }
}

/// What this ticket follows is watched no more, if nothing is left to be printed of it; else it is let go, and printed once more.
pub(crate) fn leave<A: Allocator + Copy>(ticket: u64, watched: &mut Vec<Watched<A>, A>)
    ensures { watched.new.items ≡ left ticket watched.old.items }
{
    watched.retain(
        |one: &Watched<A>| -> bool
            ensures { result ≡ not (has_nothing_left ticket one.now) }
        { !has_nothing_left(one, ticket) },
    );
    let_each_go(watched.as_mut_slice(), ticket);
}

/// What is let go is watched no more: it was printed once more.
pub(crate) fn drop_leaving<A: Allocator + Copy>(watched: &mut Vec<Watched<A>, A>)
    ensures { watched.new.items ≡ staying watched.old.items }
{
    watched.retain(
        |one: &Watched<A>| -> bool
            ensures { result ≡ stays one.now }
        { !one.is_leaving },
    );
}
