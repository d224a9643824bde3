//! Calls that wait no more.

ghost use Rattle.std.specs.Prelude.{◌≡◌, ◌++◌, ◌∷◌, [], map, not, IfOk, OnOk};
ghost use Rattle.zk_calls.specs.Lines.{ended, ended_of, is_ended, left};
ghost use Rattle.zk_calls.specs.Orders.{AreLimits};

use crate::entry::{Ended, Ending, Entry};
use crate::limits::Limits;
use std::alloc::{AllocError, Allocator};
use std::collections::VecDeque;

/// Adds what is told of a call, where it waits no more.
fn add_told<A: Allocator>(
    told: &mut Vec<Ended, A>,
    entry: &Entry<A>,
    ending: Ending,
) -> Result<(), AllocError>
    ensures { OnOk result (told.new.items ≡ told.old.items ++ map ended_of (ended ending (entry.now ∷ []))) }
{
    if entry.is_ended(ending) {
        told.push(entry.ended())?;
    }
    Ok(())
}

/// What is told of those that wait no more.
pub(crate) fn told_of<A: Allocator + Copy>(
    alloc: A,
    entries: &VecDeque<Entry<A>, A>,
    ending: Ending,
) -> Result<Vec<Ended, A>, AllocError>
    ensures { IfOk result (λ told. told.items ≡ map ended_of (ended ending entries.now.items)) }
{
    let mut told = Vec::new(alloc);
    for place in 0..entries.len() {
        add_told(&mut told, &entries[place], ending)?;
    }
    Ok(told)
}

/// Takes out those that wait no more.
pub(crate) fn remove<A: Allocator>(entries: &mut VecDeque<Entry<A>, A>, ending: Ending)
    ensures { entries.new.items ≡ left ending entries.old.items }
{
    entries.retain(
        |entry: &Entry<A>| -> bool
            ensures { result ≡ not (is_ended ending entry.now) }
        { !entry.is_ended(ending) },
    );
}

/// Takes out the limits of those that wait no more.
pub(crate) fn release<A: Allocator + Copy>(
    limits: &mut Limits<A>,
    entries: &VecDeque<Entry<A>, A>,
    ending: Ending,
)
    requires { AreLimits limits.old entries.now.items }
    ensures { AreLimits limits.new (left ending entries.now.items) }
{
    for place in 0..entries.len() {
        if entries[place].is_ended(ending) {
            limits.take(entries[place].until);
        }
    }
}
