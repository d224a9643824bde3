//! What a line knows of its calls without a look at each: whether their numbers rise in the order of asking.

ghost use Rattle.std.specs.Prelude.{◌≡◌, ◌++◌, ◌∷◌, [], true, nat_lt, Some};
ghost use Rattle.std.specs.List.{position};
ghost use Rattle.zk_calls.specs.Lines.{is_ended};
ghost use Rattle.zk_calls.specs.Orders.{in_order, is_below};

use crate::entry::{Ending, Entry};
use std::alloc::Allocator;
use std::collections::VecDeque;

/// Whether the numbers of calls still rise with this one after them.
pub(crate) fn tickets_rise<A: Allocator>(
    entries: &VecDeque<Entry<A>, A>,
    so_far: bool,
    entry: &Entry<A>,
) -> bool
    requires { so_far ≡ true → in_order is_below entries.now.items ≡ true }
    ensures { result ≡ true → in_order is_below (entries.now.items ++ entry.now ∷ []) ≡ true }
{
    match entries.back() {
        Some(last) => so_far && last.ticket < entry.ticket,
        None => true,
    }
}

/// The place of the first call of this ticket that was handed over, by a search, since numbers rise.
fn place_in_order<A: Allocator>(entries: &VecDeque<Entry<A>, A>, ticket: u64) -> Option<usize>
    requires { in_order is_below entries.now.items ≡ true }
    ensures { result ≡ position (is_ended (Ending.LostOf ticket)) entries.now.items }
{
    let place = entries.partition_point(
        |entry: &Entry<A>| -> bool
            ensures { result ≡ nat_lt entry.now.ticket ticket }
        { entry.ticket < ticket },
    );
    if place < entries.len() && entries[place].is_ended(Ending::LostOf(ticket)) {
        return Some(place);
    }
    None
}

/// The same by a look at each.
fn place_among<A: Allocator>(entries: &VecDeque<Entry<A>, A>, ticket: u64) -> Option<usize>
    ensures { result ≡ position (is_ended (Ending.LostOf ticket)) entries.now.items }
{
    for place in 0..entries.len() {
        if entries[place].is_ended(Ending::LostOf(ticket)) {
            return Some(place);
        }
    }
    None
}

/// Whether the first of these calls was handed over and has this ticket: replies come in the order of calls.
fn is_first<A: Allocator>(entries: &VecDeque<Entry<A>, A>, ticket: u64) -> bool
    ensures { result ≡ true → position (is_ended (Ending.LostOf ticket)) entries.now.items ≡ Some 0 }
{
    if entries.is_empty() {
        return false;
    }
    entries[0].is_ended(Ending::LostOf(ticket))
}

/// The place of the first call of this ticket that was handed over.
pub(crate) fn place_of<A: Allocator>(
    entries: &VecDeque<Entry<A>, A>,
    rises: bool,
    ticket: u64,
) -> Option<usize>
    requires { rises ≡ true → in_order is_below entries.now.items ≡ true }
    ensures { result ≡ position (is_ended (Ending.LostOf ticket)) entries.now.items }
{
    if is_first(entries, ticket) {
        return Some(0);
    }
    if rises {
        return place_in_order(entries, ticket);
    }
    place_among(entries, ticket)
}
