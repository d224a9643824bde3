//! The turn of a call, and its answer.

ghost use Rattle.std.specs.Prelude.{◌≡◌, ◌<◌, ◌≤◌, ◌+◌, length, Some, None, IfOk, if◌then◌else◌};
ghost use Rattle.std.specs.Option.{option_map};
ghost use Rattle.std.specs.List.{position, remove};
ghost use Rattle.zk_conversation.specs.Views.{call_view};
ghost use Rattle.zk_client.specs.Views.{outcome_view};
ghost use Rattle.zk_calls.specs.Lines.{answered, first_handed, is_ended, next_call, settles, waits_turn};
ghost use Rattle.zk_calls.specs.declared.limits.Limits.{Limits as Counts};
ghost use Rattle.zk_calls.specs.Orders.{AreHanded, AreLimits};

use crate::entry::{Ending, Entry, goes_back};
use crate::limits::Limits;
use std::alloc::{AllocError, Allocator};
use std::collections::VecDeque;
use zk_client::{Call, Outcome};

/// The place of the first call that waits for its turn. The first ones, this many, don't.
pub(crate) fn place_of_next<A: Allocator>(
    entries: &VecDeque<Entry<A>, A>,
    handed: usize,
) -> Option<usize>
    requires { AreHanded handed entries.now.items }
    ensures { result ≡ position waits_turn entries.now.items }
{
    for place in handed..entries.len() {
        if !entries[place].is_sent {
            return Some(place);
        }
    }
    None
}

/// Takes the call at this place out. The first one leaves without a look at the others.
fn leave<A: Allocator>(entries: &mut VecDeque<Entry<A>, A>, place: usize)
    requires { place < length entries.old.items }
    ensures { entries.new.items ≡ remove entries.old.items place }
{
    if place == 0 {
        drop(entries.pop_front());
        return;
    }
    drop(entries.remove(place));
}

/// Takes a call out, and its limit.
fn take_out<A: Allocator + Copy>(
    entries: &mut VecDeque<Entry<A>, A>,
    handed: &mut usize,
    limits: &mut Limits<A>,
    place: usize,
)
    requires within { place < length entries.old.items }
    requires handed { AreHanded handed.old entries.old.items }
    requires limits { AreLimits limits.old entries.old.items }
    ensures items { entries.new.items ≡ remove entries.old.items place }
    ensures handed { AreHanded handed.new entries.new.items }
    ensures limits { AreLimits limits.new entries.new.items }
{
    limits.take(entries[place].until);
    leave(entries, place);
    if place < *handed {
        *handed -= 1;
    }
}

/// Settles the call at this place, or lets it wait for its turn again. What it is answered, where that ends its wait.
pub(crate) fn settle<A: Allocator + Copy>(
    entries: &mut VecDeque<Entry<A>, A>,
    handed: &mut usize,
    limits: &mut Limits<A>,
    place: usize,
    ticket: u64,
    outcome: Outcome<A>,
) -> Option<Outcome<A>>
    requires place { position (is_ended (Ending.LostOf ticket)) entries.old.items ≡ Some place }
    requires handed { AreHanded handed.old entries.old.items }
    requires limits { AreLimits limits.old entries.old.items }
    ensures entries { entries.new.items ≡ answered ticket (outcome_view outcome) entries.old.items }
    ensures told { option_map outcome_view result
        ≡ (if settles ticket (outcome_view outcome) entries.old.items then Some (outcome_view outcome) else None) }
    ensures handed { AreHanded handed.new entries.new.items }
    ensures limits { AreLimits limits.new entries.new.items }
{
    if goes_back(&entries[place].call, &outcome) {
        entries[place].is_sent = false;
        *handed = place.min(*handed);
        return None;
    }
    take_out(entries, handed, limits, place);
    Some(outcome)
}

/// A copy of the call at this place, with its ticket.
pub(crate) fn copied_at<A: Allocator + Copy>(
    alloc: A,
    entries: &VecDeque<Entry<A>, A>,
    place: usize,
) -> Result<(u64, Call<A>), AllocError>
    requires { position waits_turn entries.now.items ≡ Some place }
    ensures { IfOk result (λ it. next_call entries.now.items ≡ Some (it.0, call_view it.1)) }
{
    let ticket = entries[place].ticket;
    let call = entries[place].call.copied(alloc)?;
    Ok((ticket, call))
}

/// The call at this place counts as handed over.
pub(crate) fn hand<A: Allocator>(entries: &mut VecDeque<Entry<A>, A>, place: usize)
    requires { position waits_turn entries.old.items ≡ Some place }
    ensures entries { entries.new.items ≡ first_handed entries.old.items }
    ensures handed { AreHanded (place + 1) entries.new.items }
    ensures limits { (limits : Counts A) → AreLimits limits entries.old.items → AreLimits limits entries.new.items }
{
    entries[place].is_sent = true;
}
