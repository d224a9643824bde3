//! What is found by a ticket.

ghost use Rattle.std.specs.Prelude.{◌≡◌, ℕ, nat_eq, true, false, is_some, Some, None, option_map, IfOk, OnErr, OnOk};
ghost use Rattle.std.specs.List.{FoldsTo};
ghost use Rattle.std.specs.Map.{update};
ghost use Rattle.std.specs.Option.{option_map_or};
ghost use Rattle.indexmap.specs.IndexMap.{get};
ghost use Rattle.zk_client.specs.Clients.{view_of};
ghost use Rattle.zk_client.specs.Views.{outcome_view};
ghost use Rattle.zk_conversation.specs.Views.{call_view};
ghost use Rattle.zk_contend.specs.Contenders.{closed, given_up, has_left, noted, renewed, IsHeard};
ghost use Rattle.zk_contend.specs.Collections.{IsChanged, TellsAt};
ghost use Rattle.zk_contend.specs.inner.Rolls.{hall, still, AsksThis, TellsOne};

use crate::contender::LockContender;
use crate::place::Ask;
use crate::status::LockStatus;
use indexmap::IndexMap;
use std::alloc::{AllocError, Allocator};
use std::hash::{BuildHasherDefault, FoldHasher};
use zk_client::{Call, Client, Event, Outcome};

/// What is found by a ticket, in a time that does not rise with their number.
pub(crate) type ByTicket<V, A> = IndexMap<u64, V, BuildHasherDefault<FoldHasher>, A>;

/// The contenders, by their tickets.
pub(crate) type Roll<A> = ByTicket<LockContender<A>, A>;

/// Puts this at a ticket. An error means that memory ran out.
pub(crate) fn put<V: Drop, A: Allocator + Copy>(
    map: &mut ByTicket<V, A>,
    ticket: u64,
    value: V,
) -> Result<(), AllocError>
    ensures put { OnOk result ((other : ℕ) → get nat_eq map.new other ≡ update nat_eq (get nat_eq map.old) ticket (Some value) other) }
    ensures same { OnErr result ((other : ℕ) → get nat_eq map.new other ≡ get nat_eq map.old other) }
{
    match map.insert(ticket, value) {
        Ok(_) => Ok(()),
        Err(fault) => Err(fault.into()),
    }
}

/// Takes out what is at a ticket.
pub(crate) fn take_out<V: Drop, A: Allocator + Copy>(
    map: &mut ByTicket<V, A>,
    ticket: u64,
) -> Option<V>
    ensures found { result ≡ get nat_eq map.old ticket }
    ensures rest { (other : ℕ) → get nat_eq map.new other ≡ update nat_eq (get nat_eq map.old) ticket None other }
{
    map.swap_remove(&ticket)
}

/// Whether nothing is found.
pub(crate) fn has_none<V, A: Allocator + Copy>(map: &ByTicket<V, A>) -> bool
    ensures none { result ≡ true → (ticket : ℕ) → get nat_eq map.now ticket ≡ None }
    ensures one { result ≡ false → (ticket : ℕ) × (is_some (get nat_eq map.now ticket) ≡ true) }
{
    map.is_empty()
}

/// Lets go of all.
pub(crate) fn forget_all<V: Drop, A: Allocator + Copy>(map: &mut ByTicket<V, A>)
    ensures { (ticket : ℕ) → get nat_eq map.new ticket ≡ None }
{
    map.clear();
}

/// The contender of this ticket is given up.
pub(crate) fn give_up_at<A: Allocator + Copy>(all: &mut Roll<A>, ticket: u64)
    ensures { (other : ℕ) → IsChanged (nat_eq ticket other) (λ was is. is ≡ given_up was) (get nat_eq all.old other)
        (get nat_eq all.new other) }
{
    if let Some(contender) = all.get_mut(&ticket) {
        contender.give_up();
    }
}

/// The contender of this ticket hears an outcome.
pub(crate) fn hear_at<A: Allocator + Copy>(
    all: &mut Roll<A>,
    ticket: u64,
    client: &Client<A>,
    now: u64,
    outcome: Outcome<A>,
) -> Result<(), AllocError>
    ensures { OnOk result ((other : ℕ) → IsChanged (nat_eq ticket other) (IsHeard (view_of client.now) now (outcome_view outcome))
        (get nat_eq all.old other) (get nat_eq all.new other)) }
{
    match all.get_mut(&ticket) {
        Some(contender) => contender.hear(client, now, outcome),
        None => {
            drop(outcome);
            Ok(())
        }
    }
}

/// The contender of this ticket asks this, if it is there. An error means that memory ran out.
pub(crate) fn ask_at<A: Allocator + Copy>(
    all: &mut Roll<A>,
    ticket: u64,
    ask: Ask,
) -> Result<Option<Call<A>>, AllocError>
    ensures { IfOk result (λ call. (other : ℕ) → IsChanged (nat_eq ticket other) (AsksThis ask (option_map call_view call))
        (get nat_eq all.old other) (get nat_eq all.new other)) }
{
    match all.get_mut(&ticket) {
        Some(contender) => {
            let call = contender.ask(ask)?;
            Ok(Some(call))
        }
        None => Ok(None),
    }
}

/// What there is to tell of the contender of this ticket.
fn tell_one<A: Allocator + Copy>(
    all: &mut Roll<A>,
    ticket: u64,
    client: &Client<A>,
) -> Option<LockStatus>
    ensures { TellsOne (view_of client.now) ticket (get nat_eq all.old ticket) result (get nat_eq all.old) (get nat_eq all.new) }
{
    match all.get_mut(&ticket) {
        Some(contender) => contender.tell(client),
        None => None,
    }
}

/// Whether the contender of this ticket has left.
fn has_left_at<A: Allocator + Copy>(all: &Roll<A>, ticket: u64) -> bool
    ensures { result ≡ option_map_or has_left (get nat_eq all.now ticket) false }
{
    match all.get(&ticket) {
        Some(contender) => contender.has_left(),
        None => false,
    }
}

/// If it has left, it is there no more.
fn drop_left<A: Allocator + Copy>(all: &mut Roll<A>, ticket: u64)
    ensures { (other : ℕ) → get nat_eq all.new other ≡ update nat_eq (get nat_eq all.old) ticket (still (get nat_eq all.old ticket)) other }
{
    if has_left_at(all, ticket) {
        take_out(all, ticket);
    }
}

/// What there is to tell of the contender of this ticket is told, and if it has left, it is there no more. An error means that memory ran
/// out.
pub(crate) fn tell_at<A: Allocator + Copy>(
    all: &mut Roll<A>,
    ticket: u64,
    client: &Client<A>,
    news: &mut Vec<(u64, LockStatus), A>,
) -> Result<(), AllocError>
    ensures { OnOk result (TellsAt (view_of client.now) (hall (get nat_eq all.old) news.old.items) ticket
        (hall (get nat_eq all.new) news.new.items)) }
{
    let told = tell_one(all, ticket, client);
    drop_left(all, ticket);
    if let Some(stands) = told {
        news.push((ticket, stands))?;
    }
    Ok(())
}

/// The same of each of these, in order.
pub(crate) fn tell_each<A: Allocator + Copy>(
    all: &mut Roll<A>,
    tickets: &[u64],
    client: &Client<A>,
    news: &mut Vec<(u64, LockStatus), A>,
) -> Result<(), AllocError>
    ensures { OnOk result (FoldsTo (TellsAt (view_of client.now)) (hall (get nat_eq all.old) news.old.items) tickets.now
        (hall (get nat_eq all.new) news.new.items)) }
{
    for ticket in tickets {
        tell_at(all, *ticket, client, news)?;
    }
    Ok(())
}

/// Each notes a report.
pub(crate) fn note_each<A: Allocator + Copy>(all: &mut Roll<A>, path: &str, event: Event)
    ensures { (ticket : ℕ) → get nat_eq all.new ticket ≡ option_map (noted path.now event) (get nat_eq all.old ticket) }
{
    all.retain(
        |_ticket: &u64, contender: &mut LockContender<A>| -> bool
            ensures { (result ≡ true) × (contender.new ≡ noted path.entry.now event contender.old) }
        {
            contender.note(path, event);
            true
        },
    );
}

/// Each goes on with another session.
pub(crate) fn renew_each<A: Allocator + Copy>(all: &mut Roll<A>)
    ensures { (ticket : ℕ) → get nat_eq all.new ticket ≡ option_map renewed (get nat_eq all.old ticket) }
{
    all.retain(
        |_ticket: &u64, contender: &mut LockContender<A>| -> bool
            ensures { (result ≡ true) × (contender.new ≡ renewed contender.old) }
        {
            contender.renew();
            true
        },
    );
}

/// The session of each is closed.
pub(crate) fn close_each<A: Allocator + Copy>(all: &mut Roll<A>)
    ensures { (ticket : ℕ) → get nat_eq all.new ticket ≡ option_map closed (get nat_eq all.old ticket) }
{
    all.retain(
        |_ticket: &u64, contender: &mut LockContender<A>| -> bool
            ensures { (result ≡ true) × (contender.new ≡ closed contender.old) }
        {
            contender.close();
            true
        },
    );
}
