//! Which member a ticket is that of, found by a search by halves: the tickets rise in the order in which members were taken on.

ghost use Rattle.std.specs.Prelude.{◌≡◌, ◌++◌, ◌∷◌, [], true, nat_lt};
ghost use Rattle.zk_trees.specs.Tending.{has_ticket};
ghost use Rattle.zk_trees.specs.Orders.{AreInOrder, AreRising};

use crate::member::Member;
use std::alloc::Allocator;

/// Whether the tickets still rise with this member after the others.
pub(crate) fn tickets_rise<A: Allocator>(
    members: &[Member<A, ()>],
    so_far: bool,
    one: &Member<A, ()>,
) -> bool
    requires { so_far ≡ true → AreInOrder members.now }
    ensures { result ≡ true → AreInOrder (members.now ++ one.now ∷ []) }
{
    let count = members.len();
    count < 2 || (so_far && members[count - 1].ticket <= one.ticket)
}

/// Whether one of these has this ticket, by a search.
fn has_rising<A: Allocator>(members: &[Member<A, ()>], ticket: u64) -> bool
    requires { AreRising members.now }
    ensures { result ≡ has_ticket ticket members.now }
{
    let place = members.partition_point(
        |one: &Member<A, ()>| -> bool
            ensures { result ≡ nat_lt one.now.ticket ticket }
        { one.ticket < ticket },
    );
    place < members.len() && members[place].ticket == ticket
}

/// The same of members whose tickets rise from the second on.
fn has_in_order<A: Allocator>(members: &[Member<A, ()>], ticket: u64) -> bool
    requires { AreInOrder members.now }
    ensures { result ≡ has_ticket ticket members.now }
{
    if members.is_empty() {
        return false;
    }
    members[0].ticket == ticket || has_rising(&members[1..], ticket)
}

/// The same by a look at each.
fn has_among<A: Allocator>(members: &[Member<A, ()>], ticket: u64) -> bool
    ensures { result ≡ has_ticket ticket members.now }
{
    members.iter().any(|one| one.ticket == ticket)
}

/// Whether one of these members has this ticket.
pub(crate) fn has_ticket<A: Allocator>(members: &[Member<A, ()>], rise: bool, ticket: u64) -> bool
    requires { rise ≡ true → AreInOrder members.now }
    ensures { result ≡ has_ticket ticket members.now }
{
    if rise {
        return has_in_order(members, ticket);
    }
    has_among(members, ticket)
}
