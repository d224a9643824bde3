//! Which members are let go.

ghost use Rattle.std.specs.Prelude.{◌≡◌, map, IfOk};
ghost use Rattle.std.specs.List.{filter};
ghost use Rattle.zk_client.specs.Clients.{view_of};
ghost use Rattle.zk_trees.specs.Trees.{is_gone, stays, tickets_gone};

use crate::member::Member;
use crate::subject::is_missing;
use std::alloc::{AllocError, Allocator};
use zk_client::Client;

/// Whether a node was found below a root, and it is kept and good that there is none.
fn is_gone<A: Allocator + Copy, N: Drop>(client: &Client<A>, one: &Member<A, N>) -> bool
    ensures { result ≡ is_gone (view_of client.now) one.now }
{
    one.is_found && is_missing(client, &one.subject.path)
}

/// The tickets of the members that are gone. An error means that memory ran out.
pub(crate) fn tickets_gone<A: Allocator + Copy, N: Drop>(
    alloc: A,
    client: &Client<A>,
    members: &[Member<A, N>],
) -> Result<Vec<u64, A>, AllocError>
    ensures { IfOk result (λ tickets. tickets.items ≡ tickets_gone (view_of client.now) members.now) }
{
    let mut tickets = Vec::new(alloc);
    for one in members {
        if is_gone(client, one) {
            tickets.push(one.ticket)?;
        }
    }
    Ok(tickets)
}

/// The tickets of members. An error means that memory ran out.
pub(crate) fn tickets_of<A: Allocator + Copy, N: Drop>(
    alloc: A,
    members: &[Member<A, N>],
) -> Result<Vec<u64, A>, AllocError>
    ensures { IfOk result (λ tickets. tickets.items ≡ map (λ one. one.ticket) members.now) }
{
    let mut tickets = Vec::new(alloc);
    for one in members {
        tickets.push(one.ticket)?;
    }
    Ok(tickets)
}

/// Takes out the members that are gone. The others stay, in their order.
pub(crate) fn drop_gone<A: Allocator + Copy, N: Drop>(
    client: &Client<A>,
    members: &mut Vec<Member<A, N>, A>,
)
    ensures { members.new.items ≡ filter (stays (view_of client.now)) members.old.items }
{
    members.retain(
        |one: &Member<A, N>| -> bool
            ensures { result ≡ stays (view_of client.entry.now) one.now }
        { !is_gone(client, one) },
    );
}
