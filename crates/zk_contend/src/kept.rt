//! What a client shows of the nodes of contenders, and whether a call may be asked.

ghost use Rattle.std.specs.Prelude.{◌≡◌};
ghost use Rattle.zk_client.specs.Clients.{view_of};
ghost use Rattle.zk_contend.specs.Places.{is_ready, shows_node, shows_own};

use std::alloc::Allocator;
use zk_client::{Client, DataAnswer, MOST_PENDING, Mark, Path, State};

/// Whether the node is kept and good.
pub(crate) fn shows_node<A: Allocator + Copy>(client: &Client<A>, path: &Path<A>) -> bool
    ensures { result ≡ shows_node (view_of client.now) path.now }
{
    match client.peek_data(path) {
        Some((DataAnswer::Known(_) | DataAnswer::Full(_, _), Mark::Good)) => true,
        _ => false,
    }
}

/// The client's session.
pub(crate) fn session_of<A: Allocator + Copy>(client: &Client<A>) -> i64
    ensures { result ≡ (view_of client.now).saved.session.session }
{
    client.saved().session
}

/// Whether the node is kept and good, and is the session's.
pub(crate) fn shows_own<A: Allocator + Copy>(client: &Client<A>, path: &Path<A>) -> bool
    ensures { result ≡ shows_own (view_of client.now) path.now }
{
    match client.peek_data(path) {
        Some((DataAnswer::Known(stat) | DataAnswer::Full(_, stat), Mark::Good)) => {
            stat.ephemeral_owner == session_of(client)
        }
        _ => false,
    }
}

/// Whether a server has accepted the connection, and there is room for a call.
pub(crate) fn is_ready<A: Allocator + Copy>(client: &Client<A>) -> bool
    ensures { result ≡ is_ready (view_of client.now) }
{
    matches!(client.state(), State::Connected) && client.pending_calls() < MOST_PENDING
}
