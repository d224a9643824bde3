//! What goes into an agent.

ghost use Rattle.std.specs.Prelude.{◌≡◌, true};
ghost use Rattle.zk_agent.specs.Agents.{heard_after};

use crate::credential::Credential;
use std::alloc::{Allocator, Global};
use zk_client::{Call, Path, Side};

/// What happens to a session.
#[derive(Drop)]
pub enum AgentInput<A: Allocator + Copy = Global> {
    /// The connection that was asked for is there. One that was not, as where the attempt was given up before, is hung up, and so is the
    /// one that is there then.
    Opened,
    /// The connection that was asked for could not be made.
    Failed,
    /// What the connection brings.
    Bytes(Vec<u8, A>),
    /// The connection is over: the server closed it, or a read or a write failed.
    Cut,
    /// Nothing but the moment.
    Moment,
    /// The list of addresses is another one: first stand those that were in the list before, as many as `kept`, and after them those that
    /// were not, as many as `added`. A place is one of this list from now on. `is_listed` says whether it has the address of the connection
    /// that is there or is being made, or else the one that was dialled last; it is true if none was dialled yet.
    ///
    /// They are dialled in a new order, and the session may move, as those of ZooKeeper's own clients do: always if `is_listed` is false;
    /// else by the chance by which the list has grown, and never if it has not. One that moves hangs up, or gives the attempt up, and what
    /// was on its way is as after any cut. It dials addresses that were added first, if the list has grown.
    Addresses {
        kept: usize,
        added: usize,
        is_listed: bool,
    },
    /// A call is asked. It is handed to the client as soon as a server has accepted the connection and fewer than 1,024 calls are on their
    /// way, after those that were asked before; and it waits to this moment at most, if there is one. No other call or subject has or
    /// had the ticket.
    Call {
        ticket: u64,
        call: Call<A>,
        until: Option<u64>,
    },
    /// This credential introduces the session from now on, and each later one: it is written at once if a connection is there, and on
    /// each later connection right after the request that opens it, and after those that were handed in before.
    Credential(Credential<A>),
    /// This subject is followed: the data of the node, or the names of its children. No other call or subject has or had the ticket.
    Follow {
        ticket: u64,
        side: Side,
        path: Path<A>,
    },
    /// The subject of this ticket is followed no more.
    Unfollow {
        ticket: u64,
    },
    /// This tree is followed: the data of the root, the names below it, and those of each node below it, as they come to be known. No more
    /// are taken on if there are more than `most` nodes. The data of the root have this ticket, which no other call or subject has or
    /// had; all else has tickets from 2^63 on, which no program uses.
    FollowTree {
        ticket: u64,
        root: Path<A>,
        most: u64,
    },
    /// The tree of this ticket is followed no more.
    UnfollowTree {
        ticket: u64,
    },
}

/// When the server was heard last, once this has come.
pub(crate) fn heard_moment<A: Allocator + Copy>(
    is_open: bool,
    now: u64,
    input: &AgentInput<A>,
    was: Option<u64>,
) -> Option<u64>
    ensures { result ≡ heard_after is_open now input.now was }
{
    match input {
        AgentInput::Bytes(_) if is_open => Some(now),
        _ => was,
    }
}

/// Whether nothing happens but the moment.
pub(crate) fn is_moment<A: Allocator + Copy>(input: &AgentInput<A>) -> bool
    ensures { result ≡ true → input.now ≡ AgentInput.Moment }
{
    matches!(input, AgentInput::Moment)
}
