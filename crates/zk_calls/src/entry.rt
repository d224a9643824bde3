//! A call that waits.

ghost use Rattle.std.specs.Prelude.{◌≡◌, not};
ghost use Rattle.zk_conversation.specs.Views.{call_view};
ghost use Rattle.zk_client.specs.Views.{outcome_view};
ghost use Rattle.zk_calls.specs.Lines.{ended_of, goes_back, has_come, is_ended, is_raw_read, is_read};

use std::alloc::{Allocator, Global};
use zk_client::{Call, Outcome, RawOperation};

/// A call that waits: for its turn, or for its reply.
#[derive(Drop)]
pub struct Entry<A: Allocator = Global> {
    pub(crate) ticket: u64,
    pub(crate) call: Call<A>,
    pub(crate) until: Option<u64>,
    pub(crate) is_sent: bool,
}

/// Which calls wait no more.
#[derive(Clone, Copy)]
pub enum Ending {
    /// Those that were handed over: the connection is another one.
    Lost,
    /// Those of this ticket that were handed over: another call of the ticket was answered. There are none where no two calls have one
    /// ticket.
    LostOf(u64),
    /// Those whose limit has come at this moment.
    Late(u64),
    /// All: the session has expired.
    Expired,
}

/// A call that waits no more.
#[derive(Clone, Copy)]
pub struct Ended {
    /// The number that its asker gave it.
    pub ticket: u64,
    /// Whether it was handed over, so that it may have happened.
    pub was_sent: bool,
}

/// Whether a request whose bytes a caller spells changes nothing. A `sync` has a server catch up, which harms nobody twice.
fn is_raw_read(operation: RawOperation) -> bool
    ensures { result ≡ is_raw_read operation }
{
    matches!(
        operation,
        RawOperation::GetAcl
            | RawOperation::Sync
            | RawOperation::MultiRead
            | RawOperation::GetEphemerals
            | RawOperation::GetAllChildrenNumber
            | RawOperation::WhoAmI
    )
}

/// Whether a call changes nothing, so that it may be asked twice.
pub(crate) fn is_read<A: Allocator>(call: &Call<A>) -> bool
    ensures { result ≡ is_read (call_view call.now) }
{
    match call {
        Call::Exists { .. } | Call::GetData { .. } | Call::GetChildren { .. } => true,
        Call::Raw { operation, .. } => is_raw_read(*operation),
        _ => false,
    }
}

/// Whether a call that is answered so waits for its turn again: it was not sent, or it is a read whose reply was lost.
pub(crate) fn goes_back<A: Allocator>(call: &Call<A>, outcome: &Outcome<A>) -> bool
    ensures { result ≡ goes_back (call_view call.now) (outcome_view outcome.now) }
{
    match outcome {
        Outcome::NotConnected | Outcome::TooManyPending => true,
        Outcome::ConnectionLoss => is_read(call),
        _ => false,
    }
}

/// Whether a moment has come, if there is one.
pub(crate) fn has_come(now: u64, moment: Option<u64>) -> bool
    ensures { result ≡ has_come now moment }
{
    match moment {
        Some(moment) => moment <= now,
        None => false,
    }
}

impl<A: Allocator> Entry<A> {
    /// Whether the call is one of those that wait no more.
    pub(crate) fn is_ended(&self, ending: Ending) -> bool
        ensures { result ≡ is_ended ending self.now }
    {
        match ending {
            Ending::Lost => self.is_sent,
            Ending::LostOf(ticket) => self.is_sent && self.ticket == ticket,
            Ending::Late(now) => has_come(now, self.until),
            Ending::Expired => true,
        }
    }

    /// What is told of the call once it waits no more.
    pub(crate) fn ended(&self) -> Ended
        ensures { result ≡ ended_of self.now }
    {
        Ended {
            ticket: self.ticket,
            was_sent: self.is_sent,
        }
    }
}
