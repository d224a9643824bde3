//! Taking what a connection left.

ghost use Rattle.std.specs.Prelude.{◌≡◌, ◌≤◌, map};
ghost use Rattle.zk_conversation.specs.Counted.{counts_of};
ghost use Rattle.zk_conversation.specs.Pending.{first_ticket, after_ticket, ticket_of};
ghost use Rattle.zk_conversation.specs.Views.{pending_view, waiting_view};
ghost use Rattle.zk_limits.specs.declared.limits.TheConstants.{MOST_PENDING};

use crate::awaited::{Awaited, Waiting};
use crate::counts::Counts;
use std::alloc::Allocator;
use std::collections::VecDeque;

/// Takes requests out, the oldest first, up to a call, and gives its ticket.
pub(crate) fn take_call<A: Allocator>(
    pending: &mut VecDeque<Awaited<A>, A>,
    counts: &mut Counts,
) -> Option<u64>
    requires counted { counts.old ≡ counts_of (map pending_view pending.old.items) }
    requires few { counts.old.calls ≤ MOST_PENDING }
    ensures ticket { result ≡ first_ticket (map pending_view pending.old.items) }
    ensures rest { map pending_view pending.new.items ≡ after_ticket (map pending_view pending.old.items) }
    ensures counted { counts.new ≡ counts_of (map pending_view pending.new.items) }
    ensures few { counts.new.calls ≤ MOST_PENDING }
{
    while let Some(oldest) = pending.pop_front() {
        *counts = counts.without(&oldest.waiting);
        if let Some(ticket) = ticket_of(&oldest.waiting) {
            return Some(ticket);
        }
    }
    None
}

fn ticket_of<A: Allocator>(waiting: &Waiting<A>) -> Option<u64>
    ensures { result ≡ ticket_of (waiting_view waiting.now) }
{
    match waiting {
        Waiting::Part { last: _ } => None,
        Waiting::Call {
            ticket,
            question: _,
        } => Some(*ticket),
    }
}
