//! The calls of contenders that were asked and not heard of.

ghost use Rattle.std.specs.Prelude.{◌≡◌, ◌≤◌, ◌+◌, ℕ, false, nat_eq, nat_lt, not, None, Some, IfOk, OnOk};
ghost use Rattle.std.specs.Map.{update};
ghost use Rattle.std.proofs.Props.{props};
ghost use Rattle.indexmap.specs.IndexMap.{get};
ghost use Rattle.zk_contend.specs.Tickets.{first_call};

use crate::roll::{ByTicket, put};
use indexmap::IndexMap;
use std::alloc::{AllocError, Allocator};

/// The ticket of the first call: those of a program are below 2^63, and those of trees below this one.
const FIRST_CALL: u64 = 3 << 62;

/// Whether a ticket is that of a call of contenders, 3 * 2^62 or above. Its answer is for [`hear`](crate::Contenders::hear) alone, also if
/// nobody waits for it any more.
pub fn is_contenders(ticket: u64) -> bool
    ensures { result ≡ not (nat_lt ticket first_call) }
{
    ticket >= FIRST_CALL
}

/// By the ticket of each call that was asked and not heard of, that of its contender; and the ticket of the next call.
#[derive(Drop)]
pub(crate) struct Calls<A: Allocator + Copy> {
    pub(crate) askers: ByTicket<u64, A>,
    pub(crate) next: u64,
    ghost from: { first_call ≤ next } by { Prim.hlevel props },
}

impl<A: Allocator + Copy> Calls<A> {
    /// No call.
    pub(crate) fn new(alloc: A) -> Calls<A>
        ensures { (call : ℕ) → get nat_eq result.askers call ≡ None }
    {
        Calls {
            askers: IndexMap::new(alloc),
            next: FIRST_CALL,
        }
    }

    /// The contender of this ticket asks a call: its ticket, which no other call has or had. An error means that memory ran out, or that
    /// the tickets are used up.
    pub(crate) fn ask(&mut self, ticket: u64) -> Result<u64, AllocError>
        ensures number { IfOk result (λ number. number ≡ self.old.next) }
        ensures own { IfOk result (λ number. nat_lt number first_call ≡ false) }
        ensures next { OnOk result (self.new.next ≡ self.old.next + 1) }
        ensures askers { IfOk result (λ number. (other : ℕ) → get nat_eq self.new.askers other
            ≡ update nat_eq (get nat_eq self.old.askers) number (Some ticket) other) }
    {
        let number = self.next;
        let Some(next) = number.checked_add(1) else {
            return Err(AllocError);
        };
        put(&mut self.askers, number, ticket)?;
        self.next = next;
        Ok(number)
    }
}
