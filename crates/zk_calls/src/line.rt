//! The line of calls.

ghost use Rattle.std.specs.Prelude.{◌≡◌, ◌++◌, ◌∷◌, ◌+◌, [], false, true, map, not, Some, None, IfOk, OnOk, OnErr, if◌then◌else◌};
ghost use Rattle.std.specs.Option.{option_map};
ghost use Rattle.std.specs.List.{position};
ghost use Rattle.std.proofs.Props.{props};
ghost use Rattle.zk_conversation.specs.Views.{call_view};
ghost use Rattle.zk_client.specs.Views.{outcome_view};
ghost use Rattle.zk_calls.specs.Lines.{answered, ended, ended_of, first_handed, first_limit, is_asked_again, is_ended, left, next_call};
ghost use Rattle.zk_calls.specs.Lines.{settles, waits_turn};
ghost use Rattle.zk_calls.specs.Orders.{in_order, is_below, AreHanded, AreLimits};

use crate::ending::{release, remove, told_of};
use crate::entry::{Ended, Ending, Entry, has_come, is_read};
use crate::limits::Limits;
use crate::order::{place_of, tickets_rise};
use crate::turn::{copied_at, hand, place_of_next, settle};
use std::alloc::{AllocError, Allocator, Global};
use std::collections::VecDeque;
use zk_client::{Call, Outcome};

/// The calls of a program that wait, in the order of asking. No two of them are to have one ticket: where two have, an answer goes to the
/// first that was handed over, and the others are lost. An answer is found by a search where the tickets rise in the order of asking; where
/// they don't, each call is looked at. The first limit is looked up, in whatever order limits come.
#[derive(Drop)]
pub struct Line<A: Allocator + Copy = Global> {
    alloc: A,
    pub(crate) entries: VecDeque<Entry<A>, A>,
    /// All before this place were handed over.
    handed: usize,
    /// Whether it is known that each ticket is above those before it.
    tickets_rise: bool,
    /// The limits of the calls.
    limits: Limits<A>,
    ghost first_ones: { AreHanded handed entries.items } by { Prim.hlevel props },
    ghost by_ticket: { tickets_rise ≡ true → in_order is_below entries.items ≡ true } by { Prim.hlevel props },
    ghost by_limit: { AreLimits limits entries.items } by { Prim.hlevel props },
}

impl<A: Allocator + Copy> Line<A> {
    /// A line with no calls.
    pub fn new(alloc: A) -> Line<A>
        ensures { result.entries.items ≡ [] }
    {
        Line {
            alloc,
            entries: VecDeque::new(alloc),
            handed: 0,
            tickets_rise: true,
            limits: Limits::new(alloc),
        }
    }

    /// A call is asked. It waits for its turn after those that were asked before, and to this moment at most, where there is one. An error
    /// means that memory ran out, and nothing has changed then.
    pub fn ask(&mut self, ticket: u64, call: Call<A>, until: Option<u64>) -> Result<(), AllocError>
        ensures entries { OnOk result (self.new.entries.items
            ≡ self.old.entries.items ++ record { ticket = ticket; call = call; until = until; is_sent = false } ∷ []) }
        ensures same { OnErr result (self.new.entries.items ≡ self.old.entries.items) }
    {
        let is_sent = false;
        let entry = Entry {
            ticket,
            call,
            until,
            is_sent,
        };
        let tickets = tickets_rise(&self.entries, self.tickets_rise, &entry);
        self.limits.add(until)?;
        match self.entries.push_back(entry) {
            Ok(()) => {
                self.tickets_rise = tickets;
                Ok(())
            }
            Err(_) => {
                self.limits.take(until);
                Err(AllocError)
            }
        }
    }

    /// The place of the call whose turn it is.
    fn place_of_next(&self) -> Option<usize>
        ensures { result ≡ position waits_turn self.now.entries.items }
    {
        place_of_next(&self.entries, self.handed)
    }

    /// A copy of the call at this place, with its ticket.
    fn copied_at(&self, place: usize) -> Result<(u64, Call<A>), AllocError>
        requires { position waits_turn self.now.entries.items ≡ Some place }
        ensures { IfOk result (λ it. next_call self.now.entries.items ≡ Some (it.0, call_view it.1)) }
    {
        copied_at(self.alloc, &self.entries, place)
    }

    /// The call at this place counts as handed over.
    fn hand(&mut self, place: usize)
        requires { position waits_turn self.old.entries.items ≡ Some place }
        ensures { self.new.entries.items ≡ first_handed self.old.entries.items }
    {
        hand(&mut self.entries, place);
        self.handed = place + 1;
    }

    /// All were handed over.
    fn note_all(&mut self)
        requires { position waits_turn self.old.entries.items ≡ None }
        ensures { self.new.entries.items ≡ self.old.entries.items }
    {
        self.handed = self.entries.len();
    }

    /// Whether it is known that no call waits for its turn. It takes constant time after [`next`](Line::next) has found none.
    pub fn rests(&self) -> bool
        ensures { result ≡ true → next_call self.now.entries.items ≡ None }
    {
        self.place_of_next().is_none()
    }

    /// The call whose turn it is: the first of those that wait for theirs, and none where none does. It counts as handed over, and a copy
    /// of it is given. An error means that memory ran out, and nothing has changed then.
    pub fn next(&mut self) -> Result<Option<(u64, Call<A>)>, AllocError>
        ensures next { IfOk result (λ next. option_map (λ it. (it.0, call_view it.1)) next ≡ next_call self.old.entries.items) }
        ensures entries { OnOk result (self.new.entries.items ≡ first_handed self.old.entries.items) }
        ensures same { OnErr result (self.new ≡ self.old) }
    {
        let Some(place) = self.place_of_next() else {
            self.note_all();
            return Ok(None);
        };
        let next = self.copied_at(place)?;
        self.hand(place);
        Ok(Some(next))
    }

    /// Whether the call of this ticket that was handed over is asked again where its reply is lost: it changes nothing.
    pub fn is_asked_again(&self, ticket: u64) -> bool
        ensures { result ≡ is_asked_again ticket self.now.entries.items }
    {
        match place_of(&self.entries, self.tickets_rise, ticket) {
            Some(place) => is_read(&self.entries[place].call),
            None => false,
        }
    }

    /// The client answers a call of this ticket: the first of those that were handed over. What its asker is to be told: nothing where
    /// there is no such call, and where the call waits for its turn again.
    pub fn answer(&mut self, ticket: u64, outcome: Outcome<A>) -> Option<Outcome<A>>
        ensures entries { self.new.entries.items ≡ answered ticket (outcome_view outcome) self.old.entries.items }
        ensures told { option_map outcome_view result
            ≡ (if settles ticket (outcome_view outcome) self.old.entries.items then Some (outcome_view outcome) else None) }
    {
        let place = place_of(&self.entries, self.tickets_rise, ticket);
        match place {
            Some(place) => settle(
                &mut self.entries,
                &mut self.handed,
                &mut self.limits,
                place,
                ticket,
                outcome,
            ),
            None => {
                drop(outcome);
                None
            }
        }
    }

    /// Whether it is known without a look at each that no call waits no more.
    fn has_none(&self, ending: Ending) -> bool
        ensures { result ≡ true → ended ending self.now.entries.items ≡ [] }
    {
        if self.entries.is_empty() {
            return true;
        }
        match ending {
            Ending::LostOf(ticket) => {
                self.tickets_rise && place_of(&self.entries, self.tickets_rise, ticket).is_none()
            }
            Ending::Late(now) => !has_come(now, self.deadline()),
            Ending::Lost | Ending::Expired => false,
        }
    }

    /// These calls wait no more: they are told, in the order of asking. An error means that memory ran out, and nothing has changed then.
    pub fn end(&mut self, ending: Ending) -> Result<Vec<Ended, A>, AllocError>
        ensures told { IfOk result (λ told. told.items ≡ map ended_of (ended ending self.old.entries.items)) }
        ensures entries { OnOk result (self.new.entries.items ≡ left ending self.old.entries.items) }
        ensures same { OnErr result (self.new ≡ self.old) }
    {
        if self.has_none(ending) {
            return Ok(Vec::new(self.alloc));
        }
        let told = told_of(self.alloc, &self.entries, ending)?;
        release(&mut self.limits, &self.entries, ending);
        remove(&mut self.entries, ending);
        self.handed = 0;
        Ok(told)
    }

    /// All are let go, and nobody is told.
    pub fn clear(&mut self)
        ensures { self.new.entries.items ≡ [] }
    {
        self.entries.clear();
        self.limits.clear();
        self.handed = 0;
    }

    /// The first moment at which the limit of a call comes.
    pub fn deadline(&self) -> Option<u64>
        ensures { result ≡ first_limit self.now.entries.items }
    {
        self.limits.first()
    }
}
