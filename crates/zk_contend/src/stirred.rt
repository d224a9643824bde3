//! Whom to look at.

ghost use Rattle.std.specs.Prelude.{◌≡◌, ◌++◌, ◌∷◌, [], ℕ, nat_eq, true, None, IfOk, IfSome, OnOk, if◌then◌else◌};
ghost use Rattle.indexmap.specs.IndexMap.{get, keys};
ghost use Rattle.zk_client.specs.Clients.{view_of};
ghost use Rattle.zk_contend.specs.Collections.{is_in, sooner, until_of};
ghost use Rattle.zk_contend.specs.Dues.{IsAtRest};
ghost use Rattle.zk_contend.specs.inner.Stirred.{about, first_of, IsDueAt, Keeps, Stays};

use crate::place::Ask;
use crate::roll::Roll;
use std::alloc::{AllocError, Allocator};
use std::collections::VecDeque;
use zk_client::Client;

/// The tickets of contenders that may have a call to ask, in the order in which they are looked at, and of those of which there may be
/// something to tell.
#[derive(Drop)]
pub(crate) struct Stirred<A: Allocator + Copy> {
    pub(crate) awake: VecDeque<u64, A>,
    pub(crate) untold: Vec<u64, A>,
}

/// What is due of the contender of this ticket.
fn due_of<A: Allocator + Copy>(
    all: &Roll<A>,
    ticket: u64,
    client: &Client<A>,
    now: u64,
) -> Option<Ask>
    ensures some { IfSome result (λ ask. IsDueAt (view_of client.now) now (get nat_eq all.now ticket) ask) }
    ensures none { result ≡ None → IfSome (get nat_eq all.now ticket) (IsAtRest (view_of client.now) now) }
{
    match all.get(&ticket) {
        Some(contender) => contender.due(client, now),
        None => None,
    }
}

/// When its pause after a refusal is over.
fn until_of<A: Allocator + Copy>(all: &Roll<A>, ticket: u64) -> Option<u64>
    ensures { result ≡ until_of (get nat_eq all.now ticket) }
{
    match all.get(&ticket) {
        Some(contender) => contender.deadline(),
        None => None,
    }
}

fn sooner(first: Option<u64>, other: Option<u64>) -> Option<u64>
    ensures { result ≡ sooner first other }
{
    match (first, other) {
        (None, other) => other,
        (Some(first), None) => Some(first),
        (Some(first), Some(other)) => Some(first.min(other)),
    }
}

impl<A: Allocator + Copy> Stirred<A> {
    /// Nobody.
    pub(crate) fn new(alloc: A) -> Stirred<A>
        ensures awake { result.awake.items ≡ [] }
        ensures untold { result.untold.items ≡ [] }
    {
        Stirred {
            awake: VecDeque::new(alloc),
            untold: Vec::new(alloc),
        }
    }

    /// This one is looked at. An error means that memory ran out.
    pub(crate) fn add(&mut self, ticket: u64) -> Result<(), AllocError>
        ensures awake { OnOk result (self.new.awake.items ≡ self.old.awake.items ++ ticket ∷ []) }
        ensures untold { OnOk result (self.new.untold.items ≡ self.old.untold.items ++ ticket ∷ []) }
    {
        self.awake.push_back(ticket)?;
        self.untold.push(ticket).map_err(AllocError::from)
    }

    fn add_if(&mut self, is_it: bool, ticket: u64) -> Result<(), AllocError>
        ensures awake { OnOk result (self.new.awake.items ≡ (if is_it then self.old.awake.items ++ ticket ∷ [] else self.old.awake.items)) }
        ensures untold { OnOk result
            (self.new.untold.items ≡ (if is_it then self.old.untold.items ++ ticket ∷ [] else self.old.untold.items)) }
    {
        if is_it {
            return self.add(ticket);
        }
        Ok(())
    }

    /// Each of these is looked at. An error means that memory ran out.
    pub(crate) fn add_all(&mut self, all: &Roll<A>) -> Result<(), AllocError>
        ensures awake { OnOk result (self.new.awake.items ≡ keys all.now) }
        ensures untold { OnOk result (self.new.untold.items ≡ keys all.now) }
    {
        self.awake.clear();
        self.untold.clear();
        for ticket in all.keys() {
            self.add(*ticket)?;
        }
        Ok(())
    }

    /// Each that a report of this path is about is looked at. An error means that memory ran out.
    pub(crate) fn add_about(&mut self, all: &Roll<A>, path: &str) -> Result<(), AllocError>
        ensures awake { OnOk result (self.new.awake.items ≡ self.old.awake.items ++ about path.now all.now.entries) }
        ensures untold { OnOk result (self.new.untold.items ≡ self.old.untold.items ++ about path.now all.now.entries) }
    {
        for (ticket, contender) in all.iter() {
            self.add_if(contender.is_about(path), *ticket)?;
        }
        Ok(())
    }

    /// It is looked at again, unless it sleeps. An error means that memory ran out.
    fn keep(&mut self, all: &Roll<A>, ticket: u64, client: &Client<A>) -> Result<(), AllocError>
        ensures kept { OnOk result
            (Keeps (view_of client.now) (get nat_eq all.now ticket) ticket self.old.awake.items self.new.awake.items) }
        ensures untold { self.new.untold ≡ self.old.untold }
    {
        match all.get(&ticket) {
            Some(contender) if !contender.is_asleep(client) => {
                self.awake.push_back(ticket).map_err(AllocError::from)
            }
            _ => Ok(()),
        }
    }

    /// The first of those that are looked at of which a call is due. Those before it that sleep are not looked at again, and it is not. An
    /// error means that memory ran out.
    pub(crate) fn first_due(
        &mut self,
        all: &Roll<A>,
        client: &Client<A>,
        now: u64,
    ) -> Result<Option<(u64, Ask)>, AllocError>
        ensures some { IfOk result (λ due. IfSome due (λ it. IsDueAt (view_of client.now) now (get nat_eq all.now it.0) it.1)) }
        ensures none { IfOk result (λ due. due ≡ None → (ticket : ℕ) → is_in ticket self.old.awake.items ≡ true
            → IfSome (get nat_eq all.now ticket) (IsAtRest (view_of client.now) now)) }
        ensures stays { IfOk result (λ due. (ticket : ℕ) → is_in ticket self.old.awake.items ≡ true
            → Stays (view_of client.now) (get nat_eq all.now ticket) due ticket self.new.awake.items) }
        ensures untold { self.new.untold ≡ self.old.untold }
    {
        for _turn in 0..self.awake.len() {
            let Some(ticket) = self.awake.pop_front() else {
                return Ok(None);
            };
            if let Some(ask) = due_of(all, ticket, client, now) {
                return Ok(Some((ticket, ask)));
            }
            self.keep(all, ticket, client)?;
        }
        Ok(None)
    }

    /// The first moment at which a pause of one that is looked at is over.
    pub(crate) fn first_until(&self, all: &Roll<A>) -> Option<u64>
        ensures { result ≡ first_of (get nat_eq all.now) self.now.awake.items }
    {
        let mut first = None;
        for place in 0..self.awake.len() {
            first = sooner(first, until_of(all, self.awake[place]));
        }
        first
    }
}
