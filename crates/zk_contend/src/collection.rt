//! The contenders of a session.

use crate::calls::Calls;
use crate::contender::LockContender;
use crate::kept::is_ready;
use crate::roll::{
    Roll, ask_at, close_each, forget_all, give_up_at, has_none, hear_at, note_each, put,
    renew_each, take_out, tell_each,
};
use crate::status::LockStatus;
use crate::stirred::Stirred;
use indexmap::IndexMap;
use std::alloc::{AllocError, Allocator, Global};
use zk_client::{Call, Client, Event, Outcome, Path};

/// The contenders of one session, each under a ticket of its program. What becomes of one is what becomes of a [`LockContender`] by the
/// function of the same name, and nothing else: so the [`laws`](crate::laws) hold of each.
///
/// [`next`](Contenders::next) and [`tell`](Contenders::tell) look only at those that are not at rest, that heard an answer, or that a
/// report was about. [`note`](Contenders::note) compares the path of each report with those of all.
#[derive(Drop)]
pub struct Contenders<A: Allocator + Copy = Global> {
    pub(crate) all: Roll<A>,
    pub(crate) calls: Calls<A>,
    pub(crate) stirred: Stirred<A>,
}

impl<A: Allocator + Copy> Contenders<A> {
    ghost use Rattle.std.specs.Prelude.{◌≡◌, ◌⊎◌, [], ℕ, true, false, nat_lt, not, is_some, None, IfOk, IfSome, OnErr, OnOk, if◌then◌else◌};
    ghost use Rattle.std.specs.List.{FoldsTo};
    ghost use Rattle.std.specs.Option.{option_copied};
    ghost use Rattle.zk_client.specs.Clients.{view_of};
    ghost use Rattle.zk_client.specs.Views.{outcome_view};
    ghost use Rattle.zk_conversation.specs.Views.{call_view};
    ghost use Rattle.zk_contend.specs.Collections.{asker_of, first_until, hall_of, one_of, own_at, AreAtRest, AreSame, Asks, Changes};
    ghost use Rattle.zk_contend.specs.Collections.{ChangesEach, ForgetsCalls, Hears, Joins, KeepsCalls, ShowsOne, StaysAwake, Stirs};
    ghost use Rattle.zk_contend.specs.Collections.{StirsAbout, StirsAll, StirsIf, StandsOne, TellsAt};
    ghost use Rattle.zk_contend.specs.Tickets.{first_call};
    ghost use Rattle.zk_contend.specs.Contenders.{closed, given_up, noted, renewed};
    ghost use Rattle.zk_contend.specs.Places.{is_ready};

    /// No contender.
    pub fn new(alloc: A) -> Contenders<A>
        ensures all { (ticket : ℕ) → one_of result ticket ≡ None }
        ensures calls { (call : ℕ) → asker_of result call ≡ None }
    {
        Contenders {
            all: IndexMap::new(alloc),
            calls: Calls::new(alloc),
            stirred: Stirred::new(alloc),
        }
    }

    /// Whether there is no contender, and no call of one is to be heard of: then nothing is due, and nothing is to be told.
    pub fn is_empty(&self) -> bool
        ensures nobody { result ≡ true → (ticket : ℕ) → one_of self.now ticket ≡ None }
        ensures nothing { result ≡ true → (call : ℕ) → asker_of self.now call ≡ None }
        ensures otherwise { result ≡ false → ((ticket : ℕ) × (is_some (one_of self.now ticket) ≡ true))
            ⊎ ((call : ℕ) × (is_some (asker_of self.now call) ≡ true)) }
    {
        has_none(&self.all) && has_none(&self.calls.askers)
    }

    /// A contender joins, unless another one has the ticket: it says whether it does. An error means that memory ran out, and it did not.
    pub fn contend(&mut self, ticket: u64, contender: LockContender<A>) -> Result<bool, AllocError>
        ensures is_new { IfOk result (λ is_new. is_new ≡ not (is_some (one_of self.old ticket))) }
        ensures joins { IfOk result (λ is_new. Joins ticket contender is_new self.old self.new) }
        ensures stirs { IfOk result (λ is_new. StirsIf is_new ticket self.old self.new) }
        ensures same { OnErr result (AreSame self.old self.new) }
        ensures calls { KeepsCalls self.old self.new }
    {
        if self.all.contains_key(&ticket) {
            drop(contender);
            return Ok(false);
        }
        if let Err(fault) = self.stirred.add(ticket) {
            drop(contender);
            return Err(fault);
        }
        put(&mut self.all, ticket, contender)?;
        Ok(true)
    }

    /// The contender of this ticket is given up, if there is one: it says whether there is. It is there no more once that it is given up is
    /// told and no call of it is under way. An error means that memory ran out, and nothing became of it.
    pub fn give_up(&mut self, ticket: u64) -> Result<bool, AllocError>
        ensures is_there { IfOk result (λ is_there. is_there ≡ is_some (one_of self.old ticket)) }
        ensures gives { OnOk result (Changes ticket (λ was is. is ≡ given_up was) self.old self.new) }
        ensures stirs { IfOk result (λ is_there. StirsIf is_there ticket self.old self.new) }
        ensures same { OnErr result (AreSame self.old self.new) }
        ensures calls { KeepsCalls self.old self.new }
    {
        if !self.all.contains_key(&ticket) {
            return Ok(false);
        }
        self.stirred.add(ticket)?;
        give_up_at(&mut self.all, ticket);
        Ok(true)
    }

    /// Whether this is the ticket of a call that was asked and not heard of.
    pub fn has_asked(&self, ticket: u64) -> bool
        ensures { result ≡ is_some (asker_of self.now ticket) }
    {
        self.calls.askers.contains_key(&ticket)
    }

    /// Hears the outcome of the call of this ticket: the contender that asked it does, and no other. If there is no such call, nothing
    /// happens. An error means that memory ran out, and the contenders are of no use then.
    pub fn hear(
        &mut self,
        client: &Client<A>,
        now: u64,
        ticket: u64,
        outcome: Outcome<A>,
    ) -> Result<(), AllocError>
        ensures { OnOk result (Hears (view_of client.now) now ticket (outcome_view outcome) self.old self.new) }
    {
        let Some(asker) = take_out(&mut self.calls.askers, ticket) else {
            drop(outcome);
            return Ok(());
        };
        hear_at(&mut self.all, asker, client, now, outcome)?;
        self.stirred.add(asker)
    }

    /// Notes a report of the client. Each report is to be given to it. An error is that of [`hear`](Contenders::hear).
    pub fn note(&mut self, path: &str, event: Event) -> Result<(), AllocError>
        ensures notes { OnOk result (ChangesEach (noted path.now event) self.old self.new) }
        ensures stirs { OnOk result (StirsAbout path.now self.old self.new) }
        ensures calls { KeepsCalls self.old self.new }
    {
        self.stirred.add_about(&self.all, path)?;
        note_each(&mut self.all, path, event);
        Ok(())
    }

    /// All are looked at by the next call and by the next news. It is to be called where what the client shows may be another one, and
    /// neither an answer of theirs nor a report said so: where the state of the session is another one. An error is that of
    /// [`hear`](Contenders::hear).
    pub fn wake(&mut self) -> Result<(), AllocError>
        ensures same { AreSame self.old self.new }
        ensures stirs { OnOk result (StirsAll self.new) }
        ensures calls { KeepsCalls self.old self.new }
    {
        self.stirred.add_all(&self.all)
    }

    /// The call that is due of one of those that are looked at, if one is, with a ticket that no other call has or had. Its outcome is to
    /// be given to [`hear`](Contenders::hear), and no other call of that one is due before. An error means that memory ran out, or that the
    /// 2^62 tickets are used up, and the contenders are of no use then.
    pub fn next(
        &mut self,
        client: &Client<A>,
        now: u64,
    ) -> Result<Option<(u64, Call<A>)>, AllocError>
        ensures some { IfOk result (λ next. IfSome next (λ it. Asks (view_of client.now) now it.0 (call_view it.1) self.old self.new)) }
        ensures own { IfOk result (λ next. IfSome next (λ it. nat_lt it.0 first_call ≡ false)) }
        ensures none { IfOk result (λ next. next ≡ None → AreAtRest (view_of client.now) now self.old) }
        ensures same { IfOk result (λ next. next ≡ None → AreSame self.old self.new × KeepsCalls self.old self.new) }
        ensures stays { OnOk result (StaysAwake (view_of client.now) self.old self.new) }
    {
        if !is_ready(client) {
            return Ok(None);
        }
        let Some((ticket, ask)) = self.stirred.first_due(&self.all, client, now)? else {
            return Ok(None);
        };
        let number = self.calls.ask(ticket)?;
        match ask_at(&mut self.all, ticket, ask)? {
            Some(call) => Ok(Some((number, call))),
            None => Ok(None),
        }
    }

    /// What there is to tell of those that are looked at, after what was told: once after each step. An error is that of
    /// [`hear`](Contenders::hear).
    pub fn tell(
        &mut self,
        client: &Client<A>,
        news: &mut Vec<(u64, LockStatus), A>,
    ) -> Result<(), AllocError>
        ensures tells { OnOk result (FoldsTo (TellsAt (view_of client.now)) (hall_of self.old news.old.items)
            self.old.stirred.untold.items (hall_of self.new news.new.items)) }
        ensures told { OnOk result (self.new.stirred.untold.items ≡ []) }
        ensures awake { self.new.stirred.awake.items ≡ self.old.stirred.awake.items }
        ensures calls { KeepsCalls self.old self.new }
    {
        tell_each(&mut self.all, self.stirred.untold.as_slice(), client, news)?;
        self.stirred.untold.clear();
        Ok(())
    }

    /// The client goes on with another session: each contender does. Outcomes of calls of the last session are heard no more. An error is
    /// that of [`hear`](Contenders::hear).
    pub fn renew(&mut self) -> Result<(), AllocError>
        ensures renews { OnOk result (ChangesEach renewed self.old self.new) }
        ensures stirs { OnOk result (StirsAll self.new) }
        ensures calls { ForgetsCalls self.old self.new }
    {
        forget_all(&mut self.calls.askers);
        renew_each(&mut self.all);
        self.stirred.add_all(&self.all)
    }

    /// The session is closed: each contender is given up, and nothing of it is left. An error is that of [`hear`](Contenders::hear).
    pub fn close(&mut self) -> Result<(), AllocError>
        ensures closes { OnOk result (ChangesEach closed self.old self.new) }
        ensures stirs { OnOk result (StirsAll self.new) }
        ensures calls { ForgetsCalls self.old self.new }
    {
        forget_all(&mut self.calls.askers);
        close_each(&mut self.all);
        self.stirred.add_all(&self.all)
    }

    /// The first moment at which a refusal is over, so that a call may be due. There is none where no call may be asked now.
    pub fn deadline(&self, client: &Client<A>) -> Option<u64>
        ensures { result ≡ (if is_ready (view_of client.now) then first_until self.now else None) }
    {
        if !is_ready(client) {
            return None;
        }
        self.stirred.first_until(&self.all)
    }

    /// The token, if the session holds by the contender of this ticket: [`LockContender::held`].
    pub fn held(&self, client: &Client<A>, ticket: u64) -> Option<i64>
        ensures { ShowsOne (view_of client.now) (one_of self.now ticket) result }
    {
        match self.all.get(&ticket) {
            Some(contender) => contender.held(client),
            None => None,
        }
    }

    /// How the contender of this ticket stands, if there is one: [`LockContender::stands`].
    pub fn stands(&self, client: &Client<A>, ticket: u64) -> Option<LockStatus>
        ensures { StandsOne (view_of client.now) (one_of self.now ticket) result }
    {
        match self.all.get(&ticket) {
            Some(contender) => Some(contender.stands(client)),
            None => None,
        }
    }

    /// The path of its place, if that is known: [`LockContender::place`].
    pub fn place(&self, ticket: u64) -> Option<&Path<A>>
        ensures { option_copied result ≡ own_at (one_of self.now ticket) }
    {
        match self.all.get(&ticket) {
            Some(contender) => contender.place(),
            None => None,
        }
    }
}
