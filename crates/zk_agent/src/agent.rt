//! The agent.

ghost use Rattle.std.specs.Prelude.{◌≡◌, ◌<ℤ◌, pos};

use crate::action::{Action, push, push_due};
use crate::asker::Asker;
use crate::credentials::Credentials;
use crate::growing::note_all;
use crate::input::{AgentInput, heard_moment};
use crate::moments::{first_of, first_of_five, is_closed};
use crate::waits::Waits;
use std::alloc::{AllocError, Allocator, Global};
use zk_client::{Call, Client, Path, Side, State};
use zk_dialler::Dialler;
use zk_follow::FollowerStop;
use zk_trees::Trees;

/// What an agent begins with.
#[derive(Clone, Copy)]
pub struct Settings {
    /// The timeout that each later session asks for, in milliseconds, at least 1. A server may grant another one.
    pub timeout_ms: i32,
    /// How many addresses the program's list has.
    pub addresses: usize,
    /// What the order of addresses and the pauses are random by: another number in each program.
    pub seed: u64,
}

/// A session's agent. Moments are milliseconds of one clock; one below an earlier one counts as the earlier one.
#[derive(Drop)]
pub struct Agent<A: Allocator + Copy = Global> {
    pub(crate) alloc: A,
    timeout_ms: i32,
    pub(crate) dialler: Dialler<A>,
    pub(crate) asker: Asker<A>,
    pub(crate) waits: Waits<A>,
    pub(crate) trees: Trees<A>,
    pub(crate) credentials: Credentials<A>,
    latest: u64,
    heard_at: Option<u64>,
    ghost asks: { pos 0 <ℤ timeout_ms },
}

impl<A: Allocator + Copy> Agent<A> {
    ghost use Rattle.std.specs.Prelude.{◌≡◌, ◌≢◌, ◌≤◌, ◌<◌, ◌+◌, ◌<ℤ◌, ◌≤ℤ◌, ◌^◌, ◌++◌, ◌∷◌, ◌&&◌, ℕ, true, false, map, max, length, pos};
    ghost use Rattle.std.specs.Prelude.{not, unsigned_abs, [], None, IfOk, IfSome, OnErr, OnOk, All};
    ghost use Rattle.std.specs.List.Sorted.{IsPermutation};
    ghost use Rattle.zk_turns.specs.Turns as turns;
    ghost use Rattle.zk_turns.specs.View.{view_at};
    ghost use Rattle.zk_turns.specs.Rule.{forgotten};
    ghost use Rattle.zk_session.specs.declared.states.State.TheVariants.{Expired, Closed};
    ghost use Rattle.zk_client.specs.Clients.{renewed_start, view_of};
    ghost use Rattle.zk_dialler.specs.Backoffs.{row_ended};
    ghost use Rattle.zk_dialler.specs.Chances.{state_after};
    ghost use Rattle.zk_dialler.specs.Dialling.{is_open, is_waiting};
    ghost use Rattle.zk_dialler.specs.Orders.{numbers, shuffled};
    ghost use Rattle.zk_dialler.specs.declared.dialler.Phase.TheVariants.{Waiting};
    ghost use Rattle.zk_follow.specs.Following.{due_again, AreFollowed};
    ghost use Rattle.zk_conversation.specs.Views.{call_view};
    ghost use Rattle.zk_calls.specs.declared.entry.Ending.TheVariants as ending;
    ghost use Rattle.zk_dialler.specs.Dialling.{has_come};
    ghost use Rattle.zk_agent.specs.Agents.{ends_of};
    ghost use Rattle.zk_agent.specs.Agents.{bytes_at, given_of, heard_after, how_many_asked, how_many_ended, is_closed, opened_at, over_at};
    ghost use Rattle.zk_agent.specs.Agents.{moves_of, papers_in, Presents};
    ghost use Rattle.zk_agent.specs.Credentials.{all_written, no_papers, papers_of, unwritten, with_credential};
    ghost use Rattle.zk_agent.specs.Agents.{trail_of, Addressed, Asks, Comes, Follows, Hears, IsAnswered, IsBroken, IsDecided, IsLed};
    ghost use Rattle.zk_agent.specs.Agents.{leaves_with, left_at, NothingAt, NothingOpen, Unfollows};
    ghost use Rattle.zk_agent.specs.Calls.{endings, how_many, IsInTime, IsServed};
    ghost use Rattle.zk_agent.specs.Telling.{told_by, Begins};
    ghost use Rattle.zk_agent.specs.inner.Agents.{Acts};
    ghost use Rattle.zk_agent.specs.Trees.{GoesOn};
    ghost use Rattle.zk_agent.specs.Waits.{nothing_waits, waited_of};

    /// Of a client that has no connection: a new one, or one that takes up a saved session. The first step asks for a connection. An error
    /// means that memory ran out.
    pub fn new(alloc: A, client: Client<A>, settings: Settings) -> Result<Agent<A>, AllocError>
        requires { pos 0 <ℤ settings.timeout_ms }
        ensures client { IfOk result (λ agent. view_of agent.asker.follower.client ≡ view_of client) }
        ensures subjects { IfOk result (λ agent. agent.asker.follower.subjects.items ≡ []) }
        ensures calls { IfOk result (λ agent. agent.asker.line.entries.items ≡ []) }
        ensures latest { IfOk result (λ agent. agent.latest ≡ 0) }
        ensures heard { IfOk result (λ agent. agent.heard_at ≡ None) }
        ensures timeout { IfOk result (λ agent. agent.timeout_ms ≡ settings.timeout_ms) }
        ensures waits { IfOk result (λ agent. waited_of agent.waits ≡ nothing_waits) }
        ensures trees { IfOk result (λ agent. agent.trees.all.items ≡ []) }
        ensures next { IfOk result (λ agent. agent.trees.next ≡ 2 ^ 63) }
        ensures credentials { IfOk result (λ agent. papers_of agent.credentials ≡ no_papers) }
        ensures phase { IfOk result (λ agent. agent.dialler.phase ≡ Waiting) }
        ensures order { IfOk result
            (λ agent. agent.dialler.ring.order.items ≡ shuffled settings.seed settings.addresses (numbers settings.addresses)) }
        ensures each { IfOk result (λ agent. IsPermutation (numbers settings.addresses) agent.dialler.ring.order.items) }
        ensures first { IfOk result (λ agent. agent.dialler.ring.next ≡ 0) }
        ensures backoff { IfOk result (λ agent. agent.dialler.backoff ≡ record {
          chance = record {
            state =
                state_after settings.addresses settings.seed;
          };
          failures = 0;
          connected = None;
          ended = 0;
          least = 0;
          moment = 0;
        }) }
    {
        Ok(Agent {
            alloc,
            timeout_ms: settings.timeout_ms,
            dialler: Dialler::new(alloc, settings.addresses, settings.seed)?,
            asker: Asker::new(alloc, client),
            waits: Waits::new(alloc),
            trees: Trees::new(alloc),
            credentials: Credentials::new(alloc),
            latest: 0,
            heard_at: None,
        })
    }

    /// The timeout of the session, in milliseconds.
    pub(crate) fn timeout_ms(&self) -> u32
        ensures { result ≡ (view_of self.now.asker.follower.client).saved.session.timeout }
    {
        self.asker.follower.client().timeout_ms()
    }

    /// Where the client stands.
    pub(crate) fn state(&self) -> State
        ensures { result ≡ (view_of self.now.asker.follower.client).standing.state }
    {
        self.asker.follower.client().state()
    }

    /// Whether the session was closed.
    fn is_closed(&self) -> bool
        ensures { result ≡ is_closed (view_of self.now.asker.follower.client).standing.state }
    {
        is_closed(self.state())
    }

    /// The client: what is kept of paths, the state, and what another session can be resumed from.
    pub fn client(&self) -> &Client<A>
        ensures { view_of result.now ≡ view_of self.now.asker.follower.client }
    {
        self.asker.follower.client()
    }

    /// The moment at which the server was heard last, on any connection, and none before it was. What is kept and good was so on the
    /// server at some moment from then on, or was reported after it.
    pub fn heard_at(&self) -> Option<u64>
        ensures { result ≡ self.now.heard_at }
    {
        self.heard_at
    }

    /// Takes the stale answers out of what the client keeps: without that they take memory until their paths are read again, or the session
    /// is over. What is good stays. It is no step: nothing is told, and it takes no memory.
    pub fn forget_stale(&mut self)
        ensures view { view_of self.new.asker.follower.client
            ≡ record (view_of self.old.asker.follower.client) { cache = forgotten (view_of self.old.asker.follower.client).cache } }
        ensures led { IsLed (view_of self.old.asker.follower.client) → IsLed (view_of self.new.asker.follower.client) }
        ensures followed { (now : ℕ) → AreFollowed now (view_of self.old.asker.follower.client) self.old.asker.follower.subjects.items
            → AreFollowed now (view_of self.new.asker.follower.client) self.new.asker.follower.subjects.items }
        ensures subjects { self.new.asker.follower.subjects ≡ self.old.asker.follower.subjects }
        ensures calls { self.new.asker.line ≡ self.old.asker.line }
        ensures dialler { self.new.dialler ≡ self.old.dialler }
        ensures timeout { self.new.timeout_ms ≡ self.old.timeout_ms }
        ensures latest { self.new.latest ≡ self.old.latest }
        ensures heard { self.new.heard_at ≡ self.old.heard_at }
        ensures trees { self.new.trees ≡ self.old.trees }
        ensures waits { self.new.waits ≡ self.old.waits }
        ensures credentials { self.new.credentials ≡ self.old.credentials }
    {
        self.asker.forget_stale();
    }

    /// The first moment at which something is due: at the latest then a step is to be made, by [`AgentInput::Moment`] if nothing else
    /// happens. It may be past; there is none if nothing will be due, as after a close.
    pub fn deadline(&self) -> Option<u64>
        ensures before { IfSome result (λ first. (moment : ℕ) → moment < 2 ^ 64 → moment < first → NothingAt self.now moment) }
        ensures due { IfSome result (λ first. ¬ (NothingAt self.now first)) }
        ensures never { result ≡ None → (moment : ℕ) → moment < 2 ^ 64 → NothingAt self.now moment }
        ensures closed { (view_of self.now.asker.follower.client).standing.state ≡ Closed → result ≡ None }
    {
        if self.is_closed() {
            return None;
        }
        first_of(self.first_due(), self.trees.deadline())
    }

    /// The first moment at which something is due, if the session was not closed.
    fn first_due(&self) -> Option<u64>
        ensures before { IfSome result (λ first. (moment : ℕ) → moment < 2 ^ 64 → moment < first → NothingOpen self.now moment) }
        ensures due { IfSome result (λ first. ¬ (NothingOpen self.now first)) }
        ensures never { result ≡ None → (moment : ℕ) → moment < 2 ^ 64 → NothingOpen self.now moment }
    {
        let due = self.asker.follower.client().deadline();
        let attempt = self.dialler.deadline();
        let again = self.asker.follower.deadline();
        let limit = self.asker.line.deadline();
        let timeout_ms = self.timeout_ms();
        let answer = self.waits.ends_at(timeout_ms);
        first_of_five(due, attempt, again, limit, answer)
    }

    /// Takes what has happened, noticed at this moment, and gives what is to be done and what there is to tell, in order.
    ///
    /// An error means that memory ran out. The agent is of no use then: begin with another one, from what its client has saved.
    pub fn step(
        &mut self,
        now: u64,
        input: AgentInput<A>,
    ) -> Result<Vec<Action<A>, A>, FollowerStop>
        ensures comes { IfOk result (λ actions. Comes (max self.old.latest now)
            (moves_of (is_open self.new.dialler.phase) (max self.old.latest now) input self.old) (trail_of self.old [])
            (trail_of self.new actions.items)) }
        ensures followed { OnOk result
            (AreFollowed self.new.latest (view_of self.new.asker.follower.client) self.new.asker.follower.subjects.items) }
        ensures calls { IfOk result (λ actions. (ticket : ℕ) → how_many ticket self.new.asker.line.entries.items + how_many_ended ticket
            (told_by actions.items) ≡ how_many ticket self.old.asker.line.entries.items + how_many_asked ticket input) }
        ensures served { OnOk result (All (IsServed (view_of self.new.asker.follower.client)) self.new.asker.line.entries.items) }
        ensures limits { OnOk result (All (IsInTime self.new.latest) self.new.asker.line.entries.items) }
        ensures closed { OnOk result
            ((view_of self.new.asker.follower.client).standing.state ≡ Closed → self.new.asker.line.entries.items ≡ []) }
        ensures renewed { OnOk result ((view_of self.new.asker.follower.client).standing.state ≢ Expired) }
        ensures dials { IfOk result (λ actions. (view_of self.new.asker.follower.client).standing.state ≢ Closed
            → IsDecided (max self.old.latest now) (trail_of self.new actions.items)) }
        ensures answers { OnOk result (IsAnswered self.new) }
        ensures latest { OnOk result (self.new.latest ≡ max self.old.latest now) }
        ensures heard { OnOk result
            (self.new.heard_at ≡ heard_after (is_open self.old.dialler.phase) (max self.old.latest now) input self.old.heard_at) }
        ensures trees { IfOk result (λ actions. GoesOn (max self.old.latest now) input self.old self.new actions.items) }
        ensures credentials { OnOk result
            (papers_of self.new.credentials ≡ all_written (is_open self.new.dialler.phase) (papers_in input self.old)) }
        ensures broke { OnErr result (IsBroken self.old self.new) }
    {
        let mut actions = Vec::new(self.alloc);
        self.step_into(now, input, &mut actions)?;
        Ok(actions)
    }

    /// [`step`](Agent::step), whose actions take the place of those that were given, in the same room.
    #[inline(always)]
    pub fn step_into(
        &mut self,
        now: u64,
        input: AgentInput<A>,
        actions: &mut Vec<Action<A>, A>,
    ) -> Result<(), FollowerStop>
        ensures comes { OnOk result (Comes (max self.old.latest now)
            (moves_of (is_open self.new.dialler.phase) (max self.old.latest now) input self.old) (trail_of self.old [])
            (trail_of self.new actions.new.items)) }
        ensures followed { OnOk result
            (AreFollowed self.new.latest (view_of self.new.asker.follower.client) self.new.asker.follower.subjects.items) }
        ensures calls { OnOk result ((ticket : ℕ) → how_many ticket self.new.asker.line.entries.items + how_many_ended ticket
            (told_by actions.new.items) ≡ how_many ticket self.old.asker.line.entries.items + how_many_asked ticket input) }
        ensures served { OnOk result (All (IsServed (view_of self.new.asker.follower.client)) self.new.asker.line.entries.items) }
        ensures limits { OnOk result (All (IsInTime self.new.latest) self.new.asker.line.entries.items) }
        ensures closed { OnOk result
            ((view_of self.new.asker.follower.client).standing.state ≡ Closed → self.new.asker.line.entries.items ≡ []) }
        ensures renewed { OnOk result ((view_of self.new.asker.follower.client).standing.state ≢ Expired) }
        ensures dials { OnOk result ((view_of self.new.asker.follower.client).standing.state ≢ Closed
            → IsDecided (max self.old.latest now) (trail_of self.new actions.new.items)) }
        ensures answers { OnOk result (IsAnswered self.new) }
        ensures latest { OnOk result (self.new.latest ≡ max self.old.latest now) }
        ensures heard { OnOk result
            (self.new.heard_at ≡ heard_after (is_open self.old.dialler.phase) (max self.old.latest now) input self.old.heard_at) }
        ensures trees { OnOk result (GoesOn (max self.old.latest now) input self.old self.new actions.new.items) }
        ensures credentials { OnOk result
            (papers_of self.new.credentials ≡ all_written (is_open self.new.dialler.phase) (papers_in input self.old)) }
        ensures broke { OnErr result (IsBroken self.old self.new) }
    {
        let now = self.latest.max(now);
        let heard_at = heard_moment(self.dialler.is_open(), now, &input, self.heard_at);
        actions.clear();
        self.go_on(now, input, actions)?;
        self.latest = now;
        self.heard_at = heard_at;
        Ok(())
    }

    /// Takes what has happened at a moment that is the latest. Nothing was said before.
    // A hint: where the input is known to be a moment, as in a tick, nothing is made of it if nothing is due.
    #[inline(always)]
    fn go_on(
        &mut self,
        now: u64,
        input: AgentInput<A>,
        actions: &mut Vec<Action<A>, A>,
    ) -> Result<(), FollowerStop>
        requires { actions.old.items ≡ [] }
        ensures comes { OnOk result (Comes now (moves_of (is_open self.new.dialler.phase) now input self.old) (trail_of self.old [])
            (trail_of self.new actions.new.items)) }
        ensures followed { OnOk result
            (AreFollowed now (view_of self.new.asker.follower.client) self.new.asker.follower.subjects.items) }
        ensures served { OnOk result (All (IsServed (view_of self.new.asker.follower.client)) self.new.asker.line.entries.items) }
        ensures limits { OnOk result (All (IsInTime now) self.new.asker.line.entries.items) }
        ensures closed { OnOk result
            ((view_of self.new.asker.follower.client).standing.state ≡ Closed → self.new.asker.line.entries.items ≡ []) }
        ensures renewed { OnOk result ((view_of self.new.asker.follower.client).standing.state ≢ Expired) }
        ensures dials { OnOk result ((view_of self.new.asker.follower.client).standing.state ≢ Closed
            → IsDecided now (trail_of self.new actions.new.items)) }
        ensures answers { OnOk result (has_come now (ends_of (trail_of self.new actions.new.items)) ≡ false) }
        ensures trees { OnOk result (GoesOn now input self.old self.new actions.new.items) }
        ensures credentials { OnOk result
            (papers_of self.new.credentials ≡ all_written (is_open self.new.dialler.phase) (papers_in input self.old)) }
        ensures broke { OnErr result (IsBroken self.old self.new) }
    {
        if self.rests_at(now, &input) {
            drop(input);
            return self.pass(now);
        }
        self.go_further(now, input, actions)
    }

    /// The same with the trees and the credentials, whether or not something is due.
    fn go_further(
        &mut self,
        now: u64,
        input: AgentInput<A>,
        actions: &mut Vec<Action<A>, A>,
    ) -> Result<(), FollowerStop>
        requires { actions.old.items ≡ [] }
        ensures comes { OnOk result (Comes now (moves_of (is_open self.new.dialler.phase) now input self.old) (trail_of self.old [])
            (trail_of self.new actions.new.items)) }
        ensures followed { OnOk result
            (AreFollowed now (view_of self.new.asker.follower.client) self.new.asker.follower.subjects.items) }
        ensures served { OnOk result (All (IsServed (view_of self.new.asker.follower.client)) self.new.asker.line.entries.items) }
        ensures limits { OnOk result (All (IsInTime now) self.new.asker.line.entries.items) }
        ensures closed { OnOk result
            ((view_of self.new.asker.follower.client).standing.state ≡ Closed → self.new.asker.line.entries.items ≡ []) }
        ensures renewed { OnOk result ((view_of self.new.asker.follower.client).standing.state ≢ Expired) }
        ensures dials { OnOk result ((view_of self.new.asker.follower.client).standing.state ≢ Closed
            → IsDecided now (trail_of self.new actions.new.items)) }
        ensures answers { OnOk result (has_come now (ends_of (trail_of self.new actions.new.items)) ≡ false) }
        ensures trees { OnOk result (GoesOn now input self.old self.new actions.new.items) }
        ensures credentials { OnOk result
            (papers_of self.new.credentials ≡ all_written (is_open self.new.dialler.phase) (papers_in input self.old)) }
        ensures broke { OnErr result (IsBroken self.old self.new) }
    {
        let mut trees = std::mem::replace(&mut self.trees, Trees::new(self.alloc));
        let mut credentials = std::mem::replace(
            &mut self.credentials,
            Credentials::new(self.alloc),
        );
        let judged = self.prepare(now, &input, &mut trees, &mut credentials, actions)?;
        let told = judged.as_slice();
        self.take(now, input, &mut credentials, told, actions)?;
        note_all(&mut trees, actions.as_slice());
        self.trees = trees;
        self.credentials = credentials;
        Ok(())
    }

    /// Takes what has happened, and does what is due then. The credentials are the agent's, which a step takes out.
    fn take(
        &mut self,
        now: u64,
        input: AgentInput<A>,
        credentials: &mut Credentials<A>,
        judged: &[(usize, i32)],
        actions: &mut Vec<Action<A>, A>,
    ) -> Result<(), FollowerStop>
        ensures comes { OnOk result (Acts now (given_of self.old.dialler now input
            ++ Presents judged.now (unwritten (is_open self.new.dialler.phase) (with_credential input (papers_of credentials.old))) ∷ [])
            (trail_of self.old actions.old.items) (trail_of self.new actions.new.items)) }
        ensures papers { OnOk result (papers_of credentials.new
            ≡ all_written (is_open self.new.dialler.phase) (with_credential input (papers_of credentials.old))) }
        ensures followed { OnOk result
            (AreFollowed now (view_of self.new.asker.follower.client) self.new.asker.follower.subjects.items) }
        ensures served { OnOk result (All (IsServed (view_of self.new.asker.follower.client)) self.new.asker.line.entries.items) }
        ensures limits { OnOk result (All (IsInTime now) self.new.asker.line.entries.items) }
        ensures closed { OnOk result
            ((view_of self.new.asker.follower.client).standing.state ≡ Closed → self.new.asker.line.entries.items ≡ []) }
        ensures renewed { OnOk result ((view_of self.new.asker.follower.client).standing.state ≢ Expired) }
        ensures dials { OnOk result ((view_of self.new.asker.follower.client).standing.state ≢ Closed
            → IsDecided now (trail_of self.new actions.new.items)) }
        ensures answers { OnOk result (has_come now (ends_of (trail_of self.new actions.new.items)) ≡ false) }
        ensures broke { OnErr result (IsBroken self.old self.new) }
    {
        self.apply_happening(now, input, credentials, actions)?;
        self.renew(actions)?;
        self.give_up(now, actions)?;
        self.send(now, actions)?;
        self.leave_if_late(now, actions)?;
        self.settle(now, credentials, judged, actions)?;
        Ok(())
    }

    /// Takes what has happened.
    fn apply_happening(
        &mut self,
        now: u64,
        input: AgentInput<A>,
        credentials: &mut Credentials<A>,
        actions: &mut Vec<Action<A>, A>,
    ) -> Result<(), FollowerStop>
        ensures comes { OnOk result (Acts now (given_of self.old.dialler now input) (trail_of self.old actions.old.items)
            (trail_of self.new actions.new.items)) }
        ensures papers { OnOk result (papers_of credentials.new ≡ with_credential input (papers_of credentials.old)) }
        ensures followed { OnOk result
            (AreFollowed now (view_of self.new.asker.follower.client) self.new.asker.follower.subjects.items) }
        ensures broke { OnErr result (IsBroken self.old self.new) }
    {
        match input {
            AgentInput::Opened => self.open(now, actions),
            AgentInput::Failed | AgentInput::Cut => self.end(now, actions),
            AgentInput::Bytes(bytes) => self.bytes(now, bytes, actions),
            AgentInput::Moment | AgentInput::FollowTree { .. } | AgentInput::UnfollowTree { .. } =>
                { self.hear_moment(now, actions) }
            AgentInput::Addresses {
                kept,
                added,
                is_listed,
            } => self.change_addresses(now, kept, added, is_listed, actions),
            AgentInput::Call {
                ticket,
                call,
                until,
            } => self.ask(now, ticket, call, until, actions),
            AgentInput::Credential(credential) => self.keep(now, credential, credentials, actions),
            AgentInput::Follow { ticket, side, path } => self.follow(
                now, ticket, side, path, actions,
            ),
            AgentInput::Unfollow { ticket } => self.unfollow(now, ticket, actions),
        }
    }

    /// The connection that was asked for is there, or another one, which is hung up.
    fn open(&mut self, now: u64, actions: &mut Vec<Action<A>, A>) -> Result<(), FollowerStop>
        ensures comes { OnOk result
            (Acts now (opened_at self.old.dialler.phase now) (trail_of self.old actions.old.items) (trail_of self.new actions.new.items)) }
        ensures followed { OnOk result
            (AreFollowed now (view_of self.new.asker.follower.client) self.new.asker.follower.subjects.items) }
        ensures broke { OnErr result (IsBroken self.old self.new) }
    {
        let timeout_ms = self.timeout_ms();
        if self.dialler.open(timeout_ms, now) {
            return self.step_client(now, zk_client::Input::Opened, actions);
        }
        push(actions, Action::HangUp)?;
        self.end(now, actions)
    }

    /// The attempt has failed, or the connection is over.
    fn end(&mut self, now: u64, actions: &mut Vec<Action<A>, A>) -> Result<(), FollowerStop>
        ensures comes { OnOk result (Acts now (over_at now) (trail_of self.old actions.old.items) (trail_of self.new actions.new.items)) }
        ensures followed { OnOk result
            (AreFollowed now (view_of self.new.asker.follower.client) self.new.asker.follower.subjects.items) }
        ensures broke { OnErr result (IsBroken self.old self.new) }
    {
        let timeout_ms = self.timeout_ms();
        self.dialler.end(timeout_ms, now);
        self.step_client(now, zk_client::Input::Cut, actions)
    }

    /// Bytes came. They are of no connection if there is none.
    fn bytes(
        &mut self,
        now: u64,
        bytes: Vec<u8, A>,
        actions: &mut Vec<Action<A>, A>,
    ) -> Result<(), FollowerStop>
        ensures comes { OnOk result (Acts now (bytes_at (is_open self.old.dialler.phase) now bytes.items)
            (trail_of self.old actions.old.items) (trail_of self.new actions.new.items)) }
        ensures followed { OnOk result
            (AreFollowed now (view_of self.new.asker.follower.client) self.new.asker.follower.subjects.items) }
        ensures broke { OnErr result (IsBroken self.old self.new) }
    {
        if self.dialler.is_open() {
            return self.step_client(now, zk_client::Input::Bytes(bytes), actions);
        }
        self.step_client(now, zk_client::Input::Now(now), actions)
    }

    /// Whether a session leaves its connection, or its attempt: it has one, and moves.
    fn is_leaving(&self, moves: bool) -> bool
        ensures { result ≡ (moves && not (is_waiting self.now.dialler.phase)) }
    {
        moves && !self.dialler.is_waiting()
    }

    /// Another list of addresses. A session that moves leaves its connection, or its attempt.
    fn change_addresses(
        &mut self,
        now: u64,
        kept: usize,
        added: usize,
        is_listed: bool,
        actions: &mut Vec<Action<A>, A>,
    ) -> Result<(), FollowerStop>
        ensures comes { OnOk result
            (Acts now (Addressed kept added is_listed ∷ left_at (leaves_with self.old.dialler kept added is_listed) now)
            (trail_of self.old actions.old.items) (trail_of self.new actions.new.items)) }
        ensures followed { OnOk result
            (AreFollowed now (view_of self.new.asker.follower.client) self.new.asker.follower.subjects.items) }
        ensures broke { OnErr result (IsBroken self.old self.new) }
    {
        let moves = self
            .dialler
            .change_addresses(self.alloc, kept, added, is_listed)?;
        if self.is_leaving(moves) {
            push(actions, Action::HangUp)?;
            return self.end(now, actions);
        }
        self.step_client(now, zk_client::Input::Now(now), actions)
    }

    /// A call is asked.
    fn ask(
        &mut self,
        now: u64,
        ticket: u64,
        call: Call<A>,
        until: Option<u64>,
        actions: &mut Vec<Action<A>, A>,
    ) -> Result<(), FollowerStop>
        ensures comes { OnOk result (Acts now (Asks ticket (call_view call) until ∷ Hears now (turns.Now now) ∷ [])
            (trail_of self.old actions.old.items) (trail_of self.new actions.new.items)) }
        ensures followed { OnOk result
            (AreFollowed now (view_of self.new.asker.follower.client) self.new.asker.follower.subjects.items) }
        ensures broke { OnErr result (IsBroken self.old self.new) }
    {
        self.asker.ask(ticket, call, until)?;
        self.hear_moment(now, actions)
    }

    /// A subject is followed.
    fn follow(
        &mut self,
        now: u64,
        ticket: u64,
        side: Side,
        path: Path<A>,
        actions: &mut Vec<Action<A>, A>,
    ) -> Result<(), FollowerStop>
        ensures comes { OnOk result (Acts now (Follows ticket side path ∷ Hears now (turns.Now now) ∷ [])
            (trail_of self.old actions.old.items) (trail_of self.new actions.new.items)) }
        ensures followed { OnOk result
            (AreFollowed now (view_of self.new.asker.follower.client) self.new.asker.follower.subjects.items) }
        ensures broke { OnErr result (IsBroken self.old self.new) }
    {
        self.asker.follow(ticket, side, path)?;
        self.step_client(now, zk_client::Input::Now(now), actions)
    }

    /// A subject is followed no more.
    fn unfollow(
        &mut self,
        now: u64,
        ticket: u64,
        actions: &mut Vec<Action<A>, A>,
    ) -> Result<(), FollowerStop>
        ensures comes { OnOk result (Acts now (Unfollows ticket ∷ Hears now (turns.Now now) ∷ []) (trail_of self.old actions.old.items)
            (trail_of self.new actions.new.items)) }
        ensures followed { OnOk result
            (AreFollowed now (view_of self.new.asker.follower.client) self.new.asker.follower.subjects.items) }
        ensures broke { OnErr result (IsBroken self.old self.new) }
    {
        self.asker.unfollow(ticket);
        self.step_client(now, zk_client::Input::Now(now), actions)
    }

    /// Another session begins.
    fn begin(&mut self, actions: &mut Vec<Action<A>, A>) -> Result<(), FollowerStop>
        requires { (view_of self.old.asker.follower.client).standing.state ≡ Expired }
        ensures view { OnOk result (view_of self.new.asker.follower.client
            ≡ view_at (renewed_start self.old.timeout_ms (view_of self.old.asker.follower.client)) []) }
        ensures subjects { OnOk result (self.new.asker.follower.subjects.items ≡ map due_again self.old.asker.follower.subjects.items) }
        ensures dialler { OnOk result (self.new.dialler ≡ record self.old.dialler { backoff = row_ended self.old.dialler.backoff }) }
        ensures timeout { self.new.timeout_ms ≡ self.old.timeout_ms }
        ensures waits { self.new.waits ≡ self.old.waits }
        ensures line { OnOk result (self.new.asker.line.entries.items ≡ []) }
        ensures told { OnOk result (told_by actions.new.items
            ≡ (told_by actions.old.items ++ endings ending.Expired self.old.asker.line.entries.items) ++ Begins ∷ []) }
        ensures followed { OnOk result
            ((now : ℕ) → AreFollowed now (view_of self.new.asker.follower.client) self.new.asker.follower.subjects.items) }
        ensures broke { OnErr result (IsBroken self.old self.new) }
    {
        self.asker.renew(self.timeout_ms, actions)?;
        self.dialler.answered();
        match push(actions, Action::Renewed) {
            Ok(()) => Ok(()),
            Err(_) => Err(FollowerStop::Memory),
        }
    }

    /// Whether the session has expired.
    fn is_expired(&self) -> bool
        ensures yes { result ≡ true → (view_of self.now.asker.follower.client).standing.state ≡ Expired }
        ensures no { result ≡ false → (view_of self.now.asker.follower.client).standing.state ≢ Expired }
    {
        matches!(self.state(), State::Expired)
    }

    /// After an expiry another session begins.
    fn renew(&mut self, actions: &mut Vec<Action<A>, A>) -> Result<(), FollowerStop>
        ensures comes { (now : ℕ) → OnOk result (Acts now [] (trail_of self.old actions.old.items) (trail_of self.new actions.new.items)) }
        ensures renewed { OnOk result ((view_of self.new.asker.follower.client).standing.state ≢ Expired) }
        ensures followed { (now : ℕ) → AreFollowed now (view_of self.old.asker.follower.client) self.old.asker.follower.subjects.items
            → OnOk result (AreFollowed now (view_of self.new.asker.follower.client) self.new.asker.follower.subjects.items) }
        ensures broke { OnErr result (IsBroken self.old self.new) }
    {
        if self.is_expired() {
            return self.begin(actions);
        }
        Ok(())
    }

    /// The calls wait no more whose limit has come; after a close none does.
    fn give_up(&mut self, now: u64, actions: &mut Vec<Action<A>, A>) -> Result<(), AllocError>
        ensures comes { OnOk result (Acts now [] (trail_of self.old actions.old.items) (trail_of self.new actions.new.items)) }
        ensures limits { OnOk result (All (IsInTime now) self.new.asker.line.entries.items) }
        ensures closed { (view_of self.old.asker.follower.client).standing.state ≡ Closed
            → OnOk result (self.new.asker.line.entries.items ≡ []) }
        ensures follower { self.new.asker.follower ≡ self.old.asker.follower }
    {
        if self.is_closed() {
            return self.asker.close(actions);
        }
        self.asker.give_up(now, actions)
    }

    /// Asks for a connection, or gives an attempt up, if its moment has come, and not after a close.
    pub(crate) fn dial(
        &mut self,
        now: u64,
        actions: &mut Vec<Action<A>, A>,
    ) -> Result<(), AllocError>
        ensures comes { OnOk result (Acts now [] (trail_of self.old actions.old.items) (trail_of self.new actions.new.items)) }
        ensures dials { (view_of self.new.asker.follower.client).standing.state ≢ Closed
            → OnOk result (IsDecided now (trail_of self.new actions.new.items)) }
        ensures open { is_open self.new.dialler.phase ≡ is_open self.old.dialler.phase }
        ensures asker { self.new.asker ≡ self.old.asker }
        ensures waits { self.new.waits ≡ self.old.waits }
    {
        if self.is_closed() {
            return Ok(());
        }
        let timeout_ms = self.timeout_ms();
        let due = self.dialler.due(timeout_ms, now);
        push_due(due, actions)
    }
}
