//! A moment at which nothing is due.

ghost use Rattle.std.specs.Prelude.{◌≡◌};
ghost use Rattle.zk_agent.specs.Agents.{noted};

use crate::action::Action;
use crate::agent::Agent;
use crate::input::{AgentInput, is_moment};
use crate::moments::is_connected;
use std::alloc::Allocator;
use zk_client::{Input, State};
use zk_dialler::Dialler;
use zk_follow::FollowerStop;

/// Notes the state of the client: a connection that has lived for a third of the timeout ends a row of failures.
pub(crate) fn note_state<A: Allocator>(
    dialler: &mut Dialler<A>,
    state: State,
    timeout_ms: u32,
    now: u64,
)
    ensures { dialler.new ≡ noted timeout_ms now state dialler.old }
{
    if is_connected(state) {
        dialler.connected(timeout_ms, now);
    }
}

impl<A: Allocator + Copy> Agent<A> {
    ghost use Rattle.std.specs.Prelude.{◌≡◌, ◌∷◌, List, [], length, true, false, None, OnErr, OnOk};
    ghost use Rattle.zk_session.specs.declared.states.State.TheVariants.{Connected};
    ghost use Rattle.zk_turns.specs.Turns.{Now};
    ghost use Rattle.zk_turns.specs.Taken.{NothingIsDue};
    ghost use Rattle.zk_client.specs.Clients.{view_of};
    ghost use Rattle.zk_dialler.specs.Dialling.{has_come, is_open};
    ghost use Rattle.zk_follow.specs.Following.{ticked, AreFollowed, AreQuiet};
    ghost use Rattle.zk_trees.specs.Tending.{are_at_rest};
    ghost use Rattle.zk_calls.specs.Lines.{ended, next_call};
    ghost use Rattle.zk_calls.specs.declared.entry.Ending.TheVariants.{Late};
    ghost use Rattle.zk_agent.specs.Agents.{trail_of, Hears, IsBroken};
    ghost use Rattle.zk_agent.specs.Credentials.{papers_of};
    ghost use Rattle.zk_agent.specs.Waits.{ends_at, waited_of};
    ghost use Rattle.zk_agent.specs.inner.Agents.{Acts};

    /// Whether nothing happens but the moment, and it is known that nothing is due at it, on a connection that a server has accepted, and
    /// that nothing is left to be done there.
    pub(crate) fn rests_at(&self, now: u64, input: &AgentInput<A>) -> bool
        ensures moment { result ≡ true → input.now ≡ AgentInput.Moment }
        ensures connected { result ≡ true → (view_of self.now.asker.follower.client).standing.state ≡ Connected }
        ensures open { result ≡ true → is_open self.now.dialler.phase ≡ true }
        ensures due { result ≡ true → NothingIsDue (view_of self.now.asker.follower.client) now }
        ensures quiet { result ≡ true → AreQuiet (view_of self.now.asker.follower.client) self.now.asker.follower.subjects.items }
        ensures next { result ≡ true → next_call self.now.asker.line.entries.items ≡ None }
        ensures limits { result ≡ true → ended (Late now) self.now.asker.line.entries.items ≡ [] }
        ensures written { result ≡ true → (papers_of self.now.credentials).written ≡ length (papers_of self.now.credentials).frames }
        ensures trees { result ≡ true → are_at_rest now self.now.trees ≡ true }
        ensures answers { result ≡ true → has_come now
            (ends_at (view_of self.now.asker.follower.client).saved.session.timeout (waited_of self.now.waits)) ≡ false }
    {
        is_moment(input)
            && is_connected(self.state())
            && self.dialler.is_open()
            && self.asker.rests_at(now)
            && self.credentials.are_written()
            && self.trees.are_at_rest(now)
            && !self.is_late(now)
    }

    /// The client hears a moment at which nothing is due of it and of the subjects, of whom there is nothing to tell either.
    pub(crate) fn pass(&mut self, now: u64) -> Result<(), FollowerStop>
        requires due { NothingIsDue (view_of self.old.asker.follower.client) now }
        requires quiet { AreQuiet (view_of self.old.asker.follower.client) self.old.asker.follower.subjects.items }
        ensures comes { OnOk result ((said : List (Action A)) → Acts now (Hears now (Now now) ∷ []) (trail_of self.old said)
            (trail_of self.new said)) }
        ensures followed { OnOk result
            (AreFollowed now (view_of self.new.asker.follower.client) self.new.asker.follower.subjects.items) }
        ensures view { OnOk result (view_of self.new.asker.follower.client ≡ ticked now (view_of self.old.asker.follower.client)) }
        ensures line { OnOk result (self.new.asker.line ≡ self.old.asker.line) }
        ensures open { is_open self.new.dialler.phase ≡ is_open self.old.dialler.phase }
        ensures waits { self.new.waits ≡ self.old.waits }
        ensures trees { self.new.trees ≡ self.old.trees }
        ensures credentials { self.new.credentials ≡ self.old.credentials }
        ensures broke { OnErr result (IsBroken self.old self.new) }
    {
        self.asker.pass(now)?;
        let timeout_ms = self.timeout_ms();
        let state = self.state();
        note_state(&mut self.dialler, state, timeout_ms, now);
        Ok(())
    }

    /// The client hears the moment.
    pub(crate) fn hear_moment(
        &mut self,
        now: u64,
        actions: &mut Vec<Action<A>, A>,
    ) -> Result<(), FollowerStop>
        ensures comes { OnOk result
            (Acts now (Hears now (Now now) ∷ []) (trail_of self.old actions.old.items) (trail_of self.new actions.new.items)) }
        ensures followed { OnOk result
            (AreFollowed now (view_of self.new.asker.follower.client) self.new.asker.follower.subjects.items) }
        ensures broke { OnErr result (IsBroken self.old self.new) }
    {
        if self.asker.follower.is_quiet_at(now) {
            return self.pass(now);
        }
        self.step_client(now, Input::Now(now), actions)
    }
}
