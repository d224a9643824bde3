//! Calls whose turn it is are handed to the client.

use crate::action::Action;
use crate::agent::Agent;
use crate::moments::is_connected;
use std::alloc::Allocator;
use zk_follow::FollowerStop;

impl<A: Allocator + Copy> Agent<A> {
    ghost use Rattle.std.specs.Prelude.{◌≡◌, ◌≢◌, ◌<◌, true, false, [], IfOk, OnErr, OnOk, All};
    ghost use Rattle.zk_session.specs.declared.states.State.{State};
    ghost use Rattle.zk_session.specs.declared.states.State.TheVariants.{Connected};
    ghost use Rattle.zk_session.specs.States.{is_final};
    ghost use Rattle.zk_client.specs.Clients.{view_of};
    ghost use Rattle.zk_follow.specs.Following.{AreFollowed};
    ghost use Rattle.zk_agent.specs.Agents.{trail_of, IsBroken};
    ghost use Rattle.zk_agent.specs.inner.Agents.{Acts, Sends};
    ghost use Rattle.zk_agent.specs.inner.Calls.{how_many_wait, IsDone};
    ghost use Rattle.zk_agent.specs.Calls.{IsInTime};

    /// Hands the call over whose turn it is, if a server has accepted the connection. Whether another one may be: a call was handed
    /// over, and the client has not said that it cannot be sent now.
    fn send_one(&mut self, now: u64, actions: &mut Vec<Action<A>, A>) -> Result<bool, FollowerStop>
        requires connected { (view_of self.old.asker.follower.client).standing.state ≡ Connected }
        requires followed { AreFollowed now (view_of self.old.asker.follower.client) self.old.asker.follower.subjects.items }
        ensures sends { IfOk result
            (λ goes_on. Sends now (trail_of self.old actions.old.items) (trail_of self.new actions.new.items) goes_on) }
        ensures followed { OnOk result
            (AreFollowed now (view_of self.new.asker.follower.client) self.new.asker.follower.subjects.items) }
        ensures broke { OnErr result (IsBroken self.old self.new) }
    {
        let Some(heard) = self.asker.hand_over(now, actions)? else {
            return Ok(false);
        };
        self.act_on(now, heard, actions)?;
        Ok(!heard.goes_back)
    }

    /// The same if it is not known that a server has.
    fn try_one(&mut self, now: u64, actions: &mut Vec<Action<A>, A>) -> Result<bool, FollowerStop>
        requires followed { AreFollowed now (view_of self.old.asker.follower.client) self.old.asker.follower.subjects.items }
        ensures sends { IfOk result
            (λ goes_on. Sends now (trail_of self.old actions.old.items) (trail_of self.new actions.new.items) goes_on) }
        ensures followed { OnOk result
            (AreFollowed now (view_of self.new.asker.follower.client) self.new.asker.follower.subjects.items) }
        ensures same { (view_of self.old.asker.follower.client).standing.state ≢ Connected → self.new.asker ≡ self.old.asker }
        ensures broke { OnErr result (IsBroken self.old self.new) }
    {
        if is_connected(self.state()) {
            return self.send_one(now, actions);
        }
        Ok(false)
    }

    /// Hands calls over, in the order of asking, as long as they can be. Before each, the subjects are read that are to be read.
    pub(crate) fn send(
        &mut self,
        now: u64,
        actions: &mut Vec<Action<A>, A>,
    ) -> Result<(), FollowerStop>
        requires followed { AreFollowed now (view_of self.old.asker.follower.client) self.old.asker.follower.subjects.items }
        ensures comes { OnOk result (Acts now [] (trail_of self.old actions.old.items) (trail_of self.new actions.new.items)) }
        ensures followed { OnOk result
            (AreFollowed now (view_of self.new.asker.follower.client) self.new.asker.follower.subjects.items) }
        ensures limits { All (IsInTime now) self.old.asker.line.entries.items
            → OnOk result (All (IsInTime now) self.new.asker.line.entries.items) }
        ensures done { OnOk result (IsDone (view_of self.new.asker.follower.client) self.new.asker.line.entries.items) }
        ensures same { (view_of self.old.asker.follower.client).standing.state ≢ Connected → self.new.asker ≡ self.old.asker }
        ensures ends { (state : State) → is_final state ≡ true → OnOk result ((view_of self.new.asker.follower.client).standing.state
            ≡ state → (view_of self.old.asker.follower.client).standing.state ≡ state) }
        ensures broke { OnErr result (IsBroken self.old self.new) }
    {
        let mut goes_on = true;
        while goes_on {
            goes_on = self.try_one(now, actions)?;
        }
        Ok(())
    }
}
