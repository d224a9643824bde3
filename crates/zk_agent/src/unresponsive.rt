//! A server that does not answer is left, whatever else it sends.

use crate::action::Action;
use crate::agent::Agent;
use crate::moments::has_come;
use std::alloc::Allocator;
use zk_follow::FollowerStop;

impl<A: Allocator + Copy> Agent<A> {
    ghost use Rattle.std.specs.Prelude.{◌≡◌, true, false, [], OnErr, OnOk, All};
    ghost use Rattle.zk_session.specs.declared.states.State.{State};
    ghost use Rattle.zk_session.specs.States.{is_final};
    ghost use Rattle.zk_client.specs.Clients.{view_of};
    ghost use Rattle.zk_dialler.specs.Dialling.{has_come};
    ghost use Rattle.zk_follow.specs.Following.{AreFollowed};
    ghost use Rattle.zk_agent.specs.Agents.{ends_of, trail_of, IsBroken};
    ghost use Rattle.zk_agent.specs.inner.Agents.{LeavesIfLate};
    ghost use Rattle.zk_agent.specs.Waits.{ends_at, waited_of};

    /// Leaves the connection, and tells the client so. Nothing waits then.
    fn leave(&mut self, now: u64, actions: &mut Vec<Action<A>, A>) -> Result<(), FollowerStop>
        requires { has_come now (ends_of (trail_of self.old actions.old.items)) ≡ true }
        ensures leaves { OnOk result (LeavesIfLate now (trail_of self.old actions.old.items) (trail_of self.new actions.new.items)) }
        ensures followed { OnOk result
            (AreFollowed now (view_of self.new.asker.follower.client) self.new.asker.follower.subjects.items) }
        ensures broke { OnErr result (IsBroken self.old self.new) }
    {
        self.hang_up(now, actions)?;
        self.hear_cut(now, actions)?;
        self.waits.clear();
        Ok(())
    }

    /// Whether a call or a ping has waited for two thirds of the timeout.
    pub(crate) fn is_late(&self, now: u64) -> bool
        ensures { result
            ≡ has_come now (ends_at (view_of self.now.asker.follower.client).saved.session.timeout (waited_of self.now.waits)) }
    {
        let timeout_ms = self.timeout_ms();
        let moment = self.waits.ends_at(timeout_ms);
        has_come(now, moment)
    }

    /// Leaves a connection on which a call or a ping has waited for so long.
    #[inline(always)]
    pub(crate) fn leave_if_late(
        &mut self,
        now: u64,
        actions: &mut Vec<Action<A>, A>,
    ) -> Result<(), FollowerStop>
        ensures leaves { OnOk result (LeavesIfLate now (trail_of self.old actions.old.items) (trail_of self.new actions.new.items)) }
        ensures followed { AreFollowed now (view_of self.old.asker.follower.client) self.old.asker.follower.subjects.items
            → OnOk result (AreFollowed now (view_of self.new.asker.follower.client) self.new.asker.follower.subjects.items) }
        ensures broke { OnErr result (IsBroken self.old self.new) }
    {
        if self.is_late(now) {
            return self.leave(now, actions);
        }
        Ok(())
    }
}
