//! Elections of servers.
//!
//! The upper half of a zxid counts the elections of servers. After one, servers may have taken back what one of them had acknowledged: so
//! what is kept of each subject is doubted, and read once more.

ghost use Rattle.std.specs.Prelude.{◌≡◌};
ghost use Rattle.zk_agent.specs.Agents.{rises};

use crate::action::Action;
use crate::agent::Agent;
use std::alloc::Allocator;
use zk_client::Input;
use zk_follow::FollowerStop;

/// The zxids of one epoch.
const EPOCH: u64 = 4_294_967_296;

/// Whether another epoch was seen than before, by the zxids that were seen last.
fn rises(was: i64, is: i64) -> bool
    ensures { result ≡ rises was is }
{
    let was = was.unsigned_abs();
    let is = is.unsigned_abs();
    0 < was && was / EPOCH < is / EPOCH
}

impl<A: Allocator + Copy> Agent<A> {
    ghost use Rattle.std.specs.Prelude.{◌≡◌, true, false, map, OnErr, OnOk};
    ghost use Rattle.zk_client.specs.Clients.{view_of};
    ghost use Rattle.zk_follow.specs.Following.{doubted, AreFollowed};
    ghost use Rattle.zk_agent.specs.Agents.{rises, trail_of, DoubtsWhere, IsBroken};

    /// The zxid that was seen last.
    pub(crate) fn last_zxid(&self) -> i64
        ensures { result ≡ (view_of self.now.asker.follower.client).saved.last }
    {
        self.asker.follower.client().last_zxid()
    }

    /// What is kept of each subject is doubted, and the client hears the moment, so that each is read.
    fn read_anew(&mut self, now: u64, actions: &mut Vec<Action<A>, A>) -> Result<(), FollowerStop>
        ensures doubts { OnOk result
            (DoubtsWhere true now (trail_of self.old actions.old.items) (trail_of self.new actions.new.items)) }
        ensures followed { OnOk result
            (AreFollowed now (view_of self.new.asker.follower.client) self.new.asker.follower.subjects.items) }
        ensures broke { OnErr result (IsBroken self.old self.new) }
    {
        self.asker.doubt_all();
        let _is_lost = self.step_client_once(now, Input::Now(now), actions)?;
        Ok(())
    }

    /// The same if another epoch was seen than that of this zxid.
    pub(crate) fn doubt_where_risen(
        &mut self,
        now: u64,
        was: i64,
        actions: &mut Vec<Action<A>, A>,
    ) -> Result<(), FollowerStop>
        ensures doubts { OnOk result (DoubtsWhere (rises was (view_of self.old.asker.follower.client).saved.last) now
            (trail_of self.old actions.old.items) (trail_of self.new actions.new.items)) }
        ensures followed { AreFollowed now (view_of self.old.asker.follower.client) self.old.asker.follower.subjects.items
            → OnOk result (AreFollowed now (view_of self.new.asker.follower.client) self.new.asker.follower.subjects.items) }
        ensures broke { OnErr result (IsBroken self.old self.new) }
    {
        if rises(was, self.last_zxid()) {
            return self.read_anew(now, actions);
        }
        Ok(())
    }
}
