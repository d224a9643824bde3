//! An agent's credentials within a step.

use crate::action::Action;
use crate::agent::Agent;
use crate::answering::Answering;
use crate::credential::Credential;
use crate::credentials::Credentials;
use crate::input::AgentInput;
use crate::moments::is_connecting;
use std::alloc::{AllocError, Allocator};
use zk_follow::FollowerStop;

impl<A: Allocator + Copy> Agent<A> {
    ghost use Rattle.std.specs.Prelude.{◌≡◌, ◌≢◌, ◌++◌, ◌∷◌, [], IfOk, OnErr, OnOk, All};
    ghost use Rattle.zk_session.specs.declared.states.State.TheVariants.{Closed};
    ghost use Rattle.zk_turns.specs.Turns as turns;
    ghost use Rattle.zk_client.specs.Clients.{view_of};
    ghost use Rattle.zk_dialler.specs.Dialling.{is_open};
    ghost use Rattle.zk_follow.specs.Following.{AreFollowed};
    ghost use Rattle.zk_agent.specs.Agents.{trail_of, Hears, IsBroken, IsDecided, Presents};
    ghost use Rattle.zk_agent.specs.Credentials.{all_written, judging_of, papers_of, unwritten, with_judging};
    ghost use Rattle.zk_agent.specs.inner.Agents.{Acts};

    /// Notes which credentials these bytes answer, which the agent is handed next, and with which codes.
    pub(crate) fn judge(
        &self,
        input: &AgentInput<A>,
        credentials: &mut Credentials<A>,
    ) -> Result<Vec<(usize, i32), A>, AllocError>
        ensures judged { IfOk result (λ judged. judged.items
            ≡ (judging_of (is_open self.now.dialler.phase) (view_of self.now.asker.follower.client).standing.state self.now.waits.came
            input.now (papers_of credentials.old)).1.judged) }
        ensures papers { OnOk result (papers_of credentials.new
            ≡ with_judging (judging_of (is_open self.now.dialler.phase) (view_of self.now.asker.follower.client).standing.state
            self.now.waits.came input.now (papers_of credentials.old)) (papers_of credentials.old)) }
    {
        let mut judged = Vec::new(self.alloc);
        match input {
            AgentInput::Bytes(bytes) if self.dialler.is_open() => {
                let at = Answering {
                    place: self.waits.came,
                    is_first: is_connecting(self.state()),
                    last: credentials.last,
                };
                credentials.hear(at, bytes.as_slice(), &mut judged)?;
            }
            _ => {}
        }
        Ok(judged)
    }

    /// A credential is handed in.
    pub(crate) fn keep(
        &mut self,
        now: u64,
        credential: Credential<A>,
        credentials: &mut Credentials<A>,
        actions: &mut Vec<Action<A>, A>,
    ) -> Result<(), FollowerStop>
        ensures comes { OnOk result (Acts now (Hears now (turns.Now now) ∷ []) (trail_of self.old actions.old.items)
            (trail_of self.new actions.new.items)) }
        ensures followed { OnOk result
            (AreFollowed now (view_of self.new.asker.follower.client) self.new.asker.follower.subjects.items) }
        ensures broke { OnErr result (IsBroken self.old self.new) }
        ensures papers { OnOk result (papers_of credentials.new
            ≡ record (papers_of credentials.old) { frames = (papers_of credentials.old).frames ++ credential.frame.items ∷ [] }) }
    {
        credentials.add(credential)?;
        self.step_client(now, zk_client::Input::Now(now), actions)
    }

    /// Tells what there is to tell of credentials, and then asks for a connection, or gives an attempt up.
    pub(crate) fn settle(
        &mut self,
        now: u64,
        credentials: &mut Credentials<A>,
        judged: &[(usize, i32)],
        actions: &mut Vec<Action<A>, A>,
    ) -> Result<(), AllocError>
        ensures comes { OnOk result
            (Acts now (Presents judged.now (unwritten (is_open self.new.dialler.phase) (papers_of credentials.old)) ∷ [])
            (trail_of self.old actions.old.items) (trail_of self.new actions.new.items)) }
        ensures papers { OnOk result
            (papers_of credentials.new ≡ all_written (is_open self.new.dialler.phase) (papers_of credentials.old)) }
        ensures dials { (view_of self.new.asker.follower.client).standing.state ≢ Closed
            → OnOk result (IsDecided now (trail_of self.new actions.new.items)) }
        ensures asker { self.new.asker ≡ self.old.asker }
        ensures waits { self.new.waits ≡ self.old.waits }
    {
        let is_open = self.dialler.is_open();
        credentials.tell(self.alloc, is_open, judged, actions)?;
        self.dial(now, actions)
    }
}
