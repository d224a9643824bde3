//! What an agent makes of what its client says.

ghost use Rattle.std.specs.Prelude.{◌≡◌};
ghost use Rattle.zk_client.specs.Views.{input_view};
ghost use Rattle.zk_agent.specs.Waits.{heard_input, waited_of};

use crate::action::{Action, push};
use crate::agent::Agent;
use crate::idle::note_state;
use crate::replies::Heard;
use crate::waits::Waits;
use std::alloc::{AllocError, Allocator};
use zk_client::Input;
use zk_follow::FollowerStop;

/// Notes the answers that come with what the client is told.
fn note_answers<A: Allocator + Copy>(waits: &mut Waits<A>, input: &Input<A>)
    ensures { waited_of waits.new ≡ heard_input (waited_of waits.old) (input_view input.now) }
{
    if let Input::Bytes(bytes) = input {
        waits.read_bytes(bytes.as_slice());
    }
}

impl<A: Allocator + Copy> Agent<A> {
    ghost use Rattle.std.specs.Prelude.{◌≡◌, ◌++◌, ◌∷◌, ◌&&◌, ◌<◌, true, false, [], IfOk, OnErr, OnOk, All};
    ghost use Rattle.zk_session.specs.declared.states.State.TheVariants.{Connected};
    ghost use Rattle.zk_client.specs.Clients.{view_of};
    ghost use Rattle.zk_turns.specs.Turns.{Cut};
    ghost use Rattle.zk_client.specs.Views.{input_view};
    ghost use Rattle.zk_dialler.specs.Dialling.{is_open, Ends};
    ghost use Rattle.zk_follow.specs.Following.{AreFollowed};
    ghost use Rattle.zk_agent.specs.Agents.{noted, row_after, trail_of, Hears, HearsSo, IsBroken, LeavesWhere, LetsGo};
    ghost use Rattle.zk_agent.specs.inner.Agents.{Acts, MayTake};
    ghost use Rattle.zk_agent.specs.inner.Calls.{how_many_wait, IsDone};
    ghost use Rattle.zk_agent.specs.Calls.{IsInTime};
    ghost use Rattle.zk_agent.specs.Telling.{told_by, HangsUp};
    ghost use Rattle.zk_agent.specs.Waits.{waited_after, waited_of};

    /// Lets the connection go.
    pub(crate) fn hang_up(
        &mut self,
        now: u64,
        actions: &mut Vec<Action<A>, A>,
    ) -> Result<(), AllocError>
        ensures ends { OnOk result
            (Ends (view_of self.old.asker.follower.client).saved.session.timeout now self.old.dialler self.new.dialler) }
        ensures told { OnOk result (told_by actions.new.items ≡ told_by actions.old.items ++ HangsUp ∷ []) }
        ensures timeout { self.new.timeout_ms ≡ self.old.timeout_ms }
        ensures asker { self.new.asker ≡ self.old.asker }
        ensures waits { self.new.waits ≡ self.old.waits }
    {
        let timeout_ms = self.timeout_ms();
        self.dialler.end(timeout_ms, now);
        push(actions, Action::HangUp)
    }

    /// Whether there is a connection, and it is over.
    fn is_left(&self, is_over: bool) -> bool
        ensures { result ≡ (is_over && is_open self.now.dialler.phase) }
    {
        is_over && self.dialler.is_open()
    }

    /// Lets a connection go that is over.
    fn let_go(
        &mut self,
        is_over: bool,
        now: u64,
        actions: &mut Vec<Action<A>, A>,
    ) -> Result<(), AllocError>
        ensures goes { OnOk result (LetsGo is_over (view_of self.old.asker.follower.client).saved.session.timeout now self.old.dialler
            self.new.dialler (told_by actions.old.items) (told_by actions.new.items)) }
        ensures timeout { self.new.timeout_ms ≡ self.old.timeout_ms }
        ensures asker { self.new.asker ≡ self.old.asker }
        ensures waits { self.new.waits ≡ self.old.waits }
    {
        if self.is_left(is_over) {
            return self.hang_up(now, actions);
        }
        Ok(())
    }

    /// A reply ends a row of failures.
    fn note_replies(&mut self, ends_row: bool)
        ensures dialler { self.new.dialler ≡ row_after ends_row self.old.dialler }
        ensures timeout { self.new.timeout_ms ≡ self.old.timeout_ms }
        ensures asker { self.new.asker ≡ self.old.asker }
        ensures waits { self.new.waits ≡ self.old.waits }
    {
        if ends_row {
            self.dialler.answered();
        }
    }

    /// So does a connection that has lived for a third of the timeout.
    fn note_state(&mut self, now: u64)
        ensures dialler { self.new.dialler ≡ noted (view_of self.old.asker.follower.client).saved.session.timeout now
            (view_of self.old.asker.follower.client).standing.state self.old.dialler }
        ensures timeout { self.new.timeout_ms ≡ self.old.timeout_ms }
        ensures asker { self.new.asker ≡ self.old.asker }
        ensures waits { self.new.waits ≡ self.old.waits }
    {
        let timeout_ms = self.timeout_ms();
        let state = self.state();
        note_state(&mut self.dialler, state, timeout_ms, now);
    }

    /// Does what the client's outputs ask for: notes what ends a row of failures, lets a connection go that is over, and notes what waits
    /// for its answer.
    pub(crate) fn act_on(
        &mut self,
        now: u64,
        heard: Heard,
        actions: &mut Vec<Action<A>, A>,
    ) -> Result<(), AllocError>
        ensures goes { OnOk result (LetsGo heard.is_over (view_of self.old.asker.follower.client).saved.session.timeout now
            (noted (view_of self.old.asker.follower.client).saved.session.timeout now
            (view_of self.old.asker.follower.client).standing.state (row_after heard.ends_row self.old.dialler)) self.new.dialler
            (told_by actions.old.items) (told_by actions.new.items)) }
        ensures timeout { self.new.timeout_ms ≡ self.old.timeout_ms }
        ensures asker { self.new.asker ≡ self.old.asker }
        ensures waits { OnOk result (waited_of self.new.waits ≡ waited_after now heard.sent (waited_of self.old.waits)) }
    {
        self.note_replies(heard.ends_row);
        self.note_state(now);
        self.let_go(heard.is_over, now, actions)?;
        self.waits.send(now, heard.sent)?;
        Ok(())
    }

    /// Hands the client an input, and does what it says. Whether a server says that the session is not its own: the connection is hung up
    /// then, and the client is to be told.
    pub(crate) fn step_client_once(
        &mut self,
        now: u64,
        input: Input<A>,
        actions: &mut Vec<Action<A>, A>,
    ) -> Result<bool, FollowerStop>
        requires { MayTake (input_view input) (is_open self.old.dialler.phase) }
        ensures hears { IfOk result (λ is_lost. (hears : HearsSo now (input_view input) (trail_of self.old actions.old.items)
            (trail_of self.new actions.new.items)) × (hears.heard.is_lost ≡ is_lost)) }
        ensures followed { OnOk result
            (AreFollowed now (view_of self.new.asker.follower.client) self.new.asker.follower.subjects.items) }
        ensures broke { OnErr result (IsBroken self.old self.new) }
    {
        note_answers(&mut self.waits, &input);
        let heard = self.asker.step(now, input, actions)?;
        self.act_on(now, heard, actions)?;
        Ok(heard.is_lost)
    }

    /// The connection was hung up: the client is told that it is over.
    pub(crate) fn hear_cut(
        &mut self,
        now: u64,
        actions: &mut Vec<Action<A>, A>,
    ) -> Result<(), FollowerStop>
        ensures hears { OnOk result (HearsSo now Cut (trail_of self.old actions.old.items) (trail_of self.new actions.new.items)) }
        ensures followed { OnOk result
            (AreFollowed now (view_of self.new.asker.follower.client) self.new.asker.follower.subjects.items) }
        ensures broke { OnErr result (IsBroken self.old self.new) }
    {
        let _is_lost = self.step_client_once(now, Input::Cut, actions)?;
        Ok(())
    }

    /// If a server says that the session is not its own, the client is told that the connection is over.
    fn leave_where_lost(
        &mut self,
        now: u64,
        is_lost: bool,
        actions: &mut Vec<Action<A>, A>,
    ) -> Result<(), FollowerStop>
        ensures leaves { OnOk result (LeavesWhere is_lost now (trail_of self.old actions.old.items) (trail_of self.new actions.new.items)) }
        ensures followed { AreFollowed now (view_of self.old.asker.follower.client) self.old.asker.follower.subjects.items
            → OnOk result (AreFollowed now (view_of self.new.asker.follower.client) self.new.asker.follower.subjects.items) }
        ensures broke { OnErr result (IsBroken self.old self.new) }
    {
        if is_lost {
            return self.hear_cut(now, actions);
        }
        Ok(())
    }

    /// Hands the client an input, and does what it says. If another epoch is seen then, what is kept of the subjects is doubted.
    pub(crate) fn step_client(
        &mut self,
        now: u64,
        input: Input<A>,
        actions: &mut Vec<Action<A>, A>,
    ) -> Result<(), FollowerStop>
        requires { MayTake (input_view input) (is_open self.old.dialler.phase) }
        ensures comes { OnOk result
            (Acts now (Hears now (input_view input) ∷ []) (trail_of self.old actions.old.items) (trail_of self.new actions.new.items)) }
        ensures followed { OnOk result
            (AreFollowed now (view_of self.new.asker.follower.client) self.new.asker.follower.subjects.items) }
        ensures broke { OnErr result (IsBroken self.old self.new) }
    {
        let was = self.last_zxid();
        let is_lost = self.step_client_once(now, input, actions)?;
        self.leave_where_lost(now, is_lost, actions)?;
        self.doubt_where_risen(now, was, actions)
    }
}
