//! The beginning and the end of a connection.

ghost use Rattle.std.specs.Prelude.{◌≡◌, ℕ, ℤ, List, [], ◌∷◌, ◌++◌, OnOk, length};
ghost use Rattle.std.specs.List.{flat_map};
ghost use Rattle.zk_session.specs.declared.states.State.TheVariants.{Idle, Connected};
ghost use Rattle.zk_session.specs.Table as session;
ghost use Rattle.zk_session.specs.Table.{Closes};
ghost use Rattle.zk_conversation.specs.Questions.{Question};
ghost use Rattle.zk_conversation.specs.Pending.{Pending, Call_waits};
ghost use Rattle.zk_watches.specs.Lists.{no_lists};
ghost use Rattle.zk_cache.specs.Cache.{no_answers};
ghost use Rattle.zk_turns.specs.Turns.{Enters};
ghost use Rattle.zk_conversation.specs.declared.phase.Phase.TheVariants.{Closed};
ghost use Rattle.zk_turns.specs.Past.{Began, Lost, Dropped};
ghost use Rattle.zk_turns.specs.Rule.{IsOpen, next, says, loss};
ghost use Rattle.zk_client.specs.Views.{said, fault_view};
ghost use Rattle.zk_client.specs.inner.Seen.{view_with, while_pending, origin};
ghost use Rattle.zk_client.specs.inner.Sound.{CoreIsSound};

use crate::fault::Fault;
use crate::machine::{Core, say};
use crate::output::{Outcome, Output};
use std::alloc::{AllocError, Allocator};
use zk_conversation::{Connect, Conversation};
use zk_session::State;

impl<A: Allocator + Copy> Core<A> {
    /// A connection begins.
    pub(crate) fn begin(&mut self, outputs: &mut Vec<Output<A>, A>) -> Result<(), AllocError>
        requires sound { CoreIsSound self.old }
        requires idle { self.old.session.state ≡ Idle }
        ensures sound { OnOk result (CoreIsSound self.new) }
        ensures next { OnOk result ((held : List ℕ) → view_with [] self.new ≡ next (view_with held self.old) Began) }
        ensures says { OnOk result
            ((held : List ℕ) → said outputs.new.items ≡ said outputs.old.items ++ says (view_with held self.old) Began) }
        ensures origin { origin self.new ≡ origin self.old }
    {
        let asked = self.session.connect_fields();
        let connect = Connect {
            last_zxid_seen: asked.last_zxid_seen,
            time_out: asked.time_out,
            session_id: asked.session_id,
            password: asked.password,
        };
        let frame = self.conversation.open(&connect)?;
        self.session.opened();
        say(outputs, Output::Send(frame))?;
        say(outputs, Output::State(State::Connecting))
    }

    /// The connection is over. Each pending call is answered so.
    pub(crate) fn lose(&mut self, outputs: &mut Vec<Output<A>, A>) -> Result<(), AllocError>
        requires sound { CoreIsSound self.old }
        requires up { IsOpen self.old.session.state }
        ensures sound { OnOk result (CoreIsSound self.new) }
        ensures idle { OnOk result (self.new.session.state ≡ Idle) }
        ensures next { OnOk result ((held : List ℕ) → view_with [] self.new ≡ next (view_with held self.old) Lost) }
        ensures says { OnOk result
            ((held : List ℕ) → said outputs.new.items ≡ said outputs.old.items ++ says (view_with held self.old) Lost) }
        ensures origin { origin self.new ≡ origin self.old }
    {
        self.session.cut();
        self.conversation.cut();
        answer_lost(&mut self.conversation, outputs)?;
        say(outputs, Output::State(State::Idle))
    }

    /// The connection is given up.
    pub(crate) fn give_up(
        &mut self,
        fault: Fault,
        outputs: &mut Vec<Output<A>, A>,
    ) -> Result<(), AllocError>
        requires sound { CoreIsSound self.old }
        requires up { IsOpen self.old.session.state }
        ensures sound { OnOk result (CoreIsSound self.new) }
        ensures idle { OnOk result (self.new.session.state ≡ Idle) }
        ensures next { OnOk result ((held : List ℕ) → view_with [] self.new ≡ next (view_with held self.old) (Dropped (fault_view fault))) }
        ensures says { OnOk result ((held : List ℕ)
            → said outputs.new.items ≡ said outputs.old.items ++ says (view_with held self.old) (Dropped (fault_view fault))) }
        ensures origin { origin self.new ≡ origin self.old }
    {
        say(outputs, Output::Drop(fault))?;
        self.lose(outputs)
    }

    /// The connection is given up for the reply to this call, which is answered as the others are.
    pub(crate) fn give_up_reply(
        &mut self,
        ticket: u64,
        fault: Fault,
        outputs: &mut Vec<Output<A>, A>,
    ) -> Result<(), AllocError>
        requires sound { CoreIsSound self.old }
        requires up { IsOpen self.old.session.state }
        ensures sound { OnOk result (CoreIsSound self.new) }
        ensures next { OnOk result ((held : List ℕ) (pending : List Pending)
            → view_with [] self.new ≡ next (while_pending pending (view_with held self.old)) (Dropped (fault_view fault))) }
        ensures says { OnOk result ((held : List ℕ) (xid : ℤ) (question : Question) → said outputs.new.items ≡ said outputs.old.items
            ++ says (while_pending (record { xid = xid; waiting = Call_waits ticket question } ∷ self.old.conversation.pending)
            (view_with held self.old)) (Dropped (fault_view fault))) }
        ensures origin { origin self.new ≡ origin self.old }
    {
        say(outputs, Output::Drop(fault))?;
        let outcome = Outcome::ConnectionLoss;
        say(outputs, Output::Answer { ticket, outcome })?;
        self.lose(outputs)
    }

    /// The server has closed the session. Nothing is kept any more.
    pub(crate) fn close(&mut self, outputs: &mut Vec<Output<A>, A>) -> Result<(), AllocError>
        requires sound { CoreIsSound self.old }
        requires talks { self.old.session.state ≡ Connected }
        ensures sound { OnOk result (CoreIsSound self.new) }
        ensures session { OnOk result (self.new.session ≡ session.next Closes self.old.session) }
        ensures pending { OnOk result (self.new.conversation.pending ≡ []) }
        ensures xid { OnOk result (self.new.conversation.xid ≡ self.old.conversation.xid) }
        ensures lists { OnOk result (self.new.registry ≡ no_lists) }
        ensures answers { OnOk result (self.new.cache ≡ no_answers) }
        ensures halted { self.new.halted ≡ self.old.halted }
        ensures limits { self.new.limits ≡ self.old.limits }
        ensures says { OnOk result (said outputs.new.items ≡ said outputs.old.items ++ Enters State.Closed ∷ []) }
        ensures origin { origin self.new ≡ origin self.old }
    {
        self.session.closed();
        self.conversation.cut();
        forget_pending(&mut self.conversation);
        self.registry.clear();
        self.cache.clear();
        say(outputs, Output::State(State::Closed))
    }
}

/// Takes out what is left of a connection that the close of its session ended.
fn forget_pending<A: Allocator + Copy>(conversation: &mut Conversation<A>)
    requires over { conversation.old.phase ≡ Closed }
    ensures phase { conversation.new.phase ≡ Closed }
    ensures pending { conversation.new.pending ≡ [] }
    ensures xid { conversation.new.xid ≡ conversation.old.xid }
{
    while let Some(_ticket) = conversation.take_pending() {}
}

/// Answers each call that the connection left, in the order of asking, that it was lost.
fn answer_lost<A: Allocator + Copy>(
    conversation: &mut Conversation<A>,
    outputs: &mut Vec<Output<A>, A>,
) -> Result<(), AllocError>
    requires over { conversation.old.phase ≡ Closed }
    ensures phase { OnOk result (conversation.new.phase ≡ Closed) }
    ensures pending { OnOk result (conversation.new.pending ≡ []) }
    ensures xid { OnOk result (conversation.new.xid ≡ conversation.old.xid) }
    ensures says { OnOk result (said outputs.new.items ≡ said outputs.old.items ++ flat_map loss conversation.old.pending) }
{
    while let Some(ticket) = conversation.take_pending() {
        say(
            outputs,
            Output::Answer {
                ticket,
                outcome: Outcome::ConnectionLoss,
            },
        )?;
    }
    Ok(())
}
