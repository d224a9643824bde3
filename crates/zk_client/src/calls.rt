//! A call of a caller.

ghost use Rattle.std.specs.Prelude.{◌≡◌, ◌<◌, ◌≤◌, ◌+◌, ℕ, List, [], ◌∷◌, ◌++◌, OnOk, MatchOption, Option, Some, None, pos, length};
ghost use Rattle.std.specs.Prelude.{FitsSigned};
ghost use Rattle.std.specs.Int.{w32};
ghost use Rattle.zk_nodes.specs.declared.side.Side.{Side as A_side};
ghost use Rattle.zk_conversation.specs.Calls.{call_payload};
ghost use Rattle.zk_conversation.specs.Pending.{calls_pending, watches_pending};
ghost use Rattle.zk_conversation.specs.Questions.{question_of, watched_side};
ghost use Rattle.zk_conversation.specs.Views.{call_view};
ghost use Rattle.zk_session.specs.declared.states.State.TheVariants.{Connected};
ghost use Rattle.zk_watches.specs.Lists.{count_of};
ghost use Rattle.zk_turns.specs.Taken.{refusal};
ghost use Rattle.zk_turns.specs.Turns.{IsAskable};
ghost use Rattle.zk_turns.specs.Rule.{after_all, says_all};
ghost use Rattle.zk_client.specs.Views.{said, outcome_view};
ghost use Rattle.zk_client.specs.inner.Seen.{view_with, origin};
ghost use Rattle.zk_client.specs.inner.Sound.{CoreIsSound};
ghost use Rattle.zk_client.specs.inner.Steps.{IsSendable, calls};

use crate::machine::{Core, say};
use crate::output::{Outcome, Output};
use std::alloc::{AllocError, Allocator};
use zk_conversation::Call;
use zk_limits::{MOST_PATHS, MOST_PENDING};
use zk_records::Side;
use zk_session::State;

/// The side on which a call is to leave a watch.
fn side_of<A: Allocator + Copy>(call: &Call<A>) -> Option<Side>
    ensures { result ≡ watched_side (question_of (call_view call.now)) }
{
    match call {
        Call::Exists { watch: true, .. } => Some(Side::Data),
        Call::GetData { watch: true, .. } => Some(Side::Data),
        Call::GetChildren { watch: true, .. } => Some(Side::Child),
        _ => None,
    }
}

/// Says of a version what its type makes sure of. It is called for its clause, and gives the version as it was.
fn known_of_version(version: i32) -> i32
    ensures range { FitsSigned w32 version }
    ensures same { result ≡ version }
{
    version
}

/// Says of the texts and numbers of a call what their types make sure of. It is called for its clauses; the number, the length of the path,
/// is of no use.
pub(crate) fn known_of_call<A: Allocator + Copy>(call: &Call<A>) -> usize
    ensures asked { IsAskable (call_view call.now) }
{
    match call {
        Call::Exists { path, .. } => path.as_str().len(),
        Call::GetData { path, .. } => path.as_str().len(),
        Call::GetChildren { path, .. } => path.as_str().len(),
        Call::SetData { path, version, .. } => {
            known_of_version(*version);
            path.as_str().len()
        }
        Call::Create { path, .. } => path.as_str().len(),
        Call::Delete { path, version } => {
            known_of_version(*version);
            path.as_str().len()
        }
        Call::Close => 0,
        Call::Raw { .. } => 0,
    }
}

impl<A: Allocator + Copy> Core<A> {
    /// How many paths of a side are watched or are to be.
    fn watched(&self, side: Side) -> usize
        ensures { result ≡ count_of self.now.registry side + watches_pending side self.now.conversation.pending }
    {
        let pending = self.conversation.pending();
        match side {
            Side::Data => self.registry.len(side) + pending.on_data as usize,
            Side::Child => self.registry.len(side) + pending.on_child as usize,
        }
    }

    /// Why a call is not sent: the first that applies.
    fn refusal(&self, call: &Call<A>) -> Option<Outcome<A>>
        ensures { (held : List ℕ) → MatchOption result
            (IsSendable (view_with held self.now) (call_view call.now) × (refusal (view_with held self.now) (call_view call.now) ≡ None))
            (λ why. refusal (view_with held self.now) (call_view call.now) ≡ Some (outcome_view why)) }
    {
        match self.session.state() {
            State::Expired => Some(Outcome::SessionExpired),
            State::Closed => Some(Outcome::SessionClosed),
            State::Connected => self.refusal_when_connected(call),
            State::Idle | State::Connecting => Some(Outcome::NotConnected),
        }
    }

    fn refusal_when_connected(&self, call: &Call<A>) -> Option<Outcome<A>>
        requires { self.now.session.state ≡ Connected }
        ensures { (held : List ℕ) → MatchOption result
            (IsSendable (view_with held self.now) (call_view call.now) × (refusal (view_with held self.now) (call_view call.now) ≡ None))
            (λ why. refusal (view_with held self.now) (call_view call.now) ≡ Some (outcome_view why)) }
    {
        let pending = self.conversation.pending();
        if pending.close {
            return Some(Outcome::SessionClosed);
        }
        if pending.calls >= MOST_PENDING {
            return Some(Outcome::TooManyPending);
        }
        if let Some(side) = side_of(call) {
            if self.watched(side) >= MOST_PATHS {
                return Some(Outcome::TooManyWatches);
            }
        }
        if call.payload_length() > self.limits.outgoing {
            return Some(Outcome::TooLarge);
        }
        None
    }

    /// A caller asks. A call that is refused changes nothing.
    pub(crate) fn ask(
        &mut self,
        ticket: u64,
        call: Call<A>,
        outputs: &mut Vec<Output<A>, A>,
    ) -> Result<(), AllocError>
        requires sound { CoreIsSound self.old }
        ensures sound { OnOk result (CoreIsSound self.new) }
        ensures next { OnOk result ((held : List ℕ) → view_with held self.new
            ≡ after_all (view_with held self.old) (calls ticket (call_view call) (refusal (view_with held self.old) (call_view call)))) }
        ensures says { OnOk result ((held : List ℕ) → said outputs.new.items ≡ said outputs.old.items
            ++ says_all (view_with held self.old) (calls ticket (call_view call) (refusal (view_with held self.old) (call_view call)))) }
        ensures origin { origin self.new ≡ origin self.old }
    {
        if let Some(outcome) = self.refusal(&call) {
            drop(call);
            return say(outputs, Output::Answer { ticket, outcome });
        }
        let asked = self.conversation.send(ticket, call)?;
        self.session.sent();
        say(outputs, Output::Send(asked.frame))
    }
}
