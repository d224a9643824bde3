//! The trees of an agent.

ghost use Rattle.std.specs.Prelude.{◌≡◌};
ghost use Rattle.zk_agent.specs.Trees.{noted_by, noted_in};

use crate::action::{Action, push_trees};
use crate::agent::Agent;
use crate::credentials::Credentials;
use crate::input::AgentInput;
use std::alloc::{AllocError, Allocator};
use zk_trees::Trees;

/// Notes what is said of a subject or of a path.
fn note<A: Allocator + Copy>(trees: &mut Trees<A>, action: &Action<A>)
    ensures all { trees.new.all.items ≡ noted_in trees.old.all.items action.now }
    ensures next { trees.new.next ≡ trees.old.next }
    ensures due { trees.new.due ≡ trees.old.due }
{
    match action {
        Action::Shown { ticket } => trees.note_shown(*ticket),
        Action::Report { path, .. } => trees.note_report(path.as_str()),
        _ => {}
    }
}

/// Notes what was said.
pub(crate) fn note_all<A: Allocator + Copy>(trees: &mut Trees<A>, said: &[Action<A>])
    ensures all { trees.new.all.items ≡ noted_by said.now trees.old.all.items }
    ensures next { trees.new.next ≡ trees.old.next }
    ensures due { trees.new.due ≡ trees.old.due }
{
    for action in said {
        note(trees, action);
    }
}

impl<A: Allocator + Copy> Agent<A> {
    ghost use Rattle.std.specs.Prelude.{◌≡◌, [], IfOk, OnOk};
    ghost use Rattle.zk_client.specs.Clients.{view_of};
    ghost use Rattle.zk_dialler.specs.Dialling.{is_open};
    ghost use Rattle.zk_agent.specs.Agents.{trail_of, Comes};
    ghost use Rattle.zk_agent.specs.Credentials.{judging_of, papers_of, with_judging};
    ghost use Rattle.zk_agent.specs.Trees.{Grows};

    /// Tends the trees that are due, and then follows a tree, or follows one no more, if the input asks for that. These are the agent's,
    /// which a step takes out.
    pub(crate) fn grow(
        &mut self,
        now: u64,
        input: &AgentInput<A>,
        trees: &mut Trees<A>,
        actions: &mut Vec<Action<A>, A>,
    ) -> Result<(), AllocError>
        ensures grows { OnOk result (Grows now input.now trees.old trees.new
            (trail_of self.old actions.old.items) (trail_of self.new actions.new.items)) }
        ensures comes { OnOk result (Comes now [] (trail_of self.old actions.old.items) (trail_of self.new actions.new.items)) }
        ensures dialler { self.new.dialler ≡ self.old.dialler }
        ensures client { self.new.asker.follower.client ≡ self.old.asker.follower.client }
        ensures timeout { self.new.timeout_ms ≡ self.old.timeout_ms }
    {
        let tended = self.asker.tend(now, trees)?;
        push_trees(tended, actions)?;
        let altered = self.asker.alter(input, trees)?;
        push_trees(altered, actions)
    }

    /// Comes before a step takes its input: notes which credentials it answers, with which codes, and grows trees.
    pub(crate) fn prepare(
        &mut self,
        now: u64,
        input: &AgentInput<A>,
        trees: &mut Trees<A>,
        credentials: &mut Credentials<A>,
        actions: &mut Vec<Action<A>, A>,
    ) -> Result<Vec<(usize, i32), A>, AllocError>
        ensures judged { IfOk result (λ judged. judged.items
            ≡ (judging_of (is_open self.old.dialler.phase) (view_of self.old.asker.follower.client).standing.state self.old.waits.came
            input.now (papers_of credentials.old)).1.judged) }
        ensures papers { OnOk result (papers_of credentials.new
            ≡ with_judging (judging_of (is_open self.old.dialler.phase) (view_of self.old.asker.follower.client).standing.state
            self.old.waits.came input.now (papers_of credentials.old)) (papers_of credentials.old)) }
        ensures grows { OnOk result (Grows now input.now trees.old trees.new
            (trail_of self.old actions.old.items) (trail_of self.new actions.new.items)) }
        ensures comes { OnOk result (Comes now [] (trail_of self.old actions.old.items) (trail_of self.new actions.new.items)) }
        ensures dialler { self.new.dialler ≡ self.old.dialler }
        ensures client { self.new.asker.follower.client ≡ self.old.asker.follower.client }
    {
        let judged = self.judge(input, credentials)?;
        self.grow(now, input, trees, actions)?;
        Ok(judged)
    }
}
