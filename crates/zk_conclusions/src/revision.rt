//! A number that rises where what a client shows may change.

ghost use Rattle.std.specs.Prelude.{◌≡◌, ◌≤◌};
ghost use Rattle.zk_client.specs.Views.{output_view, said};
ghost use Rattle.zk_conclusions.specs.Revisions.{has_change, is_change};

use std::alloc::Allocator;
use zk_client::{Outcome, Output};

/// Whether what is kept and good may change with an output: the reply to a call, a report, another state.
fn is_change<A: Allocator>(output: &Output<A>) -> bool
    ensures { result ≡ is_change (output_view output.now) }
{
    match output {
        Output::Answer { outcome, .. } => matches!(outcome, Outcome::Replied { .. }),
        Output::Report { .. } | Output::State(_) => true,
        Output::Send(_) | Output::Drop(_) => false,
    }
}

fn has_change<A: Allocator>(outputs: &[Output<A>]) -> bool
    ensures { result ≡ has_change (said outputs.now) }
{
    outputs.iter().any(|output| is_change(output))
}

/// A number that rises where what a client keeps and shows as good may change, and so its state and its session. While it is the same,
/// a [`Snapshot`](crate::Snapshot), a [`Subtree`](crate::Subtree) or [`Lacking`](crate::Lacking) of the client says the same again
/// (`same_number`, `same_conclusions` of [`laws`](crate::laws)), so a program asks again only where it differs. The last seen zxid may rise
/// meanwhile.
///
/// It is the program that notes what each step gave, and raises it where a step failed or another client stands in for this one.
#[derive(Clone, Copy)]
pub struct Revision {
    number: u64,
    ghost begun: { 1 ≤ number },
}

impl Revision {
    ghost use Rattle.std.specs.Prelude.{◌≡◌, ◌≤◌};
    ghost use Rattle.zk_client.specs.Views.{said};
    ghost use Rattle.zk_conclusions.specs.Revisions.{noted, raised};

    /// The first one, 1: a program that has asked nothing yet begins with 0.
    pub fn new() -> Revision
        ensures { result.number ≡ 1 }
    {
        Revision { number: 1 }
    }

    /// The number, from 1 on. It is at most 18,446,744,073,709,551,615, and there it stays.
    pub fn number(&self) -> u64
        ensures number { result ≡ self.now.number }
        ensures begun { 1 ≤ result }
    {
        self.number
    }

    /// Notes what a step of the client gave: the number rises by one exactly where a call had its reply, something was reported, or the
    /// state is another one.
    pub fn note<A: Allocator>(&mut self, outputs: &[Output<A>])
        ensures { self.new.number ≡ noted (said outputs.now) self.old.number }
    {
        if has_change(outputs) {
            self.raise();
        }
    }

    /// Raises the number by one: a step failed, so that the client has halted, or another client stands in for it.
    pub fn raise(&mut self)
        ensures { self.new.number ≡ raised self.old.number }
    {
        self.number = self.number.saturating_add(1);
    }
}
