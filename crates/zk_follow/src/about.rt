//! Which inputs and outputs may be about each subject.

ghost use Rattle.std.specs.Prelude.{◌≡◌, is_some};
ghost use Rattle.std.specs.List.{list_any};
ghost use Rattle.zk_conversation.specs.Questions.{question_of, watched_side};
ghost use Rattle.zk_conversation.specs.Views.{call_view};
ghost use Rattle.zk_client.specs.Views.{input_view, outcome_view, output_view, said};
ghost use Rattle.zk_follow.specs.inner.Owning.{asks_to_watch};
ghost use Rattle.zk_follow.specs.inner.Resting.{is_about_all, is_about_some, is_reply, may_show_any, tells_fields};

use std::alloc::Allocator;
use zk_client::{Call, CallResult, Input, Outcome, Output};

/// Whether a call is to leave a watch.
fn leaves_watch<A: Allocator>(call: &Call<A>) -> bool
    ensures { result ≡ is_some (watched_side (question_of (call_view call.now))) }
{
    matches!(
        call,
        Call::Exists { watch: true, .. }
            | Call::GetData { watch: true, .. }
            | Call::GetChildren { watch: true, .. }
    )
}

/// Whether an input is a call that is to leave a watch.
pub(crate) fn asks_to_watch<A: Allocator>(input: &Input<A>) -> bool
    ensures { result ≡ asks_to_watch (input_view input.now) }
{
    match input {
        Input::Call(_, call) => leaves_watch(call),
        _ => false,
    }
}

/// Whether an answer has the fields of a node and not its data: where the data are kept and good, they may be so no more.
fn tells_fields<A: Allocator>(outcome: &Outcome<A>) -> bool
    ensures { result ≡ tells_fields (outcome_view outcome.now) }
{
    matches!(
        outcome,
        Outcome::Replied {
            result: CallResult::Stat(_),
            ..
        }
    )
}

/// Whether a call was answered by its reply.
pub(crate) fn is_reply<A: Allocator>(outcome: &Outcome<A>) -> bool
    ensures { result ≡ is_reply (outcome_view outcome.now) }
{
    matches!(outcome, Outcome::Replied { .. })
}

/// Whether by an output what is kept of any path may have become good, where it is known whether a watch may be that of no subject.
fn may_show_any<A: Allocator>(is_foreign: bool, output: &Output<A>) -> bool
    ensures { result ≡ may_show_any is_foreign (output_view output.now) }
{
    match output {
        Output::Answer { outcome, .. } => is_foreign && is_reply(outcome),
        Output::State(_) => true,
        _ => false,
    }
}

/// Whether by one of these outputs it may have.
pub(crate) fn has_one_showing_any<A: Allocator>(is_foreign: bool, outputs: &[Output<A>]) -> bool
    ensures { result ≡ list_any (may_show_any is_foreign) (said outputs.now) }
{
    outputs
        .iter()
        .any(|output| may_show_any(is_foreign, output))
}

/// Whether an output may be about some subject: it is an answer, a report or another state.
fn is_about_some<A: Allocator>(output: &Output<A>) -> bool
    ensures { result ≡ is_about_some (output_view output.now) }
{
    matches!(
        output,
        Output::Answer { .. } | Output::Report { .. } | Output::State(_)
    )
}

/// Whether one of these outputs may be about some subject.
pub(crate) fn has_one_about_some<A: Allocator>(outputs: &[Output<A>]) -> bool
    ensures { result ≡ list_any is_about_some (said outputs.now) }
{
    outputs.iter().any(|output| is_about_some(output))
}

/// Whether an output may be about each subject, where it is known whether a watch may be that of none.
fn is_about_all<A: Allocator>(is_foreign: bool, output: &Output<A>) -> bool
    ensures { result ≡ is_about_all is_foreign (output_view output.now) }
{
    match output {
        Output::Answer { outcome, .. } => is_foreign && tells_fields(outcome),
        Output::State(_) => true,
        _ => false,
    }
}

/// Whether one of these outputs may be about each subject.
pub(crate) fn has_one_about_all<A: Allocator>(is_foreign: bool, outputs: &[Output<A>]) -> bool
    ensures { result ≡ list_any (is_about_all is_foreign) (said outputs.now) }
{
    outputs
        .iter()
        .any(|output| is_about_all(is_foreign, output))
}
