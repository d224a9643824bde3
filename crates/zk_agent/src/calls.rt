//! What becomes of the calls of a program.

ghost use Rattle.std.specs.Prelude.{◌≡◌, ◌++◌, ◌∷◌, [], map, OnOk, Some};
ghost use Rattle.zk_client.specs.Views.{outcome_view, output_view, said};
ghost use Rattle.zk_calls.specs.Lines.{answered, left};
ghost use Rattle.zk_agent.specs.Calls.{answers, closings, endings, hears, hears_all, tells, tells_all};
ghost use Rattle.zk_agent.specs.Overlong.{answer_of, too_long_in, with_too_long};
ghost use Rattle.zk_agent.specs.Telling.{action_view, closed_told, ended_told, told_by, Says};

use crate::action::{Action, push};
use std::alloc::{AllocError, Allocator};
use std::collections::VecDeque;
use zk_calls::{Ended, Ending, Line};
use zk_client::{Outcome, Output};

/// What is told of a call that waits no more.
fn action_of<A: Allocator>(ending: Ending, one: Ended) -> Action<A>
    ensures { action_view result ≡ ended_told ending one }
{
    let Ended { ticket, was_sent } = one;
    match ending {
        Ending::Late(_) => Action::TimedOut { ticket, was_sent },
        Ending::Expired => Action::Answer {
            ticket,
            outcome: Outcome::SessionExpired,
        },
        Ending::Lost | Ending::LostOf(_) => Action::Answer {
            ticket,
            outcome: Outcome::ConnectionLoss,
        },
    }
}

/// Adds what is told of calls that wait no more, in order.
fn push_ended<A: Allocator>(
    ending: Ending,
    all: &[Ended],
    actions: &mut Vec<Action<A>, A>,
) -> Result<(), AllocError>
    ensures { OnOk result (told_by actions.new.items ≡ told_by actions.old.items ++ map (ended_told ending) all.now) }
{
    for one in all {
        push(actions, action_of(ending, *one))?;
    }
    Ok(())
}

/// These calls of the line wait no more, and their askers are told so.
pub(crate) fn end_calls<A: Allocator + Copy>(
    line: &mut Line<A>,
    ending: Ending,
    actions: &mut Vec<Action<A>, A>,
) -> Result<(), AllocError>
    ensures line { OnOk result (line.new.entries.items ≡ left ending line.old.entries.items) }
    ensures told { OnOk result (told_by actions.new.items ≡ told_by actions.old.items ++ endings ending line.old.entries.items) }
{
    let all = line.end(ending)?;
    push_ended(ending, all.as_slice(), actions)
}

/// Adds what is told of calls that wait after a close, in order.
fn push_closed<A: Allocator>(
    all: &[Ended],
    actions: &mut Vec<Action<A>, A>,
) -> Result<(), AllocError>
    ensures { OnOk result (told_by actions.new.items ≡ told_by actions.old.items ++ map closed_told all.now) }
{
    for one in all {
        let ticket = one.ticket;
        let outcome = Outcome::SessionClosed;
        push(actions, Action::Answer { ticket, outcome })?;
    }
    Ok(())
}

/// Each call of the line is answered that the session is closed.
pub(crate) fn close_calls<A: Allocator + Copy>(
    line: &mut Line<A>,
    actions: &mut Vec<Action<A>, A>,
) -> Result<(), AllocError>
    ensures line { OnOk result (line.new.entries.items ≡ []) }
    ensures told { OnOk result (told_by actions.new.items ≡ told_by actions.old.items ++ closings line.old.entries.items) }
{
    let all = line.end(Ending::Expired)?;
    push_closed(all.as_slice(), actions)
}

/// The client answers a call of this ticket.
fn push_answer<A: Allocator + Copy>(
    line: &mut Line<A>,
    ticket: u64,
    outcome: Outcome<A>,
    actions: &mut Vec<Action<A>, A>,
) -> Result<(), AllocError>
    ensures line { OnOk result (line.new.entries.items ≡ answered ticket (outcome_view outcome) line.old.entries.items) }
    ensures told { OnOk result
        (told_by actions.new.items ≡ told_by actions.old.items ++ answers ticket (outcome_view outcome) line.old.entries.items) }
{
    match line.answer(ticket, outcome) {
        Some(outcome) => push(actions, Action::Answer { ticket, outcome }),
        None => Ok(()),
    }
}

/// Adds what a program is told of an output.
#[inline(always)]
fn push_output<A: Allocator + Copy>(
    line: &mut Line<A>,
    output: Output<A>,
    actions: &mut Vec<Action<A>, A>,
) -> Result<(), AllocError>
    ensures line { OnOk result (line.new.entries.items ≡ hears line.old.entries.items (output_view output)) }
    ensures told { OnOk result
        (told_by actions.new.items ≡ told_by actions.old.items ++ tells line.old.entries.items (output_view output)) }
{
    match output {
        Output::Send(bytes) => push(actions, Action::Send(bytes)),
        Output::Answer { ticket, outcome } => {
            push_answer(line, ticket, outcome, actions)?;
            end_calls(line, Ending::LostOf(ticket), actions)
        }
        Output::Report { path, side, event } => push(actions, Action::Report { path, side, event }),
        Output::State(state) => {
            end_calls(line, Ending::Lost, actions)?;
            push(actions, Action::State(state))
        }
        Output::Drop(fault) => push(actions, Action::GivenUp(fault)),
    }
}

/// The call of this ticket, whose answer is too long, is answered so if it is a read.
fn push_one<A: Allocator + Copy>(
    line: &mut Line<A>,
    ticket: u64,
    actions: &mut Vec<Action<A>, A>,
) -> Result<(), AllocError>
    ensures line { OnOk result
        (line.new.entries.items ≡ hears_all line.old.entries.items (answer_of line.old.entries.items (Some ticket))) }
    ensures told { OnOk result (told_by actions.new.items
        ≡ told_by actions.old.items ++ tells_all line.old.entries.items (answer_of line.old.entries.items (Some ticket))) }
{
    if line.is_asked_again(ticket) {
        let outcome = Outcome::TooLarge;
        return push_output(line, Output::Answer { ticket, outcome }, actions);
    }
    Ok(())
}

/// The same, if there is such a call.
fn push_too_long<A: Allocator + Copy>(
    line: &mut Line<A>,
    too_long: Option<u64>,
    actions: &mut Vec<Action<A>, A>,
) -> Result<(), AllocError>
    ensures line { OnOk result (line.new.entries.items ≡ hears_all line.old.entries.items (answer_of line.old.entries.items too_long)) }
    ensures told { OnOk result (told_by actions.new.items
        ≡ told_by actions.old.items ++ tells_all line.old.entries.items (answer_of line.old.entries.items too_long)) }
{
    match too_long {
        Some(ticket) => push_one(line, ticket, actions),
        None => Ok(()),
    }
}

/// Adds what a program is told of what the client says, in order. The line hears the answers. The room of the outputs is given back.
fn push_outputs<A: Allocator + Copy>(
    line: &mut Line<A>,
    outputs: Vec<Output<A>, A>,
    actions: &mut Vec<Action<A>, A>,
) -> Result<Vec<Output<A>, A>, AllocError>
    ensures line { OnOk result (line.new.entries.items ≡ hears_all line.old.entries.items (said outputs.items)) }
    ensures told { OnOk result
        (told_by actions.new.items ≡ told_by actions.old.items ++ tells_all line.old.entries.items (said outputs.items)) }
{
    let mut left = VecDeque::from_vec(outputs);
    while let Some(output) = left.pop_front() {
        push_output(line, output, actions)?;
    }
    Ok(left.into_vec())
}

/// The same, ahead of which that call is answered whose answer is too long.
pub(crate) fn push_all<A: Allocator + Copy>(
    line: &mut Line<A>,
    outputs: Vec<Output<A>, A>,
    too_long: Option<u64>,
    actions: &mut Vec<Action<A>, A>,
) -> Result<Vec<Output<A>, A>, AllocError>
    requires { too_long ≡ too_long_in (said outputs.items) }
    ensures line { OnOk result
        (line.new.entries.items ≡ hears_all line.old.entries.items (with_too_long line.old.entries.items (said outputs.items))) }
    ensures told { OnOk result (told_by actions.new.items
        ≡ told_by actions.old.items ++ tells_all line.old.entries.items (with_too_long line.old.entries.items (said outputs.items))) }
{
    push_too_long(line, too_long, actions)?;
    push_outputs(line, outputs, actions)
}
