//! What a client says, as printed lines.

ghost use Rattle.std.specs.Prelude.{◌≡◌, ◌++◌, ◌∷◌, ℕ, List, [], Some, OnOk, IfOk, map, string_bytes};
ghost use Rattle.zk_client.specs.Views.{fault_view, outcome_view, output_view, said};
ghost use Rattle.zk_turns.specs.Turns.{Answer, Drop, Enters, Report, Send};
ghost use Rattle.script_replay.specs.Shown.{event_word, plain_line, side_word, state_word, TellsAll, TellsOutput};

use crate::faults::push_fault;
use crate::results::push_outcome;
use crate::words::push_spaced;
use script_words::lines::push_line;
use script_words::values::{push_name, push_word};
use script_words::words::bytes_to_word;
use std::alloc::{AllocError, Allocator};
use zk_client::{Fault, Outcome, Output};
use zk_records::{Event, Side};
use zk_session::State;

/// The word for a side.
pub fn side_to_word(side: Side) -> &'static str
    ensures { result.now ≡ side_word side }
{
    match side {
        Side::Data => "data",
        Side::Child => "child",
    }
}

/// The word for an event.
fn event_to_word(event: Event) -> &'static str
    ensures { result.now ≡ event_word event }
{
    match event {
        Event::Created => "Created",
        Event::Deleted => "Deleted",
        Event::DataChanged => "DataChanged",
        Event::ChildrenChanged => "ChildrenChanged",
    }
}

/// The word for a state.
pub fn state_to_word(state: State) -> &'static str
    ensures { result.now ≡ state_word state }
{
    match state {
        State::Idle => "Idle",
        State::Connecting => "Connecting",
        State::Connected => "Connected",
        State::Expired => "Expired",
        State::Closed => "Closed",
    }
}

/// Adds the line of a frame for the server.
fn push_send<A: Allocator + Copy>(
    text: &mut String<A>,
    alloc: A,
    bytes: &[u8],
) -> Result<(), AllocError>
    ensures { OnOk result (string_bytes text.new ≡ string_bytes text.old ++ plain_line (Send bytes.now)) }
{
    let word = bytes_to_word(alloc, bytes)?;
    push_line(text, "send", word.as_str())
}

/// Adds the line of an answer.
fn push_answer<A: Allocator + Copy>(
    text: &mut String<A>,
    alloc: A,
    ticket: &u64,
    outcome: &Outcome<A>,
) -> Result<(), AllocError>
    ensures { OnOk result ((told : List ℕ) × TellsOutput (Answer ticket.now (outcome_view outcome.now)) told
        × (string_bytes text.new ≡ string_bytes text.old ++ told)) }
{
    text.push_str("answer")?;
    push_word(text, alloc, ticket)?;
    text.push_str(" ")?;
    push_outcome(text, alloc, outcome)?;
    text.push_str("\n")
}

/// Adds the line of a report.
fn push_report<A: Allocator + Copy>(
    text: &mut String<A>,
    alloc: A,
    path: &str,
    side: Side,
    event: Event,
) -> Result<(), AllocError>
    ensures { OnOk result (string_bytes text.new ≡ string_bytes text.old ++ plain_line (Report path.now side event)) }
{
    text.push_str("report")?;
    push_spaced(text, side_to_word(side))?;
    push_spaced(text, event_to_word(event))?;
    push_name(text, alloc, path.as_bytes())?;
    text.push_str("\n")
}

/// Adds the line of a state.
fn push_state<A: Allocator + Copy>(text: &mut String<A>, state: State) -> Result<(), AllocError>
    ensures { OnOk result (string_bytes text.new ≡ string_bytes text.old ++ plain_line (Enters state)) }
{
    push_line(text, "state", state_to_word(state))
}

/// Adds the line of a connection that is given up.
fn push_drop<A: Allocator + Copy>(
    text: &mut String<A>,
    alloc: A,
    fault: &Fault,
) -> Result<(), AllocError>
    ensures { OnOk result (string_bytes text.new ≡ string_bytes text.old ++ plain_line (Drop (fault_view fault.now))) }
{
    text.push_str("drop")?;
    push_fault(text, alloc, fault)?;
    text.push_str("\n")
}

/// Adds the line of an output.
pub fn push_output<A: Allocator + Copy>(
    text: &mut String<A>,
    alloc: A,
    output: &Output<A>,
) -> Result<(), AllocError>
    ensures { OnOk result
        ((told : List ℕ) × TellsOutput (output_view output.now) told × (string_bytes text.new ≡ string_bytes text.old ++ told)) }
{
    match output {
        Output::Send(bytes) => push_send(text, alloc, bytes.as_slice()),
        Output::Answer { ticket, outcome } => push_answer(text, alloc, ticket, outcome),
        Output::Report { path, side, event } => {
            push_report(text, alloc, path.as_str(), *side, *event)
        }
        Output::State(state) => push_state(text, *state),
        Output::Drop(fault) => push_drop(text, alloc, fault),
    }
}

/// The lines of outputs, in order.
pub fn outputs_text<A: Allocator + Copy>(
    alloc: A,
    outputs: &[Output<A>],
) -> Result<String<A>, AllocError>
    ensures { IfOk result (λ text. TellsAll (said outputs.now) (string_bytes text)) }
{
    let mut text = String::new(alloc);
    for output in outputs {
        push_output(&mut text, alloc, output)?;
    }
    Ok(text)
}
