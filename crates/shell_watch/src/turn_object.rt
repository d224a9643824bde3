//! What a driver tells, as an object of JSON.

ghost use Rattle.std.specs.Prelude.{◌≡◌, ◌++◌, IfOk, OnOk, string_bytes};
ghost use Rattle.zk_client.specs.Clients.{view_of};
ghost use Rattle.zk_client.specs.FaultText.{fault_code, fault_words};
ghost use Rattle.zk_client.specs.Views.{fault_view};
ghost use Rattle.zk_agent.specs.Telling.{action_view};
ghost use Rattle.shell_watch.specs.Lines.{action_kind, action_members, address_members, code_members, fault_members, object_line, path_of};
ghost use Rattle.shell_watch.specs.Lines.{reason_members, reason_words, refused_kind, session_members, state_members, turn_kind};
ghost use Rattle.shell_watch.specs.Lines.{turn_members, why_members};

use crate::object::{begun, ended};
use crate::shown::Watched;
use crate::words::{code_words, path_of, reason_words, shows_refusal};
use json::Writer;
use script_replay::outputs::state_to_word;
use script_words::values::push_value;
use shell_words::objects::{put_count, put_number, put_text};
use std::alloc::{AllocError, Allocator};
use zk_client::{Client, Fault, State};
use zk_driver::{Action, Reason, Refusal, Turn};

/// That a read was refused, and nothing if it is not printed.
fn refused_kind<A: Allocator>(watched: &[Watched<A>], ticket: u64, why: Refusal) -> &'static str
    ensures { result.now ≡ refused_kind ticket watched.now why }
{
    if shows_refusal(watched, ticket, why) {
        "refused"
    } else {
        ""
    }
}

/// What a line tells of what the agent tells, and nothing if it is not printed.
fn action_kind<A: Allocator>(watched: &[Watched<A>], action: &Action<A>) -> &'static str
    ensures { result.now ≡ action_kind watched.now (action_view action.now) }
{
    match action {
        Action::State(_) => "state",
        Action::GivenUp(_) => "drop",
        Action::Renewed => "renewed",
        Action::Refused { ticket, why } => refused_kind(watched, *ticket, *why),
        _ => "",
    }
}

/// What a line tells of a turn, and nothing if it is not printed.
fn turn_kind<A: Allocator>(watched: &[Watched<A>], turn: &Turn<A>) -> &'static str
    ensures { result.now ≡ turn_kind watched.now turn.now }
{
    match turn {
        Turn::Told(action) => action_kind(watched, action),
        Turn::Dials => "dial",
        Turn::Failed(_) => "failed",
        Turn::Ended(_) => "ended",
        _ => "",
    }
}

/// Writes a fault of the client's own: its code, and why in words.
fn put_coded<A: Allocator + Copy>(
    writer: &mut Writer<A>,
    code: &str,
    why: &str,
) -> Result<(), AllocError>
    ensures { OnOk result
        ((writer.new.before ≡ writer.old.before) × (writer.new.tokens ≡ writer.old.tokens ++ fault_members code.now why.now)) }
{
    put_text(writer, "fault", code)?;
    put_text(writer, "reason", why)
}

/// Writes why a server refused a read.
fn put_code<A: Allocator + Copy>(writer: &mut Writer<A>, code: i32) -> Result<(), AllocError>
    ensures { OnOk result ((writer.new.before ≡ writer.old.before) × (writer.new.tokens ≡ writer.old.tokens ++ code_members code)) }
{
    put_number(writer, "code", code as i64)?;
    put_text(writer, "reason", code_words(code))
}

/// Writes why a read was refused.
fn put_why<A: Allocator + Copy>(writer: &mut Writer<A>, why: Refusal) -> Result<(), AllocError>
    ensures { OnOk result ((writer.new.before ≡ writer.old.before) × (writer.new.tokens ≡ writer.old.tokens ++ why_members why)) }
{
    match why {
        Refusal::Code(code) => put_code(writer, code),
        Refusal::TooManyWatches => put_coded(writer, "K5", "too many paths are watched"),
        Refusal::TooLarge => put_coded(writer, "K6", "the answer is too long"),
        Refusal::SessionClosed => put_coded(writer, "K3", "the session is being closed"),
    }
}

/// Writes the session's number, and the timeout that was granted.
fn put_session<A: Allocator + Copy>(
    writer: &mut Writer<A>,
    client: &Client<A>,
) -> Result<(), AllocError>
    ensures { OnOk result
        ((writer.new.before ≡ writer.old.before) × (writer.new.tokens ≡ writer.old.tokens ++ session_members (view_of client.now))) }
{
    put_number(writer, "session", client.saved().session)?;
    put_count(writer, "timeout", u64::from(client.timeout_ms()))
}

/// Writes the address, and the session.
fn put_server<A: Allocator + Copy>(
    writer: &mut Writer<A>,
    client: &Client<A>,
    at: &str,
) -> Result<(), AllocError>
    ensures { OnOk result ((writer.new.before ≡ writer.old.before)
        × (writer.new.tokens ≡ writer.old.tokens ++ (address_members at.now ++ session_members (view_of client.now)))) }
{
    put_text(writer, "address", at)?;
    put_session(writer, client)
}

/// Writes a state.
fn put_state<A: Allocator + Copy>(
    writer: &mut Writer<A>,
    client: &Client<A>,
    at: &str,
    state: State,
) -> Result<(), AllocError>
    ensures { OnOk result ((writer.new.before ≡ writer.old.before)
        × (writer.new.tokens ≡ writer.old.tokens ++ state_members at.now (view_of client.now) state)) }
{
    put_text(writer, "state", state_to_word(state))?;
    match state {
        State::Connected => put_server(writer, client, at),
        _ => Ok(()),
    }
}

/// The words of a fault.
fn fault_words<A: Allocator + Copy>(alloc: A, fault: &Fault) -> Result<String<A>, AllocError>
    ensures { IfOk result (λ text. string_bytes text ≡ fault_words (fault_view fault.now)) }
{
    let mut text = String::new(alloc);
    push_value(&mut text, alloc, fault)?;
    Ok(text)
}

/// Writes that the connection is given up, and why.
fn put_drop<A: Allocator + Copy>(
    writer: &mut Writer<A>,
    alloc: A,
    at: &str,
    fault: &Fault,
) -> Result<(), AllocError>
    ensures { OnOk result ((writer.new.before ≡ writer.old.before)
        × (writer.new.tokens ≡ writer.old.tokens
        ++ (address_members at.now ++ fault_members (fault_code (fault_view fault.now)) (fault_words (fault_view fault.now))))) }
{
    let why = fault_words(alloc, fault)?;
    put_text(writer, "address", at)?;
    put_coded(writer, fault.code(), why.as_str())
}

/// Writes what the agent tells.
fn put_action<A: Allocator + Copy>(
    writer: &mut Writer<A>,
    alloc: A,
    client: &Client<A>,
    watched: &[Watched<A>],
    at: &str,
    action: &Action<A>,
) -> Result<(), AllocError>
    ensures { OnOk result ((writer.new.before ≡ writer.old.before)
        × (writer.new.tokens ≡ writer.old.tokens ++ action_members watched.now at.now (view_of client.now) (action_view action.now))) }
{
    match action {
        Action::State(state) => put_state(writer, client, at, *state),
        Action::GivenUp(fault) => put_drop(writer, alloc, at, fault),
        Action::Refused { ticket, why } => {
            put_text(writer, "path", path_of(watched, *ticket))?;
            put_why(writer, *why)
        }
        _ => Ok(()),
    }
}

/// Writes the address, and why.
fn put_reason<A: Allocator + Copy>(
    writer: &mut Writer<A>,
    at: &str,
    why: Reason,
) -> Result<(), AllocError>
    ensures { OnOk result ((writer.new.before ≡ writer.old.before)
        × (writer.new.tokens ≡ writer.old.tokens ++ (address_members at.now ++ reason_members (reason_words why)))) }
{
    put_text(writer, "address", at)?;
    put_text(writer, "reason", reason_words(why))
}

/// Writes what a turn tells.
fn put_turn<A: Allocator + Copy>(
    writer: &mut Writer<A>,
    alloc: A,
    client: &Client<A>,
    watched: &[Watched<A>],
    at: &str,
    turn: &Turn<A>,
) -> Result<(), AllocError>
    ensures { OnOk result ((writer.new.before ≡ writer.old.before)
        × (writer.new.tokens ≡ writer.old.tokens ++ turn_members watched.now at.now (view_of client.now) turn.now)) }
{
    match turn {
        Turn::Told(action) => put_action(writer, alloc, client, watched, at, action),
        Turn::Dials => put_text(writer, "address", at),
        Turn::Failed(why) => put_reason(writer, at, *why),
        Turn::Ended(why) => put_reason(writer, at, *why),
        _ => Ok(()),
    }
}

/// The object of a turn, or none if it is not printed.
pub(crate) fn turn_object<A: Allocator + Copy>(
    alloc: A,
    ms: u64,
    client: &Client<A>,
    watched: &[Watched<A>],
    at: &str,
    turn: &Turn<A>,
) -> Result<String<A>, AllocError>
    ensures { IfOk result
        (λ text. string_bytes text
        ≡ object_line ms (turn_kind watched.now turn.now) (turn_members watched.now at.now (view_of client.now) turn.now)) }
{
    let kind = turn_kind(watched, turn);
    if kind.is_empty() {
        return Ok(String::new(alloc));
    }
    let mut writer = begun(alloc, kind, ms)?;
    put_turn(&mut writer, alloc, client, watched, at, turn)?;
    ended(writer)
}
