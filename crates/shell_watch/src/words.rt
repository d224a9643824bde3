//! What a driver tells, in words.

ghost use Rattle.std.specs.Prelude.{◌≡◌, ◌==◌, ◌++◌, IfOk, OnOk, string_bytes};
ghost use Rattle.std.specs.List.{find, list_any};
ghost use Rattle.std.specs.Option.{option_map};
ghost use Rattle.zk_client.specs.Clients.{view_of};
ghost use Rattle.zk_client.specs.Views.{fault_view};
ghost use Rattle.zk_agent.specs.Telling.{action_view};
ghost use Rattle.shell_watch.specs.Lines.{action_words, code_words, connected_words, drop_text, path_of, reason_words, refusal_words};
ghost use Rattle.shell_watch.specs.Lines.{has_ticket, refused_words, shows_refusal, state_words, turn_line, turn_words, why_text};
ghost use Rattle.script_words.specs.Values.{spaced};

use crate::plan::Style;
use crate::shown::Watched;
use crate::stamp::line_at;
use crate::turn_object::turn_object;
use script_replay::faults::push_fault;
use script_replay::outputs::state_to_word;
use script_replay::words::push_spaced;
use script_words::values::push_word;
use script_words::words::text_to_word;
use std::alloc::{AllocError, Allocator};
use zk_client::{Client, Fault, State};
use zk_driver::{Action, Reason, Refusal, Turn};

/// A reason in words.
pub(crate) fn reason_words(why: Reason) -> &'static str
    ensures { result.now ≡ reason_words why }
{
    match why {
        Reason::EndOfStream => "end of stream",
        Reason::Refused => "connection refused",
        Reason::TimedOut => "timed out",
        Reason::Reset => "connection reset",
        Reason::Unreachable => "unreachable",
        Reason::NotFound => "host not found",
        Reason::Unwritten => "a write failed",
        Reason::Other => "another fault",
    }
}

/// What a server says with a code.
pub(crate) fn code_words(code: i32) -> &'static str
    ensures { result.now ≡ code_words code }
{
    match code {
        -4 => "the server has lost its connection",
        -102 => "the ACL does not admit it",
        -112 => "the session is over",
        -118 => "the session was taken up over another connection",
        -127 => "the server throttles",
        _ => "the server refuses it",
    }
}

/// The subject that has a ticket.
fn one_of<A: Allocator>(watched: &[Watched<A>], ticket: u64) -> Option<&Watched<A>>
    ensures { option_map (λ one. one.now) result ≡ find (λ one. one.ticket == ticket) watched.now }
{
    watched.iter().find(|one| one.ticket == ticket)
}

/// The path of the subject that has a ticket, and nothing if none has.
pub(crate) fn path_of<A: Allocator>(watched: &[Watched<A>], ticket: u64) -> &str
    ensures { result.now ≡ path_of watched.now ticket }
{
    match one_of(watched, ticket) {
        Some(one) => one.subject.path.as_str(),
        None => "",
    }
}

/// Whether a subject has a ticket.
fn has_ticket<A: Allocator>(watched: &[Watched<A>], ticket: u64) -> bool
    ensures { result ≡ has_ticket ticket watched.now }
{
    watched.iter().any(|one| one.ticket == ticket)
}

/// Whether it is printed that a read was refused: if a subject has the ticket, unless the watch itself is ending the session.
pub(crate) fn shows_refusal<A: Allocator>(watched: &[Watched<A>], ticket: u64, why: Refusal) -> bool
    ensures { result ≡ shows_refusal ticket watched.now why }
{
    match why {
        Refusal::SessionClosed => false,
        _ => has_ticket(watched, ticket),
    }
}

/// A name and the address.
fn at_words<A: Allocator>(alloc: A, name: &str, at: &str) -> Result<String<A>, AllocError>
    ensures { IfOk result (λ text. string_bytes text ≡ name.now ++ spaced at.now) }
{
    let mut text = String::from_str(alloc, name)?;
    push_spaced(&mut text, at)?;
    Ok(text)
}

/// A name, the address, and why.
fn why_words<A: Allocator>(
    alloc: A,
    name: &str,
    at: &str,
    why: Reason,
) -> Result<String<A>, AllocError>
    ensures { IfOk result (λ text. string_bytes text ≡ name.now ++ (spaced at.now ++ spaced (reason_words why))) }
{
    let mut text = at_words(alloc, name, at)?;
    push_spaced(&mut text, reason_words(why))?;
    Ok(text)
}

/// That a server has accepted the session: the address, the session's number, and the timeout that was granted, in milliseconds.
fn connected_words<A: Allocator + Copy>(
    alloc: A,
    client: &Client<A>,
    at: &str,
) -> Result<String<A>, AllocError>
    ensures { IfOk result (λ text. string_bytes text ≡ connected_words at.now (view_of client.now)) }
{
    let mut text = at_words(alloc, "state Connected", at)?;
    text.push_str(" session")?;
    push_word(&mut text, alloc, &client.saved().session)?;
    text.push_str(" timeout")?;
    push_word(&mut text, alloc, &client.timeout_ms())?;
    Ok(text)
}

/// A state.
fn state_words<A: Allocator + Copy>(
    alloc: A,
    client: &Client<A>,
    at: &str,
    state: State,
) -> Result<String<A>, AllocError>
    ensures { IfOk result (λ text. string_bytes text ≡ state_words at.now (view_of client.now) state) }
{
    match state {
        State::Connected => connected_words(alloc, client, at),
        other => at_words(alloc, "state", state_to_word(other)),
    }
}

/// That the connection is given up, and why: the code and its values, the address, and the words.
fn drop_words<A: Allocator + Copy>(
    alloc: A,
    at: &str,
    fault: &Fault,
) -> Result<String<A>, AllocError>
    ensures { IfOk result (λ text. string_bytes text ≡ drop_text at.now (fault_view fault.now)) }
{
    let mut text = String::from_str(alloc, "drop")?;
    push_fault(&mut text, alloc, fault)?;
    push_spaced(&mut text, at)?;
    push_word(&mut text, alloc, fault)?;
    Ok(text)
}

/// Adds why a read was refused.
fn push_refusal<A: Allocator + Copy>(
    text: &mut String<A>,
    alloc: A,
    why: Refusal,
) -> Result<(), AllocError>
    ensures { OnOk result (string_bytes text.new ≡ string_bytes text.old ++ why_text why) }
{
    match why {
        Refusal::Code(code) => {
            text.push_str(" refused code")?;
            push_word(text, alloc, &code)?;
            push_spaced(text, code_words(code))
        }
        Refusal::TooManyWatches => text.push_str(" refused K5 too many paths are watched"),
        Refusal::TooLarge => text.push_str(" refused K6 the answer is too long"),
        Refusal::SessionClosed => text.push_str(" refused K3 the session is being closed"),
    }
}

/// That a read of a path was refused, and why.
fn refusal_words<A: Allocator + Copy>(
    alloc: A,
    path: &str,
    why: Refusal,
) -> Result<String<A>, AllocError>
    ensures { IfOk result (λ text. string_bytes text ≡ refusal_words path.now why) }
{
    let mut text = text_to_word(alloc, path.as_bytes())?;
    push_refusal(&mut text, alloc, why)?;
    Ok(text)
}

/// The same of the subject that has a ticket, and nothing if it is not printed.
fn refused_words<A: Allocator + Copy>(
    alloc: A,
    watched: &[Watched<A>],
    ticket: u64,
    why: Refusal,
) -> Result<String<A>, AllocError>
    ensures { IfOk result (λ text. string_bytes text ≡ refused_words watched.now ticket why) }
{
    if shows_refusal(watched, ticket, why) {
        return refusal_words(alloc, path_of(watched, ticket), why);
    }
    Ok(String::new(alloc))
}

/// The words of what the agent tells, or none if it is not printed.
fn action_words<A: Allocator + Copy>(
    alloc: A,
    client: &Client<A>,
    watched: &[Watched<A>],
    at: &str,
    action: &Action<A>,
) -> Result<String<A>, AllocError>
    ensures { IfOk result (λ text. string_bytes text ≡ action_words watched.now at.now (view_of client.now) (action_view action.now)) }
{
    match action {
        Action::State(state) => state_words(alloc, client, at, *state),
        Action::GivenUp(fault) => drop_words(alloc, at, fault),
        Action::Renewed => String::from_str(alloc, "session new"),
        Action::Refused { ticket, why } => refused_words(alloc, watched, *ticket, *why),
        _ => Ok(String::new(alloc)),
    }
}

/// The words of a turn, or none if it is not printed.
fn turn_words<A: Allocator + Copy>(
    alloc: A,
    client: &Client<A>,
    watched: &[Watched<A>],
    at: &str,
    turn: &Turn<A>,
) -> Result<String<A>, AllocError>
    ensures { IfOk result (λ text. string_bytes text ≡ turn_words watched.now at.now (view_of client.now) turn.now) }
{
    match turn {
        Turn::Told(action) => action_words(alloc, client, watched, at, action),
        Turn::Dials => at_words(alloc, "dial", at),
        Turn::Failed(why) => why_words(alloc, "failed", at, *why),
        Turn::Ended(why) => why_words(alloc, "ended", at, *why),
        _ => Ok(String::new(alloc)),
    }
}

/// The line of a turn, or none if it is not printed.
pub(crate) fn turn_line<A: Allocator + Copy>(
    alloc: A,
    style: Style,
    ms: u64,
    client: &Client<A>,
    watched: &[Watched<A>],
    at: &str,
    turn: &Turn<A>,
) -> Result<String<A>, AllocError>
    ensures { IfOk result (λ text. string_bytes text ≡ turn_line style ms watched.now at.now (view_of client.now) turn.now) }
{
    match style {
        Style::Json => turn_object(alloc, ms, client, watched, at, turn),
        Style::Hex | Style::Text => {
            let words = turn_words(alloc, client, watched, at, turn)?;
            line_at(alloc, ms, words.as_str())
        }
    }
}
