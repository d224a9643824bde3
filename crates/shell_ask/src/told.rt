//! What is told of a call that is not done, and how it ends.

ghost use Rattle.std.specs.Prelude.{◌≡◌, ◌++◌, IfOk, OnOk, string_bytes};
ghost use Rattle.zk_records.specs.Codes.{code_number};
ghost use Rattle.zk_conversation.specs.Views.{call_view, code_result};
ghost use Rattle.zk_client.specs.Views.{outcome_view};
ghost use Rattle.shell_ask.specs.inner.Asking.{came_view};
ghost use Rattle.shell_ask.specs.Printing.{code_words, end_of, fault_line, is_read, is_refused, late_told, outcome_end, outcome_told};
ghost use Rattle.shell_ask.specs.Printing.{refusal_words, result_told, told};

use crate::came::Came;
use crate::end::CallEnd;
use script_words::values::push_value;
use std::alloc::{AllocError, Allocator};
use zk_client::{Call, CallResult, Code, Outcome};

/// What a code of a server means.
fn code_words(code: Code) -> &'static str
    ensures { result.now ≡ code_words code }
{
    match code {
        Code::ConnectionLoss => "the server has lost its connection",
        Code::Unimplemented => "the server does not know the request",
        Code::BadArguments => "the path, the flags or the data are refused",
        Code::NoNode => "no node",
        Code::NoAuth => "the ACL does not admit it",
        Code::BadVersion => "the node has another version",
        Code::NoChildrenForEphemerals => "the parent is ephemeral",
        Code::NodeExists => "the node is there",
        Code::NotEmpty => "the node has children",
        Code::SessionExpired => "the session is over",
        Code::InvalidAcl => "the open ACL is refused",
        Code::SessionMoved => "the session was taken up over another connection",
        Code::Other(_) => "the server refuses it",
    }
}

/// Why a server refused a call, by the number of its code.
fn refusal_words<A: Allocator + Copy>(alloc: A, number: i32) -> Result<String<A>, AllocError>
    ensures { IfOk result (λ words. string_bytes words ≡ refusal_words number) }
{
    let mut words = String::from_str(alloc, code_words(Code::new(number)))?;
    words.push_str(" (")?;
    push_value(&mut words, alloc, &number)?;
    words.push_str(")")?;
    Ok(words)
}

/// A line of what a call has met, the name of its node, and why.
pub(crate) fn fault_line<A: Allocator + Copy>(
    alloc: A,
    what: &str,
    name: &str,
    why: &str,
) -> Result<String<A>, AllocError>
    ensures { IfOk result (λ line. string_bytes line ≡ fault_line what.now name.now why.now) }
{
    let mut line = String::from_str(alloc, what)?;
    line.push_str(name)?;
    line.push_str(": ")?;
    line.push_str(why)?;
    line.push_str("\n")?;
    Ok(line)
}

/// What is told of a call that its server refused.
fn refusal<A: Allocator + Copy>(alloc: A, name: &str, code: Code) -> Result<String<A>, AllocError>
    ensures { IfOk result (λ text. string_bytes text ≡ result_told name.now (code_result (code_number code))) }
{
    if code.is_no_node() {
        let mut text = String::from_str(alloc, "no node: ")?;
        text.push_str(name)?;
        text.push_str("\n")?;
        return Ok(text);
    }
    let why = refusal_words(alloc, code.number())?;
    fault_line(alloc, "refused: ", name, why.as_str())
}

/// Whether the client itself refused a call.
fn is_refused<A: Allocator>(outcome: &Outcome<A>) -> bool
    ensures { result ≡ is_refused (outcome_view outcome.now) }
{
    matches!(
        outcome,
        Outcome::TooManyWatches | Outcome::TooLarge | Outcome::TooManyPending
    )
}

/// What is told of the answer to a call.
fn outcome_told<A: Allocator + Copy>(
    alloc: A,
    name: &str,
    outcome: &Outcome<A>,
) -> Result<String<A>, AllocError>
    ensures { IfOk result (λ text. string_bytes text ≡ outcome_told name.now (outcome_view outcome.now)) }
{
    match outcome {
        Outcome::Replied {
            zxid: _,
            result: CallResult::Code(code),
        } => refusal(alloc, name, *code),
        Outcome::Replied { .. } => Ok(String::new(alloc)),
        _ => {
            let what = if is_refused(outcome) {
                "refused: "
            } else {
                "no answer: "
            };
            let why = outcome.to_string(alloc)?;
            fault_line(alloc, what, name, why.as_str())
        }
    }
}

/// Whether a call changes nothing, whatever comes of it.
pub(crate) fn is_read<A: Allocator>(call: &Call<A>) -> bool
    ensures { result ≡ is_read (call_view call.now) }
{
    matches!(
        call,
        Call::Exists { .. } | Call::GetData { .. } | Call::GetChildren { .. }
    )
}

/// What a call met whose time is over, and why. A read changes nothing, whether it was sent or not.
fn late_words(is_read: bool, was_sent: bool, was_accepted: bool) -> (&'static str, &'static str)
    ensures { (result.0.now, result.1.now) ≡ late_told is_read was_sent was_accepted }
{
    match (is_read, was_sent, was_accepted) {
        (_, _, false) => ("not connected: ", "no server has answered in time"),
        (true, _, true) => ("no answer: ", "its time is over"),
        (false, true, true) => (
            "no answer: ",
            "its time is over, and it may or may not have happened",
        ),
        (false, false, true) => ("no answer: ", "its time is over, and it was not sent"),
    }
}

/// What is told of what came of a call, which may be a read.
pub(crate) fn told<A: Allocator + Copy>(
    alloc: A,
    is_read: bool,
    name: &str,
    came: &Came<A>,
) -> Result<String<A>, AllocError>
    ensures { IfOk result (λ text. string_bytes text ≡ told is_read name.now (came_view came.now)) }
{
    match came {
        Came::Answered(outcome) => outcome_told(alloc, name, outcome),
        Came::Late {
            was_sent,
            was_accepted,
        } => {
            let (what, why) = late_words(is_read, *was_sent, *was_accepted);
            fault_line(alloc, what, name, why)
        }
    }
}

/// How a call ends that is answered so.
fn outcome_end<A: Allocator>(outcome: &Outcome<A>) -> CallEnd
    ensures { result ≡ outcome_end (outcome_view outcome.now) }
{
    match outcome {
        Outcome::Replied {
            zxid: _,
            result: CallResult::Code(code),
        } => {
            if code.is_no_node() {
                CallEnd::NoNode
            } else {
                CallEnd::Refused
            }
        }
        Outcome::Replied { .. } => CallEnd::Done,
        _ if is_refused(outcome) => CallEnd::Refused,
        _ => CallEnd::Unanswered,
    }
}

/// How a call ends of which this came.
pub(crate) fn end_of<A: Allocator>(came: &Came<A>) -> CallEnd
    ensures { result ≡ end_of (came_view came.now) }
{
    match came {
        Came::Answered(outcome) => outcome_end(outcome),
        Came::Late {
            was_accepted: true,
            ..
        } => CallEnd::Unanswered,
        Came::Late {
            was_accepted: false,
            ..
        } => CallEnd::Unconnected,
    }
}
