//! What outputs say of a connection.

ghost use Rattle.std.specs.Prelude.{◌≡◌, []};
ghost use Rattle.zk_records.specs.Codes.{code_number};
ghost use Rattle.zk_client.specs.Views.{output_view, said};
ghost use Rattle.zk_agent.specs.Waits.{sent_by};
ghost use Rattle.zk_agent.specs.Replies.{heard_in, is_back, is_lost, is_over, is_reply, loses_session};
ghost use Rattle.zk_agent.specs.inner.Replies.{heard_by};

use crate::sent::Sent;
use std::alloc::Allocator;
use zk_client::{CallResult, Code, Outcome, Output};

/// What outputs say of a connection and of calls.
#[derive(Clone, Copy)]
pub(crate) struct Heard {
    /// A row of failures ends with them.
    pub(crate) ends_row: bool,
    /// The connection is over with them.
    pub(crate) is_over: bool,
    /// The session is not the server's own.
    pub(crate) is_lost: bool,
    /// There is an answer with which a call may wait for its turn again.
    pub(crate) goes_back: bool,
    /// What is sent with them.
    pub(crate) sent: Sent,
}

/// Whether an output is the reply to a call.
fn is_reply<A: Allocator>(output: &Output<A>) -> bool
    ensures { result ≡ is_reply (output_view output.now) }
{
    matches!(
        output,
        Output::Answer {
            outcome: Outcome::Replied { .. },
            ..
        }
    )
}

/// Whether a server says with this code that the session is not its own: it has expired, or is at another server.
fn loses_session(code: Code) -> bool
    ensures { result ≡ loses_session (code_number code) }
{
    matches!(code.number(), -112 | -118)
}

/// Whether an output is a reply that says so.
fn is_lost<A: Allocator>(output: &Output<A>) -> bool
    ensures { result ≡ is_lost (output_view output.now) }
{
    match output {
        Output::Answer {
            outcome: Outcome::Replied {
                result: CallResult::Code(code),
                ..
            },
            ..
        } => loses_session(*code),
        _ => false,
    }
}

/// Whether the connection is over with an output.
fn is_over<A: Allocator>(output: &Output<A>) -> bool
    ensures { result ≡ is_over (output_view output.now) }
{
    output.ends_connection() || is_lost(output)
}

/// Whether an output is an answer with which a call may wait for its turn again.
fn is_back<A: Allocator>(output: &Output<A>) -> bool
    ensures { result ≡ is_back (output_view output.now) }
{
    match output {
        Output::Answer { outcome, .. } => matches!(
            outcome,
            Outcome::ConnectionLoss | Outcome::NotConnected | Outcome::TooManyPending
        ),
        _ => false,
    }
}

/// What is sent with an output too.
fn note_sent<A: Allocator>(sent: &mut Sent, output: &Output<A>)
    ensures { sent.new ≡ sent_by sent.old (output_view output.now) }
{
    match output {
        Output::Send(frame) => sent.send(frame.as_slice()),
        Output::State(state) => sent.enter(*state),
        _ => {}
    }
}

impl Heard {
    /// Nothing was said.
    fn new() -> Heard
        ensures { result ≡ heard_in [] }
    {
        Heard {
            ends_row: false,
            is_over: false,
            is_lost: false,
            goes_back: false,
            sent: Sent::new(false),
        }
    }

    /// One more output was said.
    fn note<A: Allocator>(&mut self, output: &Output<A>)
        ensures { self.new ≡ heard_by self.old (output_view output.now) }
    {
        self.is_lost |= is_lost(output);
        self.ends_row = (self.ends_row | is_reply(output)) & !self.is_lost;
        self.is_over |= is_over(output);
        self.goes_back |= is_back(output);
        note_sent(&mut self.sent, output);
    }
}

/// What the client says of its connection and of calls.
pub(crate) fn heard_in<A: Allocator>(outputs: &[Output<A>]) -> Heard
    ensures { result ≡ heard_in (said outputs.now) }
{
    let mut heard = Heard::new();
    for output in outputs {
        heard.note(output);
    }
    heard
}
