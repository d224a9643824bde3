//! A client, driven line by line.

ghost use Rattle.std.specs.Prelude.{◌≡◌, [], IfOk, IfErr, string_bytes};
ghost use Rattle.zk_turns.specs.View.{view_at};
ghost use Rattle.zk_client.specs.Clients.{view_of};
ghost use Rattle.zk_client.specs.Views.{input_view};
ghost use Rattle.script_words.specs.Stops.{IfHalted, IsWant};
ghost use Rattle.script_replay.specs.Lines.{begin_value_of, client_value_of};
ghost use Rattle.script_replay.specs.inner.Lines.{drive_value_of};
ghost use Rattle.script_replay.specs.ClientLines.{PeekLine};
ghost use Rattle.script_replay.specs.ReplayLines.{CanBegin};
ghost use Rattle.script_replay.specs.Played.{start_of, DoesClient, DoesDrive, HaltsAt, HaltsClient, HaltsDrive, TakesTurn};

use crate::begin_line::BeginLine;
use crate::client_line::ClientLine;
use crate::drive_line::DriveLine;
use crate::outputs::outputs_text;
use crate::peeks::{data_line, last_line, names_line, saved_line};
use script_words::stop::LineStop;
use std::alloc::{AllocError, Allocator};
use zk_client::{Client, Input};
use zk_nodes::{Path, Side};
use zk_session::Saved;

/// The client that a line makes.
pub fn make_client<A: Allocator + Copy>(
    alloc: A,
    line: BeginLine<A>,
) -> Result<Client<A>, AllocError>
    requires { CanBegin (begin_value_of line) }
    ensures { IfOk result (λ client. view_of client ≡ view_at (start_of (begin_value_of line)) []) }
{
    match line {
        BeginLine::Timeout(timeout) => Ok(Client::new(alloc, timeout)),
        BeginLine::Resume {
            timeout,
            session,
            password,
            last,
        } => {
            let saved = Saved {
                session,
                password: password.as_slice(),
                last_zxid: last,
            };
            Client::resume(alloc, timeout, &saved)
        }
    }
}

/// What a client says to an input.
fn stepped<A: Allocator + Copy>(
    alloc: A,
    client: &mut Client<A>,
    input: Input<A>,
) -> Result<String<A>, LineStop>
    ensures ok { IfOk result (λ text. TakesTurn (input_view input) (view_of client.old) (view_of client.new) (string_bytes text)) }
    ensures err { IfErr result IsWant }
    ensures halt { IfErr result (IfHalted (HaltsAt (input_view input) (view_of client.old) (view_of client.new))) }
{
    let Ok(outputs) = client.step(input) else {
        return Err(LineStop::Halted);
    };
    let text = outputs_text(alloc, outputs.as_slice())?;
    Ok(text)
}

/// What a client keeps of a path on one side.
fn peeked<A: Allocator + Copy>(
    alloc: A,
    client: &Client<A>,
    side: Side,
    path: &Path<A>,
) -> Result<String<A>, AllocError>
    ensures { IfOk result (λ text. DoesClient (PeekLine side path.now) (view_of client.now) (view_of client.now) (string_bytes text)) }
{
    match side {
        Side::Data => data_line(alloc, client.peek_data(path)),
        Side::Child => names_line(alloc, client.peek_children(path)),
    }
}

/// Does with a client what a line says, and gives what is to be printed. Where that is answered by a halt, the line is an input,
/// and the client has halted at it.
pub fn driven<A: Allocator + Copy>(
    alloc: A,
    client: &mut Client<A>,
    line: ClientLine<A>,
) -> Result<String<A>, LineStop>
    ensures ok { IfOk result (λ text. DoesClient (client_value_of line) (view_of client.old) (view_of client.new) (string_bytes text)) }
    ensures err { IfErr result IsWant }
    ensures halt { IfErr result (IfHalted (HaltsClient (client_value_of line) (view_of client.old) (view_of client.new))) }
{
    let told = match line {
        ClientLine::Cut => return stepped(alloc, client, Input::Cut),
        ClientLine::Now(moment) => return stepped(alloc, client, Input::Now(moment)),
        ClientLine::Call(asked) => {
            let input = Input::Call(asked.ticket, asked.call);
            return stepped(alloc, client, input);
        }
        ClientLine::Peek(side, path) => peeked(alloc, client, side, &path),
        ClientLine::Last => last_line(alloc, client.last_zxid()),
        ClientLine::Saved => saved_line(alloc, &client.saved()),
        ClientLine::Forget => {
            client.forget_stale();
            Ok(String::new(alloc))
        }
    };
    Ok(told?)
}

/// Does with a client what a line of a replay says, and gives what is to be printed. Where that is answered by a halt, the line
/// is an input, and the client has halted at it.
pub(crate) fn replayed<A: Allocator + Copy>(
    alloc: A,
    client: &mut Client<A>,
    line: DriveLine<A>,
) -> Result<String<A>, LineStop>
    ensures ok { IfOk result (λ text. DoesDrive (drive_value_of line) (view_of client.old) (view_of client.new) (string_bytes text)) }
    ensures err { IfErr result IsWant }
    ensures halt { IfErr result (IfHalted (HaltsDrive (drive_value_of line) (view_of client.old) (view_of client.new))) }
{
    match line {
        DriveLine::Opened => stepped(alloc, client, Input::Opened),
        DriveLine::Bytes(bytes) => stepped(alloc, client, Input::Bytes(bytes)),
        DriveLine::Sent => Ok(String::new(alloc)),
        DriveLine::Client(line) => driven(alloc, client, line),
    }
}
