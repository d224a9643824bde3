//! What is printed of a payload.

ghost use Rattle.std.specs.Prelude.{◌≡◌, ◌≢◌, ◌++◌, ◌<◌, ◌^◌, ℕ, List, Err, length, IfOk, IfErr, OnOk, string_bytes};
ghost use Rattle.zk_jute.specs.Spelling.{spelling, Fits};
ghost use Rattle.zk_jute.specs.Reading.{reading};
ghost use Rattle.zk_records.specs.Response.{response_spelling, ResponseFits, response_at};
ghost use Rattle.zk_records.specs.Reply.{reply_of, reply_spelling, ReplyFits, reply_at};
ghost use Rattle.zk_records.specs.Views.{response_of};
ghost use Rattle.shell_commands.specs.Print.{frame_of, print_of};
ghost use Rattle.shell_commands.specs.Show.{Prints, IsRecord, IsResponse, IsReply, response_lines, reply_lines};

use crate::fields::{PrintedField, push_fields, push_optional_boolean};
use crate::shown::Shown;
use script_words::lines::{push_line, push_shown};
use std::alloc::{AllocError, Allocator};
use zk_jute::{Cursor, PutError, Readable, Record, TakeError, take};
use zk_records::{ConnectResponse, Reply, take_reply};

/// The frame of a payload.
#[tactic(auto, unfolding(zk_jute::specs::Spelling::int_bytes))]
fn framed<A: Allocator + Copy>(alloc: A, payload: &[u8]) -> Result<Vec<u8, A>, AllocError>
    requires { length payload.now < 2 ^ 31 }
    ensures { IfOk result (λ frame. frame.items ≡ frame_of payload.now) }
{
    let mut frame = Vec::new(alloc);
    frame.extend_from_slice(&(payload.len() as i32).to_be_bytes())?;
    frame.extend_from_slice(payload)?;
    Ok(frame)
}

/// Adds how many bytes stood after a record, and the frame of the record alone.
pub fn push_end<A: Allocator + Copy>(
    text: &mut String<A>,
    alloc: A,
    spelled: &[u8],
    ignored: usize,
) -> Result<(), AllocError>
    requires { length spelled.now < 2 ^ 31 }
    ensures { OnOk result ((rest : List ℕ) → length rest ≡ ignored
        → string_bytes text.new ≡ print_of (string_bytes text.old) spelled.now rest) }
{
    push_shown(text, alloc, "ignored", &ignored)?;
    let frame = framed(alloc, spelled)?;
    let word = hex::encode(alloc, frame.as_slice())?;
    push_line(text, "frame", word.as_str())
}

/// The spelling of a value that has one.
fn spelling_of<A: Allocator + Copy, R: Record<A>>(
    alloc: A,
    value: &R,
) -> Result<Vec<u8, A>, AllocError>
    requires { Fits R.layout (R.view value.now) }
    ensures { IfOk result (λ bytes. bytes.items ≡ spelling R.layout (R.view value.now)) }
{
    let mut bytes = Vec::new(alloc);
    match value.put(&mut bytes) {
        Ok(()) => Ok(bytes),
        Err(PutError::Memory) => Err(AllocError),
        Err(PutError::TooLong) => unreachable!(),
    }
}

/// What is printed of the record whose spelling begins a payload.
pub fn print_record<'a, A: Allocator + Copy, R: Readable<'a, A> + Shown<A> + Drop>(
    alloc: A,
    payload: &'a [u8],
) -> Result<String<A>, TakeError>
    requires { length payload.now < 2 ^ 31 }
    ensures prints { IfOk result (λ text. Prints (IsRecord R.layout R.names) payload.now (string_bytes text)) }
    ensures fault { IfErr result (λ e. e ≢ TakeError.Memory → reading R.layout (length payload.now) payload.now ≡ Err e) }
{
    let mut at = Cursor::new(payload);
    let found: R = take(alloc, &mut at)?;
    let spelled = spelling_of(alloc, &found)?;
    let mut text = String::new(alloc);
    found.push_lines(&mut text, alloc)?;
    push_end(&mut text, alloc, spelled.as_slice(), at.rest().len())?;
    Ok(text)
}

/// The spelling of a response that has one.
fn response_spelling_of<A: Allocator + Copy>(
    alloc: A,
    response: &ConnectResponse<A>,
) -> Result<Vec<u8, A>, AllocError>
    requires { ResponseFits (response_of response.now) }
    ensures { IfOk result (λ bytes. bytes.items ≡ response_spelling (response_of response.now)) }
{
    let mut bytes = Vec::new(alloc);
    match response.put(&mut bytes) {
        Ok(()) => Ok(bytes),
        Err(PutError::Memory) => Err(AllocError),
        Err(PutError::TooLong) => unreachable!(),
    }
}

/// Adds the lines of a response.
fn push_response<A: Allocator + Copy>(
    text: &mut String<A>,
    alloc: A,
    response: &ConnectResponse<A>,
) -> Result<(), AllocError>
    ensures { OnOk result (string_bytes text.new ≡ string_bytes text.old ++ response_lines (response_of response.now)) }
{
    let fields = [
        (
            "protocolVersion",
            PrintedField::Int(&response.protocol_version),
        ),
        ("timeOut", PrintedField::Int(&response.time_out)),
        ("sessionId", PrintedField::Long(&response.session_id)),
        ("passwd", PrintedField::Buffer(&response.passwd)),
    ];
    push_fields(text, alloc, &fields)?;
    push_optional_boolean(text, "readOnly", response.read_only)
}

/// What is printed of the response that a whole payload spells.
pub fn print_response<A: Allocator + Copy>(alloc: A, payload: &[u8]) -> Result<String<A>, TakeError>
    requires { length payload.now < 2 ^ 31 }
    ensures prints { IfOk result (λ text. Prints (IsResponse payload.now) payload.now (string_bytes text)) }
    ensures fault { IfErr result (λ e. e ≢ TakeError.Memory → response_at (length payload.now) payload.now ≡ Err e) }
{
    let mut at = Cursor::new(payload);
    let response = ConnectResponse::take(alloc, &mut at)?;
    let spelled = response_spelling_of(alloc, &response)?;
    let mut text = String::new(alloc);
    push_response(&mut text, alloc, &response)?;
    push_end(&mut text, alloc, spelled.as_slice(), at.rest().len())?;
    Ok(text)
}

/// The spelling of a reply that has one.
fn reply_spelling_of<A: Allocator + Copy, R: Record<A>>(
    alloc: A,
    reply: &Reply<R>,
) -> Result<Vec<u8, A>, AllocError>
    requires { ReplyFits R.layout (reply_of R.view reply.now) }
    ensures { IfOk result (λ bytes. bytes.items ≡ reply_spelling R.layout (reply_of R.view reply.now)) }
{
    let mut bytes = spelling_of(alloc, &reply.header)?;
    if let Some(found) = &reply.result {
        let behind = spelling_of(alloc, found)?;
        bytes.extend_from_slice(behind.as_slice())?;
    }
    Ok(bytes)
}

/// Adds the lines of a reply.
fn push_reply<A: Allocator + Copy, R: Shown<A>>(
    text: &mut String<A>,
    alloc: A,
    reply: &Reply<R>,
) -> Result<(), AllocError>
    ensures { OnOk result (string_bytes text.new ≡ string_bytes text.old ++ reply_lines R.layout R.names (reply_of R.view reply.now)) }
{
    reply.header.push_lines(text, alloc)?;
    match &reply.result {
        None => Ok(()),
        Some(found) => found.push_lines(text, alloc),
    }
}

/// What is printed of the reply whose spelling begins a payload.
pub fn print_reply<'a, A: Allocator + Copy, R: Readable<'a, A> + Shown<A> + Drop>(
    alloc: A,
    payload: &'a [u8],
) -> Result<String<A>, TakeError>
    requires { length payload.now < 2 ^ 31 }
    ensures prints { IfOk result (λ text. Prints (IsReply R.layout R.names) payload.now (string_bytes text)) }
    ensures fault { IfErr result (λ e. e ≢ TakeError.Memory → reply_at R.layout (length payload.now) payload.now ≡ Err e) }
{
    let mut at = Cursor::new(payload);
    let reply: Reply<R> = take_reply(alloc, &mut at)?;
    let spelled = reply_spelling_of(alloc, &reply)?;
    let mut text = String::new(alloc);
    push_reply(&mut text, alloc, &reply)?;
    push_end(&mut text, alloc, spelled.as_slice(), at.rest().len())?;
    Ok(text)
}
