//! The line of a frame.

ghost use Rattle.std.specs.Prelude.{◌≡◌, ◌++◌, OnOk, string_bytes, length, ◌∷◌};
ghost use Rattle.std.specs.Fmt.{decimal};
ghost use Rattle.zk_jute.specs.Cursor.{bytes_left, payload_len};
ghost use Rattle.zk_records.specs.Views.{lent_response_of};
ghost use Rattle.script_stream.specs.Frames.{accepted_told, answer_words, asked_told, behind_told, body_told, code_words, frame_line};
ghost use Rattle.script_stream.specs.Frames.{frame_told, header_words, place_words, reply_told, request_words, response_words, result_told};
ghost use Rattle.script_stream.specs.Frames.{topic_words, type_words};

use crate::asked::{Topic, topic_of};
use crate::fields::{ToldField, push_fields, push_named, push_value};
use crate::names::{code_name, type_name};
use crate::told::{push_fault, push_record};
use crate::way::Way;
use script_words::values::push_word;
use script_words::words::{NONE, boolean_to_word};
use std::alloc::{AllocError, Allocator};
use zk_jute::{Cursor, TakeError, take};
use zk_records::{
    ConnectRequest, ConnectResponseRef, CreateRequest, CreateResponse, DeleteRequest,
    GetChildren2Response, GetChildrenResponse, GetDataResponse, Operation, ReadRequest,
    ReplyHeader, RequestHeader, SetDataRequest, SetWatches, Stat, WatcherEvent,
};

/// Adds the words of what stands after the header of a request of this type.
fn push_body<'a, A: Allocator + Copy>(
    text: &mut String<A>,
    alloc: A,
    operation: i32,
    at: &mut Cursor<'a>,
) -> Result<(), AllocError>
    ensures { OnOk result (string_bytes text.new ≡ string_bytes text.old ++ body_told operation (payload_len at.old) (bytes_left at.old)) }
{
    match Operation::new(operation) {
        Some(Operation::Create) => push_record::<A, CreateRequest<A>>(text, alloc, at),
        Some(Operation::Delete) => push_record::<A, DeleteRequest<A>>(text, alloc, at),
        Some(Operation::SetData) => push_record::<A, SetDataRequest<A>>(text, alloc, at),
        Some(Operation::SetWatches) => push_record::<A, SetWatches<A>>(text, alloc, at),
        Some(Operation::Ping | Operation::CloseSession) | None => Ok(()),
        Some(_) => push_record::<A, ReadRequest<A>>(text, alloc, at),
    }
}

/// Adds the words of a request with this header.
fn push_request<'a, A: Allocator + Copy>(
    text: &mut String<A>,
    alloc: A,
    header: &RequestHeader,
    at: &mut Cursor<'a>,
) -> Result<(), AllocError>
    ensures { OnOk result
        (string_bytes text.new ≡ string_bytes text.old ++ request_words header.now (payload_len at.old) (bytes_left at.old)) }
{
    push_value(text, alloc, "xid", &header.xid)?;
    push_type(text, alloc, header.operation)?;
    push_body(text, alloc, header.operation, at)
}

/// Adds the words of a payload that is a request.
fn push_asked<A: Allocator + Copy>(
    text: &mut String<A>,
    alloc: A,
    payload: &[u8],
) -> Result<(), AllocError>
    ensures { OnOk result (string_bytes text.new ≡ string_bytes text.old ++ asked_told payload.now) }
{
    let mut at = Cursor::new(payload);
    match take::<A, RequestHeader>(alloc, &mut at) {
        Ok(header) => push_request(text, alloc, &header, &mut at),
        Err(fault) => push_fault(text, alloc, fault),
    }
}

/// Adds the number and the name of a type.
fn push_type<A: Allocator + Copy>(
    text: &mut String<A>,
    alloc: A,
    operation: i32,
) -> Result<(), AllocError>
    ensures { OnOk result (string_bytes text.new ≡ string_bytes text.old ++ type_words operation) }
{
    push_value(text, alloc, "type", &operation)?;
    text.push_str(" ")?;
    text.push_str(type_name(operation))
}

/// Adds the words of the answer to the first message.
fn push_response<A: Allocator + Copy>(
    text: &mut String<A>,
    alloc: A,
    response: &ConnectResponseRef<'_>,
) -> Result<(), AllocError>
    ensures { OnOk result (string_bytes text.new ≡ string_bytes text.old ++ response_words (lent_response_of response.now)) }
{
    let version = &response.protocol_version;
    let fields = [
        ("protocolVersion", ToldField::Int(version)),
        ("timeOut", ToldField::Int(&response.time_out)),
        ("sessionId", ToldField::Long(&response.session_id)),
    ];
    push_fields(text, alloc, &fields)?;
    match response.read_only {
        Some(flag) => push_named(text, "readOnly", boolean_to_word(flag)),
        None => push_named(text, "readOnly", NONE),
    }
}

/// Adds the words of the payload that answers the first message.
fn push_accepted<A: Allocator + Copy>(
    text: &mut String<A>,
    alloc: A,
    payload: &[u8],
) -> Result<(), AllocError>
    ensures { OnOk result (string_bytes text.new ≡ string_bytes text.old ++ accepted_told payload.now) }
{
    let mut at = Cursor::new(payload);
    match ConnectResponseRef::take(alloc, &mut at) {
        Ok(response) => push_response(text, alloc, &response),
        Err(fault) => push_fault(text, alloc, fault),
    }
}

/// Adds the words of what stands after the header of a reply that has a result, to a request of this type.
fn push_result<'a, A: Allocator + Copy>(
    text: &mut String<A>,
    alloc: A,
    operation: i32,
    at: &mut Cursor<'a>,
) -> Result<(), AllocError>
    ensures { OnOk result
        (string_bytes text.new ≡ string_bytes text.old ++ result_told operation (payload_len at.old) (bytes_left at.old)) }
{
    match Operation::new(operation) {
        Some(Operation::Create) => push_record::<A, CreateResponse<A>>(text, alloc, at),
        Some(Operation::Exists | Operation::SetData) => push_record::<A, Stat>(text, alloc, at),
        Some(Operation::GetData) => push_record::<A, GetDataResponse<A>>(text, alloc, at),
        Some(Operation::GetChildren) => push_record::<A, GetChildrenResponse<A>>(text, alloc, at),
        Some(Operation::GetChildren2) => push_record::<A, GetChildren2Response<A>>(text, alloc, at),
        _ => Ok(()),
    }
}

/// Adds what a frame of the server is about.
fn push_topic<A: Allocator + Copy>(
    text: &mut String<A>,
    alloc: A,
    topic: Topic,
) -> Result<(), AllocError>
    ensures { OnOk result (string_bytes text.new ≡ string_bytes text.old ++ topic_words topic) }
{
    match topic {
        Topic::Notice => text.push_str(" notice"),
        Topic::Reply(operation) => push_type(text, alloc, operation),
        Topic::Unasked => text.push_str(" unasked"),
    }
}

/// Adds the number and the name of the code of an error.
fn push_code<A: Allocator + Copy>(
    text: &mut String<A>,
    alloc: A,
    err: i32,
) -> Result<(), AllocError>
    ensures { OnOk result (string_bytes text.new ≡ string_bytes text.old ++ code_words err) }
{
    push_value(text, alloc, "err", &err)?;
    text.push_str(" ")?;
    text.push_str(code_name(err))
}

/// Adds the words of a reply's or a notice's header.
fn push_header<A: Allocator + Copy>(
    text: &mut String<A>,
    alloc: A,
    header: &ReplyHeader,
    topic: Topic,
) -> Result<(), AllocError>
    ensures { OnOk result (string_bytes text.new ≡ string_bytes text.old ++ header_words header.now topic) }
{
    push_value(text, alloc, "xid", &header.xid)?;
    push_topic(text, alloc, topic)?;
    push_value(text, alloc, "zxid", &header.zxid)?;
    push_code(text, alloc, header.err)
}

/// Adds the words of what stands after a header.
fn push_behind<'a, A: Allocator + Copy>(
    text: &mut String<A>,
    alloc: A,
    topic: Topic,
    err: i32,
    at: &mut Cursor<'a>,
) -> Result<(), AllocError>
    ensures { OnOk result
        (string_bytes text.new ≡ string_bytes text.old ++ behind_told topic err (payload_len at.old) (bytes_left at.old)) }
{
    match topic {
        Topic::Notice => push_record::<A, WatcherEvent<A>>(text, alloc, at),
        Topic::Reply(operation) if err == 0 => push_result(text, alloc, operation, at),
        _ => Ok(()),
    }
}

/// Adds the words of a reply or a notice with this header, after these requests.
fn push_answer<'a, A: Allocator + Copy>(
    text: &mut String<A>,
    alloc: A,
    asked: &[RequestHeader],
    header: &ReplyHeader,
    at: &mut Cursor<'a>,
) -> Result<(), AllocError>
    ensures { OnOk result
        (string_bytes text.new ≡ string_bytes text.old ++ answer_words asked.now header.now (payload_len at.old) (bytes_left at.old)) }
{
    let topic = topic_of(asked, header.xid);
    push_header(text, alloc, header, topic)?;
    push_behind(text, alloc, topic, header.err, at)
}

/// Adds the words of a payload that is a reply or a notice, after these requests.
fn push_reply<A: Allocator + Copy>(
    text: &mut String<A>,
    alloc: A,
    asked: &[RequestHeader],
    payload: &[u8],
) -> Result<(), AllocError>
    ensures { OnOk result (string_bytes text.new ≡ string_bytes text.old ++ reply_told asked.now payload.now) }
{
    let mut at = Cursor::new(payload);
    match take::<A, ReplyHeader>(alloc, &mut at) {
        Ok(header) => push_answer(text, alloc, asked, &header, &mut at),
        Err(fault) => push_fault(text, alloc, fault),
    }
}

/// Adds the direction, and a place in it.
#[tactic(auto, unfolding(script_words::specs::Values::spaced))]
pub fn push_place<A: Allocator + Copy>(
    text: &mut String<A>,
    alloc: A,
    way: Way,
    place: usize,
) -> Result<(), AllocError>
    ensures { OnOk result (string_bytes text.new ≡ string_bytes text.old ++ place_words way place) }
{
    text.push_str(way.mark())?;
    push_word(text, alloc, &place)
}

/// Adds the words of a payload. The first in each direction has no header.
fn push_payload<A: Allocator + Copy>(
    text: &mut String<A>,
    alloc: A,
    way: Way,
    is_first: bool,
    asked: &[RequestHeader],
    payload: &[u8],
) -> Result<(), AllocError>
    ensures { OnOk result (string_bytes text.new ≡ string_bytes text.old ++ frame_told way is_first asked.now payload.now) }
{
    match (way, is_first) {
        (Way::Client, true) => {
            text.push_str(" connect")?;
            let mut at = Cursor::new(payload);
            push_record::<A, ConnectRequest<A>>(text, alloc, &mut at)
        }
        (Way::Client, false) => push_asked(text, alloc, payload),
        (Way::Server, true) => {
            text.push_str(" connected")?;
            push_accepted(text, alloc, payload)
        }
        (Way::Server, false) => push_reply(text, alloc, asked, payload),
    }
}

/// Adds the line of a frame at a place, after these requests.
pub fn push_frame<A: Allocator + Copy>(
    text: &mut String<A>,
    alloc: A,
    way: Way,
    place: usize,
    asked: &[RequestHeader],
    payload: &[u8],
) -> Result<(), AllocError>
    ensures { OnOk result (string_bytes text.new ≡ string_bytes text.old ++ frame_line way place asked.now payload.now) }
{
    push_place(text, alloc, way, place)?;
    push_value(text, alloc, "length", &payload.len())?;
    push_payload(text, alloc, way, place == 0, asked, payload)?;
    text.push_str("\n")
}
