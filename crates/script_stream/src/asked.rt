//! What a reply answers.

ghost use Rattle.std.specs.Prelude.{◌≡◌, OnOk, None};
ghost use Rattle.script_stream.specs.Asked.{last_type, noted, topic_of};

use std::alloc::{AllocError, Allocator};
use zk_jute::{Cursor, take};
use zk_records::RequestHeader;

/// What a frame of the server is about.
#[derive(Clone, Copy)]
pub enum Topic {
    /// It tells of a watch.
    Notice,
    /// It answers a request of this type.
    Reply(i32),
    /// No request with its xid was seen.
    Unasked,
}

/// The type of the last request with this xid.
fn last_type(asked: &[RequestHeader], xid: i32) -> Option<i32>
    ensures { result ≡ last_type None asked.now xid }
{
    let mut found = None;
    for header in asked {
        if header.xid == xid {
            found = Some(header.operation);
        }
    }
    found
}

/// What a frame with this xid is about, after these requests.
#[tactic(auto, unfolding(crate::specs::Asked::topic_of))]
pub fn topic_of(asked: &[RequestHeader], xid: i32) -> Topic
    ensures { result ≡ topic_of asked.now xid }
{
    if xid == -1 {
        return Topic::Notice;
    }
    if let Some(operation) = last_type(asked, xid) {
        return Topic::Reply(operation);
    }
    match xid {
        -2 => Topic::Reply(11),
        -4 => Topic::Reply(100),
        -8 => Topic::Reply(101),
        _ => Topic::Unasked,
    }
}

/// Notes the header of a request.
pub fn note<A: Allocator + Copy>(
    alloc: A,
    asked: &mut Vec<RequestHeader, A>,
    payload: &[u8],
) -> Result<(), AllocError>
    ensures { OnOk result (asked.new.items ≡ noted asked.old.items payload.now) }
{
    let mut at = Cursor::new(payload);
    match take::<A, RequestHeader>(alloc, &mut at) {
        Ok(header) => asked.push(header).map_err(From::from),
        Err(_) => Ok(()),
    }
}
