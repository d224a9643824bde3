//! The reading of one payload.

ghost use Rattle.std.specs.Prelude.{◌≡◌, ◌&&◌, length, IsErrOf, true};
ghost use Rattle.std.specs.Ordering.{int_eq};
ghost use Rattle.zk_jute.specs.Cursor.{bytes_left, payload_len};
ghost use Rattle.zk_jute.specs.Reading.{reading};
ghost use Rattle.zk_records.specs.Events.{event_of};
ghost use Rattle.zk_records.specs.Layouts.{watcher_event};
ghost use Rattle.zk_jute.specs.Lenient.{or_empty};
ghost use Rattle.std.specs.Option.{option_map};
ghost use Rattle.zk_records.specs.Response.{response_at};
ghost use Rattle.zk_conversation.specs.Arriving.{first_arriving, notice_arriving, noticed};
ghost use Rattle.zk_conversation.specs.inner.Lent.{Reads, awaited_result};
ghost use Rattle.zk_conversation.specs.Lent.{awaits_names};
ghost use Rattle.zk_conversation.specs.inner.Arrives.{Arrives, HeaderReads, OldestReads, arrival_for};
ghost use Rattle.zk_conversation.specs.Views.{arrival_view, pending_view, result_view, waiting_view};

use crate::arrival::Arrival;
use crate::awaited::{Awaited, Waiting};
use crate::fault::TalkFault;
use crate::result::{ReplyResult, read_result};
use std::alloc::Allocator;
use zk_jute::{Cursor, TakeError, take};
use zk_records::{ConnectResponseRef, Event, ReplyHeader, WatcherEventRef};

/// Reads the first payload of a connection.
pub(crate) fn read_first<'a, A: Allocator + Copy>(
    alloc: A,
    payload: &'a [u8],
) -> Result<Arrival<'a, A>, TalkFault>
    ensures gives { Arrives result (first_arriving (response_at (length payload.entry.now) payload.entry.now)) }
    ensures memory { IsErrOf result TalkFault.Memory → ⊥ }
{
    let mut at = Cursor::new(payload);
    match ConnectResponseRef::take(alloc, &mut at) {
        Ok(response) => Ok(Arrival::Connected(response)),
        Err(fault) => Err(TalkFault::BadRecord(fault)),
    }
}

/// Reads the header that a later payload begins with, and moves past it.
pub(crate) fn read_header<'a, A: Allocator + Copy>(
    alloc: A,
    at: &mut Cursor<'a>,
) -> Result<ReplyHeader, TalkFault>
    ensures { HeaderReads result (payload_len at.old) (bytes_left at.old) (payload_len at.new) (bytes_left at.new) }
{
    match take(alloc, at) {
        Ok(header) => Ok(header),
        Err(_) => Err(TalkFault::BadHeader),
    }
}

/// Reads a notice after its header. Its record is read whole before its type is looked at.
pub(crate) fn read_notice<'a, A: Allocator + Copy>(
    alloc: A,
    mut at: Cursor<'a>,
) -> Result<Arrival<'a, A>, TalkFault>
    ensures gives { Arrives result (notice_arriving (reading watcher_event (payload_len at.entry) (bytes_left at.entry))) }
    ensures memory { IsErrOf result TalkFault.Memory → ⊥ }
{
    let notice: Result<WatcherEventRef<'a>, TakeError> = take(alloc, &mut at);
    match notice {
        Ok(notice) => Ok(noticed(notice)),
        Err(fault) => Err(TalkFault::BadNotice(fault)),
    }
}

// A notice of a type that is no event is skipped. Its state is ignored.
fn noticed<'a, A: Allocator + Copy>(notice: WatcherEventRef<'a>) -> Arrival<'a, A>
    ensures { arrival_view result ≡ noticed (event_of notice.entry.kind) (or_empty (option_map (λ s. s.now) notice.entry.path.text)) }
{
    match Event::new(notice.kind) {
        Some(event) => Arrival::Notice {
            event,
            path: notice.path.or_empty(),
        },
        None => Arrival::Skipped,
    }
}

/// Reads the reply to the oldest request, whose xid it has to have.
pub(crate) fn read_oldest<'a, A: Allocator + Copy>(
    alloc: A,
    oldest: &Awaited<A>,
    header: ReplyHeader,
    at: Cursor<'a>,
) -> Result<ReplyResult<'a, A>, TalkFault>
    ensures gives { OldestReads (pending_view oldest.now) header (payload_len at.entry) (bytes_left at.entry) result }
    ensures memory { IsErrOf result TalkFault.Memory
        → (int_eq oldest.now.xid header.xid && awaits_names (waiting_view oldest.now.waiting) header.err) ≡ true }
{
    if oldest.xid != header.xid {
        return Err(TalkFault::OtherXid {
            awaited: oldest.xid,
            came: header.xid,
        });
    }
    match read_awaited(alloc, &oldest.waiting, header.err, at) {
        Ok(found) => Ok(found),
        Err(TakeError::Memory) => Err(TalkFault::Memory),
        Err(fault) => Err(TalkFault::BadRecord(fault)),
    }
}

// Reads what the reply to a request with this err brings, after its header: nothing for a part of setWatches.
fn read_awaited<'a, A: Allocator + Copy>(
    alloc: A,
    waiting: &Waiting<A>,
    err: i32,
    at: Cursor<'a>,
) -> Result<ReplyResult<'a, A>, TakeError>
    ensures gives { Reads result_view result (awaited_result (waiting_view waiting.now) err (payload_len at.entry) (bytes_left at.entry)) }
    ensures memory { IsErrOf result TakeError.Memory → awaits_names (waiting_view waiting.now) err ≡ true }
{
    match waiting {
        Waiting::Part { last: _ } => Ok(ReplyResult::Done),
        Waiting::Call {
            ticket: _,
            question,
        } => read_result(alloc, question, err, at),
    }
}

/// What arrived, where a request has its reply.
pub(crate) fn answered<'a, A: Allocator + Copy>(
    waiting: Waiting<A>,
    header: ReplyHeader,
    found: ReplyResult<'a, A>,
) -> Arrival<'a, A>
    ensures { arrival_view result ≡ arrival_for (waiting_view waiting) header (result_view found.entry) }
{
    match waiting {
        Waiting::Part { last } => Arrival::WatchesSet {
            last,
            zxid: header.zxid,
            err: header.err,
        },
        Waiting::Call { ticket, question } => Arrival::Reply {
            ticket,
            question,
            zxid: header.zxid,
            result: found,
        },
    }
}
