//! The conversation of a client: which requests are pending, and what a payload that arrives means.

ghost use Rattle.std.specs.Prelude.{◌≡◌, ◌≢◌, ◌<◌, ◌≤◌, ◌^◌, ◌++◌, ◌∷◌, pos, [], length, true, IfOk, OnOk, OnErr, IsErrOf};
ghost use Rattle.zk_frames.specs.Frame.{frame};
ghost use Rattle.zk_jute.specs.Cursor.{bytes_left, payload_len};
ghost use Rattle.zk_nodes.specs.declared.side.Side.TheVariants.{Data, Child};
ghost use Rattle.zk_conversation.specs.Arrives.{Answers};
ghost use Rattle.zk_conversation.specs.inner.Arrives.{RepliesTo, names_next};
ghost use Rattle.zk_conversation.specs.Calls.{call_payload, connect_payload, ping_payload};
ghost use Rattle.zk_conversation.specs.Lent.{names_arrive};
ghost use Rattle.zk_conversation.specs.Pending.{Talk, Call_waits, next_xid, tickets, calls_pending, watches_pending, is_close_pending};
ghost use Rattle.zk_conversation.specs.Pending.{new_talk, talk_opened, talk_asked, talk_watching, cut_off, taken_ticket, talk_taken};
ghost use Rattle.zk_conversation.specs.Views.{call_view, payload_of_part, question_view};

use crate::arrival::Arrival;
use crate::arriving::{answered, read_first, read_header, read_notice, read_oldest};
use crate::awaited::{Awaited, Waiting};
use crate::call::Call;
use crate::connect::Connect;
use crate::counts::{Counts, NONE};
use crate::fault::{AskFault, TalkFault};
use crate::frame::{framed, request_frame};
use crate::phase::Phase;
use crate::question::Question;
use crate::taking::take_call;
use std::alloc::{AllocError, Allocator};
use std::collections::VecDeque;
use std::marker::Model;
use zk_jute::{Cursor, Nothing};
use zk_limits::{LONGEST_OUTGOING, LONGEST_PASSWORD, MOST_PENDING};
use zk_records::{Operation, ReplyHeader, SetWatchesRef};

// The reserved xids.
const NOTICE_XID: i32 = -1;

const PING_XID: i32 = -2;

const AUTH_XID: i32 = -4;

const PART_XID: i32 = -8;

/// A call that is to be sent.
#[derive(Drop)]
pub struct Asked<A: Allocator> {
    pub xid: i32,
    /// The frame of its request.
    pub frame: Vec<u8, A>,
}

// xids run up to the greatest int, and then from 1 again.
fn next_xid(xid: u32) -> u32
    requires { xid < 2 ^ 31 }
    ensures { result ≡ next_xid xid }
{
    if xid == 2_147_483_647 { 1 } else { xid + 1 }
}

// Puts a request after those that are pending.
fn push<A: Allocator>(
    pending: &mut VecDeque<Awaited<A>, A>,
    awaited: Awaited<A>,
) -> Result<(), AllocError>
    ensures ok { OnOk result (pending.new.items ≡ pending.old.items ++ awaited ∷ []) }
    ensures err { OnErr result (pending.new.items ≡ pending.old.items) }
{
    pending.push_back(awaited).map_err(AllocError::from)
}

/// The requests of one connection after the other, and what their replies mean.
///
/// Requests of a connection are answered in the order of asking, so a reply is that of the oldest one that is pending.
/// Notices and the answers to pings stand outside that order.
#[derive(Drop)]
pub struct Conversation<A: Allocator + Copy> {
    alloc: A,
    pub(crate) phase: Phase,
    // The oldest stands first.
    pending: VecDeque<Awaited<A>, A>,
    counts: Counts,
    // That of the next call.
    xid: u32,
}

impl<A: Allocator + Copy> Model for Conversation<A> {
    ghost use Rattle.std.specs.Prelude.{map};
    ghost use Rattle.zk_conversation.specs.Pending.{Talk};
    ghost use Rattle.zk_conversation.specs.Views.{pending_view};
    ghost use Rattle.zk_conversation.specs.Counted.{IsCounted};

    ghost Value = { Talk };

    ghost view = { λ c. record { phase = c.phase; pending = map pending_view c.pending.items; xid = c.xid } };

    ghost invariant = { λ c. IsCounted (map pending_view c.pending.items) c.counts c.xid };
}

/// How much is pending.
#[derive(Clone, Copy)]
pub struct Pending {
    /// The calls; parts of setWatches are not counted.
    pub calls: u32,
    /// The reads that are to leave a watch on a node's data, or on its absence.
    pub on_data: u32,
    /// The reads that are to leave a watch on the names below a node.
    pub on_child: u32,
    /// Whether a call that closes the session is among them.
    pub close: bool,
}

impl<A: Allocator + Copy> Conversation<A> {
    /// A conversation without a connection. Its first call has xid 1.
    pub fn new(alloc: A) -> Conversation<A>
        ensures { result ≡ new_talk }
    {
        Conversation {
            alloc,
            phase: Phase::Closed,
            pending: VecDeque::new(alloc),
            counts: NONE,
            xid: 1,
        }
    }

    /// How much is pending. It is counted as requests come and go, so the call takes constant time.
    pub fn pending(&self) -> Pending
        ensures calls { result.calls ≡ calls_pending self.now.pending }
        ensures few { result.calls ≤ MOST_PENDING }
        ensures on_data { result.on_data ≡ watches_pending Data self.now.pending }
        ensures on_child { result.on_child ≡ watches_pending Child self.now.pending }
        ensures close { result.close ≡ is_close_pending self.now.pending }
    {
        Pending {
            calls: self.counts.calls,
            on_data: self.counts.on_data,
            on_child: self.counts.on_child,
            close: self.counts.closes > 0,
        }
    }

    /// A connection begins: the frame of its ConnectRequest, which has no header. It is the one frame that may pass the
    /// limit of outgoing payloads, since a password goes back as it came.
    ///
    /// Fails for memory alone, and the conversation is as it was then.
    pub fn open(&mut self, connect: &Connect<'_>) -> Result<Vec<u8, A>, AllocError>
        requires closed { self.old.phase ≡ Phase.Closed }
        requires taken { tickets self.old.pending ≡ [] }
        requires short { length connect.now.password.now ≤ LONGEST_PASSWORD }
        ensures frame { IfOk result (λ out. out.items
            ≡ frame (connect_payload connect.now.last_zxid_seen connect.now.time_out connect.now.session_id connect.now.password.now)) }
        ensures ok { OnOk result (self.new ≡ talk_opened self.old) }
        ensures err { OnErr result (self.new ≡ self.old) }
    {
        let frame = framed(self.alloc, 33 + connect.password.len(), connect)?;
        self.pending.clear();
        self.counts = NONE;
        self.phase = Phase::Opening;
        Ok(frame)
    }

    /// Asks: the frame of the call's request, and its xid. The ticket is the caller's own number, and comes back with
    /// the reply.
    ///
    /// The first fault that applies is answered, and the conversation is as it was then.
    pub fn ask(&mut self, ticket: u64, call: Call<A>) -> Result<Asked<A>, AskFault>
        requires { self.old.phase ≡ Phase.Talking }
        ensures frame { IfOk result (λ asked. asked.frame.items ≡ frame (call_payload (pos self.old.xid) (call_view call))) }
        ensures xid { IfOk result (λ asked. asked.xid ≡ pos self.old.xid) }
        ensures ok { OnOk result (self.new ≡ talk_asked ticket (call_view call) self.old) }
        ensures err { OnErr result (self.new ≡ self.old) }
        ensures fits { OnOk result ((length (call_payload (pos self.old.xid) (call_view call)) ≤ LONGEST_OUTGOING)
            × (calls_pending self.old.pending < MOST_PENDING)) }
        ensures too_large { IsErrOf result AskFault.TooLarge
            → LONGEST_OUTGOING < length (call_payload (pos self.old.xid) (call_view call)) }
        ensures too_many { IsErrOf result AskFault.TooMany → (length (call_payload (pos self.old.xid) (call_view call)) ≤ LONGEST_OUTGOING)
            × (MOST_PENDING ≤ calls_pending self.old.pending) }
        ensures memory { IsErrOf result AskFault.Memory → (length (call_payload (pos self.old.xid) (call_view call)) ≤ LONGEST_OUTGOING)
            × (calls_pending self.old.pending < MOST_PENDING) }
    {
        if call.payload_length() > LONGEST_OUTGOING {
            return Err(AskFault::TooLarge);
        }
        if self.counts.calls >= MOST_PENDING {
            return Err(AskFault::TooMany);
        }
        Ok(self.send(ticket, call)?)
    }

    /// Asks as [`ask`](Conversation::ask) does, for a caller that has seen that the call may be sent: the limit of its payload is
    /// the caller's. Fails for memory alone, and the conversation is as it was then.
    pub fn send(&mut self, ticket: u64, call: Call<A>) -> Result<Asked<A>, AllocError>
        requires talking { self.old.phase ≡ Phase.Talking }
        requires fits { length (call_payload (pos self.old.xid) (call_view call)) < 2 ^ 30 }
        requires few { calls_pending self.old.pending < MOST_PENDING }
        ensures frame { IfOk result (λ asked. asked.frame.items ≡ frame (call_payload (pos self.old.xid) (call_view call))) }
        ensures xid { IfOk result (λ asked. asked.xid ≡ pos self.old.xid) }
        ensures ok { OnOk result (self.new ≡ talk_asked ticket (call_view call) self.old) }
        ensures err { OnErr result (self.new ≡ self.old) }
    {
        let xid = self.xid as i32;
        let frame = call.frame(self.alloc, xid)?;
        self.awaits(ticket, call.into_question())?;
        Ok(Asked { xid, frame })
    }

    // A call was asked under the next xid, and its reply is awaited.
    fn awaits(&mut self, ticket: u64, question: Question<A>) -> Result<(), AllocError>
        requires { calls_pending self.old.pending < MOST_PENDING }
        ensures ok { OnOk result (self.new ≡ record {
          phase = self.old.phase;
          pending = self.old.pending ++ record {
            xid = pos self.old.xid;
            waiting = Call_waits ticket (question_view question);
          } ∷ [];
          xid = next_xid self.old.xid;
        }) }
        ensures err { OnErr result (self.new ≡ self.old) }
    {
        let counts = self.counts.with(&question);
        let waiting = Waiting::Call { ticket, question };
        let xid = self.xid as i32;
        push(&mut self.pending, Awaited { xid, waiting })?;
        self.counts = counts;
        self.xid = next_xid(self.xid);
        Ok(())
    }

    /// Sends a part of setWatches, whose reply is awaited like that of a call. `last` says whether it is the last part
    /// of the connection, and comes back with the reply.
    ///
    /// Fails for memory alone, and the conversation is as it was then.
    pub fn set_watches(
        &mut self,
        part: &SetWatchesRef<'_>,
        last: bool,
    ) -> Result<Vec<u8, A>, AllocError>
        requires talking { self.old.phase ≡ Phase.Talking }
        requires small { length (payload_of_part part.now) ≤ LONGEST_OUTGOING }
        ensures frame { IfOk result (λ out. out.items ≡ frame (payload_of_part part.now)) }
        ensures ok { OnOk result (self.new ≡ talk_watching last self.old) }
        ensures err { OnErr result (self.new ≡ self.old) }
    {
        let frame = request_frame(self.alloc, 64, PART_XID, Operation::SetWatches, *part)?;
        let waiting = Waiting::Part { last };
        let part = Awaited {
            xid: PART_XID,
            waiting,
        };
        self.pending.push_back(part).map_err(AllocError::from)?;
        Ok(frame)
    }

    /// The frame of a ping. It is answered outside the order of requests. Fails for memory alone.
    pub fn ping(&self) -> Result<Vec<u8, A>, AllocError>
        requires { self.now.phase ≡ Phase.Talking }
        ensures { IfOk result (λ out. out.items ≡ frame ping_payload) }
    {
        request_frame(self.alloc, 12, PING_XID, Operation::Ping, Nothing)
    }

    /// The ticket of the oldest call that the connection left, which is taken out; parts of setWatches are passed over.
    /// `None` where no call is left, and while there is a connection.
    pub fn take_pending(&mut self) -> Option<u64>
        ensures ticket { result ≡ taken_ticket self.old }
        ensures rest { self.new ≡ talk_taken self.old }
    {
        match self.phase {
            Phase::Closed => take_call(&mut self.pending, &mut self.counts),
            _ => None,
        }
    }

    /// The connection is over. What was pending is left to be taken.
    pub fn cut(&mut self)
        ensures { self.new ≡ cut_off self.old }
    {
        self.phase = Phase::Closed;
    }

    /// Reads a payload of the connection: the first one as the answer to the ConnectRequest, a later one by its header.
    /// After a fault the conversation is as it was. Only a list of names takes memory.
    pub fn arrived<'a>(&mut self, payload: &'a [u8]) -> Result<Arrival<'a, A>, TalkFault>
        requires { self.old.phase ≢ Phase.Closed }
        ensures answers { Answers self.old payload.entry.now result self.new }
        ensures memory { IsErrOf result TalkFault.Memory → names_arrive self.old.phase self.old.pending payload.entry.now ≡ true }
    {
        match self.phase {
            Phase::Talking => self.later(payload),
            _ => self.first(payload),
        }
    }

    fn first<'a>(&mut self, payload: &'a [u8]) -> Result<Arrival<'a, A>, TalkFault>
        requires { self.old.phase ≢ Phase.Talking }
        ensures answers { Answers self.old payload.entry.now result self.new }
        ensures memory { IsErrOf result TalkFault.Memory → ⊥ }
    {
        let arrival = read_first(self.alloc, payload)?;
        self.phase = Phase::Talking;
        Ok(arrival)
    }

    fn later<'a>(&mut self, payload: &'a [u8]) -> Result<Arrival<'a, A>, TalkFault>
        requires { self.old.phase ≡ Phase.Talking }
        ensures answers { Answers self.old payload.entry.now result self.new }
        ensures memory { IsErrOf result TalkFault.Memory → names_arrive self.old.phase self.old.pending payload.entry.now ≡ true }
    {
        let mut at = Cursor::new(payload);
        let header = read_header(self.alloc, &mut at)?;
        match header.xid {
            NOTICE_XID => read_notice(self.alloc, at),
            PING_XID => Ok(Arrival::Pong),
            AUTH_XID => Ok(Arrival::Skipped),
            _ => self.reply(header, at),
        }
    }

    // A reply is that of the oldest request.
    fn reply<'a>(
        &mut self,
        header: ReplyHeader,
        at: Cursor<'a>,
    ) -> Result<Arrival<'a, A>, TalkFault>
        ensures replies { RepliesTo self.old header (payload_len at.entry) (bytes_left at.entry) result self.new }
        ensures memory { IsErrOf result TalkFault.Memory → names_next self.old.pending header ≡ true }
    {
        let found = match self.pending.front() {
            Some(oldest) => read_oldest(self.alloc, oldest, header, at)?,
            None => return Err(TalkFault::NobodyAsked { came: header.xid }),
        };
        let Some(oldest) = self.pending.pop_front() else {
            unreachable!()
        };
        self.counts = self.counts.without(&oldest.waiting);
        Ok(answered(oldest.waiting, header, found))
    }
}
