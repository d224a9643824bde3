//! The servers and the connection to one of them.

ghost use Rattle.std.specs.Prelude.{◌≡◌, ◌≢◌, ◌≤◌, ◌<◌, ◌-◌, ◌+◌, ◌^◌, ◌++◌, ℕ, ℤ, pos, List, Some, true, false, int_lt, slice_index, drop};
ghost use Rattle.std.specs.Prelude.{take as first, length as bytes_of, vec_len, IfOk, OnOk, OnErr, IsOk, IsErrOf, IfErr};
ghost use Rattle.zk_frames.specs.Frame.{frame, IsNegative};
ghost use Rattle.zk_bench.specs.declared.phase.Phase.TheVariants.{Apart, Opening, Accepted};
ghost use Rattle.zk_bench.specs.declared.stop.Stop.TheVariants as stops;
ghost use Rattle.zk_bench.specs.declared.stop.Refusal.TheVariants as refusals;
ghost use Rattle.zk_bench.specs.Front.{IsFramed, IsFront, IsShort, IsWhole};
ghost use Rattle.zk_history.specs.HistoryView.{IsAccepted, history_of, natural, newest_tree};
ghost use Rattle.zk_history.specs.declared.history_fault.HistoryFault.TheVariants as faults;
ghost use Rattle.zk_laws.specs.Server.{zxid_held, tree_held, is_sequential};
ghost use Rattle.zk_laws.specs.ServerSteps.{Serving};
ghost use Rattle.zk_laws.specs.Messages.{Request as Wanted, Connect, Ask, Ping};
ghost use Rattle.zk_conversation.specs.declared.raw.RawOperation.{RawOperation};
ghost use Rattle.zk_conversation.specs.Calls.{SetData, Create, Close, Raw};
ghost use Rattle.zk_laws.specs.Parsed.{IsReadAs, IsRecord};
ghost use Rattle.zk_records.specs.Layouts.{connect_request, create_response};
ghost use Rattle.zk_bench.specs.Stepping.{shown_of, stage_of, zxid_of, IsReady, TakesSome, ProcessesFirst, AnswersFirst};
ghost use Rattle.zk_bench.specs.inner.Stepping.{HasClient, ProcessesOne, AnswersOne, Declines};
ghost use Rattle.zk_bench.specs.inner.Stepping.{IsSending, HasAll, HasWritten, LeavesUnmade, SendsStat, LeavesUnsent};
ghost use Rattle.zk_bench.specs.Answerable.{IsAnswerable};
ghost use Rattle.zk_bench.specs.Writing.{appended};
ghost use Rattle.zk_bench.specs.inner.Writing.{mode_of as mode_told, tree_of};
ghost use Rattle.zk_nodes.specs.History.{tree_at, size_of};
ghost use Rattle.zk_jute.specs.Spelling.{Fits};
ghost use Rattle.zk_records.specs.Operations.{body_layout};
ghost use Rattle.zk_records.specs.Request.{operation_of, body_of};
ghost use Rattle.zk_history.specs.Made.{change_of};
ghost use Rattle.zk_nodes.specs.PathFault.{IsPath};
ghost use Rattle.zk_records.specs.declared.request.Request.TheVariants as requests;
ghost use Rattle.zk_bench.specs.inner.Asking.{Asks, IsLook};
ghost use Rattle.zk_bench.specs.inner.Serving.{Sends, SendsHeader};
ghost use Rattle.theory_serving.specs.Wires.{IsFit, IsFor, StandsFirst};
ghost use Rattle.zk_bench.specs.Served.{started, linked, connected, disconnected, ended, is_open, advanced, with_requests, without_output};
ghost use Rattle.zk_bench.specs.Served.{Continues, left_with};

use crate::connection::Connection;
use crate::connects::{send_accepted, send_expired};
use crate::frames::{Front, first_frame, remove_front};
use crate::notices::tell_accepted;
use crate::payloads::{first_request, next_request};
use crate::phase::Phase;
use crate::reads::read;
use crate::replies::{send_header, send_result};
use crate::servers::{next_changes, take_all, zxid_after};
use crate::stop::{Refusal, Stop};
use crate::tree::{Tree, text_of};
use crate::writes::{Mode, append, append_write, creation, deleted_path, mode_of, written_path};
use std::alloc::{AllocError, Allocator};
use std::marker::Model;
use zk_history::{Change, History, HistoryFault};
use zk_jute::{Buffer, TextRef};
use zk_records::{
    Code, ConnectRequest, CreateRef, CreateRequest, DeleteRequest, ReplyHeader, Request,
    SetDataRequest,
};

// The xid of the answer to a ping.
const PONG: i32 = -2;

/// Eight servers over one history, and the connection to one of them.
///
/// `AllocError` says that the allocator refused a request, and comes for no other reason. After [`take`](Bench::take) or
/// [`process`](Bench::process) has answered it, no server is connected; a write that was refused so may be in the history.
#[derive(Drop)]
pub struct Bench<A: Allocator + Copy> {
    alloc: A,
    history: History<A>,
    // How many transactions each server has taken.
    taken: [usize; 8],
    // The server that is connected, or was last, from 0 on.
    server: usize,
    connection: Connection<A>,
    // Whether clients are answered that their session has expired.
    expired: bool,
    // The time of accepted writes, in milliseconds.
    time: u64,
    // The number that accepted clients are told.
    session: i64,
}

impl<A: Allocator + Copy> Model for Bench<A> {
    ghost use Rattle.std.specs.Prelude.{◌<◌};
    ghost use Rattle.zk_bench.specs.Served.{Served};
    ghost use Rattle.zk_bench.specs.Linked.{linked_of};

    ghost Value = { Served };

    ghost view = { λ b. record {
      history = b.history;
      taken = b.taken;
      server = b.server;
      connection = linked_of b.connection;
      expired = b.expired;
      time = b.time;
      session = b.session;
    } };

    ghost invariant = { λ b. b.server < 8 };
}

impl<A: Allocator + Copy> Bench<A> {
    /// Servers over a history, each before its first transaction. None is connected, the time is 0, and the session has number 1.
    pub fn new(alloc: A, history: History<A>) -> Bench<A>
        ensures is { result ≡ started history }
        ensures ready { IsReady result }
    {
        Bench {
            alloc,
            history,
            taken: [0; 8],
            server: 0,
            connection: Connection::new(alloc, Phase::Apart),
            expired: false,
            time: 0,
            session: 1,
        }
    }

    /// The history, with the accepted writes.
    pub fn history(&self) -> &History<A>
        ensures { result.now ≡ self.now.history }
    {
        &self.history
    }

    /// A new connection to a server, 1 to 8. What the one before left is dropped.
    pub fn connect(&mut self, n: usize)
        requires low { 1 ≤ n }
        requires high { n ≤ 8 }
        ensures is { self.new ≡ connected self.old (n - 1) }
        ensures ready { IsReady self.old → IsReady self.new }
    {
        self.server = n - 1;
        self.connection = Connection::new(self.alloc, Phase::Opening);
    }

    /// The connection is gone, with its watches and all bytes on their way.
    pub fn disconnect(&mut self)
        ensures is { self.new ≡ disconnected self.old }
        ensures ready { IsReady self.old → IsReady self.new }
    {
        self.connection = Connection::new(self.alloc, Phase::Apart);
    }

    /// From now on clients are answered that their session has expired.
    pub fn expire(&mut self)
        ensures { self.new ≡ record self.old { expired = true } }
    {
        self.expired = true;
    }

    /// From now on clients are admitted again: one whose session has expired begins a new one.
    pub fn renew(&mut self)
        ensures { self.new ≡ record self.old { expired = false } }
    {
        self.expired = false;
    }

    /// From now on accepted clients have the session of this number, and ephemeral nodes that they make are its own. So benches of several
    /// sessions tell them apart.
    pub fn number(&mut self, session: i64)
        ensures { self.new ≡ record self.old { session = session } }
    {
        self.session = session;
    }

    /// Whether a server has the connection, and takes requests.
    pub fn is_open(&self) -> bool
        ensures { result ≡ is_open self.now.connection.phase }
    {
        Connection::is_open(&self.connection)
    }

    /// How many bytes came in that are not processed.
    pub fn waiting(&self) -> usize
        ensures { result ≡ bytes_of self.now.connection.requests }
    {
        self.connection.requests.len()
    }

    /// What stands at the front of the bytes that came in and are not processed.
    pub fn front(&self) -> Front
        ensures front { IsFront self.now.connection.requests result }
        ensures framed { IsFramed self.now.connection.requests result }
    {
        first_frame(self.connection.requests.as_slice())
    }

    /// One more transaction, of another session, with this change alone: it stands at the end of the history, one zxid above the last, at
    /// the time of [`now`](Bench::now), and no server has taken it yet. So others may change what the client watches whenever the test
    /// says. Where the history does not allow the change (`Illegal`), a transaction with no change is there; it may also be there where
    /// memory is refused (`Memory`). `Order` says that the zxid or the time would be past 2^63 - 1: then nothing has changed.
    pub fn append(&mut self, change: Change<A>) -> Result<(), HistoryFault>
        ensures ok { OnOk result (self.new ≡ record self.old { history = appended self.old.history self.old.time (change_of change) }) }
        ensures goes_on { Continues self.old.history self.new.history }
        ensures order { IfErr result (λ fault. fault ≡ faults.Order → self.new ≡ self.old) }
        ensures rest { self.new ≡ record self.old { history = self.new.history } }
    {
        append(&mut self.history, self.time, change)
    }

    /// Sets the time of the writes that are accepted from now on, in milliseconds since the epoch. It may go back.
    pub fn now(&mut self, ms: u64)
        ensures { self.new ≡ record self.old { time = ms } }
    {
        self.time = ms;
    }

    /// Bytes from the client to the connected server; they are lost where none is, or where it has ended the connection.
    /// A refusal changes nothing.
    pub fn receive(&mut self, bytes: &[u8]) -> Result<(), AllocError>
        ensures ok { OnOk result (is_open self.old.connection.phase ≡ true → self.new ≡ with_requests self.old bytes.now) }
        ensures lost { is_open self.old.connection.phase ≡ false → self.new ≡ self.old }
        ensures err { OnErr result (self.new ≡ self.old) }
    {
        if self.connection.is_open() {
            self.connection.requests.extend_from_slice(bytes)?;
        }
        Ok(())
    }

    /// Takes out the first bytes that the server sent, at most this many. A refusal changes nothing.
    pub fn output(&mut self, most: usize) -> Result<Vec<u8, A>, AllocError>
        ensures bytes { IfOk result (λ bytes. bytes.items ≡ first most self.old.connection.output) }
        ensures rest { OnOk result (self.new ≡ without_output self.old most) }
        ensures err { OnErr result (self.new ≡ self.old) }
    {
        let count = most.min(self.connection.output.len());
        let bytes = Vec::from_slice(self.alloc, &self.connection.output[..count])?;
        remove_front(&mut self.connection.output, count);
        Ok(bytes)
    }

    /// A server, 1 to 8, takes the next transaction of the history, if there is one. If it is the one that is connected,
    /// and has accepted the client, it sends the notices of the watches that fire.
    pub fn take(&mut self, n: usize) -> Result<(), AllocError>
        requires low { 1 ≤ n }
        requires high { n ≤ 8 }
        ensures taken { self.new.taken ≡ advanced self.old (n - 1) }
        ensures elsewhere { n - 1 ≢ self.old.server → self.new.connection ≡ self.old.connection }
        // The connected server advances as a server of the laws does.
        ensures ready { IsReady self.old → IsReady self.new }
        ensures advances { IsReady self.old → n - 1 ≡ self.old.server → is_open self.old.connection.phase ≡ true
            → OnOk result (TakesSome (shown_of self.old) (shown_of self.new)) }
        ensures apart { is_open self.old.connection.phase ≡ false → OnOk result (self.new.connection ≡ self.old.connection) }
        ensures lost { OnErr result (self.new.connection ≡ linked Apart) }
        ensures stays { OnOk result (self.new.connection.phase ≡ self.old.connection.phase) }
        ensures rest { self.new ≡ record self.old { taken = self.new.taken; connection = self.new.connection } }
    {
        let outcome = self.take_next(n - 1);
        self.settle(outcome)
    }

    /// The connected server processes the next whole request, if there is one.
    ///
    /// The first is a ConnectRequest: a server that is after its zxid ends the connection without an answer. Reads and setWatches are
    /// answered at the server's place in the history. A write first takes all transactions that are left; one that is accepted is appended
    /// to the history, and taken before the reply. A frame that is none of these requests ends the connection without an answer, and so do
    /// a create with flags other than 0 to 3 and a reply of more than 2,147,483,647 bytes. Each other request is answered.
    #[tactic(auto, using(crate::proofs::Continuing::same_goes_on))]
    pub fn process(&mut self) -> Result<(), AllocError>
        ensures idle { is_open self.old.connection.phase ≡ false → self.new ≡ self.old }
        ensures waits { IsShort self.old.connection.requests → self.new ≡ self.old }
        ensures ends { is_open self.old.connection.phase ≡ true → IsNegative self.old.connection.requests → self.new ≡ ended self.old }
        ensures processed { (count : ℕ) → is_open self.old.connection.phase ≡ true → IsWhole self.old.connection.requests count
            → OnOk result (self.new.connection.requests ≡ drop (4 + count) self.old.connection.requests) }
        // The request that stands first, if it is one for the stage, is processed as a server of the laws does, and answered if it has one.
        ensures ready { IsReady self.old → IsReady self.new }
        ensures serves { (request : Wanted) (xid : ℤ) (payload rest : List ℕ) → IsReady self.old → is_open self.old.connection.phase ≡ true
            → StandsFirst request xid payload rest self.old.connection.requests → IsFor request (shown_of self.old).server.stage
            → OnOk result (ProcessesFirst request xid payload (shown_of self.old) (shown_of self.new)) }
        ensures answers { (request : Wanted) (xid : ℤ) (payload rest : List ℕ) → IsReady self.old → is_open self.old.connection.phase ≡ true
            → StandsFirst request xid payload rest self.old.connection.requests → IsFor request (shown_of self.old).server.stage
            → IsAnswerable request self.old → OnOk result (AnswersFirst request xid (shown_of self.old) (shown_of self.new)) }
        // A call that its caller has spelled is none that it knows: the server ends the connection there, and sends nothing.
        ensures ends_first { (operation : RawOperation) (given : List ℕ) (xid : ℤ) (payload rest : List ℕ)
            → self.old.connection.phase ≡ Accepted → StandsFirst (Ask (Raw operation given)) xid payload rest self.old.connection.requests
            → OnOk result (self.new ≡ ended (left_with self.old rest)) }
        ensures lost { OnErr result (self.new.connection ≡ linked Apart) }
        ensures history { Continues self.old.history self.new.history }
        ensures rest { self.new ≡ record self.old { history = self.new.history; taken = self.new.taken; connection = self.new.connection } }
    {
        if !self.connection.is_open() {
            return Ok(());
        }
        let outcome = self.process_next();
        self.settle(outcome)
    }

    // Processes the request that stands first, if it is whole.
    #[tactic(auto, using(crate::proofs::Continuing::same_goes_on))]
    fn process_next(&mut self) -> Result<(), Stop>
        ensures waits { IsShort self.old.connection.requests → (self.new ≡ self.old) × IsOk result }
        ensures ends { IsNegative self.old.connection.requests → (self.new ≡ self.old) × IsErrOf result stops.End }
        ensures processed { (count : ℕ) → IsWhole self.old.connection.requests count
            → self.new.connection.requests ≡ drop (4 + count) self.old.connection.requests }
        ensures ready { is_open self.old.connection.phase ≡ true → IsReady self.old → IsReady self.new }
        ensures serves { (asked : Wanted) (xid : ℤ) (payload rest : List ℕ) → IsReady self.old → is_open self.old.connection.phase ≡ true
            → StandsFirst asked xid payload rest self.old.connection.requests → IsFor asked (stage_of self.old.connection.phase)
            → OnOk result (AnswersOne asked xid (shown_of self.old) (shown_of self.new)) }
        ensures breaks { (asked : Wanted) (xid : ℤ) (payload rest : List ℕ) → IsReady self.old → is_open self.old.connection.phase ≡ true
            → StandsFirst asked xid payload rest self.old.connection.requests → IsFor asked (stage_of self.old.connection.phase)
            → IsErrOf result stops.End → ProcessesOne asked xid (shown_of self.old) (shown_of (ended self.new)) }
        ensures stays { (asked : Wanted) (xid : ℤ) (payload rest : List ℕ) → IsReady self.old → is_open self.old.connection.phase ≡ true
            → StandsFirst asked xid payload rest self.old.connection.requests
            → IsFor asked (stage_of self.old.connection.phase) → IsAnswerable asked self.old → ¬ IsErrOf result stops.End }
        ensures unknown { (operation : RawOperation) (given : List ℕ) (xid : ℤ) (payload rest : List ℕ)
            → self.old.connection.phase ≡ Accepted → StandsFirst (Ask (Raw operation given)) xid payload rest self.old.connection.requests
            → (self.new ≡ left_with self.old rest) × OnOk result ⊥ }
        ensures history { Continues self.old.history self.new.history }
        ensures rest { self.new ≡ record self.old { history = self.new.history; taken = self.new.taken; connection = self.new.connection } }
    {
        match first_frame(self.connection.requests.as_slice()) {
            Front::Unfinished => Ok(()),
            Front::Negative => Err(Stop::End),
            Front::Whole(length) => self.process_frame(length),
        }
    }

    // The connection goes on, has ended, or is given up where memory ran out.
    fn settle(&mut self, outcome: Result<(), Stop>) -> Result<(), AllocError>
        ensures ok { OnOk outcome (self.new ≡ self.old) }
        ensures ended { IsErrOf outcome stops.End → self.new ≡ ended self.old }
        ensures lost { IsErrOf outcome stops.Memory → self.new ≡ disconnected self.old }
        ensures gives_up { IsErrOf outcome stops.Memory → OnOk result ⊥ }
        ensures requests { OnOk result (self.new.connection.requests ≡ self.old.connection.requests) }
        ensures err { OnErr result (self.new ≡ disconnected self.old) }
    {
        match outcome {
            Ok(()) => Ok(()),
            Err(Stop::End) => {
                self.connection.phase = Phase::Ended;
                Ok(())
            }
            Err(Stop::Memory) => {
                self.disconnect();
                Err(AllocError)
            }
        }
    }

    fn take_next(&mut self, server: usize) -> Result<(), Stop>
        requires { server < 8 }
        ensures taken { self.new.taken ≡ advanced self.old server }
        ensures elsewhere { server ≢ self.old.server → (self.new.connection ≡ self.old.connection) × IsOk result }
        ensures ready { IsReady self.old → IsReady self.new }
        ensures advances { IsReady self.old → server ≡ self.old.server → is_open self.old.connection.phase ≡ true
            → OnOk result (TakesSome (shown_of self.old) (shown_of self.new)) }
        ensures apart { is_open self.old.connection.phase ≡ false → (self.new.connection ≡ self.old.connection) × IsOk result }
        ensures sent { OnErr result (self.new.connection.output ≡ self.old.connection.output) }
        ensures phase { self.new.connection.phase ≡ self.old.connection.phase }
        ensures stays { ¬ IsErrOf result stops.End }
        ensures rest { self.new ≡ record self.old { taken = self.new.taken; connection = self.new.connection } }
    {
        let place = self.taken[server];
        let Some(changes) = next_changes(&self.history, place) else {
            return Ok(());
        };
        self.taken[server] = place + 1;
        if self.server == server {
            tell_accepted(self.alloc, changes, &mut self.connection)?;
        }
        Ok(())
    }

    fn zxid(&self) -> i64
        ensures { IsReady self.now → result ≡ pos (zxid_held (history_of self.now.history) (slice_index self.now.taken self.now.server)) }
    {
        zxid_after(&self.history, self.taken[self.server])
    }

    // Processes the first frame, whose payload has this many bytes.
    #[tactic(auto, using(crate::proofs::Continuing::same_goes_on))]
    fn process_frame(&mut self, length: usize) -> Result<(), Stop>
        requires { 4 + length ≤ bytes_of self.old.connection.requests }
        ensures processed { self.new.connection.requests ≡ drop (4 + length) self.old.connection.requests }
        ensures history { Continues self.old.history self.new.history }
        ensures rest { self.new ≡ record self.old { history = self.new.history; taken = self.new.taken; connection = self.new.connection } }
        ensures ready { is_open self.old.connection.phase ≡ true → IsReady self.old → IsReady self.new }
        ensures serves { (asked : Wanted) (xid : ℤ) → IsReady self.old → is_open self.old.connection.phase ≡ true
            → IsFor asked (stage_of self.old.connection.phase) → IsReadAs asked xid (first length (drop 4 self.old.connection.requests))
            → IsFit asked (first length (drop 4 self.old.connection.requests))
            → OnOk result (AnswersOne asked xid (shown_of self.old) (shown_of self.new)) }
        ensures ends { (asked : Wanted) (xid : ℤ) → IsReady self.old → is_open self.old.connection.phase ≡ true
            → IsFor asked (stage_of self.old.connection.phase) → IsReadAs asked xid (first length (drop 4 self.old.connection.requests))
            → IsFit asked (first length (drop 4 self.old.connection.requests)) → IsErrOf result stops.End
            → ProcessesOne asked xid (shown_of self.old) (shown_of (ended self.new)) }
        ensures stays { (asked : Wanted) (xid : ℤ) → IsReady self.old → is_open self.old.connection.phase ≡ true
            → IsFor asked (stage_of self.old.connection.phase) → IsReadAs asked xid (first length (drop 4 self.old.connection.requests))
            → IsFit asked (first length (drop 4 self.old.connection.requests)) → IsAnswerable asked self.old → ¬ IsErrOf result stops.End }
        ensures unknown { (operation : RawOperation) (given : List ℕ) (xid : ℤ) → self.old.connection.phase ≡ Accepted
            → IsReadAs (Ask (Raw operation given)) xid (first length (drop 4 self.old.connection.requests))
            → (self.new ≡ left_with self.old (drop (4 + length) self.old.connection.requests)) × OnOk result ⊥ }
    {
        match self.connection.phase {
            Phase::Opening => self.process_first(length),
            _ => self.process_later(length),
        }
    }

    #[tactic(auto, using(crate::proofs::Continuing::same_goes_on))]
    fn process_later(&mut self, length: usize) -> Result<(), Stop>
        requires { 4 + length ≤ bytes_of self.old.connection.requests }
        ensures serves { (asked : Wanted) (xid : ℤ) → HasClient self.old → IsFor asked Serving → IsReadAs asked xid
            (first length (drop 4 self.old.connection.requests)) → IsFit asked (first length (drop 4 self.old.connection.requests))
            → OnOk result (AnswersOne asked xid (shown_of self.old) (shown_of self.new)) }
        ensures ends { (asked : Wanted) (xid : ℤ) → HasClient self.old → IsFor asked Serving → IsReadAs asked xid
            (first length (drop 4 self.old.connection.requests)) → IsFit asked (first length (drop 4 self.old.connection.requests))
            → IsErrOf result stops.End → ProcessesOne asked xid (shown_of self.old) (shown_of (ended self.new)) }
        ensures stays { (asked : Wanted) (xid : ℤ) → HasClient self.old → IsFor asked Serving → IsReadAs asked xid
            (first length (drop 4 self.old.connection.requests)) → IsFit asked (first length (drop 4 self.old.connection.requests))
            → IsAnswerable asked self.old → ¬ IsErrOf result stops.End }
        ensures unknown { (operation : RawOperation) (given : List ℕ) (xid : ℤ)
            → IsReadAs (Ask (Raw operation given)) xid (first length (drop 4 self.old.connection.requests))
            → (self.new ≡ left_with self.old (drop (4 + length) self.old.connection.requests)) × OnOk result ⊥ }
        ensures ready { HasClient self.old → IsReady self.new }
        ensures processed { self.new.connection.requests ≡ drop (4 + length) self.old.connection.requests }
        ensures history { Continues self.old.history self.new.history }
        ensures rest { self.new ≡ record self.old { history = self.new.history; taken = self.new.taken; connection = self.new.connection } }
    {
        let next = next_request(self.alloc, &self.connection.requests, length);
        remove_front(&mut self.connection.requests, 4 + length);
        let (xid, request) = next?;
        match self.answer(xid, request) {
            Ok(()) => Ok(()),
            Err(Refusal::Stop(stop)) => Err(stop),
            Err(Refusal::Code(code)) => self.send_err(xid, code.number()),
        }
    }

    // The same for the first frame of a connection.
    fn process_first(&mut self, length: usize) -> Result<(), Stop>
        requires { 4 + length ≤ bytes_of self.old.connection.requests }
        ensures ready { IsReady self.old → IsReady self.new }
        ensures connects { (seen : ℕ) (timeout session : ℤ) (password : List ℕ) (xid : ℤ) → IsReady self.old
            → self.old.connection.phase ≡ Opening
            → IsRecord connect_request (pos 0, (pos seen, (timeout, (session, (Some password, false)))))
            (first length (drop 4 self.old.connection.requests)) → int_lt (pos 0) timeout ≡ true
            → OnOk result (AnswersOne (Connect seen) xid (shown_of self.old) (shown_of self.new)) }
        ensures stays { (seen : ℕ) (timeout session : ℤ) (password : List ℕ) → IsReady self.old
            → IsRecord connect_request (pos 0, (pos seen, (timeout, (session, (Some password, false)))))
            (first length (drop 4 self.old.connection.requests)) → seen ≤ zxid_of self.old → ¬ IsErrOf result stops.End }
        ensures sent { IsErrOf result stops.End → self.new.connection.output ≡ self.old.connection.output }
        ensures processed { self.new.connection.requests ≡ drop (4 + length) self.old.connection.requests }
        ensures rest { self.new ≡ record self.old { taken = self.new.taken; connection = self.new.connection } }
    {
        let first = first_request(self.alloc, &self.connection.requests, length);
        remove_front(&mut self.connection.requests, 4 + length);
        self.admit(&first?)
    }

    fn send_err(&mut self, xid: i32, err: i32) -> Result<(), Stop>
        ensures sends { IsReady self.old
            → OnOk result (SendsHeader (xid, (pos (zxid_of self.old), err)) self.old.connection.output self.new.connection.output) }
        ensures sent { IsErrOf result stops.End → self.new.connection.output ≡ self.old.connection.output }
        ensures stays { ¬ IsErrOf result stops.End }
        ensures only { IsSending self.old self.new }
    {
        let zxid = self.zxid();
        let header = ReplyHeader { xid, zxid, err };
        send_header(self.alloc, header, &mut self.connection.output)
    }

    // Answers the first request of a connection.
    fn admit(&mut self, request: &ConnectRequest<A>) -> Result<(), Stop>
        ensures ready { IsReady self.old → IsReady self.new }
        ensures admits { (seen : ℕ) (xid : ℤ) → IsReady self.old → self.old.connection.phase ≡ Opening
            → request.now.last_zxid_seen ≡ pos seen → int_lt (pos 0) request.now.time_out ≡ true
            → OnOk result (AnswersOne (Connect seen) xid (shown_of self.old) (shown_of self.new)) }
        ensures stays { (seen : ℕ) → IsReady self.old → request.now.last_zxid_seen ≡ pos seen → seen ≤ zxid_of self.old
            → ¬ IsErrOf result stops.End }
        ensures sent { IsErrOf result stops.End → self.new.connection.output ≡ self.old.connection.output }
        ensures requests { self.new.connection.requests ≡ self.old.connection.requests }
        ensures rest { self.new ≡ record self.old { taken = self.new.taken; connection = self.new.connection } }
    {
        if self.zxid() < request.last_zxid_seen {
            return Err(Stop::End);
        }
        if self.expired {
            send_expired(self.alloc, &mut self.connection.output)?;
            self.connection.phase = Phase::Ended;
            return Ok(());
        }
        let out = &mut self.connection.output;
        send_accepted(self.alloc, self.session, request.time_out, out)?;
        self.connection.phase = Phase::Accepted;
        Ok(())
    }

    // Answers a request with its result, or says why it has none.
    #[tactic(auto, using(crate::proofs::Continuing::same_goes_on))]
    fn answer(&mut self, xid: i32, request: Request<A>) -> Result<(), Refusal>
        ensures answers { (asked : Wanted) → HasClient self.old → Asks request asked
            → OnOk result (AnswersOne asked xid (shown_of self.old) (shown_of self.new)) }
        ensures declines { (asked : Wanted) → HasClient self.old → Asks request asked
            → IfErr result (Declines asked xid self.old self.new) }
        ensures stays { (asked : Wanted) → HasClient self.old → Asks request asked → IsAnswerable asked self.old
            → Fits (body_layout (operation_of request)) (body_of request) → ¬ IsErrOf result (refusals.Stop stops.End) }
        ensures ready { HasClient self.old → IsReady self.new }
        ensures requests { self.new.connection.requests ≡ self.old.connection.requests }
        ensures history { Continues self.old.history self.new.history }
        ensures rest { self.new ≡ record self.old { history = self.new.history; taken = self.new.taken; connection = self.new.connection } }
    {
        match request {
            Request::Create(r) => self.create(xid, r),
            Request::SetData(r) => self.set_data(xid, r),
            Request::Delete(r) => self.delete(xid, &r),
            Request::Ping => {
                self.pong()?;
                Ok(())
            }
            Request::CloseSession => {
                self.close(xid)?;
                Ok(())
            }
            other => {
                let outcome = self.read(xid, &other);
                drop(other);
                outcome
            }
        }
    }

    // Answers a request that leaves the history as it is.
    fn read(&mut self, xid: i32, request: &Request<A>) -> Result<(), Refusal>
        ensures answers { (asked : Wanted) → HasClient self.old → IsLook asked → Asks request.now asked
            → OnOk result (AnswersOne asked xid (shown_of self.old) (shown_of self.new)) }
        ensures declines { (asked : Wanted) → HasClient self.old → IsLook asked → Asks request.now asked
            → IfErr result (Declines asked xid self.old self.new) }
        ensures stays { (asked : Wanted) → HasClient self.old → IsLook asked → Asks request.now asked → IsAnswerable asked self.old
            → ¬ IsErrOf result (refusals.Stop stops.End) }
        ensures ready { HasClient self.old → IsReady self.new }
        ensures requests { self.new.connection.requests ≡ self.old.connection.requests }
        ensures rest { self.new ≡ record self.old { connection = self.new.connection } }
    {
        let tree = Tree {
            alloc: self.alloc,
            history: &self.history,
            zxid: zxid_after(&self.history, self.taken[self.server]),
        };
        read(&tree, xid, request, &mut self.connection)
    }

    fn pong(&mut self) -> Result<(), Stop>
        ensures answers { (xid : ℤ) → HasClient self.old → OnOk result (AnswersOne Ping xid (shown_of self.old) (shown_of self.new)) }
        ensures ends { (xid : ℤ) → HasClient self.old → IsErrOf result stops.End
            → ProcessesOne Ping xid (shown_of self.old) (shown_of (ended self.new)) }
        ensures stays { ¬ IsErrOf result stops.End }
        ensures only { IsSending self.old self.new }
    {
        self.send_err(PONG, 0)
    }

    // Answers the end of a session, and ends the connection.
    fn close(&mut self, xid: i32) -> Result<(), Stop>
        ensures answers { HasClient self.old → OnOk result (AnswersOne (Ask Close) xid (shown_of self.old) (shown_of self.new)) }
        ensures ends { HasClient self.old → IsErrOf result stops.End
            → ProcessesOne (Ask Close) xid (shown_of self.old) (shown_of (ended self.new)) }
        ensures stays { ¬ IsErrOf result stops.End }
        ensures ready { HasClient self.old → IsReady self.new }
        ensures requests { self.new.connection.requests ≡ self.old.connection.requests }
        ensures rest { self.new ≡ record self.old { connection = self.new.connection } }
    {
        self.send_err(xid, 0)?;
        self.connection.phase = Phase::Ended;
        Ok(())
    }

    // The connected server takes all transactions that are left.
    fn catch_up(&mut self) -> Result<(), Stop>
        ensures takes { HasClient self.old → OnOk result (TakesSome (shown_of self.old) (shown_of self.new)) }
        ensures ends { HasClient self.old → OnErr result (TakesSome (shown_of self.old) (shown_of (ended self.new))) }
        ensures all { HasClient self.old → OnOk result (HasAll self.new) }
        ensures stays { ¬ IsErrOf result stops.End }
        ensures has { HasClient self.old → HasClient self.new }
        ensures requests { self.new.connection.requests ≡ self.old.connection.requests }
        ensures rest { self.new ≡ record self.old { taken = self.new.taken; connection = self.new.connection } }
    {
        let server = self.server;
        take_all(
            self.alloc,
            &self.history,
            &mut self.taken[server],
            &mut self.connection,
        )
    }

    fn newest(&self) -> Tree<'_, A>
        ensures history { result.history.now ≡ self.now.history }
        ensures seen { tree_of result.history.now result.zxid ≡ newest_tree self.now.history }
        ensures held { HasAll self.now → tree_at (history_of self.now.history) (natural result.zxid)
            ≡ tree_held (history_of self.now.history) (slice_index self.now.taken self.now.server) }
    {
        Tree {
            alloc: self.alloc,
            history: &self.history,
            zxid: self.history.last_zxid(),
        }
    }

    // Appends a change to the history, and the connected server takes it.
    #[tactic(auto, using(crate::proofs::Continuing::same_goes_on))]
    fn write(&mut self, change: Change<A>) -> Result<(), Refusal>
        ensures takes { HasClient self.old → OnOk result (TakesSome (shown_of self.old) (shown_of self.new)) }
        ensures wrote { HasClient self.old → OnOk result (HasWritten (change_of change) self.new) }
        ensures all { HasClient self.old → OnOk result (HasAll self.new) }
        ensures refuses { HasClient self.old → IfErr result (LeavesUnmade self.old self.new) }
        ensures stays { IsAccepted (change_of change) (newest_tree self.old.history) → ¬ IsErrOf result (refusals.Stop stops.End) }
        ensures has { HasClient self.old → HasClient self.new }
        ensures requests { self.new.connection.requests ≡ self.old.connection.requests }
        ensures history { Continues self.old.history self.new.history }
        ensures rest { self.new ≡ record self.old { history = self.new.history; taken = self.new.taken; connection = self.new.connection } }
    {
        append_write(&mut self.history, self.time, change)?;
        self.catch_up()?;
        Ok(())
    }

    // The mode of a create, for which the connected server has taken all transactions that are left.
    fn mode_caught_up(&mut self, flags: i32) -> Result<Mode, Stop>
        ensures mode { IfOk result (λ mode. mode_told flags ≡ Some (mode.ephemeral, mode.sequential)) }
        ensures takes { HasClient self.old → OnOk result (TakesSome (shown_of self.old) (shown_of self.new)) }
        ensures ends { HasClient self.old → OnErr result (TakesSome (shown_of self.old) (shown_of (ended self.new))) }
        ensures stays { (number : ℕ) → flags ≡ pos number → number ≤ 3 → ¬ IsErrOf result stops.End }
        ensures has { HasClient self.old → HasClient self.new }
        ensures requests { self.new.connection.requests ≡ self.old.connection.requests }
        ensures rest { self.new ≡ record self.old { taken = self.new.taken; connection = self.new.connection } }
    {
        let Some(mode) = mode_of(flags) else {
            return Err(Stop::End);
        };
        self.catch_up()?;
        Ok(mode)
    }

    // Answers a create: the codes of the specification in their order, or the path that is made.
    #[tactic(auto, using(crate::proofs::Continuing::same_goes_on))]
    fn create(&mut self, xid: i32, request: CreateRequest<A>) -> Result<(), Refusal>
        ensures answers { (asked : Wanted) → HasClient self.old → Asks (requests.Create request) asked
            → OnOk result (AnswersOne asked xid (shown_of self.old) (shown_of self.new)) }
        ensures declines { (asked : Wanted) → HasClient self.old → Asks (requests.Create request) asked
            → IfErr result (Declines asked xid self.old self.new) }
        ensures stays { (asked : Wanted) → Asks (requests.Create request) asked → size_of request.bytes ≤ 2147483647
            → ¬ IsErrOf result (refusals.Stop stops.End) }
        ensures has { HasClient self.old → HasClient self.new }
        ensures requests { self.new.connection.requests ≡ self.old.connection.requests }
        ensures history { Continues self.old.history self.new.history }
        ensures rest { self.new ≡ record self.old { history = self.new.history; taken = self.new.taken; connection = self.new.connection } }
    {
        let CreateRequest {
            path,
            bytes,
            acl,
            flags,
        } = request;
        drop(acl);
        let mode = match self.mode_caught_up(flags) {
            Ok(mode) => mode,
            Err(stop) => {
                drop(path);
                drop(bytes);
                return Err(Refusal::Stop(stop));
            }
        };
        let outcome = self.make(xid, mode, text_of(&path), bytes);
        drop(path);
        outcome
    }

    // Makes a node in this mode, below the newest tree, and answers with its path.
    #[tactic(auto, using(crate::proofs::Continuing::same_goes_on))]
    fn make(&mut self, xid: i32, mode: Mode, text: &str, bytes: Buffer<A>) -> Result<(), Refusal>
        ensures answers { (number : ℕ) → HasClient self.old → is_sequential number ≡ mode.sequential
            → OnOk result (AnswersOne (Ask (Create text.now bytes number)) xid (shown_of self.old) (shown_of self.new)) }
        ensures declines { (number : ℕ) → HasClient self.old
            → IfErr result (Declines (Ask (Create text.now bytes number)) xid self.old self.new) }
        ensures stays { size_of bytes ≤ 2147483647 → ¬ IsErrOf result (refusals.Stop stops.End) }
        ensures has { HasClient self.old → HasClient self.new }
        ensures requests { self.new.connection.requests ≡ self.old.connection.requests }
        ensures history { Continues self.old.history self.new.history }
        ensures rest { self.new ≡ record self.old { history = self.new.history; taken = self.new.taken; connection = self.new.connection } }
    {
        let (made, change) = creation(&self.newest(), self.session, mode, text, bytes)?;
        if let Err(refusal) = self.write(change) {
            drop(made);
            return Err(refusal);
        }
        let outcome = self.send_created(xid, made.as_str());
        drop(made);
        outcome?;
        Ok(())
    }

    fn send_created(&mut self, xid: i32, text: &str) -> Result<(), Stop>
        ensures sends { IsReady self.old → OnOk result (Sends (xid, (pos (zxid_of self.old), pos 0)) create_response
            (Some text.now) self.old.connection.output self.new.connection.output) }
        ensures sent { IsErrOf result stops.End → self.new.connection.output ≡ self.old.connection.output }
        ensures stays { IsPath text.now → ¬ IsErrOf result stops.End }
        ensures only { IsSending self.old self.new }
    {
        let zxid = self.zxid();
        let path = TextRef { text: Some(text) };
        let record = CreateRef { path };
        send_result(self.alloc, xid, zxid, record, &mut self.connection.output)
    }

    // Answers a setData: the codes of the specification in their order, or the Stat after the write.
    #[tactic(auto, using(crate::proofs::Continuing::same_goes_on))]
    fn set_data(&mut self, xid: i32, request: SetDataRequest<A>) -> Result<(), Refusal>
        ensures answers { (asked : Wanted) → HasClient self.old → Asks (requests.SetData request) asked
            → OnOk result (AnswersOne asked xid (shown_of self.old) (shown_of self.new)) }
        ensures declines { (asked : Wanted) → HasClient self.old → Asks (requests.SetData request) asked
            → IfErr result (Declines asked xid self.old self.new) }
        ensures stays { size_of request.bytes ≤ 2147483647 → ¬ IsErrOf result (refusals.Stop stops.End) }
        ensures has { HasClient self.old → HasClient self.new }
        ensures requests { self.new.connection.requests ≡ self.old.connection.requests }
        ensures history { Continues self.old.history self.new.history }
        ensures rest { self.new ≡ record self.old { history = self.new.history; taken = self.new.taken; connection = self.new.connection } }
    {
        let SetDataRequest {
            path,
            bytes,
            version,
        } = request;
        let outcome = self.set_bytes(xid, text_of(&path), bytes, version);
        drop(path);
        outcome
    }

    #[tactic(auto, using(crate::proofs::Continuing::same_goes_on))]
    fn set_bytes(
        &mut self,
        xid: i32,
        text: &str,
        bytes: Buffer<A>,
        version: i32,
    ) -> Result<(), Refusal>
        ensures answers { HasClient self.old → IsPath text.now
            → OnOk result (AnswersOne (Ask (SetData text.now bytes version)) xid (shown_of self.old) (shown_of self.new)) }
        ensures declines { HasClient self.old → IsPath text.now
            → IfErr result (Declines (Ask (SetData text.now bytes version)) xid self.old self.new) }
        ensures stays { size_of bytes ≤ 2147483647 → ¬ IsErrOf result (refusals.Stop stops.End) }
        ensures has { HasClient self.old → HasClient self.new }
        ensures requests { self.new.connection.requests ≡ self.old.connection.requests }
        ensures history { Continues self.old.history self.new.history }
        ensures rest { self.new ≡ record self.old { history = self.new.history; taken = self.new.taken; connection = self.new.connection } }
    {
        if let Err(stop) = self.catch_up() {
            drop(bytes);
            return Err(Refusal::Stop(stop));
        }
        let path = match written_path(&self.newest(), text, version) {
            Ok(path) => path,
            Err(refusal) => {
                drop(bytes);
                return Err(refusal);
            }
        };
        self.write(Change::Set(path, bytes.into_inner()))?;
        self.send_stat(xid, text)
    }

    fn send_stat(&mut self, xid: i32, text: &str) -> Result<(), Refusal>
        ensures sends { IsReady self.old → HasAll self.old → IsPath text.now → OnOk result (SendsStat xid text.now self.old self.new) }
        ensures unsent { IfErr result (LeavesUnsent self.old self.new) }
        ensures stays { ¬ IsErrOf result (refusals.Stop stops.End) }
        ensures only { IsSending self.old self.new }
    {
        let zxid = self.zxid();
        let Some(stat) = self.newest().stat(text)? else {
            return Err(Refusal::Code(Code::NoNode));
        };
        let out = &mut self.connection.output;
        send_result(self.alloc, xid, zxid, stat, out)?;
        Ok(())
    }

    // Answers a delete: the codes of the specification in their order, or a header alone.
    #[tactic(auto, using(crate::proofs::Continuing::same_goes_on))]
    fn delete(&mut self, xid: i32, request: &DeleteRequest<A>) -> Result<(), Refusal>
        ensures answers { (asked : Wanted) → HasClient self.old → Asks (requests.Delete request.now) asked
            → OnOk result (AnswersOne asked xid (shown_of self.old) (shown_of self.new)) }
        ensures declines { (asked : Wanted) → HasClient self.old → Asks (requests.Delete request.now) asked
            → IfErr result (Declines asked xid self.old self.new) }
        ensures stays { ¬ IsErrOf result (refusals.Stop stops.End) }
        ensures has { HasClient self.old → HasClient self.new }
        ensures requests { self.new.connection.requests ≡ self.old.connection.requests }
        ensures history { Continues self.old.history self.new.history }
        ensures rest { self.new ≡ record self.old { history = self.new.history; taken = self.new.taken; connection = self.new.connection } }
    {
        self.catch_up()?;
        let path = deleted_path(&self.newest(), request)?;
        self.write(Change::Delete(path))?;
        self.send_err(xid, 0)?;
        Ok(())
    }
}
