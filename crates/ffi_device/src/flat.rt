//! Answers, states and faults as numbers.

ghost use Rattle.std.specs.Prelude.{◌≡◌, length, pos};
ghost use Rattle.zk_client.specs.FaultText.{fault_code};
ghost use Rattle.zk_client.specs.Views.{fault_view};
ghost use Rattle.zk_records.specs.Events.{event_number};
ghost use Rattle.ffi_device.specs.Sessions.{state_number};
ghost use Rattle.ffi_device.specs.Flats.{fault_flat, outcome_flat, outcome_text, plain, side_number, stat_of};
ghost use Rattle.ffi_device.specs.Flats.{with_result};

use std::alloc::Global;
use zk_client::{CallResult, Event, Fault, Outcome, Output, Side, Stat, State};

/// What is known of a node, as the protocol has it.
#[repr(C)]
#[derive(Clone, Copy)]
pub struct FlatStat {
    pub czxid: i64,
    pub mzxid: i64,
    pub ctime: i64,
    pub mtime: i64,
    pub ephemeral_owner: i64,
    pub pzxid: i64,
    pub version: i32,
    pub cversion: i32,
    pub aversion: i32,
    pub data_length: i32,
    pub num_children: i32,
}

/// An output, as numbers. Its text, which is a frame, data, a path, what stands after the header of a reply, or a code, is read separately.
#[repr(C)]
#[derive(Clone, Copy)]
pub struct Flat {
    /// 1 send, 2 answer, 3 report, 4 state, 5 drop; of a session alone 6 dial, 7 hang up, 8 timed out, 9 renewed, 10 shown, 11 refused,
    /// 12 taken on, 13 let go, 14 bounded, 15 whole, 16 answer to a credential.
    pub kind: i32,
    /// Of an answer 0 for a reply, and 1 to 7 for K1 to K7; of a report the event, 1 to 4; of a state 0 to 4; of a drop 1 frame,
    /// 2 payload, 3 silence, 4 after, 5 setWatches; of a refused read 1 code, 2 too many watches, 3 too large, 4 closed.
    pub detail: i32,
    /// Of a reply 1 code, 2 stat, 3 data, 4 names, 5 created, 6 done, 7 what the caller has spelled; of a report 1 for the data and 2 for
    /// the children.
    pub result: i32,
    /// The code of a reply, of a refused setWatches, of a refused read, and of an answer to a credential.
    pub code: i32,
    /// The ticket of an answer, and of a call or a subject; of a dial, for how many milliseconds it is tried.
    pub ticket: u64,
    /// The zxid of a reply, and the one that came after.
    pub zxid: i64,
    /// How many bytes its text has.
    pub length: usize,
    /// How many names a listing has; of a dial the place of the address, and of an answer to a credential the place of that.
    pub names: usize,
    /// Of a reply with data, whether these are null; of a call that has timed out, whether it was sent.
    pub is_null: bool,
    /// Whether there is a stat.
    pub has_stat: bool,
    pub stat: FlatStat,
}

const NO_STAT: FlatStat = FlatStat {
    czxid: 0,
    mzxid: 0,
    ctime: 0,
    mtime: 0,
    ephemeral_owner: 0,
    pzxid: 0,
    version: 0,
    cversion: 0,
    aversion: 0,
    data_length: 0,
    num_children: 0,
};

/// An output of this kind, with this detail and nothing else.
pub(crate) fn plain(kind: i32, detail: i32) -> Flat
    ensures { result ≡ plain kind detail }
{
    Flat {
        kind,
        detail,
        result: 0,
        code: 0,
        ticket: 0,
        zxid: 0,
        length: 0,
        names: 0,
        is_null: false,
        has_stat: false,
        stat: NO_STAT,
    }
}

fn stat_of(stat: &Stat) -> FlatStat
    ensures { result ≡ stat_of stat.now }
{
    FlatStat {
        czxid: stat.czxid,
        mzxid: stat.mzxid,
        ctime: stat.ctime,
        mtime: stat.mtime,
        ephemeral_owner: stat.ephemeral_owner,
        pzxid: stat.pzxid,
        version: stat.version,
        cversion: stat.cversion,
        aversion: stat.aversion,
        data_length: stat.data_length,
        num_children: stat.num_children,
    }
}

// A reply with what it brings.
fn with_result(flat: Flat, brought: &CallResult<Global>) -> Flat
    ensures { result ≡ with_result flat brought.now }
{
    let mut flat = flat;
    match brought {
        CallResult::Code(code) => {
            flat.result = 1;
            flat.code = code.number();
        }
        CallResult::Stat(stat) => {
            flat.result = 2;
            flat.has_stat = true;
            flat.stat = stat_of(stat);
        }
        CallResult::Data { bytes, stat } => {
            flat.result = 3;
            flat.has_stat = true;
            flat.stat = stat_of(stat);
            match bytes {
                Some(bytes) => flat.length = bytes.as_slice().len(),
                None => flat.is_null = true,
            }
        }
        CallResult::Names { names, stat } => {
            flat.result = 4;
            flat.has_stat = true;
            flat.stat = stat_of(stat);
            flat.names = names.len();
        }
        CallResult::Created(path) => {
            flat.result = 5;
            flat.length = path.as_bytes().len();
        }
        CallResult::Done => flat.result = 6,
        CallResult::Raw(bytes) => {
            flat.result = 7;
            flat.length = bytes.as_slice().len();
        }
    }
    flat
}

fn outcome_flat(outcome: &Outcome<Global>) -> Flat
    ensures { result ≡ outcome_flat outcome.now }
{
    match outcome {
        Outcome::Replied { zxid, result } => {
            let mut flat = plain(2, 0);
            flat.zxid = *zxid;
            with_result(flat, result)
        }
        Outcome::ConnectionLoss => plain(2, 1),
        Outcome::SessionExpired => plain(2, 2),
        Outcome::SessionClosed => plain(2, 3),
        Outcome::NotConnected => plain(2, 4),
        Outcome::TooManyWatches => plain(2, 5),
        Outcome::TooLarge => plain(2, 6),
        Outcome::TooManyPending => plain(2, 7),
    }
}

/// A state.
pub(crate) fn state_flat(state: State) -> Flat
    ensures { result ≡ plain (pos 4) (pos (state_number state)) }
{
    match state {
        State::Idle => plain(4, 0),
        State::Connecting => plain(4, 1),
        State::Connected => plain(4, 2),
        State::Expired => plain(4, 3),
        State::Closed => plain(4, 4),
    }
}

fn fault_flat(fault: Fault) -> Flat
    ensures { result ≡ fault_flat fault }
{
    match fault {
        Fault::Framed(_) => plain(5, 1),
        Fault::Talked(_) => plain(5, 2),
        Fault::Silent => plain(5, 3),
        Fault::Behind { seen: _, came } => {
            let mut flat = plain(5, 4);
            flat.zxid = came;
            flat
        }
        Fault::WatchesRefused { code } => {
            let mut flat = plain(5, 5);
            flat.code = code;
            flat
        }
    }
}

/// A frame that is to be sent.
pub(crate) fn send_flat(bytes: &[u8]) -> Flat
    ensures { result ≡ record (plain (pos 1) (pos 0)) { length = length bytes.now } }
{
    let mut flat = plain(1, 0);
    flat.length = bytes.len();
    flat
}

/// An answer to the call of this ticket.
pub(crate) fn answer_flat(ticket: u64, outcome: &Outcome<Global>) -> Flat
    ensures { result ≡ record (outcome_flat outcome.now) { ticket = ticket } }
{
    let mut flat = outcome_flat(outcome);
    flat.ticket = ticket;
    flat
}

/// A report about a side of a path.
pub(crate) fn report_flat(path: &[u8], side: Side, event: Event) -> Flat
    ensures { result ≡ record (plain (pos 3) (event_number event)) { result = side_number side; length = length path.now } }
{
    let mut flat = plain(3, event.number());
    flat.result = match side {
        Side::Data => 1,
        Side::Child => 2,
    };
    flat.length = path.len();
    flat
}

/// Why a connection is given up.
pub(crate) fn drop_flat(fault: Fault) -> Flat
    ensures { result ≡ record (fault_flat fault) { length = length (fault_code (fault_view fault)) } }
{
    let mut flat = fault_flat(fault);
    flat.length = fault.code().as_bytes().len();
    flat
}

/// The text of an answer: data, a path or what stands after the header of a reply, and else nothing.
pub(crate) fn outcome_text(outcome: &Outcome<Global>) -> &[u8]
    ensures { result.now ≡ outcome_text outcome.now }
{
    match outcome {
        Outcome::Replied { result, .. } => match result {
            CallResult::Data {
                bytes: Some(bytes),
                ..
            } => bytes.as_slice(),
            CallResult::Created(path) => path.as_bytes(),
            CallResult::Raw(bytes) => bytes.as_slice(),
            _ => b"",
        },
        _ => b"",
    }
}
