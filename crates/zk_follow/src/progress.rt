//! How far the reading of a subject is.

ghost use Rattle.std.specs.Prelude.{◌≡◌};
ghost use Rattle.zk_records.specs.Codes.{code_number};
ghost use Rattle.zk_conversation.specs.Views.{code_result};
ghost use Rattle.zk_client.specs.Views.{outcome_view};
ghost use Rattle.zk_follow.specs.Following.{after_code, doubted_after, entered, later, missing_after, progress_after, there_after};

use std::alloc::Allocator;
use zk_client::{CallResult, Code, Outcome};

/// How long, in milliseconds, a subject waits whose read was refused.
const PAUSE_MS: u64 = 1_000;

/// Why a read was refused.
#[derive(Clone, Copy)]
pub enum Refusal {
    /// The server answered with the code of this number. With that of a node that is not there, -101, it contradicts itself: it had said
    /// that there is one, and has reported nothing of the path since.
    Code(i32),
    /// The client watches 65,536 paths of the side.
    TooManyWatches,
    /// The answer is longer than the client takes. The connection was given up for that.
    TooLarge,
    /// The session is being closed.
    SessionClosed,
}

/// How far the reading of a subject is, where what is kept of it is not good.
#[derive(Clone, Copy)]
pub enum Progress {
    /// It is to be read, as soon as a server has accepted the connection, fewer than 960 subjects are being read, and fewer than 1,024
    /// calls wait for their replies.
    Due,
    /// A read waits for its reply.
    Reading,
    /// The last read was refused. It is to be read again at this moment.
    Refused { why: Refusal, until: u64 },
}

/// The moment after the pause.
fn later(now: u64) -> u64
    ensures { result ≡ later now }
{
    now.saturating_add(PAUSE_MS)
}

/// How far the reading is once a reply with this code has come.
fn after_code(now: u64, was_there: bool, code: Code) -> Progress
    ensures { result ≡ after_code now was_there (code_result (code_number code)) }
{
    if code.is_no_node() && !was_there {
        return Progress::Due;
    }
    Progress::Refused {
        why: Refusal::Code(code.number()),
        until: later(now),
    }
}

/// How far the reading is once a read was answered at this moment.
pub(crate) fn progress_after<A: Allocator>(
    now: u64,
    was_there: bool,
    outcome: &Outcome<A>,
) -> Progress
    ensures { result ≡ progress_after now was_there (outcome_view outcome.now) }
{
    let until = later(now);
    match outcome {
        Outcome::Replied {
            result: CallResult::Code(code),
            ..
        } => after_code(now, was_there, *code),
        Outcome::TooManyWatches => Progress::Refused {
            why: Refusal::TooManyWatches,
            until,
        },
        Outcome::TooLarge => Progress::Refused {
            why: Refusal::TooLarge,
            until,
        },
        Outcome::SessionClosed => Progress::Refused {
            why: Refusal::SessionClosed,
            until,
        },
        _ => Progress::Due,
    }
}

/// Whether the last reply said that there is no node, once a read was answered.
pub(crate) fn missing_after<A: Allocator>(was_missing: bool, outcome: &Outcome<A>) -> bool
    ensures { result ≡ missing_after was_missing (outcome_view outcome.now) }
{
    match outcome {
        Outcome::Replied {
            result: CallResult::Code(code),
            ..
        } => { was_missing || code.is_no_node() }
        Outcome::Replied { .. } => false,
        _ => was_missing,
    }
}

/// Whether the last reply said that there is a node, where the one before it said that there is none, once a read was answered.
pub(crate) fn there_after<A: Allocator>(
    was_missing: bool,
    was_there: bool,
    outcome: &Outcome<A>,
) -> bool
    ensures { result ≡ there_after was_missing was_there (outcome_view outcome.now) }
{
    match outcome {
        Outcome::Replied {
            result: CallResult::Code(code),
            ..
        } => was_there && !code.is_no_node(),
        Outcome::Replied { .. } => was_missing,
        _ => was_there,
    }
}

/// How far the reading is once the session has entered another state.
pub(crate) fn entered(progress: Progress) -> Progress
    ensures { result ≡ entered progress }
{
    match progress {
        Progress::Refused {
            why: Refusal::TooLarge,
            ..
        } => progress,
        _ => Progress::Due,
    }
}

/// Whether what is kept is doubted still, once a read was answered: not after the data or the names, nor after the answer to an `exists`
/// that there is no node.
pub(crate) fn doubted_after<A: Allocator>(
    was_missing: bool,
    was_doubted: bool,
    outcome: &Outcome<A>,
) -> bool
    ensures { result ≡ doubted_after was_missing was_doubted (outcome_view outcome.now) }
{
    match outcome {
        Outcome::Replied {
            result: CallResult::Code(code),
            ..
        } => was_doubted && !(was_missing && code.is_no_node()),
        Outcome::Replied {
            result: CallResult::Data { .. } | CallResult::Names { .. },
            ..
        } => false,
        _ => was_doubted,
    }
}
