//! Why a contender has to pause before it asks again.

ghost use Rattle.std.specs.Prelude.{◌≡◌};
ghost use Rattle.zk_records.specs.Codes.{code_number};
ghost use Rattle.zk_conversation.specs.Views.{code_result};
ghost use Rattle.zk_client.specs.Views.{outcome_view};
ghost use Rattle.zk_contend.specs.Hearing.{is_paused, later, refusal_by, refusal_of, refused_for};

use crate::place::Ask;
use std::alloc::Allocator;
use zk_client::{CallResult, Code, Outcome};

/// How long, in milliseconds, a contender pauses that was refused.
const PAUSE_MS: u64 = 1_000;

/// Why a contender goes on after a second only.
#[derive(Clone, Copy)]
pub enum Obstacle {
    /// The server answered with the code of this number.
    Code(i32),
    /// The client watches 65,536 paths.
    TooManyWatches,
    /// The data are too long for a request.
    TooLarge,
    /// The session is being closed.
    SessionClosed,
    /// Nobody is before the place, but its name does not end in a number: the directory has had 2,147,483,647 names.
    NumbersUsedUp,
    /// A name of another family is in the directory. Its contender does not see this one, so this one never holds beside it: give it up,
    /// and no place of its own stays.
    MixedNames,
}

/// A refusal, and until which moment it lasts.
#[derive(Clone, Copy)]
pub(crate) struct Refused {
    pub(crate) why: Obstacle,
    pub(crate) until: u64,
}

/// The moment after the pause.
fn later(now: u64) -> u64
    ensures { result ≡ later now }
{
    now.saturating_add(PAUSE_MS)
}

/// Why a code stops what was asked for: that no node is there never does.
fn refusal_by(ask: Ask, code: Code) -> Option<Obstacle>
    ensures { result ≡ refusal_by ask (code_result (code_number code)) }
{
    let number = code.number();
    if code.is_no_node() {
        return None;
    }
    match ask {
        Ask::Fence => None,
        Ask::Make if number == Code::NodeExists.number() => None,
        _ => Some(Obstacle::Code(number)),
    }
}

/// Why this outcome stops what was asked for, if it does.
pub(crate) fn refusal_of<A: Allocator>(ask: Ask, outcome: &Outcome<A>) -> Option<Obstacle>
    ensures { result ≡ refusal_of ask (outcome_view outcome.now) }
{
    match outcome {
        Outcome::Replied {
            result: CallResult::Code(code),
            ..
        } => refusal_by(ask, *code),
        Outcome::TooManyWatches => Some(Obstacle::TooManyWatches),
        Outcome::TooLarge => Some(Obstacle::TooLarge),
        Outcome::SessionClosed => Some(Obstacle::SessionClosed),
        _ => None,
    }
}

/// The refusal for this reason, if there is one.
pub(crate) fn refused_for(now: u64, why: Option<Obstacle>) -> Option<Refused>
    ensures { result ≡ refused_for now why }
{
    match why {
        Some(why) => Some(Refused {
            why,
            until: later(now),
        }),
        None => None,
    }
}

/// Whether the pause lasts at this moment.
pub(crate) fn is_paused(now: u64, refused: Option<Refused>) -> bool
    ensures { result ≡ is_paused now refused }
{
    match refused {
        Some(refused) => now < refused.until,
        None => false,
    }
}
