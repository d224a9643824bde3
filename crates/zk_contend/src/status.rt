//! How a contender stands, and what there is to tell of it.

ghost use Rattle.std.specs.Prelude.{◌≡◌};
ghost use Rattle.zk_contend.specs.Standings.{is_holding, is_same, is_same_refusal, news_of, without_refusal};

use crate::refused::Obstacle;

/// How a contender stands, as its client shows it.
#[derive(Clone, Copy)]
pub enum LockStatus {
    /// It contends, and it is not known whether it waits. After [`Holds`](LockStatus::Holds) this says that the place is lost.
    Contends,
    /// Another one is before it, and is watched.
    Waits,
    /// It holds. The token is the zxid at which its place was made.
    Holds { token: i64 },
    /// A call was refused, or a listing says what is in its way. It is asked again after a second.
    Refused { why: Obstacle },
    /// It is given up, and no node of it is there.
    GivenUp,
}

fn is_holding(stands: LockStatus) -> bool
    ensures { result ≡ is_holding stands }
{
    matches!(stands, LockStatus::Holds { .. })
}

fn is_same_refusal(why: Obstacle, other: Obstacle) -> bool
    ensures { result ≡ is_same_refusal why other }
{
    match (why, other) {
        (Obstacle::Code(code), Obstacle::Code(other)) => code == other,
        (Obstacle::TooManyWatches, Obstacle::TooManyWatches) => true,
        (Obstacle::TooLarge, Obstacle::TooLarge) => true,
        (Obstacle::SessionClosed, Obstacle::SessionClosed) => true,
        (Obstacle::NumbersUsedUp, Obstacle::NumbersUsedUp) => true,
        (Obstacle::MixedNames, Obstacle::MixedNames) => true,
        _ => false,
    }
}

fn is_same(told: LockStatus, stands: LockStatus) -> bool
    ensures { result ≡ is_same told stands }
{
    match (told, stands) {
        (LockStatus::Waits, LockStatus::Waits) => true,
        (LockStatus::Holds { token }, LockStatus::Holds { token: other }) => token == other,
        (LockStatus::Refused { why }, LockStatus::Refused { why: other }) => is_same_refusal(
            why, other,
        ),
        (LockStatus::GivenUp, LockStatus::GivenUp) => true,
        _ => false,
    }
}

/// What there is to tell, if this was told last. That it contends is told only after that it holds.
pub(crate) fn news_of(told: LockStatus, stands: LockStatus) -> Option<LockStatus>
    ensures { result ≡ news_of told stands }
{
    if matches!(stands, LockStatus::Contends) && !is_holding(told) {
        return None;
    }
    if is_same(told, stands) {
        return None;
    }
    Some(stands)
}

/// What was told last, if a refusal that was told is forgotten.
pub(crate) fn without_refusal(told: LockStatus) -> LockStatus
    ensures { result ≡ without_refusal told }
{
    match told {
        LockStatus::Refused { .. } => LockStatus::Contends,
        told => told,
    }
}
