//! Subjects whose answers were too long.

ghost use Rattle.std.specs.Prelude.{◌≡◌, map};
ghost use Rattle.zk_follow.specs.Refusing.{pause_by, too_long_for};

use crate::news::News;
use crate::progress::{Progress, Refusal};
use crate::subject::Subject;
use std::alloc::Allocator;

/// How long, in milliseconds, a subject waits whose answer was too long.
const PAUSE_MS: u64 = 1_000;

/// The same where that was told of it last: each such read costs a connection.
const LONG_PAUSE_MS: u64 = 60_000;

/// How long a subject waits whose answer was too long, by what was told of it last.
fn pause_by(told: Option<News>) -> u64
    ensures { result ≡ pause_by told }
{
    match told {
        Some(News::Refused(Refusal::TooLarge)) => LONG_PAUSE_MS,
        _ => PAUSE_MS,
    }
}

/// The answer to the read of this ticket was too long. If the subject has it, it counts as refused.
fn refuse<A: Allocator>(subject: &mut Subject<A>, now: u64, ticket: u64)
    ensures { subject.new ≡ too_long_for now ticket subject.old }
{
    if subject.ticket == ticket {
        subject.progress = Progress::Refused {
            why: Refusal::TooLarge,
            until: now.saturating_add(pause_by(subject.told)),
        };
    }
}

/// Those of this ticket count as refused.
pub(crate) fn refuse_all<A: Allocator>(subjects: &mut [Subject<A>], now: u64, ticket: u64)
    ensures { subjects.new ≡ map (too_long_for now ticket) subjects.old }
{
    for subject in subjects.iter_mut() {
        refuse(subject, now, ticket);
    }
}
