//! How contenders stand, as numbers.

ghost use Rattle.std.specs.Prelude.{◌≡◌};
ghost use Rattle.ffi_device.specs.News.{obstacle_flat, standing_flat, status_flat};

use crate::flat::{Flat, plain};
use zk_contend::{LockStatus, Obstacle};

// Why a contender pauses.
fn obstacle_flat(why: Obstacle) -> Flat
    ensures { result ≡ obstacle_flat why }
{
    match why {
        Obstacle::Code(code) => {
            let mut flat = plain(20, 1);
            flat.code = code;
            flat
        }
        Obstacle::TooManyWatches => plain(20, 2),
        Obstacle::TooLarge => plain(20, 3),
        Obstacle::SessionClosed => plain(20, 4),
        Obstacle::NumbersUsedUp => plain(20, 5),
        Obstacle::MixedNames => plain(20, 6),
    }
}

fn status_flat(stands: LockStatus) -> Flat
    ensures { result ≡ status_flat stands }
{
    match stands {
        LockStatus::Waits => plain(17, 0),
        LockStatus::Holds { token } => {
            let mut flat = plain(18, 0);
            flat.zxid = token;
            flat
        }
        LockStatus::Contends => plain(19, 0),
        LockStatus::Refused { why } => obstacle_flat(why),
        LockStatus::GivenUp => plain(21, 0),
    }
}

/// How the contender of a ticket stands.
pub(crate) fn standing_flat(news: &(u64, LockStatus)) -> Flat
    ensures { result ≡ standing_flat news.now }
{
    let (ticket, stands) = *news;
    let mut flat = status_flat(stands);
    flat.ticket = ticket;
    flat
}
