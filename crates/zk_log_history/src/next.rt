//! Whether transactions are missing.

ghost use Rattle.std.specs.Prelude.{◌≡◌, ◌<◌, ◌^◌, pos};
ghost use Rattle.zk_history.specs.HistoryView.{natural};
ghost use Rattle.std.specs.Option.{option_map};
ghost use Rattle.zk_log_history.specs.Following.{comes_next, first_missing};

/// Zxids of one epoch.
const EPOCH: u64 = 4_294_967_296;

/// A zxid as a number from 0 on: below 1 nothing has happened.
pub(crate) fn natural(zxid: i64) -> u64
    ensures value { result ≡ natural zxid }
    ensures small { result < 2 ^ 63 }
{
    if zxid < 0 { 0 } else { zxid as u64 }
}

/// Whether no transaction is missing between two zxids, of which the first is 0 before all.
pub(crate) fn comes_next(last: u64, zxid: u64) -> bool
    requires { last < 2 ^ 63 }
    ensures { result ≡ comes_next last zxid }
{
    if last == 0 {
        zxid == 1 || zxid == EPOCH + 1
    } else if zxid / EPOCH == last / EPOCH {
        zxid == last + 1
    } else {
        zxid % EPOCH == 1
    }
}

/// The first zxid that is missing after a last one and before another, if one is. The last one is 0 before all.
pub fn first_missing(last: i64, zxid: i64) -> Option<i64>
    ensures { result ≡ option_map pos (first_missing (natural last) (natural zxid)) }
{
    let last = natural(last);
    let zxid = natural(zxid);
    if zxid <= last || comes_next(last, zxid) {
        None
    } else if zxid / EPOCH == last / EPOCH || zxid % EPOCH == 0 {
        Some((last + 1) as i64)
    } else {
        Some((zxid / EPOCH * EPOCH + 1) as i64)
    }
}
