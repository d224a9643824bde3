//! How long is waited.

ghost use Rattle.std.specs.Prelude.{◌≤◌, ◌<◌, ◌+◌};

/// The longest wait, in milliseconds: an hour.
const LONGEST_WAIT: u64 = 3_600_000;

/// How many milliseconds are waited from one moment to another: an hour at most, or none if the other is past.
pub(crate) fn wait_between(now: u64, end: u64) -> u64
    ensures most { result ≤ 3600000 }
    ensures end { 0 < result → now + result ≤ end }
{
    end.saturating_sub(now).min(LONGEST_WAIT)
}
