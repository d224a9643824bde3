//! How long the pause before an attempt to connect is.

ghost use Rattle.std.specs.Prelude.{◌≡◌, ◌≤◌, ◌/◌, false};
ghost use Rattle.zk_dialler.specs.Pauses.{longest_ms, most_ms, pause_ms};

use crate::chance::Chance;

/// The longest pause of all, by whether the client was not connected for longer than the timeout.
fn most_ms(is_over: bool, timeout_ms: u32) -> u64
    ensures exact { result ≡ most_ms is_over timeout_ms }
    ensures most { result ≤ 1000 }
{
    if is_over {
        return 1_000;
    }
    u64::from(timeout_ms / 10).min(1_000)
}

/// The longest pause after this many attempts that failed in a row, by a table.
#[tactic(auto, using(crate::proofs::PauseLemmas::longest))]
fn longest_ms(failures: u32, most: u64) -> u64
    requires { most ≤ 1000 }
    ensures { result ≡ longest_ms failures most }
{
    match failures {
        0 => 0,
        1 => most.min(100),
        2 => most.min(200),
        3 => most.min(400),
        4 => most.min(800),
        _ => most,
    }
}

/// The pause before the next attempt, in milliseconds, after this many attempts in a row that have failed. It is at random between a half
/// of the longest one and the whole. The longest is none after none, then 100, and from there twice as long after each further one: up to a
/// second, and to a tenth of the timeout, as long as servers that answer may count the timeout; and up to a second where the client was not
/// connected for longer than the timeout: the session may live even so, for servers that were away themselves count from their return on.
#[tactic(auto, using(crate::proofs::PauseLemmas::at_most))]
pub fn pause_after(failures: u32, is_over: bool, timeout_ms: u32, chance: Chance) -> u64
    ensures exact { result ≡ pause_ms (longest_ms failures (most_ms is_over timeout_ms)) chance.state }
    ensures least { longest_ms failures (most_ms is_over timeout_ms) / 2 ≤ result }
    ensures most { result ≤ longest_ms failures (most_ms is_over timeout_ms) }
    ensures second { is_over ≡ false → result ≤ 1000 }
    ensures tenth { is_over ≡ false → result ≤ timeout_ms / 10 }
    ensures slowest { result ≤ 1000 }
{
    let longest = longest_ms(failures, most_ms(is_over, timeout_ms));
    let half = longest / 2;
    half + chance.below(longest - half + 1)
}
