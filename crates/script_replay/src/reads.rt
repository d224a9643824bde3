//! What the words of lines that drive a client mean.

ghost use Rattle.std.specs.Prelude.{◌≡◌, ◌≤◌, ◌<ℤ◌, ◌≤ℤ◌, ◌-◌, pos, negsuc, length, IfOk, IfSome};
ghost use Rattle.std.specs.Option.{option_map};
ghost use Rattle.zk_conversation.specs.Views.{mode_number};
ghost use Rattle.script_words.specs.Reads.{Reads, time_at};
ghost use Rattle.script_replay.specs.Reads.{natural_at, timeout_at, integer_of, below_zero, version_at, session_at, boolean_at, mode_at};
ghost use Rattle.script_replay.specs.Reads.{bytes_at, password_at};

use script_words::numbers::natural_of;
use script_words::reads::parse_data;
use script_words::script_fault::ScriptFault;
use std::alloc::Allocator;
use zk_conversation::CreateMode;
use zk_limits::LONGEST_PASSWORD;

/// The number from 0 to 2^64 - 1 that a word means.
#[tactic(auto, unfolding(crate::specs::Reads::natural_at))]
pub fn parse_natural(word: &[u8]) -> Result<u64, ScriptFault>
    ensures { Reads (λ n. n) result (natural_at word.now) }
{
    natural_of(word, u64::MAX).ok_or(ScriptFault::Number)
}

/// The number of milliseconds from 1 to 2^31 - 1 that a word means.
#[tactic(auto, unfolding(crate::specs::Reads::timeout_at))]
pub fn parse_timeout(word: &[u8]) -> Result<i32, ScriptFault>
    ensures value { Reads (λ n. n) result (timeout_at word.now) }
    ensures above { IfOk result (λ timeout. pos 0 <ℤ timeout) }
{
    match natural_of(word, 2_147_483_647) {
        Some(0) => Err(ScriptFault::Number),
        Some(number) => Ok(number as i32),
        None => Err(ScriptFault::Number),
    }
}

/// The number below 0 of this size. 0 is written without a minus sign.
fn below_zero(size: u64) -> Option<i64>
    requires { size ≤ 9223372036854775808 }
    ensures value { result ≡ below_zero size }
    ensures least { IfSome result (λ n. negsuc (size - 1) ≤ℤ n) }
    ensures greatest { IfSome result (λ n. n <ℤ pos 0) }
{
    if size == 0 {
        return None;
    }
    Some(-1 - (size - 1) as i64)
}

/// The number with a sign that a word means, if it is neither above the greatest nor below the least, which is given by
/// its size.
#[tactic(auto, unfolding(crate::specs::Reads::integer_of))]
fn integer_of(word: &[u8], greatest: u64, least: u64) -> Option<i64>
    requires some { 9 ≤ greatest }
    requires below { greatest ≤ 9223372036854775807 }
    requires more { 9 ≤ least }
    requires within { least ≤ 9223372036854775808 }
    ensures value { result ≡ integer_of greatest least word.now }
    ensures least { IfSome result (λ n. negsuc (least - 1) ≤ℤ n) }
    ensures greatest { IfSome result (λ n. n ≤ℤ pos greatest) }
{
    match word {
        [b'-', digits @ ..] => below_zero(natural_of(digits, least)?),
        word => {
            let number = natural_of(word, greatest)?;
            Some(number as i64)
        }
    }
}

/// The number from -2^31 to 2^31 - 1 that a word means.
#[tactic(auto, unfolding(crate::specs::Reads::version_at))]
pub(crate) fn parse_version(word: &[u8]) -> Result<i32, ScriptFault>
    ensures { Reads (λ n. n) result (version_at word.now) }
{
    match integer_of(word, 2_147_483_647, 2_147_483_648) {
        Some(number) => Ok(number as i32),
        None => Err(ScriptFault::Number),
    }
}

/// The number from -2^63 to 2^63 - 1 that a word means.
#[tactic(auto, unfolding(crate::specs::Reads::session_at))]
pub(crate) fn parse_session(word: &[u8]) -> Result<i64, ScriptFault>
    ensures { Reads (λ n. n) result (session_at word.now) }
{
    integer_of(word, 9_223_372_036_854_775_807, 9_223_372_036_854_775_808).ok_or(
        ScriptFault::Number,
    )
}

/// The last seen zxid that a word means, from 0 to 2^63 - 1.
pub(crate) fn parse_last(word: &[u8]) -> Result<i64, ScriptFault>
    ensures value { Reads (λ n. n) result (time_at word.now) }
    ensures counts { IfOk result (λ n. pos 0 ≤ℤ n) }
{
    match natural_of(word, 9_223_372_036_854_775_807) {
        Some(number) => Ok(number as i64),
        None => Err(ScriptFault::Number),
    }
}

/// The boolean that a word is: 0 or 1.
pub(crate) fn parse_boolean(word: &[u8]) -> Result<bool, ScriptFault>
    ensures { Reads (λ b. b) result (boolean_at word.now) }
{
    match word {
        b"0" => Ok(false),
        b"1" => Ok(true),
        _ => Err(ScriptFault::Words),
    }
}

/// The mode of a create that a word means, by the flags of its request: 0 to 3.
#[tactic(auto, unfolding(crate::specs::Reads::mode_at))]
pub(crate) fn parse_mode(word: &[u8]) -> Result<CreateMode, ScriptFault>
    ensures { Reads mode_number result (mode_at word.now) }
{
    match natural_of(word, 9) {
        Some(0) => Ok(CreateMode::Persistent),
        Some(1) => Ok(CreateMode::Ephemeral),
        Some(2) => Ok(CreateMode::PersistentSequential),
        Some(3) => Ok(CreateMode::EphemeralSequential),
        _ => Err(ScriptFault::Number),
    }
}

/// The bytes that a word means. Null is none.
#[tactic(auto, unfolding(crate::specs::Reads::bytes_at))]
pub(crate) fn parse_bytes<A: Allocator + Copy>(
    alloc: A,
    word: &[u8],
) -> Result<Vec<u8, A>, ScriptFault>
    ensures { Reads (λ v. v.items) result (bytes_at word.now) }
{
    match parse_data(alloc, word) {
        Ok(Some(bytes)) => Ok(bytes),
        Ok(None) => Err(ScriptFault::Hex),
        Err(fault) => Err(fault),
    }
}

/// The password that a word means, and none where the word is no hex: that is told after a number that is none. A
/// password of more bytes than a server can bring is none of the words allowed.
#[tactic(auto, unfolding(crate::specs::Reads::password_at))]
pub(crate) fn parse_password<A: Allocator + Copy>(
    alloc: A,
    word: &[u8],
) -> Result<Option<Vec<u8, A>>, ScriptFault>
    ensures value { Reads (option_map (λ v. v.items)) result (password_at word.now) }
    ensures fits { IfOk result (λ password. IfSome password (λ bytes. length bytes.items ≤ LONGEST_PASSWORD)) }
{
    match parse_bytes(alloc, word) {
        Ok(bytes) if bytes.len() > LONGEST_PASSWORD => Err(ScriptFault::Words),
        Ok(bytes) => Ok(Some(bytes)),
        Err(ScriptFault::Memory) => Err(ScriptFault::Memory),
        Err(_) => Ok(None),
    }
}
