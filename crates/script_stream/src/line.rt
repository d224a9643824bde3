//! The lines of a capture.

ghost use Rattle.std.specs.Prelude.{◌≡◌, map};
ghost use Rattle.std.specs.Option.{option_map};
ghost use Rattle.script_words.specs.Reads.{Reads};
ghost use Rattle.script_stream.specs.Lines.{bytes_at, came_at, over_at, record_of, said};
ghost use Rattle.script_stream.specs.inner.Lines.{says_of};

use crate::way::Way;
use script_words::reads::{is_named, only, parse_data, split_keyword};
use script_words::script_fault::ScriptFault;
use std::alloc::Allocator;

/// A line of a capture.
#[derive(Drop)]
pub enum CaptureLine<A: Allocator> {
    /// These bytes came.
    Came(Way, Vec<u8, A>),
    /// A connection begins.
    Opened,
    /// A line of a record that has no bytes.
    Passed,
    /// Nothing comes any more.
    Over,
}

/// The bytes that a word means. Null is none.
#[tactic(auto, unfolding(crate::specs::Lines::bytes_at))]
fn parse_bytes<A: Allocator + Copy>(alloc: A, word: &[u8]) -> Result<Vec<u8, A>, ScriptFault>
    ensures { Reads (λ v. v.items) result (bytes_at word.now) }
{
    match parse_data(alloc, word) {
        Ok(Some(bytes)) => Ok(bytes),
        Ok(None) => Err(ScriptFault::Hex),
        Err(fault) => Err(fault),
    }
}

/// What the words after a direction say.
#[tactic(auto, unfolding(crate::specs::Lines::came_at))]
fn parse_came<A: Allocator + Copy>(
    alloc: A,
    way: Way,
    words: &[&[u8]],
) -> Result<CaptureLine<A>, ScriptFault>
    ensures { Reads says_of result (came_at way (map (λ w. w.now) words.now)) }
{
    let word = only(words)?;
    let bytes = parse_bytes(alloc, word)?;
    Ok(CaptureLine::Came(way, bytes))
}

/// What a line of a record says that has no bytes.
fn record_line<A: Allocator>(word: &[u8]) -> Option<CaptureLine<A>>
    ensures { option_map says_of result ≡ record_of word.now }
{
    if is_named(word, "opened") {
        Some(CaptureLine::Opened)
    } else if is_named(word, "cut")
        || is_named(word, "now")
        || is_named(word, "call")
        || is_named(word, "timeout")
        || is_named(word, "resume")
    {
        Some(CaptureLine::Passed)
    } else {
        None
    }
}

/// What the words of a line say that names no direction.
fn parse_over<A: Allocator + Copy>(
    first: &[u8],
    words: &[&[u8]],
) -> Result<CaptureLine<A>, ScriptFault>
    ensures { Reads says_of result (over_at first.now (map (λ w. w.now) words.now)) }
{
    if !is_named(first, "end") {
        return record_line(first).ok_or(ScriptFault::Unknown);
    }
    match words {
        [] => Ok(CaptureLine::Over),
        _ => Err(ScriptFault::Words),
    }
}

/// What the words of a line say. An empty line and one that begins with `#` say nothing.
pub fn parse_line<A: Allocator + Copy>(
    alloc: A,
    words: &[&[u8]],
) -> Result<Option<CaptureLine<A>>, ScriptFault>
    ensures { Reads (option_map says_of) result (said (map (λ w. w.now) words.now)) }
{
    let Some((first, behind)) = split_keyword(words) else {
        return Ok(None);
    };
    let line = match Way::named(first) {
        Some(way) => parse_came(alloc, way, behind)?,
        None => parse_over(first, behind)?,
    };
    Ok(Some(line))
}
