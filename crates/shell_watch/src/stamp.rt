//! Moments, as they are printed.

ghost use Rattle.std.specs.Prelude.{◌≡◌, ◌++◌, IfOk, OnOk, string_bytes};
ghost use Rattle.shell_watch.specs.Lines.{line_of, stamp_of, zeros_before};

use script_words::values::push_value;
use std::alloc::{AllocError, Allocator};

/// What stands before these milliseconds, so that they have three digits.
fn zeros_before(ms: u64) -> &'static str
    ensures { result.now ≡ zeros_before ms }
{
    if ms < 10 {
        return "00";
    }
    if ms < 100 { "0" } else { "" }
}

/// Seconds, and milliseconds after a dot.
fn stamp_of<A: Allocator + Copy>(alloc: A, ms: u64) -> Result<String<A>, AllocError>
    ensures { IfOk result (λ text. string_bytes text ≡ stamp_of ms) }
{
    let (seconds, rest) = (ms / 1_000, ms % 1_000);
    let mut text = String::new(alloc);
    push_value(&mut text, alloc, &seconds)?;
    text.push_str(".")?;
    text.push_str(zeros_before(rest))?;
    push_value(&mut text, alloc, &rest)?;
    Ok(text)
}

/// Adds a line of these words, or none if there are none.
fn push_line<A: Allocator>(text: &mut String<A>, stamp: &str, words: &str) -> Result<(), AllocError>
    ensures { OnOk result (string_bytes text.new ≡ string_bytes text.old ++ line_of stamp.now words.now) }
{
    if words.is_empty() {
        return Ok(());
    }
    text.push_str(stamp)?;
    text.push_str(" ")?;
    text.push_str(words)?;
    text.push_str("\n")
}

/// The line of these words at this moment, or none if there are none.
pub(crate) fn line_at<A: Allocator + Copy>(
    alloc: A,
    ms: u64,
    words: &str,
) -> Result<String<A>, AllocError>
    ensures { IfOk result (λ text. string_bytes text ≡ line_of (stamp_of ms) words.now) }
{
    let stamp = stamp_of(alloc, ms)?;
    let mut text = String::new(alloc);
    push_line(&mut text, stamp.as_str(), words)?;
    Ok(text)
}
