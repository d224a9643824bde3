//! What the words of a script mean.

ghost use Rattle.std.specs.Prelude.{◌≡◌, bytes_eq, string_bytes, map, true, false, Some, MatchOption};
ghost use Rattle.std.specs.Str.{is_utf8};
ghost use Rattle.std.specs.List.{list_all};
ghost use Rattle.std.specs.Option.{option_map};
ghost use Rattle.script_words.specs.Said.{is_remark, split_keyword};
ghost use Rattle.script_words.specs.Reads.{Reads, time_at, zxid_at, data_at, text_at, text_read, path_at, side_read, is_printed, alone};
ghost use Rattle.script_words.specs.Reads.{only};

use crate::numbers::natural_of;
use crate::script_fault::ScriptFault;
use crate::texts::unescaped;
use crate::words::{EMPTY, NULL};
use hex::FromHexError;
use std::alloc::Allocator;
use zk_nodes::{Path, PathFault, Side};

/// The greatest number of 64 bits with a sign.
const GREATEST: u64 = 9_223_372_036_854_775_807;

/// Whether a word is this one.
pub fn is_named(word: &[u8], name: &str) -> bool
    ensures { result ≡ bytes_eq word.now name.now }
{
    word == name.as_bytes()
}

/// The one word that there is.
pub fn only<'a>(words: &[&'a [u8]]) -> Result<&'a [u8], ScriptFault>
    ensures { Reads (λ w. w.now) result (only (map (λ w. w.now) words.now)) }
{
    match words {
        [word] => Ok(word),
        _ => Err(ScriptFault::Words),
    }
}

/// What a keyword means with no words after it.
pub fn alone<X: Drop>(value: X, words: &[&[u8]]) -> Result<X, ScriptFault>
    ensures { result ≡ alone value (map (λ w. w.now) words.now) }
{
    match words {
        [] => Ok(value),
        _ => Err(ScriptFault::Words),
    }
}

/// The number from 0 to 2^63 - 1 that a word means.
pub fn parse_time(word: &[u8]) -> Result<i64, ScriptFault>
    ensures { Reads (λ n. n) result (time_at word.now) }
{
    match natural_of(word, GREATEST) {
        Some(number) => Ok(number as i64),
        None => Err(ScriptFault::Number),
    }
}

/// The number from 1 to 2^63 - 1 that a word means.
pub fn parse_zxid(word: &[u8]) -> Result<i64, ScriptFault>
    ensures { Reads (λ n. n) result (zxid_at word.now) }
{
    match natural_of(word, GREATEST) {
        Some(0) => Err(ScriptFault::Number),
        Some(number) => Ok(number as i64),
        None => Err(ScriptFault::Number),
    }
}

/// The bytes that a word means, or null.
pub fn parse_data<A: Allocator + Copy>(
    alloc: A,
    word: &[u8],
) -> Result<Option<Vec<u8, A>>, ScriptFault>
    ensures { Reads (option_map (λ v. v.items)) result (data_at word.now) }
{
    if word == NULL.as_bytes() {
        return Ok(None);
    }
    if word == EMPTY.as_bytes() {
        return Ok(Some(Vec::new(alloc)));
    }
    match hex::decode(alloc, word) {
        Ok(bytes) => Ok(Some(bytes)),
        Err(FromHexError::OutOfMemory) => Err(ScriptFault::Memory),
        Err(_) => Err(ScriptFault::Hex),
    }
}

/// The bytes as text, if they are UTF-8.
fn as_text(bytes: &[u8]) -> Option<&str>
    ensures { MatchOption result (is_utf8 bytes.now ≡ false) (λ text. (text.now ≡ bytes.now) × (is_utf8 bytes.now ≡ true)) }
{
    match str::from_utf8(bytes) {
        Ok(text) => Some(text),
        Err(_) => None,
    }
}

/// The text that bytes are.
fn text_of<A: Allocator + Copy>(alloc: A, bytes: &[u8]) -> Result<String<A>, ScriptFault>
    ensures { Reads string_bytes result (text_read (Some bytes.now)) }
{
    let Some(text) = as_text(bytes) else {
        return Err(ScriptFault::Words);
    };
    match String::from_str(alloc, text) {
        Ok(text) => Ok(text),
        Err(_) => Err(ScriptFault::Memory),
    }
}

/// The text that a word means. Null is none.
pub fn parse_text<A: Allocator + Copy>(alloc: A, word: &[u8]) -> Result<String<A>, ScriptFault>
    ensures { Reads string_bytes result (text_at word.now) }
{
    if word == EMPTY.as_bytes() {
        return Ok(String::new(alloc));
    }
    match unescaped(alloc, word) {
        Ok(Some(bytes)) => text_of(alloc, bytes.as_slice()),
        Ok(None) => Err(ScriptFault::Words),
        Err(_) => Err(ScriptFault::Memory),
    }
}

/// The path that a text is.
pub fn parse_path<A: Allocator + Copy>(alloc: A, text: &str) -> Result<Path<A>, ScriptFault>
    ensures { Reads (λ path. path) result (path_at text.now) }
{
    match Path::new(alloc, text) {
        Ok(path) => Ok(path),
        Err(PathFault::Memory) => Err(ScriptFault::Memory),
        Err(fault) => Err(ScriptFault::Path(fault)),
    }
}

/// The side that a word names.
pub fn parse_side(word: &[u8]) -> Result<Side, ScriptFault>
    ensures { Reads (λ s. s) result (side_read word.now) }
{
    if is_named(word, "data") {
        Ok(Side::Data)
    } else if is_named(word, "names") {
        Ok(Side::Child)
    } else {
        Err(ScriptFault::Words)
    }
}

/// Whether the bytes of a word are printable.
fn is_printed(word: &[u8]) -> bool
    ensures { result ≡ is_printed word.now }
{
    for byte in word {
        if *byte < 33 || *byte > 126 {
            return false;
        }
    }
    true
}

/// Whether the bytes of all words are printable.
pub fn are_printed(words: &[&[u8]]) -> bool
    ensures { result ≡ list_all is_printed (map (λ w. w.now) words.now) }
{
    for word in words {
        if !is_printed(word) {
            return false;
        }
    }
    true
}

/// Whether a line is a remark, by its first word.
fn is_remark(word: &[u8]) -> bool
    ensures { result ≡ is_remark word.now }
{
    matches!(word, [b'#', ..])
}

/// The first word of a line and those after it. An empty line and a remark, which begins with `#`, say nothing.
pub fn split_keyword<'a, 'b>(words: &'a [&'b [u8]]) -> Option<(&'b [u8], &'a [&'b [u8]])>
    ensures { option_map (λ line. (line.0.now, map (λ w. w.now) line.1.now)) result ≡ split_keyword (map (λ w. w.now) words.now) }
{
    match words {
        [first, behind @ ..] if !is_remark(first) => Some((first, behind)),
        _ => None,
    }
}
