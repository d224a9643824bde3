//! Data as text.

ghost use Rattle.std.specs.Prelude.{◌≡◌, IfOk, MatchOption, true, false, string_bytes};
ghost use Rattle.std.specs.Option.{option_map};
ghost use Rattle.shell_watch.specs.Lines.{data_word, is_text, quoted_word};

use json::Writer;
use script_words::words::{NULL, bytes_to_word};
use shell_words::texts::{as_utf8, has_hidden};
use std::alloc::{AllocError, Allocator};

/// The bytes as text, if they are UTF-8 and have no such character.
fn as_text(bytes: &[u8]) -> Option<&str>
    ensures { MatchOption result (is_text bytes.now ≡ false) (λ text. (text.now ≡ bytes.now) × (is_text bytes.now ≡ true)) }
{
    match as_utf8(bytes) {
        Some(text) if !has_hidden(text) => Some(text),
        _ => None,
    }
}

/// A text in quotes, with the escapes of JSON.
fn quoted_word<A: Allocator + Copy>(alloc: A, text: &str) -> Result<String<A>, AllocError>
    ensures { IfOk result (λ word. string_bytes word ≡ quoted_word text.now) }
{
    let mut writer = Writer::new(Vec::new(alloc));
    writer.string(text)?;
    match String::from_utf8(writer.into_inner()) {
        Ok(word) => Ok(word),
        // What is written is UTF-8.
        Err(_) => Err(AllocError),
    }
}

/// Data in quotes if they are text, and else in hex.
pub(crate) fn data_word<A: Allocator + Copy>(
    alloc: A,
    bytes: &Option<Vec<u8, A>>,
) -> Result<String<A>, AllocError>
    ensures { IfOk result (λ word. string_bytes word ≡ data_word (option_map (λ v. v.items) bytes.now)) }
{
    let Some(bytes) = bytes else {
        return String::from_str(alloc, NULL);
    };
    match as_text(bytes.as_slice()) {
        Some(text) => quoted_word(alloc, text),
        None => bytes_to_word(alloc, bytes.as_slice()),
    }
}
