//! Data, as they are printed.

ghost use Rattle.std.specs.Prelude.{◌≡◌, ◌++◌, ◌||◌, nat_eq, chars, IfSome, IfNone, IfOk, MatchOption, Some, OnOk, true, false};
ghost use Rattle.std.specs.Prelude.{string_bytes};
ghost use Rattle.std.specs.List.{list_any, starts_with};
ghost use Rattle.std.specs.Option.{option_map};
ghost use Rattle.shell_words.specs.Texts.{is_hidden};
ghost use Rattle.shell_ask.specs.Printing.{data_text, hex_line, hex_mark, is_text, plain_data};

use crate::plan::Form;
use script_words::values::push_data_word;
use script_words::words::bytes_to_word;
use shell_words::texts::{as_utf8, has_hidden};
use std::alloc::{AllocError, Allocator};

/// What stands before hex if a text could.
const HEX_MARK: &str = "hex:";

/// Whether a text begins as hex does.
fn is_marked(text: &str) -> bool
    ensures { result ≡ starts_with nat_eq text.now hex_mark }
{
    text.starts_with(HEX_MARK)
}

/// Whether a text is to be told in hex: it has such a character, or begins as hex does.
fn is_hexed(text: &str) -> bool
    ensures { result ≡ (list_any is_hidden (chars text.now) || starts_with nat_eq text.now hex_mark) }
{
    has_hidden(text) || is_marked(text)
}

/// The bytes as text, if they are UTF-8 and not to be told in hex.
fn as_text(bytes: &[u8]) -> Option<&str>
    ensures { MatchOption result (is_text bytes.now ≡ false) (λ text. (text.now ≡ bytes.now) × (is_text bytes.now ≡ true)) }
{
    match as_utf8(bytes) {
        Some(text) if !is_hexed(text) => Some(text),
        _ => None,
    }
}

/// Adds a line of data, as text if they are text.
fn push_plain<A: Allocator + Copy>(
    text: &mut String<A>,
    alloc: A,
    bytes: &[u8],
) -> Result<(), AllocError>
    ensures { OnOk result (string_bytes text.new ≡ string_bytes text.old ++ plain_data (Some bytes.now)) }
{
    match as_text(bytes) {
        Some(data) => text.push_str(data)?,
        None => {
            text.push_str(HEX_MARK)?;
            text.push_str(bytes_to_word(alloc, bytes)?.as_str())?
        }
    }
    text.push_str("\n")
}

/// Adds a line of bytes in hex.
pub(crate) fn push_hex<A: Allocator + Copy>(
    text: &mut String<A>,
    alloc: A,
    bytes: &[u8],
) -> Result<(), AllocError>
    ensures { OnOk result (string_bytes text.new ≡ string_bytes text.old ++ hex_line bytes.now) }
{
    let word = bytes_to_word(alloc, bytes)?;
    text.push_str(word.as_str())?;
    text.push_str("\n")
}

/// Adds what is printed of data, which may be null.
pub(crate) fn push_data<A: Allocator + Copy>(
    text: &mut String<A>,
    alloc: A,
    form: Form,
    bytes: &Option<Vec<u8, A>>,
) -> Result<(), AllocError>
    ensures { OnOk result (string_bytes text.new ≡ string_bytes text.old ++ data_text form (option_map (λ v. v.items) bytes.now)) }
{
    match (form, bytes) {
        (Form::Quiet, _) | (Form::Plain | Form::Raw | Form::Json, None) => Ok(()),
        (Form::Plain | Form::Raw | Form::Json, Some(bytes)) => {
            push_plain(text, alloc, bytes.as_slice())
        }
        (Form::Hex, bytes) => {
            push_data_word(text, alloc, bytes)?;
            text.push_str("\n")
        }
    }
}
