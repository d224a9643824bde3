//! Words, as they are printed: numbers in decimal, bytes in hex, and texts in printable ASCII.

ghost use Rattle.std.specs.Prelude.{◌≡◌, ◌++◌, ◌∷◌, [], ◌<◌, Some, OnOk, IfOk, string_bytes};
ghost use Rattle.script_words.specs.Words.{bytes_word, text_word, boolean_word, byte_text, bytes_text, escape, hex_digit, is_plain};

use std::alloc::{AllocError, Allocator};

/// The word for null bytes and null texts.
pub const NULL: &str = "\\0";

/// The word for no bytes and for the empty text.
pub(crate) const EMPTY: &str = "\\e";

/// The word for a value that is missing.
pub const NONE: &str = "-";

/// The digit of a number below 16.
fn digit(number: u8) -> char
    requires { number < 16 }
    ensures digit { result ≡ hex_digit number }
    ensures ascii { result < 128 }
{
    if number < 10 {
        (b'0' + number) as char
    } else {
        (b'a' - 10 + number) as char
    }
}

/// Whether a byte is written as itself in the word of a text.
fn is_plain(byte: u8) -> bool
    ensures { result ≡ is_plain byte }
{
    33 <= byte && byte <= 126 && byte != b'\\'
}

/// Adds one character.
fn push_ascii<A: Allocator>(word: &mut String<A>, character: char) -> Result<(), AllocError>
    requires { character < 128 }
    ensures { OnOk result (string_bytes word.new ≡ string_bytes word.old ++ character ∷ []) }
{
    word.push(character)
}

/// Adds `\x` and the two digits of a byte.
fn push_escape<A: Allocator>(word: &mut String<A>, byte: u8) -> Result<(), AllocError>
    ensures { OnOk result (string_bytes word.new ≡ string_bytes word.old ++ escape byte) }
{
    push_ascii(word, '\\')?;
    push_ascii(word, 'x')?;
    push_ascii(word, digit(byte / 16))?;
    push_ascii(word, digit(byte % 16))
}

/// Adds what is written for a byte in the word of a text.
#[tactic(auto, unfolding(crate::specs::Words::byte_text))]
fn push_byte<A: Allocator>(word: &mut String<A>, byte: u8) -> Result<(), AllocError>
    ensures { OnOk result (string_bytes word.new ≡ string_bytes word.old ++ byte_text byte) }
{
    if is_plain(byte) {
        push_ascii(word, byte as char)
    } else {
        push_escape(word, byte)
    }
}

/// Adds what is written for the bytes in the word of a text.
fn push_bytes<A: Allocator>(word: &mut String<A>, bytes: &[u8]) -> Result<(), AllocError>
    ensures { OnOk result (string_bytes word.new ≡ string_bytes word.old ++ bytes_text bytes.now) }
{
    for byte in bytes {
        push_byte(word, *byte)?;
    }
    Ok(())
}

/// The word for a text, whatever its bytes: each byte from 21 to 7e hex other than a backslash is written as itself, and any
/// other byte as `\x` and two digits.
pub fn text_to_word<A: Allocator>(alloc: A, text: &[u8]) -> Result<String<A>, AllocError>
    ensures { IfOk result (λ word. string_bytes word ≡ text_word (Some text.now)) }
{
    if text.is_empty() {
        return String::from_str(alloc, EMPTY);
    }
    let mut word = String::new(alloc);
    push_bytes(&mut word, text)?;
    Ok(word)
}

/// The word for bytes: lower-case hex.
pub fn bytes_to_word<A: Allocator>(alloc: A, bytes: &[u8]) -> Result<String<A>, AllocError>
    ensures { IfOk result (λ word. string_bytes word ≡ bytes_word (Some bytes.now)) }
{
    match bytes {
        [] => String::from_str(alloc, EMPTY),
        bytes => hex::encode(alloc, bytes),
    }
}

/// The word for a boolean.
pub fn boolean_to_word(flag: bool) -> &'static str
    ensures { result.now ≡ boolean_word flag }
{
    if flag { "1" } else { "0" }
}
