//! Texts, as they are read.

ghost use Rattle.std.specs.Prelude.{◌≡◌, IfOk, IfSome, ◌<◌};
ghost use Rattle.std.specs.Option.{option_map};
ghost use Rattle.script_words.specs.Texts.{digit_of, step, unescape};
ghost use Rattle.script_words.specs.declared.texts.Place.TheVariants.{Plain};

use std::alloc::{AllocError, Allocator};

/// Where a reader is in the word of a text.
#[derive(Clone, Copy)]
enum Place {
    /// Before a byte or an escape.
    Plain,
    /// After a backslash.
    Backslash,
    /// After a backslash and an `x`.
    Letter,
    /// After the first digit of an escape.
    Digit(u8),
}

/// The value of a digit of hex, in either case.
fn digit_of(byte: u8) -> Option<u8>
    ensures value { result ≡ digit_of byte }
    ensures small { IfSome result (λ d. d < 16) }
{
    match byte {
        b'0'..=b'9' => Some(byte - b'0'),
        b'a'..=b'f' => Some(byte - b'a' + 10),
        b'A'..=b'F' => Some(byte - b'A' + 10),
        _ => None,
    }
}

/// Where the reader stands after one more byte, and the byte of the text that this ends, if it ends one.
fn step(place: Place, byte: u8) -> Option<(Place, Option<u8>)>
    ensures { result ≡ step place byte }
{
    match place {
        Place::Plain if byte == b'\\' => Some((Place::Backslash, None)),
        Place::Plain => Some((Place::Plain, Some(byte))),
        Place::Backslash if byte == b'x' => Some((Place::Letter, None)),
        Place::Backslash => None,
        Place::Letter => Some((Place::Digit(digit_of(byte)?), None)),
        Place::Digit(high) => {
            let low = digit_of(byte)?;
            Some((Place::Plain, Some(high.wrapping_mul(16).wrapping_add(low))))
        }
    }
}

/// The bytes that the word of a text means, unless it has another escape than `\x` and two digits.
pub fn unescaped<A: Allocator>(alloc: A, word: &[u8]) -> Result<Option<Vec<u8, A>>, AllocError>
    ensures { IfOk result (λ r. option_map (λ v. v.items) r ≡ unescape Plain word.now) }
{
    let mut bytes = Vec::new(alloc);
    let mut place = Place::Plain;
    for byte in word {
        let Some((next, ended)) = step(place, *byte) else {
            return Ok(None);
        };
        place = next;
        if let Some(ended) = ended {
            bytes.push(ended)?;
        }
    }
    match place {
        Place::Plain => Ok(Some(bytes)),
        _ => Ok(None),
    }
}
