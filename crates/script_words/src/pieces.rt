//! A text, cut at a byte: a script into its lines, a line into its words.

ghost use Rattle.std.specs.Prelude.{◌≡◌, IfOk, map};
ghost use Rattle.script_words.specs.Pieces.{pieces_at, words_of};

use std::alloc::{AllocError, Allocator};

/// What stands between the bytes of one value: one piece more than there are such bytes.
fn pieces<'a, A: Allocator>(
    alloc: A,
    text: &'a [u8],
    separator: u8,
) -> Result<Vec<&'a [u8], A>, AllocError>
    ensures { IfOk result (λ v. map (λ p. p.now) v.items ≡ pieces_at separator text.entry.now) }
{
    let mut pieces = Vec::new(alloc);
    let mut start = 0;
    for (at, byte) in text.iter().enumerate() {
        if *byte == separator {
            pieces.push(&text[start..at])?;
            start = at + 1;
        }
    }
    pieces.push(&text[start..])?;
    Ok(pieces)
}

/// The lines of a script. Where it ends with a newline, the last one is empty.
pub fn lines_of<'a, A: Allocator>(
    alloc: A,
    script: &'a [u8],
) -> Result<Vec<&'a [u8], A>, AllocError>
    ensures { IfOk result (λ v. map (λ p. p.now) v.items ≡ pieces_at 10 script.entry.now) }
{
    pieces(alloc, script, b'\n')
}

/// The words of a line, which stand between spaces.
pub fn words_of<'a, A: Allocator + Copy>(
    alloc: A,
    line: &'a [u8],
) -> Result<Vec<&'a [u8], A>, AllocError>
    ensures { IfOk result (λ v. map (λ p. p.now) v.items ≡ words_of line.entry.now) }
{
    let pieces = pieces(alloc, line, b' ')?;
    let mut words = Vec::new(alloc);
    for piece in &pieces {
        if !piece.is_empty() {
            words.push(*piece)?;
        }
    }
    Ok(words)
}
