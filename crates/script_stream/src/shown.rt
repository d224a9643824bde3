//! A capture, read line by line.

ghost use Rattle.std.specs.Prelude.{◌≡◌, ◌++◌, ◌∷◌, [], IfOk, codes, map, string_bytes};
ghost use Rattle.script_words.specs.Scripts.{lines_of};
ghost use Rattle.script_stream.specs.Lines.{IsShown};

use crate::stream::CaptureStream;
use script_words::pieces::lines_of;
use script_words::script::{ScriptEnd, Transcript, nothing, read_lines};
use std::alloc::{AllocError, Allocator};

/// The lines of a capture, and one after them that says that it ends.
fn lines_and_end<'a, A: Allocator + Copy>(
    alloc: A,
    script: &'a [u8],
) -> Result<Vec<&'a [u8], A>, AllocError>
    ensures { IfOk result (λ v. map (λ p. p.now) v.items ≡ lines_of script.entry.now ++ codes "end" ∷ []) }
{
    let mut lines = lines_of(alloc, script)?;
    lines.push(b"end")?;
    Ok(lines)
}

/// What is told of a capture, up to the first line that is refused: a line for each whole frame, and at the end how many bytes are
/// none.
pub fn shown_stream<A: Allocator + Copy>(alloc: A, script: &[u8]) -> Transcript<A>
    ensures { IsShown (lines_of script.now) (string_bytes result.text) result.end }
{
    match lines_and_end(alloc, script) {
        Ok(lines) => {
            let mut stream = CaptureStream::new(alloc);
            let transcript = read_lines(alloc, &mut stream, lines.as_slice(), String::new(alloc));
            drop(stream);
            transcript
        }
        Err(_) => nothing(alloc, ScriptEnd::Memory),
    }
}
