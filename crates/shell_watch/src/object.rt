//! Objects of JSON, a line each.

ghost use Rattle.std.specs.Prelude.{◌≡◌, ◌++◌, ◌∷◌, [], codes, pos, IfOk, string_bytes};
ghost use Rattle.json.specs.Print.{print};
ghost use Rattle.json.specs.Token as json;
ghost use Rattle.shell_words.specs.Objects.{number_members, text_members};

use json::Writer;
use shell_words::objects::{line_of, put_count, put_text};
use std::alloc::{AllocError, Allocator};

/// The beginning of an object: its kind, and the moment in milliseconds.
pub(crate) fn begun<A: Allocator + Copy>(
    alloc: A,
    kind: &str,
    ms: u64,
) -> Result<Writer<A>, AllocError>
    ensures before { IfOk result (λ writer. writer.before ≡ []) }
    ensures tokens { IfOk result
        (λ writer. writer.tokens ≡ json.begin_object ∷ (text_members (codes "kind") kind.now ++ number_members (codes "ms") (pos ms))) }
{
    let mut writer = Writer::new(Vec::new(alloc));
    writer.begin_object()?;
    put_text(&mut writer, "kind", kind)?;
    put_count(&mut writer, "ms", ms)?;
    Ok(writer)
}

/// The line of an object, with its end, as text.
pub(crate) fn ended<A: Allocator + Copy>(writer: Writer<A>) -> Result<String<A>, AllocError>
    ensures { IfOk result (λ line. string_bytes line ≡ writer.before ++ (print (writer.tokens ++ json.end_object ∷ []) ++ 10 ∷ [])) }
{
    match String::from_utf8(line_of(writer)?) {
        Ok(line) => Ok(line),
        // What is written is UTF-8.
        Err(_) => Err(AllocError),
    }
}
