//! The line that tells of the bound.

ghost use Rattle.std.specs.Prelude.{◌≡◌, ◌++◌, codes, pos, IfOk, string_bytes};
ghost use Rattle.std.specs.Fmt.{decimal};
ghost use Rattle.shell_words.specs.Objects.{number_members};
ghost use Rattle.shell_watch.specs.Lines.{line_of, object_line, stamp_of};
ghost use Rattle.shell_watch.specs.Trees.{bound_line, bound_text};

use crate::object::{begun, ended};
use crate::plan::Style;
use crate::stamp::line_at;
use script_words::values::push_value;
use shell_words::objects::put_count;
use std::alloc::{AllocError, Allocator};

/// That a tree has more nodes than this, as an object of JSON.
fn bound_object<A: Allocator + Copy>(alloc: A, ms: u64, most: u64) -> Result<String<A>, AllocError>
    ensures { IfOk result (λ text. string_bytes text ≡ object_line ms (codes "bound") (number_members (codes "nodes") (pos most))) }
{
    let mut writer = begun(alloc, "bound", ms)?;
    put_count(&mut writer, "nodes", most)?;
    ended(writer)
}

/// The same in words.
fn bound_words<A: Allocator + Copy>(alloc: A, most: u64) -> Result<String<A>, AllocError>
    ensures { IfOk result
        (λ text. string_bytes text ≡ codes "bound " ++ (decimal most ++ codes " a tree has more nodes: no more of it are watched")) }
{
    let mut text = String::from_str(alloc, "bound ")?;
    push_value(&mut text, alloc, &most)?;
    text.push_str(" a tree has more nodes: no more of it are watched")?;
    Ok(text)
}

/// The line that tells of the bound.
fn bound_line<A: Allocator + Copy>(
    alloc: A,
    style: Style,
    ms: u64,
    most: u64,
) -> Result<String<A>, AllocError>
    ensures { IfOk result (λ text. string_bytes text ≡ bound_line style ms most) }
{
    if matches!(style, Style::Json) {
        return bound_object(alloc, ms, most);
    }
    let words = bound_words(alloc, most)?;
    line_at(alloc, ms, words.as_str())
}

/// The same if the bound was not reached before, and nothing if it was or is not.
pub(crate) fn bound_text<A: Allocator + Copy>(
    alloc: A,
    style: Style,
    ms: u64,
    was: bool,
    is: bool,
    most: u64,
) -> Result<String<A>, AllocError>
    ensures { IfOk result (λ text. string_bytes text ≡ bound_text was is style ms most) }
{
    match (was, is) {
        (false, true) => bound_line(alloc, style, ms, most),
        _ => Ok(String::new(alloc)),
    }
}
