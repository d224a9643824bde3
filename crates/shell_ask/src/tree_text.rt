//! What is printed of a walk, and told of its end.

ghost use Rattle.std.specs.Prelude.{◌≡◌, ◌⊎◌, codes, IfOk, string_bytes};
ghost use Rattle.std.specs.List.{flat_map};
ghost use Rattle.shell_ask.specs.Printing.{fault_line, name_line, text_line, IsToldEnd};
ghost use Rattle.shell_ask.specs.Trees.{ending_end, ending_told, most_words, tree_text, Full, Whole};
ghost use Rattle.shell_ask.specs.inner.Trees.{ending_view, IsUndone};

use crate::end::CallEnd;
use crate::json_lines::with_text;
use crate::names::push_name;
use crate::plan::Form;
use crate::told::{end_of, fault_line, told};
use crate::walk::Ending;
use script_words::values::push_value;
use std::alloc::{AllocError, Allocator};
use zk_client::Path;

/// A line for each path.
fn plain_lines<A: Allocator + Copy>(alloc: A, paths: &[Path<A>]) -> Result<String<A>, AllocError>
    ensures { IfOk result (λ text. string_bytes text ≡ flat_map name_line paths.now) }
{
    let mut text = String::new(alloc);
    for path in paths {
        push_name(&mut text, alloc, path.as_str())?;
    }
    Ok(text)
}

/// An object of JSON in a line for each path.
fn object_lines<A: Allocator + Copy>(alloc: A, paths: &[Path<A>]) -> Result<Vec<u8, A>, AllocError>
    ensures { IfOk result (λ lines. lines.items ≡ flat_map (text_line (codes "path")) paths.now) }
{
    let mut lines = Vec::new(alloc);
    for path in paths {
        lines = with_text(lines, "path", path.as_str())?;
    }
    Ok(lines)
}

/// What is printed of these paths.
pub(crate) fn tree_text<A: Allocator + Copy>(
    alloc: A,
    form: Form,
    paths: &[Path<A>],
) -> Result<Vec<u8, A>, AllocError>
    ensures { IfOk result (λ text. text.items ≡ tree_text form paths.now) }
{
    match form {
        Form::Json => object_lines(alloc, paths),
        Form::Plain | Form::Hex | Form::Raw | Form::Quiet => {
            Ok(plain_lines(alloc, paths)?.into_bytes())
        }
    }
}

/// What is told of a walk that has printed as many nodes as may be.
fn full_told<A: Allocator + Copy>(alloc: A, name: &str, most: u64) -> Result<String<A>, AllocError>
    ensures { IfOk result (λ text. string_bytes text ≡ fault_line (codes "cut off: ") name.now (most_words most)) }
{
    let mut why = String::new(alloc);
    push_value(&mut why, alloc, &most)?;
    why.push_str(" nodes are printed, and there are more")?;
    fault_line(alloc, "cut off: ", name, why.as_str())
}

/// What is told of a walk from a root of this name that prints this many nodes at most.
pub(crate) fn ending_told<A: Allocator + Copy>(
    alloc: A,
    name: &str,
    most: u64,
    ending: &Ending<A>,
) -> Result<String<A>, AllocError>
    ensures { IfOk result (λ text. string_bytes text ≡ ending_told name.now most (ending_view ending.now)) }
{
    match ending {
        Ending::Whole => Ok(String::new(alloc)),
        Ending::Full => full_told(alloc, name, most),
        Ending::Stopped(at, came) => told(alloc, true, at.as_str(), came),
        Ending::Misnamed(at) => {
            let why = "a node below it has a name that no path has";
            fault_line(alloc, "refused: ", at.as_str(), why)
        }
    }
}

/// How a walk ends.
pub(crate) fn ending_end<A: Allocator>(ending: &Ending<A>) -> CallEnd
    ensures end { result ≡ ending_end (ending_view ending.now) }
    ensures told { (result ≡ CallEnd.Done) ⊎ IsToldEnd result }
    ensures whole { result ≡ CallEnd.Done → IsUndone (ending_view ending.now) → ending_view ending.now ≡ Whole }
    ensures full { result ≡ CallEnd.More → ending_view ending.now ≡ Full }
{
    match ending {
        Ending::Whole => CallEnd::Done,
        Ending::Full => CallEnd::More,
        Ending::Stopped(_, came) => end_of(came),
        Ending::Misnamed(_) => CallEnd::Refused,
    }
}
