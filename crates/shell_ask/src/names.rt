//! Names and paths, as they are printed.

ghost use Rattle.std.specs.Prelude.{◌≡◌, ◌++◌, ℕ, List, chars, OnOk, map, string_bytes};
ghost use Rattle.std.specs.BTreeSet.{IsOrdered};
ghost use Rattle.std.specs.FinSet as set;
ghost use Rattle.std.specs.List.{flat_map, list_any};
ghost use Rattle.std.specs.String.{string_cmp};
ghost use Rattle.zk_nodes.specs.Path.{Text};
ghost use Rattle.shell_ask.specs.Printing.{is_control, name_line, IsBelow, PrintsNames};

use script_replay::name_sets::set_of;
use script_words::words::text_to_word;
use shell_words::texts::is_turning;
use std::alloc::{AllocError, Allocator};
use std::collections::BTreeSet;
use zk_client::JoinedTexts;

/// Whether a character is a control character, or turns the direction.
fn is_control(c: char) -> bool
    ensures { result ≡ is_control c }
{
    matches!(c, '\0'..='\u{1f}' | '\u{7f}'..='\u{9f}') || is_turning(c)
}

/// Whether a text has one.
fn has_control(text: &str) -> bool
    ensures { result ≡ list_any is_control (chars text.now) }
{
    text.chars().any(is_control)
}

/// Adds the line of a name or a path.
pub(crate) fn push_name<A: Allocator + Copy>(
    text: &mut String<A>,
    alloc: A,
    name: &str,
) -> Result<(), AllocError>
    ensures { OnOk result (string_bytes text.new ≡ string_bytes text.old ++ name_line name.now) }
{
    if has_control(name) {
        text.push_str(text_to_word(alloc, name.as_bytes())?.as_str())?;
    } else {
        text.push_str(name)?;
    }
    text.push_str("\n")
}

/// Adds the lines of a set of names.
fn push_set<A: Allocator + Copy>(
    text: &mut String<A>,
    alloc: A,
    names: &BTreeSet<String<A>, A>,
) -> Result<(), AllocError>
    ensures lines { OnOk result (string_bytes text.new ≡ string_bytes text.old ++ flat_map name_line (map string_bytes names.now.keys)) }
    ensures ordered { OnOk result (IsOrdered string_cmp names.now) }
{
    for name in names {
        push_name(text, alloc, name.as_str())?;
    }
    Ok(())
}

/// Adds the lines of names that come in any order, and may come more than once.
pub(crate) fn push_names<A: Allocator + Copy>(
    text: &mut String<A>,
    alloc: A,
    names: &JoinedTexts<A>,
) -> Result<(), AllocError>
    ensures { OnOk result
        ((told : List ℕ) × PrintsNames (set.from_list names.now) told × (string_bytes text.new ≡ string_bytes text.old ++ told)) }
{
    let set = set_of(alloc, names)?;
    push_set(text, alloc, &set)
}

/// A path below a chroot.
pub(crate) fn below<'a>(chroot: &str, path: &'a str) -> &'a str
    ensures { IsBelow chroot.now path.now result.now }
{
    match path.strip_prefix(chroot) {
        Some(below) => below,
        None => path,
    }
}

/// Adds the line of the path of a node that was made, below a chroot.
pub(crate) fn push_path<A: Allocator + Copy>(
    text: &mut String<A>,
    alloc: A,
    chroot: &str,
    path: &str,
) -> Result<(), AllocError>
    ensures { OnOk result
        ((below : Text) × IsBelow chroot.now path.now below × (string_bytes text.new ≡ string_bytes text.old ++ name_line below)) }
{
    push_name(text, alloc, below(chroot, path))
}
