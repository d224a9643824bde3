//! Names, as they are printed: each once, in the order of their bytes.

ghost use Rattle.std.specs.Prelude.{◌≡◌, ◌++◌, ℕ, List, OnOk, codes, map, string_bytes};
ghost use Rattle.std.specs.BTreeSet.{IsOrdered};
ghost use Rattle.std.specs.FinSet as set;
ghost use Rattle.std.specs.Fmt.{decimal};
ghost use Rattle.std.specs.List.Sorted.{IsStrictlySortedBy};
ghost use Rattle.std.specs.String.{string_cmp};
ghost use Rattle.zk_nodes.specs.Names.{name_cmp};
ghost use Rattle.zk_nodes.specs.inner.Names.{names_of};
ghost use Rattle.script_words.specs.Values.{spaced, names_text};
ghost use Rattle.script_replay.specs.Shown.{names_words, TellsSet};

use crate::name_sets::set_of;
use script_words::values::{push_all, push_name, push_word};
use std::alloc::{AllocError, Allocator};
use std::collections::BTreeSet;
use zk_cache::{JoinedTexts, SortedNames};

/// Adds how many names there are.
fn push_count<A: Allocator + Copy>(
    text: &mut String<A>,
    alloc: A,
    count: usize,
) -> Result<(), AllocError>
    ensures { OnOk result (string_bytes text.new ≡ string_bytes text.old ++ (codes "names" ++ spaced (decimal count))) }
{
    text.push_str("names")?;
    push_word(text, alloc, &count)
}

/// Adds how many texts there are, and each of them.
fn push_keys<A: Allocator + Copy>(
    text: &mut String<A>,
    alloc: A,
    names: &BTreeSet<String<A>, A>,
) -> Result<(), AllocError>
    ensures words { OnOk result (string_bytes text.new ≡ string_bytes text.old ++ names_words (map string_bytes names.now.keys)) }
    ensures ordered { OnOk result (IsOrdered string_cmp names.now) }
{
    push_count(text, alloc, names.len())?;
    push_all(text, alloc, names)
}

/// Adds a set of names.
pub fn push_set<A: Allocator + Copy>(
    text: &mut String<A>,
    alloc: A,
    names: &BTreeSet<String<A>, A>,
) -> Result<(), AllocError>
    ensures { OnOk result ((told : List ℕ) × TellsSet (names_of names.now) told × (string_bytes text.new ≡ string_bytes text.old ++ told)) }
{
    push_keys(text, alloc, names)
}

/// Adds names that come in any order, and may come more than once.
pub fn push_listing<A: Allocator + Copy>(
    text: &mut String<A>,
    alloc: A,
    names: &JoinedTexts<A>,
) -> Result<(), AllocError>
    ensures { OnOk result
        ((told : List ℕ) × TellsSet (set.from_list names.now) told × (string_bytes text.new ≡ string_bytes text.old ++ told)) }
{
    let set = set_of(alloc, names)?;
    push_set(text, alloc, &set)
}

/// Adds the names that are kept in their order, a space before each.
fn push_sorted<A: Allocator + Copy>(
    text: &mut String<A>,
    alloc: A,
    names: &SortedNames<A>,
) -> Result<(), AllocError>
    ensures { OnOk result (string_bytes text.new ≡ string_bytes text.old ++ names_text names.now) }
{
    for index in 0..names.len() {
        if let Some(name) = names.get(index) {
            push_name(text, alloc, name.as_bytes())?;
        }
    }
    Ok(())
}

/// Adds how many names are kept, and each of them.
fn push_counted<A: Allocator + Copy>(
    text: &mut String<A>,
    alloc: A,
    names: &SortedNames<A>,
) -> Result<(), AllocError>
    ensures words { OnOk result (string_bytes text.new ≡ string_bytes text.old ++ names_words names.now) }
    ensures sorted { OnOk result (IsStrictlySortedBy name_cmp names.now) }
{
    push_count(text, alloc, names.len())?;
    push_sorted(text, alloc, names)
}

/// Adds the names that are kept of a node's children.
pub(crate) fn push_kept<A: Allocator + Copy>(
    text: &mut String<A>,
    alloc: A,
    names: &SortedNames<A>,
) -> Result<(), AllocError>
    ensures { OnOk result
        ((told : List ℕ) × TellsSet (set.from_list names.now) told × (string_bytes text.new ≡ string_bytes text.old ++ told)) }
{
    push_counted(text, alloc, names)
}
