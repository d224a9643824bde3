//! Kept answers, each compared with what a history tells.

ghost use Rattle.std.specs.Prelude.{◌≡◌, ◌↔◌, IsTrue, Some, map, slice_get, string_bytes};
ghost use Rattle.std.specs.BTreeSet.{contains_text, IsOrdered};
ghost use Rattle.std.specs.FinSet as set;
ghost use Rattle.std.specs.List.Sorted.{IsStrictlySortedBy};
ghost use Rattle.std.specs.Option.{option_map};
ghost use Rattle.std.specs.String.{string_cmp};
ghost use Rattle.zk_cache.specs.Contents.{answer_of, names_in};
ghost use Rattle.zk_cache.specs.Kept.{same_fields};
ghost use Rattle.zk_nodes.specs.Names.{name_cmp};
ghost use Rattle.zk_history.specs.Shown.{data_told, names_told};
ghost use Rattle.script_rehearse.specs.Good.{same_content, agrees, AgreesNames, HasNames};

use std::alloc::Allocator;
use std::collections::BTreeSet;
use zk_cache::{Children, DataAnswer, SortedNames};
use zk_history::Data;
use zk_nodes::{DataStat, Names};

/// Whether data are the same: both null, or the same bytes.
fn same_content<A: Allocator>(kept: &Option<Vec<u8, A>>, told: &Option<Vec<u8, A>>) -> bool
    ensures { result ≡ same_content (option_map (λ v. v.items) kept.now) (option_map (λ v. v.items) told.now) }
{
    match (kept, told) {
        (None, None) => true,
        (Some(kept), Some(told)) => kept.as_slice() == told.as_slice(),
        _ => false,
    }
}

fn same_fields(kept: &DataStat, told: &DataStat) -> bool
    ensures { result ≡ same_fields kept.now told.now }
{
    kept == told
}

/// Whether an answer is what the history tells.
pub fn agrees<A: Allocator>(kept: &DataAnswer<A>, told: &Option<Data<A>>) -> bool
    ensures { result ≡ agrees (answer_of kept.now) (data_told told.now) }
{
    match (kept, told) {
        (DataAnswer::Absent, None) => true,
        (DataAnswer::Known(stat), Some(told)) => same_fields(stat, &told.stat),
        (DataAnswer::Full(bytes, stat), Some(told)) => {
            same_content(bytes, &told.bytes) && same_fields(stat, &told.stat)
        }
        _ => false,
    }
}

/// Whether this name stands at an index.
fn is_name<A: Allocator>(names: &SortedNames<A>, index: usize, name: &str) -> bool
    ensures { IsTrue result ↔ (slice_get names.now index ≡ Some name.now) }
{
    match names.get(index) {
        Some(found) => found == name,
        None => false,
    }
}

/// Whether these are the texts of a set, in their order.
fn are_texts<A: Allocator>(names: &SortedNames<A>, texts: &BTreeSet<String<A>, A>) -> bool
    ensures same { IsTrue result ↔ (names.now ≡ map string_bytes texts.now.keys) }
    ensures sorted { IsStrictlySortedBy name_cmp names.now }
    ensures ordered { IsOrdered string_cmp texts.now }
{
    let count = names.len();
    let mut index = 0;
    for text in texts {
        if !is_name(names, index, text.as_str()) {
            return false;
        }
        index += 1;
    }
    index == count
}

/// Whether the names are the same.
fn same_names<A: Allocator>(kept: &SortedNames<A>, told: &BTreeSet<String<A>, A>) -> bool
    ensures { IsTrue result ↔ HasNames (set.from_list kept.now) (contains_text told.now) }
{
    are_texts(kept, told)
}

/// Whether names are those that the history tells, with the zxid of their last change.
#[tactic(auto, using(crate::proofs::GoodLemmas::both_same, crate::proofs::GoodLemmas::other_zxid))]
pub fn agrees_names<A: Allocator>(kept: &Children<A>, told: &Option<Names<A>>) -> bool
    ensures { AgreesNames (names_in kept.now) (names_told told.now) result }
{
    match told {
        None => false,
        Some(told) => kept.pzxid == told.pzxid && same_names(&kept.names, &told.names),
    }
}
