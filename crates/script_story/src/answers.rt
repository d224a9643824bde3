//! The lines that answer look-ups of a history.

ghost use Rattle.std.specs.Prelude.{◌≡◌, ◌++◌, List, ℕ, map, OnOk, string_bytes};
ghost use Rattle.std.specs.BTreeSet.{IsOrdered};
ghost use Rattle.std.specs.String.{string_cmp};
ghost use Rattle.zk_history.specs.Shown.{data_told, names_told};
ghost use Rattle.script_story.specs.Answers.{data_text, names_line, TellsNames};

use script_words::values::{push_all, push_data_word, push_stat, push_word};
use std::alloc::{AllocError, Allocator};
use zk_history::Data;
use zk_nodes::Names;

/// Adds the line that answers a look-up of data.
#[tactic(auto, unfolding(crate::specs::Answers::data_text))]
pub fn push_data<A: Allocator + Copy>(
    text: &mut String<A>,
    alloc: A,
    told: &Option<Data<A>>,
) -> Result<(), AllocError>
    ensures { OnOk result (string_bytes text.new ≡ string_bytes text.old ++ data_text (data_told told.now)) }
{
    match told {
        None => text.push_str("data absent\n"),
        Some(told) => {
            text.push_str("data ")?;
            push_data_word(text, alloc, &told.bytes)?;
            push_stat(text, alloc, &told.stat)?;
            text.push_str("\n")
        }
    }
}

/// Adds the line of names that were found: how many there are, each in byte order, and the pzxid.
fn push_found<A: Allocator + Copy>(
    text: &mut String<A>,
    alloc: A,
    found: &Names<A>,
) -> Result<(), AllocError>
    ensures line { OnOk result
        (string_bytes text.new ≡ string_bytes text.old ++ names_line (map string_bytes found.now.names.keys) found.now.pzxid) }
    ensures ordered { OnOk result (IsOrdered string_cmp found.now.names) }
{
    text.push_str("names")?;
    push_word(text, alloc, &found.names.len())?;
    push_all(text, alloc, &found.names)?;
    push_word(text, alloc, &found.pzxid)?;
    text.push_str("\n")
}

/// Adds the line that answers a look-up of names.
pub fn push_names<A: Allocator + Copy>(
    text: &mut String<A>,
    alloc: A,
    told: &Option<Names<A>>,
) -> Result<(), AllocError>
    ensures { OnOk result
        ((line : List ℕ) × TellsNames (names_told told.now) line × (string_bytes text.new ≡ string_bytes text.old ++ line)) }
{
    match told {
        None => text.push_str("names absent\n"),
        Some(found) => push_found(text, alloc, found),
    }
}
