//! Words of a line.

ghost use Rattle.std.specs.Prelude.{◌≡◌, ◌++◌, OnOk, string_bytes};
ghost use Rattle.script_words.specs.Values.{spaced};

use std::alloc::{AllocError, Allocator};

/// Adds a space and a word.
#[tactic(auto, unfolding(script_words::specs::Values::spaced))]
pub fn push_spaced<A: Allocator>(text: &mut String<A>, word: &str) -> Result<(), AllocError>
    ensures { OnOk result (string_bytes text.new ≡ string_bytes text.old ++ spaced word.now) }
{
    text.push_str(" ")?;
    text.push_str(word)
}
