//! Lines of a name and a word.

ghost use Rattle.std.specs.Prelude.{◌≡◌, ◌++◌, [], OnOk, IsSome, unwrap_or, string_bytes};
ghost use Rattle.script_words.specs.Lines.{line};

use std::alloc::{AllocError, Allocator};
use std::fmt::Display;

/// Adds a line of a name and a word.
#[tactic(auto, unfolding(crate::specs::Lines::line))]
pub fn push_line<A: Allocator>(
    text: &mut String<A>,
    name: &str,
    word: &str,
) -> Result<(), AllocError>
    ensures { OnOk result (string_bytes text.new ≡ string_bytes text.old ++ line name.now word.now) }
{
    text.push_str(name)?;
    text.push_str(" ")?;
    text.push_str(word)?;
    text.push_str("\n")
}

/// Adds a line of a name and a value as it is shown.
pub fn push_shown<A: Allocator, D: Display>(
    text: &mut String<A>,
    alloc: A,
    name: &str,
    value: &D,
) -> Result<(), AllocError>
    requires { IsSome (D.output value.now) }
    ensures { OnOk result (string_bytes text.new ≡ string_bytes text.old ++ line name.now (unwrap_or (D.output value.now) [])) }
{
    let word = value.to_string(alloc)?;
    push_line(text, name, word.as_str())
}
