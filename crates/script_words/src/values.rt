//! Values as words, a space before each.

ghost use Rattle.std.specs.Prelude.{◌≡◌, ◌++◌, [], map, OnOk, IsSome, unwrap_or, string_bytes};
ghost use Rattle.std.specs.Option.{option_map};
ghost use Rattle.script_words.specs.Words.{bytes_word};
ghost use Rattle.script_words.specs.Values.{front_words, numbers_text, stat_words, spaced, name_text, names_text};

use crate::words::{NULL, bytes_to_word, text_to_word};
use std::alloc::{AllocError, Allocator};
use std::collections::BTreeSet;
use std::fmt::Display;
use zk_nodes::DataStat;

/// Adds the word that a value is shown as.
pub fn push_value<A: Allocator + Copy, D: Display>(
    text: &mut String<A>,
    alloc: A,
    value: &D,
) -> Result<(), AllocError>
    requires { IsSome (D.output value.now) }
    ensures { OnOk result (string_bytes text.new ≡ string_bytes text.old ++ unwrap_or (D.output value.now) []) }
{
    let word = value.to_string(alloc)?;
    text.push_str(word.as_str())
}

/// Adds a space and the word that a value is shown as.
#[tactic(auto, unfolding(crate::specs::Values::spaced))]
pub fn push_word<A: Allocator + Copy, D: Display>(
    text: &mut String<A>,
    alloc: A,
    value: &D,
) -> Result<(), AllocError>
    requires { IsSome (D.output value.now) }
    ensures { OnOk result (string_bytes text.new ≡ string_bytes text.old ++ spaced (unwrap_or (D.output value.now) [])) }
{
    text.push_str(" ")?;
    push_value(text, alloc, value)
}

/// Adds numbers, a space before each.
pub fn push_numbers<A: Allocator + Copy>(
    text: &mut String<A>,
    alloc: A,
    numbers: &[i64],
) -> Result<(), AllocError>
    ensures { OnOk result (string_bytes text.new ≡ string_bytes text.old ++ numbers_text numbers.now) }
{
    for number in numbers {
        push_word(text, alloc, number)?;
    }
    Ok(())
}

/// Adds the five numbers with which a Stat begins, a space before each.
#[tactic(auto, unfolding(crate::specs::Values::front_words))]
pub fn push_front<A: Allocator + Copy>(
    text: &mut String<A>,
    alloc: A,
    stat: &DataStat,
) -> Result<(), AllocError>
    ensures { OnOk result (string_bytes text.new ≡ string_bytes text.old ++ front_words stat.now) }
{
    let numbers = [
        stat.czxid,
        stat.mzxid,
        stat.ctime,
        stat.mtime,
        stat.version as i64,
    ];
    push_numbers(text, alloc, numbers.as_slice())
}

/// Adds the seven numbers, a space before each.
pub fn push_stat<A: Allocator + Copy>(
    text: &mut String<A>,
    alloc: A,
    stat: &DataStat,
) -> Result<(), AllocError>
    ensures { OnOk result (string_bytes text.new ≡ string_bytes text.old ++ stat_words stat.now) }
{
    push_front(text, alloc, stat)?;
    push_word(text, alloc, &stat.ephemeral_owner)?;
    push_word(text, alloc, &stat.data_length)
}

/// Adds the word for bytes, which may be null.
pub fn push_data_word<A: Allocator + Copy>(
    text: &mut String<A>,
    alloc: A,
    bytes: &Option<Vec<u8, A>>,
) -> Result<(), AllocError>
    ensures { OnOk result (string_bytes text.new ≡ string_bytes text.old ++ bytes_word (option_map (λ v. v.items) bytes.now)) }
{
    match bytes {
        None => text.push_str(NULL),
        Some(bytes) => {
            let word = bytes_to_word(alloc, bytes.as_slice())?;
            text.push_str(word.as_str())
        }
    }
}

/// Adds a space and the word for a name.
#[tactic(auto, unfolding(crate::specs::Values::spaced))]
pub fn push_name<A: Allocator + Copy>(
    text: &mut String<A>,
    alloc: A,
    name: &[u8],
) -> Result<(), AllocError>
    ensures { OnOk result (string_bytes text.new ≡ string_bytes text.old ++ name_text name.now) }
{
    text.push_str(" ")?;
    let word = text_to_word(alloc, name)?;
    text.push_str(word.as_str())
}

/// Adds the names in byte order, a space before each.
pub fn push_all<A: Allocator + Copy>(
    text: &mut String<A>,
    alloc: A,
    names: &BTreeSet<String<A>, A>,
) -> Result<(), AllocError>
    ensures { OnOk result (string_bytes text.new ≡ string_bytes text.old ++ names_text (map string_bytes names.now.keys)) }
{
    for name in names {
        push_name(text, alloc, name.as_bytes())?;
    }
    Ok(())
}
