//! Words of a line: a name, and a value after it.

ghost use Rattle.std.specs.Fmt.{decimal};
ghost use Rattle.std.specs.Prelude.{◌≡◌, ◌++◌, [], OnOk, IsSome, codes, unwrap_or, string_bytes};
ghost use Rattle.script_words.specs.Words.{text_word};
ghost use Rattle.script_stream.specs.Words.{count_word, named, size_word};
ghost use Rattle.script_stream.specs.inner.Words.{field_word, fields_words};

use script_words::words::{NULL, boolean_to_word, text_to_word};
use std::alloc::{AllocError, Allocator};
use std::fmt::Display;
use zk_jute::{Buffer, List, Record, Text};

/// A field whose value is told. Of data it is how many bytes they are.
#[derive(Drop)]
pub enum ToldField<'a, A: Allocator> {
    Int(&'a i32),
    Long(&'a i64),
    Boolean(bool),
    Size(&'a Buffer<A>),
    Text(&'a Text<A>),
}

/// Adds a name and a word, with a space before each.
#[tactic(auto, unfolding(crate::specs::Words::named))]
pub fn push_named<A: Allocator>(
    text: &mut String<A>,
    name: &str,
    word: &str,
) -> Result<(), AllocError>
    ensures { OnOk result (string_bytes text.new ≡ string_bytes text.old ++ named name.now word.now) }
{
    text.push_str(" ")?;
    text.push_str(name)?;
    text.push_str(" ")?;
    text.push_str(word)
}

/// Adds a name and a value as it is shown.
pub fn push_value<A: Allocator, D: Display>(
    text: &mut String<A>,
    alloc: A,
    name: &str,
    value: &D,
) -> Result<(), AllocError>
    requires { IsSome (D.output value.now) }
    ensures { OnOk result (string_bytes text.new ≡ string_bytes text.old ++ named name.now (unwrap_or (D.output value.now) [])) }
{
    let word = value.to_string(alloc)?;
    push_named(text, name, word.as_str())
}

/// Adds a name, and a number of bytes.
pub(crate) fn push_length<A: Allocator>(
    text: &mut String<A>,
    alloc: A,
    name: &str,
    count: usize,
) -> Result<(), AllocError>
    ensures { OnOk result (string_bytes text.new ≡ string_bytes text.old ++ named name.now (decimal count ++ codes " bytes")) }
{
    let mut word = count.to_string(alloc)?;
    word.push_str(" bytes")?;
    push_named(text, name, word.as_str())
}

/// Adds a name, and how many bytes data are.
pub fn push_size<A: Allocator + Copy>(
    text: &mut String<A>,
    alloc: A,
    name: &str,
    bytes: &Buffer<A>,
) -> Result<(), AllocError>
    ensures { OnOk result (string_bytes text.new ≡ string_bytes text.old ++ named name.now (size_word bytes.now)) }
{
    match bytes.as_slice() {
        None => push_named(text, name, NULL),
        Some(bytes) => push_length(text, alloc, name, bytes.len()),
    }
}

/// Adds a name and a text.
pub fn push_text<A: Allocator + Copy>(
    text: &mut String<A>,
    alloc: A,
    name: &str,
    value: &Text<A>,
) -> Result<(), AllocError>
    ensures { OnOk result (string_bytes text.new ≡ string_bytes text.old ++ named name.now (text_word value.now)) }
{
    match value.as_str() {
        None => push_named(text, name, NULL),
        Some(value) => {
            let word = text_to_word(alloc, value.as_bytes())?;
            push_named(text, name, word.as_str())
        }
    }
}

/// Adds a name and a field.
fn push_field<A: Allocator + Copy>(
    text: &mut String<A>,
    alloc: A,
    name: &str,
    field: &ToldField<'_, A>,
) -> Result<(), AllocError>
    ensures { OnOk result (string_bytes text.new ≡ string_bytes text.old ++ named name.now (field_word field.now)) }
{
    match field {
        ToldField::Int(number) => push_value(text, alloc, name, number),
        ToldField::Long(number) => push_value(text, alloc, name, number),
        ToldField::Boolean(flag) => push_named(text, name, boolean_to_word(*flag)),
        ToldField::Size(bytes) => push_size(text, alloc, name, bytes),
        ToldField::Text(value) => push_text(text, alloc, name, value),
    }
}

/// Adds the name and the value of each field.
pub fn push_fields<A: Allocator + Copy>(
    text: &mut String<A>,
    alloc: A,
    fields: &[(&str, ToldField<'_, A>)],
) -> Result<(), AllocError>
    ensures { OnOk result (string_bytes text.new ≡ string_bytes text.old ++ fields_words fields.now) }
{
    for (name, field) in fields {
        push_field(text, alloc, name, field)?;
    }
    Ok(())
}

/// Adds a name, and how many elements a list has.
pub fn push_count<A: Allocator + Copy, R: Record<A>>(
    text: &mut String<A>,
    alloc: A,
    name: &str,
    values: &List<R, A>,
) -> Result<(), AllocError>
    ensures { OnOk result
        (string_bytes text.new ≡ string_bytes text.old ++ named name.now (count_word (⟦<List<R, A> as Record<A>>⟧.view values.now))) }
{
    match &values.elements {
        None => push_named(text, name, NULL),
        Some(values) => push_value(text, alloc, name, &values.len()),
    }
}
