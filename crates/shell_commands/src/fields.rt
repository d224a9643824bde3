//! The lines of the fields that records have.

ghost use Rattle.std.specs.Prelude.{◌≡◌, ◌++◌, ◌∷◌, IfOk, OnOk, string_bytes};
ghost use Rattle.std.specs.Fmt.{decimal};
ghost use Rattle.zk_jute.specs.Layout.{vector, ustring};
ghost use Rattle.script_words.specs.Words.{bytes_word, text_word, boolean_word, optional_boolean_word};
ghost use Rattle.script_words.specs.Lines.{line};
ghost use Rattle.shell_commands.specs.Print.{lines_of, numbered_lines, one};
ghost use Rattle.shell_commands.specs.inner.Fields.{field_word, fields_lines};

use script_words::lines::{push_line, push_shown};
use script_words::words::{NONE, NULL, boolean_to_word, bytes_to_word, text_to_word};
use std::alloc::{AllocError, Allocator};
use zk_jute::{Buffer, List, Text};

/// A field that is printed in one line.
#[derive(Drop)]
pub enum PrintedField<'a, A: Allocator> {
    Int(&'a i32),
    Long(&'a i64),
    Boolean(bool),
    Buffer(&'a Buffer<A>),
    Text(&'a Text<A>),
}

/// Adds a line of a name and bytes, which may be null.
pub fn push_buffer<A: Allocator + Copy>(
    text: &mut String<A>,
    alloc: A,
    name: &str,
    bytes: &Buffer<A>,
) -> Result<(), AllocError>
    ensures { OnOk result (string_bytes text.new ≡ string_bytes text.old ++ line name.now (bytes_word bytes.now)) }
{
    match bytes.as_slice() {
        None => push_line(text, name, NULL),
        Some(bytes) => {
            let word = bytes_to_word(alloc, bytes)?;
            push_line(text, name, word.as_str())
        }
    }
}

/// Adds a line of a name and a text, which may be null.
pub fn push_text<A: Allocator + Copy>(
    text: &mut String<A>,
    alloc: A,
    name: &str,
    value: &Text<A>,
) -> Result<(), AllocError>
    ensures { OnOk result (string_bytes text.new ≡ string_bytes text.old ++ line name.now (text_word value.now)) }
{
    match value.as_str() {
        None => push_line(text, name, NULL),
        Some(value) => {
            let word = text_to_word(alloc, value.as_bytes())?;
            push_line(text, name, word.as_str())
        }
    }
}

/// Adds a line of a name and a boolean.
pub fn push_boolean<A: Allocator>(
    text: &mut String<A>,
    name: &str,
    flag: bool,
) -> Result<(), AllocError>
    ensures { OnOk result (string_bytes text.new ≡ string_bytes text.old ++ line name.now (boolean_word flag)) }
{
    push_line(text, name, boolean_to_word(flag))
}

/// Adds a line of a name and a field.
fn push_field<A: Allocator + Copy>(
    text: &mut String<A>,
    alloc: A,
    name: &str,
    field: &PrintedField<'_, A>,
) -> Result<(), AllocError>
    ensures { OnOk result (string_bytes text.new ≡ string_bytes text.old ++ line name.now (field_word field.now)) }
{
    match field {
        PrintedField::Int(number) => push_shown(text, alloc, name, number),
        PrintedField::Long(number) => push_shown(text, alloc, name, number),
        PrintedField::Boolean(flag) => push_boolean(text, name, *flag),
        PrintedField::Buffer(bytes) => push_buffer(text, alloc, name, bytes),
        PrintedField::Text(value) => push_text(text, alloc, name, value),
    }
}

/// Adds a line for each of a record's fields.
pub fn push_fields<A: Allocator + Copy>(
    text: &mut String<A>,
    alloc: A,
    fields: &[(&str, PrintedField<'_, A>)],
) -> Result<(), AllocError>
    ensures { OnOk result (string_bytes text.new ≡ string_bytes text.old ++ fields_lines fields.now) }
{
    for (name, field) in fields {
        push_field(text, alloc, name, field)?;
    }
    Ok(())
}

/// Adds a line of a name and a boolean that may be missing.
pub fn push_optional_boolean<A: Allocator>(
    text: &mut String<A>,
    name: &str,
    flag: Option<bool>,
) -> Result<(), AllocError>
    ensures { OnOk result (string_bytes text.new ≡ string_bytes text.old ++ line name.now (optional_boolean_word flag)) }
{
    match flag {
        None => push_line(text, name, NONE),
        Some(flag) => push_boolean(text, name, flag),
    }
}

/// A name with a number after a dot.
fn numbered<A: Allocator + Copy>(
    alloc: A,
    name: &str,
    number: usize,
) -> Result<String<A>, AllocError>
    ensures { IfOk result (λ word. string_bytes word ≡ name.now ++ 46 ∷ decimal number) }
{
    format!(in alloc; "{name}.{number}")
}

/// Adds a line for each text, with its number after a dot.
fn push_numbered<A: Allocator + Copy>(
    text: &mut String<A>,
    alloc: A,
    name: &str,
    values: &[Text<A>],
) -> Result<(), AllocError>
    ensures { OnOk result (string_bytes text.new ≡ string_bytes text.old ++ numbered_lines name.now 0 values.now) }
{
    for (number, value) in values.iter().enumerate() {
        let numbered = numbered(alloc, name, number)?;
        push_text(text, alloc, numbered.as_str(), value)?;
    }
    Ok(())
}

/// Adds how many texts there are, and a line for each.
pub fn push_texts<A: Allocator + Copy>(
    text: &mut String<A>,
    alloc: A,
    name: &str,
    values: &List<Text<A>, A>,
) -> Result<(), AllocError>
    ensures { OnOk result (string_bytes text.new
        ≡ string_bytes text.old ++ lines_of (vector ustring) (one name.now) (⟦<List<Text<A>, A> as zk_jute::Record<A>>⟧.view values.now)) }
{
    match &values.elements {
        None => push_line(text, name, NULL),
        Some(values) => {
            push_shown(text, alloc, name, &values.len())?;
            push_numbered(text, alloc, name, values.as_slice())
        }
    }
}
