//! The members of an object of JSON, and its line.

ghost use Rattle.std.specs.Prelude.{◌≡◌, ◌++◌, ◌∷◌, [], pos, IfOk, None, OnOk, Some, map};
ghost use Rattle.std.specs.Option.{option_map};
ghost use Rattle.json.specs.Print.{print};
ghost use Rattle.json.specs.Token as json;
ghost use Rattle.shell_words.specs.Objects.{data_members, field_members, number_members, text_members};

use crate::texts::as_utf8;
use json::Writer;
use script_words::words::bytes_to_word;
use std::alloc::{AllocError, Allocator};

/// Writes a key and a text.
pub fn put_text<A: Allocator + Copy>(
    writer: &mut Writer<A>,
    key: &str,
    text: &str,
) -> Result<(), AllocError>
    ensures { OnOk result
        ((writer.new.before ≡ writer.old.before) × (writer.new.tokens ≡ writer.old.tokens ++ text_members key.now text.now)) }
{
    writer.key(key)?;
    writer.string(text)
}

/// Writes a key and a number.
pub fn put_number<A: Allocator + Copy>(
    writer: &mut Writer<A>,
    key: &str,
    number: i64,
) -> Result<(), AllocError>
    ensures { OnOk result
        ((writer.new.before ≡ writer.old.before) × (writer.new.tokens ≡ writer.old.tokens ++ number_members key.now number)) }
{
    writer.key(key)?;
    writer.i64(number)
}

/// Writes a key and a number that is not below 0.
pub fn put_count<A: Allocator + Copy>(
    writer: &mut Writer<A>,
    key: &str,
    number: u64,
) -> Result<(), AllocError>
    ensures { OnOk result
        ((writer.new.before ≡ writer.old.before) × (writer.new.tokens ≡ writer.old.tokens ++ number_members key.now (pos number))) }
{
    writer.key(key)?;
    writer.u64(number)
}

/// Writes numbers with their names.
pub fn put_fields<A: Allocator + Copy>(
    writer: &mut Writer<A>,
    fields: &[(&'static str, i64)],
) -> Result<(), AllocError>
    ensures { OnOk result ((writer.new.before ≡ writer.old.before)
        × (writer.new.tokens ≡ writer.old.tokens ++ field_members (map (λ field. (field.0.now, field.1)) fields.now))) }
{
    for (name, number) in fields {
        put_number(writer, name, *number)?;
    }
    Ok(())
}

/// Writes bytes: a text, or hex under another key.
pub fn put_bytes<A: Allocator + Copy>(
    writer: &mut Writer<A>,
    alloc: A,
    bytes: &[u8],
) -> Result<(), AllocError>
    ensures { OnOk result
        ((writer.new.before ≡ writer.old.before) × (writer.new.tokens ≡ writer.old.tokens ++ data_members (Some bytes.now))) }
{
    match as_utf8(bytes) {
        Some(text) => put_text(writer, "data", text),
        None => {
            let hex = bytes_to_word(alloc, bytes)?;
            put_text(writer, "hex", hex.as_str())
        }
    }
}

/// Writes that data are null.
pub fn put_null<A: Allocator + Copy>(writer: &mut Writer<A>) -> Result<(), AllocError>
    ensures { OnOk result ((writer.new.before ≡ writer.old.before) × (writer.new.tokens ≡ writer.old.tokens ++ data_members None)) }
{
    writer.key("data")?;
    writer.null()
}

/// Writes data: bytes, or null.
pub fn put_data<A: Allocator + Copy>(
    writer: &mut Writer<A>,
    alloc: A,
    bytes: &Option<Vec<u8, A>>,
) -> Result<(), AllocError>
    ensures { OnOk result ((writer.new.before ≡ writer.old.before)
        × (writer.new.tokens ≡ writer.old.tokens ++ data_members (option_map (λ v. v.items) bytes.now))) }
{
    match bytes {
        Some(bytes) => put_bytes(writer, alloc, bytes.as_slice()),
        None => put_null(writer),
    }
}

/// The line of an object that a writer has begun: what was written before, and the end of the object and of the line.
pub fn line_of<A: Allocator + Copy>(mut writer: Writer<A>) -> Result<Vec<u8, A>, AllocError>
    ensures { IfOk result (λ line. line.items ≡ writer.before ++ (print (writer.tokens ++ json.end_object ∷ []) ++ 10 ∷ [])) }
{
    writer.end_object()?;
    let mut line = writer.into_inner();
    line.push(b'\n')?;
    Ok(line)
}
