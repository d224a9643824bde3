//! Lines: of words, or objects of JSON. Both have the same pieces, in the same order.

use json::Writer;
use script_words::values::{push_name, push_word};
use script_words::words::{NULL, bytes_to_word};
use shell_words::objects;
use shell_words::objects::{put_bytes, put_null, put_number, put_text};
use std::alloc::{AllocError, Allocator};

/// A value of a line.
#[derive(Clone, Copy)]
pub(crate) enum Value<'v> {
    /// The line has none.
    Missing,
    /// A word that lines of words alone have.
    Head(&'static str),
    Word(&'static str),
    Number(i64),
    /// A path, or a file.
    Name(&'v str),
    /// Bytes, or null.
    Data(Option<&'v [u8]>),
}

/// A value, and its key in an object. The keys of data are `data` and `hex`, whatever is said here.
pub(crate) type Piece<'v> = (&'static str, Value<'v>);

/// A piece that a line does not have.
pub(crate) const NOTHING: Piece<'static> = ("", Value::Missing);

/// Adds a space and a word.
fn push_spaced<A: Allocator>(line: &mut String<A>, word: &str) -> Result<(), AllocError> {
    line.push_str(" ")?;
    line.push_str(word)
}

/// Adds a space and the word for a value.
fn push_piece<A: Allocator + Copy>(
    line: &mut String<A>,
    alloc: A,
    value: &Value<'_>,
) -> Result<(), AllocError> {
    match value {
        Value::Missing => Ok(()),
        Value::Head(word) | Value::Word(word) => push_spaced(line, word),
        Value::Number(number) => push_word(line, alloc, number),
        Value::Name(name) => push_name(line, alloc, name.as_bytes()),
        Value::Data(None) => push_spaced(line, NULL),
        Value::Data(Some(bytes)) => push_spaced(line, bytes_to_word(alloc, bytes)?.as_str()),
    }
}

/// Adds a line of words, which is made in a text that has room.
pub(crate) fn push_line<A: Allocator + Copy>(
    out: &mut Vec<u8, A>,
    line: &mut String<A>,
    alloc: A,
    pieces: &[Piece<'_>],
) -> Result<(), AllocError> {
    line.clear();
    for (_, value) in pieces {
        push_piece(line, alloc, value)?;
    }
    line.push_str("\n")?;
    out.extend_from_slice(line.as_bytes().get(1..).unwrap_or(&[]))
}

/// Writes a piece.
fn put_piece<A: Allocator + Copy>(
    writer: &mut Writer<A>,
    alloc: A,
    key: &str,
    value: &Value<'_>,
) -> Result<(), AllocError> {
    match value {
        Value::Missing | Value::Head(_) => Ok(()),
        Value::Word(word) => put_text(writer, key, word),
        Value::Number(number) => put_number(writer, key, *number),
        Value::Name(name) => put_text(writer, key, name),
        Value::Data(None) => put_null(writer),
        Value::Data(Some(bytes)) => put_bytes(writer, alloc, bytes),
    }
}

/// Adds the line of an object.
pub(crate) fn push_object<A: Allocator + Copy>(
    out: &mut Vec<u8, A>,
    alloc: A,
    pieces: &[Piece<'_>],
) -> Result<(), AllocError> {
    let mut writer: Writer<A> = Writer::new(Vec::new(alloc));
    writer.begin_object()?;
    for (key, value) in pieces {
        put_piece(&mut writer, alloc, key, value)?;
    }
    out.extend_from_slice(objects::line_of(writer)?.as_slice())
}
