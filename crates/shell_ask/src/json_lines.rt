//! Answers as lines of JSON, an object a line.

ghost use Rattle.std.specs.Prelude.{◌≡◌, ◌++◌, codes, IfOk, OnOk, map, string_bytes};
ghost use Rattle.std.specs.BTreeSet.{IsOrdered};
ghost use Rattle.std.specs.FinSet as set;
ghost use Rattle.std.specs.List.{flat_map};
ghost use Rattle.std.specs.Option.{option_map};
ghost use Rattle.std.specs.String.{string_cmp};
ghost use Rattle.zk_client.specs.Views.{call_result_view};
ghost use Rattle.shell_ask.specs.Printing.{fields_line, read_line, text_line, PrintsEach, PrintsObjects};

use crate::fields::fields_of;
use crate::names::below;
use json::Writer;
use script_replay::name_sets::set_of;
use script_words::words::bytes_to_word;
use shell_words::objects::{line_of, put_data, put_fields, put_text};
use std::alloc::{AllocError, Allocator};
use std::collections::BTreeSet;
use zk_client::{CallResult, JoinedTexts, Stat};

/// The line of data and a Stat.
fn read_line<A: Allocator + Copy>(
    alloc: A,
    bytes: &Option<Vec<u8, A>>,
    stat: &Stat,
) -> Result<Vec<u8, A>, AllocError>
    ensures { IfOk result (λ line. line.items ≡ read_line (option_map (λ v. v.items) bytes.now) stat.now) }
{
    let mut writer = Writer::new(Vec::new(alloc));
    writer.begin_object()?;
    put_data(&mut writer, alloc, bytes)?;
    put_fields(&mut writer, &fields_of(stat))?;
    line_of(writer)
}

/// The line of a Stat.
fn fields_line<A: Allocator + Copy>(alloc: A, stat: &Stat) -> Result<Vec<u8, A>, AllocError>
    ensures { IfOk result (λ line. line.items ≡ fields_line stat.now) }
{
    let mut writer = Writer::new(Vec::new(alloc));
    writer.begin_object()?;
    put_fields(&mut writer, &fields_of(stat))?;
    line_of(writer)
}

/// Lines, and after them that of an object with one text.
pub(crate) fn with_text<A: Allocator + Copy>(
    lines: Vec<u8, A>,
    key: &str,
    text: &str,
) -> Result<Vec<u8, A>, AllocError>
    ensures { IfOk result (λ new. new.items ≡ lines.items ++ text_line key.now text.now) }
{
    let mut writer = Writer::new(lines);
    writer.begin_object()?;
    put_text(&mut writer, key, text)?;
    line_of(writer)
}

/// A line for each name of a set.
fn set_lines<A: Allocator + Copy>(
    alloc: A,
    names: &BTreeSet<String<A>, A>,
) -> Result<Vec<u8, A>, AllocError>
    ensures lines { IfOk result (λ lines. lines.items ≡ flat_map (text_line (codes "name")) (map string_bytes names.now.keys)) }
    ensures ordered { OnOk result (IsOrdered string_cmp names.now) }
{
    let mut lines = Vec::new(alloc);
    for name in names {
        lines = with_text(lines, "name", name.as_str())?;
    }
    Ok(lines)
}

/// A line for each of names that come in any order, and may come more than once.
fn name_lines<A: Allocator + Copy>(
    alloc: A,
    names: &JoinedTexts<A>,
) -> Result<Vec<u8, A>, AllocError>
    ensures { IfOk result (λ lines. PrintsEach (text_line (codes "name")) (set.from_list names.now) lines.items) }
{
    let set = set_of(alloc, names)?;
    set_lines(alloc, &set)
}

/// The lines of a result, below a chroot.
pub(crate) fn objects<A: Allocator + Copy>(
    alloc: A,
    chroot: &str,
    found: &CallResult<A>,
) -> Result<Vec<u8, A>, AllocError>
    ensures { IfOk result (λ lines. PrintsObjects chroot.now (call_result_view found.now) lines.items) }
{
    match found {
        CallResult::Code(_) | CallResult::Done => Ok(Vec::new(alloc)),
        CallResult::Stat(stat) => fields_line(alloc, stat),
        CallResult::Data { bytes, stat } => read_line(alloc, bytes, stat),
        CallResult::Names { names, stat: _ } => name_lines(alloc, names),
        CallResult::Created(path) => {
            with_text(Vec::new(alloc), "path", below(chroot, path.as_str()))
        }
        CallResult::Raw(bytes) => {
            let hex = bytes_to_word(alloc, bytes.as_slice())?;
            with_text(Vec::new(alloc), "hex", hex.as_str())
        }
    }
}
