//! The fields of a Stat, as they are printed.

ghost use Rattle.std.specs.Prelude.{◌≡◌, ◌++◌, OnOk, map, string_bytes};
ghost use Rattle.shell_ask.specs.Printing.{field_lines, fields, stat_lines};

use crate::plan::Form;
use script_words::lines::push_shown;
use std::alloc::{AllocError, Allocator};
use zk_client::Stat;

/// The fields of a Stat, by their names.
pub(crate) fn fields_of(stat: &Stat) -> [(&'static str, i64); 11]
    ensures { map (λ field. (field.0.now, field.1)) result ≡ fields stat.now }
{
    [
        ("czxid", stat.czxid),
        ("mzxid", stat.mzxid),
        ("ctime", stat.ctime),
        ("mtime", stat.mtime),
        ("version", stat.version as i64),
        ("cversion", stat.cversion as i64),
        ("aversion", stat.aversion as i64),
        ("ephemeralOwner", stat.ephemeral_owner),
        ("dataLength", stat.data_length as i64),
        ("numChildren", stat.num_children as i64),
        ("pzxid", stat.pzxid),
    ]
}

/// Adds a line for each field.
fn push_lines<A: Allocator + Copy>(
    text: &mut String<A>,
    alloc: A,
    fields: &[(&'static str, i64)],
) -> Result<(), AllocError>
    ensures { OnOk result
        (string_bytes text.new ≡ string_bytes text.old ++ field_lines (map (λ field. (field.0.now, field.1)) fields.now)) }
{
    for (name, number) in fields {
        push_shown(text, alloc, name, number)?;
    }
    Ok(())
}

/// Adds a line for each field of a Stat, by its name.
pub(crate) fn push_fields<A: Allocator + Copy>(
    text: &mut String<A>,
    alloc: A,
    form: Form,
    stat: &Stat,
) -> Result<(), AllocError>
    ensures { OnOk result (string_bytes text.new ≡ string_bytes text.old ++ stat_lines form stat.now) }
{
    match form {
        Form::Quiet => Ok(()),
        Form::Plain | Form::Hex | Form::Raw | Form::Json => {
            push_lines(text, alloc, &fields_of(stat))
        }
    }
}
