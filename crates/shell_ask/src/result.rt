//! What is printed of what came of a call.

ghost use Rattle.std.specs.Prelude.{◌≡◌, ◌++◌, ℕ, List, IfOk, OnOk, string_bytes};
ghost use Rattle.zk_client.specs.Views.{call_result_view};
ghost use Rattle.shell_ask.specs.inner.Asking.{came_view};
ghost use Rattle.shell_ask.specs.Printing.{raw_bytes, Prints, PrintsResult, PrintsWords};

use crate::came::Came;
use crate::data::{push_data, push_hex};
use crate::fields::push_fields;
use crate::json_lines::objects;
use crate::names::{push_names, push_path};
use crate::plan::Form;
use std::alloc::{AllocError, Allocator};
use zk_client::{CallResult, Outcome};

/// What is printed of a result in words, below a chroot.
fn words<A: Allocator + Copy>(
    alloc: A,
    form: Form,
    chroot: &str,
    found: &CallResult<A>,
) -> Result<String<A>, AllocError>
    ensures { IfOk result (λ text. PrintsWords form chroot.now (call_result_view found.now) (string_bytes text)) }
{
    let mut text = String::new(alloc);
    let pushed = match found {
        CallResult::Code(_) | CallResult::Done => Ok(()),
        CallResult::Stat(stat) => push_fields(&mut text, alloc, form, stat),
        CallResult::Data { bytes, stat: _ } => push_data(&mut text, alloc, form, bytes),
        CallResult::Names { names, stat: _ } => push_names(&mut text, alloc, names),
        CallResult::Created(path) => push_path(&mut text, alloc, chroot, path.as_str()),
        CallResult::Raw(bytes) => push_hex(&mut text, alloc, bytes.as_slice()),
    };
    pushed?;
    Ok(text)
}

/// The bytes that a result brings as data.
fn raw_bytes<A: Allocator + Copy>(alloc: A, found: &CallResult<A>) -> Result<Vec<u8, A>, AllocError>
    ensures { IfOk result (λ bytes. bytes.items ≡ raw_bytes (call_result_view found.now)) }
{
    match found {
        CallResult::Data {
            bytes: Some(bytes),
            stat: _,
        } => Vec::from_slice(alloc, bytes.as_slice()),
        CallResult::Raw(bytes) => Vec::from_slice(alloc, bytes.as_slice()),
        _ => Ok(Vec::new(alloc)),
    }
}

/// What is printed of a result, below a chroot.
fn result_text<A: Allocator + Copy>(
    alloc: A,
    form: Form,
    chroot: &str,
    found: &CallResult<A>,
) -> Result<Vec<u8, A>, AllocError>
    ensures { IfOk result (λ text. PrintsResult form chroot.now (call_result_view found.now) text.items) }
{
    match form {
        Form::Json => objects(alloc, chroot, found),
        Form::Raw => raw_bytes(alloc, found),
        Form::Plain | Form::Hex | Form::Quiet => {
            Ok(words(alloc, form, chroot, found)?.into_bytes())
        }
    }
}

/// What is printed of what came of a call.
pub(crate) fn printed<A: Allocator + Copy>(
    alloc: A,
    form: Form,
    chroot: &str,
    came: &Came<A>,
) -> Result<Vec<u8, A>, AllocError>
    ensures { IfOk result (λ text. Prints form chroot.now (came_view came.now) text.items) }
{
    match came {
        Came::Answered(
            Outcome::Replied {
                zxid: _,
                result: found,
            },
        ) => { result_text(alloc, form, chroot, found) }
        _ => Ok(Vec::new(alloc)),
    }
}
