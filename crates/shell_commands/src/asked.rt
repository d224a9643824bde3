//! What is printed of a request.

ghost use Rattle.std.specs.Prelude.{◌≡◌, ◌≢◌, ◌++◌, ◌<◌, ◌^◌, ℕ, List, Err, length, IfOk, IfErr, OnOk, string_bytes};
ghost use Rattle.zk_jute.specs.declared.fault.TakeError.TheVariants as take_errors;
ghost use Rattle.zk_jute.specs.Spelling.{spelling, Fits};
ghost use Rattle.zk_records.specs.declared.request_fault.RequestFault.TheVariants as faults;
ghost use Rattle.zk_records.specs.Operations.{body_layout, request_layout};
ghost use Rattle.zk_records.specs.Request.{operation_of, body_of};
ghost use Rattle.zk_records.specs.Asked.{asked_of, asked_value, request_at};
ghost use Rattle.shell_commands.specs.Names.{body_names};
ghost use Rattle.shell_commands.specs.Print.{lines_of, print_of};
ghost use Rattle.shell_commands.specs.Show.{Prints, IsRequest, request_lines};

use crate::printed::push_end;
use crate::shown::Shown;
use script_words::lines::push_shown;
use std::alloc::{AllocError, Allocator};
use zk_jute::{Cursor, PutError, TakeError};
use zk_records::{Request, RequestFault};

/// Adds the lines of what stands after a request's header.
fn push_body<A: Allocator + Copy>(
    text: &mut String<A>,
    alloc: A,
    request: &Request<A>,
) -> Result<(), AllocError>
    ensures { OnOk result (string_bytes text.new ≡ string_bytes text.old
        ++ lines_of (body_layout (operation_of request.now)) (body_names (operation_of request.now)) (body_of request.now)) }
{
    match request {
        Request::Exists(record) => record.push_lines(text, alloc),
        Request::GetData(record) => record.push_lines(text, alloc),
        Request::GetChildren(record) => record.push_lines(text, alloc),
        Request::GetChildren2(record) => record.push_lines(text, alloc),
        Request::SetData(record) => record.push_lines(text, alloc),
        Request::Create(record) => record.push_lines(text, alloc),
        Request::Delete(record) => record.push_lines(text, alloc),
        Request::SetWatches(record) => record.push_lines(text, alloc),
        Request::Ping | Request::CloseSession => Ok(()),
    }
}

/// Adds the lines of a request with this xid.
fn push_request<A: Allocator + Copy>(
    text: &mut String<A>,
    alloc: A,
    xid: &i32,
    request: &Request<A>,
) -> Result<(), AllocError>
    ensures { OnOk result (string_bytes text.new ≡ string_bytes text.old ++ request_lines (asked_of xid.now request.now)) }
{
    let operation = request.operation().number();
    push_shown(text, alloc, "xid", xid)?;
    push_shown(text, alloc, "type", &operation)?;
    push_body(text, alloc, request)
}

/// The spelling of a request that has one.
fn request_spelling_of<A: Allocator + Copy>(
    alloc: A,
    xid: &i32,
    request: &Request<A>,
) -> Result<Vec<u8, A>, AllocError>
    requires { Fits (request_layout (operation_of request.now)) (asked_value (asked_of xid.now request.now)) }
    ensures { IfOk result
        (λ bytes. bytes.items ≡ spelling (request_layout (operation_of request.now)) (asked_value (asked_of xid.now request.now))) }
{
    let mut bytes = Vec::new(alloc);
    match request.put(*xid, &mut bytes) {
        Ok(()) => Ok(bytes),
        Err(PutError::Memory) => Err(AllocError),
        Err(PutError::TooLong) => unreachable!(),
    }
}

/// What is printed of a request that has a spelling, with this many bytes after it.
fn print_asked<A: Allocator + Copy>(
    alloc: A,
    xid: &i32,
    request: &Request<A>,
    ignored: usize,
) -> Result<String<A>, AllocError>
    requires fits { Fits (request_layout (operation_of request.now)) (asked_value (asked_of xid.now request.now)) }
    requires short { length (spelling (request_layout (operation_of request.now)) (asked_value (asked_of xid.now request.now))) < 2 ^ 31 }
    ensures { IfOk result (λ text. (rest : List ℕ) → length rest ≡ ignored → string_bytes text
        ≡ print_of (request_lines (asked_of xid.now request.now))
        (spelling (request_layout (operation_of request.now)) (asked_value (asked_of xid.now request.now))) rest) }
{
    let spelled = request_spelling_of(alloc, xid, request)?;
    let mut text = String::new(alloc);
    push_request(&mut text, alloc, xid, request)?;
    push_end(&mut text, alloc, spelled.as_slice(), ignored)?;
    Ok(text)
}

/// What is printed of the request whose spelling begins a payload.
pub fn print_request<A: Allocator + Copy>(
    alloc: A,
    payload: &[u8],
) -> Result<String<A>, RequestFault>
    requires { length payload.now < 2 ^ 31 }
    ensures prints { IfOk result (λ text. Prints IsRequest payload.now (string_bytes text)) }
    ensures fault { IfErr result (λ e. e ≢ faults.Unread take_errors.Memory → request_at (length payload.now) payload.now ≡ Err e) }
{
    let mut at = Cursor::new(payload);
    let asked = Request::take(alloc, &mut at)?;
    let printed = print_asked(alloc, &asked.0, &asked.1, at.rest().len());
    drop(asked);
    match printed {
        Ok(text) => Ok(text),
        Err(_) => Err(RequestFault::Unread(TakeError::Memory)),
    }
}
