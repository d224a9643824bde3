//! Requests as they arrive.

ghost use Rattle.std.specs.Prelude.{◌≡◌, ◌≢◌, ◌++◌, ℕ, List, Ok, Err, IfOk, OnErr, MatchResult};
ghost use Rattle.zk_jute.specs.Cursor.{bytes_left, payload_len};
ghost use Rattle.zk_jute.specs.Spelling.{spelling, Fits};
ghost use Rattle.zk_jute.specs.Reading.{reading};
ghost use Rattle.zk_jute.specs.declared.fault.TakeError.TheVariants as take_errors;
ghost use Rattle.zk_records.specs.declared.request_fault.RequestFault.TheVariants as faults;
ghost use Rattle.zk_records.specs.Operations.{operation_number, body_layout, request_layout};
ghost use Rattle.zk_records.specs.Request.{operation_of, body_of};
ghost use Rattle.zk_records.specs.Asked.{Asked, asked_of, asked_value, request_at};

use crate::create_request::CreateRequest;
use crate::delete_request::DeleteRequest;
use crate::operation::Operation;
use crate::read_request::ReadRequest;
use crate::request::Request;
use crate::request_fault::RequestFault;
use crate::request_header::RequestHeader;
use crate::set_data_request::SetDataRequest;
use crate::set_watches::SetWatches;
use std::alloc::Allocator;
use zk_jute::{Cursor, Readable, TakeError};

impl<A: Allocator + Copy> Request<A> {
    /// Reads the request whose spelling begins the bytes at the cursor, with its xid, and moves past it. What stands
    /// after it is not looked at.
    ///
    /// # Errors
    ///
    /// The first fault from left to right, or `Unread(Memory)` where the allocator refused a request. All leave the
    /// cursor where it was.
    pub fn take(alloc: A, at: &mut Cursor<'_>) -> Result<(i32, Request<A>), RequestFault>
        // What is read is spelled so.
        ensures found { IfOk result (λ r. Fits (request_layout (operation_of r.1)) (asked_value (asked_of r.0 r.1))
            × (bytes_left at.old ≡ spelling (request_layout (operation_of r.1)) (asked_value (asked_of r.0 r.1)) ++ bytes_left at.new)) }
        // What is spelled so is read, unless memory runs out.
        ensures only { (asked : Asked) (rest : List ℕ) → Fits (request_layout asked.operation) (asked_value asked)
            → bytes_left at.old ≡ spelling (request_layout asked.operation) (asked_value asked) ++ rest
            → MatchResult result (λ r. (asked_of r.0 r.1 ≡ asked) × (bytes_left at.new ≡ rest))
            (λ e. e ≡ faults.Unread take_errors.Memory) }
        // Which fault it is.
        ensures exact { MatchResult result
            (λ r. request_at (payload_len at.old) (bytes_left at.old) ≡ Ok (asked_of r.0 r.1, bytes_left at.new))
            (λ e. e ≢ faults.Unread take_errors.Memory → request_at (payload_len at.old) (bytes_left at.old) ≡ Err e) }
        ensures len { payload_len at.new ≡ payload_len at.old }
        ensures err { OnErr result (at.new ≡ at.old) }
    {
        let mut next = *at;
        let request = read_request(alloc, &mut next)?;
        *at = next;
        Ok(request)
    }
}

/// Reads the header and the record. After an `Err` the cursor may stand anywhere.
fn read_request<A: Allocator + Copy>(
    alloc: A,
    at: &mut Cursor<'_>,
) -> Result<(i32, Request<A>), RequestFault>
    ensures len { payload_len at.new ≡ payload_len at.old }
    ensures gives { MatchResult result
        (λ r. request_at (payload_len at.old) (bytes_left at.old) ≡ Ok (asked_of r.0 r.1, bytes_left at.new))
        (λ e. e ≢ faults.Unread take_errors.Memory → request_at (payload_len at.old) (bytes_left at.old) ≡ Err e) }
{
    let header = RequestHeader::read(alloc, at)?;
    match Operation::new(header.operation) {
        None => Err(RequestFault::Unknown(header.operation)),
        Some(operation) => {
            let request = read_body(alloc, operation, at)?;
            Ok((header.xid, request))
        }
    }
}

/// Reads the record after a header of this operation. After an `Err` the cursor may stand anywhere.
fn read_body<A: Allocator + Copy>(
    alloc: A,
    operation: Operation,
    at: &mut Cursor<'_>,
) -> Result<Request<A>, TakeError>
    ensures len { payload_len at.new ≡ payload_len at.old }
    ensures same { IfOk result (λ r. operation_of r ≡ operation) }
    ensures gives { MatchResult result
        (λ r. reading (body_layout (operation_of r)) (payload_len at.old) (bytes_left at.old) ≡ Ok (body_of r, bytes_left at.new))
        (λ e. e ≢ TakeError.Memory → reading (body_layout operation) (payload_len at.old) (bytes_left at.old) ≡ Err e) }
{
    match operation {
        Operation::Exists => Ok(Request::Exists(ReadRequest::read(alloc, at)?)),
        Operation::GetData => Ok(Request::GetData(ReadRequest::read(alloc, at)?)),
        Operation::GetChildren => Ok(Request::GetChildren(ReadRequest::read(alloc, at)?)),
        Operation::GetChildren2 => Ok(Request::GetChildren2(ReadRequest::read(alloc, at)?)),
        Operation::SetData => Ok(Request::SetData(SetDataRequest::read(alloc, at)?)),
        Operation::Create => Ok(Request::Create(CreateRequest::read(alloc, at)?)),
        Operation::Delete => Ok(Request::Delete(DeleteRequest::read(alloc, at)?)),
        Operation::SetWatches => Ok(Request::SetWatches(SetWatches::read(alloc, at)?)),
        Operation::Ping => Ok(Request::Ping),
        Operation::CloseSession => Ok(Request::CloseSession),
    }
}
