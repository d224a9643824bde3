//! Requests, each with its header.

ghost use Rattle.std.specs.Prelude.{◌≡◌, ◌++◌, length, take, OnOk, OnErr, IsErrOf};
ghost use Rattle.zk_jute.specs.Spelling.{spelling, Fits};
ghost use Rattle.zk_records.specs.Operations.{body_layout, request_layout};
ghost use Rattle.zk_records.specs.Request.{operation_of, body_of};
ghost use Rattle.zk_records.specs.Asked.{asked_of, asked_value};

use crate::create_request::CreateRequest;
use crate::delete_request::DeleteRequest;
use crate::operation::Operation;
use crate::read_request::ReadRequest;
use crate::request_header::RequestHeader;
use crate::set_data_request::SetDataRequest;
use crate::set_watches::SetWatches;
use crate::whole::whole_or_none;
use std::alloc::Allocator;
use zk_jute::{PutError, Record};

/// What a client asks of a server, as a server reads it: with memory of its own.
#[derive(Drop)]
pub enum Request<A: Allocator> {
    /// Whether a node is there, and its `Stat`.
    Exists(ReadRequest<A>),
    /// A node's data and `Stat`.
    GetData(ReadRequest<A>),
    /// The names of a node's children.
    GetChildren(ReadRequest<A>),
    /// The names of a node's children, and the node's `Stat`.
    GetChildren2(ReadRequest<A>),
    SetData(SetDataRequest<A>),
    Create(CreateRequest<A>),
    Delete(DeleteRequest<A>),
    SetWatches(SetWatches<A>),
    /// Tells the server that the client is there. It is a header alone.
    Ping,
    /// Ends the session. It is a header alone.
    CloseSession,
}

impl<A: Allocator + Copy> Request<A> {
    /// Which request it is.
    pub fn operation(&self) -> Operation
        ensures { result ≡ operation_of self.now }
    {
        match self {
            Request::Exists(_) => Operation::Exists,
            Request::GetData(_) => Operation::GetData,
            Request::GetChildren(_) => Operation::GetChildren,
            Request::GetChildren2(_) => Operation::GetChildren2,
            Request::SetData(_) => Operation::SetData,
            Request::Create(_) => Operation::Create,
            Request::Delete(_) => Operation::Delete,
            Request::SetWatches(_) => Operation::SetWatches,
            Request::Ping => Operation::Ping,
            Request::CloseSession => Operation::CloseSession,
        }
    }

    /// Writes the payload of the frame that carries this request at the end of `out`: a header with this xid, and the
    /// request's record.
    ///
    /// # Errors
    ///
    /// `TooLong` where a length or a count in it is above 2,147,483,647, `Memory` where `out` could not grow. Both
    /// leave `out` as it was.
    pub fn put(&self, xid: i32, out: &mut Vec<u8, A>) -> Result<(), PutError>
        ensures ok { OnOk result
            (out.new.items ≡ out.old.items ++ spelling (request_layout (operation_of self.now)) (asked_value (asked_of xid self.now))) }
        ensures fits { OnOk result (Fits (request_layout (operation_of self.now)) (asked_value (asked_of xid self.now))) }
        ensures too_long { IsErrOf result PutError.TooLong
            → Fits (request_layout (operation_of self.now)) (asked_value (asked_of xid self.now)) → ⊥ }
        ensures err { OnErr result (out.new.items ≡ out.old.items) }
    {
        let start = out.len();
        let outcome = self.write(xid, out);
        whole_or_none(out, start, outcome)
    }

    /// Writes the header and the record. An `Err` may leave a part of them.
    fn write(&self, xid: i32, out: &mut Vec<u8, A>) -> Result<(), PutError>
        ensures ok { OnOk result
            (out.new.items ≡ out.old.items ++ spelling (request_layout (operation_of self.now)) (asked_value (asked_of xid self.now))) }
        ensures fits { OnOk result (Fits (request_layout (operation_of self.now)) (asked_value (asked_of xid self.now))) }
        ensures too_long { IsErrOf result PutError.TooLong
            → Fits (request_layout (operation_of self.now)) (asked_value (asked_of xid self.now)) → ⊥ }
        ensures begun { take (length out.old.items) out.new.items ≡ out.old.items }
    {
        let operation = self.operation().number();
        let header = RequestHeader { xid, operation };
        header.write(out)?;
        self.write_body(out)?;
        Ok(())
    }

    /// Writes the record after the header. An `Err` may leave a part of it.
    fn write_body(&self, out: &mut Vec<u8, A>) -> Result<(), PutError>
        ensures ok { OnOk result (out.new.items ≡ out.old.items ++ spelling (body_layout (operation_of self.now)) (body_of self.now)) }
        ensures fits { OnOk result (Fits (body_layout (operation_of self.now)) (body_of self.now)) }
        ensures too_long { IsErrOf result PutError.TooLong → Fits (body_layout (operation_of self.now)) (body_of self.now) → ⊥ }
        ensures begun { take (length out.old.items) out.new.items ≡ out.old.items }
    {
        match self {
            Request::Exists(r) => r.write(out),
            Request::GetData(r) => r.write(out),
            Request::GetChildren(r) => r.write(out),
            Request::GetChildren2(r) => r.write(out),
            Request::SetData(r) => r.write(out),
            Request::Create(r) => r.write(out),
            Request::Delete(r) => r.write(out),
            Request::SetWatches(r) => r.write(out),
            Request::Ping | Request::CloseSession => Ok(()),
        }
    }
}
