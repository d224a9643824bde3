//! What every request begins with.

ghost use Rattle.std.specs.Prelude.{◌≡◌, false};
ghost use Rattle.zk_records.specs.Layouts.{request_header};

use std::alloc::Allocator;
use zk_jute::{Cursor, PutError, Readable, Record, TakeError, Then};

/// What every request begins with: RequestHeader, 8 bytes.
#[derive(Clone, Copy)]
pub struct RequestHeader {
    /// The number by which the client knows the reply again; -2 of a ping, -8 of setWatches.
    pub xid: i32,
    /// The wire's `type`: the number of an [`Operation`](crate::Operation), or another.
    pub operation: i32,
}

impl<A: Allocator + Copy> Record<A> for RequestHeader {
    ghost layout = { request_header };

    ghost view = { λ r. (r.xid, r.operation) };

    fn write(&self, out: &mut Vec<u8, A>) -> Result<(), PutError> {
        Then(self.xid, self.operation).write(out)
    }
}

impl<'a, A: Allocator + Copy> Readable<'a, A> for RequestHeader {
    ghost takes_memory = { false };

    fn read(alloc: A, at: &mut Cursor<'a>) -> Result<RequestHeader, TakeError> {
        let Then(xid, operation) = Then::read(alloc, at)?;
        Ok(RequestHeader { xid, operation })
    }
}
