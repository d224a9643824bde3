//! A request as a whole payload.

ghost use Rattle.std.specs.Prelude.{◌≡◌};
ghost use Rattle.zk_jute.specs.Layout.{int, ◌⨾◌};

use crate::request_header::RequestHeader;
use std::alloc::Allocator;
use zk_jute::{PutError, Record, Then};

/// The payload of a request's frame: the header, and the record of its operation. `Nothing` is that of ping and
/// closeSession.
#[derive(Clone, Copy)]
pub struct RequestPayload<R> {
    pub header: RequestHeader,
    pub record: R,
}

impl<A: Allocator + Copy, R: Record<A>> Record<A> for RequestPayload<R> {
    ghost layout = { int ⨾ (int ⨾ R.layout) };

    ghost view = { λ p. (p.header.xid, (p.header.operation, R.view p.record)) };

    fn write(&self, out: &mut Vec<u8, A>) -> Result<(), PutError> {
        Then(self.header.xid, Then(self.header.operation, &self.record)).write(out)
    }
}
