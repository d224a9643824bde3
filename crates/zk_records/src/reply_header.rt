//! What every reply and every notice begins with.

ghost use Rattle.std.specs.Prelude.{◌≡◌, false};
ghost use Rattle.zk_records.specs.Layouts.{reply_header};

use std::alloc::Allocator;
use zk_jute::{Cursor, PutError, Readable, Record, TakeError, Then};

/// What every reply and every notice begins with: ReplyHeader, 16 bytes.
#[derive(Clone, Copy)]
pub struct ReplyHeader {
    /// That of the request; -1 of a notice, -2 of the answer to a ping.
    pub xid: i32,
    /// The last transaction that the server had made when it answered; -1 of a notice.
    pub zxid: i64,
    /// 0, or the number of a [`Code`](crate::Code).
    pub err: i32,
}

impl<A: Allocator + Copy> Record<A> for ReplyHeader {
    ghost layout = { reply_header };

    ghost view = { λ r. (r.xid, (r.zxid, r.err)) };

    fn write(&self, out: &mut Vec<u8, A>) -> Result<(), PutError> {
        Then(self.xid, Then(self.zxid, self.err)).write(out)
    }
}

impl<'a, A: Allocator + Copy> Readable<'a, A> for ReplyHeader {
    ghost takes_memory = { false };

    fn read(alloc: A, at: &mut Cursor<'a>) -> Result<ReplyHeader, TakeError> {
        let Then(xid, Then(zxid, err)) = Then::read(alloc, at)?;
        Ok(ReplyHeader { xid, zxid, err })
    }
}
