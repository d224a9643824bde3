//! The first message of a connection.

ghost use Rattle.std.specs.Prelude.{◌≡◌, true};
ghost use Rattle.zk_records.specs.Layouts.{connect_request};
ghost use Rattle.zk_records.specs.Views.{request_of};

use std::alloc::Allocator;
use zk_jute::{Buffer, Cursor, PutError, Readable, Record, TakeError, Then};

/// What a client asks for as a connection begins. It is the first message, and has no header.
#[derive(Drop)]
pub struct ConnectRequest<A: Allocator> {
    /// This client sends 0.
    pub protocol_version: i32,
    /// A server that is behind this zxid ends the connection without an answer.
    pub last_zxid_seen: i64,
    /// The timeout that is asked for, in milliseconds.
    pub time_out: i32,
    /// 0 for a new session.
    pub session_id: i64,
    /// Sixteen zero bytes for a new session.
    pub passwd: Buffer<A>,
    /// Whether a server that only reads will do. This client sends false.
    pub read_only: bool,
}

impl<A: Allocator + Copy> Record<A> for ConnectRequest<A> {
    ghost layout = { connect_request };

    ghost view = { request_of };

    fn write(&self, out: &mut Vec<u8, A>) -> Result<(), PutError> {
        let after = Then(self.session_id, Then(&self.passwd, self.read_only));
        let last = Then(self.last_zxid_seen, Then(self.time_out, after));
        Then(self.protocol_version, last).write(out)
    }
}

impl<'a, A: Allocator + Copy> Readable<'a, A> for ConnectRequest<A> {
    ghost takes_memory = { true };

    fn read(alloc: A, at: &mut Cursor<'a>) -> Result<ConnectRequest<A>, TakeError> {
        let Then(protocol_version, Then(last_zxid_seen, Then(time_out, after))) = Then::read(
            alloc, at,
        )?;
        let Then(session_id, Then(passwd, read_only)) = after;
        Ok(ConnectRequest {
            protocol_version,
            last_zxid_seen,
            time_out,
            session_id,
            passwd,
            read_only,
        })
    }
}
