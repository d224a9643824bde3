//! The first message of a connection.

ghost use Rattle.std.specs.Prelude.{◌≡◌, pos, Some, false};
ghost use Rattle.zk_records.specs.Layouts.{connect_request};

use std::alloc::Allocator;
use zk_jute::{BytesRef, PutError, Record};

/// What a connection asks for as it begins. The protocol version is 0, and a read-only server is never asked for.
#[derive(Clone, Copy)]
pub struct Connect<'a> {
    /// A server that is behind this zxid closes the connection.
    pub last_zxid_seen: i64,
    /// The session's timeout in milliseconds.
    pub time_out: i32,
    /// 0 for a new session.
    pub session_id: i64,
    /// As the server gave it; sixteen zero bytes for a new session.
    pub password: &'a [u8],
}

impl<'a, A: Allocator + Copy> Record<A> for Connect<'a> {
    ghost layout = { connect_request };

    ghost view = { λ c. (pos 0, (c.last_zxid_seen, (c.time_out, (c.session_id, (Some c.password.now, false))))) };

    fn write(&self, out: &mut Vec<u8, A>) -> Result<(), PutError> {
        0i32.write(out)?;
        self.last_zxid_seen.write(out)?;
        self.time_out.write(out)?;
        self.session_id.write(out)?;
        let password = BytesRef {
            bytes: Some(self.password),
        };
        password.write(out)?;
        false.write(out)
    }
}
