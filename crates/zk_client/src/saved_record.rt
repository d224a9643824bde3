//! The record that a session is put away as.

ghost use Rattle.std.specs.Prelude.{◌≡◌, false};
ghost use Rattle.std.specs.Option.{option_map};
ghost use Rattle.zk_client.specs.SavedSessions.{saved_layout};

use std::alloc::Allocator;
use zk_jute::{BytesRef, Cursor, PutError, Readable, Record, TakeError};

/// A session that is put away, with its password lent: `long session; buffer password; long lastZxid`.
#[derive(Clone, Copy)]
pub(crate) struct SavedRecord<'a> {
    pub(crate) session: i64,
    pub(crate) password: BytesRef<'a>,
    pub(crate) last_zxid: i64,
}

impl<'a, A: Allocator + Copy> Record<A> for SavedRecord<'a> {
    ghost layout = { saved_layout };

    ghost view = { λ r. (r.session, (⟦<BytesRef<'a> as Record<A>>⟧.view r.password, r.last_zxid)) };

    fn write(&self, out: &mut Vec<u8, A>) -> Result<(), PutError> {
        self.session.write(out)?;
        self.password.write(out)?;
        self.last_zxid.write(out)?;
        Ok(())
    }
}

impl<'a, A: Allocator + Copy> Readable<'a, A> for SavedRecord<'a> {
    ghost takes_memory = { false };

    fn read(alloc: A, at: &mut Cursor<'a>) -> Result<SavedRecord<'a>, TakeError> {
        Ok(SavedRecord {
            session: i64::read(alloc, at)?,
            password: BytesRef::read(alloc, at)?,
            last_zxid: i64::read(alloc, at)?,
        })
    }
}
