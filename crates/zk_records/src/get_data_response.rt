//! The reply to getData.

ghost use Rattle.std.specs.Prelude.{◌≡◌, true, false};
ghost use Rattle.zk_records.specs.Layouts.{get_data_response};

use std::alloc::Allocator;
use zk_jute::{Buffer, BytesRef, Cursor, PutError, Readable, Record, TakeError, Then};
use zk_nodes::Stat;

/// The data of a node, which may be null, and what is known of it.
#[derive(Drop)]
pub struct GetDataResponse<A: Allocator> {
    pub bytes: Buffer<A>,
    pub stat: Stat,
}

impl<A: Allocator + Copy> Record<A> for GetDataResponse<A> {
    ghost layout = { get_data_response };

    ghost view = { λ r. (r.bytes, ⟦<Stat as Record<A>>⟧.view r.stat) };

    fn write(&self, out: &mut Vec<u8, A>) -> Result<(), PutError> {
        Then(&self.bytes, self.stat).write(out)
    }
}

impl<'a, A: Allocator + Copy> Readable<'a, A> for GetDataResponse<A> {
    ghost takes_memory = { true };

    fn read(alloc: A, at: &mut Cursor<'a>) -> Result<GetDataResponse<A>, TakeError> {
        let Then(bytes, stat) = Then::read(alloc, at)?;
        Ok(GetDataResponse { bytes, stat })
    }
}

/// The data of a node, which may be null, and what is known of it.
#[derive(Clone, Copy)]
pub struct GetDataRef<'a> {
    pub bytes: BytesRef<'a>,
    pub stat: Stat,
}

impl<'a, A: Allocator + Copy> Record<A> for GetDataRef<'a> {
    ghost layout = { get_data_response };

    ghost view = { λ r. (⟦<BytesRef<'a> as Record<A>>⟧.view r.bytes, ⟦<Stat as Record<A>>⟧.view r.stat) };

    fn write(&self, out: &mut Vec<u8, A>) -> Result<(), PutError> {
        Then(self.bytes, self.stat).write(out)
    }
}

impl<'a, A: Allocator + Copy> Readable<'a, A> for GetDataRef<'a> {
    ghost takes_memory = { false };

    fn read(alloc: A, at: &mut Cursor<'a>) -> Result<GetDataRef<'a>, TakeError> {
        let Then(bytes, stat) = Then::read(alloc, at)?;
        Ok(GetDataRef { bytes, stat })
    }
}
