//! The request that sets the data of a node.

ghost use Rattle.std.specs.Prelude.{◌≡◌, true, Some};
ghost use Rattle.zk_records.specs.Layouts.{set_data_request};
ghost use Rattle.std.specs.Option.{option_map};

use std::alloc::Allocator;
use zk_jute::{Buffer, BytesRef, Cursor, PutError, Readable, Record, TakeError, Text, Then};

/// The request that sets the data of a node.
#[derive(Drop)]
pub struct SetDataRequest<A: Allocator> {
    pub path: Text<A>,
    pub bytes: Buffer<A>,
    /// The version that the node is to have, or -1 for any.
    pub version: i32,
}

impl<A: Allocator + Copy> Record<A> for SetDataRequest<A> {
    ghost layout = { set_data_request };

    ghost view = { λ r. (r.path, (r.bytes, r.version)) };

    fn write(&self, out: &mut Vec<u8, A>) -> Result<(), PutError> {
        Then(&self.path, Then(&self.bytes, self.version)).write(out)
    }
}

impl<'a, A: Allocator + Copy> Readable<'a, A> for SetDataRequest<A> {
    ghost takes_memory = { true };

    fn read(alloc: A, at: &mut Cursor<'a>) -> Result<SetDataRequest<A>, TakeError> {
        let Then(path, Then(bytes, version)) = Then::read(alloc, at)?;
        Ok(SetDataRequest {
            path,
            bytes,
            version,
        })
    }
}

/// The request that sets the data of a node.
#[derive(Clone, Copy)]
pub struct SetDataRef<'a> {
    pub path: &'a str,
    pub bytes: BytesRef<'a>,
    /// The version that the node is to have, or -1 for any.
    pub version: i32,
}

impl<'a, A: Allocator + Copy> Record<A> for SetDataRef<'a> {
    ghost layout = { set_data_request };

    ghost view = { λ r. (Some r.path.now, (option_map (λ s. s.now) r.bytes.bytes, r.version)) };

    fn write(&self, out: &mut Vec<u8, A>) -> Result<(), PutError> {
        Then(self.path, Then(self.bytes, self.version)).write(out)
    }
}
