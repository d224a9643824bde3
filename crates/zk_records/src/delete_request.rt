//! The request that deletes a node.

ghost use Rattle.std.specs.Prelude.{◌≡◌, true, Some};
ghost use Rattle.zk_records.specs.Layouts.{delete_request};

use std::alloc::Allocator;
use zk_jute::{Cursor, PutError, Readable, Record, TakeError, Text, Then};

/// The request that deletes a node.
#[derive(Drop)]
pub struct DeleteRequest<A: Allocator> {
    pub path: Text<A>,
    /// The version that the node is to have, or -1 for any.
    pub version: i32,
}

impl<A: Allocator + Copy> Record<A> for DeleteRequest<A> {
    ghost layout = { delete_request };

    ghost view = { λ r. (r.path, r.version) };

    fn write(&self, out: &mut Vec<u8, A>) -> Result<(), PutError> {
        Then(&self.path, self.version).write(out)
    }
}

impl<'a, A: Allocator + Copy> Readable<'a, A> for DeleteRequest<A> {
    ghost takes_memory = { true };

    fn read(alloc: A, at: &mut Cursor<'a>) -> Result<DeleteRequest<A>, TakeError> {
        let Then(path, version) = Then::read(alloc, at)?;
        Ok(DeleteRequest { path, version })
    }
}

/// The request that deletes a node.
#[derive(Clone, Copy)]
pub struct DeleteRef<'a> {
    pub path: &'a str,
    /// The version that the node is to have, or -1 for any.
    pub version: i32,
}

impl<'a, A: Allocator + Copy> Record<A> for DeleteRef<'a> {
    ghost layout = { delete_request };

    ghost view = { λ r. (Some r.path.now, r.version) };

    fn write(&self, out: &mut Vec<u8, A>) -> Result<(), PutError> {
        Then(self.path, self.version).write(out)
    }
}
