//! The requests that read of a node.

ghost use Rattle.std.specs.Prelude.{◌≡◌, true, Some};
ghost use Rattle.zk_records.specs.Layouts.{read_request};

use std::alloc::Allocator;
use zk_jute::{Cursor, PutError, Readable, Record, TakeError, Text, Then};

/// What is asked of a node, its data, or the names below it: ExistsRequest, GetDataRequest, GetChildrenRequest and
/// GetChildren2Request, which have the same fields.
#[derive(Drop)]
pub struct ReadRequest<A: Allocator> {
    pub path: Text<A>,
    /// Whether the server is to leave a watch.
    pub watch: bool,
}

impl<A: Allocator + Copy> Record<A> for ReadRequest<A> {
    ghost layout = { read_request };

    ghost view = { λ r. (r.path, r.watch) };

    fn write(&self, out: &mut Vec<u8, A>) -> Result<(), PutError> {
        Then(&self.path, self.watch).write(out)
    }
}

impl<'a, A: Allocator + Copy> Readable<'a, A> for ReadRequest<A> {
    ghost takes_memory = { true };

    fn read(alloc: A, at: &mut Cursor<'a>) -> Result<ReadRequest<A>, TakeError> {
        let Then(path, watch) = Then::read(alloc, at)?;
        Ok(ReadRequest { path, watch })
    }
}

/// What is asked of a node, its data, or the names below it, and whether to watch it.
#[derive(Clone, Copy)]
pub struct ReadRequestRef<'a> {
    pub path: &'a str,
    pub watch: bool,
}

impl<'a, A: Allocator + Copy> Record<A> for ReadRequestRef<'a> {
    ghost layout = { read_request };

    ghost view = { λ r. (Some r.path.now, r.watch) };

    fn write(&self, out: &mut Vec<u8, A>) -> Result<(), PutError> {
        Then(self.path, self.watch).write(out)
    }
}
