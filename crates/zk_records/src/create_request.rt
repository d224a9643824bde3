//! The request that makes a node.

ghost use Rattle.std.specs.Prelude.{◌≡◌, true, Some};
ghost use Rattle.zk_records.specs.Layouts.{acl, create_request};
ghost use Rattle.std.specs.Option.{option_map};
ghost use Rattle.zk_records.specs.OpenAcl.{open_acl};

use crate::acl::Acl;
use crate::open_acl::OpenAcl;
use std::alloc::Allocator;
use zk_jute::{Buffer, BytesRef, Cursor, List, PutError, Readable, Record, TakeError, Text, Then};

/// The request that makes a node.
#[derive(Drop)]
pub struct CreateRequest<A: Allocator> {
    pub path: Text<A>,
    pub bytes: Buffer<A>,
    pub acl: List<Acl<A>, A>,
    /// 0 persistent, 1 ephemeral, 2 persistent sequential, 3 ephemeral sequential.
    pub flags: i32,
}

impl<A: Allocator + Copy> Record<A> for CreateRequest<A> {
    ghost layout = { create_request };

    ghost view = { λ r. (r.path, (r.bytes, (⟦<List<Acl<A>, A> as Record<A>>⟧.view r.acl, r.flags))) };

    fn write(&self, out: &mut Vec<u8, A>) -> Result<(), PutError> {
        let after = Then(&self.acl, self.flags);
        Then(&self.path, Then(&self.bytes, after)).write(out)
    }
}

impl<'a, A: Allocator + Copy> Readable<'a, A> for CreateRequest<A> {
    ghost takes_memory = { true };

    fn read(alloc: A, at: &mut Cursor<'a>) -> Result<CreateRequest<A>, TakeError> {
        let Then(path, Then(bytes, Then(acl, flags))) = Then::read(alloc, at)?;
        Ok(CreateRequest {
            path,
            bytes,
            acl,
            flags,
        })
    }
}

/// The request that makes a node, with the open access list.
#[derive(Clone, Copy)]
pub struct CreateRequestRef<'a> {
    pub path: &'a str,
    pub bytes: BytesRef<'a>,
    /// 0 persistent, 1 ephemeral, 2 persistent sequential, 3 ephemeral sequential.
    pub flags: i32,
}

impl<'a, A: Allocator + Copy> Record<A> for CreateRequestRef<'a> {
    ghost layout = { create_request };

    ghost view = { λ r. (Some r.path.now, (option_map (λ s. s.now) r.bytes.bytes, (open_acl, r.flags))) };

    fn write(&self, out: &mut Vec<u8, A>) -> Result<(), PutError> {
        let after = Then(OpenAcl, self.flags);
        Then(self.path, Then(self.bytes, after)).write(out)
    }
}
