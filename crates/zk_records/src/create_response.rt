//! The reply to create.

ghost use Rattle.std.specs.Prelude.{◌≡◌, true, false};
ghost use Rattle.zk_records.specs.Layouts.{create_response};

use std::alloc::Allocator;
use zk_jute::{Cursor, PutError, Readable, Record, TakeError, Text, TextRef};

/// The path of a node that was made. That of a sequential one ends in the number that the server gave it.
#[derive(Drop)]
pub struct CreateResponse<A: Allocator> {
    pub path: Text<A>,
}

impl<A: Allocator + Copy> Record<A> for CreateResponse<A> {
    ghost layout = { create_response };

    ghost view = { λ r. r.path };

    fn write(&self, out: &mut Vec<u8, A>) -> Result<(), PutError> {
        self.path.write(out)
    }
}

impl<'a, A: Allocator + Copy> Readable<'a, A> for CreateResponse<A> {
    ghost takes_memory = { true };

    fn read(alloc: A, at: &mut Cursor<'a>) -> Result<CreateResponse<A>, TakeError> {
        let path = Text::read(alloc, at)?;
        Ok(CreateResponse { path })
    }
}

/// The path of a node that was made. That of a sequential one ends in the number that the server gave it.
#[derive(Clone, Copy)]
pub struct CreateRef<'a> {
    pub path: TextRef<'a>,
}

impl<'a, A: Allocator + Copy> Record<A> for CreateRef<'a> {
    ghost layout = { create_response };

    ghost view = { λ r. ⟦<TextRef<'a> as Record<A>>⟧.view r.path };

    fn write(&self, out: &mut Vec<u8, A>) -> Result<(), PutError> {
        self.path.write(out)
    }
}

impl<'a, A: Allocator + Copy> Readable<'a, A> for CreateRef<'a> {
    ghost takes_memory = { false };

    fn read(alloc: A, at: &mut Cursor<'a>) -> Result<CreateRef<'a>, TakeError> {
        let path = TextRef::read(alloc, at)?;
        Ok(CreateRef { path })
    }
}
