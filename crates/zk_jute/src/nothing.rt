//! A record with no field.

ghost use Rattle.std.specs.Prelude.{◌≡◌, false};
ghost use Rattle.zk_jute.specs.Layout.{nothing};

use crate::cursor::Cursor;
use crate::fault::{PutError, TakeError};
use crate::record::{Readable, Record};
use std::alloc::Allocator;

/// A record with no field, and so of no bytes: what stands after the header of a ping, say.
#[derive(Clone, Copy)]
pub struct Nothing;

impl<A: Allocator + Copy> Record<A> for Nothing {
    ghost layout = { nothing };

    ghost view = { λ _. tt };

    fn write(&self, _out: &mut Vec<u8, A>) -> Result<(), PutError> {
        Ok(())
    }
}

impl<'a, A: Allocator + Copy> Readable<'a, A> for Nothing {
    ghost takes_memory = { false };

    fn read(_alloc: A, _at: &mut Cursor<'a>) -> Result<Nothing, TakeError> {
        Ok(Nothing)
    }
}
