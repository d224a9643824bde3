//! Two values, one after the other, and a value that is lent.

ghost use Rattle.std.specs.Prelude.{◌||◌};
ghost use Rattle.zk_jute.specs.Layout.{◌⨾◌};

use crate::cursor::Cursor;
use crate::fault::{PutError, TakeError};
use crate::record::{Readable, Record};
use std::alloc::Allocator;

/// A value, and the one that follows it.
///
/// A record's `write` and `read` go through its fields, one within another: `Then(a, Then(b, c))`. So these two alone
/// have an exit after each field.
#[derive(Drop)]
pub struct Then<X, Y>(pub X, pub Y);

impl<A: Allocator + Copy, X: Record<A>, Y: Record<A>> Record<A> for Then<X, Y> {
    ghost layout = { X.layout ⨾ Y.layout };

    ghost view = { λ p. (X.view p.0, Y.view p.1) };

    fn write(&self, out: &mut Vec<u8, A>) -> Result<(), PutError> {
        self.0.write(out)?;
        self.1.write(out)
    }
}

impl<'a, A: Allocator + Copy, X: Readable<'a, A> + Drop, Y: Readable<'a, A>> Readable<'a, A>
    for Then<X, Y> {
    ghost takes_memory = { X.takes_memory || Y.takes_memory };

    fn read(alloc: A, at: &mut Cursor<'a>) -> Result<Then<X, Y>, TakeError> {
        let first = X::read(alloc, at)?;
        let second = Y::read(alloc, at)?;
        Ok(Then(first, second))
    }
}

/// A field that is lent is written as itself.
impl<'r, A: Allocator + Copy, R: Record<A>> Record<A> for &'r R {
    ghost layout = { R.layout };

    ghost view = { λ r. R.view r.now };

    fn write(&self, out: &mut Vec<u8, A>) -> Result<(), PutError> {
        (**self).write(out)
    }
}
