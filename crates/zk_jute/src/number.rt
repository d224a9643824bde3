//! Numbers and booleans. Reading them takes no memory.

ghost use Rattle.std.specs.Prelude.{◌≡◌, false};
ghost use Rattle.zk_jute.specs.Layout.{int, long, boolean};

use crate::cursor::Cursor;
use crate::fault::{PutError, TakeError};
use crate::record::{Readable, Record};
use std::alloc::Allocator;

/// An int: four bytes, big-endian, in two's complement.
impl<A: Allocator + Copy> Record<A> for i32 {
    ghost layout = { int };

    ghost view = { λ n. n };

    #[tactic(auto, unfolding(crate::specs::Spelling::int_bytes))]
    fn write(&self, out: &mut Vec<u8, A>) -> Result<(), PutError> {
        let four = self.to_be_bytes();
        out.extend_from_slice(&four)?;
        Ok(())
    }
}

impl<'a, A: Allocator + Copy> Readable<'a, A> for i32 {
    ghost takes_memory = { false };

    fn read(_alloc: A, at: &mut Cursor<'a>) -> Result<i32, TakeError> {
        at.int()
    }
}

/// A long: eight bytes, big-endian, in two's complement.
impl<A: Allocator + Copy> Record<A> for i64 {
    ghost layout = { long };

    ghost view = { λ n. n };

    #[tactic(auto, unfolding(crate::specs::Spelling::long_bytes))]
    fn write(&self, out: &mut Vec<u8, A>) -> Result<(), PutError> {
        let eight = self.to_be_bytes();
        out.extend_from_slice(&eight)?;
        Ok(())
    }
}

impl<'a, A: Allocator + Copy> Readable<'a, A> for i64 {
    ghost takes_memory = { false };

    #[tactic(auto, unfolding(crate::specs::Reading::long_at))]
    fn read(_alloc: A, at: &mut Cursor<'a>) -> Result<i64, TakeError> {
        let b = at.bytes(8)?;
        Ok(i64::from_be_bytes([b[0], b[1], b[2], b[3], b[4], b[5], b[6], b[7]]))
    }
}

/// A boolean: one byte, 0 or 1.
impl<A: Allocator + Copy> Record<A> for bool {
    ghost layout = { boolean };

    ghost view = { λ b. b };

    fn write(&self, out: &mut Vec<u8, A>) -> Result<(), PutError> {
        out.push(u8::from(*self))?;
        Ok(())
    }
}

impl<'a, A: Allocator + Copy> Readable<'a, A> for bool {
    ghost takes_memory = { false };

    #[tactic(auto, unfolding(crate::specs::Reading::boolean_at))]
    fn read(_alloc: A, at: &mut Cursor<'a>) -> Result<bool, TakeError> {
        let place = at.place();
        let one = at.bytes(1)?;
        match one[0] {
            0 => Ok(false),
            1 => Ok(true),
            _ => Err(TakeError::BadBool(place)),
        }
    }
}
