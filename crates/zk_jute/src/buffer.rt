//! Bytes that may be null: a buffer of the encoding, an int length and that many bytes, or the length -1.

ghost use Rattle.std.specs.Prelude.{◌≡◌, List, ℕ, Option, true};
ghost use Rattle.std.specs.Option.{option_map};
ghost use Rattle.zk_jute.specs.Layout.{buffer};

use crate::cursor::Cursor;
use crate::fault::{PutError, TakeError};
use crate::length::write_contents;
use crate::record::{Readable, Record};
use std::alloc::Allocator;
use std::marker::Model;

/// Bytes, or null. Null and no bytes are two values.
#[derive(Drop)]
pub struct Buffer<A: Allocator> {
    bytes: Option<Vec<u8, A>>,
}

impl<A: Allocator> Model for Buffer<A> {
    ghost Value = { Option (List ℕ) };

    ghost view = { λ b. option_map (λ v. v.items) b.bytes };
}

impl<A: Allocator> Buffer<A> {
    /// These bytes, or null.
    pub fn new(bytes: Option<Vec<u8, A>>) -> Buffer<A>
        ensures { result ≡ option_map (λ v. v.items) bytes }
    {
        Buffer { bytes }
    }

    /// The bytes, unless this is null.
    pub fn as_slice(&self) -> Option<&[u8]>
        ensures { option_map (λ s. s.now) result ≡ self.now }
    {
        match &self.bytes {
            None => None,
            Some(bytes) => Some(bytes.as_slice()),
        }
    }

    /// The bytes themselves, unless this is null.
    pub fn into_inner(self) -> Option<Vec<u8, A>>
        ensures { option_map (λ v. v.items) result ≡ self }
    {
        self.bytes
    }
}

impl<A: Allocator + Copy> Record<A> for Buffer<A> {
    ghost layout = { buffer };

    ghost view = { λ b. b };

    #[tactic(auto, unfolding(crate::specs::Spelling::counted_bytes))]
    fn write(&self, out: &mut Vec<u8, A>) -> Result<(), PutError> {
        match self.as_slice() {
            None => (-1i32).write(out),
            Some(bytes) => {
                write_contents(bytes, out)?;
                Ok(())
            }
        }
    }
}

impl<'a, A: Allocator + Copy> Readable<'a, A> for Buffer<A> {
    ghost takes_memory = { true };

    #[tactic(auto, unfolding(crate::specs::Reading::counted_at))]
    fn read(alloc: A, at: &mut Cursor<'a>) -> Result<Buffer<A>, TakeError> {
        let bytes = match at.length()? {
            None => None,
            Some(len) => Some(Vec::from_slice(alloc, at.bytes(len)?)?),
        };
        Ok(Buffer::new(bytes))
    }
}
