//! Text and bytes that are lent: slices of the payload that was read, or of what the writer keeps.
//!
//! They have the layouts of `Text` and `Buffer`, so they are spelled and read as these, and reading them takes no
//! memory.

ghost use Rattle.std.specs.Prelude.{◌≡◌, Some, false};
ghost use Rattle.std.specs.Option.{option_map};
ghost use Rattle.zk_jute.specs.Layout.{buffer, ustring};
ghost use Rattle.zk_jute.specs.Lenient.{or_empty};

use crate::cursor::Cursor;
use crate::fault::{PutError, TakeError};
use crate::length::write_contents;
use crate::record::{Readable, Record};
use std::alloc::Allocator;

/// Lent text, or null: a ustring of the encoding.
#[derive(Clone, Copy)]
pub struct TextRef<'a> {
    pub text: Option<&'a str>,
}

/// Lent bytes, or null: a buffer of the encoding.
#[derive(Clone, Copy)]
pub struct BytesRef<'a> {
    pub bytes: Option<&'a [u8]>,
}

impl<'a> TextRef<'a> {
    /// The text, where null counts as the empty one.
    pub fn or_empty(&self) -> &'a str
        ensures { result.now ≡ or_empty (option_map (λ s. s.now) self.now.text) }
    {
        match self.text {
            None => "",
            Some(text) => text,
        }
    }
}

impl<'a> BytesRef<'a> {
    /// The bytes, where null counts as none.
    pub fn or_empty(&self) -> &'a [u8]
        ensures { result.now ≡ or_empty (option_map (λ s. s.now) self.now.bytes) }
    {
        match self.bytes {
            None => &[],
            Some(bytes) => bytes,
        }
    }
}

/// Text that is not null, written as a ustring.
impl<'a, A: Allocator + Copy> Record<A> for &'a str {
    ghost layout = { ustring };

    ghost view = { λ s. Some s.now };

    #[tactic(auto, unfolding(crate::specs::Spelling::counted_bytes))]
    fn write(&self, out: &mut Vec<u8, A>) -> Result<(), PutError> {
        write_contents(self.as_bytes(), out)?;
        Ok(())
    }
}

impl<'a, A: Allocator + Copy> Record<A> for TextRef<'a> {
    ghost layout = { ustring };

    ghost view = { λ t. option_map (λ s. s.now) t.text };

    #[tactic(auto, unfolding(crate::specs::Spelling::counted_bytes))]
    fn write(&self, out: &mut Vec<u8, A>) -> Result<(), PutError> {
        match self.text {
            None => (-1i32).write(out),
            Some(text) => {
                write_contents(text.as_bytes(), out)?;
                Ok(())
            }
        }
    }
}

impl<'a, A: Allocator + Copy> Readable<'a, A> for TextRef<'a> {
    ghost takes_memory = { false };

    #[tactic(auto, unfolding(crate::specs::Reading::counted_at))]
    fn read(_alloc: A, at: &mut Cursor<'a>) -> Result<TextRef<'a>, TakeError> {
        let text = match at.length()? {
            None => None,
            Some(len) => Some(at.text(len)?),
        };
        Ok(TextRef { text })
    }
}

impl<'a, A: Allocator + Copy> Record<A> for BytesRef<'a> {
    ghost layout = { buffer };

    ghost view = { λ b. option_map (λ s. s.now) b.bytes };

    #[tactic(auto, unfolding(crate::specs::Spelling::counted_bytes))]
    fn write(&self, out: &mut Vec<u8, A>) -> Result<(), PutError> {
        match self.bytes {
            None => (-1i32).write(out),
            Some(bytes) => {
                write_contents(bytes, out)?;
                Ok(())
            }
        }
    }
}

impl<'a, A: Allocator + Copy> Readable<'a, A> for BytesRef<'a> {
    ghost takes_memory = { false };

    #[tactic(auto, unfolding(crate::specs::Reading::counted_at))]
    fn read(_alloc: A, at: &mut Cursor<'a>) -> Result<BytesRef<'a>, TakeError> {
        let bytes = match at.length()? {
            None => None,
            Some(len) => Some(at.bytes(len)?),
        };
        Ok(BytesRef { bytes })
    }
}
