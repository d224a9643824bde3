//! Text that may be null: a ustring of the encoding, an int length and that many bytes of UTF-8, or the length -1.

ghost use Rattle.std.specs.Prelude.{◌≡◌, List, ℕ, Option, string_bytes, true};
ghost use Rattle.std.specs.Option.{option_map};
ghost use Rattle.zk_jute.specs.Layout.{ustring};

use crate::cursor::Cursor;
use crate::fault::{PutError, TakeError};
use crate::length::write_contents;
use crate::record::{Readable, Record};
use std::alloc::Allocator;
use std::marker::Model;

/// Text, or null. Its value is its UTF-8 bytes.
#[derive(Drop)]
pub struct Text<A: Allocator> {
    text: Option<String<A>>,
}

impl<A: Allocator> Model for Text<A> {
    ghost Value = { Option (List ℕ) };

    ghost view = { λ t. option_map (λ s. string_bytes s) t.text };
}

impl<A: Allocator> Text<A> {
    /// This text, or null.
    pub fn new(text: Option<String<A>>) -> Text<A>
        ensures { result ≡ option_map (λ s. string_bytes s) text }
    {
        Text { text }
    }

    /// The text, unless this is null.
    pub fn as_str(&self) -> Option<&str>
        ensures { option_map (λ s. s.now) result ≡ self.now }
    {
        match &self.text {
            None => None,
            Some(text) => Some(text.as_str()),
        }
    }

    /// The text itself, unless this is null.
    pub fn into_inner(self) -> Option<String<A>>
        ensures { option_map (λ s. string_bytes s) result ≡ self }
    {
        self.text
    }
}

impl<A: Allocator + Copy> Record<A> for Text<A> {
    ghost layout = { ustring };

    ghost view = { λ t. t };

    #[tactic(auto, unfolding(crate::specs::Spelling::counted_bytes))]
    fn write(&self, out: &mut Vec<u8, A>) -> Result<(), PutError> {
        match self.as_str() {
            None => (-1i32).write(out),
            Some(text) => {
                write_contents(text.as_bytes(), out)?;
                Ok(())
            }
        }
    }
}

impl<'a, A: Allocator + Copy> Readable<'a, A> for Text<A> {
    ghost takes_memory = { true };

    #[tactic(auto, unfolding(crate::specs::Reading::counted_at))]
    fn read(alloc: A, at: &mut Cursor<'a>) -> Result<Text<A>, TakeError> {
        let text = match at.length()? {
            None => None,
            Some(len) => Some(String::from_str(alloc, at.text(len)?)?),
        };
        Ok(Text::new(text))
    }
}
