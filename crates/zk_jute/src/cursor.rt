//! A place in a payload.

ghost use Rattle.std.specs.Prelude.{◌≡◌, ◌≢◌, ◌≤◌, true, false, length, IfOk, MatchOption};
ghost use Rattle.std.specs.Str.{is_utf8};
ghost use Rattle.zk_jute.specs.Spelling.{IsBytes};

use crate::fault::TakeError;
use crate::length::as_length;

/// A place in a payload, and the bytes from there on.
///
/// A copy of it stays where it is, so a reader that fails on a copy leaves the first where it was.
#[derive(Clone, Copy)]
pub struct Cursor<'a> {
    rest: &'a [u8],
    end: usize,
    ghost within: { length rest.now ≤ end },
    ghost bytes: { IsBytes rest.now },
}

impl<'a> Cursor<'a> {
    ghost use Rattle.zk_jute.specs.Cursor.{bytes_left, payload_len};
    ghost use Rattle.zk_jute.specs.Reading.{place_of, bytes_at, int_at, length_at, text_bytes_at, Gives};

    /// The place of the payload's first byte.
    pub fn new(payload: &'a [u8]) -> Self
        ensures left { bytes_left result ≡ payload.entry.now }
        ensures len { payload_len result ≡ length payload.entry.now }
    {
        Cursor {
            rest: payload,
            end: payload.len(),
        }
    }

    /// How many bytes of the payload stand before this place: 0 at its first byte.
    pub fn place(&self) -> usize
        ensures { result ≡ place_of (payload_len self.now) (bytes_left self.now) }
    {
        self.end - self.rest.len()
    }

    /// The bytes from this place on.
    pub fn rest(&self) -> &'a [u8]
        ensures { result.now ≡ bytes_left self.now }
    {
        self.rest
    }

    /// The next `count` bytes, which the cursor moves past.
    #[tactic(auto, unfolding(crate::specs::Reading::bytes_at))]
    pub(crate) fn bytes(&mut self, count: usize) -> Result<&'a [u8], TakeError>
        ensures len { payload_len self.new ≡ payload_len self.old }
        ensures count { IfOk result (λ bytes. length bytes.now ≡ count) }
        ensures gives { Gives (λ bytes. bytes.now) result (bytes_left self.new)
            (bytes_at count (payload_len self.old) (bytes_left self.old)) }
        ensures memory { result ≢ Err TakeError.Memory }
    {
        if self.rest.len() < count {
            return Err(TakeError::Short(self.place()));
        }
        let (front, rest) = self.rest.split_at(count);
        self.rest = rest;
        Ok(front)
    }

    /// The next int, which the cursor moves past.
    #[tactic(auto, unfolding(crate::specs::Reading::int_at))]
    pub(crate) fn int(&mut self) -> Result<i32, TakeError>
        ensures len { payload_len self.new ≡ payload_len self.old }
        ensures gives { Gives (λ number. number) result (bytes_left self.new) (int_at (payload_len self.old) (bytes_left self.old)) }
        ensures memory { result ≢ Err TakeError.Memory }
    {
        let four = self.bytes(4)?;
        Ok(i32::from_be_bytes([four[0], four[1], four[2], four[3]]))
    }

    /// The next length or count, which the cursor moves past; `None` for null.
    #[tactic(auto, unfolding(crate::specs::Reading::length_at))]
    pub(crate) fn length(&mut self) -> Result<Option<usize>, TakeError>
        ensures len { payload_len self.new ≡ payload_len self.old }
        ensures gives { Gives (λ count. count) result (bytes_left self.new) (length_at (payload_len self.old) (bytes_left self.old)) }
        ensures memory { result ≢ Err TakeError.Memory }
    {
        let place = self.place();
        let number = self.int()?;
        let count = as_length(place, number)?;
        Ok(count)
    }

    /// The next `count` bytes as text, which the cursor moves past.
    #[tactic(auto, unfolding(crate::specs::Reading::text_bytes_at))]
    pub(crate) fn text(&mut self, count: usize) -> Result<&'a str, TakeError>
        ensures len { payload_len self.new ≡ payload_len self.old }
        ensures gives { Gives (λ text. text.now) result (bytes_left self.new)
            (text_bytes_at count (payload_len self.old) (bytes_left self.old)) }
        ensures memory { result ≢ Err TakeError.Memory }
    {
        let place = self.place();
        let bytes = self.bytes(count)?;
        match as_text(bytes) {
            Some(text) => Ok(text),
            None => Err(TakeError::NotUtf8(place)),
        }
    }
}

/// The bytes as text, if they are UTF-8.
fn as_text(bytes: &[u8]) -> Option<&str>
    ensures { MatchOption result (is_utf8 bytes.now ≡ false) (λ text. (text.now ≡ bytes.now) × (is_utf8 bytes.now ≡ true)) }
{
    match str::from_utf8(bytes) {
        Ok(text) => Some(text),
        Err(_) => None,
    }
}
