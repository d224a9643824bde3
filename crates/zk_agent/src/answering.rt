//! Answers to credentials in a stream of bytes.

ghost use Rattle.std.specs.Prelude.{◌≡◌};
ghost use Rattle.zk_agent.specs.Credentials.{code_at, listened};

use crate::frames::Frames;

/// A stream that is looked through for answers to credentials: where it is, whether its first frame has not come whole, and the last four
/// bytes that came as a number.
#[derive(Clone, Copy)]
pub struct Answering {
    pub(crate) place: Frames,
    pub(crate) is_first: bool,
    pub(crate) last: u32,
}

impl Answering {
    /// Takes the next byte. The code of the answer whose head ends with it, if one does.
    pub(crate) fn read_byte(&mut self, byte: u8) -> Option<i32>
        ensures at { self.new ≡ listened byte self.old }
        ensures code { result ≡ code_at byte self.old }
    {
        self.last = self.last.wrapping_mul(256).wrapping_add(u32::from(byte));
        self.place.take_byte(byte);
        let is_code = !self.is_first && self.place.is_answer();
        let is_whole = self.place.pass_end();
        self.is_first = self.is_first && !is_whole;
        if is_code {
            Some(self.last.cast_signed())
        } else {
            None
        }
    }
}
