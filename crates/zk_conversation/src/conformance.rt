//! What the specification names and nothing here but tests calls.

ghost use Rattle.std.specs.Prelude.{◌≡◌};

use crate::conversation::Conversation;
use crate::phase::Phase;
use std::alloc::Allocator;

impl<A: Allocator + Copy> Conversation<A> {
    /// Where the connection is.
    pub fn phase(&self) -> Phase
        ensures { result ≡ self.now.phase }
    {
        self.phase
    }
}
