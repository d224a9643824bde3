//! A rehearsal of a whole script.

ghost use Rattle.std.specs.Prelude.{[], string_bytes};
ghost use Rattle.script_words.specs.Scripts.{lines_of, progress, IsTranscript};
ghost use Rattle.script_rehearse.specs.Scripts.{first_position, rules};

use crate::rehearsal::Rehearsal;
use script_words::script::{Transcript, read_script};
use std::alloc::Allocator;

/// Rehearses a script up to the first line that is not done: what its lines print, and how they end.
pub fn rehearsed_script<A: Allocator + Copy>(alloc: A, script: &[u8]) -> Transcript<A>
    ensures { IsTranscript rules (progress first_position []) (lines_of script.now) (string_bytes result.text) result.end }
{
    let mut rehearsal = Rehearsal::new(alloc);
    let transcript = read_script(alloc, &mut rehearsal, script);
    drop(rehearsal);
    transcript
}
