//! One whole frame: a length, and as many bytes.

ghost use Rattle.std.specs.Prelude.{◌≡◌, ◌≤◌, pos, length, Ok, Err, IfOk, MatchResult};
ghost use Rattle.shell_commands.specs.Frame.{payload_behind};
ghost use Rattle.shell_commands.specs.Frame as spec;
ghost use Rattle.shell_commands.specs.Print.{frame_of};

use crate::fault::ShowFault;
use std::alloc::Allocator;
use zk_jute::{Cursor, take};
use zk_limits::LONGEST_INCOMING;

/// The bytes after a length, which are to be as many as it says.
fn checked(len: i32, bytes: &[u8]) -> Result<&[u8], ShowFault>
    ensures gives { MatchResult result (λ payload. payload_behind len bytes.now ≡ Ok payload.now)
        (λ fault. payload_behind len bytes.now ≡ Err fault) }
    ensures longest { IfOk result (λ payload. length payload.now ≤ LONGEST_INCOMING) }
    ensures len { IfOk result (λ payload. (payload.now ≡ bytes.now) × (len ≡ pos (length payload.now))) }
{
    if len < 0 {
        return Err(ShowFault::Negative);
    }
    let len = len as usize;
    if len > LONGEST_INCOMING {
        return Err(ShowFault::TooLong);
    }
    if bytes.len() < len {
        return Err(ShowFault::Incomplete);
    }
    if bytes.len() > len {
        return Err(ShowFault::BytesAfter);
    }
    Ok(bytes)
}

/// The payload of one whole frame.
#[tactic(auto, unfolding(crate::specs::Frame::payload_of))]
pub fn payload_of<A: Allocator + Copy>(alloc: A, frame: &[u8]) -> Result<&[u8], ShowFault>
    ensures gives { MatchResult result (λ payload. spec.payload_of frame.now ≡ Ok payload.now)
        (λ fault. spec.payload_of frame.now ≡ Err fault) }
    ensures longest { IfOk result (λ payload. length payload.now ≤ LONGEST_INCOMING) }
    ensures whole { IfOk result (λ payload. frame.now ≡ frame_of payload.now) }
{
    let mut at = Cursor::new(frame);
    match take::<A, i32>(alloc, &mut at) {
        Ok(len) => checked(len, at.rest()),
        Err(_) => Err(ShowFault::Incomplete),
    }
}
