//! What the specification names and nothing here but tests and benchmarks calls.

ghost use Rattle.std.specs.Prelude.{◌≡◌, ◌+◌, ◌<◌, ◌≤◌, ◌↔◌, ◌++◌, length, OnOk, OnErr, IsErrOf, vec_len, vec_capacity};
ghost use Rattle.zk_frames.specs.Frame.{frame};

use crate::PutFault;
use std::alloc::Allocator;
use zk_limits::LONGEST_OUTGOING;

/// Appends the frame of the payload. A payload above [`LONGEST_OUTGOING`] is too large, and `out` stays as it was after
/// any fault.
pub fn put_frame<A: Allocator>(payload: &[u8], out: &mut Vec<u8, A>) -> Result<(), PutFault>
    ensures ok { OnOk result (out.new.items ≡ out.old.items ++ frame payload.now) }
    ensures too_large { IsErrOf result PutFault.TooLarge ↔ (LONGEST_OUTGOING < length payload.now) }
    ensures err { OnErr result (out.new.items ≡ out.old.items) }
{
    if payload.len() > LONGEST_OUTGOING {
        return Err(PutFault::TooLarge);
    }
    out.reserve(4 + payload.len())?;
    let length = payload.len() as u32;
    append(out, &length.to_be_bytes());
    append(out, payload);
    Ok(())
}

// There is room.
fn append<A: Allocator>(out: &mut Vec<u8, A>, bytes: &[u8])
    requires { vec_len out.old + length bytes.now ≤ vec_capacity out.old }
    ensures items { out.new.items ≡ out.old.items ++ bytes.now }
    ensures len { vec_len out.new ≡ vec_len out.old + length bytes.now }
    ensures capacity { vec_capacity out.old ≤ vec_capacity out.new }
{
    let Ok(()) = out.extend_from_slice(bytes) else {
        unreachable!()
    };
}
