//! Writing frames.
ghost use Rattle.std.specs.Prelude.{◌≡◌, ◌^◌, ◌<◌, ◌≤◌, length, drop, vec_len};
ghost use Rattle.zk_frames.specs.Frame.{frame};

use std::alloc::Allocator;

/// Makes a frame of a payload that was written after four bytes of room: these become its length. It is for a payload
/// that is spelled where it is sent from, and admits any length that four bytes can say.
pub fn seal_frame<A: Allocator>(out: &mut Vec<u8, A>)
    requires room { 4 ≤ vec_len out.old }
    requires small { vec_len out.old < 2 ^ 31 }
    ensures { out.new.items ≡ frame (drop 4 out.old.items) }
{
    set_length(out.as_mut_slice());
}

// Writes the length of what stands after the first four bytes into these.
fn set_length(bytes: &mut [u8])
    requires room { 4 ≤ length bytes.old }
    requires small { length bytes.old < 2 ^ 31 }
    ensures { bytes.new ≡ frame (drop 4 bytes.old) }
{
    let length = (bytes.len() - 4) as u32;
    bytes[..4].copy_from_slice(&length.to_be_bytes());
}
