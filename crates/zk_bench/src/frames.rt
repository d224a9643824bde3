//! Frames: a payload after its length, which `byteorder` reads and writes.

ghost use Rattle.std.specs.Prelude.{◌≡◌, ◌≤◌, ◌<◌, ◌^◌, drop, take as first, length as bytes_of, vec_len, ◌-◌, OnOk, IsErrOf, ◌++◌};
ghost use Rattle.zk_frames.specs.Frame.{frame};
ghost use Rattle.zk_bench.specs.Front.{IsFramed, IsFront};
ghost use Rattle.zk_bench.specs.declared.stop.Stop.TheVariants as stops;

use crate::stop::Stop;
use byteorder::{BigEndian, ByteOrder};
use std::alloc::Allocator;

/// What stands at the front of the bytes that a server was sent.
#[derive(Clone, Copy)]
pub enum Front {
    /// Less than a frame.
    Unfinished,
    /// A length below 0.
    Negative,
    /// A frame whose payload has this many bytes.
    Whole(usize),
}

/// What stands at the front of some bytes.
pub(crate) fn first_frame(bytes: &[u8]) -> Front
    ensures front { IsFront bytes.now result }
    ensures framed { IsFramed bytes.now result }
{
    if bytes.len() < 4 {
        return Front::Unfinished;
    }
    let length = BigEndian::read_i32(bytes);
    if length < 0 {
        return Front::Negative;
    }
    let length = length as usize;
    if bytes.len() - 4 < length {
        return Front::Unfinished;
    }
    Front::Whole(length)
}

/// Appends the frame of a payload. One of more than 2,147,483,647 bytes has no length, so the connection ends.
pub(crate) fn push_frame<A: Allocator>(payload: &[u8], out: &mut Vec<u8, A>) -> Result<(), Stop>
    ensures ok { OnOk result (out.new.items ≡ out.old.items ++ frame payload.now) }
    ensures small { OnOk result (bytes_of payload.now < 2 ^ 31) }
    ensures ended { IsErrOf result stops.End → out.new.items ≡ out.old.items }
    ensures stays { bytes_of payload.now < 2 ^ 31 → ¬ IsErrOf result stops.End }
    ensures begun { first (bytes_of out.old.items) out.new.items ≡ out.old.items }
{
    if payload.len() > i32::MAX as usize {
        return Err(Stop::End);
    }
    let mut field = [0u8; 4];
    BigEndian::write_i32(&mut field, payload.len() as i32);
    out.extend_from_slice(&field)?;
    out.extend_from_slice(payload)?;
    Ok(())
}

/// Takes away the first bytes. The others move to the front.
pub(crate) fn remove_front<A: Allocator>(bytes: &mut Vec<u8, A>, n: usize)
    requires { n ≤ vec_len bytes.old }
    ensures items { bytes.new.items ≡ drop n bytes.old.items }
    ensures len { vec_len bytes.new ≡ vec_len bytes.old - n }
{
    let len = bytes.len();
    bytes.as_mut_slice().copy_within(n..len, 0);
    bytes.truncate(len - n);
}
