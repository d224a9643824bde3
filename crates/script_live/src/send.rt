//! How what goes to the server is written: what a connection does not take at once is kept.

ghost use Rattle.std.specs.Prelude.{◌≡◌, ◌≤◌, ◌++◌, length, drop, take, unwrap_or, vec_len, OnOk, IfSome};
ghost use Rattle.std.specs.Io.KnownBytes.{Appends, Keeps};
ghost use Rattle.zk_client.specs.Views.{output_view, said};
ghost use Rattle.zk_link.specs.Written.{IsLeftOf};
ghost use Rattle.zk_link.specs.Streams.{Sends};
ghost use Rattle.script_live.specs.Frames.{frame_in, frames};

use crate::bring::is_late;
use std::alloc::{AllocError, Allocator};
use zk_client::Output;
use zk_link::Stream;

/// The most bytes that one write is asked to take.
const PIECE: usize = 262_144;

/// The most writes that are made at once.
const WRITES: u32 = 16;

/// Puts the frame, if the output is one, after what is left of those before.
fn queue_one<A: Allocator>(output: &Output<A>, unsent: &mut Vec<u8, A>) -> Result<(), AllocError>
    ensures { OnOk result (unsent.new.items ≡ unsent.old.items ++ frame_in (output_view output.now)) }
{
    match output {
        Output::Send(bytes) => unsent.extend_from_slice(bytes.as_slice()),
        _ => Ok(()),
    }
}

/// Puts the frames that go to the server after what is left of those before.
pub(crate) fn queue<A: Allocator>(
    outputs: &[Output<A>],
    unsent: &mut Vec<u8, A>,
) -> Result<(), AllocError>
    ensures { OnOk result (unsent.new.items ≡ unsent.old.items ++ frames (said outputs.now)) }
{
    for output in outputs {
        queue_one(output, unsent)?;
    }
    Ok(())
}

/// How many bytes a connection takes in one write: none for now if it can't take one, and nothing if it has failed.
fn write_some<S: Stream>(stream: &mut S, bytes: &[u8]) -> Option<usize>
    ensures most { IfSome result (λ count. count ≤ length bytes.now) }
    ensures takes { Appends (S.contents stream.old) (S.contents stream.new) (take (unwrap_or result 0) bytes.now) }
    ensures left { Keeps (S.remaining stream.old) (S.remaining stream.new) }
{
    match stream.give(bytes) {
        Ok(0) => None,
        Ok(count) => Some(count.min(bytes.len())),
        Err(fault) if is_late(fault.kind()) => Some(0),
        Err(_) => None,
    }
}

/// The rest moves to the front.
fn forget_front<A: Allocator>(unsent: &mut Vec<u8, A>, count: usize)
    requires { count ≤ vec_len unsent.old }
    ensures { unsent.new.items ≡ drop count unsent.old.items }
{
    let left = unsent.len() - count;
    unsent.as_mut_slice().copy_within(count.., 0);
    unsent.truncate(left);
}

/// Writes of what is left as much as the connection takes for now, in order. Whether the connection has not failed.
pub(crate) fn send<A: Allocator, S: Stream>(stream: &mut S, unsent: &mut Vec<u8, A>) -> bool
    ensures left { IsLeftOf unsent.old.items unsent.new.items }
    ensures sends { Sends unsent.old.items unsent.new.items (S.contents stream.old) (S.contents stream.new) }
    ensures gives { Keeps (S.remaining stream.old) (S.remaining stream.new) }
{
    for _ in 0..WRITES {
        let piece = unsent.len().min(PIECE);
        if piece == 0 {
            return true;
        }
        match write_some(stream, &unsent.as_slice()[..piece]) {
            None => return false,
            Some(0) => return true,
            Some(count) => forget_front(unsent, count),
        }
    }
    true
}
