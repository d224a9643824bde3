//! How what goes to the server is written: what a connection does not take at once is kept.

ghost use Rattle.std.specs.Prelude.{◌≡◌, ◌≤◌, [], length, drop, Some, take, unwrap_or, vec_len, IfSome};
ghost use Rattle.std.specs.Io.KnownBytes.{Appends, Keeps};
ghost use Rattle.zk_link.specs.Written.{IsLeftOf};
ghost use Rattle.zk_link.specs.FarEnds.{Goes, Trades};
ghost use Rattle.zk_link.specs.Streams.{Sends};
ghost use Rattle.zk_driver.specs.inner.Reads.{written_by};

use crate::bring::is_late;
use std::alloc::Allocator;
use std::io;
use zk_link::Stream;

/// The most bytes that one write is asked to take.
const PIECE: usize = 262_144;

/// The most writes that are made at once.
const WRITES: u32 = 16;

/// How many bytes a write took, by its result: none if it can't take one for now, and nothing if the connection has failed.
fn written_by(write: io::Result<usize>) -> Option<usize>
    ensures { result ≡ written_by write }
{
    match write {
        Ok(0) => None,
        Ok(count) => Some(count),
        Err(fault) if is_late(fault.kind()) => Some(0),
        Err(_) => None,
    }
}

/// How many bytes a connection takes in one write.
fn write_some<S: Stream>(stream: &mut S, bytes: &[u8]) -> Option<usize>
    ensures most { IfSome result (λ count. count ≤ length bytes.now) }
    ensures takes { Appends (S.contents stream.old) (S.contents stream.new) (take (unwrap_or result 0) bytes.now) }
    ensures left { Keeps (S.remaining stream.old) (S.remaining stream.new) }
    ensures goes { Goes S.far (take (unwrap_or result 0) bytes.now) [] (S.state stream.old) (S.state stream.new) }
{
    let count = written_by(stream.give(bytes))?;
    Some(count.min(bytes.len()))
}

/// The rest moves to the front.
fn forget_front<A: Allocator>(unsent: &mut Vec<u8, A>, count: usize)
    requires { count ≤ vec_len unsent.old }
    ensures { unsent.new.items ≡ drop count unsent.old.items }
{
    let left = unsent.len() - count;
    unsent.as_mut_slice().copy_within(count.., 0);
    unsent.truncate(left);
}

/// Writes of what is left as much as the connection takes for now, in order. Whether the connection has not failed.
pub(crate) fn send<A: Allocator, S: Stream>(stream: &mut S, unsent: &mut Vec<u8, A>) -> bool
    ensures left { IsLeftOf unsent.old.items unsent.new.items }
    ensures sends { Sends unsent.old.items unsent.new.items (S.contents stream.old) (S.contents stream.new) }
    ensures gives { Keeps (S.remaining stream.old) (S.remaining stream.new) }
    ensures trades { Trades S.far unsent.old.items unsent.new.items [] (Some (S.state stream.old)) (Some (S.state stream.new)) }
{
    for _ in 0..WRITES {
        let piece = unsent.len().min(PIECE);
        if piece == 0 {
            return true;
        }
        match write_some(stream, &unsent.as_slice()[..piece]) {
            None => return false,
            Some(0) => return true,
            Some(count) => forget_front(unsent, count),
        }
    }
    true
}
