//! What a connection brings.

ghost use Rattle.std.specs.Prelude.{IfOk};
ghost use Rattle.std.specs.Io.KnownBytes.{Consumes, Keeps};
ghost use Rattle.script_live.specs.Flowing.{piece_in};

use std::alloc::{AllocError, Allocator};
use std::io::ErrorKind;
use zk_link::{Brought, Stream};

/// The most bytes that one read is asked for.
const PIECE: usize = 65_536;

/// Makes room for a piece, if there is none yet.
pub(crate) fn make_room<A: Allocator>(room: &mut Vec<u8, A>) -> Result<(), AllocError> {
    if room.is_empty() {
        return room.resize(PIECE, 0);
    }
    Ok(())
}

/// Whether a read or a write that failed so may succeed later: it took too long, or it was interrupted.
pub(crate) fn is_late(kind: ErrorKind) -> bool {
    matches!(
        kind,
        ErrorKind::WouldBlock | ErrorKind::TimedOut | ErrorKind::Interrupted
    )
}

/// What one read of a connection brings.
fn read_once<A: Allocator, S: Stream>(
    alloc: A,
    stream: &mut S,
    room: &mut Vec<u8, A>,
) -> Result<Brought<A>, AllocError>
    ensures whole { IfOk result (λ brought. Consumes (S.remaining stream.old) (S.remaining stream.new) (piece_in brought)) }
    ensures took { Keeps (S.contents stream.old) (S.contents stream.new) }
{
    match Stream::read_some(stream, room.as_mut_slice()) {
        Ok(0) => Ok(Brought::End),
        Ok(count) => Ok(Brought::Piece(Vec::from_slice(alloc, &room[..count])?)),
        Err(fault) if is_late(fault.kind()) => Ok(Brought::Nothing),
        Err(_) => Ok(Brought::End),
    }
}

/// What a connection brings within `ms` milliseconds. It ends if it has no more bytes, and if it fails.
pub(crate) fn bring<A: Allocator, S: Stream>(
    alloc: A,
    stream: &mut S,
    room: &mut Vec<u8, A>,
    ms: u64,
) -> Result<Brought<A>, AllocError>
    ensures whole { IfOk result (λ brought. Consumes (S.remaining stream.old) (S.remaining stream.new) (piece_in brought)) }
    ensures took { Keeps (S.contents stream.old) (S.contents stream.new) }
{
    if stream.wait_at_most(ms).is_err() {
        return Ok(Brought::End);
    }
    read_once(alloc, stream, room)
}
