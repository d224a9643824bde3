//! What a connection brings.

ghost use Rattle.std.specs.Prelude.{◌≡◌, [], IfOk};
ghost use Rattle.std.specs.Io.KnownBytes.{Consumes, Keeps};
ghost use Rattle.zk_link.specs.FarEnds.{Goes};
ghost use Rattle.zk_driver.specs.inner.Driving.{input_of};
ghost use Rattle.zk_driver.specs.Flowing.{bytes_in};
ghost use Rattle.zk_driver.specs.inner.Reads.{is_late, reading_of, Gives};

use crate::reason::{Reason, reason_of};
use std::alloc::{AllocError, Allocator};
use std::io::{self, ErrorKind};
use zk_link::{Brought, Stream};

/// The most bytes that one read is asked for.
const PIECE: usize = 65_536;

/// What a read has brought.
#[derive(Clone, Copy)]
pub(crate) enum Reading {
    /// This many bytes, at least one.
    Bytes(usize),
    /// None in time, or the read was interrupted.
    Nothing,
    /// None any more: the connection has ended, or it has failed.
    End(Reason),
}

/// Makes room for a piece, if there is none yet.
pub(crate) fn make_room<A: Allocator>(room: &mut Vec<u8, A>) -> Result<(), AllocError> {
    if room.is_empty() {
        return room.resize(PIECE, 0);
    }
    Ok(())
}

/// Whether a read or a write that failed so may succeed later: it took too long, or it was interrupted.
pub(crate) fn is_late(kind: ErrorKind) -> bool
    ensures { result ≡ is_late kind }
{
    matches!(
        kind,
        ErrorKind::WouldBlock | ErrorKind::TimedOut | ErrorKind::Interrupted
    )
}

/// What a read has brought, by its result.
fn reading_of(read: io::Result<usize>) -> Reading
    ensures { result ≡ reading_of read }
{
    match read {
        Ok(0) => Reading::End(Reason::EndOfStream),
        Ok(count) => Reading::Bytes(count),
        Err(fault) if is_late(fault.kind()) => Reading::Nothing,
        Err(fault) => Reading::End(reason_of(fault.kind())),
    }
}

/// What one read of a connection brings. Why it has ended is kept, if it has.
fn read_once<A: Allocator, S: Stream>(
    alloc: A,
    stream: &mut S,
    room: &mut Vec<u8, A>,
    why: &mut Reason,
) -> Result<Brought<A>, AllocError>
    ensures brings { IfOk result (λ brought. Gives (S.remaining stream.old) (S.remaining stream.new) brought) }
    ensures whole { IfOk result (λ brought. Consumes (S.remaining stream.old) (S.remaining stream.new) (bytes_in (input_of brought))) }
    ensures took { Keeps (S.contents stream.old) (S.contents stream.new) }
    ensures goes { IfOk result (λ brought. Goes S.far [] (bytes_in (input_of brought)) (S.state stream.old) (S.state stream.new)) }
{
    match reading_of(Stream::read_some(stream, room.as_mut_slice())) {
        Reading::Bytes(count) => {
            let bytes = Vec::from_slice(alloc, &room[..count])?;
            Ok(Brought::Piece(bytes))
        }
        Reading::Nothing => Ok(Brought::Nothing),
        Reading::End(reason) => {
            *why = reason;
            Ok(Brought::End)
        }
    }
}

/// What a connection brings within `ms` milliseconds, at least 1. It ends if it has no more bytes, and if it fails: why is kept.
pub(crate) fn bring<A: Allocator, S: Stream>(
    alloc: A,
    stream: &mut S,
    room: &mut Vec<u8, A>,
    ms: u64,
    why: &mut Reason,
) -> Result<Brought<A>, AllocError>
    ensures brings { IfOk result (λ brought. (before : S) × Gives (S.remaining before) (S.remaining stream.new) brought) }
    ensures whole { IfOk result (λ brought. Consumes (S.remaining stream.old) (S.remaining stream.new) (bytes_in (input_of brought))) }
    ensures took { Keeps (S.contents stream.old) (S.contents stream.new) }
    ensures goes { IfOk result (λ brought. Goes S.far [] (bytes_in (input_of brought)) (S.state stream.old) (S.state stream.new)) }
{
    if stream.wait_at_most(ms).is_err() {
        *why = Reason::Other;
        return Ok(Brought::End);
    }
    read_once(alloc, stream, room, why)
}
