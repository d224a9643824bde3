//! Reading frames from a stream that comes in pieces.
ghost use Rattle.std.specs.Prelude.{◌≡◌, ◌-◌, ◌≤◌, [], ◌++◌, None, drop, IfSome, IsOkUnless, IsOk, OnOk, OnErr, vec_len};
ghost use Rattle.std.specs.Borrow.{sem};
ghost use Rattle.std.specs.Io.BufRead.{Rests};
ghost use Rattle.zk_frames.specs.contracts.reader.FrameReader.{the_row};
ghost use Rattle.zk_frames.specs.Held.{reading, settled};
ghost use Rattle.zk_frames.specs.Next.{AnswersNext};
ghost use Rattle.zk_frames.specs.inner.Next.{ReadsLength};

use crate::FrameFault;
use std::alloc::{AllocError, Allocator};
use std::marker::Model;

/// Cuts a stream into frames. It holds what was fed and not yet given, or, once a length was wrong, that fault alone.
///
/// It is one vector and a place in it: [`next_frame`](FrameReader::next_frame) only moves the place, and
/// [`feed`](FrameReader::feed) and [`adopt`](FrameReader::adopt) let go what was given before they take a piece. So where
/// all frames are asked for after each piece, no byte moves more than once, none of a piece that was adopted where nothing
/// was held, and besides the last piece less than a frame of the longest payload is in memory.
#[derive(Drop)]
pub struct FrameReader<A: Allocator> {
    // What lies before the place was given.
    bytes: Vec<u8, A>,
    place: usize,
    fault: Option<FrameFault>,
}

impl<A: Allocator> Model for FrameReader<A> {
    ghost use Rattle.std.specs.Prelude.{◌≤◌, drop, vec_len};
    ghost use Rattle.zk_frames.specs.Held.{Held, IsStill};

    ghost Value = { Held };

    ghost view = { λ r. record { bytes = drop r.place r.bytes.items; spent = r.place; fault = r.fault } };

    ghost invariant = { λ r. (r.place ≤ vec_len r.bytes) × IsStill r.fault (vec_len r.bytes) };
}

impl<A: Allocator> FrameReader<A> {
    /// A reader of a new stream.
    pub fn new(alloc: A) -> Self
        ensures { result ≡ reading [] }
    {
        FrameReader {
            bytes: Vec::new(alloc),
            place: 0,
            fault: None,
        }
    }

    /// A new stream begins, and what the old one left is dropped. The vector's room is kept.
    pub fn reset(&mut self)
        ensures { self.new ≡ reading [] }
    {
        self.bytes.clear();
        self.place = 0;
        self.fault = None;
    }

    /// Takes the next piece of the stream, after what is held. After a wrong length it takes none, and answers that
    /// fault until it is reset. Where memory is refused, the same bytes are held.
    pub fn feed(&mut self, piece: &[u8]) -> Result<(), FrameFault>
        ensures ok { OnOk result (self.new ≡ reading (self.old.bytes ++ piece.now)) }
        ensures err { OnErr result (self.new ≡ settled self.old) }
        ensures failed { IfSome self.old.fault (λ fault. result ≡ Err fault) }
        ensures memory_only { self.old.fault ≡ None → IsOkUnless result FrameFault.Memory }
    {
        if let Some(fault) = self.fault {
            return Err(fault);
        }
        remove_front(&mut self.bytes, self.place);
        self.place = 0;
        self.bytes.extend_from_slice(piece)?;
        Ok(())
    }

    /// Makes room for a piece of this length: [`feed`](FrameReader::feed) of it takes no memory then. An error says that there is none.
    pub fn reserve(&mut self, length: usize) -> Result<(), AllocError>
        ensures { self.new ≡ self.old }
    {
        self.bytes.reserve(length).map_err(AllocError::from)
    }

    /// Takes the next piece of the stream as [`feed`](FrameReader::feed) does, and the piece itself with it: where nothing is
    /// held, it becomes the reader's own vector. No byte moves then, and no memory is taken.
    pub fn adopt(&mut self, piece: Vec<u8, A>) -> Result<(), FrameFault>
        ensures ok { OnOk result (self.new ≡ reading (self.old.bytes ++ piece.items)) }
        ensures err { OnErr result (self.new ≡ settled self.old) }
        ensures failed { IfSome self.old.fault (λ fault. result ≡ Err fault) }
        ensures memory_only { self.old.fault ≡ None → IsOkUnless result FrameFault.Memory }
        ensures memory { self.old.fault ≡ None → self.old.bytes ≡ [] → IsOk result }
    {
        if self.fault.is_some() || self.place < self.bytes.len() {
            return self.feed(&piece);
        }
        self.bytes = piece;
        self.place = 0;
        Ok(())
    }

    /// Lends the next frame's payload, if all of the frame is there. A length below 0 or above `most` is a fault as soon
    /// as its four bytes are there; from then on nothing is held, and that fault is answered until the reader is reset.
    ///
    /// The payload is lent until the reader is used again: a caller that keeps it over the next call doesn't compile.
    pub fn next_frame(&mut self, most: usize) -> Result<Option<&[u8]>, FrameFault>
        ensures* after { sem 𝓛 (Rests (the_row A.row A.Allocator) self.entry (λ new. AnswersNext most self.old result new)) }
    {
        if let Some(fault) = self.fault {
            return Err(fault);
        }
        match first_length(&self.bytes[self.place..], most) {
            Ok(None) => Ok(None),
            Ok(Some(length)) => {
                let held = &self.bytes[self.place..];
                self.place += 4 + length;
                Ok(Some(&held[4..4 + length]))
            }
            Err(fault) => {
                self.bytes.truncate(0);
                self.place = 0;
                self.fault = Some(fault);
                Err(fault)
            }
        }
    }
}

// The length of the payload that stands first, where all of its frame is there.
fn first_length(held: &[u8], most: usize) -> Result<Option<usize>, FrameFault>
    ensures { ReadsLength most held.now result }
{
    let Some((field, rest)) = held.split_first_chunk::<4>() else {
        return Ok(None);
    };
    let length = u32::from_be_bytes(*field);
    if length > i32::MAX as u32 {
        return Err(FrameFault::Negative);
    }
    let length = length as usize;
    if length > most {
        return Err(FrameFault::TooLong);
    }
    if rest.len() < length {
        return Ok(None);
    }
    Ok(Some(length))
}

// The rest moves to the front. Where nothing was given since the last piece, nothing moves.
fn remove_front<A: Allocator>(bytes: &mut Vec<u8, A>, n: usize)
    requires { n ≤ vec_len bytes.old }
    ensures items { bytes.new.items ≡ drop n bytes.old.items }
    ensures len { vec_len bytes.new ≡ vec_len bytes.old - n }
{
    if n == 0 {
        return;
    }
    let len = bytes.len();
    bytes.as_mut_slice().copy_within(n..len, 0);
    bytes.truncate(len - n);
}
