//! How connections begin.

ghost use Rattle.std.specs.Prelude.{[], IfOk};
ghost use Rattle.std.specs.Io.{ReadsAtMost, WritesAtMost};
ghost use Rattle.std.specs.Io.KnownBytes.{Keeps, ReadConsumes, WriteAppends};
ghost use Rattle.zk_link.specs.FarEnds.{any_end, front_by, FarEnd};

use std::io::{self, Read, Write};

/// A connection, which ends where it is dropped.
///
/// A write takes what it can at once, or within a millisecond: one that can take nothing is an error of the kind `WouldBlock` or
/// `TimedOut`, and is made again later. What was taken goes by itself: nothing is flushed.
pub trait Stream: Read + Write + Drop {
    // What is at its far end: nothing is known of it where an impl does not say.
    ghost far: { FarEnd } = { any_end };

    // The state of that.
    ghost state: { Self → far.State };

    /// No read from now on waits longer than `ms` milliseconds, at least 1: one that would is an error of the kind `WouldBlock` or
    /// `TimedOut`. Nothing is read or written by this.
    fn wait_at_most(&mut self, ms: u64) -> io::Result<()>
        ensures gives { Keeps (Self.remaining self.old) (Self.remaining self.new) }
        ensures took { Keeps (Self.contents self.old) (Self.contents self.new) }
        ensures goes { far.does (state self.old) [] [] (state self.new) };

    /// Reads, as [`read`](Read::read) does, and writes nothing.
    fn read_some(&mut self, buf: &mut [u8]) -> io::Result<usize>
        ensures bound { ReadsAtMost result buf.new }
        ensures bytes { ReadConsumes (Self.remaining self.old) (Self.remaining self.new) result buf.new }
        ensures took { Keeps (Self.contents self.old) (Self.contents self.new) }
        ensures goes { far.does (state self.old) [] (front_by result buf.new) (state self.new) };

    /// Writes, as [`write`](Write::write) does, and reads nothing.
    fn give(&mut self, buf: &[u8]) -> io::Result<usize>
        ensures bound { WritesAtMost result buf.now }
        ensures bytes { WriteAppends (Self.contents self.old) (Self.contents self.new) result buf.now }
        ensures gives { Keeps (Self.remaining self.old) (Self.remaining self.new) }
        ensures goes { far.does (state self.old) (front_by result buf.now) [] (state self.new) };
}

/// What connects to addresses.
pub trait Dial {
    /// Its connections.
    type Stream: Stream;

    /// Connects to an address, within this many milliseconds, at least 1. An error where nothing answers there in time.
    fn dial(&mut self, address: &str, within_ms: u64) -> io::Result<Self::Stream>
        ensures begins { IfOk result (λ stream. Self.Stream.far.begins (Self.Stream.state stream)) };
}
