//! How a watch ends.

ghost use Rattle.std.specs.Prelude.{◌≢◌};

use std::alloc::AllocError;
use zk_driver::Stop;

/// How a watch ended.
#[derive(Clone, Copy, Debug)]
pub enum WatchEnd {
    /// Its time was over, and it is closed. A server has accepted its session.
    Over,
    /// Its time was over, and no server has ever accepted a session of it.
    NeverConnected,
    /// A step of the client ran out of memory.
    Halted,
    /// Memory ran out elsewhere.
    Memory,
    /// A write or a flush failed. It is closed.
    Stream,
}

/// Why a watch cannot go on.
#[derive(Clone, Copy)]
pub(crate) enum Failure {
    Halted,
    Memory,
    Stream,
}

impl From<AllocError> for Failure {
    ghost use Rattle.std.specs.Prelude.{◌≢◌};
    ghost use Rattle.shell_watch.specs.declared.end.Failure.TheVariants.{Stream};

    ghost from_gives = { λ _ why. why ≢ Stream };

    fn from(_fault: AllocError) -> Failure {
        Failure::Memory
    }
}

impl From<Stop> for Failure {
    ghost use Rattle.std.specs.Prelude.{◌≢◌};
    ghost use Rattle.shell_watch.specs.declared.end.Failure.TheVariants.{Stream};

    ghost from_gives = { λ _ why. why ≢ Stream };

    fn from(stop: Stop) -> Failure {
        match stop {
            Stop::Halted => Failure::Halted,
            Stop::Memory => Failure::Memory,
        }
    }
}

impl Failure {
    /// How a watch ends that cannot go on.
    pub(crate) fn end(self) -> WatchEnd
        ensures over { result ≢ WatchEnd.Over }
        ensures never { result ≢ WatchEnd.NeverConnected }
        ensures stream { result ≢ WatchEnd.Stream → self ≢ Failure.Stream }
    {
        match self {
            Failure::Halted => WatchEnd::Halted,
            Failure::Memory => WatchEnd::Memory,
            Failure::Stream => WatchEnd::Stream,
        }
    }
}
