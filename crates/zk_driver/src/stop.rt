//! Memory that ran out.

use std::error::Error;
use std::fmt;

/// Memory was refused, so that a driver goes on no further.
#[derive(Clone, Copy, Debug)]
pub enum Stop {
    /// To a step of the client, which has no use from then on.
    Halted,
    /// To the driver: what was read is no turn, or what the last turn said was not given.
    Memory,
}

impl fmt::Display for Stop {
    ghost use Rattle.std.specs.Prelude.{Some};
    ghost use Rattle.zk_driver.specs.StopText.{stop_words};

    ghost output = { λ stop. Some (stop_words stop) };

    fn fmt<W: fmt::Write>(&self, f: &mut fmt::Formatter<W>) -> fmt::Result {
        f.write_str(match self {
            Stop::Halted => "out of memory: the client has no use from now on",
            Stop::Memory => "out of memory: what came, or what the client said of it, was lost",
        })
    }
}

impl Error for Stop {}
