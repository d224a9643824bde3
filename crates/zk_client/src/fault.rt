//! Why a connection is given up, and that memory ran out.

ghost use Rattle.std.specs.Prelude.{◌≡◌};
ghost use Rattle.zk_client.specs.FaultText.{fault_code};
ghost use Rattle.zk_client.specs.Views.{fault_view};

use std::error::Error;
use std::fmt;
use zk_conversation::TalkFault;
use zk_frames::FrameFault;

/// Why a client gives its connection up.
#[derive(Clone, Copy, Debug)]
pub enum Fault {
    /// F1, F2: a length stands next that is not admitted.
    Framed(FrameFault),
    /// C1 to C5: a payload has no reading.
    Talked(TalkFault),
    /// D1: nothing was heard for two thirds of the timeout.
    Silent,
    /// D2: the reply to a watched read is behind what was seen.
    Behind { seen: i64, came: i64 },
    /// D3: a part of setWatches was refused.
    WatchesRefused { code: i32 },
}

impl Fault {
    /// The code of the fault: that of the frame or of the payload, else `D1` to `D3`. Its values are no part of it.
    pub fn code(self) -> &'static str
        ensures { result.now ≡ fault_code (fault_view self) }
    {
        match self {
            Fault::Framed(fault) => fault.code(),
            Fault::Talked(fault) => fault.code(),
            Fault::Silent => "D1",
            Fault::Behind { .. } => "D2",
            Fault::WatchesRefused { .. } => "D3",
        }
    }
}

impl fmt::Display for Fault {
    ghost use Rattle.std.specs.Prelude.{Some};
    ghost use Rattle.zk_client.specs.FaultText.{fault_words};
    ghost use Rattle.zk_client.specs.Views.{fault_view};

    ghost output = { λ fault. Some (fault_words (fault_view fault)) };

    fn fmt<W: fmt::Write>(&self, f: &mut fmt::Formatter<W>) -> fmt::Result {
        match self {
            Fault::Framed(fault) => write!(f, "{fault}"),
            Fault::Talked(fault) => write!(f, "{fault}"),
            Fault::Silent => write!(f, "nothing was heard for two thirds of the timeout"),
            Fault::Behind { seen, came } => {
                write!(
                    f,
                    "zxid {seen} was seen, and a reply to a watched read has zxid {came}"
                )
            }
            Fault::WatchesRefused { code } => {
                write!(f, "setWatches was refused with code {code}")
            }
        }
    }
}

impl Error for Fault {}

/// A step was refused memory. The client has no use from then on: it keeps nothing, and each later step answers the same.
#[derive(Clone, Copy, Debug)]
pub struct Halt;

impl fmt::Display for Halt {
    ghost use Rattle.std.specs.Prelude.{Some};
    ghost use Rattle.zk_client.specs.FaultText.{halt_words};

    ghost output = { λ _. Some halt_words };

    fn fmt<W: fmt::Write>(&self, f: &mut fmt::Formatter<W>) -> fmt::Result {
        f.write_str("out of memory: the client has no use from now on")
    }
}

impl Error for Halt {}
