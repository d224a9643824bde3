//! Why a request gets no result.

ghost use Rattle.std.specs.Prelude.{◌≡◌};
ghost use Rattle.zk_bench.specs.declared.stop.Stop.TheVariants as stops;
ghost use Rattle.zk_bench.specs.declared.stop.Refusal.TheVariants as refusals;
ghost use Rattle.zk_bench.specs.Refusals.{stop_of};
ghost use Rattle.zk_bench.specs.inner.Refusals.{stop_of_put, stop_of_take, stop_of_request, refusal_of_path};

use std::alloc::{AllocError, AllocFailed};
use zk_history::HistoryFault;
use zk_jute::{PutError, TakeError};
use zk_nodes::PathFault;
use zk_records::{Code, RequestFault};

/// Why a connection goes no further.
#[derive(Clone, Copy)]
pub(crate) enum Stop {
    /// The server ends it without an answer.
    End,
    /// The allocator refused a request.
    Memory,
}

/// Why a request gets no result.
#[derive(Clone, Copy)]
pub(crate) enum Refusal {
    /// It is answered by a header with this code.
    Code(Code),
    /// It is not answered.
    Stop(Stop),
}

impl From<AllocError> for Stop {
    ghost from_gives = { λ _ stop. stop ≡ stops.Memory };

    fn from(_e: AllocError) -> Stop {
        Stop::Memory
    }
}

impl From<PutError> for Stop {
    ghost from_gives = { λ fault stop. stop ≡ stop_of_put fault };

    fn from(e: PutError) -> Stop {
        match e {
            PutError::TooLong => Stop::End,
            PutError::Memory => Stop::Memory,
        }
    }
}

impl From<TakeError> for Stop {
    ghost from_gives = { λ fault stop. stop ≡ stop_of_take fault };

    fn from(e: TakeError) -> Stop {
        match e {
            TakeError::Memory => Stop::Memory,
            _ => Stop::End,
        }
    }
}

impl From<RequestFault> for Stop {
    ghost from_gives = { λ fault stop. stop ≡ stop_of_request fault };

    fn from(e: RequestFault) -> Stop {
        match e {
            RequestFault::Unknown(_) => Stop::End,
            RequestFault::Unread(fault) => Stop::from(fault),
        }
    }
}

impl From<Stop> for Refusal {
    ghost from_gives = { λ stop refusal. refusal ≡ refusals.Stop stop };

    fn from(stop: Stop) -> Refusal {
        Refusal::Stop(stop)
    }
}

impl From<AllocError> for Refusal {
    ghost from_gives = { λ _ refusal. refusal ≡ refusals.Stop stops.Memory };

    fn from(_e: AllocError) -> Refusal {
        Refusal::Stop(Stop::Memory)
    }
}

impl From<Code> for Refusal {
    ghost from_gives = { λ code refusal. refusal ≡ refusals.Code code };

    fn from(code: Code) -> Refusal {
        Refusal::Code(code)
    }
}

/// A history that refuses what its own look-ups have admitted has run out of memory.
impl From<HistoryFault> for Refusal {
    ghost from_gives = { λ fault refusal. refusal ≡ refusals.Stop (stop_of fault) };

    fn from(fault: HistoryFault) -> Refusal {
        match fault {
            HistoryFault::Memory => Refusal::Stop(Stop::Memory),
            HistoryFault::Place | HistoryFault::Order | HistoryFault::Illegal => {
                Refusal::Stop(Stop::End)
            }
        }
    }
}

impl From<PathFault> for Refusal {
    ghost from_gives = { λ fault refusal. refusal ≡ refusal_of_path fault };

    fn from(fault: PathFault) -> Refusal {
        match fault {
            PathFault::Memory => Refusal::Stop(Stop::Memory),
            _ => Refusal::Code(Code::BadArguments),
        }
    }
}
