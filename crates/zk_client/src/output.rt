//! What comes out of a client.

ghost use Rattle.std.specs.Prelude.{◌≡◌};
ghost use Rattle.std.specs.Option.{option_copied};
ghost use Rattle.zk_client.specs.FaultText.{outcome_code};
ghost use Rattle.zk_client.specs.Views.{outcome_view};

use crate::call_result::CallResult;
use crate::fault::Fault;
use std::alloc::{Allocator, Global};
use std::fmt;
use zk_records::{Event, Side};
use zk_session::State;

/// What a call is answered: its reply, or why there is none.
#[derive(Drop)]
pub enum Outcome<A: Allocator = Global> {
    /// The reply, with its zxid.
    Replied { zxid: i64, result: CallResult<A> },
    /// K1: the connection was lost. The call may or may not have happened.
    ConnectionLoss,
    /// K2: the session has expired. Nothing was sent, as for those below.
    SessionExpired,
    /// K3: the session is closed, or a call that closes it is pending.
    SessionClosed,
    /// K4: the client is not connected.
    NotConnected,
    /// K5: 65,536 paths of the side are watched, pending reads counted.
    TooManyWatches,
    /// K6: the payload has more than 1,048,575 bytes.
    TooLarge,
    /// K7: 1,024 calls are pending.
    TooManyPending,
}

impl<A: Allocator> Outcome<A> {
    /// The code of why there is no reply, `K1` to `K7`; a reply has none.
    pub fn code(&self) -> Option<&'static str>
        ensures { option_copied result ≡ outcome_code (outcome_view self.now) }
    {
        Some(match self {
            Outcome::Replied { .. } => return None,
            Outcome::ConnectionLoss => "K1",
            Outcome::SessionExpired => "K2",
            Outcome::SessionClosed => "K3",
            Outcome::NotConnected => "K4",
            Outcome::TooManyWatches => "K5",
            Outcome::TooLarge => "K6",
            Outcome::TooManyPending => "K7",
        })
    }
}

/// Says why there is no reply, or that there is one, with its zxid.
impl<A: Allocator> fmt::Display for Outcome<A> {
    ghost use Rattle.std.specs.Prelude.{Some};
    ghost use Rattle.zk_client.specs.FaultText.{outcome_words};
    ghost use Rattle.zk_client.specs.Views.{outcome_view};

    ghost output = { λ outcome. Some (outcome_words (outcome_view outcome)) };

    fn fmt<W: fmt::Write>(&self, f: &mut fmt::Formatter<W>) -> fmt::Result {
        f.write_str(match self {
            Outcome::Replied { zxid, .. } => return write!(f, "a reply with zxid {zxid}"),
            Outcome::ConnectionLoss => {
                "the connection was lost: the call may or may not have happened"
            }
            Outcome::SessionExpired => "the session has expired",
            Outcome::SessionClosed => "the session is closed or is being closed",
            Outcome::NotConnected => "the client is not connected",
            Outcome::TooManyWatches => {
                "65,536 paths of the side are watched, pending reads counted"
            }
            Outcome::TooLarge => "the payload has more than 1,048,575 bytes",
            Outcome::TooManyPending => "1,024 calls are pending",
        })
    }
}

/// What a client says.
#[derive(Drop)]
pub enum Output<A: Allocator = Global> {
    /// One frame, for the server.
    Send(Vec<u8, A>),
    /// The answer to the call with this ticket.
    Answer {
        ticket: u64,
        outcome: Outcome<A>,
    },
    /// What was known of a side of the path has ended.
    Report {
        path: String<A>,
        side: Side,
        event: Event,
    },
    /// The state is another one.
    State(State),
    /// The connection is given up, and is to be closed.
    Drop(Fault),
}

impl<A: Allocator> Output<A> {
    ghost use Rattle.std.specs.Prelude.{◌≡◌};
    ghost use Rattle.zk_turns.specs.Turns.{ends_connection};
    ghost use Rattle.zk_client.specs.Views.{output_view};

    /// Whether the connection is over with this output, so that a program closes it: the client gives it up, or the session has
    /// expired or is closed.
    pub fn ends_connection(&self) -> bool
        ensures { result ≡ ends_connection (output_view self.now) }
    {
        match self {
            Output::Drop(_) => true,
            Output::State(state) => state.is_final(),
            _ => false,
        }
    }
}
