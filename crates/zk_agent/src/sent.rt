//! What a client sends.

ghost use Rattle.std.specs.Prelude.{◌≡◌};
ghost use Rattle.zk_agent.specs.Waits.{none_sent, sent_as, sent_by, xid_of};
ghost use Rattle.zk_turns.specs.Turns.{Enters};

use crate::frames::{is_of_call, is_of_ping};
use crate::moments::is_there;
use zk_client::State;

/// The first number that does not fit four bytes.
const WORD: u64 = 4_294_967_296;

/// What outputs send: whether a connection is over with them, and how many frames of calls, and how many pings, are sent after that.
#[derive(Clone, Copy)]
pub struct Sent {
    pub(crate) is_over: bool,
    pub(crate) calls: u64,
    pub(crate) pings: u64,
}

/// The xid of a frame, if it is long enough to have one.
fn xid_of(frame: &[u8]) -> Option<u64>
    ensures { result ≡ xid_of frame.now }
{
    let Some((head, _rest)) = frame.split_first_chunk::<8>() else {
        return None;
    };
    Some(u64::from_be_bytes(*head) % WORD)
}

impl Sent {
    /// Nothing is sent.
    pub(crate) fn new(is_over: bool) -> Sent
        ensures { result ≡ none_sent is_over }
    {
        Sent {
            is_over,
            calls: 0,
            pings: 0,
        }
    }

    /// The state is another one. If no connection is there, what was sent is over.
    pub(crate) fn enter(&mut self, state: State)
        ensures { self.new ≡ sent_by self.old (Enters state) }
    {
        if !is_there(state) {
            *self = Sent::new(true);
        }
    }

    /// A frame is sent.
    pub(crate) fn send(&mut self, frame: &[u8])
        ensures { self.new ≡ sent_as (xid_of frame.now) self.old }
    {
        let Some(xid) = xid_of(frame) else {
            return;
        };
        if is_of_call(xid) {
            self.calls = self.calls.saturating_add(1);
        } else if is_of_ping(xid) {
            self.pings = self.pings.saturating_add(1);
        }
    }
}
