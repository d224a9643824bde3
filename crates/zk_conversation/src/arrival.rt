//! What arrives.

use crate::question::Question;
use crate::result::ReplyResult;
use std::alloc::Allocator;
use zk_records::{ConnectResponseRef, Event};

/// What a payload is. Texts and bytes are slices of the payload.
#[derive(Drop)]
pub enum Arrival<'a, A: Allocator> {
    /// The answer to the ConnectRequest. Its timeout says whether the session was accepted.
    Connected(ConnectResponseRef<'a>),
    /// The reply to a call.
    Reply {
        /// The caller's number of the call.
        ticket: u64,
        question: Question<A>,
        zxid: i64,
        result: ReplyResult<'a, A>,
    },
    /// The reply to a part of setWatches; an err other than 0 refuses it.
    WatchesSet {
        last: bool,
        zxid: i64,
        err: i32,
    },
    /// A watch fired.
    Notice {
        event: Event,
        path: &'a str,
    },
    /// The answer to a ping.
    Pong,
    /// A payload with nothing for a client: the answer to an auth packet, or a notice of a type that is no event.
    Skipped,
}
