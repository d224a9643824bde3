//! What goes into a client.

use std::alloc::{Allocator, Global};
use zk_conversation::Call;

/// What happens to a client.
///
/// It happens at the moment that the client was told last. So a program tells the moment with each input, by
/// [`Client::step_at`](crate::Client::step_at), before what it noticed then; the first one before the first connection begins. A
/// program that tells moments only when a timer fires drops a healthy connection: what came in between counts as heard when the
/// moment was told before it.
#[derive(Drop)]
pub enum Input<A: Allocator = Global> {
    /// A connection begins. It ends the one before.
    Opened,
    /// Bytes came from the server, cut in any way.
    Bytes(Vec<u8, A>),
    /// The connection is over.
    Cut,
    /// The moment, in milliseconds from any beginning. One below an earlier one counts as the earlier one.
    Now(u64),
    /// A caller asks. The ticket is the caller's own number, and comes back with the answer.
    Call(u64, Call<A>),
}

/// What a client is given: an input, or bytes that are lent.
#[derive(Drop)]
pub(crate) enum Given<'a, A: Allocator> {
    Input(Input<A>),
    Lent(&'a [u8]),
}
