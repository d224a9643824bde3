//! What a server holds of a connection.

ghost use Rattle.std.specs.Prelude.{◌≡◌};
ghost use Rattle.zk_bench.specs.Served.{linked, is_open};
ghost use Rattle.zk_bench.specs.Linked.{linked_of};

use crate::phase::Phase;
use crate::watches::Watches;
use std::alloc::Allocator;

/// The connection to one of the servers.
#[derive(Drop)]
pub(crate) struct Connection<A: Allocator + Copy> {
    pub(crate) phase: Phase,
    pub(crate) watches: Watches<A>,
    /// What was received and not processed.
    pub(crate) requests: Vec<u8, A>,
    /// What was sent and not taken out.
    pub(crate) output: Vec<u8, A>,
}

impl<A: Allocator + Copy> Connection<A> {
    /// A new connection, with no watch and no bytes.
    pub(crate) fn new(alloc: A, phase: Phase) -> Connection<A>
        ensures { linked_of result ≡ linked phase }
    {
        Connection {
            phase,
            watches: Watches::new(alloc),
            requests: Vec::new(alloc),
            output: Vec::new(alloc),
        }
    }

    /// Whether the server takes requests.
    pub(crate) fn is_open(&self) -> bool
        ensures { result ≡ is_open self.now.phase }
    {
        match self.phase {
            Phase::Opening | Phase::Accepted => true,
            Phase::Apart | Phase::Ended => false,
        }
    }
}
