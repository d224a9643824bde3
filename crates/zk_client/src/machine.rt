//! What a client is made of, except for the bytes that it holds.

ghost use Rattle.std.specs.Prelude.{◌≡◌, ◌≤ℤ◌, ℕ, List, ◌∷◌, ◌++◌, [], OnOk, pos, true};
ghost use Rattle.zk_watches.specs.Lists.{no_lists};
ghost use Rattle.zk_cache.specs.Cache.{no_answers, with_good};
ghost use Rattle.zk_turns.specs.Rule.{forgotten};
ghost use Rattle.zk_turns.specs.Taken.{longest};
ghost use Rattle.zk_client.specs.Views.{said, output_view};
ghost use Rattle.zk_client.specs.inner.Seen.{cache_of, view_with, origin, origin_of};

use crate::output::Output;
use std::alloc::{AllocError, Allocator};
use zk_cache::Cache;
use zk_conversation::Conversation;
use zk_frames::FrameLimits;
use zk_limits::LONGEST_INCOMING;
use zk_session::{Session, State};
use zk_watches::Registry;

/// The layers of a client. Its methods stand by what they are about: calls in `calls`, payloads in `arrivals`, replies to calls in
/// `replies`, the beginning and the end of a connection in `connections`, pings in `ticks`, and here what is forgotten.
#[derive(Drop)]
pub(crate) struct Core<A: Allocator + Copy> {
    pub(crate) alloc: A,
    /// How long payloads may be.
    pub(crate) limits: FrameLimits,
    pub(crate) halted: bool,
    pub(crate) session: Session<A>,
    /// The session as it stood before this step had another one accepted.
    pub(crate) earlier: Option<Session<A>>,
    pub(crate) conversation: Conversation<A>,
    pub(crate) registry: Registry<A>,
    pub(crate) cache: Cache<A>,
}

impl<A: Allocator + Copy> Core<A> {
    /// How many bytes a payload that comes may have.
    pub(crate) fn longest(&self) -> usize
        ensures { result ≡ longest self.now.limits self.now.session.state }
    {
        match self.session.state() {
            State::Connected => self.limits.incoming,
            _ => LONGEST_INCOMING,
        }
    }

    /// Memory was refused. Nothing is kept any more, and the session is told as this state, this zxid and what stood when the
    /// step began.
    pub(crate) fn halt(&mut self, state: State, last_zxid: i64)
        requires { pos 0 ≤ℤ last_zxid }
        ensures halted { self.new.halted ≡ true }
        ensures state { self.new.session.state ≡ state }
        ensures last { self.new.session.saved.last ≡ last_zxid }
        ensures saved { origin_of self.new.session.saved ≡ origin self.old }
        ensures lists { self.new.registry ≡ no_lists }
        ensures answers { self.new.cache ≡ no_answers }
    {
        if let Some(earlier) = self.earlier.take() {
            self.session = earlier;
        }
        self.session.put_back(state, last_zxid);
        self.halted = true;
        self.registry.clear();
        self.cache.clear();
    }

    /// Takes the stale answers out.
    pub(crate) fn forget_stale(&mut self)
        ensures view { (held : List ℕ)
            → view_with held self.new ≡ record (view_with held self.old) { cache = forgotten (cache_of self.old.cache) } }
        ensures same { self.new ≡ record self.old { cache = with_good self.old.cache } }
    {
        self.cache.forget_stale();
    }
}

/// One more output.
pub(crate) fn say<A: Allocator>(
    outputs: &mut Vec<Output<A>, A>,
    output: Output<A>,
) -> Result<(), AllocError>
    ensures { OnOk result (said outputs.new.items ≡ said outputs.old.items ++ output_view output ∷ []) }
{
    outputs.push(output).map_err(AllocError::from)
}
