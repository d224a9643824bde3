//! The limits of calls, each with how many calls have it.

ghost use Rattle.std.specs.Prelude.{◌≡◌, ◌+◌, ◌<◌, ◌^◌, ℕ, List, Some, OnErr, OnOk, if◌then◌else◌};
ghost use Rattle.zk_calls.specs.declared.entry.Entry.{Entry};
ghost use Rattle.zk_calls.specs.Lines.{first_limit};
ghost use Rattle.zk_calls.specs.Orders.{calls_at, is_limit, AreLimits};

use std::alloc::{AllocError, Allocator};
use std::collections::BTreeMap;

/// The limits of calls, and how many calls have each, beside one.
#[derive(Drop)]
pub(crate) struct Limits<A: Allocator + Copy> {
    pub(crate) more: BTreeMap<u64, usize, A>,
}

impl<A: Allocator + Copy> Limits<A> {
    /// Of no calls.
    pub(crate) fn new(alloc: A) -> Limits<A>
        ensures { (limit : ℕ) → calls_at result limit ≡ 0 }
    {
        Limits {
            more: BTreeMap::new(alloc),
        }
    }

    /// One more call has this limit, if it is one.
    pub(crate) fn add(&mut self, until: Option<u64>) -> Result<(), AllocError>
        requires { (limit : ℕ) → calls_at self.old limit < 2 ^ 63 }
        ensures added { OnOk result
            ((limit : ℕ) → calls_at self.new limit ≡ calls_at self.old limit + (if is_limit limit until then 1 else 0)) }
        ensures same { OnErr result ((limit : ℕ) → calls_at self.new limit ≡ calls_at self.old limit) }
    {
        let Some(limit) = until else {
            return Ok(());
        };
        let more = match self.more.get(&limit) {
            Some(more) => *more + 1,
            None => 0,
        };
        match self.more.insert(limit, more) {
            Ok(_) => Ok(()),
            Err(_) => Err(AllocError),
        }
    }

    /// One of the calls that have this limit, if it is one, has gone.
    pub(crate) fn take(&mut self, until: Option<u64>)
        requires { (limit : ℕ) → until ≡ Some limit → 0 < calls_at self.old limit }
        ensures { (limit : ℕ) → calls_at self.new limit + (if is_limit limit until then 1 else 0) ≡ calls_at self.old limit }
    {
        let Some(limit) = until else {
            return;
        };
        let more = match self.more.get(&limit) {
            Some(more) => *more,
            None => 0,
        };
        if more == 0 {
            self.more.remove(&limit);
            return;
        }
        let _was = self.more.insert(limit, more - 1);
    }

    /// None has a limit any more.
    pub(crate) fn clear(&mut self)
        ensures { (limit : ℕ) → calls_at self.new limit ≡ 0 }
    {
        self.more.clear();
    }

    /// The first limit.
    pub(crate) fn first(&self) -> Option<u64>
        ensures { (entries : List (Entry A)) → AreLimits self.now entries → result ≡ first_limit entries }
    {
        match self.more.first_key_value() {
            Some((limit, _)) => Some(*limit),
            None => None,
        }
    }
}
