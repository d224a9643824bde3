//! What follows byte by byte of a walk through a tree.

ghost use Rattle.shell_ask.specs.Trees.{WalksRun};

use std::alloc::Allocator;
use zk_link::Stream;

/// A walk through a tree is a run of its driver (`Runs`), up to each place that it reaches. So what holds of a run of a driver, byte by
/// byte, holds of a walk.
pub fn walks_run<A: Allocator, S: Stream>()
    ensures { WalksRun A S.far }
{}
