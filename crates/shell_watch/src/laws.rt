//! What follows byte by byte of what a watch does.

ghost use Rattle.shell_watch.specs.Watching.{FollowsRun, WatchesRun};

use std::alloc::Allocator;
use zk_link::Stream;

/// All that a watch does is a run of its driver (`Runs`): that each subject is followed, and all that it prints. So what holds of a run of
/// a driver, byte by byte, holds of a watch.
pub fn watches_run<A: Allocator, S: Stream>()
    ensures watches { WatchesRun A S.far }
    ensures follows { FollowsRun A S.far }
{}
