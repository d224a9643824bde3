//! What follows of the bytes of a connection from what each call of a driver does.

ghost use Rattle.zk_driver.specs.Flowing.{BytesComeWhole, BytesGoWhole, CallsRun, RunsJoin, TakingRuns};

use std::alloc::Allocator;
use zk_link::Stream;

/// What the agent is handed of a connection, joined, is a beginning of what its stream had to give: nothing is lost on the way, nothing
/// comes twice, and nothing from elsewhere.
pub fn bytes_come_whole<A: Allocator, S: Stream>()
    ensures { BytesComeWhole A S.far }
{}

/// What the stream of a connection took is a beginning of what was sent on it: the rest is still to be written.
pub fn bytes_go_whole<A: Allocator, S: Stream>()
    ensures { BytesGoWhole A S.far }
{}

/// What a driver does over any list of calls that succeed is a run (`Runs`): each call is one, by its clause `flows`, so is that the
/// program takes an action, and one after the other is one.
pub fn calls_run<A: Allocator, S: Stream>()
    ensures calls { CallsRun A S.far }
    ensures taking { TakingRuns A S.far }
    ensures join { RunsJoin A S.far }
{}
