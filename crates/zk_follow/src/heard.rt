//! What the client has said is taken to those whom the index finds by it, output by output, so that a step costs what was said.

ghost use Rattle.std.specs.Prelude.{◌≡◌, ◌<◌, ℕ, All, false, length, map, slice_index_or, OnOk};
ghost use Rattle.zk_client.specs.Views.{output_view, said};
ghost use Rattle.zk_follow.specs.Following.{heard, heard_all, is_among, taken, woken};
ghost use Rattle.zk_follow.specs.Places.{AreFound};
ghost use Rattle.zk_follow.specs.inner.Places.{AreSameBut, IsAscending};
ghost use Rattle.zk_follow.specs.inner.Resting.{AreUnmoved};

use crate::index::Index;
use crate::subject::Subject;
use std::alloc::{AllocError, Allocator};
use zk_client::Output;

/// The subjects at these places hear an output. It says nothing of others.
fn hear_each<A: Allocator + Copy>(
    subjects: &mut [Subject<A>],
    places: &[usize],
    now: u64,
    output: &Output<A>,
)
    requires ascend { IsAscending places.now }
    requires below { All (λ at. at < length subjects.old) places.now }
    requires rest { (k : ℕ) (d : Subject A) → k < length subjects.old → is_among k places.now ≡ false
        → heard now (slice_index_or subjects.old k d) (output_view output.now) ≡ slice_index_or subjects.old k d }
    ensures { subjects.new ≡ map (λ subject. heard now subject (output_view output.now)) subjects.old }
{
    for place in places {
        subjects[*place].hear_one(now, output);
    }
}

/// Each subject hears an output: those whom it names are found by the index.
fn hear_output<A: Allocator + Copy>(
    alloc: A,
    subjects: &mut [Subject<A>],
    index: &Index<A>,
    now: u64,
    output: &Output<A>,
) -> Result<(), AllocError>
    requires sized { 0 < length index.now.keys.buckets.items }
    requires count { index.now.count ≡ length subjects.old }
    requires found { AreFound index.now subjects.old }
    ensures { OnOk result (subjects.new ≡ map (λ subject. heard now subject (output_view output.now)) subjects.old) }
{
    let places = index.hearing(alloc, subjects, output)?;
    hear_each(subjects, places.as_slice(), now, output);
    Ok(())
}

/// Each subject hears the outputs, in order.
fn hear_all<A: Allocator + Copy>(
    alloc: A,
    subjects: &mut [Subject<A>],
    index: &Index<A>,
    now: u64,
    outputs: &[Output<A>],
) -> Result<(), AllocError>
    requires sized { 0 < length index.now.keys.buckets.items }
    requires count { index.now.count ≡ length subjects.old }
    requires found { AreFound index.now subjects.old }
    ensures { OnOk result (subjects.new ≡ map (λ subject. heard_all now subject (said outputs.now)) subjects.old) }
{
    for output in outputs {
        hear_output(alloc, subjects, index, now, output)?;
    }
    Ok(())
}

/// Refusals are over whose moment has come. No other than the subjects at these places was refused.
fn wake_each<A: Allocator + Copy>(subjects: &mut [Subject<A>], places: &[usize], now: u64)
    requires ascend { IsAscending places.now }
    requires below { All (λ at. at < length subjects.old) places.now }
    requires rest { (k : ℕ) (d : Subject A) → k < length subjects.old → is_among k places.now ≡ false
        → woken now (slice_index_or subjects.old k d) ≡ slice_index_or subjects.old k d }
    ensures { subjects.new ≡ map (woken now) subjects.old }
{
    for place in places {
        subjects[*place].wake(now);
    }
}

/// Each subject takes what the client has said at this moment. Nothing is said of others than those at these places.
pub(crate) fn take_all<A: Allocator + Copy>(
    alloc: A,
    subjects: &mut [Subject<A>],
    index: &Index<A>,
    places: &[usize],
    now: u64,
    outputs: &[Output<A>],
) -> Result<(), AllocError>
    requires sized { 0 < length index.now.keys.buckets.items }
    requires count { index.now.count ≡ length subjects.old }
    requires found { AreFound index.now subjects.old }
    requires ascend { IsAscending places.now }
    requires below { All (λ at. at < length subjects.old) places.now }
    requires rest { AreUnmoved now (said outputs.now) subjects.old places.now }
    ensures heard { OnOk result (subjects.new ≡ map (taken now (said outputs.now)) subjects.old) }
    ensures left { OnOk result (AreSameBut places.now subjects.old subjects.new) }
{
    if places.is_empty() {
        return Ok(());
    }
    hear_all(alloc, subjects, index, now, outputs)?;
    wake_each(subjects, places, now);
    Ok(())
}
