//! Which subjects may not be quiet once some are followed no more: those of them that stay, at their new places.

ghost use Rattle.std.specs.Prelude.{◌≡◌, ◌++◌, ◌∷◌, ◌+◌, ◌<◌, ◌^◌, [], ℕ, true, false, not, cond, length, slice_index_or, IfOk, OnOk};
ghost use Rattle.std.specs.List.{filter};
ghost use Rattle.zk_turns.specs.View.{View};
ghost use Rattle.zk_follow.specs.Following.{is_among, AreQuietBut};
ghost use Rattle.zk_follow.specs.Places.{AreFound};

use crate::index::Index;
use crate::subject::Subject;
use crate::tickets::Tickets;
use std::alloc::{AllocError, Allocator};

/// Marks a place, if there is such a one.
fn mark<A: Allocator>(marks: &mut Vec<bool, A>, place: usize)
    ensures size { length marks.new.items ≡ length marks.old.items }
    ensures marked { place < length marks.old.items → slice_index_or marks.new.items place false ≡ true }
    ensures kept { (at : ℕ) → slice_index_or marks.old.items at false ≡ true → slice_index_or marks.new.items at false ≡ true }
{
    if marks.len() <= place {
        return;
    }
    marks[place] = true;
}

/// Marks of this number, of which those at these places are set. An error means that memory ran out.
fn mark_each<A: Allocator + Copy>(
    alloc: A,
    places: &[usize],
    size: usize,
) -> Result<Vec<bool, A>, AllocError>
    ensures size { IfOk result (λ marks. length marks.items ≡ size) }
    ensures marked { IfOk result (λ marks. (at : ℕ) → at < size → is_among at places.now ≡ true
        → slice_index_or marks.items at false ≡ true) }
{
    let mut marks = Vec::new(alloc);
    marks.resize(size, false)?;
    for place in places {
        mark(&mut marks, *place);
    }
    Ok(marks)
}

/// Whether the subject at a place may not be quiet: those are marked of the first ones, and of others nothing is known.
fn is_awake(count: usize, marks: &[bool], place: usize) -> bool
    requires { place < length marks.now }
    ensures { result ≡ false → (place < count) × (slice_index_or marks.now place false ≡ false) }
{
    if count <= place {
        return true;
    }
    marks[place]
}

/// Adds a place where it is to be added.
fn add_where<A: Allocator + Copy>(
    is_added: bool,
    place: usize,
    places: &mut Vec<usize, A>,
) -> Result<(), AllocError>
    ensures { OnOk result (places.new.items ≡ cond is_added (places.old.items ++ place ∷ []) places.old.items) }
{
    if !is_added {
        return Ok(());
    }
    match places.push(place) {
        Ok(()) => Ok(()),
        Err(_) => Err(AllocError),
    }
}

/// Adds the new place of a subject that stays and may not be quiet. The answer is the next place.
fn add_left<A: Allocator + Copy>(
    gone: &Tickets<A>,
    subject: &Subject<A>,
    is_awake: bool,
    next: usize,
    left: &mut Vec<usize, A>,
) -> Result<usize, AllocError>
    requires { next + 1 < 2 ^ 64 }
    ensures next { IfOk result (λ after. after ≡ next + cond (not (is_among subject.now.ticket gone.now.sorted.items)) 1 0) }
    ensures left { OnOk result (left.new.items ≡ cond (not (is_among subject.now.ticket gone.now.sorted.items))
        (cond is_awake (left.old.items ++ next ∷ []) left.old.items) left.old.items) }
{
    if gone.has(subject.ticket) {
        return Ok(next);
    }
    add_where(is_awake, next, left)?;
    Ok(next + 1)
}

/// The places of those that may not be quiet, once the subjects of these tickets are gone. An error means that memory ran out.
pub(crate) fn awake_left<A: Allocator + Copy>(
    alloc: A,
    subjects: &[Subject<A>],
    gone: &Tickets<A>,
    count: usize,
    awake: &[usize],
) -> Result<Vec<usize, A>, AllocError>
    ensures { IfOk result (λ left. (view : View) → AreQuietBut view count subjects.now awake.now
        → AreQuietBut view (length (filter (λ subject. not (is_among subject.ticket gone.now.sorted.items)) subjects.now))
        (filter (λ subject. not (is_among subject.ticket gone.now.sorted.items)) subjects.now) left.items) }
{
    let marks = mark_each(alloc, awake, subjects.len())?;
    let mut left = Vec::new(alloc);
    let mut next = 0;
    for place in 0..subjects.len() {
        let may_wake = is_awake(count, marks.as_slice(), place);
        next = add_left(gone, &subjects[place], may_wake, next, &mut left)?;
    }
    Ok(left)
}

/// An index of all of these, and who of them may not be quiet; of none, if memory runs out.
pub(crate) fn index_of<A: Allocator + Copy>(
    alloc: A,
    subjects: &[Subject<A>],
    awake: Vec<usize, A>,
) -> (Index<A>, Vec<usize, A>)
    ensures found { AreFound result.0 subjects.now }
    ensures rest { (view : View) → AreQuietBut view (length subjects.now) subjects.now awake.items
        → AreQuietBut view result.0.count subjects.now result.1.items }
{
    let mut index = Index::new(alloc);
    match index.fit(alloc, subjects) {
        Ok(()) => (index, awake),
        Err(_) => (Index::new(alloc), Vec::new(alloc)),
    }
}
