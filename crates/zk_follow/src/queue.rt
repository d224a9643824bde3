//! Subjects that are to be read wait in a queue, by their places, while there is no room for a read of them.

ghost use Rattle.std.specs.Prelude.{◌≡◌, ◌≢◌, ◌<◌, ◌||◌, ◌==◌, ◌∷◌, ◌⊎◌, ℕ, All, None, [], false, true, length, IfOk, IfSome, OnOk};
ghost use Rattle.std.specs.List.{list_any};
ghost use Rattle.zk_session.specs.declared.states.State.TheVariants.{Connected};
ghost use Rattle.zk_client.specs.Clients.{view_of};
ghost use Rattle.zk_client.specs.Views.{said};
ghost use Rattle.zk_follow.specs.Following.{is_among, IsBusy};
ghost use Rattle.zk_follow.specs.inner.Places.{IsAscending};
ghost use Rattle.zk_follow.specs.inner.Resting.{is_about_some, may_show_any};

use crate::about::{has_one_about_some, has_one_showing_any};
use crate::places::{add_one, put_in_order};
use crate::reads::MOST_READS;
use crate::subject::{Subject, has_room, is_connected};
use std::alloc::{AllocError, Allocator};
use std::collections::VecDeque;
use zk_client::{Client, MOST_PENDING, Output};

/// Adds the places of a queue to these that are below a number.
pub(crate) fn pour<A: Allocator + Copy>(
    waiting: &mut VecDeque<usize, A>,
    count: usize,
    all: &mut Vec<usize, A>,
) -> Result<(), AllocError>
    ensures { OnOk result ((at : ℕ) → at < count
        → (is_among at all.old.items || is_among at waiting.old.items) ≡ true → is_among at all.new.items ≡ true) }
{
    while let Some(place) = waiting.pop_front() {
        add_one(place, count, all)?;
    }
    Ok(())
}

/// Adds a place to a queue. An error means that memory ran out.
pub(crate) fn put_last<A: Allocator + Copy>(
    waiting: &mut VecDeque<usize, A>,
    place: usize,
) -> Result<(), AllocError>
    ensures had { OnOk result ((at : ℕ) → is_among at waiting.old.items ≡ true → is_among at waiting.new.items ≡ true) }
    ensures here { OnOk result (is_among place waiting.new.items ≡ true) }
{
    match waiting.push_back(place) {
        Ok(()) => Ok(()),
        Err(_) => Err(AllocError),
    }
}

/// Whether there is none in a queue.
fn is_unused<A: Allocator + Copy>(waiting: &VecDeque<usize, A>) -> bool
    ensures { result ≡ true → waiting.now.items ≡ [] }
{
    waiting.is_empty()
}

/// Whether a queue is so long that it has places twice.
fn is_long<A: Allocator + Copy>(waiting: &VecDeque<usize, A>, count: usize) -> bool
    ensures { (result ≡ true) ⊎ (result ≡ false) }
{
    count < waiting.len() / 2
}

/// Adds the places of a queue to those that are awake, if by an output what is kept of any path may have become good, or if the queue is
/// long. An error means that memory ran out.
pub(crate) fn stir<A: Allocator + Copy>(
    is_foreign: bool,
    outputs: &[Output<A>],
    count: usize,
    waiting: &mut VecDeque<usize, A>,
    awake: &mut Vec<usize, A>,
) -> Result<(), AllocError>
    ensures had { OnOk result ((at : ℕ) → at < count → is_among at awake.old.items ≡ true → is_among at awake.new.items ≡ true) }
    ensures kept { OnOk result ((at : ℕ) → at < count → (is_among at awake.old.items || is_among at waiting.old.items) ≡ true
        → (is_among at awake.new.items || is_among at waiting.new.items) ≡ true) }
    ensures stirred { OnOk result (list_any (may_show_any is_foreign) (said outputs.now) ≡ true → (at : ℕ) → at < count
        → (is_among at awake.old.items || is_among at waiting.old.items) ≡ true → is_among at awake.new.items ≡ true) }
{
    if is_unused(waiting) {
        return Ok(());
    }
    if has_one_showing_any(is_foreign, outputs) {
        return pour(waiting, count, awake);
    }
    if is_long(waiting, count) {
        return pour(waiting, count, awake);
    }
    Ok(())
}

/// How many subjects can be read beside those that are being read.
fn room_beside<A: Allocator + Copy>(client: &Client<A>, reads: usize) -> usize
    ensures { result ≡ result }
{
    if !is_connected(client) {
        return 0;
    }
    let calls = (MOST_PENDING as usize).saturating_sub(client.pending_calls() as usize);
    calls.min((MOST_READS as usize).saturating_sub(reads))
}

/// The next place of a queue, if more are wanted.
fn next_of<A: Allocator + Copy>(waiting: &mut VecDeque<usize, A>, wanted: usize) -> Option<usize>
    ensures some { IfSome result (λ place. waiting.old.items ≡ place ∷ waiting.new.items) }
    ensures none { result ≡ None → waiting.new.items ≡ waiting.old.items }
{
    if wanted == 0 {
        return None;
    }
    waiting.pop_front()
}

/// How many are wanted beside the subject at this place.
fn wanted_beside<A: Allocator + Copy>(
    subjects: &[Subject<A>],
    place: usize,
    client: &Client<A>,
    wanted: usize,
) -> usize
    ensures { result ≡ result }
{
    if place < subjects.len() && subjects[place].is_awaited(client) {
        return wanted.saturating_sub(1);
    }
    wanted
}

/// Takes the first places out of a queue, of as many subjects that are awaited as there is room for, to these, which are in order. An error
/// means that memory ran out.
pub(crate) fn take_first<A: Allocator + Copy>(
    subjects: &[Subject<A>],
    client: &Client<A>,
    reads: usize,
    waiting: &mut VecDeque<usize, A>,
    places: &mut Vec<usize, A>,
) -> Result<(), AllocError>
    requires { IsAscending places.old.items }
    ensures ascend { OnOk result (IsAscending places.new.items) }
    ensures below { OnOk result
        (All (λ at. at < length subjects.now) places.old.items → All (λ at. at < length subjects.now) places.new.items) }
    ensures had { OnOk result ((at : ℕ) → at < length subjects.now
        → is_among at places.old.items ≡ true → is_among at places.new.items ≡ true) }
    ensures kept { OnOk result ((at : ℕ) → at < length subjects.now → (is_among at places.old.items || is_among at waiting.old.items) ≡ true
        → (is_among at places.new.items || is_among at waiting.new.items) ≡ true) }
{
    if waiting.is_empty() {
        return Ok(());
    }
    let mut wanted = room_beside(client, reads);
    while let Some(place) = next_of(waiting, wanted) {
        add_one(place, subjects.len(), places)?;
        wanted = wanted_beside(subjects, place, client, wanted);
    }
    put_in_order(places);
    Ok(())
}

/// Whether there may be room yet for one that waits.
pub(crate) fn is_room_left<A: Allocator + Copy>(
    client: &Client<A>,
    reads: usize,
    waiting: &VecDeque<usize, A>,
) -> bool
    ensures { result ≡ false → IsBusy (view_of client.now) reads
        ⊎ (((view_of client.now).standing.state ≢ Connected) ⊎ (waiting.now.items ≡ [])) }
{
    if waiting.is_empty() {
        return false;
    }
    if !is_connected(client) {
        return false;
    }
    has_room(client, reads)
}

/// Whether there is no place among these, and none waits.
pub(crate) fn is_nobody<A: Allocator + Copy>(places: &[usize], waiting: &VecDeque<usize, A>) -> bool
    ensures places { result ≡ true → length places.now ≡ 0 }
    ensures waiting { result ≡ true → waiting.now.items ≡ [] }
{
    if !is_unused(waiting) {
        return false;
    }
    places.is_empty()
}

/// Whether no output is about a subject, no place is awake, and none waits: then a step visits nobody.
pub(crate) fn is_over<A: Allocator + Copy>(
    heard: &[Output<A>],
    awake: &[usize],
    waiting: &VecDeque<usize, A>,
) -> bool
    ensures heard { result ≡ true → list_any is_about_some (said heard.now) ≡ false }
    ensures awake { result ≡ true → length awake.now ≡ 0 }
    ensures waiting { result ≡ true → waiting.now.items ≡ [] }
{
    if has_one_about_some(heard) {
        return false;
    }
    is_nobody(awake, waiting)
}

/// Whether a place is one of these.
fn is_in(places: &[usize], place: usize) -> bool
    requires { IsAscending places.now }
    ensures { result ≡ is_among place places.now }
{
    places.binary_search(&place).is_ok()
}

/// Adds a place if it is below a number, and none of these places.
fn add_apart<A: Allocator + Copy>(
    places: &[usize],
    place: usize,
    count: usize,
    all: &mut Vec<usize, A>,
) -> Result<(), AllocError>
    requires { IsAscending places.now }
    ensures below { OnOk result (All (λ at. at < count) all.old.items → All (λ at. at < count) all.new.items) }
    ensures apart { OnOk result (((at : ℕ) → is_among at all.old.items ≡ true → is_among at places.now ≡ false)
        → (at : ℕ) → is_among at all.new.items ≡ true → is_among at places.now ≡ false) }
    ensures has { OnOk result ((at : ℕ) → at < count → (is_among at all.old.items || at == place) ≡ true
        → (is_among at all.new.items || is_among at places.now) ≡ true) }
{
    if is_in(places, place) {
        return Ok(());
    }
    if count <= place {
        return Ok(());
    }
    match all.push(place) {
        Ok(()) => Ok(()),
        Err(_) => Err(AllocError),
    }
}

/// Takes out of a queue all places below a number: those that are none of these, in order. An error means that memory ran out.
pub(crate) fn take_rest<A: Allocator + Copy>(
    alloc: A,
    places: &[usize],
    count: usize,
    waiting: &mut VecDeque<usize, A>,
) -> Result<Vec<usize, A>, AllocError>
    requires { IsAscending places.now }
    ensures ascend { IfOk result (λ all. IsAscending all.items) }
    ensures below { IfOk result (λ all. All (λ at. at < count) all.items) }
    ensures apart { IfOk result (λ all. (at : ℕ) → is_among at all.items ≡ true → is_among at places.now ≡ false) }
    ensures has { IfOk result (λ all. (at : ℕ) → at < count → is_among at waiting.old.items ≡ true
        → (is_among at all.items || is_among at places.now) ≡ true) }
{
    let mut all = Vec::new(alloc);
    while let Some(place) = waiting.pop_front() {
        add_apart(places, place, count, &mut all)?;
    }
    put_in_order(&mut all);
    Ok(all)
}
