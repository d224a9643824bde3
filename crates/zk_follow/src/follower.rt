//! A client with the subjects that its program follows.

ghost use Rattle.std.specs.Prelude.{◌≡◌, ◌++◌, ◌∷◌, ◌<ℤ◌, ◌==◌, ℕ, List, false, true, length, not, pos, map, [], None, IfOk, OnOk, OnErr};
ghost use Rattle.std.specs.Prelude.{◌≤◌, ◌<◌, ◌⊎◌, ◌||◌, All, IfSome, slice_index_or};
ghost use Rattle.zk_follow.specs.declared.reads.TheConstants.{MOST_READS};
ghost use Rattle.zk_follow.specs.Following.{is_among, AreStillBut, IsFollowed};
ghost use Rattle.std.specs.List.{flat_map, remove};
ghost use Rattle.std.proofs.Props.{props};
ghost use Rattle.zk_turns.specs.Turns.{Forgets, Item, Now, Start};
ghost use Rattle.zk_turns.specs.Taken.{NothingIsDue};
ghost use Rattle.zk_turns.specs.View.{View, view_at};
ghost use Rattle.zk_turns.specs.Rule.{forgotten, Stands};
ghost use Rattle.zk_client.specs.Clients.{renewed_start, view_of};
ghost use Rattle.zk_client.specs.Views.{input_view, said};
ghost use Rattle.zk_follow.specs.Following.{due_again, first_again, first_of, again_at, fresh, heard_all, news_in, told_of, unfollowed};
ghost use Rattle.zk_follow.specs.Following.{doubted};
ghost use Rattle.zk_follow.specs.Following.{how_many_reading, taken, ticked, unfollowed_all};
ghost use Rattle.zk_follow.specs.Following.{AreFollowed, AreQuiet, AreQuietBut, AreVisited, BreaksOff, IsAhead, IsCounted, Steps};
ghost use Rattle.zk_follow.specs.inner.Following.{AreSeen, Asks, Reads};
ghost use Rattle.zk_follow.specs.Owning.{AreOwn};
ghost use Rattle.zk_follow.specs.inner.Owning.{asks_to_watch};
ghost use Rattle.zk_follow.specs.Places.{AreFound};
ghost use Rattle.zk_follow.specs.Refusing.{too_long_for};
ghost use Rattle.zk_follow.specs.inner.Places.{AreSameBut, IsAscending};
ghost use Rattle.zk_follow.specs.inner.Resting.{AreAtRest, AreDueBut, AreLeft};

use crate::about::asks_to_watch;
use crate::doubting::doubt_each;
use crate::heard::take_all;
use crate::index::{Index, fit_all};
use crate::leaving::{awake_left, index_of};
use crate::news::{News, tell_all};
use crate::progress::Progress;
use crate::queue::{is_nobody, is_over, is_room_left, pour, stir, take_first, take_rest};
use crate::refusing::refuse_all;
use crate::stop::FollowerStop;
use crate::subject::Subject;
use crate::tickets::{Tickets, remove_all};
use std::alloc::{AllocError, Allocator, Global};
use std::collections::VecDeque;
use std::mem;
use zk_client::{Client, Input, Output, Path, Side};

/// A client with the subjects that its program follows: after each step what is kept of each is good, or a read of it is under way or waits
/// its turn, or no server has accepted the connection, or the last read was refused and is made again at a moment after this one.
#[derive(Drop)]
pub struct Follower<A: Allocator + Copy = Global> {
    alloc: A,
    pub(crate) client: Client<A>,
    pub(crate) subjects: Vec<Subject<A>, A>,
    /// The places of the subjects, by the tickets and paths that outputs name.
    index: Index<A>,
    /// The places of those that may not be still. A step visits these, those that its outputs name, and as many of those that wait as there
    /// is room for a read of, and no other in the index.
    awake: Vec<usize, A>,
    /// The places of the others that may not be quiet: what is kept of them is not good, and they wait for room to be read.
    waiting: VecDeque<usize, A>,
    /// Whether a call may be on its way that is to leave a watch and is no read of a subject.
    is_foreign: bool,
    ghost counted: { All (IsCounted (view_of client)) subjects.items } by { Prim.hlevel props },
    ghost found: { AreFound index subjects.items } by { Prim.hlevel props },
    ghost still: { AreStillBut (view_of client) index.count subjects.items awake.items } by { Prim.hlevel props },
    ghost rest: { AreQuietBut (view_of client) index.count subjects.items (awake.items ++ waiting.items) } by { Prim.hlevel props },
    ghost own: { is_foreign ≡ false → AreOwn subjects.items (view_of client).pending } by { Prim.hlevel props },
}

/// How many subjects count as being read, if those at these places alone do.
fn count_reads<A: Allocator + Copy>(subjects: &[Subject<A>], places: &[usize]) -> usize
    requires ascend { IsAscending places.now }
    requires below { All (λ at. at < length subjects.now) places.now }
    requires due { AreDueBut subjects.now places.now }
    ensures { result ≡ how_many_reading subjects.now }
{
    let mut reads = 0;
    for place in places {
        reads = subjects[*place].count_read(reads);
    }
    reads
}

/// The subjects at these places are read if they are to be read and there is room beside those that are being read. The answer is how many
/// are being read then. Others are followed if they were.
fn visit_each<A: Allocator + Copy>(
    alloc: A,
    subjects: &mut [Subject<A>],
    places: &[usize],
    client: &mut Client<A>,
    now: u64,
    reads: usize,
    made: &mut Vec<Output<A>, A>,
) -> Result<usize, FollowerStop>
    requires counted { All (IsCounted (view_of client.old)) subjects.old }
    requires goes_on { (view_of client.old).standing.halted ≡ false }
    requires ahead { All (λ subject. IsAhead now subject.progress) subjects.old }
    requires count { reads ≡ how_many_reading subjects.old }
    requires ascend { IsAscending places.now }
    requires below { All (λ at. at < length subjects.old) places.now }
    ensures followed { IfOk result (λ after. (k : ℕ) (d : Subject A) → k < length subjects.old
        → (is_among k places.now ≡ true) ⊎ IsFollowed now (view_of client.old) reads (slice_index_or subjects.old k d)
        → IsFollowed now (view_of client.new) after (slice_index_or subjects.new k d)) }
    ensures counted { OnOk result (All (IsCounted (view_of client.new)) subjects.new) }
    ensures ahead { OnOk result (All (λ subject. IsAhead now subject.progress) subjects.new) }
    ensures asks { OnOk result (Asks (view_of client.old) (view_of client.new)) }
    ensures left { OnOk result (AreSameBut places.now subjects.old subjects.new) }
    ensures count { IfOk result (λ after. after ≡ how_many_reading subjects.new) }
    ensures room { IfOk result (λ after. (after ≡ reads) ⊎ (after ≤ MOST_READS)) }
    ensures reads { OnOk result (Reads subjects.old (view_of client.old) (said made.old.items) (view_of client.new) (said made.new.items)
        (how_many_reading subjects.new)) }
    ensures seen { OnOk result (AreSeen now subjects.old subjects.new) }
    ensures broke { OnErr result (BreaksOff (view_of client.old) (view_of client.new)) }
{
    let mut reads = reads;
    for place in places {
        reads = subjects[*place].visit(alloc, client, now, reads, made)?;
    }
    Ok(reads)
}

/// All that wait are read as far as there is room, if there is room left once the subjects at these places were visited.
fn visit_rest<A: Allocator + Copy>(
    alloc: A,
    subjects: &mut [Subject<A>],
    places: &mut Vec<usize, A>,
    waiting: &mut VecDeque<usize, A>,
    client: &mut Client<A>,
    now: u64,
    reads: usize,
    made: &mut Vec<Output<A>, A>,
) -> Result<(), FollowerStop>
    requires counted { All (IsCounted (view_of client.old)) subjects.old }
    requires goes_on { (view_of client.old).standing.halted ≡ false }
    requires ahead { All (λ subject. IsAhead now subject.progress) subjects.old }
    requires count { reads ≡ how_many_reading subjects.old }
    requires ascend { IsAscending places.old.items }
    requires followed { (k : ℕ) (d : Subject A) → k < length subjects.old
        → (is_among k waiting.old.items ≡ false) ⊎ (is_among k places.old.items ≡ true)
        → IsFollowed now (view_of client.old) reads (slice_index_or subjects.old k d) }
    ensures followed { OnOk result (AreFollowed now (view_of client.new) subjects.new) }
    ensures counted { OnOk result (All (IsCounted (view_of client.new)) subjects.new) }
    ensures asks { OnOk result (Asks (view_of client.old) (view_of client.new)) }
    ensures kept { OnOk result ((at : ℕ) → at < length subjects.old
        → (is_among at places.old.items || is_among at waiting.old.items) ≡ true → is_among at places.new.items ≡ true) }
    ensures left { OnOk result (AreSameBut places.new.items subjects.old subjects.new) }
    ensures seen { OnOk result (AreSeen now subjects.old subjects.new) }
    ensures apart { OnOk result ((k : ℕ) (d : Subject A) → is_among k places.old.items ≡ true
        → slice_index_or subjects.new k d ≡ slice_index_or subjects.old k d) }
    ensures room { OnOk result ((how_many_reading subjects.new ≡ reads) ⊎ (how_many_reading subjects.new ≤ MOST_READS)) }
    ensures reads { OnOk result (Reads subjects.old (view_of client.old) (said made.old.items) (view_of client.new) (said made.new.items)
        (how_many_reading subjects.new)) }
    ensures broke { OnErr result (BreaksOff (view_of client.old) (view_of client.new)) }
{
    let mut rest = take_rest(alloc, places.as_slice(), subjects.len(), waiting)?;
    let _after = visit_each(alloc, subjects, rest.as_slice(), client, now, reads, made)?;
    match places.append(&mut rest) {
        Ok(()) => Ok(()),
        Err(_) => Err(FollowerStop::Memory),
    }
}

/// The subjects at these places are read if they are to be read, and as many of those that wait as there is room for. Others rest.
fn visit_due<A: Allocator + Copy>(
    alloc: A,
    subjects: &mut [Subject<A>],
    places: &mut Vec<usize, A>,
    waiting: &mut VecDeque<usize, A>,
    client: &mut Client<A>,
    now: u64,
    reads: usize,
    made: &mut Vec<Output<A>, A>,
) -> Result<(), FollowerStop>
    requires counted { All (IsCounted (view_of client.old)) subjects.old }
    requires goes_on { (view_of client.old).standing.halted ≡ false }
    requires ahead { All (λ subject. IsAhead now subject.progress) subjects.old }
    requires count { reads ≡ how_many_reading subjects.old }
    requires ascend { IsAscending places.old.items }
    requires below { All (λ at. at < length subjects.old) places.old.items }
    requires rest { AreAtRest (view_of client.old) subjects.old (places.old.items ++ waiting.old.items) }
    ensures followed { OnOk result (AreFollowed now (view_of client.new) subjects.new) }
    ensures counted { OnOk result (All (IsCounted (view_of client.new)) subjects.new) }
    ensures asks { OnOk result (Asks (view_of client.old) (view_of client.new)) }
    ensures had { OnOk result ((at : ℕ) → at < length subjects.old → is_among at places.old.items ≡ true
        → is_among at places.new.items ≡ true) }
    ensures kept { OnOk result ((at : ℕ) → at < length subjects.old
        → (is_among at places.old.items || is_among at waiting.old.items) ≡ true
        → (is_among at places.new.items || is_among at waiting.new.items) ≡ true) }
    ensures left { OnOk result (AreSameBut places.new.items subjects.old subjects.new) }
    ensures seen { OnOk result (AreSeen now subjects.old subjects.new) }
    ensures reads { OnOk result (Reads subjects.old (view_of client.old) (said made.old.items) (view_of client.new) (said made.new.items)
        (how_many_reading subjects.new)) }
    ensures broke { OnErr result (BreaksOff (view_of client.old) (view_of client.new)) }
{
    if is_nobody(places.as_slice(), waiting) {
        return Ok(());
    }
    take_first(subjects, client, reads, waiting, places)?;
    let reads = visit_each(alloc, subjects, places.as_slice(), client, now, reads, made)?;
    if !is_room_left(client, reads, waiting) {
        return Ok(());
    }
    visit_rest(alloc, subjects, places, waiting, client, now, reads, made)
}

/// Each subject takes what the client has said. Those at these places are read then if they are to be read, and as many of those that wait
/// as there is room for. Others rest, and the outputs are not about them.
fn visit_all<A: Allocator + Copy>(
    alloc: A,
    subjects: &mut [Subject<A>],
    index: &Index<A>,
    places: &mut Vec<usize, A>,
    waiting: &mut VecDeque<usize, A>,
    client: &mut Client<A>,
    now: u64,
    outputs: &[Output<A>],
    made: &mut Vec<Output<A>, A>,
) -> Result<(), FollowerStop>
    requires counted { All (λ subject. IsCounted (view_of client.old) (heard_all now subject (said outputs.now))) subjects.old }
    requires goes_on { (view_of client.old).standing.halted ≡ false }
    requires sized { 0 < length index.now.keys.buckets.items }
    requires count { index.now.count ≡ length subjects.old }
    requires found { AreFound index.now subjects.old }
    requires ascend { IsAscending places.old.items }
    requires below { All (λ at. at < length subjects.old) places.old.items }
    requires left { AreLeft (view_of client.old) (said outputs.now) subjects.old places.old.items }
    requires rest { AreAtRest (view_of client.old) subjects.old (places.old.items ++ waiting.old.items) }
    ensures followed { OnOk result (AreFollowed now (view_of client.new) subjects.new) }
    ensures counted { OnOk result (All (IsCounted (view_of client.new)) subjects.new) }
    ensures asks { OnOk result (Asks (view_of client.old) (view_of client.new)) }
    ensures had { OnOk result ((at : ℕ) → at < length subjects.old → is_among at places.old.items ≡ true
        → is_among at places.new.items ≡ true) }
    ensures kept { OnOk result ((at : ℕ) → at < length subjects.old
        → (is_among at places.old.items || is_among at waiting.old.items) ≡ true
        → (is_among at places.new.items || is_among at waiting.new.items) ≡ true) }
    ensures left { OnOk result (AreSameBut places.new.items subjects.old subjects.new) }
    ensures reads { OnOk result (Reads subjects.old (view_of client.old) (said made.old.items) (view_of client.new) (said made.new.items)
        (how_many_reading subjects.new)) }
    ensures visited { OnOk result (AreVisited now (said outputs.now) subjects.old subjects.new) }
    ensures broke { OnErr result (BreaksOff (view_of client.old) (view_of client.new)) }
{
    let Ok(()) = take_all(alloc, subjects, index, places.as_slice(), now, outputs) else {
        return Err(FollowerStop::Memory);
    };
    let reads = count_reads(subjects, places.as_slice());
    visit_due(alloc, subjects, places, waiting, client, now, reads, made)
}

/// Hands a client that follows none an input that is noticed at this moment.
fn step_alone<A: Allocator + Copy>(
    _subjects: &[Subject<A>],
    client: &mut Client<A>,
    now: u64,
    input: Input<A>,
    outputs: &mut Vec<Output<A>, A>,
) -> Result<(), FollowerStop>
    requires { length _subjects.now ≡ 0 }
    ensures steps { OnOk result (Steps now (view_of client.old) (input_view input) _subjects.now
        (view_of client.new) (said outputs.new.items) _subjects.now) }
    ensures broke { OnErr result (BreaksOff (view_of client.old) (view_of client.new)) }
{
    match client.step_at_into(now, input, outputs) {
        Ok(()) => Ok(()),
        Err(_) => Err(FollowerStop::Halted),
    }
}

/// Hands the client an input that is noticed at this moment, and reads each subject that is to be read. All are in the index.
fn advance_all<A: Allocator + Copy>(
    alloc: A,
    subjects: &mut [Subject<A>],
    index: &Index<A>,
    awake: &mut Vec<usize, A>,
    waiting: &mut VecDeque<usize, A>,
    client: &mut Client<A>,
    is_foreign: bool,
    now: u64,
    input: Input<A>,
    outputs: &mut Vec<Output<A>, A>,
) -> Result<(), FollowerStop>
    requires counted { All (IsCounted (view_of client.old)) subjects.old }
    requires own { is_foreign ≡ false → AreOwn subjects.old (view_of client.old).pending }
    requires asks { is_foreign ≡ false → asks_to_watch (input_view input) ≡ false }
    requires sized { 0 < length index.now.keys.buckets.items }
    requires count { index.now.count ≡ length subjects.old }
    requires found { AreFound index.now subjects.old }
    requires still { AreStillBut (view_of client.old) index.now.count subjects.old awake.old.items }
    requires rest { AreQuietBut (view_of client.old) index.now.count subjects.old (awake.old.items ++ waiting.old.items) }
    ensures followed { OnOk result (AreFollowed now (view_of client.new) subjects.new) }
    ensures counted { OnOk result (All (IsCounted (view_of client.new)) subjects.new) }
    ensures found { OnOk result (AreFound index.now subjects.new) }
    ensures still { OnOk result (AreStillBut (view_of client.new) index.now.count subjects.new awake.new.items) }
    ensures rest { OnOk result (AreQuietBut (view_of client.new) index.now.count subjects.new (awake.new.items ++ waiting.new.items)) }
    ensures ahead { OnOk result (All (λ subject. IsAhead now subject.progress) subjects.new) }
    ensures steps { OnOk result
        (Steps now (view_of client.old) (input_view input) subjects.old (view_of client.new) (said outputs.new.items) subjects.new) }
    ensures broke { OnErr result (BreaksOff (view_of client.old) (view_of client.new)) }
{
    let Ok(()) = client.step_at_into(now, input, outputs) else {
        return Err(FollowerStop::Halted);
    };
    let heard = outputs.as_slice();
    if is_over(heard, awake.as_slice(), waiting) {
        return Ok(());
    }
    stir(is_foreign, heard, subjects.len(), waiting, awake)?;
    *awake = index.with_those_about(alloc, is_foreign, subjects, awake.as_slice(), heard)?;
    if is_nobody(awake.as_slice(), waiting) {
        return Ok(());
    }
    let mut made = Vec::new(alloc);
    visit_all(
        alloc, subjects, index, awake, waiting, client, now, heard, &mut made,
    )?;
    match outputs.append(&mut made) {
        Ok(()) => Ok(()),
        Err(_) => Err(FollowerStop::Memory),
    }
}

/// The same of subjects that the index may lack. Nothing is done for subjects where there are none.
fn advance<A: Allocator + Copy>(
    alloc: A,
    subjects: &mut [Subject<A>],
    index: &mut Index<A>,
    awake: &mut Vec<usize, A>,
    waiting: &mut VecDeque<usize, A>,
    client: &mut Client<A>,
    is_foreign: bool,
    now: u64,
    input: Input<A>,
    outputs: &mut Vec<Output<A>, A>,
) -> Result<(), FollowerStop>
    requires counted { All (IsCounted (view_of client.old)) subjects.old }
    requires own { is_foreign ≡ false → AreOwn subjects.old (view_of client.old).pending }
    requires asks { is_foreign ≡ false → asks_to_watch (input_view input) ≡ false }
    requires found { AreFound index.old subjects.old }
    requires still { AreStillBut (view_of client.old) index.old.count subjects.old awake.old.items }
    requires rest { AreQuietBut (view_of client.old) index.old.count subjects.old (awake.old.items ++ waiting.old.items) }
    ensures followed { OnOk result (AreFollowed now (view_of client.new) subjects.new) }
    ensures counted { OnOk result (All (IsCounted (view_of client.new)) subjects.new) }
    ensures found { OnOk result (AreFound index.new subjects.new) }
    ensures still { OnOk result (AreStillBut (view_of client.new) index.new.count subjects.new awake.new.items) }
    ensures rest { OnOk result (AreQuietBut (view_of client.new) index.new.count subjects.new (awake.new.items ++ waiting.new.items)) }
    ensures ahead { OnOk result (All (λ subject. IsAhead now subject.progress) subjects.new) }
    ensures steps { OnOk result
        (Steps now (view_of client.old) (input_view input) subjects.old (view_of client.new) (said outputs.new.items) subjects.new) }
    ensures broke { OnErr result (BreaksOff (view_of client.old) (view_of client.new)) }
{
    if subjects.is_empty() {
        return step_alone(subjects, client, now, input, outputs);
    }
    let Ok(()) = fit_all(alloc, subjects, index, awake) else {
        return Err(FollowerStop::Memory);
    };
    advance_all(
        alloc, subjects, index, awake, waiting, client, is_foreign, now, input, outputs,
    )
}

/// Whether a call may be on its way, once this is handed over, that is to leave a watch and is no read of a subject.
fn may_be_foreign<A: Allocator>(is_foreign: bool, input: &Input<A>) -> bool
    ensures before { result ≡ false → is_foreign ≡ false }
    ensures input { result ≡ false → asks_to_watch (input_view input.now) ≡ false }
{
    is_foreign || asks_to_watch(input)
}

/// Whether a call may be on its way still that is to leave a watch and is no read of a subject: not if none is.
fn is_foreign_still<A: Allocator + Copy>(client: &Client<A>, is_foreign: bool) -> bool
    ensures { (subjects : List (Subject A)) → (is_foreign ≡ false → AreOwn subjects (view_of client.now).pending)
        → result ≡ false → AreOwn subjects (view_of client.now).pending }
{
    if !is_foreign {
        return false;
    }
    client.pending_calls() > 0
}

/// The place of the first subject of this ticket.
fn place_of<A: Allocator>(subjects: &[Subject<A>], ticket: u64) -> Option<usize>
    ensures some { IfSome result (λ place. (place < length subjects.now)
        × ((d : Subject A) → (slice_index_or subjects.now place d).ticket ≡ ticket)) }
    ensures none { result ≡ None → All (λ subject. not (subject.ticket == ticket) ≡ true) subjects.now }
{
    for index in 0..subjects.len() {
        if subjects[index].ticket == ticket {
            return Some(index);
        }
    }
    None
}

/// The subject of this ticket is one no more.
fn remove<A: Allocator>(subjects: &mut Vec<Subject<A>, A>, ticket: u64)
    ensures { subjects.new.items ≡ unfollowed ticket subjects.old.items }
{
    while let Some(place) = place_of(subjects.as_slice(), ticket) {
        drop(subjects.remove(place));
    }
}

/// When a subject is read again whose read was refused.
fn again_at<A: Allocator>(subject: &Subject<A>) -> Option<u64>
    ensures { result ≡ again_at subject.now.progress }
{
    match subject.progress {
        Progress::Refused { until, .. } => Some(until),
        _ => None,
    }
}

/// The first of two moments.
fn first_of(moment: Option<u64>, other: Option<u64>) -> Option<u64>
    ensures { result ≡ first_of moment other }
{
    match (moment, other) {
        (Some(moment), Some(other)) => Some(moment.min(other)),
        (Some(moment), None) => Some(moment),
        (None, other) => other,
    }
}

/// The first moment at which one of these is read again.
fn first_again<A: Allocator>(subjects: &[Subject<A>]) -> Option<u64>
    ensures { result ≡ first_again subjects.now }
{
    let mut first = None;
    for subject in subjects {
        first = first_of(first, again_at(subject));
    }
    first
}

/// Whether nothing is due of a client at this moment.
fn is_idle<A: Allocator + Copy>(client: &Client<A>, now: u64) -> bool
    ensures { result ≡ true → NothingIsDue (view_of client.now) now }
{
    match client.deadline() {
        Some(first) => now < first,
        None => true,
    }
}

/// The client is one of another session, which keeps the last seen zxid.
fn begin_client<A: Allocator + Copy>(
    alloc: A,
    client: &mut Client<A>,
    timeout_ms: i32,
) -> Result<(), AllocError>
    requires { pos 0 <ℤ timeout_ms }
    ensures view { OnOk result (view_of client.new ≡ view_at (renewed_start timeout_ms (view_of client.old)) []) }
    ensures same { OnErr result (client.new ≡ client.old) }
{
    let next = client.renewed(alloc, timeout_ms)?;
    drop(mem::replace(client, next));
    Ok(())
}

/// Each of these is to be read.
fn begin_all<A: Allocator>(subjects: &mut [Subject<A>])
    ensures { subjects.new ≡ map due_again subjects.old }
{
    for subject in subjects.iter_mut() {
        subject.begin();
    }
}

/// The first of a moment and that at which the subject at this place is read again, if there is one.
fn first_with<A: Allocator>(
    first: Option<u64>,
    subjects: &[Subject<A>],
    place: usize,
) -> Option<u64>
    ensures there { place < length subjects.now
        → (d : Subject A) → result ≡ first_of first (again_at (slice_index_or subjects.now place d).progress) }
    ensures beyond { length subjects.now ≤ place → result ≡ first }
{
    if place < subjects.len() {
        return first_of(first, again_at(&subjects[place]));
    }
    first
}

/// The first moment at which one of these is read again, if those are due whose places are not among these.
fn first_among<A: Allocator>(subjects: &[Subject<A>], places: &[usize]) -> Option<u64>
    requires { AreDueBut subjects.now places.now }
    ensures { result ≡ first_again subjects.now }
{
    let mut first = None;
    for place in places {
        first = first_with(first, subjects, *place);
    }
    first
}

impl<A: Allocator + Copy> Follower<A> {
    /// A client with no subjects.
    pub fn new(alloc: A, client: Client<A>) -> Follower<A>
        ensures client { view_of result.client ≡ view_of client }
        ensures subjects { result.subjects.items ≡ [] }
    {
        Follower {
            alloc,
            client,
            subjects: Vec::new(alloc),
            index: Index::new(alloc),
            awake: Vec::new(alloc),
            waiting: VecDeque::new(alloc),
            is_foreign: true,
        }
    }

    /// The client.
    pub fn client(&self) -> &Client<A>
        ensures { view_of result.now ≡ view_of self.now.client }
    {
        &self.client
    }

    /// Whether it is known without a look at each that all subjects are quiet: what is kept of them is good, and that was told.
    fn are_quiet(&self) -> bool
        ensures { result ≡ true → AreQuiet (view_of self.now.client) self.now.subjects.items }
    {
        if !self.waiting.is_empty() {
            return false;
        }
        self.awake.is_empty() && self.index.count() == self.subjects.len()
    }

    /// Whether it is known that nothing is due at this moment, neither of the client nor of a subject, and that there is nothing to tell of
    /// any.
    pub fn is_quiet_at(&self, now: u64) -> bool
        ensures due { result ≡ true → NothingIsDue (view_of self.now.client) now }
        ensures quiet { result ≡ true → AreQuiet (view_of self.now.client) self.now.subjects.items }
    {
        self.are_quiet() && is_idle(&self.client, now)
    }

    /// Takes a moment at which it is [quiet](Follower::is_quiet_at), and does what [`step`](Follower::step) does of [`Input::Now`], without
    /// a look at any subject: the client says nothing, and there is nothing to tell. An error is that of a step.
    pub fn pass(&mut self, now: u64, room: &mut Vec<Output<A>, A>) -> Result<(), FollowerStop>
        requires due { NothingIsDue (view_of self.old.client) now }
        requires quiet { AreQuiet (view_of self.old.client) self.old.subjects.items }
        ensures steps { OnOk result (Steps now (view_of self.old.client) (Now now) self.old.subjects.items
            (view_of self.new.client) [] self.old.subjects.items) }
        ensures followed { OnOk result (AreFollowed now (view_of self.new.client) self.old.subjects.items) }
        ensures told { OnOk result (map (told_of (view_of self.new.client)) self.old.subjects.items ≡ self.old.subjects.items) }
        ensures news { OnOk result (flat_map (news_in (view_of self.new.client) []) self.old.subjects.items ≡ []) }
        ensures subjects { OnOk result (self.new.subjects.items ≡ self.old.subjects.items) }
        ensures view { OnOk result (view_of self.new.client ≡ ticked now (view_of self.old.client)) }
        ensures err { OnErr result (self.new.subjects.items ≡ []) }
        ensures broke { OnErr result (BreaksOff (view_of self.old.client) (view_of self.new.client)) }
    {
        let Ok(()) = self.client.tick_into(now, room) else {
            self.index = Index::new(self.alloc);
            self.is_foreign = true;
            self.subjects.clear();
            return Err(FollowerStop::Halted);
        };
        Ok(())
    }

    /// Hands the client an input that is noticed at this moment, and reads each subject that is to be read. The outputs are in order; those
    /// with the ticket of a subject answer its reads, so a refusal is told by one of them.
    ///
    /// An error means that memory ran out. Nothing is followed any more then. The client may have taken turns: what another session can
    /// be resumed from is there.
    pub fn step(&mut self, now: u64, input: Input<A>) -> Result<Vec<Output<A>, A>, FollowerStop>
        ensures followed { OnOk result (AreFollowed now (view_of self.new.client) self.new.subjects.items) }
        ensures ahead { OnOk result (All (λ subject. IsAhead now subject.progress) self.new.subjects.items) }
        ensures steps { IfOk result (λ outputs. Steps now (view_of self.old.client) (input_view input) self.old.subjects.items
            (view_of self.new.client) (said outputs.items) self.new.subjects.items) }
        ensures err { OnErr result (self.new.subjects.items ≡ []) }
        ensures broke { OnErr result (BreaksOff (view_of self.old.client) (view_of self.new.client)) }
    {
        let mut outputs = Vec::new(self.alloc);
        self.step_into(now, input, &mut outputs)?;
        Ok(outputs)
    }

    /// [`step`](Follower::step), whose outputs take the place of those that were given, in the same room.
    pub fn step_into(
        &mut self,
        now: u64,
        input: Input<A>,
        outputs: &mut Vec<Output<A>, A>,
    ) -> Result<(), FollowerStop>
        ensures followed { OnOk result (AreFollowed now (view_of self.new.client) self.new.subjects.items) }
        ensures ahead { OnOk result (All (λ subject. IsAhead now subject.progress) self.new.subjects.items) }
        ensures steps { OnOk result (Steps now (view_of self.old.client) (input_view input) self.old.subjects.items
            (view_of self.new.client) (said outputs.new.items) self.new.subjects.items) }
        ensures err { OnErr result (self.new.subjects.items ≡ []) }
        ensures broke { OnErr result (BreaksOff (view_of self.old.client) (view_of self.new.client)) }
    {
        let is_foreign = may_be_foreign(self.is_foreign, &input);
        let subjects = self.subjects.as_mut_slice();
        match advance(
            self.alloc,
            subjects,
            &mut self.index,
            &mut self.awake,
            &mut self.waiting,
            &mut self.client,
            is_foreign,
            now,
            input,
            outputs,
        ) {
            Ok(()) => {
                self.is_foreign = is_foreign_still(&self.client, is_foreign);
                Ok(())
            }
            Err(stop) => {
                self.index = Index::new(self.alloc);
                self.is_foreign = true;
                self.subjects.clear();
                Err(stop)
            }
        }
    }

    /// Follows a subject, which is read at the next step. The tickets of its reads are this number, which no other call may have, and no
    /// subject that is followed after it. An error means that memory ran out, and nothing has happened then.
    pub fn follow(&mut self, ticket: u64, side: Side, path: Path<A>) -> Result<(), AllocError>
        ensures client { self.new.client ≡ self.old.client }
        ensures subjects { OnOk result (self.new.subjects.items ≡ self.old.subjects.items ++ fresh ticket side path ∷ []) }
        ensures same { OnErr result (self.new.subjects.items ≡ self.old.subjects.items) }
    {
        match self.subjects.push(Subject::new(ticket, side, path)) {
            Ok(()) => Ok(()),
            Err(_) => Err(AllocError),
        }
    }

    /// Follows the subject of this ticket no more. A read of it that is under way is answered to nobody.
    pub fn unfollow(&mut self, ticket: u64)
        ensures client { self.new.client ≡ self.old.client }
        ensures subjects { self.new.subjects.items ≡ unfollowed ticket self.old.subjects.items }
    {
        self.index = Index::new(self.alloc);
        self.awake.clear();
        self.waiting.clear();
        self.is_foreign = is_foreign_still(&self.client, true);
        remove(&mut self.subjects, ticket);
    }

    /// Follows the subjects of these tickets no more, in the time of one pass over all subjects. Reads of them that are under way are
    /// answered to nobody. An error means that memory ran out, and nothing has happened then.
    pub fn unfollow_all(&mut self, tickets: &[u64]) -> Result<(), AllocError>
        ensures client { self.new.client ≡ self.old.client }
        ensures subjects { OnOk result (self.new.subjects.items ≡ unfollowed_all tickets.now self.old.subjects.items) }
        ensures same { OnErr result (self.new.subjects.items ≡ self.old.subjects.items) }
    {
        let gone = Tickets::of(self.alloc, tickets)?;
        let count = self.subjects.len();
        let Ok(()) = pour(&mut self.waiting, count, &mut self.awake) else {
            self.index = Index::new(self.alloc);
            return Err(AllocError);
        };
        let awake = awake_left(
            self.alloc,
            self.subjects.as_slice(),
            &gone,
            self.index.count(),
            self.awake.as_slice(),
        )?;
        remove_all(&mut self.subjects, &gone);
        let (index, awake) = index_of(self.alloc, self.subjects.as_slice(), awake);
        self.index = index;
        self.awake = awake;
        self.is_foreign = is_foreign_still(&self.client, true);
        Ok(())
    }

    /// What is kept of the subjects is doubted, as when a server shows another epoch: from the next step on each is read once more, whether
    /// or not that is good, and that it is good is told with the reply.
    pub fn doubt_all(&mut self)
        ensures client { self.new.client ≡ self.old.client }
        ensures subjects { self.new.subjects.items ≡ map doubted self.old.subjects.items }
    {
        self.index = Index::new(self.alloc);
        self.awake.clear();
        self.waiting.clear();
        let subjects = self.subjects.as_mut_slice();
        doubt_each(subjects);
    }

    /// The answer to the read of this ticket was too long, so that the connection was given up. The subject counts as refused: it is read
    /// again after a second, and after a minute where that was told of it last.
    pub fn refuse(&mut self, now: u64, ticket: u64)
        ensures client { self.new.client ≡ self.old.client }
        ensures subjects { self.new.subjects.items ≡ map (too_long_for now ticket) self.old.subjects.items }
        ensures followed { AreFollowed now (view_of self.old.client) self.old.subjects.items
            → AreFollowed now (view_of self.new.client) self.new.subjects.items }
    {
        self.index = Index::new(self.alloc);
        self.awake.clear();
        self.waiting.clear();
        self.is_foreign = is_foreign_still(&self.client, true);
        let subjects = self.subjects.as_mut_slice();
        refuse_all(subjects, now, ticket);
    }

    /// Takes the stale answers out of what the client keeps. What is good stays, so each subject stays followed. It takes no memory.
    pub fn forget_stale(&mut self)
        ensures view { view_of self.new.client ≡ record (view_of self.old.client) { cache = forgotten (view_of self.old.client).cache } }
        ensures stands { (start : Start) (items : List Item) → Stands start items (view_of self.old.client)
            → Stands start (Forgets ∷ items) (view_of self.new.client) }
        ensures subjects { self.new.subjects ≡ self.old.subjects }
        ensures followed { (now : ℕ) → AreFollowed now (view_of self.old.client) self.old.subjects.items
            → AreFollowed now (view_of self.new.client) self.new.subjects.items }
    {
        self.client.forget_stale();
    }

    /// The first moment at which a subject is read again whose read was refused: at the latest then a step is due.
    pub fn deadline(&self) -> Option<u64>
        ensures { result ≡ first_again self.now.subjects.items }
    {
        let subjects = self.subjects.as_slice();
        if self.index.count() < subjects.len() {
            return first_again(subjects);
        }
        first_among(subjects, self.awake.as_slice())
    }

    /// What there is to tell of each subject since the call before this one, with its ticket, after what `all` has. These outputs are those
    /// that the steps have given since then. An error means that memory ran out.
    pub fn report_all(
        &mut self,
        outputs: &[Output<A>],
        all: &mut Vec<(u64, News), A>,
    ) -> Result<(), AllocError>
        ensures client { self.new.client ≡ self.old.client }
        ensures news { OnOk result
            (all.new.items ≡ all.old.items ++ flat_map (news_in (view_of self.old.client) (said outputs.now)) self.old.subjects.items) }
        ensures told { OnOk result (self.new.subjects.items ≡ map (told_of (view_of self.old.client)) self.old.subjects.items) }
        ensures err { OnErr result (self.new.subjects.items ≡ []) }
    {
        let subjects = self.subjects.as_mut_slice();
        match tell_all(
            self.alloc,
            subjects,
            &mut self.index,
            &mut self.awake,
            &mut self.waiting,
            &self.client,
            outputs,
            all,
        ) {
            Ok(()) => Ok(()),
            Err(fault) => {
                self.index = Index::new(self.alloc);
                self.is_foreign = true;
                self.subjects.truncate(0);
                Err(fault)
            }
        }
    }

    /// Another session begins, with this timeout in milliseconds, as where the one before has expired. The client keeps the last seen zxid
    /// and nothing else. The subjects go on: each is read as soon as a server has accepted the session. An error means that memory ran
    /// out, and nothing has happened then.
    pub fn renew(&mut self, timeout_ms: i32) -> Result<(), AllocError>
        requires { pos 0 <ℤ timeout_ms }
        ensures client { OnOk result (view_of self.new.client ≡ view_at (renewed_start timeout_ms (view_of self.old.client)) []) }
        ensures subjects { OnOk result (self.new.subjects.items ≡ map due_again self.old.subjects.items) }
        ensures followed { OnOk result ((now : ℕ) → AreFollowed now (view_of self.new.client) self.new.subjects.items) }
        ensures same_client { OnErr result (self.new.client ≡ self.old.client) }
        ensures same_subjects { OnErr result (self.new.subjects ≡ self.old.subjects) }
    {
        begin_client(self.alloc, &mut self.client, timeout_ms)?;
        self.index = Index::new(self.alloc);
        self.awake.clear();
        self.waiting.clear();
        let subjects = self.subjects.as_mut_slice();
        begin_all(subjects);
        Ok(())
    }
}
