//! What there is to tell of a subject.

ghost use Rattle.std.specs.Prelude.{◌≡◌, ◌<◌, ◌++◌, ◌||◌, All, ℕ, length, map, false, true, IfOk, OnOk, slice_index_or};
ghost use Rattle.std.specs.List.{flat_map, list_any};
ghost use Rattle.zk_client.specs.Clients.{view_of};
ghost use Rattle.zk_client.specs.Views.{output_view, said};
ghost use Rattle.zk_follow.specs.Following.{is_reported, is_same, news_about, news_in, news_list, told_after, told_of};
ghost use Rattle.zk_follow.specs.Following.{was_refused, was_shown};
ghost use Rattle.zk_follow.specs.Following.{is_quiet, is_still, AreQuietBut, AreStillBut};
ghost use Rattle.zk_follow.specs.Following.{is_among};
ghost use Rattle.zk_follow.specs.Places.{AreFound};
ghost use Rattle.zk_follow.specs.inner.Places.{IsAscending};
ghost use Rattle.zk_follow.specs.inner.Reported.{AreReported};
ghost use Rattle.zk_follow.specs.inner.Resting.{is_report, AreTold};

use crate::index::{Index, fit_all};
use crate::progress::{Progress, Refusal};
use crate::queue::put_last;
use crate::reported::Reported;
use crate::subject::Subject;
use std::alloc::{AllocError, Allocator};
use std::collections::VecDeque;
use zk_client::{Client, Output, Path};

/// What there is to tell of a subject.
#[derive(Clone, Copy)]
pub enum News {
    /// What is kept of it is good. It was not, or its path was reported since that was told last, or it was doubted and is read again.
    Shown,
    /// Its read was refused, and not for the reason that was told last.
    Refused(Refusal),
}

/// Whether two reasons are one.
fn is_same(why: Refusal, other: Refusal) -> bool
    ensures { result ≡ is_same why other }
{
    match (why, other) {
        (Refusal::Code(code), Refusal::Code(other)) => code == other,
        (Refusal::TooManyWatches, Refusal::TooManyWatches) => true,
        (Refusal::TooLarge, Refusal::TooLarge) => true,
        (Refusal::SessionClosed, Refusal::SessionClosed) => true,
        _ => false,
    }
}

/// Whether it was told last that what is kept is good.
pub(crate) fn was_shown(told: Option<News>) -> bool
    ensures { result ≡ was_shown told }
{
    matches!(told, Some(News::Shown))
}

/// Whether this reason was told last.
fn was_refused(why: Refusal, told: Option<News>) -> bool
    ensures { result ≡ was_refused why told }
{
    match told {
        Some(News::Refused(other)) => is_same(why, other),
        _ => false,
    }
}

/// What there is to tell.
fn news_about(
    is_sure: bool,
    is_reported: bool,
    progress: Progress,
    told: Option<News>,
) -> Option<News>
    ensures { result ≡ news_about is_sure is_reported progress told }
{
    if is_sure {
        if was_shown(told) && !is_reported {
            return None;
        }
        return Some(News::Shown);
    }
    match progress {
        Progress::Refused { why, .. } => {
            if was_refused(why, told) {
                return None;
            }
            Some(News::Refused(why))
        }
        _ => None,
    }
}

/// What was told last, after that.
fn told_after(is_sure: bool, progress: Progress, told: Option<News>) -> Option<News>
    ensures { result ≡ told_after is_sure progress told }
{
    if is_sure {
        return Some(News::Shown);
    }
    match progress {
        Progress::Refused { why, .. } => Some(News::Refused(why)),
        _ => {
            if was_shown(told) {
                return None;
            }
            told
        }
    }
}

/// Whether an output is a report.
fn is_report<A: Allocator>(output: &Output<A>) -> bool
    ensures { result ≡ is_report (output_view output.now) }
{
    matches!(output, Output::Report { .. })
}

/// Whether one of these outputs is a report.
fn has_report<A: Allocator>(outputs: &[Output<A>]) -> bool
    ensures { result ≡ list_any is_report (said outputs.now) }
{
    outputs.iter().any(|output| is_report(output))
}

/// Whether the client has reported a path, where it is known whether it has reported any, and which.
fn is_reported_where<A: Allocator + Copy>(
    has_report: bool,
    reported: &Reported<A>,
    path: &Path<A>,
    outputs: &[Output<A>],
) -> bool
    requires has_report { has_report ≡ list_any is_report (said outputs.now) }
    requires reported { reported.now.is_few ≡ false → AreReported reported.now (said outputs.now) }
    ensures { result ≡ is_reported path.now (said outputs.now) }
{
    has_report && reported.is_there(path, outputs)
}

/// Adds what there is to tell, if there is something, with the ticket of the subject.
fn add_news<A: Allocator>(
    all: &mut Vec<(u64, News), A>,
    ticket: u64,
    news: Option<News>,
) -> Result<(), AllocError>
    ensures { OnOk result (all.new.items ≡ all.old.items ++ news_list ticket news) }
{
    if let Some(news) = news {
        all.push((ticket, news))?;
    }
    Ok(())
}

impl<A: Allocator + Copy> Subject<A> {
    /// Adds what there is to tell of the subject, with its ticket. It counts as told from then on.
    fn report(
        &mut self,
        client: &Client<A>,
        has_report: bool,
        reported: &Reported<A>,
        outputs: &[Output<A>],
        all: &mut Vec<(u64, News), A>,
    ) -> Result<(), AllocError>
        requires has_report { has_report ≡ list_any is_report (said outputs.now) }
        requires reported { reported.now.is_few ≡ false → AreReported reported.now (said outputs.now) }
        ensures news { OnOk result (all.new.items ≡ all.old.items ++ news_in (view_of client.now) (said outputs.now) self.old) }
        ensures told { self.new ≡ told_of (view_of client.now) self.old }
    {
        let is_sure = self.is_sure(client);
        let is_reported = is_reported_where(has_report, reported, &self.path, outputs);
        let news = news_about(is_sure, is_reported, self.progress, self.told);
        self.told = told_after(is_sure, self.progress, self.told);
        add_news(all, self.ticket, news)
    }
}

/// Adds what there is to tell of those at these places, with their tickets, in order. Of others there is nothing to tell.
fn tell_each<A: Allocator + Copy>(
    alloc: A,
    subjects: &mut [Subject<A>],
    places: &[usize],
    client: &Client<A>,
    outputs: &[Output<A>],
    all: &mut Vec<(u64, News), A>,
) -> Result<(), AllocError>
    requires ascend { IsAscending places.now }
    requires below { All (λ at. at < length subjects.old) places.now }
    requires told { AreTold (view_of client.now) (said outputs.now) subjects.old places.now }
    ensures news { OnOk result (all.new.items ≡ all.old.items ++ flat_map (news_in (view_of client.now) (said outputs.now)) subjects.old) }
    ensures told { OnOk result (subjects.new ≡ map (told_of (view_of client.now)) subjects.old) }
{
    if places.is_empty() {
        return Ok(());
    }
    let has_report = has_report(outputs);
    let reported = Reported::of(alloc, outputs)?;
    for place in places {
        subjects[*place].report(client, has_report, &reported, outputs, all)?;
    }
    Ok(())
}

/// Adds the place of a subject to those that are awake if it may not be still, and to those that wait if it waits.
fn add_awake<A: Allocator + Copy>(
    subject: &Subject<A>,
    place: usize,
    client: &Client<A>,
    awake: &mut Vec<usize, A>,
    waiting: &mut VecDeque<usize, A>,
) -> Result<(), AllocError>
    ensures had { OnOk result ((at : ℕ) → is_among at awake.old.items ≡ true → is_among at awake.new.items ≡ true) }
    ensures kept { OnOk result ((at : ℕ) → is_among at waiting.old.items ≡ true → is_among at waiting.new.items ≡ true) }
    ensures here { OnOk result (is_among place awake.new.items ≡ false → is_still (view_of client.now) subject.now ≡ true) }
    ensures quiet { OnOk result ((is_among place awake.new.items || is_among place waiting.new.items) ≡ false
        → is_quiet (view_of client.now) subject.now ≡ true) }
{
    if subject.is_quiet(client) {
        return Ok(());
    }
    if subject.is_waiting(client) {
        return put_last(waiting, place);
    }
    match awake.push(place) {
        Ok(()) => Ok(()),
        Err(_) => Err(AllocError),
    }
}

/// Of these places those whose subjects may not be still. Those that wait are added to the queue.
fn awake_among<A: Allocator + Copy>(
    alloc: A,
    subjects: &[Subject<A>],
    places: &[usize],
    client: &Client<A>,
    waiting: &mut VecDeque<usize, A>,
) -> Result<Vec<usize, A>, AllocError>
    requires { All (λ at. at < length subjects.now) places.now }
    ensures kept { OnOk result ((at : ℕ) → is_among at waiting.old.items ≡ true → is_among at waiting.new.items ≡ true) }
    ensures still { IfOk result (λ awake. (k : ℕ) (d : Subject A) → k < length subjects.now → is_among k places.now ≡ true
        → is_among k awake.items ≡ false → is_still (view_of client.now) (slice_index_or subjects.now k d) ≡ true) }
    ensures quiet { IfOk result (λ awake. (k : ℕ) (d : Subject A) → k < length subjects.now → is_among k places.now ≡ true
        → (is_among k awake.items || is_among k waiting.new.items) ≡ false
        → is_quiet (view_of client.now) (slice_index_or subjects.now k d) ≡ true) }
{
    let mut awake = Vec::new(alloc);
    for place in places {
        add_awake(&subjects[*place], *place, client, &mut awake, waiting)?;
    }
    Ok(awake)
}

/// Whether no place is awake, and no output is a report: then there is nothing to tell.
fn is_silent<A: Allocator>(awake: &[usize], outputs: &[Output<A>]) -> bool
    ensures awake { result ≡ true → length awake.now ≡ 0 }
    ensures outputs { result ≡ true → list_any is_report (said outputs.now) ≡ false }
{
    if has_report(outputs) {
        return false;
    }
    awake.is_empty()
}

/// Adds what there is to tell of each subject, with its ticket, in order. These outputs were made since the call before this one. Those
/// that are not awake are still, before and after it, and those that do not wait either are quiet.
pub(crate) fn tell_all<A: Allocator + Copy>(
    alloc: A,
    subjects: &mut [Subject<A>],
    index: &mut Index<A>,
    awake: &mut Vec<usize, A>,
    waiting: &mut VecDeque<usize, A>,
    client: &Client<A>,
    outputs: &[Output<A>],
    all: &mut Vec<(u64, News), A>,
) -> Result<(), AllocError>
    requires found { AreFound index.old subjects.old }
    requires still { AreStillBut (view_of client.now) index.old.count subjects.old awake.old.items }
    requires rest { AreQuietBut (view_of client.now) index.old.count subjects.old (awake.old.items ++ waiting.old.items) }
    ensures news { OnOk result (all.new.items ≡ all.old.items ++ flat_map (news_in (view_of client.now) (said outputs.now)) subjects.old) }
    ensures told { OnOk result (subjects.new ≡ map (told_of (view_of client.now)) subjects.old) }
    ensures found { OnOk result (AreFound index.new subjects.new) }
    ensures still { OnOk result (AreStillBut (view_of client.now) index.new.count subjects.new awake.new.items) }
    ensures rest { OnOk result (AreQuietBut (view_of client.now) index.new.count subjects.new (awake.new.items ++ waiting.new.items)) }
{
    if subjects.is_empty() {
        return Ok(());
    }
    fit_all(alloc, subjects, index, awake)?;
    if is_silent(awake.as_slice(), outputs) {
        return Ok(());
    }
    let places = index.with_named(alloc, subjects, awake.as_slice(), outputs)?;
    tell_each(alloc, subjects, places.as_slice(), client, outputs, all)?;
    *awake = awake_among(alloc, subjects, places.as_slice(), client, waiting)?;
    Ok(())
}
