//! Which subjects outputs name, found in a time that does not rise with the number of subjects.

ghost use Rattle.std.specs.Prelude.{◌≡◌, ◌==◌, ◌<◌, ◌+◌, ◌++◌, ◌-◌, ◌^◌, ◌&&◌, ℕ, All, List, true, length};
ghost use Rattle.std.specs.Prelude.{bytes_eq, slice_index_or, IfOk, OnOk};
ghost use Rattle.std.specs.List.{list_any};
ghost use Rattle.zk_client.specs.Views.{outcome_view, output_view, said};
ghost use Rattle.zk_follow.specs.inner.Resting.{is_about, is_beside, is_reply};
ghost use Rattle.zk_follow.specs.inner.Owning.{is_of};
ghost use Rattle.zk_follow.specs.Places.{has_place, key_of, AreFound};
ghost use Rattle.zk_follow.specs.inner.Places.{is_heard_by, is_named, HasEach, IsAscending};
ghost use Rattle.zk_follow.specs.Following.{AreQuietBut, AreStillBut};
ghost use Rattle.zk_follow.specs.Following.{is_among};
ghost use Rattle.zk_turns.specs.View.{View};

use crate::about::{has_one_about_all, is_reply};
use crate::places::{Places, add_below, add_if, all_below, key_of, put_in_order};
use crate::subject::Subject;
use std::alloc::{AllocError, Allocator};
use zk_client::{Outcome, Output};

/// Whether there is a subject at a place that has this ticket.
fn has_ticket<A: Allocator>(subjects: &[Subject<A>], place: usize, ticket: u64) -> bool
    ensures { place < length subjects.now → (d : Subject A) → result ≡ ((slice_index_or subjects.now place d).ticket == ticket) }
{
    if place < subjects.len() {
        return subjects[place].ticket == ticket;
    }
    false
}

/// Whether there is a subject at a place that has this path.
fn has_path<A: Allocator>(subjects: &[Subject<A>], place: usize, path: &str) -> bool
    ensures { place < length subjects.now → (d : Subject A) → result ≡ bytes_eq path.now (slice_index_or subjects.now place d).path }
{
    if place < subjects.len() {
        return path == subjects[place].path.as_str();
    }
    false
}

/// The places of the first subjects by their tickets, and by the keys of their paths.
#[derive(Drop)]
pub(crate) struct Index<A: Allocator + Copy> {
    keys: Places<A>,
    count: usize,
}

impl<A: Allocator + Copy> Index<A> {
    /// An index of no subject.
    pub(crate) fn new(alloc: A) -> Index<A>
        ensures { result.count ≡ 0 }
    {
        Index {
            keys: Places::new(alloc),
            count: 0,
        }
    }

    /// How many subjects it is of.
    pub(crate) fn count(&self) -> usize
        ensures { result ≡ self.now.count }
    {
        self.count
    }

    /// Adds the next subject. An error means that memory ran out.
    fn add(&mut self, subject: &Subject<A>) -> Result<(), AllocError>
        requires sized { 0 < length self.old.keys.buckets.items }
        requires fits { self.old.count < 2 ^ 64 - 1 }
        ensures size { length self.new.keys.buckets.items ≡ length self.old.keys.buckets.items }
        ensures count { OnOk result (self.new.count ≡ self.old.count + 1) }
        ensures ticket { OnOk result (has_place self.new.keys subject.now.ticket self.old.count ≡ true) }
        ensures path { OnOk result (has_place self.new.keys (key_of subject.now.path) self.old.count ≡ true) }
        ensures kept { OnOk result ((key at : ℕ) → has_place self.old.keys key at ≡ true → has_place self.new.keys key at ≡ true) }
    {
        self.keys.put(subject.ticket, self.count)?;
        self.keys.put(key_of(subject.path.as_str()), self.count)?;
        self.count += 1;
        Ok(())
    }

    /// Adds the subjects that are not in it. An error means that memory ran out.
    fn add_all(&mut self, subjects: &[Subject<A>]) -> Result<(), AllocError>
        requires sized { 0 < length self.old.keys.buckets.items }
        requires found { AreFound self.old subjects.now }
        ensures sized { OnOk result (0 < length self.new.keys.buckets.items) }
        ensures count { OnOk result (self.new.count ≡ length subjects.now) }
        ensures found { OnOk result (AreFound self.new subjects.now) }
    {
        while self.count < subjects.len() {
            self.add(&subjects[self.count])?;
        }
        Ok(())
    }

    /// Makes room for all of these, of which it is an index of the first: more buckets than subjects. An error means that memory ran out.
    fn grow(&mut self, alloc: A, subjects: &[Subject<A>]) -> Result<(), AllocError>
        requires { AreFound self.old subjects.now }
        ensures sized { OnOk result (0 < length self.new.keys.buckets.items) }
        ensures found { OnOk result (AreFound self.new subjects.now) }
    {
        if subjects.len() < self.keys.size() {
            return Ok(());
        }
        let size = subjects.len().saturating_mul(2).saturating_add(16);
        self.keys = Places::sized(alloc, size)?;
        self.count = 0;
        Ok(())
    }

    /// Becomes an index of all of these, of which it is one of the first. An error means that memory ran out.
    pub(crate) fn fit(&mut self, alloc: A, subjects: &[Subject<A>]) -> Result<(), AllocError>
        requires { AreFound self.old subjects.now }
        ensures sized { OnOk result (0 < length self.new.keys.buckets.items) }
        ensures count { OnOk result (self.new.count ≡ length subjects.now) }
        ensures found { OnOk result (AreFound self.new subjects.now) }
    {
        self.grow(alloc, subjects)?;
        self.add_all(subjects)
    }

    /// Adds the places of those that have this ticket.
    fn add_by_ticket(
        &self,
        subjects: &[Subject<A>],
        ticket: u64,
        all: &mut Vec<usize, A>,
    ) -> Result<(), AllocError>
        requires sized { 0 < length self.now.keys.buckets.items }
        requires found { AreFound self.now subjects.now }
        ensures below { OnOk result (All (λ at. at < self.now.count) all.old.items → All (λ at. at < self.now.count) all.new.items) }
        ensures had { OnOk result ((at : ℕ) → at < self.now.count → is_among at all.old.items ≡ true → is_among at all.new.items ≡ true) }
        ensures each { OnOk result (HasEach (λ subject. subject.ticket == ticket) self.now.count subjects.now all.new.items) }
    {
        let places = self.keys.at(ticket);
        for place in places {
            let is_sought = has_ticket(subjects, *place, ticket);
            add_if(is_sought, *place, self.count, all)?;
        }
        Ok(())
    }

    /// Adds the places of those that have this path.
    fn add_by_path(
        &self,
        subjects: &[Subject<A>],
        path: &str,
        all: &mut Vec<usize, A>,
    ) -> Result<(), AllocError>
        requires sized { 0 < length self.now.keys.buckets.items }
        requires found { AreFound self.now subjects.now }
        ensures below { OnOk result (All (λ at. at < self.now.count) all.old.items → All (λ at. at < self.now.count) all.new.items) }
        ensures had { OnOk result ((at : ℕ) → at < self.now.count → is_among at all.old.items ≡ true → is_among at all.new.items ≡ true) }
        ensures each { OnOk result (HasEach (λ subject. bytes_eq path.now subject.path) self.now.count subjects.now all.new.items) }
    {
        let places = self.keys.at(key_of(path));
        for place in places {
            let is_sought = has_path(subjects, *place, path);
            add_if(is_sought, *place, self.count, all)?;
        }
        Ok(())
    }

    /// Adds the places of those that an output names: by the ticket of an answer, or the path of a report.
    fn add_named(
        &self,
        subjects: &[Subject<A>],
        output: &Output<A>,
        all: &mut Vec<usize, A>,
    ) -> Result<(), AllocError>
        requires sized { 0 < length self.now.keys.buckets.items }
        requires found { AreFound self.now subjects.now }
        ensures below { OnOk result (All (λ at. at < self.now.count) all.old.items → All (λ at. at < self.now.count) all.new.items) }
        ensures had { OnOk result ((at : ℕ) → at < self.now.count → is_among at all.old.items ≡ true → is_among at all.new.items ≡ true) }
        ensures named { OnOk result (HasEach (λ subject. is_named subject.ticket subject.path (output_view output.now))
            self.now.count subjects.now all.new.items) }
    {
        match output {
            Output::Answer { ticket, .. } => self.add_by_ticket(subjects, *ticket, all),
            Output::Report { path, .. } => self.add_by_path(subjects, path.as_str(), all),
            _ => Ok(()),
        }
    }

    /// Adds the places of those that outputs name.
    fn add_all_named(
        &self,
        subjects: &[Subject<A>],
        outputs: &[Output<A>],
        all: &mut Vec<usize, A>,
    ) -> Result<(), AllocError>
        requires sized { 0 < length self.now.keys.buckets.items }
        requires found { AreFound self.now subjects.now }
        ensures below { OnOk result (All (λ at. at < self.now.count) all.old.items → All (λ at. at < self.now.count) all.new.items) }
        ensures had { OnOk result ((at : ℕ) → at < self.now.count → is_among at all.old.items ≡ true → is_among at all.new.items ≡ true) }
        ensures named { OnOk result (HasEach (λ subject. list_any (is_named subject.ticket subject.path) (said outputs.now))
            self.now.count subjects.now all.new.items) }
    {
        for output in outputs {
            self.add_named(subjects, output, all)?;
        }
        Ok(())
    }

    /// The places of those that an output names, in order. An error means that memory ran out.
    fn named_by(
        &self,
        alloc: A,
        subjects: &[Subject<A>],
        output: &Output<A>,
    ) -> Result<Vec<usize, A>, AllocError>
        requires sized { 0 < length self.now.keys.buckets.items }
        requires found { AreFound self.now subjects.now }
        ensures ascend { IfOk result (λ all. IsAscending all.items) }
        ensures below { IfOk result (λ all. All (λ at. at < self.now.count) all.items) }
        ensures named { IfOk result (λ all. HasEach (λ subject. is_named subject.ticket subject.path (output_view output.now))
            self.now.count subjects.now all.items) }
    {
        let mut all = Vec::new(alloc);
        self.add_named(subjects, output, &mut all)?;
        put_in_order(&mut all);
        Ok(all)
    }

    /// The places of those that may hear an output, in order: of all at another state. An error means that memory ran out.
    pub(crate) fn hearing(
        &self,
        alloc: A,
        subjects: &[Subject<A>],
        output: &Output<A>,
    ) -> Result<Vec<usize, A>, AllocError>
        requires sized { 0 < length self.now.keys.buckets.items }
        requires found { AreFound self.now subjects.now }
        ensures ascend { IfOk result (λ all. IsAscending all.items) }
        ensures below { IfOk result (λ all. All (λ at. at < self.now.count) all.items) }
        ensures hear { IfOk result (λ all. HasEach (λ subject. is_heard_by subject.ticket subject.path (output_view output.now))
            self.now.count subjects.now all.items) }
    {
        match output {
            Output::Answer { .. } | Output::Report { .. } => self.named_by(alloc, subjects, output),
            Output::State(_) => all_below(alloc, self.count),
            _ => Ok(Vec::new(alloc)),
        }
    }

    /// The places of these, and of those that outputs name. An error means that memory ran out.
    fn with_those_named(
        &self,
        alloc: A,
        subjects: &[Subject<A>],
        places: &[usize],
        outputs: &[Output<A>],
    ) -> Result<Vec<usize, A>, AllocError>
        requires sized { 0 < length self.now.keys.buckets.items }
        requires found { AreFound self.now subjects.now }
        ensures below { IfOk result (λ all. All (λ at. at < self.now.count) all.items) }
        ensures had { IfOk result (λ all. (at : ℕ) → at < self.now.count → is_among at places.now ≡ true → is_among at all.items ≡ true) }
        ensures named { IfOk result (λ all. HasEach (λ subject. list_any (is_named subject.ticket subject.path) (said outputs.now))
            self.now.count subjects.now all.items) }
    {
        let mut all = Vec::new(alloc);
        add_below(places, self.count, &mut all)?;
        self.add_all_named(subjects, outputs, &mut all)?;
        Ok(all)
    }

    /// The same, in order.
    pub(crate) fn with_named(
        &self,
        alloc: A,
        subjects: &[Subject<A>],
        places: &[usize],
        outputs: &[Output<A>],
    ) -> Result<Vec<usize, A>, AllocError>
        requires sized { 0 < length self.now.keys.buckets.items }
        requires found { AreFound self.now subjects.now }
        ensures ascend { IfOk result (λ all. IsAscending all.items) }
        ensures below { IfOk result (λ all. All (λ at. at < self.now.count) all.items) }
        ensures had { IfOk result (λ all. (at : ℕ) → at < self.now.count → is_among at places.now ≡ true → is_among at all.items ≡ true) }
        ensures named { IfOk result (λ all. HasEach (λ subject. list_any (is_named subject.ticket subject.path) (said outputs.now))
            self.now.count subjects.now all.items) }
    {
        let mut all = self.with_those_named(alloc, subjects, places, outputs)?;
        put_in_order(&mut all);
        Ok(all)
    }

    /// Adds the places of those that have the path of a subject at one of these places.
    fn add_by_paths(
        &self,
        subjects: &[Subject<A>],
        places: &[usize],
        all: &mut Vec<usize, A>,
    ) -> Result<(), AllocError>
        requires sized { 0 < length self.now.keys.buckets.items }
        requires found { AreFound self.now subjects.now }
        requires within { All (λ at. at < length subjects.now) places.now }
        ensures below { OnOk result (All (λ at. at < self.now.count) all.old.items → All (λ at. at < self.now.count) all.new.items) }
        ensures had { OnOk result ((at : ℕ) → at < self.now.count → is_among at all.old.items ≡ true → is_among at all.new.items ≡ true) }
        ensures each { OnOk result ((k : ℕ) (d : Subject A) → is_among k places.now ≡ true
            → HasEach (λ subject. bytes_eq (slice_index_or subjects.now k d).path subject.path) self.now.count subjects.now all.new.items) }
    {
        for place in places {
            let subject = &subjects[*place];
            self.add_by_path(subjects, subject.path.as_str(), all)?;
        }
        Ok(())
    }

    /// Adds the places of those that have the path of a subject of this ticket.
    fn add_siblings(
        &self,
        alloc: A,
        subjects: &[Subject<A>],
        ticket: u64,
        all: &mut Vec<usize, A>,
    ) -> Result<(), AllocError>
        requires sized { 0 < length self.now.keys.buckets.items }
        requires count { self.now.count ≡ length subjects.now }
        requires found { AreFound self.now subjects.now }
        ensures below { OnOk result (All (λ at. at < self.now.count) all.old.items → All (λ at. at < self.now.count) all.new.items) }
        ensures had { OnOk result ((at : ℕ) → at < self.now.count → is_among at all.old.items ≡ true → is_among at all.new.items ≡ true) }
        ensures siblings { OnOk result (HasEach (λ subject. is_of subjects.now ticket subject.path)
            self.now.count subjects.now all.new.items) }
    {
        let mut own = Vec::new(alloc);
        self.add_by_ticket(subjects, ticket, &mut own)?;
        self.add_by_paths(subjects, own.as_slice(), all)
    }

    /// Adds the places of those beside which a call of this ticket is answered by its reply.
    fn add_answered(
        &self,
        alloc: A,
        subjects: &[Subject<A>],
        ticket: u64,
        outcome: &Outcome<A>,
        all: &mut Vec<usize, A>,
    ) -> Result<(), AllocError>
        requires sized { 0 < length self.now.keys.buckets.items }
        requires count { self.now.count ≡ length subjects.now }
        requires found { AreFound self.now subjects.now }
        ensures below { OnOk result (All (λ at. at < self.now.count) all.old.items → All (λ at. at < self.now.count) all.new.items) }
        ensures had { OnOk result ((at : ℕ) → at < self.now.count → is_among at all.old.items ≡ true → is_among at all.new.items ≡ true) }
        ensures beside { OnOk result (HasEach (λ subject. is_reply (outcome_view outcome.now) && is_of subjects.now ticket subject.path)
            self.now.count subjects.now all.new.items) }
    {
        if is_reply(outcome) {
            return self.add_siblings(alloc, subjects, ticket, all);
        }
        Ok(())
    }

    /// Adds the places of those beside which an output is a reply.
    fn add_beside(
        &self,
        alloc: A,
        subjects: &[Subject<A>],
        output: &Output<A>,
        all: &mut Vec<usize, A>,
    ) -> Result<(), AllocError>
        requires sized { 0 < length self.now.keys.buckets.items }
        requires count { self.now.count ≡ length subjects.now }
        requires found { AreFound self.now subjects.now }
        ensures below { OnOk result (All (λ at. at < self.now.count) all.old.items → All (λ at. at < self.now.count) all.new.items) }
        ensures had { OnOk result ((at : ℕ) → at < self.now.count → is_among at all.old.items ≡ true → is_among at all.new.items ≡ true) }
        ensures beside { OnOk result (HasEach (λ subject. is_beside subjects.now subject.path (output_view output.now))
            self.now.count subjects.now all.new.items) }
    {
        match output {
            Output::Answer { ticket, outcome } => {
                self.add_answered(alloc, subjects, *ticket, outcome, all)
            }
            _ => Ok(()),
        }
    }

    /// Adds the places of those beside which outputs are replies.
    fn add_all_beside(
        &self,
        alloc: A,
        subjects: &[Subject<A>],
        outputs: &[Output<A>],
        all: &mut Vec<usize, A>,
    ) -> Result<(), AllocError>
        requires sized { 0 < length self.now.keys.buckets.items }
        requires count { self.now.count ≡ length subjects.now }
        requires found { AreFound self.now subjects.now }
        ensures below { OnOk result (All (λ at. at < self.now.count) all.old.items → All (λ at. at < self.now.count) all.new.items) }
        ensures had { OnOk result ((at : ℕ) → at < self.now.count → is_among at all.old.items ≡ true → is_among at all.new.items ≡ true) }
        ensures beside { OnOk result (HasEach (λ subject. list_any (is_beside subjects.now subject.path) (said outputs.now))
            self.now.count subjects.now all.new.items) }
    {
        for output in outputs {
            self.add_beside(alloc, subjects, output, all)?;
        }
        Ok(())
    }

    /// The places of these, and of those that outputs may be about, in order. An error means that memory ran out.
    pub(crate) fn with_those_about(
        &self,
        alloc: A,
        is_foreign: bool,
        subjects: &[Subject<A>],
        places: &[usize],
        outputs: &[Output<A>],
    ) -> Result<Vec<usize, A>, AllocError>
        requires sized { 0 < length self.now.keys.buckets.items }
        requires count { self.now.count ≡ length subjects.now }
        requires found { AreFound self.now subjects.now }
        ensures ascend { IfOk result (λ all. IsAscending all.items) }
        ensures below { IfOk result (λ all. All (λ at. at < self.now.count) all.items) }
        ensures had { IfOk result (λ all. (at : ℕ) → at < self.now.count → is_among at places.now ≡ true → is_among at all.items ≡ true) }
        ensures about { IfOk result (λ all. HasEach
            (λ subject. list_any (is_about is_foreign subjects.now subject.ticket subject.path) (said outputs.now))
            self.now.count subjects.now all.items) }
        ensures beside { IfOk result (λ all. HasEach (λ subject. list_any (is_beside subjects.now subject.path) (said outputs.now))
            self.now.count subjects.now all.items) }
    {
        if has_one_about_all(is_foreign, outputs) {
            return all_below(alloc, self.count);
        }
        let mut all = self.with_those_named(alloc, subjects, places, outputs)?;
        // A reply is beside those of its ticket alone.
        if all.is_empty() {
            return Ok(all);
        }
        self.add_all_beside(alloc, subjects, outputs, &mut all)?;
        put_in_order(&mut all);
        Ok(all)
    }
}

/// Adds the subjects that the index lacks to it, and to those that may not be quiet. An error means that memory ran out.
pub(crate) fn fit_all<A: Allocator + Copy>(
    alloc: A,
    subjects: &[Subject<A>],
    index: &mut Index<A>,
    awake: &mut Vec<usize, A>,
) -> Result<(), AllocError>
    requires some { 0 < length subjects.now }
    requires found { AreFound index.old subjects.now }
    ensures sized { OnOk result (0 < length index.new.keys.buckets.items) }
    ensures count { OnOk result (index.new.count ≡ length subjects.now) }
    ensures found { OnOk result (AreFound index.new subjects.now) }
    ensures still { OnOk result ((view : View) → AreStillBut view index.old.count subjects.now awake.old.items
        → AreStillBut view index.new.count subjects.now awake.new.items) }
    ensures rest { OnOk result ((view : View) (waiting : List ℕ)
        → AreQuietBut view index.old.count subjects.now (awake.old.items ++ waiting)
        → AreQuietBut view index.new.count subjects.now (awake.new.items ++ waiting)) }
{
    let known = index.count();
    if known == subjects.len() {
        return Ok(());
    }
    index.fit(alloc, subjects)?;
    for place in known..subjects.len() {
        awake.push(place)?;
    }
    Ok(())
}
