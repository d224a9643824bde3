//! What a contender hears of its calls.

ghost use Rattle.std.specs.Prelude.{◌≡◌, true, IfOk, OnErr, OnOk};
ghost use Rattle.zk_records.specs.Codes.{code_number};
ghost use Rattle.zk_conversation.specs.Views.{code_result};
ghost use Rattle.zk_client.specs.Views.{call_result_view, outcome_view};
ghost use Rattle.zk_contend.specs.Settling.{cleared, fenced, is_gone, left_by, lost, own_read};
ghost use Rattle.zk_contend.specs.Settling.{unlisted, unlisted_by, Becomes, Hears, IsListed, IsListedAt};
ghost use Rattle.zk_contend.specs.inner.Abouts.{is_about_place};

use crate::contender::LockContender;
use crate::listed::listed_of;
use crate::made::{entered, made};
use crate::place::{Ask, Place};
use crate::settled::looked;
use std::alloc::{AllocError, Allocator};
use zk_client::{CallResult, JoinedTexts, Outcome};

/// The place after the barrier: each earlier create was before it.
fn fenced<A: Allocator>(outcome: &Outcome<A>) -> Option<Place<A>>
    ensures { result ≡ fenced (outcome_view outcome.now) }
{
    match outcome {
        Outcome::Replied { zxid, .. } => Some(Place::Looking { answered: *zxid }),
        _ => None,
    }
}

/// Whether a delete, or a read, was answered so that the node is not there.
fn is_gone<A: Allocator>(reply: &CallResult<A>) -> bool
    ensures { result ≡ is_gone (call_result_view reply.now) }
{
    match reply {
        CallResult::Done => true,
        CallResult::Code(code) => code.is_no_node(),
        _ => false,
    }
}

/// The place after a delete of a node too many.
fn cleared<A: Allocator>(outcome: &Outcome<A>) -> Option<Place<A>>
    ensures { result ≡ cleared (outcome_view outcome.now) }
{
    match outcome {
        Outcome::Replied { zxid, result } => {
            if is_gone(result) {
                return Some(Place::Looking { answered: *zxid });
            }
            None
        }
        _ => None,
    }
}

/// The place after a delete of it.
fn left_by<A: Allocator>(outcome: &Outcome<A>) -> Option<Place<A>>
    ensures { result ≡ left_by (outcome_view outcome.now) }
{
    match outcome {
        Outcome::Replied { result, .. } => {
            if is_gone(result) {
                return Some(Place::Left);
            }
            None
        }
        _ => None,
    }
}

/// The place after a read of it: whether it is not there, or is another session's.
fn own_read<A: Allocator>(session: i64, outcome: &Outcome<A>) -> Option<Place<A>>
    ensures { result ≡ own_read session (outcome_view outcome.now) }
{
    match outcome {
        Outcome::Replied {
            result: CallResult::Data { stat, .. },
            ..
        } if stat.ephemeral_owner != session => Some(Place::Entering),
        Outcome::Replied {
            result: CallResult::Code(code),
            ..
        } if code.is_no_node() => Some(Place::Entering),
        _ => None,
    }
}

impl<A: Allocator + Copy> LockContender<A> {
    /// The place after an answer that is about it; none if it stays as it was.
    fn next_place(
        &self,
        session: i64,
        ask: Ask,
        outcome: &Outcome<A>,
    ) -> Result<Option<Place<A>>, AllocError>
        ensures { IfOk result (λ next. Becomes session self.now self.now.place ask (outcome_view outcome.now) next) }
    {
        let (alloc, front) = (self.alloc, self.front.as_str());
        match (&self.place, ask) {
            (Place::Making { path }, Ask::Make) => made(alloc, &self.directory, path, outcome),
            (Place::Entering, Ask::Enter) => {
                entered(alloc, &self.directory, front, self.is_given_up, outcome)
            }
            (Place::Unsure, Ask::Fence) => Ok(fenced(outcome)),
            (Place::Looking { answered }, Ask::Look) => {
                let answered = *answered;
                looked(
                    alloc,
                    &self.directory,
                    front,
                    self.is_given_up,
                    answered,
                    outcome,
                )
            }
            (Place::Clearing { .. }, Ask::Clear) => Ok(cleared(outcome)),
            (Place::At { .. }, Ask::ReadOwn) => Ok(own_read(session, outcome)),
            (Place::Leaving { .. }, Ask::Leave) => Ok(left_by(outcome)),
            _ => Ok(None),
        }
    }

    /// Hears an answer that is about the place.
    fn hear_of_place(
        &mut self,
        session: i64,
        ask: Ask,
        outcome: &Outcome<A>,
    ) -> Result<(), AllocError>
        requires { is_about_place ask ≡ true }
        ensures heard { OnOk result (Hears session self.old ask (outcome_view outcome.now) self.new.place) }
        ensures same { OnErr result (self.new ≡ self.old) }
        ensures rest { self.new ≡ record self.old { place = self.new.place } }
    {
        let next = self.next_place(session, ask, outcome)?;
        if let Some(place) = next {
            self.place = place;
        }
        Ok(())
    }

    /// The directory is to be listed again, if the place is known.
    pub(crate) fn forget_listing(&mut self)
        ensures { self.new ≡ record self.old { place = unlisted self.old.place } }
    {
        if let Place::At { own: _, listing } = &mut self.place {
            *listing = None;
        }
    }

    /// Hears of a read of one that it waits for: whether that is not there, or is not for this session to read.
    fn hear_of_behind(&mut self, outcome: &Outcome<A>)
        ensures { self.new ≡ record self.old { place = unlisted_by (outcome_view outcome.now) self.old.place } }
    {
        if let Outcome::Replied {
            result: CallResult::Code(_),
            ..
        } = outcome
        {
            self.forget_listing();
        }
    }

    /// The place is not there any more, if it was.
    pub(crate) fn lose(&mut self)
        ensures { self.new ≡ record self.old { place = lost self.old.place } }
    {
        if let Place::At { .. } = &self.place {
            self.place = Place::Entering;
        }
    }

    /// Keeps a listing, if the place is known.
    fn list(&mut self, names: JoinedTexts<A>, zxid: i64) -> Result<(), AllocError>
        ensures listed { OnOk result (IsListedAt self.old.directory self.old.naming names zxid self.old.place self.new.place) }
        ensures same { OnErr result (self.new ≡ self.old) }
        ensures rest { self.new ≡ record self.old { place = self.new.place } }
    {
        let Place::At { own, listing } = &mut self.place else {
            return Ok(());
        };
        let listed = listed_of(self.alloc, &self.directory, self.naming, own, names, zxid)?;
        *listing = Some(listed);
        Ok(())
    }

    /// Hears of a listing.
    fn hear_of_names(&mut self, outcome: Outcome<A>) -> Result<(), AllocError>
        ensures listed { OnOk result (IsListed self.old.directory self.old.naming (outcome_view outcome) self.old.place
            self.new.place) }
        ensures same { OnErr result (self.new ≡ self.old) }
        ensures rest { self.new ≡ record self.old { place = self.new.place } }
    {
        match outcome {
            Outcome::Replied {
                zxid,
                result: CallResult::Names { names, stat: _stat },
            } => self.list(names, zxid),
            Outcome::Replied {
                result: CallResult::Code(code),
                ..
            } => {
                if code.is_no_node() {
                    self.lose();
                }
                Ok(())
            }
            _ => Ok(()),
        }
    }

    /// Hears the answer to what was asked.
    pub(crate) fn take_in(
        &mut self,
        session: i64,
        ask: Ask,
        outcome: Outcome<A>,
    ) -> Result<(), AllocError>
        ensures heard { OnOk result (Hears session self.old ask (outcome_view outcome) self.new.place) }
        ensures same { OnErr result (self.new ≡ self.old) }
        ensures rest { self.new ≡ record self.old { place = self.new.place } }
    {
        match ask {
            Ask::List => self.hear_of_names(outcome),
            Ask::ReadBehind { .. } => {
                self.hear_of_behind(&outcome);
                Ok(())
            }
            _ => self.hear_of_place(session, ask, &outcome),
        }
    }
}
