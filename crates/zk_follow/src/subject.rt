//! One subject that is followed.

ghost use Rattle.std.specs.Prelude.{◌≡◌, ◌≢◌, ◌≤◌, ◌<◌, ◌+◌, ◌++◌, ◌^◌, cond, true, false, ℕ, Bool, List, None, IfOk, OnErr, OnOk};
ghost use Rattle.zk_session.specs.declared.states.State.TheVariants.{Connected};
ghost use Rattle.zk_conversation.specs.Questions.{question_of};
ghost use Rattle.zk_conversation.specs.Views.{call_view};
ghost use Rattle.zk_turns.specs.Turns.{Call as Calls, Output as Said};
ghost use Rattle.zk_turns.specs.Rule.{Rule};
ghost use Rattle.zk_client.specs.Clients.{view_of};
ghost use Rattle.zk_client.specs.Views.{output_view, said};
ghost use Rattle.zk_follow.specs.Following.{doubted, fresh, heard, heard_all, is_reading, read_of, rested, due_again, woken};
ghost use Rattle.zk_follow.specs.inner.Following.{Asks};
ghost use Rattle.zk_follow.specs.Following.{BreaksOff, IsAhead, IsBusy, IsCounted, IsFollowed};
ghost use Rattle.zk_follow.specs.declared.reads.TheConstants.{MOST_READS};
ghost use Rattle.zk_follow.specs.inner.Following.{VisitsAnd};
ghost use Rattle.zk_follow.specs.Following.{is_awaited, is_due, is_quiet, is_resting, is_still, is_sure};

use crate::kept::{holds, is_shown};
use crate::news::{News, was_shown};
use crate::progress::{
    Progress, doubted_after, entered, missing_after, progress_after, there_after,
};
use crate::reads::{MOST_READS, read_of};
use crate::stop::FollowerStop;
use std::alloc::Allocator;
use zk_client::{Call, Client, Input, MOST_PENDING, Output, Path, Side, State};

/// A subject that is followed, and how far its reading is.
#[derive(Drop)]
pub struct Subject<A: Allocator> {
    pub(crate) ticket: u64,
    pub(crate) side: Side,
    pub(crate) path: Path<A>,
    pub(crate) progress: Progress,
    pub(crate) is_missing: bool,
    pub(crate) is_there: bool,
    pub(crate) is_doubted: bool,
    pub(crate) told: Option<News>,
}

/// Whether there is room for a read beside these.
pub(crate) fn has_room<A: Allocator + Copy>(client: &Client<A>, reads: usize) -> bool
    ensures yes { result ≡ true → reads < MOST_READS }
    ensures no { result ≡ false → IsBusy (view_of client.now) reads }
{
    if MOST_READS as usize <= reads {
        return false;
    }
    client.pending_calls() < MOST_PENDING
}

/// Whether a server has accepted the connection.
pub(crate) fn is_connected<A: Allocator + Copy>(client: &Client<A>) -> bool
    ensures yes { result ≡ true → (view_of client.now).standing.state ≡ Connected }
    ensures no { result ≡ false → (view_of client.now).standing.state ≢ Connected }
{
    matches!(client.state(), State::Connected)
}

impl<A: Allocator> Subject<A> {
    /// A subject that is to be read. The tickets of its reads are this number.
    pub(crate) fn new(ticket: u64, side: Side, path: Path<A>) -> Subject<A>
        ensures { result ≡ fresh ticket side path }
    {
        Subject {
            ticket,
            side,
            path,
            progress: Progress::Due,
            is_missing: false,
            is_there: false,
            is_doubted: false,
            told: None,
        }
    }

    /// Takes what an output says of the reads of the subject.
    pub(crate) fn hear_one(&mut self, now: u64, output: &Output<A>)
        ensures { self.new ≡ heard now self.old (output_view output.now) }
    {
        match output {
            Output::Answer { ticket, outcome } => {
                if self.ticket == *ticket {
                    self.progress = progress_after(now, self.is_there, outcome);
                    self.is_doubted = doubted_after(self.is_missing, self.is_doubted, outcome);
                    self.is_there = there_after(self.is_missing, self.is_there, outcome);
                    self.is_missing = missing_after(self.is_missing, outcome);
                }
            }
            Output::State(_) => {
                self.progress = entered(self.progress);
                self.is_there = false;
            }
            Output::Report { path, .. } => {
                if path.as_str() == self.path.as_str() {
                    self.is_there = false;
                }
            }
            _ => {}
        }
    }

    /// Hears what the client has said at this moment.
    fn note_outputs(&mut self, now: u64, outputs: &[Output<A>])
        ensures { self.new ≡ heard_all now self.old (said outputs.now) }
    {
        for output in outputs {
            self.hear_one(now, output);
        }
    }

    /// A refusal is over whose moment has come.
    pub(crate) fn wake(&mut self, now: u64)
        ensures { self.new ≡ woken now self.old }
    {
        if let Progress::Refused { until, .. } = self.progress {
            if until <= now {
                self.progress = Progress::Due;
            }
        }
    }

    /// What is kept of the subject is doubted: it is to be read once more, whether or not that is good.
    pub(crate) fn doubt(&mut self)
        ensures { self.new ≡ doubted self.old }
    {
        self.is_doubted = true;
    }

    /// The subject is to be read: another session begins.
    pub(crate) fn begin(&mut self)
        ensures { self.new ≡ due_again self.old }
    {
        self.progress = Progress::Due;
        self.is_there = false;
    }
}

impl<A: Allocator + Copy> Subject<A> {
    /// How many are being read, with this one.
    pub(crate) fn count_read(&self, reads: usize) -> usize
        requires { reads + 1 < 2 ^ 64 }
        ensures { result ≡ reads + cond (is_reading self.now.progress) 1 0 }
    {
        if matches!(self.progress, Progress::Reading) {
            return reads + 1;
        }
        reads
    }

    /// Asks by this call, which reads the subject. The answer is how many are being read then.
    fn ask(
        &mut self,
        client: &mut Client<A>,
        now: u64,
        reads: usize,
        call: Call<A>,
        made: &mut Vec<Output<A>, A>,
    ) -> Result<usize, FollowerStop>
        requires read { (is_missing : Bool) × (question_of (call_view call) ≡ read_of self.old.side is_missing self.old.path) }
        requires connected { (view_of client.old).standing.state ≡ Connected }
        requires room { reads < MOST_READS }
        ensures followed { OnOk result ((reads : ℕ) → IsFollowed now (view_of client.new) reads self.new) }
        ensures counted { OnOk result (IsCounted (view_of client.new) self.new) }
        ensures asks { OnOk result (Asks (view_of client.old) (view_of client.new)) }
        ensures count { IfOk result (λ after. after ≡ reads + cond (is_reading self.new.progress) 1 0) }
        ensures asked { OnOk result ((outputs : List Said)
            × Rule (view_of client.old) (record { input = Calls self.old.ticket (call_view call); outputs = outputs }) (view_of client.new)
            × (self.new ≡ heard_all now (record self.old { progress = Progress.Reading }) outputs)
            × (said made.new.items ≡ said made.old.items ++ outputs)) }
        ensures broke { OnErr result (BreaksOff (view_of client.old) (view_of client.new)) }
    {
        self.progress = Progress::Reading;
        let Ok(mut outputs) = client.step(Input::Call(self.ticket, call)) else {
            return Err(FollowerStop::Halted);
        };
        self.note_outputs(now, outputs.as_slice());
        match made.append(&mut outputs) {
            Ok(()) => Ok(self.count_read(reads)),
            Err(_) => Err(FollowerStop::Memory),
        }
    }

    /// Whether the subject is to be read at once, where what is kept of it is not good and the client is connected.
    fn is_unread(&self) -> bool
        ensures is { result ≡ is_due self.now.progress }
        ensures yes { result ≡ true → self.now.progress ≡ Progress.Due }
        ensures no { result ≡ false → self.now.progress ≢ Progress.Due }
    {
        matches!(self.progress, Progress::Due)
    }

    /// Whether what is kept of the subject is good, and not doubted.
    pub(crate) fn is_sure(&self, client: &Client<A>) -> bool
        ensures { result ≡ is_sure (view_of client.now) self.now }
    {
        !self.is_doubted && is_shown(client, self.side, &self.path)
    }

    /// What is kept of the subject is sure.
    fn rest(&mut self)
        ensures { self.new ≡ rested self.old }
    {
        self.is_missing = false;
        self.is_there = false;
        if !matches!(self.progress, Progress::Reading) {
            self.progress = Progress::Due;
        }
    }

    /// Whether the subject rests, which is sure only where it says so.
    fn is_at_rest(&self, client: &Client<A>) -> bool
        ensures { result ≡ true → is_resting (view_of client.now) self.now ≡ true }
    {
        self.is_unread()
            && !self.is_missing
            && !self.is_there
            && !self.is_doubted
            && client.is_watched(self.side, &self.path)
            && holds(client, self.side, &self.path)
    }

    /// Whether the subject is to be read, and what is kept of it is not sure.
    pub(crate) fn is_awaited(&self, client: &Client<A>) -> bool
        ensures { result ≡ is_awaited (view_of client.now) self.now }
    {
        self.is_unread() && !self.is_sure(client)
    }

    /// Whether a step may pass the subject over until there is room for a read of it, and there is nothing to tell of it.
    pub(crate) fn is_waiting(&self, client: &Client<A>) -> bool
        ensures { result ≡ true → is_still (view_of client.now) self.now ≡ true }
    {
        !was_shown(self.told) && self.is_awaited(client)
    }

    /// Whether the subject rests and that was told last. It may say no of one that is quiet.
    pub(crate) fn is_quiet(&self, client: &Client<A>) -> bool
        ensures { result ≡ true → is_quiet (view_of client.now) self.now ≡ true }
    {
        was_shown(self.told) && self.is_at_rest(client)
    }

    /// Reads the subject if it is to be read and there is room. The answer is how many are being read then.
    pub(crate) fn visit(
        &mut self,
        alloc: A,
        client: &mut Client<A>,
        now: u64,
        reads: usize,
        made: &mut Vec<Output<A>, A>,
    ) -> Result<usize, FollowerStop>
        requires counted { IsCounted (view_of client.old) self.old }
        requires goes_on { (view_of client.old).standing.halted ≡ false }
        requires ahead { IsAhead now self.old.progress }
        ensures followed { IfOk result (λ after. IsFollowed now (view_of client.new) after self.new) }
        ensures counted { OnOk result (IsCounted (view_of client.new) self.new) }
        ensures asks { OnOk result (Asks (view_of client.old) (view_of client.new)) }
        ensures more { IfOk result (λ after. reads ≤ after) }
        ensures count { IfOk result
            (λ after. after + cond (is_reading self.old.progress) 1 0 ≡ reads + cond (is_reading self.new.progress) 1 0) }
        ensures visits { IfOk result (λ after. VisitsAnd now (view_of client.old) (said made.old.items) reads self.old
            (view_of client.new) (said made.new.items) after self.new) }
        ensures broke { OnErr result (BreaksOff (view_of client.old) (view_of client.new)) }
    {
        if !has_room(client, reads) {
            return Ok(reads);
        }
        if self.is_sure(client) {
            self.rest();
            return Ok(reads);
        }
        if !is_connected(client) {
            return Ok(reads);
        }
        if !self.is_unread() {
            return Ok(reads);
        }
        match read_of(alloc, self.side, self.is_missing, &self.path) {
            Ok(call) => Ok(self.ask(client, now, reads, call, made)?),
            Err(_) => Err(FollowerStop::Memory),
        }
    }
}
