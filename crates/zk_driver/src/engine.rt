//! An agent with the connection that it has, and what its program is told.

ghost use Rattle.std.specs.Prelude.{◌≡◌, ◌≤◌, ◌<◌, ◌+◌, ◌++◌, ◌∷◌, ◌-◌, [], ℕ, None, fold, is_some, false, true, IfNone, IfOk, OnErr, OnOk};
ghost use Rattle.std.specs.List.{filter};
ghost use Rattle.zk_agent.specs.Agents.{IsBroken, NothingAt};
ghost use Rattle.zk_agent.specs.Telling.{action_view, told_by};
ghost use Rattle.zk_agent.specs.declared.input.AgentInput.TheVariants as happens;
ghost use Rattle.zk_driver.specs.Driving.{carried, channel_view, closed, course_of, is_passed, Extends, Goes, Hands, IsOverdue};
ghost use Rattle.zk_driver.specs.inner.Driving.{input_of};
ghost use Rattle.zk_driver.specs.Driving.{IsPatient, IsSeen, IsTimely};
ghost use Rattle.zk_driver.specs.inner.Driving.{IsTaken, Notes};
ghost use Rattle.zk_driver.specs.Noting.{notes_in, Made, Missed, Lost, GoesBy};
ghost use Rattle.zk_driver.specs.inner.Noting.{notes_of_event};
ghost use Rattle.zk_driver.specs.Flowing.{bytes_in, flow_of, Flows};
ghost use Rattle.zk_driver.specs.inner.Flowing.{HandsOver};

use crate::channel::{Attempt, Channel};
use crate::stop::Stop;
use crate::turn::Event;
use crate::wait::wait_between;
use std::alloc::{AllocError, Allocator};
use std::collections::VecDeque;
use zk_agent::{Action, Agent, AgentInput};
use zk_link::{Brought, Stream};

/// The most reads of what a connection has before a moment is told, if something was due before it.
pub(crate) const MOST_READS: u32 = 64;

/// An agent, the connection that it has, and the actions that its program is to be given, in order.
#[derive(Drop)]
pub(crate) struct Engine<A: Allocator + Copy, S: Drop> {
    pub(crate) agent: Agent<A>,
    pub(crate) channel: Channel<A, S>,
    pub(crate) waiting: VecDeque<Action<A>, A>,
}

/// Why an agent stops.
fn stop_of(stop: zk_follow::FollowerStop) -> Stop {
    match stop {
        zk_follow::FollowerStop::Halted => Stop::Halted,
        zk_follow::FollowerStop::Memory => Stop::Memory,
    }
}

/// An action waits for the program, after those that do.
fn keep<A: Allocator>(
    action: Action<A>,
    waiting: &mut VecDeque<Action<A>, A>,
) -> Result<(), AllocError>
    ensures waiting { OnOk result (told_by waiting.new.items ≡ told_by waiting.old.items ++ action_view action ∷ []) }
    ensures kept { Extends (told_by waiting.old.items) (told_by waiting.new.items) }
{
    waiting.push_back(action).map_err(AllocError::from)
}

/// Does what an action asks for about the connection; any other waits for the program.
fn carry<A: Allocator + Copy, S: Stream>(
    action: Action<A>,
    channel: &mut Channel<A, S>,
    waiting: &mut VecDeque<Action<A>, A>,
) -> Result<(), AllocError>
    ensures channel { OnOk result (channel_view channel.new ≡ carried (channel_view channel.old) (action_view action)) }
    ensures stays { is_some channel.new.stream ≡ true → channel.new.stream ≡ channel.old.stream }
    ensures waiting { OnOk result (told_by waiting.new.items ≡ told_by waiting.old.items ++ filter is_passed (action_view action ∷ [])) }
    ensures kept { Extends (told_by waiting.old.items) (told_by waiting.new.items) }
{
    match action {
        Action::Dial { place, within_ms } => {
            channel.ask(Attempt { place, within_ms });
            Ok(())
        }
        Action::HangUp => {
            channel.close();
            Ok(())
        }
        Action::Send(bytes) => channel.queue(bytes.as_slice()),
        passed => keep(passed, waiting),
    }
}

/// Does what actions ask for about the connection, in order; the others wait for the program.
fn carry_all<A: Allocator + Copy, S: Stream>(
    actions: Vec<Action<A>, A>,
    channel: &mut Channel<A, S>,
    waiting: &mut VecDeque<Action<A>, A>,
) -> Result<(), AllocError>
    ensures channel { OnOk result (channel_view channel.new ≡ fold carried (channel_view channel.old) (told_by actions.items)) }
    ensures stays { is_some channel.new.stream ≡ true → channel.new.stream ≡ channel.old.stream }
    ensures waiting { OnOk result (told_by waiting.new.items ≡ told_by waiting.old.items ++ filter is_passed (told_by actions.items)) }
    ensures kept { Extends (told_by waiting.old.items) (told_by waiting.new.items) }
{
    let mut left = VecDeque::from_vec(actions);
    while let Some(action) = left.pop_front() {
        carry(action, channel, waiting)?;
    }
    Ok(())
}

impl<A: Allocator + Copy, S: Stream> Engine<A, S> {
    /// Of an agent that has no connection. Nothing waits for the program.
    pub(crate) fn new(alloc: A, agent: Agent<A>) -> Engine<A, S>
        ensures agent { result.agent ≡ agent }
        ensures channel { channel_view result.channel ≡ closed }
        ensures waiting { result.waiting.items ≡ [] }
    {
        Engine {
            agent,
            channel: Channel::new(alloc),
            waiting: VecDeque::new(alloc),
        }
    }

    /// Hands the agent an input that was noticed at this moment, and does what it says. The answer is the moment. That a write has failed
    /// is seen by the next read.
    pub(crate) fn hand(&mut self, now: u64, input: AgentInput<A>) -> Result<u64, Stop>
        requires { IsPatient now input (course_of self.old None) }
        ensures hands { OnOk result (Hands input (course_of self.old None) (course_of self.new None)) }
        ensures flows { OnOk result
            (HandsOver input (flow_of S.remaining S.contents S.far S.state self.old None)
            (flow_of S.remaining S.contents S.far S.state self.new None)) }
        ensures told { IfOk result (λ moment. moment ≤ self.new.agent.latest) }
        ensures noted { OnOk result (now ≤ self.new.agent.latest) }
        ensures kept { Extends (told_by self.old.waiting.items) (told_by self.new.waiting.items) }
        ensures broke { OnErr result (IsBroken self.old.agent self.new.agent) }
    {
        let actions = match self.agent.step(now, input) {
            Ok(actions) => actions,
            Err(stop) => return Err(stop_of(stop)),
        };
        let Ok(()) = carry_all(actions, &mut self.channel, &mut self.waiting) else {
            return Err(Stop::Memory);
        };
        self.channel.flush();
        Ok(now)
    }

    /// The connection that was asked for is there.
    pub(crate) fn open(&mut self, now: u64, stream: S) -> Result<u64, Stop>
        requires attempt { is_some self.old.channel.attempt ≡ true }
        requires begins { S.far.begins (S.state stream) }
        ensures goes { OnOk result (GoesBy (Made ∷ []) (course_of self.old None) (course_of self.new None)) }
        ensures notes { OnOk result (Notes happens.Opened (course_of self.old None) (course_of self.new None)) }
        ensures flows { OnOk result (Flows (flow_of S.remaining S.contents S.far S.state self.old None)
            (flow_of S.remaining S.contents S.far S.state self.new None)) }
        ensures told { IfOk result (λ moment. moment ≤ self.new.agent.latest) }
        ensures kept { Extends (told_by self.old.waiting.items) (told_by self.new.waiting.items) }
        ensures broke { OnErr result (IsBroken self.old.agent self.new.agent) }
    {
        self.channel.hold(stream);
        self.hand(now, AgentInput::Opened)
    }

    /// The connection that was asked for could not be made.
    pub(crate) fn fail(&mut self, now: u64) -> Result<u64, Stop>
        requires { is_some self.old.channel.attempt ≡ true }
        ensures goes { OnOk result (GoesBy (Missed ∷ []) (course_of self.old None) (course_of self.new None)) }
        ensures notes { OnOk result (Notes happens.Failed (course_of self.old None) (course_of self.new None)) }
        ensures flows { OnOk result (Flows (flow_of S.remaining S.contents S.far S.state self.old None)
            (flow_of S.remaining S.contents S.far S.state self.new None)) }
        ensures told { IfOk result (λ moment. moment ≤ self.new.agent.latest) }
        ensures noted { OnOk result (now ≤ self.new.agent.latest) }
        ensures kept { Extends (told_by self.old.waiting.items) (told_by self.new.waiting.items) }
        ensures broke { OnErr result (IsBroken self.old.agent self.new.agent) }
    {
        self.channel.close();
        self.hand(now, AgentInput::Failed)
    }

    /// The connection is over, and the agent is told so with the moment of bytes: when it was over is not known if the program was
    /// stopped or was away, and a server that has ended a connection was not silent.
    fn end(&mut self, now: u64) -> Result<u64, Stop>
        requires none { self.old.channel.attempt ≡ None }
        requires open { is_some self.old.channel.stream ≡ true }
        ensures goes { OnOk result (GoesBy (Lost ∷ []) (course_of self.old None) (course_of self.new None)) }
        ensures notes { OnOk result (Notes happens.Cut (course_of self.old None) (course_of self.new None)) }
        ensures flows { OnOk result (Flows (flow_of S.remaining S.contents S.far S.state self.old None)
            (flow_of S.remaining S.contents S.far S.state self.new None)) }
        ensures shut { OnOk result (is_some self.new.channel.stream ≡ false) }
        ensures told { IfOk result (λ moment. moment ≤ self.new.agent.latest) }
        ensures kept { Extends (told_by self.old.waiting.items) (told_by self.new.waiting.items) }
        ensures broke { OnErr result (IsBroken self.old.agent self.new.agent) }
    {
        let moment = self.moment_of_bytes(now);
        self.channel.close();
        self.hand(moment, AgentInput::Cut)
    }

    /// The connection is over. If the agent was told that with a moment before this one, this one is told after it, unless an address is
    /// to be dialled. The answer is the moment that was told last.
    fn cut(&mut self, now: u64) -> Result<u64, Stop>
        requires none { self.old.channel.attempt ≡ None }
        requires open { is_some self.old.channel.stream ≡ true }
        ensures goes { OnOk result (GoesBy (Lost ∷ []) (course_of self.old None) (course_of self.new None)) }
        ensures notes { OnOk result (Notes happens.Cut (course_of self.old None) (course_of self.new None)) }
        ensures flows { OnOk result (Flows (flow_of S.remaining S.contents S.far S.state self.old None)
            (flow_of S.remaining S.contents S.far S.state self.new None)) }
        ensures told { IfOk result (λ moment. moment ≤ self.new.agent.latest) }
        ensures kept { Extends (told_by self.old.waiting.items) (told_by self.new.waiting.items) }
        ensures broke { OnErr result (IsBroken self.old.agent self.new.agent) }
    {
        let told = self.end(now)?;
        if told == now {
            return Ok(told);
        }
        self.catch_up(now, told)
    }

    /// Nothing has come but a moment.
    pub(crate) fn pass_moment(&mut self, now: u64) -> Result<u64, Stop>
        requires none { self.old.channel.attempt ≡ None }
        requires timely { IsTimely now (course_of self.old None) }
        ensures goes { OnOk result (GoesBy [] (course_of self.old None) (course_of self.new None)) }
        ensures notes { OnOk result (Notes happens.Moment (course_of self.old None) (course_of self.new None)) }
        ensures flows { OnOk result (Flows (flow_of S.remaining S.contents S.far S.state self.old None)
            (flow_of S.remaining S.contents S.far S.state self.new None)) }
        ensures told { IfOk result (λ moment. moment ≤ self.new.agent.latest) }
        ensures noted { OnOk result (now ≤ self.new.agent.latest) }
        ensures kept { Extends (told_by self.old.waiting.items) (told_by self.new.waiting.items) }
        ensures broke { OnErr result (IsBroken self.old.agent self.new.agent) }
    {
        self.hand(now, AgentInput::Moment)
    }

    /// How many milliseconds may be waited from one moment to another: an hour at most, and until something is due; none if either is
    /// past.
    pub(crate) fn wait_ms(&self, now: u64, until: u64) -> u64
        ensures most { result ≤ 3600000 }
        ensures end { 0 < result → now + result ≤ until }
        ensures quiet { 0 < result → (moment : ℕ) → moment < now + result → NothingAt self.now.agent moment }
    {
        match self.agent.deadline() {
            Some(first) => wait_between(now, until.min(first)),
            None => wait_between(now, until),
        }
    }

    /// Whether something was due at this moment, or before it.
    fn is_due(&self, moment: u64) -> bool
        ensures yes { result ≡ true → IsOverdue self.now.agent moment }
        ensures no { result ≡ false → NothingAt self.now.agent moment }
    {
        match self.agent.deadline() {
            Some(first) => first <= moment,
            None => false,
        }
    }

    /// Whether the last read began if something was due already, and brought nothing, or was the last of as many as are made in a row.
    fn has_seen(&self) -> bool
        ensures { result ≡ true → IsSeen self.now.agent self.now.channel.looked }
    {
        match self.channel.looked {
            Some(look) => MOST_READS <= look.row || look.is_quiet && self.is_due(look.began),
            None => false,
        }
    }

    /// Whether the connection that is there is to be read before this moment is told: something was due on it before that, as when the
    /// program was stopped or was away, and what it has may be of use.
    fn is_to_be_read(&self, now: u64) -> bool
        ensures yes { result ≡ true → IsOverdue self.now.agent (now - 1) }
        ensures no { result ≡ false → IsTimely now (course_of self.now None) }
    {
        if !self.channel.is_open() {
            return false;
        }
        self.is_due(now.saturating_sub(1)) && !self.has_seen()
    }

    /// Whether what a read has brought is to be taken no sooner than the connection was read again: it brought nothing.
    pub(crate) fn puts_off(&self, now: u64, brought: &Brought<A>) -> bool
        ensures yes { result ≡ true → IsOverdue self.now.agent (now - 1) }
        ensures no { result ≡ false → IsTaken now brought.now (course_of self.now None) }
        ensures none { result ≡ true → bytes_in (input_of brought.now) ≡ [] }
    {
        match brought {
            Brought::Nothing => self.is_to_be_read(now),
            _ => false,
        }
    }

    /// Whether the connection is to be read again if a read has come to this, and a moment before the clock's was told last: if
    /// nothing waits for the program, which is to see what is kept before a further read may change that.
    pub(crate) fn reads_on(&self, event: Event, is_late: bool) -> bool
        ensures none { result ≡ true → self.now.channel.attempt ≡ None }
        ensures open { result ≡ true → is_some self.now.channel.stream ≡ true }
        ensures quiet { result ≡ true → notes_of_event event ≡ [] }
        ensures late { result ≡ true → is_late ≡ true }
    {
        is_late && event.is_nothing() && self.waiting.is_empty() && self.is_readable()
    }

    /// Whether the connection can be read: there is one, and no other is to be dialled.
    fn is_readable(&self) -> bool
        ensures none { result ≡ true → self.now.channel.attempt ≡ None }
        ensures open { result ≡ true → is_some self.now.channel.stream ≡ true }
    {
        self.channel.attempt.is_none() && self.channel.is_open()
    }

    /// The moment at which what the program asks for is handed in: this one, and if something is due on the connection that is there,
    /// the last moment before that, so that what has come on it is read first.
    pub(crate) fn moment_of_hand(&self, now: u64) -> u64
        ensures most { result ≤ now }
        ensures quiet { is_some self.now.channel.stream ≡ true → 0 < result → NothingAt self.now.agent result }
    {
        if self.channel.is_open() {
            return self.moment_of_bytes(now);
        }
        now
    }

    /// The moment that is told with bytes which are read at this one, and with the end of a connection: this one, and if something was
    /// due before it, the last moment before that. The program was stopped then, or was away: when the bytes came is not known, and a
    /// server that has sent something is not silent.
    fn moment_of_bytes(&self, now: u64) -> u64
        ensures most { result ≤ now }
        ensures quiet { 0 < result → NothingAt self.now.agent result }
        ensures last { 0 < result → result < now → ¬ (NothingAt self.now.agent (result + 1)) }
    {
        match self.agent.deadline() {
            Some(first) => now.min(first.saturating_sub(1)),
            None => now,
        }
    }

    /// Bytes came, with the moment of bytes. If that is before this one, this one is told after it, unless the connection is to be read
    /// again before that. The answer is the moment that was told last.
    fn bytes(&mut self, now: u64, bytes: Vec<u8, A>) -> Result<u64, Stop>
        requires none { self.old.channel.attempt ≡ None }
        requires open { is_some self.old.channel.stream ≡ true }
        ensures goes { OnOk result (GoesBy [] (course_of self.old None) (course_of self.new None)) }
        ensures notes { OnOk result (Notes (happens.Bytes bytes) (course_of self.old None) (course_of self.new None)) }
        ensures flows { OnOk result (Flows (record (flow_of S.remaining S.contents S.far S.state self.old None) { held = bytes.items })
            (flow_of S.remaining S.contents S.far S.state self.new None)) }
        ensures told { IfOk result (λ moment. moment ≤ self.new.agent.latest) }
        ensures kept { Extends (told_by self.old.waiting.items) (told_by self.new.waiting.items) }
        ensures broke { OnErr result (IsBroken self.old.agent self.new.agent) }
    {
        let moment = self.moment_of_bytes(now);
        let told = self.hand(moment, AgentInput::Bytes(bytes))?;
        if told == now {
            return Ok(told);
        }
        self.catch_up(now, told)
    }

    /// Tells a moment after another one, if nothing is to be dialled, and what the connection has was read.
    fn catch_up(&mut self, now: u64, told: u64) -> Result<u64, Stop>
        requires { told ≤ self.old.agent.latest }
        ensures goes { OnOk result (GoesBy [] (course_of self.old None) (course_of self.new None)) }
        ensures flows { OnOk result (Flows (flow_of S.remaining S.contents S.far S.state self.old None)
            (flow_of S.remaining S.contents S.far S.state self.new None)) }
        ensures told { IfOk result (λ moment. moment ≤ self.new.agent.latest) }
        ensures kept { Extends (told_by self.old.waiting.items) (told_by self.new.waiting.items) }
        ensures broke { OnErr result (IsBroken self.old.agent self.new.agent) }
    {
        if self.channel.attempt.is_some() || self.is_to_be_read(now) {
            return Ok(told);
        }
        self.pass_moment(now)
    }

    /// What a read has brought, or that it brought nothing, is noticed at this moment.
    pub(crate) fn apply_read(&mut self, now: u64, brought: Brought<A>) -> Result<u64, Stop>
        requires none { self.old.channel.attempt ≡ None }
        requires open { is_some self.old.channel.stream ≡ true }
        requires taken { IsTaken now brought (course_of self.old None) }
        ensures goes { OnOk result (GoesBy (notes_in (input_of brought)) (course_of self.old None) (course_of self.new None)) }
        ensures notes { OnOk result (Notes (input_of brought) (course_of self.old None) (course_of self.new None)) }
        ensures flows { OnOk result
            (Flows (record (flow_of S.remaining S.contents S.far S.state self.old None) { held = bytes_in (input_of brought) })
            (flow_of S.remaining S.contents S.far S.state self.new None)) }
        ensures told { IfOk result (λ moment. moment ≤ self.new.agent.latest) }
        ensures kept { Extends (told_by self.old.waiting.items) (told_by self.new.waiting.items) }
        ensures broke { OnErr result (IsBroken self.old.agent self.new.agent) }
    {
        match brought {
            Brought::Piece(bytes) => self.bytes(now, bytes),
            Brought::Nothing => self.pass_moment(now),
            Brought::End => self.cut(now),
        }
    }

    /// A moment is told, whatever is to be dialled or read: an attempt that was not made by then counts as one that has failed, and a
    /// connection that is there as one that is over.
    pub(crate) fn settle(&mut self, now: u64) -> Result<u64, Stop>
        ensures goes { OnOk result (Goes (course_of self.old None) (course_of self.new None)) }
        ensures flows { OnOk result (Flows (flow_of S.remaining S.contents S.far S.state self.old None)
            (flow_of S.remaining S.contents S.far S.state self.new None)) }
        ensures told { OnOk result (now ≤ self.new.agent.latest) }
        ensures kept { Extends (told_by self.old.waiting.items) (told_by self.new.waiting.items) }
        ensures broke { OnErr result (IsBroken self.old.agent self.new.agent) }
    {
        match self.channel.attempt {
            Some(_) => self.fail(now),
            None if self.channel.is_open() => {
                self.end(now)?;
                self.settle_closed(now)
            }
            None => self.pass_moment(now),
        }
    }

    /// The same, if there is no connection.
    fn settle_closed(&mut self, now: u64) -> Result<u64, Stop>
        requires { is_some self.old.channel.stream ≡ false }
        ensures goes { OnOk result (Goes (course_of self.old None) (course_of self.new None)) }
        ensures flows { OnOk result (Flows (flow_of S.remaining S.contents S.far S.state self.old None)
            (flow_of S.remaining S.contents S.far S.state self.new None)) }
        ensures told { OnOk result (now ≤ self.new.agent.latest) }
        ensures kept { Extends (told_by self.old.waiting.items) (told_by self.new.waiting.items) }
        ensures broke { OnErr result (IsBroken self.old.agent self.new.agent) }
    {
        match self.channel.attempt {
            Some(_) => self.fail(now),
            None => self.pass_moment(now),
        }
    }

    /// The next action for the program.
    pub(crate) fn pop(&mut self) -> Option<Action<A>>
        ensures same { course_of self.new result ≡ course_of self.old None }
        ensures flow { flow_of S.remaining S.contents S.far S.state self.new result
            ≡ flow_of S.remaining S.contents S.far S.state self.old None }
        ensures none { IfNone result (self.new.waiting.items ≡ []) }
    {
        self.waiting.pop_front()
    }
}
