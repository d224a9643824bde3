//! The driver.

ghost use Rattle.std.specs.Prelude.{◌≡◌, ◌≢◌, ◌≤◌, ◌<ℤ◌, ◌++◌, [], None, is_some, length, pos, false, true, unsigned_abs, IfNone, IfOk};
ghost use Rattle.std.specs.Prelude.{OnErr, OnOk};
ghost use Rattle.zk_turns.specs.Turns.{new_start};
ghost use Rattle.zk_turns.specs.View.{view_at};
ghost use Rattle.zk_client.specs.Clients.{view_of};
ghost use Rattle.zk_agent.specs.Agents.{IsBroken};
ghost use Rattle.zk_agent.specs.Telling.{told_by};
ghost use Rattle.zk_agent.specs.declared.input.AgentInput.TheVariants as happens;
ghost use Rattle.zk_driver.specs.Driving.{channel_view, closed, course_of, AreFollowed, Extends, Goes, Hands, IsAsked, IsShutAgent};
ghost use Rattle.zk_driver.specs.Noting.{is_come, notes_of, passed_in, GoesBy};
ghost use Rattle.zk_driver.specs.Places.{group, is_listed};
ghost use Rattle.zk_driver.specs.inner.Noting.{notes_of_event};
ghost use Rattle.zk_driver.specs.Flowing.{flow_of, Flows};

use crate::channel::Attempt;
use crate::engine::{Engine, MOST_READS};
use crate::places::{is_among, places_of};
use crate::reason::{Reason, reason_of};
use crate::stop::Stop;
use crate::turn::{Event, Glance, Turn};
use std::alloc::{AllocError, Allocator};
use zk_agent::{Action, Agent, AgentInput, Settings};
use zk_client::{Call, Client, Path, Side};
use zk_link::{Clock, Dial};

/// An agent, and what carries out what it says.
#[derive(Drop)]
pub struct Driver<'a, A: Allocator + Copy, D: Dial + Drop, C: Clock + Drop> {
    alloc: A,
    engine: Engine<A, D::Stream>,
    dial: D,
    clock: C,
    addresses: &'a [&'a str],
    order: Vec<&'a str, A>,
    latest: u64,
    dialled: Option<&'a str>,
    is_announced: bool,
    is_in_row: bool,
}

impl<'a, A: Allocator + Copy, D: Dial + Drop, C: Clock + Drop> Driver<'a, A, D, C> {
    /// Of an agent that has no connection, with the addresses of whose number it was told. Nothing is dialled before the first
    /// [`next`](Driver::next).
    pub fn new(
        alloc: A,
        agent: Agent<A>,
        dial: D,
        clock: C,
        addresses: &'a [&'a str],
    ) -> Driver<'a, A, D, C>
        ensures agent { result.engine.agent ≡ agent }
        ensures channel { channel_view result.engine.channel ≡ closed }
        ensures waiting { result.engine.waiting.items ≡ [] }
    {
        Driver {
            alloc,
            engine: Engine::new(alloc, agent),
            dial,
            clock,
            addresses,
            order: Vec::new(alloc),
            latest: 0,
            dialled: None,
            is_announced: false,
            is_in_row: false,
        }
    }

    /// Of a new session, which asks for this timeout in milliseconds, with these addresses. Their order and the pauses are random by the
    /// clock's moment. An error means that memory ran out.
    pub fn begin(
        alloc: A,
        timeout_ms: i32,
        dial: D,
        mut clock: C,
        addresses: &'a [&'a str],
    ) -> Result<Driver<'a, A, D, C>, AllocError>
        requires { pos 0 <ℤ timeout_ms }
        ensures client { IfOk result
            (λ driver. view_of driver.engine.agent.asker.follower.client ≡ view_at (new_start (unsigned_abs timeout_ms)) []) }
        ensures followed { IfOk result (λ driver. AreFollowed driver.engine.agent) }
        ensures shut { IfOk result (λ driver. IsShutAgent driver.engine.agent) }
        ensures timeout { IfOk result (λ driver. driver.engine.agent.timeout_ms ≡ timeout_ms) }
        ensures channel { IfOk result (λ driver. channel_view driver.engine.channel ≡ closed) }
        ensures waiting { IfOk result (λ driver. driver.engine.waiting.items ≡ []) }
        ensures subjects { IfOk result (λ driver. driver.engine.agent.asker.follower.subjects.items ≡ []) }
    {
        let settings = Settings {
            timeout_ms,
            addresses: addresses.len(),
            seed: clock.now(),
        };
        let agent = Agent::new(alloc, Client::new(alloc, timeout_ms), settings)?;
        Ok(Driver::new(alloc, agent, dial, clock, addresses))
    }

    /// The client: what is kept of paths, the state, and what another session can be resumed from.
    pub fn client(&self) -> &Client<A>
        ensures { view_of result.now ≡ view_of self.now.engine.agent.asker.follower.client }
    {
        self.engine.agent.client()
    }

    /// The moment at which the server was heard last, on any connection, and none before it was.
    pub fn heard_at(&self) -> Option<u64>
        ensures { result ≡ self.now.engine.agent.heard_at }
    {
        self.engine.agent.heard_at()
    }

    /// The clock's moment, in milliseconds; the latest that was told if the clock has gone back.
    pub fn now(&mut self) -> u64
        ensures engine { self.new.engine ≡ self.old.engine }
        ensures latest { self.new.latest ≡ result }
        ensures on { self.old.latest ≤ result }
    {
        self.latest = self.latest.max(self.clock.now());
        self.latest
    }

    /// Follows a subject: the data of the node, or the names of its children. No other subject has or had the ticket.
    pub fn follow(&mut self, ticket: u64, side: Side, path: Path<A>) -> Result<(), Stop>
        ensures hands { OnOk result
            (Hands (happens.Follow ticket side path) (course_of self.old.engine None) (course_of self.new.engine None)) }
        ensures flows { OnOk result (Flows (flow_of D.Stream.remaining D.Stream.contents D.Stream.far D.Stream.state self.old.engine None)
            (flow_of D.Stream.remaining D.Stream.contents D.Stream.far D.Stream.state self.new.engine None)) }
        ensures kept { Extends (told_by self.old.engine.waiting.items) (told_by self.new.engine.waiting.items) }
        ensures broke { OnErr result (IsBroken self.old.engine.agent self.new.engine.agent) }
    {
        self.hand(AgentInput::Follow { ticket, side, path })
    }

    /// Follows the subject of this ticket no more.
    pub fn unfollow(&mut self, ticket: u64) -> Result<(), Stop>
        ensures hands { OnOk result (Hands (happens.Unfollow ticket) (course_of self.old.engine None) (course_of self.new.engine None)) }
        ensures flows { OnOk result (Flows (flow_of D.Stream.remaining D.Stream.contents D.Stream.far D.Stream.state self.old.engine None)
            (flow_of D.Stream.remaining D.Stream.contents D.Stream.far D.Stream.state self.new.engine None)) }
        ensures kept { Extends (told_by self.old.engine.waiting.items) (told_by self.new.engine.waiting.items) }
        ensures broke { OnErr result (IsBroken self.old.engine.agent self.new.engine.agent) }
    {
        self.hand(AgentInput::Unfollow { ticket })
    }

    /// Follows a tree: the data of the root, the names below it, and those of each node below it, as they come to be known. If there
    /// are more than `most` nodes, no more are taken on. [`Action::Tree`] tells which sides of nodes are followed for it, and when nothing
    /// is lacking of it. The data of the root have this ticket, which no other call or subject has or had; all else has tickets from 2^63
    /// on, which no program uses.
    pub fn follow_tree(&mut self, ticket: u64, root: Path<A>, most: u64) -> Result<(), Stop>
        ensures hands { OnOk result
            (Hands (happens.FollowTree ticket root most) (course_of self.old.engine None) (course_of self.new.engine None)) }
        ensures flows { OnOk result (Flows (flow_of D.Stream.remaining D.Stream.contents D.Stream.far D.Stream.state self.old.engine None)
            (flow_of D.Stream.remaining D.Stream.contents D.Stream.far D.Stream.state self.new.engine None)) }
        ensures kept { Extends (told_by self.old.engine.waiting.items) (told_by self.new.engine.waiting.items) }
        ensures broke { OnErr result (IsBroken self.old.engine.agent self.new.engine.agent) }
    {
        self.hand(AgentInput::FollowTree { ticket, root, most })
    }

    /// Follows the tree of this ticket no more.
    pub fn unfollow_tree(&mut self, ticket: u64) -> Result<(), Stop>
        ensures hands { OnOk result
            (Hands (happens.UnfollowTree ticket) (course_of self.old.engine None) (course_of self.new.engine None)) }
        ensures flows { OnOk result (Flows (flow_of D.Stream.remaining D.Stream.contents D.Stream.far D.Stream.state self.old.engine None)
            (flow_of D.Stream.remaining D.Stream.contents D.Stream.far D.Stream.state self.new.engine None)) }
        ensures kept { Extends (told_by self.old.engine.waiting.items) (told_by self.new.engine.waiting.items) }
        ensures broke { OnErr result (IsBroken self.old.engine.agent self.new.engine.agent) }
    {
        self.hand(AgentInput::UnfollowTree { ticket })
    }

    /// Asks a call: it is answered once, by [`Action::Answer`], or times out once, at this moment of the clock if there is one. No other
    /// call or subject has or had the ticket.
    pub fn ask(&mut self, ticket: u64, call: Call<A>, until: Option<u64>) -> Result<(), Stop>
        ensures hands { OnOk result
            (Hands (happens.Call ticket call until) (course_of self.old.engine None) (course_of self.new.engine None)) }
        ensures flows { OnOk result (Flows (flow_of D.Stream.remaining D.Stream.contents D.Stream.far D.Stream.state self.old.engine None)
            (flow_of D.Stream.remaining D.Stream.contents D.Stream.far D.Stream.state self.new.engine None)) }
        ensures kept { Extends (told_by self.old.engine.waiting.items) (told_by self.new.engine.waiting.items) }
        ensures broke { OnErr result (IsBroken self.old.engine.agent self.new.engine.agent) }
    {
        self.hand(AgentInput::Call {
            ticket,
            call,
            until,
        })
    }

    /// Goes on with another list of addresses. The session moves to another server if its own is listed no more, and by the chance by
    /// which the list has grown: as ZooKeeper's own clients do. Else its connection stays, so with a list of the same addresses.
    pub fn set_addresses(&mut self, addresses: &'a [&'a str]) -> Result<(), Stop>
        ensures hands { OnOk result (Hands (happens.Addresses (length (group (λ a. a.now) self.old.addresses.now true addresses.now))
            (length (group (λ a. a.now) self.old.addresses.now false addresses.now))
            (is_listed (λ a. a.now) self.old.engine.channel.attempt self.old.dialled addresses.now))
            (course_of self.old.engine None) (course_of self.new.engine None)) }
        ensures order { OnOk result (self.new.order.items ≡ group (λ a. a.now) self.old.addresses.now true addresses.now
            ++ group (λ a. a.now) self.old.addresses.now false addresses.now) }
        ensures flows { OnOk result (Flows (flow_of D.Stream.remaining D.Stream.contents D.Stream.far D.Stream.state self.old.engine None)
            (flow_of D.Stream.remaining D.Stream.contents D.Stream.far D.Stream.state self.new.engine None)) }
        ensures kept { Extends (told_by self.old.engine.waiting.items) (told_by self.new.engine.waiting.items) }
        ensures broke { OnErr result (IsBroken self.old.engine.agent self.new.engine.agent) }
    {
        let is_listed = self.is_listed(addresses);
        let Ok((order, kept, added)) = places_of(self.alloc, self.addresses, addresses) else {
            return Err(Stop::Memory);
        };
        let input = AgentInput::Addresses {
            kept,
            added,
            is_listed,
        };
        let handed = self.hand(input);
        self.addresses = addresses;
        self.order = order;
        handed
    }

    /// Whether the list has the address that was dialled last. An attempt that is not made yet is made at its place of this list.
    fn is_listed(&self, addresses: &[&str]) -> bool
        ensures { result ≡ is_listed (λ a. a.now) self.now.engine.channel.attempt self.now.dialled addresses.now }
    {
        match (self.engine.channel.attempt, self.dialled) {
            (Some(attempt), _) => attempt.place < addresses.len(),
            (None, Some(address)) => is_among(addresses, address),
            (None, None) => true,
        }
    }

    /// Hands in what the program asks for, at the clock's moment; if something is due on the connection, at the last moment before that,
    /// so that what has come is read before the clock's moment is told.
    fn hand(&mut self, input: AgentInput<A>) -> Result<(), Stop>
        requires { IsAsked input }
        ensures hands { OnOk result (Hands input (course_of self.old.engine None) (course_of self.new.engine None)) }
        ensures flows { OnOk result (Flows (flow_of D.Stream.remaining D.Stream.contents D.Stream.far D.Stream.state self.old.engine None)
            (flow_of D.Stream.remaining D.Stream.contents D.Stream.far D.Stream.state self.new.engine None)) }
        ensures kept { Extends (told_by self.old.engine.waiting.items) (told_by self.new.engine.waiting.items) }
        ensures broke { OnErr result (IsBroken self.old.engine.agent self.new.engine.agent) }
    {
        let now = self.now();
        let moment = self.engine.moment_of_hand(now);
        match self.engine.hand(moment, input) {
            Ok(_) => Ok(()),
            Err(stop) => Err(stop),
        }
    }

    /// The next action for the program, and none at this moment of the clock. Until then it does what the agent asks for, and tells it what
    /// happens: it waits for bytes, or for what is due. A connection that ends or fails, and one that could not be made, are no errors: the
    /// agent is told.
    ///
    /// No read waits past the moment, except for 1 millisecond, and a write waits for room for 16 milliseconds at most. An attempt to
    /// connect has the time that the agent gives it: a third of the timeout, and a second at least.
    ///
    /// An error says that memory ran out. What was noted by then is given by further calls, and the session goes on no further: begin with
    /// another driver, from what was saved.
    pub fn next(&mut self, until: u64) -> Result<Option<Action<A>>, Stop>
        ensures goes { IfOk result (λ passed. Goes (course_of self.old.engine None) (course_of self.new.engine passed)) }
        ensures flows { IfOk result
            (λ passed. Flows (flow_of D.Stream.remaining D.Stream.contents D.Stream.far D.Stream.state self.old.engine None)
            (flow_of D.Stream.remaining D.Stream.contents D.Stream.far D.Stream.state self.new.engine passed)) }
        ensures come { IfOk result (λ passed. IfNone passed (until ≤ self.new.engine.agent.latest)) }
        ensures none { IfOk result (λ passed. IfNone passed (self.new.engine.waiting.items ≡ [])) }
        ensures kept { OnErr result (Extends (told_by self.old.engine.waiting.items) (told_by self.new.engine.waiting.items)) }
        ensures broke { OnErr result (IsBroken self.old.engine.agent self.new.engine.agent) }
    {
        for _ in 0..u64::MAX {
            if let Some(action) = self.engine.pop() {
                return Ok(Some(action));
            }
            if until <= self.round(until)?.0 {
                return Ok(self.engine.pop());
            }
        }
        self.engine.settle(until)?;
        Ok(self.engine.pop())
    }

    /// One turn, as [`next`](Driver::next) makes them one after the other: an action that waits, or else what comes of an attempt to
    /// connect, or of a wait until this moment at most. Of each address it tells that it is dialled, before it is, and what came of that;
    /// and of each connection that it is over, and why. [`address`](Driver::address) is the address.
    ///
    /// An error is that of [`next`](Driver::next).
    pub fn turn(&mut self, until: u64) -> Result<Turn<A>, Stop>
        ensures goes { IfOk result
            (λ turn. GoesBy (notes_of turn) (course_of self.old.engine None) (course_of self.new.engine (passed_in turn))) }
        ensures flows { IfOk result
            (λ turn. Flows (flow_of D.Stream.remaining D.Stream.contents D.Stream.far D.Stream.state self.old.engine None)
            (flow_of D.Stream.remaining D.Stream.contents D.Stream.far D.Stream.state self.new.engine (passed_in turn))) }
        ensures come { IfOk result (λ turn. is_come turn ≡ true → until ≤ self.new.engine.agent.latest) }
        ensures none { IfOk result (λ turn. is_come turn ≡ true → self.new.engine.waiting.items ≡ []) }
        ensures kept { OnErr result (Extends (told_by self.old.engine.waiting.items) (told_by self.new.engine.waiting.items)) }
        ensures broke { OnErr result (IsBroken self.old.engine.agent self.new.engine.agent) }
    {
        if let Some(action) = self.engine.pop() {
            return Ok(Turn::Told(action));
        }
        if self.announces() {
            return Ok(Turn::Dials);
        }
        let (moment, event) = self.round(until)?;
        if event.is_nothing() && until <= moment && !self.has_told() {
            return Ok(Turn::Come);
        }
        Ok(event.turn())
    }

    /// Whether an address is to be dialled, and that is not told yet. It counts as told from then on.
    fn announces(&mut self) -> bool
        ensures { self.new.engine ≡ self.old.engine }
    {
        let Some(attempt) = self.engine.channel.attempt else {
            return false;
        };
        if self.is_announced {
            return false;
        }
        self.dialled = self.address_at(attempt.place);
        self.is_announced = true;
        true
    }

    /// Whether actions wait for the program.
    pub fn has_told(&self) -> bool
        ensures none { result ≡ false → self.now.engine.waiting.items ≡ [] }
        ensures some { result ≡ true → self.now.engine.waiting.items ≢ [] }
    {
        !self.engine.waiting.is_empty()
    }

    /// The address that was dialled last, or that is dialled next where [`Turn::Dials`] was told last: that of the connection if there
    /// is one.
    pub fn address(&self) -> Option<&'a str> {
        self.dialled
    }

    /// The address at a place that the agent names. The list that the driver began with stands as it is, and each later one in an order of
    /// its own.
    fn address_at(&self, place: usize) -> Option<&'a str> {
        match self.order.get(place) {
            Some(address) => Some(*address),
            None => self.addresses.get(place).copied(),
        }
    }

    /// Dials, if an address is to be dialled, and else waits until this moment at most. The answer is the moment that was told, and what
    /// has happened.
    fn round(&mut self, until: u64) -> Result<(u64, Event), Stop>
        ensures goes { IfOk result
            (λ round. GoesBy (notes_of_event round.1) (course_of self.old.engine None) (course_of self.new.engine None)) }
        ensures flows { OnOk result (Flows (flow_of D.Stream.remaining D.Stream.contents D.Stream.far D.Stream.state self.old.engine None)
            (flow_of D.Stream.remaining D.Stream.contents D.Stream.far D.Stream.state self.new.engine None)) }
        ensures told { IfOk result (λ round. round.0 ≤ self.new.engine.agent.latest) }
        ensures kept { Extends (told_by self.old.engine.waiting.items) (told_by self.new.engine.waiting.items) }
        ensures broke { OnErr result (IsBroken self.old.engine.agent self.new.engine.agent) }
    {
        match self.engine.channel.attempt {
            Some(attempt) => self.attempt(attempt),
            None => self.wait(until),
        }
    }

    /// A connection to the address at a place of the list, or why there is none: none is made in time, or the list is shorter.
    fn dial(&mut self, attempt: Attempt) -> Result<D::Stream, Reason>
        ensures begins { IfOk result (λ stream. D.Stream.far.begins (D.Stream.state stream)) }
        ensures engine { self.new.engine ≡ self.old.engine }
        ensures latest { self.new.latest ≡ self.old.latest }
    {
        self.dialled = self.address_at(attempt.place);
        self.is_announced = false;
        let Some(address) = self.dialled else {
            return Err(Reason::Other);
        };
        match self.dial.dial(address, attempt.within_ms.max(1)) {
            Ok(stream) => Ok(stream),
            Err(fault) => Err(reason_of(fault.kind())),
        }
    }

    /// Dials an address, and tells the agent what came of it.
    fn attempt(&mut self, attempt: Attempt) -> Result<(u64, Event), Stop>
        requires { is_some self.old.engine.channel.attempt ≡ true }
        ensures goes { IfOk result
            (λ round. GoesBy (notes_of_event round.1) (course_of self.old.engine None) (course_of self.new.engine None)) }
        ensures flows { OnOk result (Flows (flow_of D.Stream.remaining D.Stream.contents D.Stream.far D.Stream.state self.old.engine None)
            (flow_of D.Stream.remaining D.Stream.contents D.Stream.far D.Stream.state self.new.engine None)) }
        ensures told { IfOk result (λ round. round.0 ≤ self.new.engine.agent.latest) }
        ensures kept { Extends (told_by self.old.engine.waiting.items) (told_by self.new.engine.waiting.items) }
        ensures broke { OnErr result (IsBroken self.old.engine.agent self.new.engine.agent) }
    {
        let stream = self.dial(attempt);
        let now = self.now();
        match stream {
            Ok(stream) => Ok((self.engine.open(now, stream)?, Event::Opened)),
            Err(why) => Ok((self.engine.fail(now)?, Event::Failed(why))),
        }
    }

    /// Listens if there is a connection, and else waits.
    fn wait(&mut self, until: u64) -> Result<(u64, Event), Stop>
        requires { self.old.engine.channel.attempt ≡ None }
        ensures goes { IfOk result
            (λ round. GoesBy (notes_of_event round.1) (course_of self.old.engine None) (course_of self.new.engine None)) }
        ensures flows { OnOk result (Flows (flow_of D.Stream.remaining D.Stream.contents D.Stream.far D.Stream.state self.old.engine None)
            (flow_of D.Stream.remaining D.Stream.contents D.Stream.far D.Stream.state self.new.engine None)) }
        ensures told { IfOk result (λ round. round.0 ≤ self.new.engine.agent.latest) }
        ensures kept { Extends (told_by self.old.engine.waiting.items) (told_by self.new.engine.waiting.items) }
        ensures broke { OnErr result (IsBroken self.old.engine.agent self.new.engine.agent) }
    {
        let now = self.now();
        let ms = self.engine.wait_ms(now, until);
        if self.engine.channel.is_open() {
            return self.listen(now, ms);
        }
        self.clock.pause(ms);
        let now = self.now();
        Ok((self.engine.pass_moment(now)?, Event::Nothing))
    }

    /// Reads the connection once, from this moment on and for `ms` milliseconds, and tells the agent what that brings, or that it brings
    /// nothing. If something was due before the clock's moment, and the connection may have more, that moment is not told: it is to be
    /// read again.
    fn read(&mut self, began: u64, is_again: bool, ms: u64) -> Result<Glance, Stop>
        requires none { self.old.engine.channel.attempt ≡ None }
        requires open { is_some self.old.engine.channel.stream ≡ true }
        ensures goes { IfOk result
            (λ glance. GoesBy (notes_of_event glance.event) (course_of self.old.engine None) (course_of self.new.engine None)) }
        ensures flows { OnOk result (Flows (flow_of D.Stream.remaining D.Stream.contents D.Stream.far D.Stream.state self.old.engine None)
            (flow_of D.Stream.remaining D.Stream.contents D.Stream.far D.Stream.state self.new.engine None)) }
        ensures told { IfOk result (λ glance. glance.told ≤ self.new.engine.agent.latest) }
        ensures none { IfOk result (λ glance. glance.is_again ≡ true → self.new.engine.channel.attempt ≡ None) }
        ensures open { IfOk result (λ glance. glance.is_again ≡ true → is_some self.new.engine.channel.stream ≡ true) }
        ensures quiet { IfOk result (λ glance. glance.is_again ≡ true → notes_of_event glance.event ≡ []) }
        ensures kept { Extends (told_by self.old.engine.waiting.items) (told_by self.new.engine.waiting.items) }
        ensures broke { OnErr result (IsBroken self.old.engine.agent self.new.engine.agent) }
    {
        let Ok(brought) = self
            .engine
            .channel
            .exchange(self.alloc, began, is_again, ms)
        else {
            return Err(Stop::Memory);
        };
        let now = self.now();
        if self.engine.puts_off(now, &brought) {
            return Ok(Glance {
                now,
                told: 0,
                event: Event::Nothing,
                is_again: true,
            });
        }
        let event = self.engine.channel.event_of(&brought);
        let told = self.engine.apply_read(now, brought)?;
        let is_again = self.engine.reads_on(event, told < now);
        Ok(Glance {
            now,
            told,
            event,
            is_again,
        })
    }

    /// Writes what is left, and tells the agent what the connection brings within `ms` milliseconds, or that it brings nothing. Where
    /// something was due before the clock's moment, what the connection has is read before that is told: until it has nothing, and 64 times
    /// at most, even if the program takes what it is told between two reads.
    fn listen(&mut self, began: u64, ms: u64) -> Result<(u64, Event), Stop>
        requires none { self.old.engine.channel.attempt ≡ None }
        requires open { is_some self.old.engine.channel.stream ≡ true }
        ensures goes { IfOk result
            (λ round. GoesBy (notes_of_event round.1) (course_of self.old.engine None) (course_of self.new.engine None)) }
        ensures flows { OnOk result (Flows (flow_of D.Stream.remaining D.Stream.contents D.Stream.far D.Stream.state self.old.engine None)
            (flow_of D.Stream.remaining D.Stream.contents D.Stream.far D.Stream.state self.new.engine None)) }
        ensures told { IfOk result (λ round. round.0 ≤ self.new.engine.agent.latest) }
        ensures kept { Extends (told_by self.old.engine.waiting.items) (told_by self.new.engine.waiting.items) }
        ensures broke { OnErr result (IsBroken self.old.engine.agent self.new.engine.agent) }
    {
        let mut glance = self.read(began, self.is_in_row, ms)?;
        for _ in 1..MOST_READS {
            if !glance.is_again {
                break;
            }
            glance = self.read(glance.now, true, 0)?;
        }
        self.is_in_row = glance.told < glance.now;
        Ok((glance.told, glance.event))
    }
}
