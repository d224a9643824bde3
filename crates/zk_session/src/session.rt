//! The session.
ghost use Rattle.std.specs.Prelude.{◌≡◌, ℕ, pos, ◌+◌, ◌*◌, ◌^◌, ◌<◌, ◌≤◌, ◌<ℤ◌, ◌≤ℤ◌, ◌++◌, ◌||◌, max, Bool, length, unsigned_abs, nat_le};
ghost use Rattle.std.specs.Prelude.{IfOk, IsOk, OnOk, OnErr, vec_len, vec_capacity};
ghost use Rattle.zk_session.specs.SessionView.{new_start};
ghost use Rattle.zk_session.specs.Table.{next, due, has_passed as is_past, is_due_at, IsFirst, Opens, Hears, Sends, Ticks, Sees, Cuts};
ghost use Rattle.zk_session.specs.Table.{Closes};
ghost use Rattle.zk_session.specs.Fields.{event_of, answer_of, start_of, Asks, Saves};
ghost use Rattle.zk_session.specs.Taken_back.{put_back};

use crate::{Accepted, ConnectFields, Due, Response, Saved, State};
use std::alloc::{AllocError, Allocator};
use std::marker::Model;
use zk_limits::LONGEST_PASSWORD;

// The password of a session that no server has given one.
static NO_PASSWORD: [u8; 16] = [0; 16];

/// A session: its state by what has happened, and what goes on over reconnects (ZooKeeper Programmer's Guide, "ZooKeeper
/// Sessions"). Moments are milliseconds from any beginning; one below an earlier one counts as the earlier one. What a call
/// does is a row of one table: a call in a state that the table does not name changes nothing but the latest moment.
#[derive(Drop)]
pub struct Session<A: Allocator> {
    state: State,
    asked: u32,
    timeout: u32,
    session: i64,
    // Until it has one, it is that of no session.
    has_password: bool,
    password: Vec<u8, A>,
    last: i64,
    latest: u64,
    heard: u64,
    sent: u64,
}

impl<A: Allocator> Model for Session<A> {
    ghost use Rattle.std.specs.Prelude.{if◌then◌else◌};
    ghost use Rattle.zk_session.specs.SessionView.{SessionView, IsInRange, no_password};

    ghost Value = { SessionView };

    ghost view = { λ s. record {
      state = s.state;
      saved = record {
        asked = s.asked;
        session = record {
          timeout = s.timeout;
          session = s.session;
          password = if s.has_password then s.password.items else no_password;
        };
        last = s.last;
      };
      moments = record { now = s.latest; heard = s.heard; sent = s.sent };
    } };

    ghost invariant = { λ s. IsInRange s.asked s.latest s.heard s.sent s.last };
}

impl<A: Allocator> Session<A> {
    /// A session that no server knows yet, Idle, which asks for this timeout in milliseconds. Its id is 0 and its password
    /// sixteen zero bytes. It takes no memory.
    pub fn new(alloc: A, timeout_ms: i32) -> Self
        requires { pos 0 <ℤ timeout_ms }
        ensures { result ≡ new_start (unsigned_abs timeout_ms) }
    {
        let asked = timeout_ms.unsigned_abs();
        Session {
            state: State::Idle,
            asked,
            timeout: asked,
            session: 0,
            has_password: false,
            password: Vec::new(alloc),
            last: 0,
            latest: 0,
            heard: 0,
            sent: 0,
        }
    }

    /// A session that was saved, Idle, taken up with this timeout in milliseconds. It asks with the saved id, password and
    /// zxid; its moment is 0. An error says that there is no memory for the password.
    pub fn resume(alloc: A, timeout_ms: i32, saved: &Saved<'_>) -> Result<Self, AllocError>
        requires timeout { pos 0 <ℤ timeout_ms }
        requires last { pos 0 ≤ℤ saved.now.last_zxid }
        requires password { length saved.now.password.now ≤ LONGEST_PASSWORD }
        ensures { IfOk result (λ session. session ≡ start_of timeout_ms saved.now) }
    {
        let asked = timeout_ms.unsigned_abs();
        Ok(Session {
            state: State::Idle,
            asked,
            timeout: asked,
            session: saved.session,
            has_password: true,
            password: Vec::from_slice(alloc, saved.password)?,
            last: saved.last_zxid,
            latest: 0,
            heard: 0,
            sent: 0,
        })
    }

    /// A connection begins. It has an effect where the session is Idle: Connecting, heard and sent at the latest moment.
    pub fn opened(&mut self)
        ensures { self.new ≡ next Opens self.old }
    {
        if self.state == State::Idle {
            let begun = self.latest;
            self.state = State::Connecting;
            self.heard = begun;
            self.sent = begun;
        }
    }

    /// What the first record of a connection asks for (`ConnectRequest` of zookeeper.jute): the timeout first asked for, the id
    /// and password of the last accepted response, and the greatest zxid seen.
    pub fn connect_fields(&self) -> ConnectFields<'_>
        ensures { Asks self.now result }
    {
        ConnectFields {
            last_zxid_seen: self.last,
            time_out: self.asked as i32,
            session_id: self.session,
            password: self.password(),
        }
    }

    /// The server has answered (`ConnectResponse` of zookeeper.jute). A `time_out` above 0 makes the session Connected, with
    /// the response's id, password and timeout; else it has expired, and nothing else changes. An error says that there is
    /// no memory for a longer password. It leaves the session as it was.
    pub fn accepted(&mut self, response: &Response<'_>) -> Result<Accepted, AllocError>
        requires { self.old.state ≡ State.Connecting }
        ensures ok { OnOk result (self.new ≡ next (event_of response.now) self.old) }
        ensures answer { IfOk result (λ accepted. accepted ≡ answer_of response.now) }
        ensures err { OnErr result (self.new ≡ self.old) }
        ensures expired { response.now.time_out ≤ℤ pos 0 → IsOk result }
    {
        if response.time_out <= 0 {
            self.state = State::Expired;
            return Ok(Accepted::Expired);
        }
        replace(&mut self.password, response.password)?;
        self.has_password = true;
        self.state = State::Connected;
        self.timeout = response.time_out.unsigned_abs();
        self.session = response.session_id;
        Ok(Accepted::Accepted)
    }

    /// Something was heard of the server, at the latest moment. It counts while Connecting and Connected.
    pub fn heard(&mut self)
        ensures { self.new ≡ next Hears self.old }
    {
        if self.state.is_open() {
            self.heard = self.latest;
        }
    }

    /// Something was sent to it, at the latest moment. It counts while Connecting and Connected.
    pub fn sent(&mut self)
        ensures { self.new ≡ next Sends self.old }
    {
        if self.state.is_open() {
            self.sent = self.latest;
        }
    }

    /// What is due at the moment. With T the timeout of the last accepted response, or while Connecting the one asked for:
    /// Silent after two thirds of T with nothing heard, else, where Connected, Ping after a third of T with nothing sent. No
    /// product wraps at any moment.
    pub fn moment(&mut self, now: u64) -> Due
        ensures tells { self.new ≡ next (Ticks now) self.old }
        ensures due { result ≡ due self.new }
    {
        self.latest = now.max(self.latest);
        match self.state {
            State::Connecting => {
                if has_passed(self.latest - self.heard, 2 * u64::from(self.asked)) {
                    Due::Silent
                } else {
                    Due::Nothing
                }
            }
            State::Connected => {
                if has_passed(self.latest - self.heard, 2 * u64::from(self.timeout)) {
                    Due::Silent
                } else if has_passed(self.latest - self.sent, u64::from(self.timeout)) {
                    Due::Ping
                } else {
                    Due::Nothing
                }
            }
            State::Idle | State::Expired | State::Closed => Due::Nothing,
        }
    }

    /// The first moment at which something is due, and none where nothing is at any moment. It is 0 where something is due
    /// already, since a moment below the latest counts as the latest.
    pub fn deadline(&self) -> Option<u64>
        ensures { IsFirst (is_due_at self.now) result }
    {
        match self.state {
            State::Connecting => first_past(2 * u64::from(self.asked), self.heard, self.latest),
            State::Connected => earlier(
                first_past(2 * u64::from(self.timeout), self.heard, self.latest),
                first_past(u64::from(self.timeout), self.sent, self.latest),
            ),
            State::Idle | State::Expired | State::Closed => None,
        }
    }

    /// The timeout of the last accepted response in milliseconds; before there is one, the one asked for.
    pub fn timeout_ms(&self) -> u32
        ensures { result ≡ self.now.saved.session.timeout }
    {
        self.timeout
    }

    /// A reply had this zxid. A greater one than was seen so far is the last seen one, in any state.
    pub fn saw(&mut self, zxid: i64)
        ensures { self.new ≡ next (Sees zxid) self.old }
    {
        if self.last < zxid {
            self.last = zxid;
        }
    }

    /// The connection is over: Idle, where the session was Connecting or Connected.
    pub fn cut(&mut self)
        ensures { self.new ≡ next Cuts self.old }
    {
        if self.state.is_open() {
            self.state = State::Idle;
        }
    }

    /// The server has closed the session, as it was asked to. It has an effect where the session is Connected.
    pub fn closed(&mut self)
        ensures { self.new ≡ next Closes self.old }
    {
        if self.state == State::Connected {
            self.state = State::Closed;
        }
    }

    /// A session in the same place, with memory of its own for the password. An error says that there is no such memory.
    pub fn copied(&self, alloc: A) -> Result<Self, AllocError>
        ensures { IfOk result (λ copy. copy ≡ self.now) }
    {
        Ok(Session {
            state: self.state,
            asked: self.asked,
            timeout: self.timeout,
            session: self.session,
            has_password: self.has_password,
            password: Vec::from_slice(alloc, &self.password)?,
            last: self.last,
            latest: self.latest,
            heard: self.heard,
            sent: self.sent,
        })
    }

    /// Takes a change back: the state and the greatest zxid seen are these again.
    pub fn put_back(&mut self, state: State, last_zxid: i64)
        requires { pos 0 ≤ℤ last_zxid }
        ensures { self.new ≡ put_back state last_zxid self.old }
    {
        self.state = state;
        self.last = last_zxid;
    }

    /// Where the session stands.
    pub fn state(&self) -> State
        ensures { result ≡ self.now.state }
    {
        self.state
    }

    /// The greatest zxid seen: of the saved one, or 0 for a new session, and those handed to `saw`.
    pub fn last_zxid(&self) -> i64
        ensures last { result ≡ self.now.saved.last }
        ensures counts { pos 0 ≤ℤ result }
    {
        self.last
    }

    /// What another session can be resumed from, also where this one has expired or was closed.
    pub fn saved(&self) -> Saved<'_>
        ensures { Saves self.now result }
    {
        Saved {
            session: self.session,
            password: self.password(),
            last_zxid: self.last,
        }
    }

    fn password(&self) -> &[u8]
        ensures { result.now ≡ self.now.saved.session.password }
    {
        if self.has_password {
            &self.password
        } else {
            &NO_PASSWORD
        }
    }
}

// The first moment at which three times what has passed since then is at least the limit.
fn first_past(limit: u64, since: u64, latest: u64) -> Option<u64>
    requires before { since ≤ latest }
    requires small { limit < 2 ^ 33 }
    ensures { IsFirst (λ moment. is_past limit since (max moment latest)) result }
{
    if has_passed(latest - since, limit) {
        return Some(0);
    }
    since.checked_add((limit + 2) / 3)
}

// The earlier of two moments, if there is one.
fn earlier(one: Option<u64>, other: Option<u64>) -> Option<u64>
    ensures { (is_so is_other : ℕ → Bool) → IsFirst is_so one → IsFirst is_other other
        → IsFirst (λ moment. is_so moment || is_other moment) result }
{
    match (one, other) {
        (Some(one), Some(other)) => Some(one.min(other)),
        (one, None) => one,
        (None, other) => other,
    }
}

// Whether three times the span is at least the limit.
fn has_passed(span: u64, limit: u64) -> bool
    ensures { result ≡ nat_le limit (3 * span) }
{
    span.saturating_mul(3) >= limit
}

// The bytes in place of the others.
fn replace<A: Allocator>(bytes: &mut Vec<u8, A>, by: &[u8]) -> Result<(), AllocError>
    ensures ok { OnOk result (bytes.new.items ≡ by.now) }
    ensures err { OnErr result (bytes.new.items ≡ bytes.old.items) }
{
    bytes.reserve(by.len().saturating_sub(bytes.len()))?;
    bytes.clear();
    let Ok(()) = bytes.extend_from_slice(by) else {
        unreachable!()
    };
    Ok(())
}
