//! When a connection is asked for, at which address, and when an attempt is given up.

ghost use Rattle.std.specs.Prelude.{◌≡◌, ◌≤◌, ◌+◌, Bool, true, false, is_some, length, IfOk, OnOk, OnErr};
ghost use Rattle.std.specs.List.Sorted.{IsPermutation};
ghost use Rattle.zk_dialler.specs.Backoffs.{connected_at, row_ended};
ghost use Rattle.zk_dialler.specs.Chances.{next_state, state_after};
ghost use Rattle.zk_dialler.specs.Dialling.{first_moment, is_due, is_open, is_waiting, Ends, Opens, DialsWell};
ghost use Rattle.zk_dialler.specs.Moves.{moves_by, order_of, tries_kept};
ghost use Rattle.zk_dialler.specs.Orders.{numbers, shuffled};

use crate::backoff::Backoff;
use crate::chance::Chance;
use crate::moves::{are_kept_first, is_to_move};
use crate::ring::Ring;
use std::alloc::{AllocError, Allocator, Global};

/// The shortest time that an attempt to connect has, in milliseconds, whatever the timeout.
const SHORTEST_DIAL_MS: u64 = 1_000;

/// Where the connection is.
#[derive(Clone, Copy)]
pub(crate) enum Phase {
    /// There is none, and the next attempt has its moment.
    Waiting,
    /// One is asked for since a moment. At another the attempt is given up.
    Dialling { began: u64, until: u64 },
    /// There is one.
    Open,
}

/// What is to be done about the connection.
#[derive(Clone, Copy)]
pub enum DialDue {
    /// Connect to the address at this place of the caller's list. After this many milliseconds the attempt will be given up.
    Dial { place: usize, within_ms: u64 },
    /// Give the attempt up.
    GiveUp,
}

/// The addresses of the servers, and where the connection is. Moments are milliseconds of one clock; the timeout is that of the session.
#[derive(Drop)]
pub struct Dialler<A: Allocator = Global> {
    ring: Ring<A>,
    backoff: Backoff,
    phase: Phase,
}

impl<A: Allocator + Copy> Dialler<A> {
    /// Another list: its first addresses, as many as `kept`, were in the list before, and as many as `added`, after them, were not.
    /// `is_listed` says whether it has the server of the connection, or else the one that was dialled last.
    ///
    /// The answer is whether the session moves, so that servers that were added get their share: the caller then ends a connection or an
    /// attempt that is on. If its server is in both lists, the session moves by the chance by which the list has grown, and stays if it has
    /// not; if its server has left, it moves. One that moves dials the new addresses first if the list has grown; else those of one group,
    /// by a chance that levels the load. So do ZooKeeper's own clients.
    ///
    /// Nothing else changes here: the connection, the attempt and the row of failures are as they were. An error means that memory ran out,
    /// and nothing has changed then.
    pub fn change_addresses(
        &mut self,
        alloc: A,
        kept: usize,
        added: usize,
        is_listed: bool,
    ) -> Result<bool, AllocError>
        ensures moves { IfOk result (λ moves. moves
            ≡ moves_by (length self.old.ring.order.items) (kept + added) is_listed (next_state self.old.backoff.chance.state)) }
        ensures leaves { IfOk result (λ moves. is_listed ≡ false → moves ≡ true) }
        ensures stays { IfOk result (λ moves. is_listed ≡ true → kept + added ≤ length self.old.ring.order.items → moves ≡ false) }
        ensures order { IfOk result (λ moves.
            let shuffle = next_state self.old.backoff.chance.state in
            let group = next_state (state_after (kept + added) shuffle) in
            self.new.ring.order.items ≡ order_of moves (tries_kept (length self.old.ring.order.items) kept (kept + added) group) kept
            (shuffled shuffle (kept + added) (numbers (kept + added)))) }
        ensures each { OnOk result (IsPermutation (numbers (kept + added)) self.new.ring.order.items) }
        ensures first { OnOk result (self.new.ring.next ≡ 0) }
        ensures phase { OnOk result (self.new.phase ≡ self.old.phase) }
        ensures backoff { OnOk result (self.new.backoff ≡ record self.old.backoff {
          chance = record {
            state = next_state (next_state (state_after (kept + added) (next_state self.old.backoff.chance.state)));
          };
        }) }
        ensures same { OnErr result (self.new ≡ self.old) }
    {
        let Some(count) = kept.checked_add(added) else {
            return Err(AllocError);
        };
        let before = self.ring.count();
        let mut chance = self.backoff.chance;
        chance.advance();
        let moves = is_to_move(before, count, is_listed, chance);
        let ring = Ring::new(alloc, count, &mut chance)?;
        chance.advance();
        let kept_first = are_kept_first(before, kept, count, &mut chance);
        self.ring = ring.regrouped(alloc, moves, kept, kept_first)?;
        self.backoff.chance = chance;
        Ok(moves)
    }
}

impl<A: Allocator> Dialler<A> {
    /// With this many addresses, by this seed. There is no connection, and the first attempt may be made at once.
    pub fn new(alloc: A, count: usize, seed: u64) -> Result<Dialler<A>, AllocError>
        ensures phase { IfOk result (λ dialler. dialler.phase ≡ Phase.Waiting) }
        ensures order { IfOk result (λ dialler. dialler.ring.order.items ≡ shuffled seed count (numbers count)) }
        ensures each { IfOk result (λ dialler. IsPermutation (numbers count) dialler.ring.order.items) }
        ensures first { IfOk result (λ dialler. dialler.ring.next ≡ 0) }
        ensures backoff { IfOk result (λ dialler. dialler.backoff ≡ record {
          chance = record { state = state_after count seed };
          failures = 0;
          connected = None;
          ended = 0;
          least = 0;
          moment = 0;
        }) }
    {
        let mut chance = Chance::new(seed);
        let ring = Ring::new(alloc, count, &mut chance)?;
        Ok(Dialler {
            ring,
            backoff: Backoff::new(chance),
            phase: Phase::Waiting,
        })
    }

    /// What is to be done at this moment: an attempt for a third of the timeout, and for a second at least, or the end of one.
    pub fn due(&mut self, timeout_ms: u32, now: u64) -> Option<DialDue>
        ensures well { DialsWell timeout_ms now self.old self.new result }
        ensures told { is_some result ≡ is_due now self.old }
    {
        match self.phase {
            Phase::Waiting if self.backoff.moment() <= now => {
                let place = self.ring.turn()?;
                let within_ms = u64::from(timeout_ms / 3).max(SHORTEST_DIAL_MS);
                self.phase = Phase::Dialling {
                    began: now,
                    until: now.saturating_add(within_ms),
                };
                Some(DialDue::Dial { place, within_ms })
            }
            Phase::Dialling { began, until } if until <= now => {
                self.backoff.attempt(timeout_ms, began, now);
                self.phase = Phase::Waiting;
                Some(DialDue::GiveUp)
            }
            _ => None,
        }
    }

    /// The first moment at which something is to be done. There is none while there is a connection, or where there are no addresses.
    pub fn deadline(&self) -> Option<u64>
        ensures { result ≡ first_moment self.now }
    {
        match self.phase {
            Phase::Waiting if !self.ring.is_empty() => Some(self.backoff.moment()),
            Phase::Dialling { until, .. } => Some(until),
            _ => None,
        }
    }

    /// Whether there is a connection.
    pub fn is_open(&self) -> bool
        ensures { result ≡ is_open self.now.phase }
    {
        matches!(self.phase, Phase::Open)
    }

    /// Whether there is no connection, and none is asked for.
    pub fn is_waiting(&self) -> bool
        ensures { result ≡ is_waiting self.now.phase }
    {
        matches!(self.phase, Phase::Waiting)
    }

    /// The connection that was asked for is there since this moment. The answer is false where none was asked for, as where the attempt was
    /// given up before: nothing has changed then, and the caller is to close it.
    pub fn open(&mut self, timeout_ms: u32, now: u64) -> bool
        ensures { Opens timeout_ms now self.old self.new result }
    {
        let Phase::Dialling { began, .. } = self.phase else {
            return false;
        };
        self.backoff.attempt(timeout_ms, began, now);
        self.phase = Phase::Open;
        true
    }

    /// The server has refused the attempt, or the connection is over, at this moment. After a refusal the next address has its turn at
    /// once, until each has had one in this row of failures: a server that is down costs no pause while others may be up.
    pub fn end(&mut self, timeout_ms: u32, now: u64)
        ensures { Ends timeout_ms now self.old self.new }
    {
        if let Phase::Dialling { began, .. } = self.phase {
            self.backoff.attempt(timeout_ms, began, now);
            self.backoff.refuse(self.ring.count(), now);
        }
        self.phase = Phase::Waiting;
    }

    /// The client is connected at this moment. The row of failures ends where the connection has lived for a third of the timeout.
    pub fn connected(&mut self, timeout_ms: u32, now: u64)
        ensures { self.new ≡ record self.old { backoff = connected_at timeout_ms now self.old.backoff } }
    {
        self.backoff.connected(timeout_ms, now);
    }

    /// A server has answered a call, or has told an expiry: the row of failures ends.
    pub fn answered(&mut self)
        ensures { self.new ≡ record self.old { backoff = row_ended self.old.backoff } }
    {
        self.backoff.end_row();
    }
}
