//! When to dial again.

ghost use Rattle.std.specs.Prelude.{◌≡◌, None, Some};
ghost use Rattle.zk_dialler.specs.Backoffs.{connected_at, has_lived, refused_at, row_ended, Attempts};

use crate::chance::Chance;
use crate::pause::pause_after;

/// No attempt begins within this many milliseconds after the one before has begun, except after a refusal: three a second at most.
const FLOOR_MS: u64 = 334;

/// The first moment of the next attempt to connect. Moments are milliseconds of one clock.
#[derive(Clone, Copy)]
pub struct Backoff {
    pub(crate) chance: Chance,
    pub(crate) failures: u32,
    pub(crate) connected: Option<u64>,
    pub(crate) ended: u64,
    pub(crate) least: u64,
    pub(crate) moment: u64,
}

impl Backoff {
    /// The first attempt may be made at once.
    pub fn new(chance: Chance) -> Backoff
        ensures { result ≡ record { chance = chance; failures = 0; connected = None; ended = 0; least = 0; moment = 0 } }
    {
        Backoff {
            chance,
            failures: 0,
            connected: None,
            ended: 0,
            least: 0,
            moment: 0,
        }
    }

    /// The first moment of the next attempt.
    pub fn moment(&self) -> u64
        ensures { result ≡ self.now.moment }
    {
        self.moment
    }

    /// An attempt was made between these two moments, whether it has made a connection or not. It counts as one that failed until the row
    /// of failures ends.
    pub fn attempt(&mut self, timeout_ms: u32, began: u64, ended: u64)
        ensures { Attempts timeout_ms began ended self.old self.new }
    {
        let connected = self.connected.unwrap_or(began);
        let is_over = u64::from(timeout_ms) < ended.saturating_sub(connected);
        self.connected = Some(connected);
        self.failures = self.failures.saturating_add(1);
        self.chance.advance();
        self.ended = ended;
        self.least = began.saturating_add(FLOOR_MS);
        let pause = pause_after(self.failures, is_over, timeout_ms, self.chance);
        self.moment = ended.saturating_add(pause).max(self.least);
    }

    /// The server of the last attempt refused it at this moment. As long as one of this many addresses was not tried in the row of
    /// failures, the next attempt may be made at once.
    pub fn refuse(&mut self, count: usize, now: u64)
        ensures { self.new ≡ refused_at count now self.old }
    {
        if (self.failures as usize) < count {
            self.least = now;
            self.moment = now;
        }
    }

    /// The client was connected up to this moment. The row of failures goes on.
    pub fn connect(&mut self, now: u64)
        ensures { self.new ≡ record self.old { connected = Some now } }
    {
        self.connected = Some(now);
    }

    /// Whether the connection that the last attempt made has lived for a third of the timeout.
    pub fn has_lived(&self, timeout_ms: u32, now: u64) -> bool
        ensures { result ≡ has_lived timeout_ms self.now.ended now }
    {
        let third = u64::from(timeout_ms / 3);
        self.ended <= now && third <= now - self.ended
    }

    /// The client is connected at this moment. The row of failures ends where the connection that the last attempt made has lived for a
    /// third of the timeout.
    pub fn connected(&mut self, timeout_ms: u32, now: u64)
        ensures { self.new ≡ connected_at timeout_ms now self.old }
    {
        self.connect(now);
        if self.has_lived(timeout_ms, now) {
            self.end_row();
        }
    }

    /// The row of failures ends: there is no pause before the next attempt, except the third of a second between two. So it is after the
    /// reply to a call, and after an expiry that a server has told.
    pub fn end_row(&mut self)
        ensures { self.new ≡ row_ended self.old }
    {
        self.failures = 0;
        self.moment = self.least;
    }
}
