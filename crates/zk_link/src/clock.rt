//! Moments.

use std::time;

/// What tells moments, in milliseconds from any beginning, and waits. It may go back: a driver never does.
pub trait Clock {
    /// The moment.
    fn now(&mut self) -> u64;

    /// Waits for this many milliseconds.
    fn pause(&mut self, ms: u64);
}

/// The system's clock that does not go back.
#[derive(Drop)]
pub struct SystemClock<'a, R: time::Clock> {
    clock: &'a R,
}

impl<'a, R: time::Clock> SystemClock<'a, R> {
    /// Over a runtime.
    pub fn new(clock: &'a R) -> SystemClock<'a, R> {
        SystemClock { clock }
    }
}

impl<'a, R: time::Clock> Clock for SystemClock<'a, R> {
    /// The moment, and 0 where the system tells none.
    fn now(&mut self) -> u64 {
        match self.clock.monotonic() {
            Ok(moment) => u64::try_from(moment.as_millis()).unwrap_or(u64::MAX),
            Err(_) => 0,
        }
    }

    fn pause(&mut self, ms: u64) {
        self.clock.sleep(time::Duration::from_millis(ms));
    }
}
