//! The moments that go by.

use std::cell::RefCell;

/// A clock that stands still but where somebody waits. Several drivers may share it.
#[derive(Drop)]
pub struct Moments {
    now: RefCell<u64>,
}

impl Moments {
    /// At moment 0.
    pub fn new() -> Moments {
        Moments {
            now: RefCell::new(0),
        }
    }

    /// The moment, in milliseconds.
    pub fn now(&self) -> u64 {
        match self.now.try_borrow() {
            Ok(now) => *now,
            Err(_) => 0,
        }
    }

    /// This many milliseconds go by.
    pub fn pass(&self, ms: u64) {
        if let Ok(mut now) = self.now.try_borrow_mut() {
            *now = now.saturating_add(ms);
        }
    }
}
