//! Addresses in turn.

use zk_link::Dial;

/// Addresses whose turn comes one after the other, from the first on, and after the last the first again.
#[derive(Drop)]
pub struct Ring<'a> {
    addresses: &'a [&'a str],
    next: usize,
}

impl<'a> Ring<'a> {
    /// From the first address on.
    pub fn new(addresses: &'a [&'a str]) -> Ring<'a> {
        Ring { addresses, next: 0 }
    }

    /// The address whose turn it is, or none if there are no addresses.
    pub fn turn(&mut self) -> Option<&'a str> {
        let address = self.addresses.get(self.next)?;
        self.next += 1;
        if self.next >= self.addresses.len() {
            self.next = 0;
        }
        Some(*address)
    }

    /// The first connection that is made, each within this many milliseconds, at least 1. Each address is dialled once at most.
    pub fn connect<D: Dial>(&mut self, dial: &mut D, within_ms: u64) -> Option<D::Stream> {
        for _ in self.addresses {
            let address = self.turn()?;
            if let Ok(stream) = dial.dial(address, within_ms) {
                return Some(stream);
            }
        }
        None
    }
}
