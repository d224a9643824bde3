//! A dial that notes what came of each address.

use std::alloc::Global;
use std::cell::RefCell;
use std::io::{self, ErrorKind};
use zk_link::Dial;

/// What came of an address when it was dialled last: a connection, or why there was none.
#[derive(Drop)]
pub struct Note {
    pub address: String,
    pub fault: Option<ErrorKind>,
}

/// Another dial, with a note of each address that it has dialled, in the order in which they were dialled first.
#[derive(Drop)]
pub struct Noted<'a, D: Dial + Drop> {
    alloc: Global,
    dial: D,
    notes: &'a RefCell<Vec<Note>>,
}

impl<'a, D: Dial + Drop> Noted<'a, D> {
    /// Over another dial, with these notes.
    pub fn new(alloc: Global, dial: D, notes: &'a RefCell<Vec<Note>>) -> Noted<'a, D> {
        Noted { alloc, dial, notes }
    }

    /// Notes what came of an address. If memory runs out, it has no note.
    fn note(&self, address: &str, fault: Option<ErrorKind>) {
        let Ok(mut notes) = self.notes.try_borrow_mut() else {
            return;
        };
        for note in notes.iter_mut() {
            if note.address.as_str() == address {
                note.fault = fault;
                return;
            }
        }
        if let Ok(address) = String::from_str(self.alloc, address) {
            let _ = notes.push(Note { address, fault });
        }
    }
}

impl<'a, D: Dial + Drop> Dial for Noted<'a, D> {
    type Stream = D::Stream;

    fn dial(&mut self, address: &str, within_ms: u64) -> io::Result<D::Stream> {
        let dialled = self.dial.dial(address, within_ms);
        let fault = match &dialled {
            Ok(_) => None,
            Err(fault) => Some(fault.kind()),
        };
        self.note(address, fault);
        dialled
    }
}
