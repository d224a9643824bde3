//! What is told on standard error of what a command does not see: its words, its connections and its streams.

use crate::noted::Note;
use std::alloc::Global;
use std::cell::RefCell;
use std::env::Env;
use std::io::{ErrorKind, Write};

/// The most bytes of a word that the system hands to a program.
const LONGEST_WORD: usize = 131_072;

/// Tells what came of an address. Bytes other than printable ASCII are escaped.
fn tell_note<E: Write>(errors: &mut E, note: &Note) {
    let address = note.address.as_bytes().escape_ascii();
    let _ = match note.fault {
        None => writeln!(errors, "{address}: connected, but no session was accepted"),
        Some(ErrorKind::NotFound) => writeln!(errors, "{address}: host not found"),
        Some(kind) => writeln!(errors, "{address}: {kind}"),
    };
}

/// Tells of each address that was dialled what came of it last, a line each.
pub fn tell_notes<E: Write>(errors: &mut E, notes: &RefCell<Vec<Note>>) {
    if let Ok(notes) = notes.try_borrow() {
        for note in notes.iter() {
            tell_note(errors, note);
        }
    }
}

/// Tells which stream failed: standard output, by its last failure, or standard input, if that has none. Nothing is told if who
/// reads the output has closed it.
pub fn tell_stream<E: Write>(errors: &mut E, fault: Option<ErrorKind>) {
    let _ = match fault {
        Some(ErrorKind::BrokenPipe) => Ok(()),
        Some(kind) => writeln!(errors, "error: standard output: {kind}"),
        None => writeln!(errors, "error: standard input: a read failed"),
    };
}

/// Tells which word of a command line is the first that is not UTF-8. The first after the program's name is word 1.
pub fn tell_word<R: Env, E: Write>(alloc: Global, system: &R, errors: &mut E) {
    let Ok(mut room) = vec![in alloc; 0u8; LONGEST_WORD] else {
        return;
    };
    for place in 1..usize::MAX {
        let Ok(count) = system.arg(place, room.as_mut_slice()) else {
            return;
        };
        let word = room.as_slice().get(..count).unwrap_or(&[]);
        if str::from_utf8(word).is_err() {
            let _ = writeln!(
                errors,
                "error: word {place} is not UTF-8: {}",
                word.escape_ascii()
            );
            return;
        }
    }
}
