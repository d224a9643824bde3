//! The command that tells a capture of a connection frame by frame.

ghost use Rattle.std.proofs.Common.{◌≡◌, [], ◌∷◌, ◌++◌, refl, codes, map};
ghost use Rattle.shell_commands.specs.CommandLine.{asks_stream};
ghost use Rattle.script_stream.specs.Lines.{IsShown};
ghost use Rattle.script_stream.specs.Streams.{first_position};

use crate::script::Plays;
use script_stream::shown::shown_stream;
use script_words::script::Transcript;
use std::alloc::Allocator;

/// Whether the words ask for the frames of a capture.
pub fn asks_stream(words: &[&str]) -> bool
    ensures { result ≡ asks_stream (map (λ w. w.now) words.now) }
{
    match words {
        [_, command, option] => *command == "show" && *option == "--stream",
        _ => false,
    }
}

/// A capture of a connection, whose frames are told.
#[derive(Drop)]
pub struct ToldCapture;

impl<A: Allocator + Copy> Plays<A> for ToldCapture {
    ghost prints = { IsShown };

    ghost unread = { λ lines.
        record { before = []; behind = lines ++ codes "end" ∷ []; are = refl; prints = record { end = first_position; taken = refl } } };

    fn transcript(self, alloc: A, script: &[u8]) -> Transcript<A> {
        shown_stream(alloc, script)
    }
}
