//! A command that takes a script.

ghost use Rattle.std.specs.Prelude.{◌≡◌, ◌≢◌, ◌⊎◌, ◌++◌, [], List, ℕ, string_bytes};
ghost use Rattle.std.specs.Io.KnownBytes.{Appends};
ghost use Rattle.zk_nodes.specs.Path.{Text};
ghost use Rattle.script_words.specs.Scripts.{lines_of, refusal_text};
ghost use Rattle.script_words.specs.declared.script.ScriptEnd.{ScriptEnd};
ghost use Rattle.script_words.specs.declared.script.ScriptEnd.TheVariants as ends;
ghost use Rattle.script_words.specs.declared.script_fault.ScriptFault.{ScriptFault as Why};
ghost use Rattle.shell_commands.specs.Asks.{IsUndone};
ghost use Rattle.shell_commands.specs.Scripts.{IsInput};
ghost use Rattle.shell_commands.specs.Written.{RunsOut};

use crate::status::Status;
use crate::written::{unread, write_transcript};
use script_words::input::read_whole;
use script_words::script::Transcript;
use std::alloc::Allocator;
use std::io::{Read, Write};

/// What a command makes of a script.
pub trait Plays<A: Allocator + Copy>: Drop {
    /// What lines print, by how they ended.
    ghost prints: { List Text → List ℕ → ScriptEnd → Type 0 };

    /// Plays a script up to the first line that is not done: what its lines print, and how they end.
    fn transcript(self, alloc: A, script: &[u8]) -> Transcript<A>
        ensures { prints (lines_of script.now) (string_bytes result.text) result.end };

    /// Memory may run out before a line is read.
    ghost unread: { (lines : List Text) → prints lines [] ends.Memory };
}

/// Plays the script on `input`, which is read whole before anything else is done, and prints what its lines print. A line that is
/// refused is told to `errors` with its number; what stands before it is printed. `Memory` where memory ran out, after what whole
/// lines printed, with `halt` where that was in a step of a client; `Stream` where a read of the script or a write of what is
/// printed failed, or the end of the input did not come by the last read. A connection that fails is no fault.
pub fn script_over<P: Plays<A>, A: Allocator + Copy, I: Read, O: Write, E: Write>(
    alloc: A,
    plays: P,
    input: &mut I,
    out: &mut O,
    errors: &mut E,
) -> Status
    // Each line of the input is taken, and what is written is what they print.
    ensures done { result ≡ Status.Done
        → (script text : List ℕ) × IsInput (I.remaining input.old) script × P.prints (lines_of script) text ends.Taken
        × Appends (O.contents out.old) (O.contents out.new) text }
    // A line is refused: its number and the reason are told, and what is written is what stands before it.
    ensures fault { result ≡ Status.Fault → (script text : List ℕ) × (number : ℕ) × (why : Why) × IsInput (I.remaining input.old) script
        × P.prints (lines_of script) text (ends.Refused number why) × Appends (O.contents out.old) (O.contents out.new) text
        × Appends (E.contents errors.old) (E.contents errors.new) (refusal_text number why) }
    // What is written is what the first lines print: of no line a part. The line of a halt stands after it if a step halted.
    ensures memory { result ≡ Status.Memory → (script text told : List ℕ) × (end : ScriptEnd) × IsInput (I.remaining input.old) script
        × P.prints (lines_of script) text end × RunsOut end told × Appends (O.contents out.old) (O.contents out.new) (text ++ told) }
    ensures silent { (result ≡ Status.Done) ⊎ (result ≡ Status.Memory) → errors.new ≡ errors.old }
    ensures usage { result ≢ Status.Usage }
    ensures asks { IsUndone result → ⊥ }
    ensures never { result ≢ Status.NeverConnected }
    ensures more { result ≢ Status.More }
{
    let script = match read_whole(alloc, input) {
        Ok(script) => script,
        Err(fault) => return unread(fault),
    };
    let transcript = plays.transcript(alloc, script.as_slice());
    write_transcript(out, errors, &transcript)
}
