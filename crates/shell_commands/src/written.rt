//! How what the lines of a script print is written, and how they ended is told.

ghost use Rattle.std.specs.Prelude.{◌≡◌, ◌≢◌, ◌⊎◌, ◌++◌, List, ℕ, codes, string_bytes};
ghost use Rattle.std.specs.Io.KnownBytes.{Appends};
ghost use Rattle.script_words.specs.Scripts.{refusal_text};
ghost use Rattle.script_words.specs.declared.script_fault.ScriptFault.{ScriptFault as Why};
ghost use Rattle.shell_commands.specs.Asks.{IsUndone};
ghost use Rattle.shell_commands.specs.inner.Written.{unread};
ghost use Rattle.shell_commands.specs.Written.{RunsOut};

use crate::status::Status;
use script_words::input::InputFault;
use script_words::script::{ScriptEnd, Transcript};
use script_words::script_fault::ScriptFault;
use std::alloc::Allocator;
use std::io::Write;

/// How a command ends whose script was not read.
pub(crate) fn unread(fault: InputFault) -> Status
    ensures is { result ≡ unread fault }
    ensures only { (result ≡ Status.Memory) ⊎ (result ≡ Status.Stream) }
{
    match fault {
        InputFault::Unread => Status::Stream,
        InputFault::Memory => Status::Memory,
    }
}

/// Tells which line is refused and why.
fn print_refusal<E: Write>(errors: &mut E, number: usize, why: ScriptFault) -> Status
    ensures fault { result ≡ Status.Fault → Appends (E.contents errors.old) (E.contents errors.new) (refusal_text number why) }
    ensures only { (result ≡ Status.Fault) ⊎ (result ≡ Status.Stream) }
{
    match writeln!(errors, "line {number}: {why}") {
        Ok(()) => Status::Fault,
        Err(_) => Status::Stream,
    }
}

/// Writes a text, and answers this status unless that fails.
pub(crate) fn write_text<W: Write>(to: &mut W, text: &str, status: Status) -> Status
    ensures written { result ≢ Status.Stream → (result ≡ status) × Appends (W.contents to.old) (W.contents to.new) text.now }
    ensures only { (result ≡ status) ⊎ (result ≡ Status.Stream) }
{
    match to.write_all(text.as_bytes()) {
        Ok(()) => status,
        Err(_) => Status::Stream,
    }
}

/// Says that a step of the client ran out of memory.
pub(crate) fn halt<O: Write>(out: &mut O) -> Status
    ensures written { result ≡ Status.Memory → Appends (O.contents out.old) (O.contents out.new) (codes "halt\n") }
    ensures only { (result ≡ Status.Memory) ⊎ (result ≡ Status.Stream) }
{
    match out.write_all(b"halt\n") {
        Ok(()) => Status::Memory,
        Err(_) => Status::Stream,
    }
}

/// Writes what lines print, and tells how they ended: to `errors` the number of a line that is refused, and why. `Memory` where
/// memory ran out, with the line `halt` after the others if that was in a step of the client; `Stream` where a write failed.
pub(crate) fn write_transcript<A: Allocator, O: Write, E: Write>(
    out: &mut O,
    errors: &mut E,
    transcript: &Transcript<A>,
) -> Status
    ensures done { result ≡ Status.Done
        → (transcript.now.end ≡ ScriptEnd.Taken) × Appends (O.contents out.old) (O.contents out.new) (string_bytes transcript.now.text) }
    ensures fault { result ≡ Status.Fault → (number : ℕ) × (why : Why) × (transcript.now.end ≡ ScriptEnd.Refused number why)
        × Appends (O.contents out.old) (O.contents out.new) (string_bytes transcript.now.text)
        × Appends (E.contents errors.old) (E.contents errors.new) (refusal_text number why) }
    ensures memory { result ≡ Status.Memory → (told : List ℕ) × RunsOut transcript.now.end told
        × Appends (O.contents out.old) (O.contents out.new) (string_bytes transcript.now.text ++ told) }
    ensures silent { (result ≡ Status.Done) ⊎ (result ≡ Status.Memory) → errors.new ≡ errors.old }
    ensures usage { result ≢ Status.Usage }
    ensures asks { IsUndone result → ⊥ }
    ensures never { result ≢ Status.NeverConnected }
    ensures more { result ≢ Status.More }
{
    if out.write_all(transcript.text.as_bytes()).is_err() {
        return Status::Stream;
    }
    match transcript.end {
        ScriptEnd::Taken => Status::Done,
        ScriptEnd::Refused { number, why } => print_refusal(errors, number, why),
        ScriptEnd::Halted => halt(out),
        ScriptEnd::Memory => Status::Memory,
    }
}
