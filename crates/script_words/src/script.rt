//! A script, read line by line up to the first that is not done.

ghost use Rattle.std.specs.Prelude.{◌≡◌, [], IfErr, IfOk, OnErr, OnOk, map, string_bytes};
ghost use Rattle.script_words.specs.Scripts.{end_at, lines_of, progress, Goes, IsDue, IsTranscript, Rules};

use crate::pieces::lines_of;
use crate::script_fault::ScriptFault;
use crate::stop::LineStop;
use std::alloc::Allocator;

/// How the lines of a script ended.
#[derive(Clone, Copy)]
pub enum ScriptEnd {
    /// Each line was taken.
    Taken,
    /// The line of this number, counted from 1, was refused.
    Refused { number: usize, why: ScriptFault },
    /// The client ran out of memory in a step.
    Halted,
    /// Memory ran out elsewhere.
    Memory,
}

/// What the lines of a script print, and how they ended.
#[derive(Drop)]
pub struct Transcript<A: Allocator> {
    pub text: String<A>,
    pub end: ScriptEnd,
}

/// What the lines of a script drive: it does what a line says.
pub trait LineReader<A: Allocator + Copy> {
    /// Where it stands after some lines.
    ghost Position: { Type 0 };

    /// What its lines do, and why they are not done.
    ghost rules: { Rules Position };

    /// It is at this position.
    ghost stands: { Self → Position → Type 0 };

    /// Does what a line says, and gives what is to be printed. The first reason that applies refuses a line. A halt is the answer
    /// only where the client has halted at what the line says.
    fn read(&mut self, alloc: A, line: &[u8]) -> Result<String<A>, LineStop>
        ensures ok { (old : Position) → stands self.old old
            → IfOk result (λ text. (new : Position) × rules.Takes line.now old new (string_bytes text) × stands self.new new) }
        ensures err { (old : Position) → stands self.old old → IfErr result (IsDue rules line.now old) };
}

/// Adds what one line prints: all of it, or nothing where the line is not done.
fn read_line<A: Allocator + Copy, R: LineReader<A>>(
    alloc: A,
    reader: &mut R,
    line: &[u8],
    text: &mut String<A>,
) -> Result<(), LineStop>
    ensures ok { (old : R.Position) → R.stands reader.old old → OnOk result ((new : R.Position)
        × Goes R.rules (progress old (string_bytes text.old)) line.now (progress new (string_bytes text.new)) × R.stands reader.new new) }
    ensures err { (old : R.Position) → R.stands reader.old old → IfErr result (IsDue R.rules line.now old) }
    ensures same { OnErr result (string_bytes text.new ≡ string_bytes text.old) }
{
    let printed = reader.read(alloc, line)?;
    match text.push_str(printed.as_str()) {
        Ok(()) => Ok(()),
        Err(_) => Err(LineStop::Memory),
    }
}

/// How lines end at the line of this number, which is not done.
pub fn end_at(number: usize, stop: LineStop) -> ScriptEnd
    ensures { result ≡ end_at number stop }
{
    match stop {
        LineStop::Refused(why) => ScriptEnd::Refused { number, why },
        LineStop::Halted => ScriptEnd::Halted,
        LineStop::Memory => ScriptEnd::Memory,
    }
}

/// Reads lines up to the first that is not done. `told` is what was printed before them.
pub fn read_lines<A: Allocator + Copy, R: LineReader<A>>(
    alloc: A,
    reader: &mut R,
    lines: &[&[u8]],
    told: String<A>,
) -> Transcript<A>
    ensures { (first : R.Position) → R.stands reader.old first
        → IsTranscript R.rules (progress first (string_bytes told)) (map (λ l. l.now) lines.now) (string_bytes result.text) result.end }
{
    let mut text = told;
    for (index, line) in lines.iter().enumerate() {
        if let Err(stop) = read_line(alloc, reader, line, &mut text) {
            let end = end_at(index + 1, stop);
            return Transcript { text, end };
        }
    }
    let end = ScriptEnd::Taken;
    Transcript { text, end }
}

/// Nothing is printed, and lines end so.
pub fn nothing<A: Allocator + Copy>(alloc: A, end: ScriptEnd) -> Transcript<A>
    ensures text { string_bytes result.text ≡ [] }
    ensures end { result.end ≡ end }
{
    let text = String::new(alloc);
    Transcript { text, end }
}

/// Reads a script up to the first line that is not done: what its lines print, and how they end.
pub fn read_script<A: Allocator + Copy, R: LineReader<A>>(
    alloc: A,
    reader: &mut R,
    script: &[u8],
) -> Transcript<A>
    ensures { (first : R.Position) → R.stands reader.old first
        → IsTranscript R.rules (progress first []) (lines_of script.now) (string_bytes result.text) result.end }
{
    match lines_of(alloc, script) {
        Ok(lines) => read_lines(alloc, reader, lines.as_slice(), String::new(alloc)),
        Err(_) => nothing(alloc, ScriptEnd::Memory),
    }
}
