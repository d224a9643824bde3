//! The client that a script asks for.

ghost use Rattle.std.specs.Prelude.{◌≡◌, IfErr, IfOk, map};
ghost use Rattle.script_replay.specs.Lines.{begin_value_of};
ghost use Rattle.script_replay.specs.ReplayLines.{CanBegin};
ghost use Rattle.script_live.specs.Begins.{begun_by, Begins, Nothing};

use crate::live_line::{ASKED, parse_first_line};
use script_replay::begin_line::BeginLine;
use script_words::script::{ScriptEnd, end_at};
use script_words::stop::LineStop;
use std::alloc::Allocator;

/// The client that lines ask for: the first that is neither empty nor a remark says which. An error if that line is refused,
/// and for memory.
pub fn begin_of<A: Allocator + Copy>(alloc: A, lines: &[&[u8]]) -> Result<BeginLine<A>, ScriptEnd>
    ensures value { IfOk result (λ line. begun_by (map (λ l. l.now) lines.now) ≡ Begins (begin_value_of line)) }
    ensures can { IfOk result (λ line. CanBegin (begin_value_of line)) }
    ensures err { IfErr result (λ end. Nothing (map (λ l. l.now) lines.now) end) }
{
    for (index, line) in lines.iter().enumerate() {
        match parse_first_line(alloc, line) {
            Ok(None) => {}
            Ok(Some(begin)) => return Ok(begin),
            Err(fault) => return Err(end_at(index + 1, LineStop::from(fault))),
        }
    }
    Ok(BeginLine::Timeout(ASKED))
}
