//! The lines that make a client.

ghost use Rattle.std.specs.Prelude.{◌≡◌, IfOk, map};
ghost use Rattle.script_words.specs.Reads.{Reads};
ghost use Rattle.script_replay.specs.Lines.{begin_value_of};
ghost use Rattle.script_replay.specs.ReplayLines.{begin_keyword_of, new_at, saved_at, resume_at, begin_line_at, CanBegin};

use crate::reads::{parse_last, parse_password, parse_session, parse_timeout};
use script_words::reads::{are_printed, is_named, only};
use script_words::script_fault::ScriptFault;
use std::alloc::Allocator;

/// How a line makes a client, by its first word.
#[derive(Clone, Copy)]
pub enum BeginKeyword {
    Timeout,
    Resume,
}

impl BeginKeyword {
    /// The keyword that a word is.
    pub fn named(word: &[u8]) -> Option<BeginKeyword>
        ensures { result ≡ begin_keyword_of word.now }
    {
        if is_named(word, "timeout") {
            Some(BeginKeyword::Timeout)
        } else if is_named(word, "resume") {
            Some(BeginKeyword::Resume)
        } else {
            None
        }
    }
}

/// A line that makes a client. Timeouts are in milliseconds, from 1 on.
#[derive(Drop)]
pub enum BeginLine<A: Allocator> {
    /// Of no session yet.
    Timeout(i32),
    /// Of a session that is taken up: its number, its password, and the last seen zxid, from 0 on.
    Resume {
        timeout: i32,
        session: i64,
        password: Vec<u8, A>,
        last: i64,
    },
}

fn parse_new<A: Allocator + Copy>(words: &[&[u8]]) -> Result<BeginLine<A>, ScriptFault>
    ensures value { Reads begin_value_of result (new_at (map (λ w. w.now) words.now)) }
    ensures can { IfOk result (λ line. CanBegin (begin_value_of line)) }
{
    let timeout = parse_timeout(only(words)?)?;
    Ok(BeginLine::Timeout(timeout))
}

#[tactic(auto, unfolding(crate::specs::ReplayLines::saved_at))]
fn parse_saved<A: Allocator + Copy>(
    alloc: A,
    timeout: &[u8],
    session: &[u8],
    password: &[u8],
    last: &[u8],
) -> Result<BeginLine<A>, ScriptFault>
    ensures value { Reads begin_value_of result (saved_at timeout.now session.now password.now last.now) }
    ensures can { IfOk result (λ line. CanBegin (begin_value_of line)) }
{
    let found = parse_password(alloc, password)?;
    let timeout = parse_timeout(timeout)?;
    let session = parse_session(session)?;
    let last = parse_last(last)?;
    let Some(password) = found else {
        return Err(ScriptFault::Hex);
    };
    Ok(BeginLine::Resume {
        timeout,
        session,
        password,
        last,
    })
}

fn parse_resume<A: Allocator + Copy>(alloc: A, words: &[&[u8]]) -> Result<BeginLine<A>, ScriptFault>
    ensures value { Reads begin_value_of result (resume_at (map (λ w. w.now) words.now)) }
    ensures can { IfOk result (λ line. CanBegin (begin_value_of line)) }
{
    let [timeout, session, password, last] = words else {
        return Err(ScriptFault::Words);
    };
    parse_saved(alloc, timeout, session, password, last)
}

/// The line of a keyword and the words after it.
pub fn parse_begin_line<A: Allocator + Copy>(
    alloc: A,
    keyword: BeginKeyword,
    words: &[&[u8]],
) -> Result<BeginLine<A>, ScriptFault>
    ensures value { Reads begin_value_of result (begin_line_at keyword (map (λ w. w.now) words.now)) }
    ensures can { IfOk result (λ line. CanBegin (begin_value_of line)) }
{
    if !are_printed(words) {
        return Err(ScriptFault::Words);
    }
    match keyword {
        BeginKeyword::Timeout => parse_new(words),
        BeginKeyword::Resume => parse_resume(alloc, words),
    }
}
