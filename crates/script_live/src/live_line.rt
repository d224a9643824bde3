//! The lines of a live session.

ghost use Rattle.std.specs.Prelude.{◌≡◌, IfOk, IfSome, map};
ghost use Rattle.std.specs.Option.{option_map};
ghost use Rattle.script_words.specs.Pieces.{words_of};
ghost use Rattle.script_words.specs.Reads.{Reads};
ghost use Rattle.script_replay.specs.Lines.{begin_value_of};
ghost use Rattle.script_replay.specs.ReplayLines.{CanBegin};
ghost use Rattle.script_live.specs.inner.Lines.{live_value_of};
ghost use Rattle.script_live.specs.LiveLines.{begins_at, keyword_of, placed_at, resume_at, says_at};

use script_replay::begin_line::{BeginKeyword, BeginLine, parse_begin_line};
use script_replay::client_line::{ClientKeyword, ClientLine, parse_client_line};
use script_words::pieces::words_of;
use script_words::reads::{alone, is_named, split_keyword};
use script_words::script_fault::ScriptFault;
use std::alloc::Allocator;

/// The timeout that a client asks for, in milliseconds.
pub const ASKED: i32 = 30_000;

/// What a line does, by its first word.
#[derive(Clone, Copy)]
pub enum LiveKeyword {
    Resume,
    Open,
    Client(ClientKeyword),
}

impl LiveKeyword {
    /// The keyword that a word is.
    pub fn named(word: &[u8]) -> Option<LiveKeyword>
        ensures { result ≡ keyword_of word.now }
    {
        if is_named(word, "resume") {
            Some(LiveKeyword::Resume)
        } else if is_named(word, "open") {
            Some(LiveKeyword::Open)
        } else {
            match ClientKeyword::named(word) {
                Some(word) => Some(LiveKeyword::Client(word)),
                None => None,
            }
        }
    }
}

/// A line of a live session.
#[derive(Drop)]
pub enum LiveLine<A: Allocator> {
    /// A session is taken up. It was, before the first connection.
    Resume(BeginLine<A>),
    /// A connection is to begin.
    Open,
    /// What is the same whatever is at the other end.
    Client(ClientLine<A>),
}

/// The session that the words after `resume` take up: its number, its password and the last seen zxid.
fn parse_resume<A: Allocator + Copy>(alloc: A, words: &[&[u8]]) -> Result<BeginLine<A>, ScriptFault>
    ensures value { Reads begin_value_of result (resume_at (map (λ w. w.now) words.now)) }
    ensures can { IfOk result (λ line. CanBegin (begin_value_of line)) }
{
    let [session, password, last] = words else {
        return Err(ScriptFault::Words);
    };
    let words = [b"30000".as_slice(), *session, *password, *last];
    parse_begin_line(alloc, BeginKeyword::Resume, words.as_slice())
}

/// The line of a keyword and the words after it. A session is taken up by the first line alone.
#[tactic(auto, using(script_words::proofs::ReadLemmas::alone_reads))]
fn parse_placed<A: Allocator + Copy>(
    alloc: A,
    keyword: LiveKeyword,
    is_begun: bool,
    words: &[&[u8]],
) -> Result<LiveLine<A>, ScriptFault>
    ensures { Reads live_value_of result (placed_at keyword is_begun (map (λ w. w.now) words.now)) }
{
    match keyword {
        LiveKeyword::Resume if is_begun => Err(ScriptFault::Place),
        LiveKeyword::Resume => {
            let line = parse_resume(alloc, words)?;
            Ok(LiveLine::Resume(line))
        }
        LiveKeyword::Open => alone(LiveLine::Open, words),
        LiveKeyword::Client(word) => {
            let line = parse_client_line(alloc, word, words)?;
            Ok(LiveLine::Client(line))
        }
    }
}

/// What words say, if they are some and no remark.
fn parse_words<A: Allocator + Copy>(
    alloc: A,
    words: &[&[u8]],
    is_begun: bool,
) -> Result<Option<LiveLine<A>>, ScriptFault>
    ensures { Reads (option_map live_value_of) result (says_at (map (λ w. w.now) words.now) is_begun) }
{
    let Some((first, behind)) = split_keyword(words) else {
        return Ok(None);
    };
    let keyword = LiveKeyword::named(first).ok_or(ScriptFault::Unknown)?;
    let line = parse_placed(alloc, keyword, is_begun, behind)?;
    Ok(Some(line))
}

/// What a line says, if it is neither empty nor a remark; or the first reason that refuses it.
pub fn parse_live_line<A: Allocator + Copy>(
    alloc: A,
    line: &[u8],
    is_begun: bool,
) -> Result<Option<LiveLine<A>>, ScriptFault>
    ensures { Reads (option_map live_value_of) result (says_at (words_of line.now) is_begun) }
{
    match words_of(alloc, line) {
        Ok(words) => parse_words(alloc, words.as_slice(), is_begun),
        Err(_) => Err(ScriptFault::Memory),
    }
}

/// The client that words ask for, if they are some and no remark.
fn parse_begin_words<A: Allocator + Copy>(
    alloc: A,
    words: &[&[u8]],
) -> Result<Option<BeginLine<A>>, ScriptFault>
    ensures value { Reads (option_map begin_value_of) result (begins_at (map (λ w. w.now) words.now)) }
    ensures can { IfOk result (λ found. IfSome found (λ line. CanBegin (begin_value_of line))) }
{
    let Some((first, behind)) = split_keyword(words) else {
        return Ok(None);
    };
    if !is_named(first, "resume") {
        return Ok(Some(BeginLine::Timeout(ASKED)));
    }
    let line = parse_resume(alloc, behind)?;
    Ok(Some(line))
}

/// The client that a line asks for, if it is neither empty nor a remark: of no session yet if it is no line that takes one up.
pub fn parse_first_line<A: Allocator + Copy>(
    alloc: A,
    line: &[u8],
) -> Result<Option<BeginLine<A>>, ScriptFault>
    ensures value { Reads (option_map begin_value_of) result (begins_at (words_of line.now)) }
    ensures can { IfOk result (λ found. IfSome found (λ line. CanBegin (begin_value_of line))) }
{
    match words_of(alloc, line) {
        Ok(words) => parse_begin_words(alloc, words.as_slice()),
        Err(_) => Err(ScriptFault::Memory),
    }
}
