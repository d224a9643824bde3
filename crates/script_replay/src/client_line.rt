//! The lines that drive a client, whatever is at the other end of its connection.

ghost use Rattle.std.specs.Prelude.{◌≡◌, map};
ghost use Rattle.script_words.specs.Reads.{Reads};
ghost use Rattle.script_replay.specs.ClientLines.{client_keyword_of, now_at, peek_at, client_words_at, client_line_at};
ghost use Rattle.script_replay.specs.Lines.{client_value_of};

use crate::call_line::{AskedCall, parse_call};
use crate::reads::parse_natural;
use script_words::reads::{alone, are_printed, is_named, only, parse_path, parse_side, parse_text};
use script_words::script_fault::ScriptFault;
use std::alloc::Allocator;
use zk_nodes::{Path, Side};

/// What a line does with a client, by its first word.
#[derive(Clone, Copy)]
pub enum ClientKeyword {
    Cut,
    Now,
    Call,
    Peek,
    Last,
    Forget,
    Saved,
}

impl ClientKeyword {
    /// The keyword that a word is.
    pub fn named(word: &[u8]) -> Option<ClientKeyword>
        ensures { result ≡ client_keyword_of word.now }
    {
        if is_named(word, "cut") {
            Some(ClientKeyword::Cut)
        } else if is_named(word, "now") {
            Some(ClientKeyword::Now)
        } else if is_named(word, "call") {
            Some(ClientKeyword::Call)
        } else if is_named(word, "peek") {
            Some(ClientKeyword::Peek)
        } else if is_named(word, "last") {
            Some(ClientKeyword::Last)
        } else if is_named(word, "forget") {
            Some(ClientKeyword::Forget)
        } else if is_named(word, "saved") {
            Some(ClientKeyword::Saved)
        } else {
            None
        }
    }
}

/// A line of a script that drives a client.
#[derive(Drop)]
pub enum ClientLine<A: Allocator> {
    /// The connection ends.
    Cut,
    /// The moment, in milliseconds.
    Now(u64),
    /// A call.
    Call(AskedCall<A>),
    /// A look-up of what is kept of a path on one side.
    Peek(Side, Path<A>),
    /// A look-up of the last seen zxid.
    Last,
    /// The stale answers are taken out.
    Forget,
    /// A look-up of what the session can be taken up with.
    Saved,
}

fn parse_now<A: Allocator + Copy>(words: &[&[u8]]) -> Result<ClientLine<A>, ScriptFault>
    ensures { Reads client_value_of result (now_at (map (λ w. w.now) words.now)) }
{
    let moment = parse_natural(only(words)?)?;
    Ok(ClientLine::Now(moment))
}

fn parse_peek<A: Allocator + Copy>(alloc: A, words: &[&[u8]]) -> Result<ClientLine<A>, ScriptFault>
    ensures { Reads client_value_of result (peek_at (map (λ w. w.now) words.now)) }
{
    let [side, path] = words else {
        return Err(ScriptFault::Words);
    };
    let side = parse_side(side)?;
    let path = parse_text(alloc, path)?;
    let path = parse_path(alloc, path.as_str())?;
    Ok(ClientLine::Peek(side, path))
}

/// The line of a keyword and the words after it.
#[tactic(auto, using(script_words::proofs::ReadLemmas::alone_reads))]
pub fn parse_client_line<A: Allocator + Copy>(
    alloc: A,
    keyword: ClientKeyword,
    words: &[&[u8]],
) -> Result<ClientLine<A>, ScriptFault>
    ensures { Reads client_value_of result (client_line_at keyword (map (λ w. w.now) words.now)) }
{
    if !are_printed(words) {
        return Err(ScriptFault::Words);
    }
    match keyword {
        ClientKeyword::Cut => alone(ClientLine::Cut, words),
        ClientKeyword::Now => parse_now(words),
        ClientKeyword::Call => {
            let asked = parse_call(alloc, words)?;
            Ok(ClientLine::Call(asked))
        }
        ClientKeyword::Peek => parse_peek(alloc, words),
        ClientKeyword::Last => alone(ClientLine::Last, words),
        ClientKeyword::Forget => alone(ClientLine::Forget, words),
        ClientKeyword::Saved => alone(ClientLine::Saved, words),
    }
}
