//! The lines after the one that makes the client.

ghost use Rattle.std.specs.Prelude.{◌≡◌, map};
ghost use Rattle.script_words.specs.Reads.{Reads};
ghost use Rattle.script_rehearse.specs.BenchLines.{bench_keyword_of, deliver_at, bench_words_at, bench_line_at};
ghost use Rattle.script_rehearse.specs.inner.BenchLines.{bench_value_of};

use crate::server::Server;
use script_replay::client_line::{ClientKeyword, ClientLine, parse_client_line};
use script_replay::reads::parse_natural;
use script_words::reads::{alone, are_printed, is_named, only};
use script_words::script_fault::ScriptFault;
use std::alloc::Allocator;

/// What a line does with the client or with the servers, by its first word.
#[derive(Clone, Copy)]
pub enum BenchKeyword {
    Open,
    Take,
    Process,
    Deliver,
    Expire,
    Good,
    Rejoin,
    Client(ClientKeyword),
}

impl BenchKeyword {
    /// The keyword that a word is.
    pub fn named(word: &[u8]) -> Option<BenchKeyword>
        ensures { result ≡ bench_keyword_of word.now }
    {
        if is_named(word, "open") {
            Some(BenchKeyword::Open)
        } else if is_named(word, "take") {
            Some(BenchKeyword::Take)
        } else if is_named(word, "process") {
            Some(BenchKeyword::Process)
        } else if is_named(word, "deliver") {
            Some(BenchKeyword::Deliver)
        } else if is_named(word, "expire") {
            Some(BenchKeyword::Expire)
        } else if is_named(word, "good") {
            Some(BenchKeyword::Good)
        } else if is_named(word, "rejoin") {
            Some(BenchKeyword::Rejoin)
        } else {
            match ClientKeyword::named(word) {
                Some(word) => Some(BenchKeyword::Client(word)),
                None => None,
            }
        }
    }
}

/// A line after the one that makes the client.
#[derive(Drop)]
pub enum BenchLine<A: Allocator> {
    /// A connection to a server begins.
    Open(Server),
    /// A server takes the next transaction.
    Take(Server),
    /// The connected server processes the next request.
    Process,
    /// At most this many bytes come from the server.
    Deliver(usize),
    /// Sessions have expired from now on.
    Expire,
    /// A look-up of the good answers, each compared with the history.
    Good,
    /// Another client takes up the session.
    Rejoin,
    /// What is the same whatever is at the other end.
    Client(ClientLine<A>),
}

fn parse_deliver<A: Allocator + Copy>(words: &[&[u8]]) -> Result<BenchLine<A>, ScriptFault>
    ensures { Reads bench_value_of result (deliver_at (map (λ w. w.now) words.now)) }
{
    match words {
        [] => Ok(BenchLine::Deliver(usize::MAX)),
        [most] => {
            let most = parse_natural(most)?;
            Ok(BenchLine::Deliver(most as usize))
        }
        _ => Err(ScriptFault::Words),
    }
}

/// The line of a keyword and the words after it.
#[tactic(auto, using(script_words::proofs::ReadLemmas::alone_reads))]
pub fn parse_bench_line<A: Allocator + Copy>(
    alloc: A,
    keyword: BenchKeyword,
    words: &[&[u8]],
) -> Result<BenchLine<A>, ScriptFault>
    ensures { Reads bench_value_of result (bench_line_at keyword (map (λ w. w.now) words.now)) }
{
    if !are_printed(words) {
        return Err(ScriptFault::Words);
    }
    match keyword {
        BenchKeyword::Open => Ok(BenchLine::Open(Server::parse(only(words)?)?)),
        BenchKeyword::Take => Ok(BenchLine::Take(Server::parse(only(words)?)?)),
        BenchKeyword::Process => alone(BenchLine::Process, words),
        BenchKeyword::Deliver => parse_deliver(words),
        BenchKeyword::Expire => alone(BenchLine::Expire, words),
        BenchKeyword::Good => alone(BenchLine::Good, words),
        BenchKeyword::Rejoin => alone(BenchLine::Rejoin, words),
        BenchKeyword::Client(word) => {
            let line = parse_client_line(alloc, word, words)?;
            Ok(BenchLine::Client(line))
        }
    }
}
