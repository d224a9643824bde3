//! The lines after the one that makes the client.

ghost use Rattle.std.specs.Prelude.{◌≡◌, map};
ghost use Rattle.script_words.specs.Reads.{Reads};
ghost use Rattle.script_replay.specs.inner.Lines.{drive_value_of};
ghost use Rattle.script_replay.specs.ReplayLines.{drive_keyword_of, piece_at, printed_piece_at, drive_line_at};

use crate::client_line::{ClientKeyword, ClientLine, parse_client_line};
use crate::reads::parse_bytes;
use script_words::reads::{alone, are_printed, is_named, only};
use script_words::script_fault::ScriptFault;
use std::alloc::Allocator;

/// What a line does with the client, by its first word.
#[derive(Clone, Copy)]
pub enum DriveKeyword {
    Opened,
    Bytes,
    Sent,
    Client(ClientKeyword),
}

impl DriveKeyword {
    /// The keyword that a word is.
    pub fn named(word: &[u8]) -> Option<DriveKeyword>
        ensures { result ≡ drive_keyword_of word.now }
    {
        if is_named(word, "opened") {
            Some(DriveKeyword::Opened)
        } else if is_named(word, "bytes") {
            Some(DriveKeyword::Bytes)
        } else if is_named(word, ">") {
            Some(DriveKeyword::Sent)
        } else {
            match ClientKeyword::named(word) {
                Some(word) => Some(DriveKeyword::Client(word)),
                None => None,
            }
        }
    }
}

/// A line after the one that makes the client.
#[derive(Drop)]
pub enum DriveLine<A: Allocator> {
    /// A connection begins.
    Opened,
    /// Bytes come.
    Bytes(Vec<u8, A>),
    /// What a record says was sent: the client sends it by itself.
    Sent,
    /// What is the same whatever is at the other end.
    Client(ClientLine<A>),
}

fn parse_piece<A: Allocator + Copy>(alloc: A, words: &[&[u8]]) -> Result<DriveLine<A>, ScriptFault>
    ensures { Reads drive_value_of result (piece_at (map (λ w. w.now) words.now)) }
{
    let bytes = parse_bytes(alloc, only(words)?)?;
    Ok(DriveLine::Bytes(bytes))
}

fn parse_printed_piece<A: Allocator + Copy>(
    alloc: A,
    words: &[&[u8]],
) -> Result<DriveLine<A>, ScriptFault>
    ensures { Reads drive_value_of result (printed_piece_at (map (λ w. w.now) words.now)) }
{
    if !are_printed(words) {
        return Err(ScriptFault::Words);
    }
    parse_piece(alloc, words)
}

/// The line of a keyword and the words after it.
#[tactic(auto, using(script_words::proofs::ReadLemmas::alone_reads))]
pub fn parse_drive_line<A: Allocator + Copy>(
    alloc: A,
    keyword: DriveKeyword,
    words: &[&[u8]],
) -> Result<DriveLine<A>, ScriptFault>
    ensures { Reads drive_value_of result (drive_line_at keyword (map (λ w. w.now) words.now)) }
{
    match keyword {
        DriveKeyword::Opened => alone(DriveLine::Opened, words),
        DriveKeyword::Bytes => parse_printed_piece(alloc, words),
        DriveKeyword::Sent => Ok(DriveLine::Sent),
        DriveKeyword::Client(word) => {
            let line = parse_client_line(alloc, word, words)?;
            Ok(DriveLine::Client(line))
        }
    }
}
