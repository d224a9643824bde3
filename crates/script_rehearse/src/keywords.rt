//! The first words of the lines of a rehearsal.

ghost use Rattle.std.specs.Prelude.{◌≡◌};
ghost use Rattle.script_rehearse.specs.RehearseLines.{keyword_of};

use crate::bench_line::BenchKeyword;
use script_story::history_line::HistoryKeyword;
use script_words::reads::is_named;

/// What a line does, by its first word.
#[derive(Clone, Copy)]
pub enum RehearseKeyword {
    /// It makes the history.
    History,
    /// It makes the client.
    Begin,
    /// It drives the client or the servers.
    Bench(BenchKeyword),
}

impl RehearseKeyword {
    /// The keyword that a word is. A look-up of the history is none.
    pub fn named(word: &[u8]) -> Option<RehearseKeyword>
        ensures { result ≡ keyword_of word.now }
    {
        match HistoryKeyword::named(word) {
            Some(HistoryKeyword::Ask) => None,
            Some(_) => Some(RehearseKeyword::History),
            None => {
                if is_named(word, "begin") {
                    return Some(RehearseKeyword::Begin);
                }
                match BenchKeyword::named(word) {
                    Some(word) => Some(RehearseKeyword::Bench(word)),
                    None => None,
                }
            }
        }
    }
}
