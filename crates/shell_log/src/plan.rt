//! What the words of a command line ask for.

use crate::usage::LogUsage;
use script_words::numbers::natural_of;
use std::alloc::Allocator;

/// What is asked of logs.
#[derive(Drop)]
pub struct LogPlan<'a, A: Allocator> {
    pub files: Vec<&'a str, A>,
    /// Only what concerns this path.
    pub path: Option<&'a str>,
    /// Up to this zxid.
    pub at: Option<i64>,
    /// Objects in place of words.
    pub json: bool,
    /// A script in place of both.
    pub script: bool,
}

/// Which value the next word is.
#[derive(Clone, Copy)]
enum Awaited {
    Nothing,
    File,
    Path,
    Zxid,
    /// None: the words ask for nothing, by this fault.
    Refused(LogUsage),
}

/// Whether the words ask for the history of logs. The first is the program's name.
pub fn asks_log(words: &[&str]) -> bool {
    match words {
        [_, command, rest @ ..] => *command == "history"
            && rest.iter().any(|word| *word == "--log"),
        _ => false,
    }
}

impl<'a, A: Allocator> LogPlan<'a, A> {
    /// Takes a word, and says which value the next one is.
    fn next(&mut self, awaited: Awaited, word: &'a str) -> Awaited {
        match (awaited, word) {
            (Awaited::Refused(why), _) => Awaited::Refused(why),
            (_, "-h" | "--help") => Awaited::Refused(LogUsage::Help),
            (Awaited::Path, text) => {
                self.path = Some(text);
                Awaited::Nothing
            }
            (Awaited::Zxid, text) => {
                let zxid = natural_of(text.as_bytes(), i64::MAX as u64);
                self.at = zxid.and_then(|zxid| i64::try_from(zxid).ok());
                self.at
                    .map_or(Awaited::Refused(LogUsage::NoNumber), |_| Awaited::Nothing)
            }
            (_, "--log") => Awaited::File,
            (_, "--path") => Awaited::Path,
            (_, "--at") => Awaited::Zxid,
            (_, "--json") => {
                self.json = true;
                Awaited::Nothing
            }
            (_, "--script") => {
                self.script = true;
                Awaited::Nothing
            }
            (Awaited::File, name) if !name.starts_with("--") => match self.files.push(name) {
                Ok(()) => Awaited::File,
                Err(_) => Awaited::Refused(LogUsage::Memory),
            },
            _ => Awaited::Refused(LogUsage::Unexpected),
        }
    }
}

/// What is asked, if nothing more is awaited and all of it goes together.
fn whole<A: Allocator>(awaited: Awaited, plan: LogPlan<'_, A>) -> Result<LogPlan<'_, A>, LogUsage> {
    match awaited {
        Awaited::Refused(why) => Err(why),
        Awaited::Path | Awaited::Zxid => Err(LogUsage::NoValue),
        _ if plan.files.is_empty() => Err(LogUsage::NoFile),
        _ if plan.script && (plan.json || plan.path.is_some()) => Err(LogUsage::Script),
        _ => Ok(plan),
    }
}

/// What the words ask for. The first two are the program's name and `history`.
///
/// # Errors
///
/// Why they ask for nothing.
pub fn plan_of<'a, A: Allocator + Copy>(
    alloc: A,
    words: &'a [&'a str],
) -> Result<LogPlan<'a, A>, LogUsage> {
    let mut plan: LogPlan<'a, A> = LogPlan {
        files: Vec::new(alloc),
        path: None,
        at: None,
        json: false,
        script: false,
    };
    let mut awaited = Awaited::Nothing;
    for word in words.get(2..).unwrap_or(&[]) {
        awaited = plan.next(awaited, *word);
    }
    whole(awaited, plan)
}
