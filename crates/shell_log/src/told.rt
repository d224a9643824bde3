//! What logs tell up to an entry.

use crate::checked::{CheckedTree, Shown};
use crate::deed::{Deed, pieces_of};
use crate::line::{NOTHING, Piece, Value, push_line, push_object};
use crate::order::{LogsFault, part_fault, untold};
use crate::plan::LogPlan;
use crate::script::push_history;
use std::alloc::Allocator;
use zk_log::{LogEntry, PlacedEntry};
use zk_log_history::{Knowledge, LoggedHistory, LoggedPath, first_missing};
use zk_nodes::{Path, PathFault};

/// What was told so far.
#[derive(Drop)]
pub(crate) struct Told<'p, A: Allocator + Copy> {
    pub(crate) alloc: A,
    pub(crate) plan: &'p LogPlan<'p, A>,
    pub(crate) out: Vec<u8, A>,
    /// Room for a line.
    line: String<A>,
    /// The zxid of the last entry, or 0.
    pub(crate) last: i64,
    /// Whether all that happened is in the logs.
    is_whole: bool,
    /// What the logs tell of the path that is asked for.
    known: Option<LoggedPath<A>>,
    /// The history that they tell, if a script is asked for.
    history: Option<LoggedHistory<A>>,
    /// The tree, as long as digests are compared.
    checked: Option<CheckedTree<A>>,
    /// The first digest that departs, or the first entry that is no transaction by what is known of the path.
    pub(crate) fault: Option<LogsFault>,
}

impl<'p, A: Allocator + Copy> Told<'p, A> {
    /// Nothing is told.
    pub(crate) fn new(alloc: A, plan: &'p LogPlan<'p, A>) -> Told<'p, A> {
        Told {
            alloc,
            plan,
            out: Vec::new(alloc),
            line: String::new(alloc),
            last: 0,
            is_whole: false,
            known: None,
            history: None,
            checked: None,
            fault: None,
        }
    }

    /// Adds a line.
    fn add(&mut self, pieces: &[Piece<'_>]) -> Result<(), LogsFault> {
        let added = if self.plan.json {
            push_object(&mut self.out, self.alloc, pieces)
        } else {
            push_line(&mut self.out, &mut self.line, self.alloc, pieces)
        };
        added.map_err(From::from)
    }

    /// Adds a remark, unless a zxid is asked for.
    fn add_remark<'v>(
        &mut self,
        word: &'static str,
        of: Value<'v>,
        more: Piece<'v>,
    ) -> Result<(), LogsFault> {
        if self.plan.at.is_some() {
            return Ok(());
        }
        self.add(&[("", Value::Head(word)), (word, of), more])
    }

    /// Adds a remark on the record at a place of a file.
    pub(crate) fn add_record(
        &mut self,
        word: &'static str,
        number: usize,
        place: usize,
    ) -> Result<(), LogsFault> {
        let name = self.plan.files.get(number).copied().unwrap_or("");
        let byte = Value::Number(i64::try_from(place).unwrap_or(i64::MAX));
        self.add_remark(word, Value::Name(name), ("byte", byte))
    }

    /// Tells of what an entry did, if it is asked for. Of a path at a zxid the last one is left.
    pub(crate) fn tell(
        &mut self,
        entry: &LogEntry<'_, A>,
        deed: Option<Deed<'_>>,
    ) -> Result<(), LogsFault> {
        let Some(deed) = deed else {
            return Ok(());
        };
        match (self.plan.path, self.plan.at) {
            (None, Some(at)) if at != entry.zxid => return Ok(()),
            (Some(path), _) if deed.path != Some(path) || deed.word == "check" => return Ok(()),
            (Some(_), Some(_)) => self.out.clear(),
            _ => {}
        }
        self.add(&pieces_of(entry, &deed))
    }

    /// Whether a path may be there, if nothing is told of it: some are before the first transaction.
    fn may_be_there(&self, path: &str) -> bool {
        !self.is_whole || path == "/" || path.starts_with("/zookeeper")
    }

    /// Adds that it is not in the logs what the path held that is asked for, if it may have held something.
    fn add_unknown(&mut self) -> Result<(), LogsFault> {
        match self.plan.path {
            Some(path) if self.may_be_there(path) => {
                self.add_remark("unknown", Value::Name(path), NOTHING)
            }
            _ => Ok(()),
        }
    }

    /// What happened before is not in the logs: nothing is known of the path that is asked for. Of a text that is no path nothing will be.
    fn forget(&mut self) -> Result<(), LogsFault> {
        self.is_whole = false;
        self.known = None;
        if self.plan.at.is_some() {
            self.out.clear();
        }
        let Some(text) = self.plan.path else {
            return Ok(());
        };
        match Path::new(self.alloc, text) {
            Ok(path) => {
                let at = self.plan.at.unwrap_or(i64::MAX);
                self.known = Some(LoggedPath::new(self.alloc, path, at));
                Ok(())
            }
            Err(PathFault::Memory) => Err(LogsFault::Memory),
            Err(_) => Ok(()),
        }
    }

    /// Tells what is not in the logs before a record of a file.
    pub(crate) fn begin(
        &mut self,
        number: usize,
        one: &PlacedEntry<'_, A>,
    ) -> Result<(), LogsFault> {
        let zxid = one.entry.zxid;
        let missing = first_missing(self.last, zxid);
        if self.last != 0 {
            let Some(from) = missing else {
                return Ok(());
            };
            self.checked = None;
            self.forget()?;
            let to = Value::Number(zxid.saturating_sub(1));
            return self.add_remark("gap", Value::Number(from), ("to", to));
        }
        self.forget()?;
        self.is_whole = missing.is_none();
        self.checked = CheckedTree::new(self.alloc, self.is_whole)?;
        self.add_unknown()?;
        if self.is_whole {
            return Ok(());
        }
        self.add_record("unchecked", number, one.place)
    }

    /// Compares the digest of a record of a file: from the first transaction on, as far as all that happened is in the logs.
    pub(crate) fn check(
        &mut self,
        number: usize,
        one: &PlacedEntry<'_, A>,
    ) -> Result<(), LogsFault> {
        let Some(tree) = &mut self.checked else {
            return Ok(());
        };
        let word = match tree.follow(&one.entry) {
            Err(fault) => return Err(part_fault(number, one.place, fault)),
            Ok(Shown::Nothing) => return Ok(()),
            Ok(Shown::Unchecked) => "unchecked",
            Ok(Shown::Departs) => {
                self.fault = self
                    .fault
                    .or(Some(LogsFault::Digest(number, one.place, one.entry.zxid)));
                self.forget()?;
                "digest"
            }
        };
        self.checked = None;
        self.add_record(word, number, one.place)
    }

    /// Follows the path that is asked for, and says whether its node goes with records of a file. After one that what is known rules out
    /// nothing is known.
    pub(crate) fn follow(
        &mut self,
        number: usize,
        records: &[PlacedEntry<'_, A>],
    ) -> Result<bool, LogsFault> {
        let Some(known) = self.known.take() else {
            return Ok(false);
        };
        let was_absent = matches!(known.known(), Knowledge::Known(None));
        match known.with(records) {
            Ok(known) => {
                let goes = !was_absent && matches!(known.known(), Knowledge::Known(None));
                self.known = Some(known);
                Ok(goes)
            }
            Err(fault) => match untold(number, fault) {
                LogsFault::Memory => Err(LogsFault::Memory),
                fault => {
                    self.fault = self.fault.or(Some(fault));
                    self.forget()?;
                    self.add_unknown().map(|_| false)
                }
            },
        }
    }

    /// The history so far, which is taken out.
    fn history(&mut self) -> Result<LoggedHistory<A>, LogsFault> {
        match self.history.take() {
            Some(history) => Ok(history),
            None => LoggedHistory::new(self.alloc).map_err(From::from),
        }
    }

    /// Adds the transactions that records of a file are to the history.
    pub(crate) fn follow_all(
        &mut self,
        number: usize,
        records: &[PlacedEntry<'_, A>],
    ) -> Result<(), LogsFault> {
        match self.history()?.with(records) {
            Ok(history) => {
                self.history = Some(history);
                Ok(())
            }
            Err(fault) => Err(self.fault.unwrap_or(untold(number, fault))),
        }
    }

    /// Tells the script of the history, if digests are those of its trees.
    fn end_script(&mut self) -> Result<(), LogsFault> {
        if let Some(fault) = self.fault {
            return Err(fault);
        }
        self.out.clear();
        let history = self.history()?;
        let pushed = push_history(&mut self.out, &mut self.line, self.alloc, history.history());
        drop(history);
        pushed
    }

    /// Tells what comes after the last record: a script, or why nothing is told of the path at a zxid.
    pub(crate) fn end(&mut self) -> Result<(), LogsFault> {
        match (self.plan.path, self.plan.at) {
            _ if self.plan.script => self.end_script(),
            (Some(path), Some(_)) if self.out.is_empty() => {
                let word = if self.may_be_there(path) {
                    "unknown"
                } else {
                    "absent"
                };
                self.add(&[("", Value::Head(word)), (word, Value::Name(path))])
            }
            _ => Ok(()),
        }
    }
}
