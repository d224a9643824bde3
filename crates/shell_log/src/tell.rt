//! What is told of logs.

use crate::deed::{deed_of, deletion};
use crate::order::{LogsFault, NumberedLog, in_order, part_fault};
use crate::plan::LogPlan;
use crate::told::Told;
use std::alloc::Allocator;
use std::mem::replace;
use zk_log::{PartTxn, PlacedEntry, Txn};

/// What is told of logs.
#[derive(Drop)]
pub struct LogText<A: Allocator> {
    pub text: Vec<u8, A>,
    /// What is wrong with logs that can be told.
    pub fault: Option<LogsFault>,
}

impl<A: Allocator + Copy> Told<'_, A> {
    /// Tells of the parts of a multi: of what failed alone, if a part did.
    fn tell_parts(
        &mut self,
        number: usize,
        one: &PlacedEntry<'_, A>,
        parts: &[PartTxn<A>],
    ) -> Result<(), LogsFault> {
        let failed = parts.iter().any(|part| part.0 == -1);
        for part in parts {
            if failed && part.0 != -1 {
                continue;
            }
            let bytes = part.1.as_slice().unwrap_or(&[]);
            match Txn::of_part(self.alloc, part.0, bytes) {
                Err(fault) => return Err(part_fault(number, one.place, fault)),
                Ok(txn) => {
                    let told = self.tell(&one.entry, deed_of(one.entry.session, &txn));
                    drop(txn);
                    told?;
                }
            }
        }
        Ok(())
    }

    /// Tells of the entry of a record of a file. The end of a session deletes nodes: those that it tells, or the one of the path that is
    /// asked for, if that goes by what is known of it.
    fn tell_entry(
        &mut self,
        number: usize,
        one: &PlacedEntry<'_, A>,
        goes: bool,
    ) -> Result<(), LogsFault> {
        let entry = &one.entry;
        self.tell(entry, deed_of(entry.session, &entry.txn))?;
        match (&entry.txn, self.plan.path) {
            (Txn::Multi(parts), _) => self.tell_parts(number, one, parts.or_empty()),
            (Txn::CloseSession(paths), None) => {
                for path in paths.or_empty() {
                    self.tell(entry, deletion(path.as_str()))?;
                }
                Ok(())
            }
            (Txn::CloseSession(_) | Txn::CloseSessionAlone, Some(path)) if goes => {
                self.tell(entry, deletion(Some(path)))
            }
            _ => Ok(()),
        }
    }

    /// Tells of a record of a file, the only one of these.
    fn tell_record(
        &mut self,
        number: usize,
        alone: &[PlacedEntry<'_, A>],
    ) -> Result<(), LogsFault> {
        let Some(one) = alone.first() else {
            return Ok(());
        };
        if one.entry.zxid <= self.last {
            return Err(LogsFault::Overlaps(number));
        }
        self.begin(number, one)?;
        self.check(number, one)?;
        self.last = one.entry.zxid;
        if self.plan.script {
            return self.follow_all(number, alone);
        }
        let goes = self.follow(number, alone)?;
        self.tell_entry(number, one, goes)
    }

    /// Tells of logs in their order.
    fn tell_logs(&mut self, logs: &[NumberedLog<'_, A>]) -> Result<LogText<A>, LogsFault> {
        let last = self.plan.at.unwrap_or(i64::MAX);
        for numbered in logs {
            let entries = numbered.log.entries.as_slice();
            for at in 0..entries.len() {
                if last < entries[at].entry.zxid {
                    break;
                }
                self.tell_record(numbered.number, &entries[at..at + 1])?;
            }
            if let Some(place) = numbered.log.torn {
                self.add_record("torn", numbered.number, place)?;
            }
        }
        self.end()?;
        Ok(LogText {
            text: replace(&mut self.out, Vec::new(self.alloc)),
            fault: self.fault,
        })
    }
}

/// What is told of the bytes of the plan's files, which are given in their order. If something is wrong with them that can be told, that is
/// told too.
///
/// # Errors
///
/// The first file with a fault, or files whose zxids overlap. If a script is asked for: missing transactions, a digest that departs, an
/// entry that the tree does not admit, and numbers below 0.
pub fn history_of<A: Allocator + Copy>(
    alloc: A,
    plan: &LogPlan<'_, A>,
    files: &[&[u8]],
) -> Result<LogText<A>, LogsFault> {
    let logs = in_order(alloc, files)?;
    let mut told: Told<'_, A> = Told::new(alloc, plan);
    let text = told.tell_logs(logs.as_slice());
    drop(told);
    drop(logs);
    text
}
