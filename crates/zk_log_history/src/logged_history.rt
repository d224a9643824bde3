//! Histories that logs tell.

ghost use Rattle.std.specs.Prelude.{◌≡◌, map, Some, [], IfOk, OnOk, IfErr, codes};
ghost use Rattle.zk_log.specs.Views.{entry_of, placed_of};
ghost use Rattle.zk_log_history.specs.Following.{first_kept, with_entries, with_first, with_whole, transaction_of};
ghost use Rattle.zk_log_history.specs.Made.{AreMade};
ghost use Rattle.zk_log_history.specs.Refused.{AreTold, IsTold, IsUntold, StopsAt};

use crate::made::Made;
use crate::telling::follow;
use crate::untold::UntoldEntry;
use std::alloc::{AllocError, Allocator};
use std::collections::BTreeMap;
use std::marker::Model;
use zk_history::History;
use zk_log::PlacedEntry;
use zk_nodes::Path;

/// The history that logs tell, from the first transaction on.
#[derive(Drop)]
pub struct LoggedHistory<A: Allocator + Copy> {
    alloc: A,
    history: History<A>,
    made: Made<A>,
}

impl<A: Allocator + Copy> Model for LoggedHistory<A> {
    ghost use Rattle.zk_history.specs.HistoryView.{HistoryView};
    ghost use Rattle.zk_log_history.specs.Made.{AreMade};

    ghost Value = { HistoryView };

    ghost view = { λ told. told.history };

    ghost invariant = { λ told. AreMade told.made told.history };
}

/// Adds a node that servers begin with. All of them are taken, so that memory alone is refused.
fn add_first<A: Allocator + Copy>(
    alloc: A,
    history: &mut History<A>,
    path: &str,
) -> Result<(), AllocError>
    ensures { OnOk result (history.new ≡ with_first path.now history.old) }
{
    match Path::new(alloc, path) {
        Err(_) => Err(AllocError),
        Ok(path) => history
            .node(path, Some(Vec::new(alloc)), 0)
            .map_err(|_| AllocError),
    }
}

/// Adds the nodes that servers begin with.
fn add_all_first<A: Allocator + Copy>(alloc: A, history: &mut History<A>) -> Result<(), AllocError>
    ensures { OnOk result (history.new
        ≡ with_first (codes "/zookeeper/config") (with_first (codes "/zookeeper/quota") (with_first (codes "/zookeeper") history.old))) }
{
    add_first(alloc, history, "/zookeeper")?;
    add_first(alloc, history, "/zookeeper/quota")?;
    add_first(alloc, history, "/zookeeper/config")
}

/// Adds the transaction that the entry of a record is.
fn follow_placed<A: Allocator + Copy>(
    alloc: A,
    history: &mut History<A>,
    made: &mut Made<A>,
    one: &PlacedEntry<'_, A>,
) -> Result<(), UntoldEntry>
    ensures added { OnOk result (AreMade made.old history.old
        → history.new ≡ with_whole history.old (transaction_of history.old (entry_of one.now.entry))) }
    ensures made { OnOk result (AreMade made.old history.old → AreMade made.new history.new) }
    ensures taken { OnOk result (AreMade made.old history.old → IsTold history.old (entry_of one.now.entry)) }
    ensures refused { IfErr result (λ fault. AreMade made.old history.old
        → (one.now.place ≡ fault.place) × IsUntold history.old (entry_of one.now.entry) fault.why) }
{
    let place = one.place;
    match follow(alloc, history, made, &one.entry) {
        Ok(()) => Ok(()),
        Err(why) => Err(UntoldEntry { place, why }),
    }
}

impl<A: Allocator + Copy> LoggedHistory<A> {
    /// The nodes that servers begin with, and no transaction.
    ///
    /// # Errors
    ///
    /// If the allocator refused a request.
    pub fn new(alloc: A) -> Result<LoggedHistory<A>, AllocError>
        ensures { IfOk result (λ told. told ≡ first_kept) }
    {
        let mut history: History<A> = History::new(alloc);
        match add_all_first(alloc, &mut history) {
            Err(fault) => {
                drop(history);
                Err(fault)
            }
            Ok(()) => Ok(LoggedHistory {
                alloc,
                history,
                made: BTreeMap::new(alloc),
            }),
        }
    }

    /// The same with the transactions that these entries of a log are.
    ///
    /// # Errors
    ///
    /// The first entry that is no transaction after those before it, and why. Where an entry has two faults of kinds that differ, either is
    /// told. `Memory`, if the allocator refused a request.
    pub fn with(self, entries: &[PlacedEntry<'_, A>]) -> Result<LoggedHistory<A>, UntoldEntry>
        ensures told { IfOk result (λ told. told ≡ with_entries self (map (λ one. entry_of one.entry) entries.now)) }
        ensures taken { OnOk result (AreTold self (map (λ one. entry_of one.entry) entries.now)) }
        ensures refused { IfErr result (StopsAt self (map placed_of entries.now)) }
    {
        let alloc = self.alloc;
        let mut history = self.history;
        let mut made = self.made;
        for one in entries {
            follow_placed(alloc, &mut history, &mut made, one)?;
        }
        Ok(LoggedHistory {
            alloc,
            history,
            made,
        })
    }

    /// The history, to look at.
    pub fn history(&self) -> &History<A>
        ensures { result.now ≡ self.now }
    {
        &self.history
    }
}
