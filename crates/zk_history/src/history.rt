//! The history of a data tree, and what each path held at each zxid.

ghost use Rattle.std.specs.Prelude.{◌≡◌, ◌≢◌, ◌≤◌, ◌<◌, ◌<ℤ◌, ◌^◌, IfErr, pos, [], ◌∷◌, map, List, IfOk, OnOk, OnErr, MatchOption, Some};
ghost use Rattle.std.specs.Prelude.{None, is_some, ℤ, ℕ, Option, slice_get};
ghost use Rattle.std.specs.Option.{option_map, option_copied};
ghost use Rattle.zk_nodes.specs.Path.{path_of, Name};
ghost use Rattle.zk_nodes.specs.History.{view as view_of, tree_at, IsHistory, newest, Creates};
ghost use Rattle.zk_nodes.specs.declared.side.Side.TheVariants.{Data as OnData, Child};
ghost use Rattle.zk_nodes.specs.PathFault.{IsPath};
ghost use Rattle.zk_nodes.specs.Names.{Names as NameSet};
ghost use Rattle.zk_history.specs.Replay.{count_at};
ghost use Rattle.zk_history.specs.HistoryView.{history_of, empty_kept, newest_tree, IsAccepted, with_change};
ghost use Rattle.zk_history.specs.inner.HistoryView.{newest_count};
ghost use Rattle.zk_history.specs.HistoryView.{with_transaction, with_node, natural, HasChildren, IsSound};
ghost use Rattle.zk_history.specs.Versions.{Tells, entry_of, children_of, content_at as content_told};
ghost use Rattle.zk_history.specs.inner.Accepting.{accepts, can_rise};
ghost use Rattle.zk_history.specs.Refused.{ChangeRefused, NodeRefused, BeginRefused};
ghost use Rattle.zk_history.specs.Made.{change_of, transaction_of, transaction_told};
ghost use Rattle.zk_history.specs.inner.Made.{node_of};
ghost use Rattle.std.specs.FinSet as set;
ghost use Rattle.std.specs.BTreeSet.{contains_text};
ghost use Rattle.zk_history.specs.Shown.{data_told, names_told, stat_of, IsStat};

use crate::change::{Change, Transaction};
use crate::data::Data;
use crate::found::Found;
use crate::history_fault::HistoryFault;
use crate::names::names_after_versions;
use crate::replay::{children_of, entry_of};
use crate::told::{data_stat, full_stat, has_length};
use crate::transactions::{content_at, next_spot, push_change, push_empty, push_node};
use crate::version::{Origin, Spot, Version};
use crate::versions::{Versions, forget, last_up_to, note, versions_at};
use std::alloc::{AllocError, Allocator};
use std::collections::{BTreeMap, BTreeSet};
use std::marker::Model;
use zk_nodes::{Names, Path, Stat, copied_data};

// Above every zxid.
const NEWEST: u64 = 9223372036854775808;

// The most children whose number a Stat can tell.
const MOST_CHILDREN: u32 = 2147483647;

// The last version that a node can have.
const LAST_VERSION: u32 = 2147483647;

/// A first tree and the transactions after it, with look-ups at every zxid. The first tree has `/` with empty data,
/// and all its other fields 0, and the nodes that are added to it.
///
/// Zxids run from 1 to 2^63 - 1 and rise (Programmer's Guide, "Time in ZooKeeper"); times are milliseconds since the
/// epoch. For each path the versions of its node are kept, one for each change of the node or of its children: a look-up
/// searches the paths and then the versions of one, and names are told by the changes that made those versions.
#[derive(Drop)]
pub struct History<A: Allocator + Copy> {
    alloc: A,
    // The nodes of the first tree: a creation at zxid 0 each.
    nodes: Vec<Transaction<A>, A>,
    transactions: Vec<Transaction<A>, A>,
    // What became of each path by each change of it.
    versions: Versions<A>,
}

impl<A: Allocator + Copy> Model for History<A> {
    ghost use Rattle.std.specs.Prelude.{map};
    ghost use Rattle.zk_history.specs.HistoryView.{HistoryView, IsSound};
    ghost use Rattle.zk_history.specs.Made.{transaction_of};
    ghost use Rattle.zk_history.specs.Versions.{IsIndexed, versions_of};

    ghost Value = { HistoryView };

    ghost view = { λ h. record { nodes = map transaction_of h.nodes.items; transactions = map transaction_of h.transactions.items } };

    ghost invariant = { λ h.
        IsSound (record { nodes = map transaction_of h.nodes.items; transactions = map transaction_of h.transactions.items })
        × IsIndexed (record { nodes = map transaction_of h.nodes.items; transactions = map transaction_of h.transactions.items })
        (versions_of h.versions) };
}

fn natural(z: i64) -> u64
    ensures value { result ≡ natural z }
    ensures small { result < 2 ^ 63 }
{
    if z < 0 { 0 } else { z as u64 }
}

impl<A: Allocator + Copy> History<A> {
    /// A history with the root alone, and no transaction.
    pub fn new(alloc: A) -> History<A>
        ensures { result ≡ empty_kept }
    {
        History {
            alloc,
            nodes: Vec::new(alloc),
            transactions: Vec::new(alloc),
            versions: BTreeMap::new(alloc),
        }
    }

    /// Adds a node to the first tree, with its data, null or bytes, and its time; its other fields are 0. Before the
    /// first transaction alone (`Place`); `Illegal` where the node is there or its parent is not, where the parent
    /// has 2,147,483,647 children, and for more than 2,147,483,647 bytes. A refusal leaves the history as it was.
    pub fn node(
        &mut self,
        path: Path<A>,
        bytes: Option<Vec<u8, A>>,
        time: i64,
    ) -> Result<(), HistoryFault>
        ensures ok { OnOk result (self.new ≡ with_node self.old (path_of path) (option_map (λ v. v.items) bytes) time) }
        ensures placed { OnOk result (self.old.transactions ≡ []) }
        ensures accepted { OnOk result
            (IsAccepted (Creates (path_of path) (option_map (λ v. v.items) bytes) (pos 0)) (newest_tree self.old)) }
        ensures refused { IfErr result (NodeRefused self.old (path_of path) (option_map (λ v. v.items) bytes)) }
        ensures err { OnErr result (self.new ≡ self.old) }
    {
        let change = Change::Create(path, bytes, 0);
        if !self.transactions.is_empty() {
            drop(change);
            return Err(HistoryFault::Place);
        }
        if !self.takes(&change) {
            drop(change);
            return Err(HistoryFault::Illegal);
        }
        let origin = Origin::First(self.nodes.len());
        let zxid = 0;
        let spot = Spot { zxid, time, origin };
        if note(self.alloc, &mut self.versions, spot, &change).is_err() {
            drop(change);
            return Err(HistoryFault::Memory);
        }
        if let Err(failed) = push_node(self.alloc, &mut self.nodes, time, change) {
            forget(&mut self.versions, &failed.value);
            drop(failed);
            return Err(HistoryFault::Memory);
        }
        Ok(())
    }

    /// Begins a transaction; its zxid is above the one before, and above 0 (`Order`). A refusal leaves the history as
    /// it was.
    pub fn begin(&mut self, zxid: i64, time: i64) -> Result<(), HistoryFault>
        ensures ok { OnOk result (self.new ≡ with_transaction self.old (natural zxid) time) }
        ensures rising { OnOk result (pos (newest 0 self.old.transactions) <ℤ zxid) }
        ensures refused { IfErr result (BeginRefused self.old zxid) }
        ensures err { OnErr result (self.new ≡ self.old) }
    {
        if zxid <= self.last_zxid() {
            return Err(HistoryFault::Order);
        }
        push_empty(self.alloc, &mut self.transactions, natural(zxid), time)?;
        Ok(())
    }

    /// Adds a change to the last transaction; `Place` where none was begun. A node is made where it is absent and its
    /// parent is there, written where it is there with a version below 2,147,483,647, and deleted where it is there,
    /// has no children and is not the root. Else it is `Illegal`, and so are more than 2,147,483,647 bytes or
    /// children. A refusal leaves the history as it was.
    pub fn change(&mut self, change: Change<A>) -> Result<(), HistoryFault>
        ensures ok { OnOk result (self.new ≡ with_change self.old (change_of change)) }
        ensures placed { OnOk result (self.old.transactions ≢ []) }
        ensures accepted { OnOk result (IsAccepted (change_of change) (newest_tree self.old)) }
        ensures refused { IfErr result (ChangeRefused self.old (change_of change)) }
        ensures err { OnErr result (self.new ≡ self.old) }
    {
        if self.transactions.is_empty() {
            drop(change);
            return Err(HistoryFault::Place);
        }
        if !self.takes(&change) {
            drop(change);
            return Err(HistoryFault::Illegal);
        }
        let spot = next_spot(self.transactions.as_slice());
        if note(self.alloc, &mut self.versions, spot, &change).is_err() {
            drop(change);
            return Err(HistoryFault::Memory);
        }
        if let Err(failed) = push_change(&mut self.transactions, change) {
            forget(&mut self.versions, &failed.value);
            drop(failed);
            return Err(HistoryFault::Memory);
        }
        Ok(())
    }

    // The last version of a path up to a zxid.
    fn version(&self, z: u64, at: &str) -> Option<Version>
        requires { IsPath at.now }
        ensures node { Tells self.now (entry_of (path_of at.now) result) (tree_at (history_of self.now) z (path_of at.now)) }
        ensures count { children_of result
            ≡ count_at z (path_of at.now) self.now.transactions (count_at 0 (path_of at.now) self.now.nodes 0) }
        ensures sound { IsSound self.now }
    {
        last_up_to(z, versions_at(&self.versions, at))
    }

    // The bytes that the change at an origin writes.
    fn bytes(&self, origin: Origin) -> Option<&[u8]>
        ensures { (content : Option (List ℕ)) → content_told self.now origin ≡ Some content → option_copied result ≡ content }
    {
        match origin {
            Origin::Root => Some(&[]),
            Origin::First(i) => content_at(self.nodes.as_slice(), i, 0),
            Origin::Later(i, j) => content_at(self.transactions.as_slice(), i, j),
        }
    }

    // The node at a path, after the transactions up to a zxid.
    fn found(&self, z: u64, at: &str) -> Option<Found<'_>>
        requires { IsPath at.now }
        ensures node { option_map node_of result ≡ tree_at (history_of self.now) z (path_of at.now) }
        ensures sound { IsSound self.now }
    {
        match entry_of(at, self.version(z, at)) {
            Some(entry) => Some(Found {
                bytes: self.bytes(entry.origin),
                entry,
            }),
            None => None,
        }
    }

    // How many children a path has after the transactions up to a zxid.
    fn counted(&self, z: u64, at: &str) -> u32
        requires { IsPath at.now }
        ensures counted { (names : NameSet) → HasChildren (tree_at (history_of self.now) z) (path_of at.now) names
            → result ≡ set.len names }
        ensures few { result ≤ 2147483647 }
        ensures sound { IsSound self.now }
    {
        children_of(self.version(z, at))
    }

    // The names of a path's children after the transactions up to a zxid.
    fn names(&self, z: u64, at: &str) -> Result<BTreeSet<String<A>, A>, AllocError>
        requires { IsPath at.now }
        ensures { IfOk result
            (λ names. (name : Name) → contains_text names name ≡ is_some (tree_at (history_of self.now) z (name ∷ path_of at.now))) }
    {
        let mut names = BTreeSet::new(self.alloc);
        names_after_versions(
            self.alloc,
            z,
            self.nodes.as_slice(),
            self.transactions.as_slice(),
            versions_at(&self.versions, at),
            at,
            &mut names,
        )?;
        Ok(names)
    }

    /// The zxid of the last transaction, or 0.
    pub fn last_zxid(&self) -> i64
        ensures value { result ≡ pos (newest 0 self.now.transactions) }

        // What is kept is a history: rising zxids, legal changes, and a first tree closed under parents.
        ensures history { IsHistory (history_of self.now) }
    {
        if self.transactions.is_empty() {
            return 0;
        }
        self.transactions[self.transactions.len() - 1].zxid as i64
    }

    /// The n-th transaction, from 0 on: its zxid, its time and its changes.
    pub fn transaction(&self, n: usize) -> Option<(i64, i64, &[Change<A>])>
        ensures { MatchOption result (slice_get self.now.transactions n ≡ None)
            (λ t. slice_get self.now.transactions n ≡ Some (transaction_told t.0 t.1 t.2.now)) }
    {
        if n < self.transactions.len() {
            let transaction = &self.transactions[n];
            Some((
                transaction.zxid as i64,
                transaction.time,
                transaction.changes.as_slice(),
            ))
        } else {
            None
        }
    }

    /// The data at a path after the transactions up to a zxid, and none where no node is there.
    pub fn data_at(&self, z: i64, path: &Path<A>) -> Result<Option<Data<A>>, AllocError>
        ensures { IfOk result (λ told. data_told told ≡ view_of OnData (tree_at (history_of self.now) (natural z)) (path_of path.now)) }
    {
        match self.found(natural(z), path.as_str()) {
            Some(found) => Ok(Some(Data {
                bytes: copied_data(self.alloc, found.bytes)?,
                stat: data_stat(&found),
            })),
            None => Ok(None),
        }
    }

    /// The names of a path's children after the transactions up to a zxid, with the node's pzxid, and none where no
    /// node is there.
    pub fn names_at(&self, z: i64, path: &Path<A>) -> Result<Option<Names<A>>, AllocError>
        ensures { IfOk result (λ told. names_told told ≡ view_of Child (tree_at (history_of self.now) (natural z)) (path_of path.now)) }
    {
        match self.found(natural(z), path.as_str()) {
            Some(found) => Ok(Some(Names {
                names: self.names(natural(z), path.as_str())?,
                pzxid: found.entry.pzxid as i64,
            })),
            None => Ok(None),
        }
    }

    /// The `Stat` of the node at a path after the transactions up to a zxid, and none where no node is there. The
    /// number of children is that of the names that are there; cversion and aversion, which a history does not tell,
    /// are 0.
    pub fn stat_at(&self, z: i64, path: &Path<A>) -> Option<Stat>
        ensures told { IsStat (tree_at (history_of self.now) (natural z)) (path_of path.now) result }
        ensures counted { (names : NameSet) → HasChildren (tree_at (history_of self.now) (natural z)) (path_of path.now) names
            → result ≡ option_map (stat_of (set.len names)) (tree_at (history_of self.now) (natural z) (path_of path.now)) }
    {
        match self.found(natural(z), path.as_str()) {
            Some(found) => Some(full_stat(&found, self.counted(natural(z), path.as_str()))),
            None => None,
        }
    }

    // Whether a node is at a path after all transactions.
    fn is_there(&self, at: &str) -> bool
        requires { IsPath at.now }
        ensures { result ≡ is_some (newest_tree self.now (path_of at.now)) }
    {
        self.found(NEWEST, at).is_some()
    }

    // Whether the node at a path can be set once more.
    fn can_rise(&self, at: &str) -> bool
        requires { IsPath at.now }
        ensures { result ≡ can_rise (newest_tree self.now (path_of at.now)) }
    {
        match self.found(NEWEST, at) {
            Some(found) => found.entry.version < LAST_VERSION,
            None => false,
        }
    }

    // How many children a path has after all transactions.
    fn children(&self, at: &str) -> u32
        requires { IsPath at.now }
        ensures { result ≡ newest_count self.now (path_of at.now) }
    {
        self.counted(NEWEST, at)
    }

    // Whether a node may be made.
    fn takes_create(&self, path: &Path<A>, bytes: &Option<Vec<u8, A>>) -> bool
        ensures { (owner : ℤ) → result ≡ accepts (newest_tree self.now) (newest_count self.now)
            (Creates (path_of path.now) (option_map (λ v. v.items) bytes.now) owner) }
    {
        match path.parent() {
            Some(parent) => {
                has_length(bytes)
                    & !self.is_there(path.as_str())
                    & self.is_there(parent)
                    & (self.children(parent) < MOST_CHILDREN)
            }
            None => false,
        }
    }

    // Whether a change may be made after all transactions.
    fn takes(&self, change: &Change<A>) -> bool
        ensures { result ≡ accepts (newest_tree self.now) (newest_count self.now) (change_of change.now) }
    {
        match change {
            Change::Create(path, bytes, _) => self.takes_create(path, bytes),
            Change::Set(path, bytes) => has_length(bytes) & self.can_rise(path.as_str()),
            Change::Delete(path) => {
                !path.is_root() & self.is_there(path.as_str()) & (self.children(path.as_str()) == 0)
            }
        }
    }
}
