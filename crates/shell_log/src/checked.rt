//! The digests of logs, compared with those of the tree that the logs make.

use std::alloc::{AllocError, Allocator};
use zk_log::{DigestTree, EntryFault, LogEntry, PartTxn, Txn};

/// The version of digests that is known.
const VERSION: i32 = 2;

/// The path of the root, as a part of a multi spells it.
const ROOT: &[u8] = b"\0\0\0\x01/";

/// At most this many transactions are on their way in a server, unless its `globalOutstandingLimit` is set.
const ON_THE_WAY: i64 = 1000;

/// At most this many nodes are gone over for each transaction, on average.
const NODES: usize = 64;

/// What the digest of an entry shows.
#[derive(Clone, Copy)]
pub(crate) enum Shown {
    /// Nothing against the logs.
    Nothing,
    /// It is that of another tree.
    Departs,
    /// It is not compared, nor is any after it.
    Unchecked,
}

/// The tree that logs make from the first transaction on.
#[derive(Drop)]
pub(crate) struct CheckedTree<A: Allocator + Copy> {
    tree: DigestTree<A>,
    /// Up to this zxid digests show nothing.
    quiet: i64,
    /// How many nodes may be gone over.
    nodes: usize,
}

/// Whether a part of a multi writes the data or the access list of the root.
fn part_writes_root<A: Allocator + Copy>(part: &PartTxn<A>) -> bool {
    (part.0 == 5 || part.0 == 7) && part.1.as_slice().unwrap_or(&[]).starts_with(ROOT)
}

/// Whether a transaction writes the data or the access list of the root.
fn writes_root<A: Allocator + Copy>(txn: &Txn<'_, A>) -> bool {
    match txn {
        Txn::Set(t) => t.path.text == Some("/"),
        Txn::SetAcl(t) => t.path.text == Some("/"),
        Txn::Multi(parts) => parts.or_empty().iter().any(part_writes_root),
        _ => false,
    }
}

impl<A: Allocator + Copy> CheckedTree<A> {
    /// The tree that servers begin with, if logs begin with the first transaction.
    pub(crate) fn new(alloc: A, is_whole: bool) -> Result<Option<CheckedTree<A>>, AllocError> {
        if !is_whole {
            return Ok(None);
        }
        Ok(Some(CheckedTree {
            tree: DigestTree::new(alloc)?,
            quiet: 0,
            nodes: 0,
        }))
    }

    /// Whether a transaction may be followed: a close that tells no paths goes over all nodes.
    fn can_follow(&mut self, txn: &Txn<'_, A>) -> bool {
        self.nodes = self.nodes.saturating_add(NODES);
        let Txn::CloseSessionAlone = txn else {
            return true;
        };
        let all = self.tree.len();
        if self.nodes < all {
            return false;
        }
        self.nodes -= all;
        true
    }

    /// Does what an entry says, and compares its digest; that of a refused request has none. A server keeps the root under two paths until
    /// what it was sent is done: while a write of the root itself is on its way, a change of the root's children has a digest that counts
    /// the root twice.
    pub(crate) fn follow(&mut self, entry: &LogEntry<'_, A>) -> Result<Shown, EntryFault> {
        let is_digested = match entry.digest {
            Some(told) => told.version == VERSION,
            None => matches!(entry.txn, Txn::Error(_)),
        };
        if !is_digested || !self.can_follow(&entry.txn) {
            return Ok(Shown::Unchecked);
        }
        self.tree.follow(entry)?;
        if writes_root(&entry.txn) {
            self.quiet = entry.zxid.saturating_add(ON_THE_WAY);
        }
        match entry.digest {
            Some(told) if self.quiet < entry.zxid && self.tree.departs(told) => Ok(Shown::Departs),
            _ => Ok(Shown::Nothing),
        }
    }
}
