//! Follows a configuration, the nodes at and below a root, which come and go: prints all of it as it was at one moment, each time that this
//! is known again and is something else than before. A transaction of another session is seen whole or not at all.

use crate::Program;
use anyhow::Result;
use std::alloc::Global;
use std::io::Write;
use zk_client::{Client, DataAnswer, Mark, Path};
use zk_conclusions::{NoSubtree, Subtree};
use zk_driver::{Action, Driver, TreeNews};
use zk_fence::Fence;
use zk_link::{Clock, Dial};

/// The most nodes that there may be.
const MOST_NODES: usize = 10_000;

/// The ticket of the tree, and of the data of its root.
const TICKET: u64 = 0;

/// A root, whether a driver follows all nodes at and below it, and what was known last of them.
#[derive(Drop)]
pub struct Tree {
    alloc: Global,
    root: Path,
    is_followed: bool,
    line: Vec<u8>,
}

/// Whether it is known that there is no node.
fn is_absent(client: &Client, node: &Path) -> bool {
    matches!(
        client.peek_data(node),
        Some((DataAnswer::Absent, Mark::Good))
    )
}

/// Whether the tree may be another one by what is told: all of it is known, there are too many nodes, or there is no root.
fn is_of_tree(action: &Action) -> bool {
    matches!(
        action,
        Action::Tree(TreeNews::Complete { .. } | TreeNews::Bounded { .. })
            | Action::Shown { ticket: TICKET }
    )
}

/// Adds all nodes with their data, each before those below it.
fn put_all(subtree: &Subtree<'_>, line: &mut Vec<u8>) -> Result<()> {
    for (place, node) in subtree.paths().iter().enumerate() {
        line.push(b' ')?;
        line.extend_from_slice(node.as_str().as_bytes())?;
        if let DataAnswer::Full(Some(bytes), _) = subtree.data(place) {
            line.push(b'=')?;
            line.extend_from_slice(bytes.as_slice())?;
        }
    }
    Ok(())
}

impl Tree {
    /// The nodes at and below a root, which need not be there.
    pub fn new(alloc: Global, root: Path) -> Tree {
        Tree {
            alloc,
            root,
            is_followed: false,
            line: Vec::new(alloc),
        }
    }

    /// The nodes as they are at the last zxid that was seen, if all of them are known.
    fn shown(&self, client: &Client) -> Result<Option<Vec<u8>>> {
        let mut line = Vec::new(self.alloc);
        if is_absent(client, &self.root) {
            line.extend_from_slice(b" no node")?;
            return Ok(Some(line));
        }
        match Subtree::of(client, self.alloc, &self.root, MOST_NODES) {
            Ok(subtree) => put_all(&subtree, &mut line)?,
            Err(NoSubtree::NotWhole) => return Ok(None),
            Err(why) => return Err(why.into()),
        }
        Ok(Some(line))
    }

    /// Follows the tree, unless that is done.
    fn follow<D: Dial + Drop, C: Clock + Drop>(
        &mut self,
        driver: &mut Driver<'_, Global, D, C>,
    ) -> Result<()> {
        if !self.is_followed {
            let root = Path::new(self.alloc, self.root.as_str())?;
            driver.follow_tree(TICKET, root, MOST_NODES as u64)?;
            self.is_followed = true;
        }
        Ok(())
    }

    /// Prints what is known, where all of it is.
    fn look<W: Write>(&mut self, client: &Client, store: &mut Fence, out: &mut W) -> Result<()> {
        match self.shown(client)? {
            Some(line) => self.print_if_changed(line, client.last_zxid(), store, out),
            None => Ok(()),
        }
    }

    /// Prints the nodes, if they are others than before.
    fn print_if_changed<W: Write>(
        &mut self,
        line: Vec<u8>,
        zxid: i64,
        store: &mut Fence,
        out: &mut W,
    ) -> Result<()> {
        if line.as_slice() == self.line.as_slice() || !store.admit(zxid) {
            return Ok(());
        }
        self.line = line;
        write!(out, "at {zxid}")?;
        out.write_all(self.line.as_slice())?;
        out.write_all(b"\n").map_err(From::from)
    }
}

impl Program for Tree {
    fn act<D: Dial + Drop, C: Clock + Drop, W: Write>(
        &mut self,
        driver: &mut Driver<'_, Global, D, C>,
        until: u64,
        store: &mut Fence,
        out: &mut W,
    ) -> Result<()> {
        self.follow(driver)?;
        for _ in 0..u64::MAX {
            let acted = match driver.next(until)? {
                Some(action) if is_of_tree(&action) => self.look(driver.client(), store, out),
                Some(Action::Renewed) => {
                    self.line.clear();
                    out.write_all(b"another session\n").map_err(From::from)
                }
                Some(_) => Ok(()),
                None => break,
            };
            acted?;
        }
        Ok(())
    }
}
