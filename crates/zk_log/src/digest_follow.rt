//! A tree, as the entries of a log change it.

ghost use Rattle.std.specs.Prelude.{◌≡◌, false, pos, IfOk, OnOk, Some, map, string_bytes, if◌then◌else◌};
ghost use Rattle.std.specs.Option.{option_map};
ghost use Rattle.std.specs.List.{list_any};
ghost use Rattle.zk_jute.specs.Lenient.{or_empty};
ghost use Rattle.zk_log.specs.Views.{kind_of, body_of, part_of, entry_of};
ghost use Rattle.zk_log.specs.Trees.{tree_of, deleted};
ghost use Rattle.zk_log.specs.Following.{on_path, node_made, data_written, acl_written, all_deleted, operation_done, is_failed, part_done};
ghost use Rattle.zk_log.specs.inner.Following.{makes_node};
ghost use Rattle.zk_log.specs.Following.{all_parts_done, parts_done, is_owned, owned, entry_done};

use crate::digest_node::{DigestNode, Stamp};
use crate::digest_tree::DigestTree;
use crate::entry::LogEntry;
use crate::entry_fault::EntryFault;
use crate::txn::Txn;
use crate::txn_fields::PartTxn;
use std::alloc::{AllocError, Allocator};
use zk_jute::Text;

/// The owner of a container.
const CONTAINER: i64 = i64::MIN;

/// 2^56: so much above its owner is the time to live of a node.
const TTL: i64 = 72_057_594_037_927_936;

/// Whether a part of a multi has failed: then none has changed anything.
fn has_failed<A: Allocator>(parts: &[PartTxn<A>]) -> bool
    ensures { result ≡ list_any is_failed (map part_of parts.now) }
{
    for part in parts {
        if part.0 == -1 {
            return true;
        }
    }
    false
}

/// Whether a node is a session's.
fn is_owned(session: i64, node: &DigestNode) -> bool
    ensures { result ≡ is_owned session node.now }
{
    session != 0 && node.owner == session
}

/// The owner of a node: a session, or nobody.
fn owner_of(session: i64, ephemeral: bool) -> i64
    ensures { result ≡ (if ephemeral then session else pos 0) }
{
    if ephemeral { session } else { 0 }
}

/// The bytes of a part of a multi.
fn part_bytes<A: Allocator>(part: &PartTxn<A>) -> &[u8]
    ensures { result.now ≡ or_empty part.now.1 }
{
    match part.1.as_slice() {
        None => &[],
        Some(bytes) => bytes,
    }
}

impl<A: Allocator + Copy> DigestTree<A> {
    fn make_at(
        &mut self,
        stamp: Stamp,
        path: Option<&str>,
        content: Option<&[u8]>,
        owner: i64,
        cversion: i32,
    ) -> Result<(), AllocError>
        ensures { OnOk result (tree_of self.new.nodes ≡ node_made stamp (option_map (λ text. text.now) path.entry)
            (option_map (λ bytes. bytes.now) content.entry) owner cversion (tree_of self.old.nodes)) }
    {
        let Some(path) = path else {
            return Ok(());
        };
        let node = DigestNode::new(self.rows.as_slice(), stamp, path, content, owner);
        self.create(stamp, path, node, cversion)
    }

    fn delete_at(&mut self, stamp: Stamp, path: Option<&str>) -> Result<(), AllocError>
        ensures { OnOk result (tree_of self.new.nodes
            ≡ on_path (option_map (λ text. text.now) path.entry) (deleted stamp) (tree_of self.old.nodes)) }
    {
        match path {
            None => Ok(()),
            Some(path) => self.delete(stamp, path),
        }
    }

    fn set_at(&mut self, stamp: Stamp, path: Option<&str>, content: Option<&[u8]>, version: i32)
        ensures { tree_of self.new.nodes ≡ data_written stamp (option_map (λ text. text.now) path.entry)
            (option_map (λ bytes. bytes.now) content.entry) version (tree_of self.old.nodes) }
    {
        if let Some(path) = path {
            self.set(stamp, path, content, version);
        }
    }

    fn set_acl_at(&mut self, path: Option<&str>, version: i32) -> Result<(), AllocError>
        ensures { OnOk result (tree_of self.new.nodes
            ≡ acl_written (option_map (λ text. text.now) path.entry) version (tree_of self.old.nodes)) }
    {
        match path {
            None => Ok(()),
            Some(path) => self.set_acl(path, version),
        }
    }

    /// Deletes the nodes at these paths, of which null is none.
    fn delete_all(&mut self, stamp: Stamp, paths: &[Text<A>]) -> Result<(), AllocError>
        ensures { OnOk result (tree_of self.new.nodes ≡ all_deleted stamp paths.now (tree_of self.old.nodes)) }
    {
        for path in paths {
            self.delete_at(stamp, path.as_str())?;
        }
        Ok(())
    }

    /// Does what an operation says that is no multi, and tells what it changes.
    fn follow_txn(&mut self, stamp: Stamp, txn: &Txn<'_, A>) -> Result<(), AllocError>
        ensures { OnOk result (tree_of self.new.nodes
            ≡ operation_done stamp (kind_of txn.now) (body_of txn.now) (tree_of self.old.nodes)) }
    {
        match txn {
            Txn::Create(t) => {
                let owner = owner_of(stamp.session, t.ephemeral);
                self.make_at(
                    stamp,
                    t.path.as_str(),
                    t.bytes.as_slice(),
                    owner,
                    t.parent_cversion,
                )
            }
            Txn::Create2(t) => {
                let owner = owner_of(stamp.session, t.ephemeral);
                self.make_at(
                    stamp,
                    t.path.as_str(),
                    t.bytes.as_slice(),
                    owner,
                    t.parent_cversion,
                )
            }
            Txn::CreateContainer(t) => {
                self.make_at(
                    stamp,
                    t.path.as_str(),
                    t.bytes.as_slice(),
                    CONTAINER,
                    t.parent_cversion,
                )
            }
            Txn::CreateTtl(t) => {
                let owner = t.ttl.wrapping_sub(TTL);
                self.make_at(
                    stamp,
                    t.path.as_str(),
                    t.bytes.as_slice(),
                    owner,
                    t.parent_cversion,
                )
            }
            other => self.follow_other(stamp, other),
        }
    }

    /// The same of an operation that makes no node.
    fn follow_other(&mut self, stamp: Stamp, txn: &Txn<'_, A>) -> Result<(), AllocError>
        ensures { OnOk result (makes_node (kind_of txn.now) ≡ false → tree_of self.new.nodes
            ≡ operation_done stamp (kind_of txn.now) (body_of txn.now) (tree_of self.old.nodes)) }
    {
        match txn {
            Txn::Delete(path) => self.delete_at(stamp, path.text),
            Txn::DeleteContainer(path) => self.delete_at(stamp, path.text),
            Txn::Set(t) => {
                self.set_at(stamp, t.path.text, t.bytes.bytes, t.version);
                Ok(())
            }
            Txn::Reconfig(t) => {
                self.set_at(stamp, t.path.text, t.bytes.bytes, t.version);
                Ok(())
            }
            Txn::SetAcl(t) => self.set_acl_at(t.path.text, t.version),
            Txn::CloseSession(paths) => self.delete_all(stamp, paths.or_empty()),
            _ => Ok(()),
        }
    }

    /// Does what a part of a multi says.
    fn follow_part(&mut self, stamp: Stamp, part: &PartTxn<A>) -> Result<(), EntryFault>
        ensures { OnOk result (tree_of self.new.nodes ≡ part_done stamp (part_of part.now) (tree_of self.old.nodes)) }
    {
        let txn = Txn::of_part(self.alloc, part.0, part_bytes(part))?;
        let outcome = self.follow_txn(stamp, &txn);
        drop(txn);
        outcome.map_err(From::from)
    }

    /// Does what the parts of a multi say, unless one has failed.
    fn follow_parts(&mut self, stamp: Stamp, parts: &[PartTxn<A>]) -> Result<(), EntryFault>
        ensures { OnOk result (tree_of self.new.nodes ≡ parts_done stamp (map part_of parts.now) (tree_of self.old.nodes)) }
    {
        if has_failed(parts) {
            return Ok(());
        }
        for part in parts {
            self.follow_part(stamp, part)?;
        }
        Ok(())
    }

    /// The paths of a session's nodes. It goes over all nodes.
    fn owned(&self, session: i64) -> Result<Vec<String<A>, A>, AllocError>
        ensures { IfOk result (λ paths. map string_bytes paths.items ≡ owned session self.now.nodes.entries) }
    {
        let mut paths = Vec::new(self.alloc);
        for (path, node) in &self.nodes {
            if is_owned(session, node) {
                paths.push(String::from_str(self.alloc, path.as_str())?)?;
            }
        }
        Ok(paths)
    }

    /// Deletes the nodes at these paths.
    fn delete_paths(&mut self, stamp: Stamp, paths: &[String<A>]) -> Result<(), AllocError>
        ensures { OnOk result (tree_of self.new.nodes
            ≡ all_deleted stamp (map Some (map string_bytes paths.now)) (tree_of self.old.nodes)) }
    {
        for path in paths {
            self.delete(stamp, path.as_str())?;
        }
        Ok(())
    }

    /// Deletes a session's nodes.
    fn delete_owned(&mut self, stamp: Stamp) -> Result<(), AllocError>
        ensures { OnOk result (tree_of self.new.nodes
            ≡ all_deleted stamp (map Some (owned stamp.session self.old.nodes.entries)) (tree_of self.old.nodes)) }
    {
        let paths = self.owned(stamp.session)?;
        self.delete_paths(stamp, paths.as_slice())
    }

    /// Does what an entry says. After an error the tree is any one.
    ///
    /// # Errors
    ///
    /// The fault of a part of a multi, or `Unread(Memory)` if the allocator refused a request.
    pub fn follow(&mut self, entry: &LogEntry<'_, A>) -> Result<(), EntryFault>
        ensures { OnOk result (tree_of self.new.nodes
            ≡ entry_done (owned entry.now.session self.old.nodes.entries) (entry_of entry.now) (tree_of self.old.nodes)) }
    {
        let stamp = Stamp {
            zxid: entry.zxid,
            time: entry.time,
            session: entry.session,
        };
        match &entry.txn {
            Txn::Multi(parts) => self.follow_parts(stamp, parts.or_empty()),
            Txn::CloseSessionAlone => self.delete_owned(stamp).map_err(From::from),
            txn => self.follow_txn(stamp, txn).map_err(From::from),
        }
    }
}
