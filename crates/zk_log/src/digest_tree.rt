//! The nodes of a tree, with the sum of their digests, as transactions change it.

ghost use Rattle.std.specs.Prelude.{◌≡◌, ◌<◌, None, Some, OnOk, IfOk, IfSome, codes, length, slice_index};
ghost use Rattle.std.specs.BTreeMap.{btree_map_len};
ghost use Rattle.std.specs.Option.{option_copied, option_map};
ghost use Rattle.zk_log.specs.Crc.{IsTable};
ghost use Rattle.std.specs.Int.{w64, cast_signed};
ghost use Rattle.zk_log.specs.Digests.{nodes_digest, departs};
ghost use Rattle.zk_log.specs.Views.{told_of};
ghost use Rattle.zk_log.specs.Trees.{tree_of, first_at, first_node, first_tree, put_at, last_slash, parent_of};
ghost use Rattle.zk_log.specs.Trees.{created, deleted, data_set, acl_set};
ghost use Rattle.std.proofs.Props.{props};

use crate::crc::crc_rows;
use crate::digest_node::{DigestNode, Stamp};
use crate::entry::TreeDigest;
use std::alloc::{AllocError, Allocator};
use std::collections::BTreeMap;

/// The version of digests that is known.
const DIGEST_VERSION: i32 = 2;

/// The nodes of a tree by their paths, and the sum of their digests. A change costs as much as the nodes that it changes.
#[derive(Drop)]
pub struct DigestTree<A: Allocator + Copy> {
    pub(crate) alloc: A,
    pub(crate) rows: Vec<u32, A>,
    pub(crate) nodes: BTreeMap<String<A>, DigestNode, A>,
    pub(crate) sum: u64,
    ghost table: { IsTable rows.items } by { Prim.hlevel props },
    ghost same: { sum ≡ nodes_digest nodes } by { Prim.hlevel props },
}

/// The place of the last slash, if there is one.
fn last_slash(bytes: &[u8]) -> Option<usize>
    ensures place { result ≡ last_slash bytes.now 0 None }
    ensures within { IfSome result (λ place. place < length bytes.now) }
    ensures slash { IfSome result (λ place. slice_index bytes.now place ≡ 47) }
{
    let mut last = None;
    for (place, byte) in bytes.iter().enumerate() {
        if *byte == b'/' {
            last = Some(place);
        }
    }
    last
}

/// What comes before the last slash; for a name at the root, the root.
#[tactic(auto, unfolding(crate::specs::Trees::parent_of))]
fn parent_of(path: &str) -> Option<&str>
    ensures { option_copied result ≡ parent_of path.now }
{
    match last_slash(path.as_bytes()) {
        None => None,
        Some(0) => Some("/"),
        Some(place) => Some(&path[..place]),
    }
}

impl<A: Allocator + Copy> DigestTree<A> {
    /// The tree that servers begin with.
    pub fn new(alloc: A) -> Result<DigestTree<A>, AllocError>
        ensures { IfOk result (λ tree. tree_of tree.nodes ≡ first_tree) }
    {
        let mut tree = DigestTree {
            alloc,
            rows: crc_rows(alloc)?,
            nodes: BTreeMap::new(alloc),
            sum: 0,
        };
        match tree.begin_all() {
            Ok(()) => Ok(tree),
            Err(fault) => {
                drop(tree);
                Err(fault)
            }
        }
    }

    /// Puts the nodes that servers begin with.
    fn begin_all(&mut self) -> Result<(), AllocError>
        ensures { OnOk result (tree_of self.new.nodes ≡ first_at (codes "/zookeeper/config") (first_at (codes "/zookeeper/quota")
            (first_at (codes "/zookeeper") (first_at (codes "/") (tree_of self.old.nodes))))) }
    {
        self.begin("/")?;
        self.begin("/zookeeper")?;
        self.begin("/zookeeper/quota")?;
        self.begin("/zookeeper/config")
    }

    /// Puts a node that servers begin with.
    fn begin(&mut self, path: &str) -> Result<(), AllocError>
        ensures { OnOk result (tree_of self.new.nodes ≡ put_at path.now (Some (first_node path.now)) (tree_of self.old.nodes)) }
    {
        let stamp = Stamp {
            zxid: 0,
            time: 0,
            session: 0,
        };
        let node = DigestNode::new(self.rows.as_slice(), stamp, path, None, 0);
        self.put(path, node)
    }

    /// The digest, as records have it.
    pub fn digest(&self) -> i64
        ensures { result ≡ cast_signed w64 (nodes_digest self.now.nodes) }
    {
        self.sum.cast_signed()
    }

    /// How many nodes it has.
    pub fn len(&self) -> usize
        ensures { result ≡ btree_map_len self.now.nodes }
    {
        self.nodes.len()
    }

    /// Whether the digest of a record is not that of the tree. Of another version than 2 nothing is known.
    pub fn departs(&self, told: TreeDigest) -> bool
        ensures { result ≡ departs (told_of told) (cast_signed w64 (nodes_digest self.now.nodes)) }
    {
        told.version == DIGEST_VERSION && told.digest != self.digest()
    }

    /// The node at a path.
    pub(crate) fn get(&self, path: &str) -> Option<DigestNode>
        ensures { result ≡ tree_of self.now.nodes path.now }
    {
        self.nodes.get(path).copied()
    }

    /// Puts a node at a path.
    pub(crate) fn put(&mut self, path: &str, node: DigestNode) -> Result<(), AllocError>
        ensures ok { OnOk result (tree_of self.new.nodes ≡ put_at path.now (Some node) (tree_of self.old.nodes)) }
    {
        let added = node.digest(self.rows.as_slice());
        let path = String::from_str(self.alloc, path)?;
        let before = match self.nodes.insert(path, node)? {
            Some(before) => before.digest(self.rows.as_slice()),
            None => 0,
        };
        self.sum = self
            .sum
            .wrapping_sub(u64::from(before))
            .wrapping_add(u64::from(added));
        Ok(())
    }

    /// Takes the node at a path away, if there is one.
    fn remove(&mut self, path: &str)
        ensures { tree_of self.new.nodes ≡ put_at path.now None (tree_of self.old.nodes) }
    {
        let Some(node) = self.nodes.remove(path) else {
            return;
        };
        let before = node.digest(self.rows.as_slice());
        self.sum = self.sum.wrapping_sub(u64::from(before));
    }

    /// A node is made, if its parent is there and it is not.
    #[tactic(auto, unfolding(crate::specs::Trees::created))]
    pub(crate) fn create(
        &mut self,
        stamp: Stamp,
        path: &str,
        node: DigestNode,
        cversion: i32,
    ) -> Result<(), AllocError>
        ensures { OnOk result (tree_of self.new.nodes ≡ created stamp path.now node cversion (tree_of self.old.nodes)) }
    {
        let Some(above) = parent_of(path) else {
            return Ok(());
        };
        let Some(parent) = self.get(above) else {
            return Ok(());
        };
        if self.get(path).is_some() {
            return Ok(());
        }
        self.put(above, parent.raised(stamp, cversion))?;
        self.put(path, node)
    }

    /// A node is deleted, if its parent is there.
    #[tactic(auto, unfolding(crate::specs::Trees::deleted))]
    pub(crate) fn delete(&mut self, stamp: Stamp, path: &str) -> Result<(), AllocError>
        ensures { OnOk result (tree_of self.new.nodes ≡ deleted stamp path.now (tree_of self.old.nodes)) }
    {
        let Some(above) = parent_of(path) else {
            return Ok(());
        };
        let Some(parent) = self.get(above) else {
            return Ok(());
        };
        self.put(above, parent.lowered(stamp))?;
        self.remove(path);
        Ok(())
    }

    /// The data of a node are written, if it is there.
    pub(crate) fn set(&mut self, stamp: Stamp, path: &str, content: Option<&[u8]>, version: i32)
        ensures { tree_of self.new.nodes
            ≡ data_set stamp path.now (option_map (λ bytes. bytes.now) content.entry) version (tree_of self.old.nodes) }
    {
        if let Some(place) = self.nodes.get_mut(path) {
            let rows = self.rows.as_slice();
            let before = place.digest(rows);
            let node = place.written(rows, stamp, path, content, version);
            let added = node.digest(rows);
            *place = node;
            self.sum = self
                .sum
                .wrapping_sub(u64::from(before))
                .wrapping_add(u64::from(added));
        }
    }

    /// The access list of a node is written, if it is there.
    pub(crate) fn set_acl(&mut self, path: &str, version: i32) -> Result<(), AllocError>
        ensures { OnOk result (tree_of self.new.nodes ≡ acl_set path.now version (tree_of self.old.nodes)) }
    {
        let Some(node) = self.get(path) else {
            return Ok(());
        };
        let node = DigestNode {
            aversion: version,
            ..node
        };
        self.put(path, node)
    }
}
