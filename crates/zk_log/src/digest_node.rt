//! Nodes, as digests count them.

ghost use Rattle.std.specs.Prelude.{◌≡◌, ℕ, List, Option};
ghost use Rattle.std.specs.Option.{option_map};
ghost use Rattle.zk_jute.specs.Spelling.{int_bytes, long_bytes};
ghost use Rattle.zk_log.specs.Crc.{crc_after, IsTable};
ghost use Rattle.zk_log.specs.Digests.{counts, name_of, head_of, fields_of, node_digest};
ghost use Rattle.zk_log.specs.inner.Digests.{digest_of};
ghost use Rattle.zk_log.specs.Trees.{new_node, raised, lowered, written};

use crate::crc::{ONES, crc_after};

/// What the digest of a node is made of.
#[derive(Clone, Copy)]
pub struct DigestNode {
    /// Whether digests count it.
    pub(crate) counts: bool,
    /// The CRC so far of its path and its data.
    pub(crate) head: u32,
    pub(crate) czxid: i64,
    pub(crate) mzxid: i64,
    pub(crate) pzxid: i64,
    pub(crate) ctime: i64,
    pub(crate) mtime: i64,
    pub(crate) version: i32,
    pub(crate) cversion: i32,
    pub(crate) aversion: i32,
    pub(crate) owner: i64,
}

/// When a transaction was, and by whom.
#[derive(Clone, Copy)]
pub struct Stamp {
    pub(crate) zxid: i64,
    pub(crate) time: i64,
    pub(crate) session: i64,
}

/// Whether digests count a path. What is below /zookeeper differs from server to server.
fn counts(path: &str) -> bool
    ensures { result ≡ counts path.now }
{
    !path.starts_with("/zookeeper/")
}

/// The name of a path in a digest: the root has none.
fn name_of(path: &str) -> &str
    ensures { result.now ≡ name_of path.now }
{
    if path == "/" { "" } else { path }
}

/// The CRC so far of a path and its data.
#[tactic(auto, using(crate::proofs::CrcLaws::head_is), unfolding(crate::specs::Digests::head_of))]
fn head_of(rows: &[u32], path: &str, content: Option<&[u8]>) -> u32
    requires { IsTable rows.now }
    ensures { result ≡ head_of path.now (option_map (λ bytes. bytes.now) content.entry) }
{
    let crc = crc_after(rows, name_of(path).as_bytes(), ONES);
    match content {
        None => crc,
        Some(bytes) => crc_after(rows, bytes, crc),
    }
}

/// The CRC so far, after a number of 32 bits.
#[tactic(auto, unfolding(zk_jute::specs::Spelling::int_bytes))]
fn int_after(rows: &[u32], number: i32, crc: u32) -> u32
    requires { IsTable rows.now }
    ensures { result ≡ crc_after (int_bytes number) crc }
{
    let bytes = number.to_be_bytes();
    crc_after(rows, bytes.as_slice(), crc)
}

/// The CRC so far, after a number of 64 bits.
#[tactic(auto, unfolding(zk_jute::specs::Spelling::long_bytes))]
fn long_after(rows: &[u32], number: i64, crc: u32) -> u32
    requires { IsTable rows.now }
    ensures { result ≡ crc_after (long_bytes number) crc }
{
    let bytes = number.to_be_bytes();
    crc_after(rows, bytes.as_slice(), crc)
}

impl DigestNode {
    /// A node that is made.
    #[tactic(auto, unfolding(crate::specs::Trees::new_node))]
    pub(crate) fn new(
        rows: &[u32],
        stamp: Stamp,
        path: &str,
        content: Option<&[u8]>,
        owner: i64,
    ) -> DigestNode
        requires { IsTable rows.now }
        ensures { result ≡ new_node stamp path.now (option_map (λ bytes. bytes.now) content.entry) owner }
    {
        DigestNode {
            counts: counts(path),
            head: head_of(rows, path, content),
            czxid: stamp.zxid,
            mzxid: stamp.zxid,
            pzxid: stamp.zxid,
            ctime: stamp.time,
            mtime: stamp.time,
            version: 0,
            cversion: 0,
            aversion: 0,
            owner,
        }
    }

    /// The node with this number of changes of its children, if it is a greater one.
    pub(crate) fn raised(self, stamp: Stamp, cversion: i32) -> DigestNode
        ensures { result ≡ raised stamp cversion self }
    {
        if self.cversion < cversion {
            DigestNode {
                cversion,
                pzxid: stamp.zxid,
                ..self
            }
        } else {
            self
        }
    }

    /// The node after one of its children has gone, with this zxid of the last change of them, if it is a later one.
    pub(crate) fn lowered(self, stamp: Stamp) -> DigestNode
        ensures { result ≡ lowered stamp self }
    {
        if self.pzxid < stamp.zxid {
            DigestNode {
                pzxid: stamp.zxid,
                ..self
            }
        } else {
            self
        }
    }

    /// The node with these data.
    pub(crate) fn written(
        self,
        rows: &[u32],
        stamp: Stamp,
        path: &str,
        content: Option<&[u8]>,
        version: i32,
    ) -> DigestNode
        requires { IsTable rows.now }
        ensures { result ≡ written stamp path.now (option_map (λ bytes. bytes.now) content.entry) version self }
    {
        DigestNode {
            head: head_of(rows, path, content),
            mzxid: stamp.zxid,
            mtime: stamp.time,
            version,
            ..self
        }
    }

    /// Its digest.
    #[tactic(auto, unfolding(crate::specs::Digests::node_digest))]
    pub(crate) fn digest(&self, rows: &[u32]) -> u32
        requires { IsTable rows.now }
        ensures kept { result ≡ node_digest self.now }
        ensures whole { (path : List ℕ) (content : Option (List ℕ)) → self.now.counts ≡ counts path → self.now.head ≡ head_of path content
            → result ≡ digest_of path content (fields_of self.now) }
    {
        if !self.counts {
            return 0;
        }
        let czxid = long_after(rows, self.czxid, self.head);
        let mzxid = long_after(rows, self.mzxid, czxid);
        let pzxid = long_after(rows, self.pzxid, mzxid);
        let ctime = long_after(rows, self.ctime, pzxid);
        let mtime = long_after(rows, self.mtime, ctime);
        let version = int_after(rows, self.version, mtime);
        let cversion = int_after(rows, self.cversion, version);
        let aversion = int_after(rows, self.aversion, cversion);
        long_after(rows, self.owner, aversion) ^ ONES
    }
}
