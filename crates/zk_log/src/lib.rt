//! ZooKeeper's transaction logs: the files `log.` and a zxid in a server's `dataDir/version-2`.
//!
//! A log is a header, and records one after another: each a checksum, a length, an entry of that many bytes, and the byte `B`. Zeros
//! follow, since the file is made longer ahead of what is written. An entry is a header with the session, the zxid, the time and the
//! operation's number, the operation's fields, and since 3.6 a digest of the tree. `specs/Format.antt` spells all of it, once.
//!
//! [`Log::read`] reads a whole log. A record that a crash has cut off is no fault: [`Log::torn`] says where it begins. All else is a
//! [`LogFault`] with its place.
#![tactic(auto)]

mod checksum;
mod crc;
mod digest_follow;
mod digest_node;
mod digest_tree;
mod entry;
mod entry_fault;
mod kind;
mod log;
mod log_fault;
mod part;
mod record;
mod txn;
mod txn_fields;

pub use checksum::adler32;
pub use digest_node::{DigestNode, Stamp};
pub use digest_tree::DigestTree;
pub use entry::{LogEntry, TreeDigest};
pub use entry_fault::EntryFault;
pub use kind::TxnKind;
pub use log::{Log, PlacedEntry};
pub use log_fault::LogFault;
pub use record::{FoundRecord, next_record};
pub use txn::Txn;
pub use txn_fields::{
    AclTxn, CheckVersionTxn, CreateContainerTxn, CreateTtlTxn, CreateTxn, PartTxn, SetAclTxn,
    SetDataTxn,
};
