//! Entries: what the servers' log says of a transaction.

ghost use Rattle.std.specs.Prelude.{◌≡◌, ◌≢◌, Ok, Err, IfOk, IfErr, MatchResult};
ghost use Rattle.zk_jute.specs.Cursor.{bytes_left, payload_len};
ghost use Rattle.zk_jute.specs.Reading.{reading, Gives};
ghost use Rattle.zk_jute.specs.declared.fault.TakeError.TheVariants as take_errors;
ghost use Rattle.zk_log.specs.declared.entry_fault.EntryFault.TheVariants as faults;
ghost use Rattle.zk_log.specs.Format.{Logged, EntryFits, entry_bytes, entry_front, digest};
ghost use Rattle.zk_log.specs.Reading.{entry_at, digest_at, made_entry};
ghost use Rattle.zk_log.specs.Views.{entry_of, digest_of, told_of, kind_of, body_of};
ghost use Rattle.zk_log.specs.inner.Views.{header_of};

use crate::entry_fault::EntryFault;
use crate::kind::TxnKind;
use crate::txn::Txn;
use std::alloc::Allocator;
use zk_jute::{Cursor, Readable, TakeError, Then};

/// What a transaction log says of a transaction.
#[derive(Drop)]
pub struct LogEntry<'a, A: Allocator> {
    /// The session that asked, or 0.
    pub session: i64,
    /// The session's own number of the request.
    pub cxid: i32,
    pub zxid: i64,
    /// In milliseconds since the epoch.
    pub time: i64,
    pub txn: Txn<'a, A>,
    /// That of the tree after the transaction, where the server writes one.
    pub digest: Option<TreeDigest>,
}

/// A number that is made of all nodes of a tree.
#[derive(Clone, Copy)]
pub struct TreeDigest {
    /// How it is made.
    pub version: i32,
    pub digest: i64,
}

/// The header of an entry.
#[derive(Clone, Copy)]
pub(crate) struct TxnHeader {
    pub(crate) session: i64,
    pub(crate) cxid: i32,
    pub(crate) zxid: i64,
    pub(crate) time: i64,
    pub(crate) number: i32,
}

/// The header at the cursor, which moves past it. After an `Err` it may stand anywhere.
fn read_front<A: Allocator + Copy>(alloc: A, at: &mut Cursor<'_>) -> Result<TxnHeader, TakeError>
    ensures len { payload_len at.new ≡ payload_len at.old }
    ensures gives { Gives header_of result (bytes_left at.new) (reading entry_front (payload_len at.old) (bytes_left at.old)) }
{
    let Then(session, Then(cxid, Then(zxid, Then(time, number)))) = Then::read(alloc, at)?;
    Ok(TxnHeader {
        session,
        cxid,
        zxid,
        time,
        number,
    })
}

/// A digest at the cursor, which moves past it. After an `Err` it may stand anywhere.
fn read_told<A: Allocator + Copy>(alloc: A, at: &mut Cursor<'_>) -> Result<TreeDigest, TakeError>
    ensures len { payload_len at.new ≡ payload_len at.old }
    ensures gives { Gives told_of result (bytes_left at.new) (reading digest (payload_len at.old) (bytes_left at.old)) }
{
    let Then(version, digest) = Then::read(alloc, at)?;
    Ok(TreeDigest { version, digest })
}

/// The digest at the cursor, or nothing, and then the end.
#[tactic(auto, unfolding(crate::specs::Reading::digest_at))]
fn read_digest<A: Allocator + Copy>(
    alloc: A,
    mut at: Cursor<'_>,
) -> Result<Option<TreeDigest>, EntryFault>
    ensures gives { MatchResult result
        (λ told. digest_at (payload_len at.entry) (bytes_left at.entry) ≡ Ok (digest_of told))
        (λ e. e ≢ faults.Unread take_errors.Memory → digest_at (payload_len at.entry) (bytes_left at.entry) ≡ Err e) }
{
    if at.rest().is_empty() {
        return Ok(None);
    }
    let told = read_told(alloc, &mut at)?;
    if !at.rest().is_empty() {
        return Err(EntryFault::Trailing(at.place()));
    }
    Ok(Some(told))
}

/// The entry of these parts, where the digest could be read.
fn whole_entry<'a, A: Allocator + Copy>(
    front: TxnHeader,
    txn: Txn<'a, A>,
    digest: Result<Option<TreeDigest>, EntryFault>,
) -> Result<LogEntry<'a, A>, EntryFault>
    ensures ok { IfOk result (λ entry. (digest ≡ Ok entry.digest)
        × (entry_of entry ≡ made_entry (header_of front) (kind_of txn.entry) (body_of txn.entry) (digest_of entry.digest))) }
    ensures err { IfErr result (λ e. digest ≡ Err e) }
{
    match digest {
        Err(fault) => {
            drop(txn);
            Err(fault)
        }
        Ok(digest) => Ok(LogEntry {
            session: front.session,
            cxid: front.cxid,
            zxid: front.zxid,
            time: front.time,
            txn,
            digest,
        }),
    }
}

/// Reads the entry that these bytes are.
fn read_entry<'a, A: Allocator + Copy>(
    alloc: A,
    bytes: &'a [u8],
) -> Result<LogEntry<'a, A>, EntryFault>
    ensures gives { MatchResult result
        (λ entry. entry_at bytes.entry.now ≡ Ok (entry_of entry))
        (λ e. e ≢ faults.Unread take_errors.Memory → entry_at bytes.entry.now ≡ Err e) }
{
    let mut at = Cursor::new(bytes);
    let front = read_front(alloc, &mut at)?;
    match TxnKind::at(front.number, at.rest()) {
        None => Err(EntryFault::Unknown(front.number)),
        Some(kind) => {
            let txn = Txn::read(alloc, kind, &mut at)?;
            whole_entry(front, txn, read_digest(alloc, at))
        }
    }
}

impl<'a, A: Allocator + Copy> LogEntry<'a, A> {
    /// The entry that these bytes are, all of them.
    ///
    /// # Errors
    ///
    /// The first fault from left to right, or `Unread(Memory)` if the allocator refused a request.
    pub fn read(alloc: A, bytes: &'a [u8]) -> Result<LogEntry<'a, A>, EntryFault>
        // What is read is spelled so.
        ensures found { IfOk result (λ entry. EntryFits (entry_of entry) × (bytes.entry.now ≡ entry_bytes (entry_of entry))) }
        // What is spelled so is read, unless memory runs out.
        ensures only { (entry : Logged) → EntryFits entry → bytes.entry.now ≡ entry_bytes entry
            → MatchResult result (λ read. entry_of read ≡ entry) (λ e. e ≡ faults.Unread take_errors.Memory) }
        // Which fault it is.
        ensures exact { MatchResult result
            (λ entry. entry_at bytes.entry.now ≡ Ok (entry_of entry))
            (λ e. e ≢ faults.Unread take_errors.Memory → entry_at bytes.entry.now ≡ Err e) }
    {
        read_entry(alloc, bytes)
    }
}
