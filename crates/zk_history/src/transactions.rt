//! Transactions as they are made and added to.

ghost use Rattle.std.specs.Prelude.{◌≡◌, ◌<◌, ◌^◌, ℕ, List, Option, Some, length, [], ◌∷◌, ◌++◌, map, slice_get, IfErr, OnOk, OnErr};
ghost use Rattle.std.specs.Option.{option_map, option_copied};
ghost use Rattle.zk_history.specs.HistoryView.{with_one, made_transaction, last_with};
ghost use Rattle.zk_history.specs.Made.{change_of, transaction_of};
ghost use Rattle.zk_history.specs.inner.Versions.{last_transaction, next_origin};
ghost use Rattle.zk_history.specs.Versions.{content_of, content_in, nth_change};

use crate::change::{Change, Transaction};
use crate::version::{Origin, Spot};
use std::alloc::{AllocError, AllocFailed, Allocator};

fn new_transaction<A: Allocator>(zxid: u64, time: i64, changes: Vec<Change<A>, A>) -> Transaction<A>
    requires { zxid < 2 ^ 63 }
    ensures { transaction_of result ≡ made_transaction zxid time (map change_of changes.items) }
{
    Transaction {
        zxid,
        time,
        changes,
    }
}

fn push_transaction<A: Allocator>(
    transactions: &mut Vec<Transaction<A>, A>,
    transaction: Transaction<A>,
) -> Result<(), AllocError>
    ensures ok { OnOk result
        (map transaction_of transactions.new.items ≡ map transaction_of transactions.old.items ++ transaction_of transaction ∷ []) }
    ensures err { OnErr result (map transaction_of transactions.new.items ≡ map transaction_of transactions.old.items) }
{
    transactions.push(transaction)?;
    Ok(())
}

// Adds a node of the first tree: the creation that makes it at zxid 0. A refusal gives the creation back.
pub(crate) fn push_node<A: Allocator + Copy>(
    alloc: A,
    nodes: &mut Vec<Transaction<A>, A>,
    time: i64,
    change: Change<A>,
) -> Result<(), AllocFailed<Change<A>>>
    ensures ok { OnOk result
        (map transaction_of nodes.new.items ≡ map transaction_of nodes.old.items ++ made_transaction 0 time (change_of change ∷ []) ∷ []) }
    ensures err { OnErr result (map transaction_of nodes.new.items ≡ map transaction_of nodes.old.items) }
    ensures back { IfErr result (λ failed. failed.value ≡ change) }
{
    if nodes.reserve(1).is_err() {
        return Err(AllocFailed { value: change });
    }
    let mut changes = Vec::new(alloc);
    changes.push(change)?;
    let _ = nodes.push(new_transaction(0, time, changes));
    Ok(())
}

// Adds a transaction with no change.
pub(crate) fn push_empty<A: Allocator + Copy>(
    alloc: A,
    transactions: &mut Vec<Transaction<A>, A>,
    zxid: u64,
    time: i64,
) -> Result<(), AllocError>
    requires { zxid < 2 ^ 63 }
    ensures ok { OnOk result
        (map transaction_of transactions.new.items ≡ map transaction_of transactions.old.items ++ made_transaction zxid time [] ∷ []) }
    ensures err { OnErr result (map transaction_of transactions.new.items ≡ map transaction_of transactions.old.items) }
{
    push_transaction(transactions, new_transaction(zxid, time, Vec::new(alloc)))
}

fn add_change<A: Allocator>(
    transaction: &mut Transaction<A>,
    change: Change<A>,
) -> Result<(), AllocFailed<Change<A>>>
    ensures ok { OnOk result (transaction_of transaction.new ≡ with_one (transaction_of transaction.old) (change_of change)) }
    ensures err { OnErr result (transaction_of transaction.new ≡ transaction_of transaction.old) }
    ensures back { IfErr result (λ failed. failed.value ≡ change) }
{
    transaction.changes.push(change)
}

// Adds a change to the last of some transactions. A refusal gives it back.
pub(crate) fn push_change<A: Allocator>(
    transactions: &mut Vec<Transaction<A>, A>,
    change: Change<A>,
) -> Result<(), AllocFailed<Change<A>>>
    requires { 0 < length transactions.old.items }
    ensures ok { OnOk result
        (map transaction_of transactions.new.items ≡ last_with (map transaction_of transactions.old.items) (change_of change)) }
    ensures err { OnErr result (map transaction_of transactions.new.items ≡ map transaction_of transactions.old.items) }
    ensures back { IfErr result (λ failed. failed.value ≡ change) }
{
    let last = transactions.len() - 1;
    add_change(&mut transactions[last], change)
}

// Where a change that is added to the last of some transactions will stand.
pub(crate) fn next_spot<A: Allocator>(transactions: &[Transaction<A>]) -> Spot
    requires { 0 < length transactions.now }
    ensures zxid { result.zxid ≡ (last_transaction (map transaction_of transactions.now)).zxid }
    ensures time { result.time ≡ (last_transaction (map transaction_of transactions.now)).time }
    ensures origin { result.origin ≡ next_origin (map transaction_of transactions.now) }
{
    let last = transactions.len() - 1;
    let transaction = &transactions[last];
    Spot {
        zxid: transaction.zxid,
        time: transaction.time,
        origin: Origin::Later(last, transaction.changes.len()),
    }
}

fn lent<A: Allocator>(bytes: &Option<Vec<u8, A>>) -> Option<&[u8]>
    ensures { option_copied result ≡ option_map (λ v. v.items) bytes.now }
{
    match bytes {
        Some(bytes) => Some(bytes.as_slice()),
        None => None,
    }
}

// The bytes that a change writes.
fn content<A: Allocator>(change: &Change<A>) -> Option<&[u8]>
    ensures { (content : Option (List ℕ)) → content_of (change_of change.now) ≡ Some content → option_copied result ≡ content }
{
    match change {
        Change::Create(_, bytes, _) | Change::Set(_, bytes) => lent(bytes),
        Change::Delete(_) => None,
    }
}

// The bytes that the change at a place of a transaction writes.
pub(crate) fn content_at<A: Allocator>(
    transactions: &[Transaction<A>],
    i: usize,
    j: usize,
) -> Option<&[u8]>
    ensures { (content : Option (List ℕ)) → content_in (nth_change (slice_get (map transaction_of transactions.now) i) j) ≡ Some content
        → option_copied result ≡ content }
{
    match transactions.get(i) {
        Some(transaction) => match transaction.changes.get(j) {
            Some(change) => content(change),
            None => None,
        },
        None => None,
    }
}
