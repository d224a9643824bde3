//! What entries make of a history.

ghost use Rattle.std.specs.Prelude.{◌≡◌, true, map, OnOk, IfOk, IfErr, None};
ghost use Rattle.std.specs.List.{list_any};
ghost use Rattle.std.specs.Option.{option_map};
ghost use Rattle.zk_jute.specs.Lenient.{or_empty};
ghost use Rattle.zk_nodes.specs.History.{newest};
ghost use Rattle.zk_history.specs.HistoryView.{natural, with_transaction};
ghost use Rattle.zk_history.specs.Made.{change_of};
ghost use Rattle.zk_log.specs.Following.{is_failed};
ghost use Rattle.zk_log.specs.Views.{kind_of, body_of, part_of, entry_of};
ghost use Rattle.zk_log_history.specs.Changes.{listed, operation_change, part_changes, parts_changes, with_changes};
ghost use Rattle.zk_log_history.specs.Following.{comes_next, entry_changes, with_whole, transaction_of};
ghost use Rattle.zk_log_history.specs.Made.{AreMade};
ghost use Rattle.zk_log_history.specs.Refused.{AreTaken, IsLater, IsTold, IsUntold};
ghost use Rattle.zk_log_history.specs.inner.Refused.{BeginUntold, Refuses, Unread};
ghost use Rattle.zk_log_history.specs.Refused.{entry_fault, operation_fault, part_fault, parts_fault};

use crate::closing::{add_change, close};
use crate::made::{Made, note};
use crate::next::{comes_next, natural};
use crate::operation::operation_change;
use crate::untold::Untold;
use std::alloc::Allocator;
use zk_history::{Change, History, HistoryFault};
use zk_jute::{List, TakeError, Text};
use zk_log::{EntryFault, LogEntry, PartTxn, Txn};

/// Adds a change, if there is one.
fn add<A: Allocator + Copy>(
    alloc: A,
    history: &mut History<A>,
    made: &mut Made<A>,
    change: Option<Change<A>>,
) -> Result<(), Untold>
    ensures added { OnOk result (history.new ≡ with_changes history.old (listed (option_map change_of change))) }
    ensures made { OnOk result (AreMade made.old history.old → AreMade made.new history.new) }
    ensures taken { OnOk result (AreTaken history.old (listed (option_map change_of change))) }
    ensures refused { IfErr result (Refuses None history.old (listed (option_map change_of change))) }
{
    match change {
        None => Ok(()),
        Some(change) => {
            note(alloc, made, &change)?;
            add_change(history, change)
        }
    }
}

/// Whether a part of a multi has failed: then none has changed anything.
pub(crate) fn has_failed<A: Allocator>(parts: &[PartTxn<A>]) -> bool
    ensures { result ≡ list_any is_failed (map part_of parts.now) }
{
    for part in parts {
        if part.0 == -1 {
            return true;
        }
    }
    false
}

/// The bytes of a part of a multi.
fn part_bytes<A: Allocator>(part: &PartTxn<A>) -> &[u8]
    ensures { result.now ≡ or_empty part.now.1 }
{
    match part.1.as_slice() {
        None => &[],
        Some(bytes) => bytes,
    }
}

/// The change that a part of a multi makes, if it makes one.
pub(crate) fn part_change<A: Allocator + Copy>(
    alloc: A,
    session: i64,
    part: &PartTxn<A>,
) -> Result<Option<Change<A>>, Untold>
    ensures change { IfOk result (λ change. listed (option_map change_of change) ≡ part_changes session (part_of part.now)) }
    ensures read { OnOk result (part_fault (part_of part.now) ≡ None) }
    ensures unread { IfErr result (Unread (part_fault (part_of part.now))) }
{
    match Txn::of_part(alloc, part.0, part_bytes(part)) {
        Err(EntryFault::Unread(TakeError::Memory)) => Err(Untold::Memory),
        Err(fault) => Err(Untold::Part(fault)),
        Ok(txn) => operation_change(alloc, session, &txn),
    }
}

/// Adds the change of a part of a multi.
fn add_part<A: Allocator + Copy>(
    alloc: A,
    history: &mut History<A>,
    made: &mut Made<A>,
    session: i64,
    part: &PartTxn<A>,
) -> Result<(), Untold>
    ensures added { OnOk result (history.new ≡ with_changes history.old (part_changes session (part_of part.now))) }
    ensures made { OnOk result (AreMade made.old history.old → AreMade made.new history.new) }
    ensures taken { OnOk result
        ((part_fault (part_of part.now) ≡ None) × AreTaken history.old (part_changes session (part_of part.now))) }
    ensures refused { IfErr result
        (Refuses (part_fault (part_of part.now)) history.old (part_changes session (part_of part.now))) }
{
    let change = part_change(alloc, session, part)?;
    add(alloc, history, made, change)
}

/// Adds the changes of the parts of a multi, unless one has failed.
fn add_parts<A: Allocator + Copy>(
    alloc: A,
    history: &mut History<A>,
    made: &mut Made<A>,
    session: i64,
    parts: &[PartTxn<A>],
) -> Result<(), Untold>
    ensures added { OnOk result (history.new ≡ with_changes history.old (parts_changes session (map part_of parts.now))) }
    ensures made { OnOk result (AreMade made.old history.old → AreMade made.new history.new) }
    ensures taken { OnOk result ((parts_fault (map part_of parts.now) ≡ None)
        × AreTaken history.old (parts_changes session (map part_of parts.now))) }
    ensures refused { IfErr result
        (Refuses (parts_fault (map part_of parts.now)) history.old (parts_changes session (map part_of parts.now))) }
{
    if has_failed(parts) {
        return Ok(());
    }
    for part in parts {
        add_part(alloc, history, made, session, part)?;
    }
    Ok(())
}

/// Adds the change of an operation, if it makes one.
fn add_operation<A: Allocator + Copy>(
    alloc: A,
    history: &mut History<A>,
    made: &mut Made<A>,
    session: i64,
    txn: &Txn<'_, A>,
) -> Result<(), Untold>
    ensures added { OnOk result (history.new
        ≡ with_changes history.old (listed (operation_change session (kind_of txn.now) (body_of txn.now)))) }
    ensures made { OnOk result (AreMade made.old history.old → AreMade made.new history.new) }
    ensures taken { OnOk result ((operation_fault (kind_of txn.now) (body_of txn.now) ≡ None)
        × AreTaken history.old (listed (operation_change session (kind_of txn.now) (body_of txn.now)))) }
    ensures refused { IfErr result (Refuses (operation_fault (kind_of txn.now) (body_of txn.now)) history.old
        (listed (operation_change session (kind_of txn.now) (body_of txn.now)))) }
{
    let change = operation_change(alloc, session, txn)?;
    add(alloc, history, made, change)
}

/// Adds the changes of an entry.
fn add_changes<A: Allocator + Copy>(
    alloc: A,
    history: &mut History<A>,
    made: &mut Made<A>,
    session: i64,
    txn: &Txn<'_, A>,
) -> Result<(), Untold>
    ensures added { OnOk result (AreMade made.old history.old
        → history.new ≡ with_changes history.old (entry_changes session history.old (kind_of txn.now) (body_of txn.now))) }
    ensures made { OnOk result (AreMade made.old history.old → AreMade made.new history.new) }
    ensures taken { OnOk result (AreMade made.old history.old → (entry_fault (kind_of txn.now) (body_of txn.now) ≡ None)
        × AreTaken history.old (entry_changes session history.old (kind_of txn.now) (body_of txn.now))) }
    ensures refused { IfErr result (λ why. AreMade made.old history.old
        → Refuses (entry_fault (kind_of txn.now) (body_of txn.now)) history.old
        (entry_changes session history.old (kind_of txn.now) (body_of txn.now)) why) }
{
    match txn {
        Txn::Multi(parts) => add_parts(alloc, history, made, session, parts.or_empty()),
        Txn::CloseSession(paths) => close(alloc, history, made, session, paths.or_empty()),
        Txn::CloseSessionAlone => {
            let none: List<Text<A>, A> = List { elements: None };
            close(alloc, history, made, session, none.or_empty())
        }
        txn => add_operation(alloc, history, made, session, txn),
    }
}

/// Begins a transaction, if none is missing before it.
fn begin<A: Allocator + Copy>(history: &mut History<A>, zxid: i64, time: i64) -> Result<(), Untold>
    ensures begun { OnOk result (history.new ≡ with_transaction history.old (natural zxid) time) }
    ensures rising { OnOk result (IsLater history.old zxid) }
    ensures next { OnOk result (comes_next (newest 0 history.old.transactions) (natural zxid) ≡ true) }
    ensures refused { IfErr result (BeginUntold history.old zxid) }
{
    let last = history.last_zxid();
    match history.begin(zxid, time) {
        Ok(()) => {
            if comes_next(natural(last), natural(zxid)) {
                Ok(())
            } else {
                Err(Untold::Missing)
            }
        }
        Err(HistoryFault::Order) => Err(Untold::Order),
        Err(_) => Err(Untold::Memory),
    }
}

/// Adds the transaction that an entry is.
pub(crate) fn follow<A: Allocator + Copy>(
    alloc: A,
    history: &mut History<A>,
    made: &mut Made<A>,
    entry: &LogEntry<'_, A>,
) -> Result<(), Untold>
    ensures added { OnOk result (AreMade made.old history.old
        → history.new ≡ with_whole history.old (transaction_of history.old (entry_of entry.now))) }
    ensures made { OnOk result (AreMade made.old history.old → AreMade made.new history.new) }
    ensures taken { OnOk result (AreMade made.old history.old → IsTold history.old (entry_of entry.now)) }
    ensures refused { IfErr result (λ why. AreMade made.old history.old → IsUntold history.old (entry_of entry.now) why) }
{
    begin(history, entry.zxid, entry.time)?;
    add_changes(alloc, history, made, entry.session, &entry.txn)
}
