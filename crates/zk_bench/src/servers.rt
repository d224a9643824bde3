//! How far each server is in the history.

ghost use Rattle.std.specs.Prelude.{◌≡◌, ◌<◌, ◌≤◌, ◌^◌, IfSome, OnOk, IsErrOf, is_some, false, slice_get, map, length, pos};
ghost use Rattle.zk_history.specs.HistoryView.{history_of};
ghost use Rattle.zk_history.specs.Made.{change_of};
ghost use Rattle.zk_laws.specs.Server.{zxid_held, tree_held};
ghost use Rattle.zk_nodes.specs.History.{tree_at};
ghost use Rattle.zk_laws.specs.ServerSteps.{changes_next};
ghost use Rattle.zk_bench.specs.declared.phase.Phase.TheVariants.{Accepted};
ghost use Rattle.zk_bench.specs.declared.stop.Stop.TheVariants as stops;
ghost use Rattle.zk_bench.specs.inner.Stepping.{Catches, CatchesUp};

use crate::connection::Connection;
use crate::notices::tell_changes;
use crate::stop::Stop;
use std::alloc::Allocator;
use zk_history::{Change, History};

/// The zxid of a server that has taken this many transactions: that of the last of them, and 0 before the first.
pub(crate) fn zxid_after<A: Allocator + Copy>(history: &History<A>, taken: usize) -> i64
    ensures zxid { taken ≤ length history.now.transactions → result ≡ pos (zxid_held (history_of history.now) taken) }
    ensures held { tree_at (history_of history.now) (zxid_held (history_of history.now) taken) ≡ tree_held (history_of history.now) taken }
{
    // Zxids rise from 1 on.
    let _last = history.last_zxid();
    if taken == 0 {
        return 0;
    }
    match history.transaction(taken - 1) {
        Some((zxid, _, _)) => zxid,
        None => 0,
    }
}

/// The changes of the next transaction of a server that has taken this many, if there is one.
pub(crate) fn next_changes<A: Allocator + Copy>(
    history: &History<A>,
    taken: usize,
) -> Option<&[Change<A>]>
    ensures there { is_some result ≡ is_some (slice_get history.now.transactions taken) }
    ensures changes { IfSome result (λ changes. changes_next (history_of history.now) taken ≡ map change_of changes.now) }
    ensures room { IfSome result (λ _. taken < length history.now.transactions) }
    ensures last { is_some result ≡ false → length history.now.transactions ≤ taken }
    // Zxids rise, so there are fewer transactions than zxids.
    ensures small { IfSome result (λ _. taken < 2 ^ 63) }
{
    let _last = history.last_zxid();
    match history.transaction(taken) {
        Some((_, _, changes)) => Some(changes),
        None => None,
    }
}

/// The connected server takes all transactions that are left, and sends their notices.
pub(crate) fn take_all<A: Allocator + Copy>(
    alloc: A,
    history: &History<A>,
    taken: &mut usize,
    connection: &mut Connection<A>,
) -> Result<(), Stop>
    ensures rest { connection.new ≡ record connection.old { watches = connection.new.watches; output = connection.new.output } }
    ensures catches { connection.old.phase ≡ Accepted → taken.old ≤ length history.now.transactions
        → Catches (history_of history.now) taken.old connection.old taken.new connection.new }
    ensures up { connection.old.phase ≡ Accepted → taken.old ≤ length history.now.transactions
        → OnOk result (CatchesUp (history_of history.now) taken.old connection.old taken.new connection.new) }
    ensures all { OnOk result (length history.now.transactions ≤ taken.new) }
    ensures stays { ¬ IsErrOf result stops.End }
{
    while let Some(changes) = next_changes(history, *taken) {
        *taken += 1;
        tell_changes(alloc, changes, connection)?;
    }
    Ok(())
}
