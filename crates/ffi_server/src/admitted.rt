//! Which changes a tree admits.

ghost use Rattle.std.specs.Prelude.{◌≡◌, ℕ, ℤ, List, Option, IfErr, OnOk};
ghost use Rattle.std.specs.Option.{option_map};
ghost use Rattle.std.specs.FinSet as set;
ghost use Rattle.zk_nodes.specs.Path.{path_of};
ghost use Rattle.zk_nodes.specs.History.{Creates, Sets, Deletes};
ghost use Rattle.zk_nodes.specs.Names.{Names};
ghost use Rattle.zk_history.specs.HistoryView.{HasChildren};
ghost use Rattle.zk_history.specs.Made.{change_of};
ghost use Rattle.zk_history.specs.Shown.{IsStat, stat_of};
ghost use Rattle.ffi_server.specs.Refused.{Admits, RefusesAt, tree_now};

use crate::undone::Undone;
use std::alloc::Global;
use zk_bench::{Change, History};
use zk_nodes::{Path, Stat};

// The `Stat` of the node at a path after all transactions.
fn newest_stat(history: &History<Global>, path: &Path<Global>) -> Option<Stat>
    ensures told { IsStat (tree_now history.now) (path_of path.now) result }
    ensures counted { (names : Names) → HasChildren (tree_now history.now) (path_of path.now) names
        → result ≡ option_map (stat_of (set.len names)) (tree_now history.now (path_of path.now)) }
{
    history.stat_at(history.last_zxid(), path)
}

// Whether a node may be made at this path.
fn admit_new(alloc: Global, history: &History<Global>, path: &Path<Global>) -> Result<(), Undone>
    ensures admitted { (content : Option (List ℕ)) (owner : ℤ)
        → OnOk result (Admits (tree_now history.now) (Creates (path_of path.now) content owner)) }
    ensures refused { (content : Option (List ℕ)) (owner : ℤ)
        → IfErr result (RefusesAt (tree_now history.now) (Creates (path_of path.now) content owner)) }
{
    if newest_stat(history, path).is_some() {
        return Err(Undone::NodeExists);
    }
    let Some(above) = path.parent() else {
        return Err(Undone::BadArguments);
    };
    let Ok(parent) = Path::new(alloc, above) else {
        return Err(Undone::Memory);
    };
    let Some(stat) = newest_stat(history, &parent) else {
        return Err(Undone::NoNode);
    };
    if stat.ephemeral_owner != 0 {
        return Err(Undone::NoChildrenForEphemerals);
    }
    Ok(())
}

// Whether the node at this path may be written.
fn admit_data(history: &History<Global>, path: &Path<Global>) -> Result<(), Undone>
    ensures admitted { (content : Option (List ℕ)) → OnOk result (Admits (tree_now history.now) (Sets (path_of path.now) content)) }
    ensures refused { (content : Option (List ℕ)) → IfErr result (RefusesAt (tree_now history.now) (Sets (path_of path.now) content)) }
{
    let Some(stat) = newest_stat(history, path) else {
        return Err(Undone::NoNode);
    };
    if stat.version == i32::MAX {
        return Err(Undone::BadArguments);
    }
    Ok(())
}

// Whether the node at this path may be deleted.
fn admit_deletion(history: &History<Global>, path: &Path<Global>) -> Result<(), Undone>
    ensures admitted { OnOk result (Admits (tree_now history.now) (Deletes (path_of path.now))) }
    ensures refused { IfErr result (RefusesAt (tree_now history.now) (Deletes (path_of path.now))) }
{
    if path.is_root() {
        return Err(Undone::BadArguments);
    }
    let Some(stat) = newest_stat(history, path) else {
        return Err(Undone::NoNode);
    };
    if stat.num_children != 0 {
        return Err(Undone::NotEmpty);
    }
    Ok(())
}

/// Whether the tree after all transactions admits a change. A refusal has the reason that a server tells a client.
pub(crate) fn admit(
    alloc: Global,
    history: &History<Global>,
    change: &Change<Global>,
) -> Result<(), Undone>
    ensures admitted { OnOk result (Admits (tree_now history.now) (change_of change.now)) }
    ensures refused { IfErr result (RefusesAt (tree_now history.now) (change_of change.now)) }
{
    match change {
        Change::Create(path, _, _) => admit_new(alloc, history, path),
        Change::Set(path, _) => admit_data(history, path),
        Change::Delete(path) => admit_deletion(history, path),
    }
}
