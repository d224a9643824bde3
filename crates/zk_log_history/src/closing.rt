//! The ends of sessions: which nodes go with them.

ghost use Rattle.std.specs.Prelude.{◌≡◌, ◌≢◌, ◌∷◌, [], map, OnOk, IfErr, None, is_some};
ghost use Rattle.std.specs.Option.{option_map};
ghost use Rattle.zk_nodes.specs.Path.{path_of};
ghost use Rattle.zk_history.specs.HistoryView.{newest_tree, with_change};
ghost use Rattle.zk_history.specs.Made.{change_of};
ghost use Rattle.zk_log_history.specs.Changes.{named, is_owned, with_changes, deletions, close_changes};
ghost use Rattle.zk_log_history.specs.Made.{AreMade};
ghost use Rattle.zk_log_history.specs.Refused.{AreTaken, path_fault, first_fault};
ghost use Rattle.zk_log_history.specs.inner.Refused.{Refuses};

use crate::made::{Made, paths_made};
use crate::operation::{copied, path_at};
use crate::untold::Untold;
use std::alloc::Allocator;
use zk_history::{Change, History, HistoryFault};
use zk_jute::Text;
use zk_nodes::Path;

/// Adds a change to the transaction that is begun: so `Illegal` is all that can be wrong with it.
pub(crate) fn add_change<A: Allocator + Copy>(
    history: &mut History<A>,
    change: Change<A>,
) -> Result<(), Untold>
    ensures added { OnOk result (history.new ≡ with_change history.old (change_of change)) }
    ensures placed { OnOk result (history.old.transactions ≢ []) }
    ensures taken { OnOk result (AreTaken history.old (change_of change ∷ [])) }
    ensures refused { IfErr result (Refuses None history.old (change_of change ∷ [])) }
{
    match history.change(change) {
        Ok(()) => Ok(()),
        Err(HistoryFault::Illegal) => Err(Untold::Illegal),
        Err(_) => Err(Untold::Memory),
    }
}

/// The owner of the node at a path.
fn owner_at<A: Allocator + Copy>(history: &History<A>, path: &Path<A>) -> Option<i64>
    ensures { result ≡ option_map (λ node. node.owner) (newest_tree history.now (path_of path.now)) }
{
    let _last = history.last_zxid();
    match history.stat_at(i64::MAX, path) {
        None => None,
        Some(stat) => Some(stat.ephemeral_owner),
    }
}

/// Whether a node is there.
fn is_there<A: Allocator + Copy>(history: &History<A>, path: &Path<A>) -> bool
    ensures { result ≡ is_some (newest_tree history.now (path_of path.now)) }
{
    owner_at(history, path).is_some()
}

/// Whether a node is there that is this session's.
fn is_owned<A: Allocator + Copy>(history: &History<A>, session: i64, path: &Path<A>) -> bool
    ensures { result ≡ is_owned session (newest_tree history.now (path_of path.now)) }
{
    match owner_at(history, path) {
        None => false,
        Some(owner) => session != 0 && owner == session,
    }
}

/// Deletes the node at a path that is told, if it is there.
fn delete_told<A: Allocator + Copy>(
    alloc: A,
    history: &mut History<A>,
    path: &Text<A>,
) -> Result<(), Untold>
    ensures deleted { OnOk result (history.new ≡ with_changes history.old (deletions is_some history.old (named path.now ∷ []))) }
    ensures taken { OnOk result
        ((path_fault path.now ≡ None) × AreTaken history.old (deletions is_some history.old (named path.now ∷ []))) }
    ensures refused { IfErr result (Refuses (path_fault path.now) history.old (deletions is_some history.old (named path.now ∷ []))) }
{
    let path = path_at(alloc, path.as_str())?;
    if is_there(history, &path) {
        add_change(history, Change::Delete(path))
    } else {
        Ok(())
    }
}

/// Deletes those of these nodes that are there.
fn delete_all_told<A: Allocator + Copy>(
    alloc: A,
    history: &mut History<A>,
    paths: &[Text<A>],
) -> Result<(), Untold>
    ensures deleted { OnOk result (history.new ≡ with_changes history.old (deletions is_some history.old (map named paths.now))) }
    ensures taken { OnOk result ((first_fault path_fault paths.now ≡ None)
        × AreTaken history.old (deletions is_some history.old (map named paths.now))) }
    ensures refused { IfErr result
        (Refuses (first_fault path_fault paths.now) history.old (deletions is_some history.old (map named paths.now))) }
{
    for path in paths {
        delete_told(alloc, history, path)?;
    }
    Ok(())
}

/// Deletes the node at a path, if it is this session's.
fn delete_owned<A: Allocator + Copy>(
    alloc: A,
    history: &mut History<A>,
    session: i64,
    path: &Path<A>,
) -> Result<(), Untold>
    ensures deleted { OnOk result (history.new
        ≡ with_changes history.old (deletions (is_owned session) history.old (path_of path.now ∷ []))) }
    ensures taken { OnOk result (AreTaken history.old (deletions (is_owned session) history.old (path_of path.now ∷ []))) }
    ensures refused { IfErr result (Refuses None history.old (deletions (is_owned session) history.old (path_of path.now ∷ []))) }
{
    if is_owned(history, session, path) {
        let path = copied(alloc, path)?;
        add_change(history, Change::Delete(path))
    } else {
        Ok(())
    }
}

/// Deletes those of these nodes that are this session's.
fn delete_all_owned<A: Allocator + Copy>(
    alloc: A,
    history: &mut History<A>,
    session: i64,
    paths: &[Path<A>],
) -> Result<(), Untold>
    ensures deleted { OnOk result (history.new
        ≡ with_changes history.old (deletions (is_owned session) history.old (map path_of paths.now))) }
    ensures taken { OnOk result (AreTaken history.old (deletions (is_owned session) history.old (map path_of paths.now))) }
    ensures refused { IfErr result (Refuses None history.old (deletions (is_owned session) history.old (map path_of paths.now))) }
{
    for path in paths {
        delete_owned(alloc, history, session, path)?;
    }
    Ok(())
}

/// Deletes the nodes that go with a session: those that its end tells, and what is left of those that it made for itself.
pub(crate) fn close<A: Allocator + Copy>(
    alloc: A,
    history: &mut History<A>,
    made: &Made<A>,
    session: i64,
    paths: &[Text<A>],
) -> Result<(), Untold>
    ensures closed { OnOk result (AreMade made.now history.old
        → history.new ≡ with_changes history.old (close_changes session paths.now history.old)) }
    ensures made { OnOk result (AreMade made.now history.old → AreMade made.now history.new) }
    ensures taken { OnOk result (AreMade made.now history.old
        → (first_fault path_fault paths.now ≡ None) × AreTaken history.old (close_changes session paths.now history.old)) }
    ensures refused { IfErr result (λ why. AreMade made.now history.old
        → Refuses (first_fault path_fault paths.now) history.old (close_changes session paths.now history.old) why) }
{
    delete_all_told(alloc, history, paths)?;
    delete_all_owned(alloc, history, session, paths_made(made, session))
}
