//! The paths at which sessions made nodes of their own.

ghost use Rattle.std.specs.Prelude.{◌≡◌, ◌∷◌, ◌++◌, [], map, ℤ, None, OnOk, if◌then◌else◌};
ghost use Rattle.std.specs.BTreeMap.{UpdatesBy};
ghost use Rattle.std.specs.Ordering.{int_cmp};
ghost use Rattle.zk_nodes.specs.Path.{path_of};
ghost use Rattle.zk_history.specs.Made.{change_of};
ghost use Rattle.zk_log_history.specs.Changes.{is_owner, made_by};
ghost use Rattle.zk_log_history.specs.Made.{paths_made};

use crate::operation::copied;
use std::alloc::{AllocError, Allocator};
use std::collections::BTreeMap;
use zk_history::Change;
use zk_nodes::Path;

/// The paths at which each session made nodes of its own, whether they are there still or not.
pub(crate) type Made<A> = BTreeMap<i64, Vec<Path<A>, A>, A>;

/// Those of a session.
pub(crate) fn paths_made<A: Allocator>(made: &Made<A>, session: i64) -> &[Path<A>]
    ensures { result.now ≡ paths_made made.now session }
{
    match made.get(&session) {
        Some(paths) => paths.as_slice(),
        None => &[],
    }
}

/// Takes those of a session away.
fn take_paths<A: Allocator + Copy>(alloc: A, made: &mut Made<A>, session: i64) -> Vec<Path<A>, A>
    ensures paths { result.items ≡ paths_made made.old session }
    ensures others { UpdatesBy int_cmp (int_cmp session) made.old made.new None }
{
    match made.remove(&session) {
        Some(paths) => paths,
        None => Vec::new(alloc),
    }
}

/// Adds a path to those of a session. 0 is no session.
fn note_path<A: Allocator + Copy>(
    alloc: A,
    made: &mut Made<A>,
    owner: i64,
    path: &Path<A>,
) -> Result<(), AllocError>
    ensures { OnOk result ((session : ℤ) → paths_made made.new session
        ≡ (if is_owner session owner then paths_made made.old session ++ path.now ∷ [] else paths_made made.old session)) }
{
    if owner == 0 {
        return Ok(());
    }
    let path = copied(alloc, path)?;
    let mut paths = take_paths(alloc, made, owner);
    paths.push(path)?;
    match made.insert(owner, paths) {
        Ok(_) => Ok(()),
        Err(_) => Err(AllocError),
    }
}

/// Adds the path of a node that a change makes to those of its session.
pub(crate) fn note<A: Allocator + Copy>(
    alloc: A,
    made: &mut Made<A>,
    change: &Change<A>,
) -> Result<(), AllocError>
    ensures { OnOk result ((session : ℤ) → map path_of (paths_made made.new session)
        ≡ map path_of (paths_made made.old session) ++ made_by session (change_of change.now ∷ [])) }
{
    match change {
        Change::Create(path, _, owner) => note_path(alloc, made, *owner, path),
        Change::Set(_, _) | Change::Delete(_) => Ok(()),
    }
}
