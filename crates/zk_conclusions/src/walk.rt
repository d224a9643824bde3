//! The walk over all nodes at and below a path.

ghost use Rattle.std.specs.Prelude.{◌≡◌, ◌≤◌, IfErr, IfOk, OnOk, length, true};
ghost use Rattle.zk_client.specs.Clients.{view_of};
ghost use Rattle.zk_nodes.specs.PathFault.{IsPath};
ghost use Rattle.zk_conclusions.specs.Subtrees.{AreReached, HasMoreNodes, IsWholeBelow, Says};
ghost use Rattle.zk_conclusions.specs.Walks.{IsWalk, all_full};

use crate::children::children_at;
use crate::no_subtree::NoSubtree;
use std::alloc::Allocator;
use zk_client::{Client, Path};

pub(crate) fn copy_of<A: Allocator + Copy>(alloc: A, path: &Path<A>) -> Result<Path<A>, NoSubtree>
    ensures path { IfOk result (λ copy. copy ≡ path.now) }
    ensures is { IsPath path.now }
    ensures refused { IfErr result (λ why. Says why ⊥ ⊥) }
{
    let Ok(copy) = Path::new(alloc, path.as_str()) else {
        return Err(NoSubtree::Memory);
    };
    Ok(copy)
}

/// The paths of all nodes at and below the root that are reached through kept names, each node before those below it.
pub(crate) fn walk<A: Allocator + Copy>(
    client: &Client<A>,
    alloc: A,
    root: &Path<A>,
    most: usize,
) -> Result<Vec<Path<A>, A>, NoSubtree>
    ensures walk { IfOk result (λ paths. IsWalk (view_of client.now).cache root.now paths.items) }
    ensures full { IfOk result (λ paths. all_full (view_of client.now).cache paths.items ≡ true) }
    ensures most { IfOk result (λ paths. length paths.items ≤ most) }
    ensures is { OnOk result (IsPath root.now) }
    ensures refused { IfErr result
        (λ why. Says why (¬ (IsWholeBelow (view_of client.now).cache root.now)) (HasMoreNodes (view_of client.now).cache root.now most)) }
{
    if most == 0 {
        return Err(NoSubtree::TooMany);
    }
    let mut paths = Vec::new(alloc);
    paths.push(copy_of(alloc, root)?)?;
    for place in 0..most {
        if place >= paths.len() {
            return Ok(paths);
        }
        let mut children = children_at(client, alloc, &paths[place], most - paths.len())?;
        paths.append(&mut children)?;
    }
    Ok(paths)
}
