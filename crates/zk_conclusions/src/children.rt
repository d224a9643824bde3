//! What is kept of one node, and its children.

ghost use Rattle.std.specs.Prelude.{◌≡◌, ◌≢◌, ◌≤◌, [], true, IfErr, IfOk, IfSome, None, OnOk, length};
ghost use Rattle.std.specs.List.Sorted.{IsStrictlySortedBy};
ghost use Rattle.zk_cache.specs.Contents.{names_in};
ghost use Rattle.zk_cache.specs.Kept.{Names as KeptNames};
ghost use Rattle.zk_client.specs.Clients.{view_of};
ghost use Rattle.zk_nodes.specs.Names.{name_cmp};
ghost use Rattle.zk_nodes.specs.Path.{child_text};
ghost use Rattle.zk_nodes.specs.PathFault.{child_fault};
ghost use Rattle.zk_conclusions.specs.Subtrees.{IsFull, IsKeptWhole, Says, is_full_good};
ghost use Rattle.zk_conclusions.specs.inner.Walks.{Added, HasChildren, HasFault, HasMore, HasTooMany};

use crate::no_subtree::NoSubtree;
use std::alloc::Allocator;
use zk_client::{Children, Client, DataAnswer, Mark, Path, PathFault};

/// Whether an answer about the node, with its data, is kept and good.
pub(crate) fn has_data<A: Allocator + Copy>(client: &Client<A>, path: &Path<A>) -> bool
    ensures { result ≡ is_full_good ((view_of client.now).cache.nodes path.now) }
{
    matches!(
        client.peek_data(path),
        Some((DataAnswer::Full(_, _), Mark::Good))
    )
}

/// The names below the node, where these and its data are kept and good.
fn names_if_full<'a, A: Allocator + Copy>(
    client: &'a Client<A>,
    path: &Path<A>,
) -> Option<&'a Children<A>>
    ensures some { IfSome result (λ names. IsFull (view_of client.now).cache path.now (names_in names.now)) }
    ensures none { result ≡ None → (names : KeptNames) → ¬ (IsFull (view_of client.now).cache path.now names) }
{
    if !has_data(client, path) {
        return None;
    }
    match client.peek_children(path) {
        Some((names, Mark::Good)) => Some(names),
        _ => None,
    }
}

fn child_of<A: Allocator + Copy>(alloc: A, path: &Path<A>, name: &str) -> Result<Path<A>, NoSubtree>
    ensures path { IfOk result (λ child. child ≡ child_text path.now name.now) }
    ensures fine { OnOk result (child_fault path.now name.now ≡ None) }
    ensures refused { IfErr result (λ why. Says why (child_fault path.now name.now ≢ None) ⊥) }
{
    match path.join(alloc, name) {
        Ok(child) => Ok(child),
        Err(PathFault::Memory) => Err(NoSubtree::Memory),
        Err(_) => Err(NoSubtree::NotWhole),
    }
}

/// The paths of the children with these names, in byte order, if there are at most as many as there is room for.
pub(crate) fn children_of<A: Allocator + Copy>(
    alloc: A,
    path: &Path<A>,
    names: &Children<A>,
    room: usize,
) -> Result<Vec<Path<A>, A>, NoSubtree>
    ensures added { IfOk result (λ children. Added path.now names.now.names [] children.items) }
    ensures fits { IfOk result (λ children. length children.items ≤ room) }
    ensures sorted { IsStrictlySortedBy name_cmp names.now.names }
    ensures refused { IfErr result (λ why. Says why (HasFault path.now names.now.names) (HasMore path.now names.now.names room)) }
{
    let mut children = Vec::new(alloc);
    for at in 0..names.names.len() {
        let Some(name) = names.names.get(at) else {
            return Ok(children);
        };
        let child = child_of(alloc, path, name)?;
        if children.len() >= room {
            return Err(NoSubtree::TooMany);
        }
        children.push(child)?;
    }
    Ok(children)
}

/// The paths of the children of a node that is kept whole.
pub(crate) fn children_at<A: Allocator + Copy>(
    client: &Client<A>,
    alloc: A,
    path: &Path<A>,
    room: usize,
) -> Result<Vec<Path<A>, A>, NoSubtree>
    ensures children { IfOk result (λ children. HasChildren (view_of client.now).cache path.now children.items) }
    ensures data { OnOk result (is_full_good ((view_of client.now).cache.nodes path.now) ≡ true) }
    ensures fits { IfOk result (λ children. length children.items ≤ room) }
    ensures refused { IfErr result
        (λ why. Says why (¬ (IsKeptWhole (view_of client.now).cache path.now)) (HasTooMany (view_of client.now).cache path.now room)) }
{
    let Some(names) = names_if_full(client, path) else {
        return Err(NoSubtree::NotWhole);
    };
    children_of(alloc, path, names, room)
}
