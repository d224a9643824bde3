//! What is still to be read before there is a subtree.

ghost use Rattle.std.specs.Prelude.{◌≡◌, ◌≤◌, ◌≢◌, [], true, false, IfErr, IfOk, IfSome, None, OnOk, length};
ghost use Rattle.std.specs.List.{filter};
ghost use Rattle.zk_cache.specs.Contents.{names_in};
ghost use Rattle.zk_cache.specs.Kept.{good, is_marked_good};
ghost use Rattle.zk_client.specs.Clients.{view_of};
ghost use Rattle.zk_conclusions.specs.Subtrees.{HasMoreNodes, Says};
ghost use Rattle.zk_conclusions.specs.inner.Walks.{HasTooMany};
ghost use Rattle.zk_conclusions.specs.Lacks.{AreShown, HasFaultAt, HasNoPath, lacks_data, lacks_names};
ghost use Rattle.zk_conclusions.specs.inner.Lacks.{FindsChildren};

use crate::children::{children_of, has_data};
use crate::marked::has_good_names;
use crate::no_subtree::NoSubtree;
use crate::walk::copy_of;
use std::alloc::{Allocator, Global};
use zk_client::{Children, Client, Mark, Path};

/// The reads that are lacking before there is a subtree: a getData of each of the first paths, and a getChildren of each of the second
/// ones, all with a watch. They can be asked all at once; what lies below the second ones comes once their names are good.
#[derive(Drop)]
pub struct Lacking<A: Allocator + Copy = Global> {
    pub data: Vec<Path<A>, A>,
    pub names: Vec<Path<A>, A>,
}

/// The names below the node, where they are kept and good.
fn good_names<'a, A: Allocator + Copy>(
    client: &'a Client<A>,
    path: &Path<A>,
) -> Option<&'a Children<A>>
    ensures some { IfSome result (λ names. (view_of client.now).cache.children path.now ≡ good (names_in names.now)) }
    ensures none { result ≡ None → is_marked_good ((view_of client.now).cache.children path.now) ≡ false }
{
    match client.peek_children(path) {
        Some((names, Mark::Good)) => Some(names),
        _ => None,
    }
}

/// The paths of the children, where the names below the node are good.
fn shown_children<A: Allocator + Copy>(
    client: &Client<A>,
    alloc: A,
    path: &Path<A>,
    room: usize,
) -> Result<Vec<Path<A>, A>, NoSubtree>
    ensures found { IfOk result (λ children. FindsChildren (view_of client.now).cache path.now children.items) }
    ensures fits { IfOk result (λ children. length children.items ≤ room) }
    ensures refused { IfErr result
        (λ why. Says why (HasFaultAt (view_of client.now).cache path.now) (HasTooMany (view_of client.now).cache path.now room)) }
{
    let Some(names) = good_names(client, path) else {
        return Ok(Vec::new(alloc));
    };
    children_of(alloc, path, names, room)
}

/// The paths that good names lead to from the root on, each before those below it.
fn shown_paths<A: Allocator + Copy>(
    client: &Client<A>,
    alloc: A,
    root: &Path<A>,
    most: usize,
) -> Result<Vec<Path<A>, A>, NoSubtree>
    ensures shown { IfOk result (λ paths. AreShown (view_of client.now).cache root.now paths.items) }
    ensures most { IfOk result (λ paths. length paths.items ≤ most) }
    ensures refused { IfErr result
        (λ why. Says why (HasNoPath (view_of client.now).cache root.now) (HasMoreNodes (view_of client.now).cache root.now most)) }
{
    if most == 0 {
        return Err(NoSubtree::TooMany);
    }
    let mut paths = Vec::new(alloc);
    paths.push(copy_of(alloc, root)?)?;
    for place in 0..most {
        if place >= paths.len() {
            return Ok(paths);
        }
        let mut children = shown_children(client, alloc, &paths[place], most - paths.len())?;
        paths.append(&mut children)?;
    }
    Ok(paths)
}

/// Those of the paths whose data are not kept and good.
fn without_data<A: Allocator + Copy>(
    client: &Client<A>,
    alloc: A,
    paths: &[Path<A>],
) -> Result<Vec<Path<A>, A>, NoSubtree>
    ensures some { IfOk result (λ lacking. lacking.items ≡ filter (lacks_data (view_of client.now).cache) paths.now) }
    ensures refused { IfErr result (λ why. Says why ⊥ ⊥) }
{
    let mut lacking = Vec::new(alloc);
    for path in paths {
        if !has_data(client, path) {
            lacking.push(copy_of(alloc, path)?)?;
        }
    }
    Ok(lacking)
}

/// Those of the paths below which the names are not kept and good.
fn without_names<A: Allocator + Copy>(
    client: &Client<A>,
    alloc: A,
    paths: &[Path<A>],
) -> Result<Vec<Path<A>, A>, NoSubtree>
    ensures some { IfOk result (λ lacking. lacking.items ≡ filter (lacks_names (view_of client.now).cache) paths.now) }
    ensures refused { IfErr result (λ why. Says why ⊥ ⊥) }
{
    let mut lacking = Vec::new(alloc);
    for path in paths {
        if !has_good_names(client, path) {
            lacking.push(copy_of(alloc, path)?)?;
        }
    }
    Ok(lacking)
}

impl<A: Allocator + Copy> Lacking<A> {
    ghost use Rattle.std.specs.Prelude.{◌≡◌, ◌↔◌, [], IsTrue, IfErr, IfOk};
    ghost use Rattle.zk_client.specs.Clients.{view_of};
    ghost use Rattle.zk_conclusions.specs.Subtrees.{HasMoreNodes, Says};
    ghost use Rattle.zk_conclusions.specs.Lacks.{AreLacking, HasNoMoreNodes, HasNoPath, HasWalk, lacks_data, lacks_names};

    /// What is lacking at and below the root, of at most `most` nodes: of all paths that good names lead to, those whose data are not
    /// kept and good (`data`), and those below which the names are not (`names`). Nothing is lacking exactly where there is a subtree
    /// (`empty`). No more nodes than `most` are reached then (`fits`).
    ///
    /// `TooMany` is told where more are; `NotWhole` where a good name makes no path, so that no read makes the
    /// subtree whole (`none`). Of a root without a node the data are lacking, and stay so: see its own answer.
    pub fn of(
        client: &Client<A>,
        alloc: A,
        root: &Path<A>,
        most: usize,
    ) -> Result<Lacking<A>, NoSubtree>
        ensures data { IfOk result
            (λ lacking. AreLacking (view_of client.now).cache root.now (lacks_data (view_of client.now).cache) lacking.data.items) }
        ensures names { IfOk result
            (λ lacking. AreLacking (view_of client.now).cache root.now (lacks_names (view_of client.now).cache) lacking.names.items) }
        ensures empty { IfOk result
            (λ lacking. ((lacking.data.items ≡ []) × (lacking.names.items ≡ [])) ↔ HasWalk (view_of client.now).cache root.now most) }
        ensures fits { IfOk result (λ lacking. HasNoMoreNodes (view_of client.now).cache root.now most) }
        ensures none { IfErr result
            (λ why. Says why (HasNoPath (view_of client.now).cache root.now) (HasMoreNodes (view_of client.now).cache root.now most)) }
    {
        let paths = shown_paths(client, alloc, root, most)?;
        let data = without_data(client, alloc, paths.as_slice())?;
        let names = without_names(client, alloc, paths.as_slice())?;
        Ok(Lacking { data, names })
    }

    /// Whether nothing is lacking.
    pub fn is_empty(&self) -> bool
        ensures { IsTrue result ↔ ((self.now.data.items ≡ []) × (self.now.names.items ≡ [])) }
    {
        self.data.is_empty() && self.names.is_empty()
    }
}
