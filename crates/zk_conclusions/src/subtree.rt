//! All nodes at and below a path, of one moment of the history.

ghost use Rattle.std.specs.Prelude.{◌≡◌, true};
ghost use Rattle.zk_client.specs.Clients.{view_of};
ghost use Rattle.zk_conclusions.specs.Walks.{all_full};

use crate::children::has_data;
use crate::no_subtree::NoSubtree;
use crate::walk::walk;
use std::alloc::{Allocator, Global};
use zk_client::{Children, Client, DataAnswer, Path};

/// What a client shows of all nodes at and below a root, where all of it is good: each node with its data and the names below it, as
/// the history has them at the client's last seen zxid, and no other node is there (`one_subtree` of [`laws`](crate::laws)).
///
/// It borrows from the client, so it is gone before the next step, and owns the list of its paths. It does not say that the history
/// has come no further.
#[derive(Drop)]
pub struct Subtree<'a, A: Allocator + Copy = Global> {
    client: &'a Client<A>,
    paths: Vec<Path<A>, A>,
    pub ghost full: { all_full (view_of client.now).cache paths.items ≡ true },
}

impl<'a, A: Allocator + Copy> Subtree<'a, A> {
    ghost use Rattle.std.specs.Prelude.{◌≡◌, ◌≤◌, ◌<◌, IfErr, IfOk, IfSome, None, Some, length, slice_get};
    ghost use Rattle.zk_client.specs.Clients.{view_of};
    ghost use Rattle.zk_nodes.specs.Path.{Text, path_of};
    ghost use Rattle.zk_nodes.specs.History.{History, view};
    ghost use Rattle.zk_nodes.specs.declared.side.Side.TheVariants as sides;
    ghost use Rattle.zk_cache.specs.Contents.{answer_of, names_in};
    ghost use Rattle.zk_cache.specs.Kept.{good};
    ghost use Rattle.zk_turns.specs.Meaning.{Among};
    ghost use Rattle.zk_laws.specs.Server.{Fits, FitsNames};
    ghost use Rattle.zk_conclusions.specs.Seen.{Is, IsServedAt, tree_seen};
    ghost use Rattle.zk_conclusions.specs.Subtrees.{AreAllBelow, HasMoreNodes, IsOneReached, IsSubtreeOf, IsWholeBelow, Says};
    ghost use Rattle.zk_conclusions.specs.Walks.{IsWalk};

    /// All nodes at and below the root, if there are at most `most`: under servers of a history, a path at or below the root is one of
    /// the subtree's exactly where the history has a node there, at the client's last seen zxid (`all`), and what is kept of it is that
    /// node (`holds`).
    ///
    /// There is a subtree exactly where each node that is reached from the root through kept names is kept with its data and its names,
    /// all of it is good, each name makes a path, and there are at most `most` nodes, unless memory runs out (`none`). So to have one,
    /// read what is [`Lacking`](crate::Lacking), with a watch, until nothing is.
    ///
    /// It costs two look-ups and one text for each node.
    pub fn of(
        client: &'a Client<A>,
        alloc: A,
        root: &Path<A>,
        most: usize,
    ) -> Result<Subtree<'a, A>, NoSubtree>
        ensures walk { IfOk result (λ subtree. IsWalk (view_of client.now).cache root.now subtree.paths.items) }
        ensures most { IfOk result (λ subtree. length subtree.paths.items ≤ most) }
        ensures client { IfOk result (λ subtree. subtree.client.now ≡ client.now) }
        ensures holds { IfOk result (λ subtree. (h : History)
            → IsServedAt (IsOneReached (view_of client.now).cache root.now) h (view_of client.now)
            → IsSubtreeOf (tree_seen h (view_of client.now)) (view_of client.now).cache root.now) }
        ensures all { IfOk result (λ subtree. (h : History)
            → IsServedAt (IsOneReached (view_of client.now).cache root.now) h (view_of client.now)
            → AreAllBelow (tree_seen h (view_of client.now)) root.now subtree.paths.items) }
        ensures none { IfErr result (λ why.
            Says why (¬ (IsWholeBelow (view_of client.now).cache root.now)) (HasMoreNodes (view_of client.now).cache root.now most)) }
    {
        let paths = walk(client, alloc, root, most)?;
        Ok(Subtree { client, paths })
    }

    /// The paths, each before those below it: the root first.
    pub fn paths(&self) -> &[Path<A>]
        ensures { result.now ≡ self.now.paths.items }
    {
        self.paths.as_slice()
    }

    /// What is kept of the node of the path at this place, with its data (`kept`): under servers of a history, what there is to see of
    /// it there at the zxid of the subtree (`holds`).
    pub fn data(&self, place: usize) -> &'a DataAnswer<A>
        requires { place < length self.now.paths.items }
        ensures kept { (path : Text) → slice_get self.now.paths.items place ≡ Some path
            → (view_of self.now.client.now).cache.nodes path ≡ good (answer_of result.now) }
        ensures holds { (h : History) (path : Text) → IsServedAt (Is path) h (view_of self.now.client.now)
            → slice_get self.now.paths.items place ≡ Some path
            → Fits (answer_of result.now) (view sides.Data (tree_seen h (view_of self.now.client.now)) (path_of path)) }
    {
        match self.client.peek_data(&self.paths[place]) {
            Some((answer, _)) => answer,
            None => unreachable!(),
        }
    }

    /// The names that are kept below the path at this place, in the same way.
    pub fn names(&self, place: usize) -> &'a Children<A>
        requires { place < length self.now.paths.items }
        ensures kept { (path : Text) → slice_get self.now.paths.items place ≡ Some path
            → (view_of self.now.client.now).cache.children path ≡ good (names_in result.now) }
        ensures holds { (h : History) (path : Text) → IsServedAt (Is path) h (view_of self.now.client.now)
            → slice_get self.now.paths.items place ≡ Some path
            → FitsNames (names_in result.now) (view sides.Child (tree_seen h (view_of self.now.client.now)) (path_of path)) }
    {
        match self.client.peek_children(&self.paths[place]) {
            Some((names, _)) => names,
            None => unreachable!(),
        }
    }

    /// What is kept of the node of a path, where it is kept with its data, and good (`kept`): under servers of a history, what there is
    /// to see of it there at the zxid of the subtree (`holds`). Where there is nothing, the path is none of the subtree's (`none`): so
    /// no node is there, if it is a path at or below the root (`all` of [`of`](Subtree::of)). It goes over no list.
    pub fn get(&self, path: &Path<A>) -> Option<&'a DataAnswer<A>>
        ensures kept { IfSome result (λ answer. (view_of self.now.client.now).cache.nodes path.now ≡ good (answer_of answer.now)) }
        ensures holds { (h : History) → IsServedAt (Is path.now) h (view_of self.now.client.now) → IfSome result
            (λ answer. Fits (answer_of answer.now) (view sides.Data (tree_seen h (view_of self.now.client.now)) (path_of path.now))) }
        ensures none { result ≡ None → ¬ (Among path.now self.now.paths.items) }
    {
        if !has_data(self.client, path) {
            return None;
        }
        match self.client.peek_data(path) {
            Some((answer, _)) => Some(answer),
            None => None,
        }
    }

    /// The zxid at which the history has all of it: the client's last seen one.
    pub fn last_zxid(&self) -> i64
        ensures { result ≡ (view_of self.now.client.now).saved.last }
    {
        self.client.last_zxid()
    }
}
