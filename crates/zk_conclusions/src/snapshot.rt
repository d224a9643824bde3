//! Several answers of one moment of the history.

ghost use Rattle.std.specs.Prelude.{◌≡◌, true};
ghost use Rattle.zk_client.specs.Clients.{view_of};
ghost use Rattle.zk_conclusions.specs.Snapshots.{is_whole};

use crate::marked::{are_good, have_good_names};
use std::alloc::{Allocator, Global};
use zk_client::{Children, Client, DataAnswer, Mark, Path};

/// What a client shows of some paths, where all of it is good. So all of it is of one moment: what the history has at the client's
/// last seen zxid, which the snapshot tells. A transaction that changes several of these nodes is seen whole or not at all.
///
/// It borrows from the client and takes no memory. While it is there the client takes no step, and what is shown stays. It does not
/// say that the history has come no further: another session may have changed the nodes since, and a client that hears of that has
/// no snapshot until it has read them again.
#[derive(Drop)]
pub struct Snapshot<'a, A: Allocator + Copy = Global> {
    client: &'a Client<A>,
    nodes: &'a [Path<A>],
    parents: &'a [Path<A>],
    pub ghost whole: { is_whole (view_of client.now).cache nodes.now parents.now ≡ true },
}

impl<'a, A: Allocator + Copy> Snapshot<'a, A> {
    ghost use Rattle.std.specs.Prelude.{◌≡◌, ◌↔◌, ◌<◌, Some, IfSome, IsSome, true, length, slice_get};
    ghost use Rattle.zk_nodes.specs.Path.{Text, path_of};
    ghost use Rattle.zk_nodes.specs.History.{History, view};
    ghost use Rattle.zk_nodes.specs.declared.side.Side.TheVariants as sides;
    ghost use Rattle.zk_cache.specs.Contents.{answer_of, names_in};
    ghost use Rattle.zk_cache.specs.Kept.{good};
    ghost use Rattle.zk_laws.specs.Server.{Fits, FitsNames};
    ghost use Rattle.zk_conclusions.specs.Seen.{Is, IsServedAt, tree_seen};

    /// What the client shows of the nodes of the first paths, and of the names below the second ones: `Some` exactly where each of
    /// these answers is kept and good. So to have one, read them all with a watch, and ask again after each step.
    pub fn of(
        client: &'a Client<A>,
        nodes: &'a [Path<A>],
        parents: &'a [Path<A>],
    ) -> Option<Snapshot<'a, A>>
        ensures exact { IsSome result ↔ (is_whole (view_of client.now).cache nodes.now parents.now ≡ true) }
        ensures client { IfSome result (λ snapshot. snapshot.client.now ≡ client.now) }
        ensures nodes { IfSome result (λ snapshot. snapshot.nodes.now ≡ nodes.now) }
        ensures parents { IfSome result (λ snapshot. snapshot.parents.now ≡ parents.now) }
    {
        if are_good(client, nodes) && have_good_names(client, parents) {
            Some(Snapshot {
                client,
                nodes,
                parents,
            })
        } else {
            None
        }
    }

    /// The zxid at which the history has all that is shown: the client's last seen one. Of two snapshots of a client, the one
    /// with the greater zxid is the later.
    pub fn last_zxid(&self) -> i64
        ensures { result ≡ (view_of self.now.client.now).saved.last }
    {
        self.client.last_zxid()
    }

    /// What is kept of the node of the path at this place of the first ones (`kept`): under servers of a history, what there is to
    /// see of it there at the zxid of the snapshot (`holds`).
    pub fn data(&self, place: usize) -> &'a DataAnswer<A>
        requires { place < length self.now.nodes.now }
        ensures kept { (path : Text) → slice_get self.now.nodes.now place ≡ Some path
            → (view_of self.now.client.now).cache.nodes path ≡ good (answer_of result.now) }
        ensures holds { (h : History) (path : Text) → IsServedAt (Is path) h (view_of self.now.client.now)
            → slice_get self.now.nodes.now place ≡ Some path
            → Fits (answer_of result.now) (view sides.Data (tree_seen h (view_of self.now.client.now)) (path_of path)) }
    {
        match self.client.peek_data(&self.nodes[place]) {
            Some((answer, _)) => answer,
            None => unreachable!(),
        }
    }

    /// The names that are kept below the path at this place of the second ones, in the same way.
    pub fn names(&self, place: usize) -> &'a Children<A>
        requires { place < length self.now.parents.now }
        ensures kept { (path : Text) → slice_get self.now.parents.now place ≡ Some path
            → (view_of self.now.client.now).cache.children path ≡ good (names_in result.now) }
        ensures holds { (h : History) (path : Text) → IsServedAt (Is path) h (view_of self.now.client.now)
            → slice_get self.now.parents.now place ≡ Some path
            → FitsNames (names_in result.now) (view sides.Child (tree_seen h (view_of self.now.client.now)) (path_of path)) }
    {
        match self.client.peek_children(&self.parents[place]) {
            Some((names, _)) => names,
            None => unreachable!(),
        }
    }
}
