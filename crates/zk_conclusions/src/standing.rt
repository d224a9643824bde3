//! Whether the client's session stands first in a directory.

ghost use Rattle.std.specs.Prelude.{◌≤ℤ◌, ◌↔◌, IsTrue};

use crate::before::is_first;
use crate::below::name_below;
use crate::listing::Listing;
use crate::numbers::{Kind, is_numbered};
use crate::tokens::token_shown;
use std::alloc::{Allocator, Global};
use zk_client::{Client, Path};

/// Whether the zxid is neither below the low one nor above the high one.
fn is_between(low: i64, zxid: i64, high: i64) -> bool
    ensures { IsTrue result ↔ ((low ≤ℤ zxid) × (zxid ≤ℤ high)) }
{
    low <= zxid && zxid <= high
}

/// A client that shows that its session stands first: of the nodes in a directory whose names end in a number after the marker of a
/// rival, none is before the session's own. One listing of the directory, without a watch, and a good answer about its node are
/// enough, where numbers rise with creation. So it is in the history at the client's last seen zxid, and it stays so for as long as
/// the answer about its node is good.
///
/// It borrows from the client and takes no memory. It does not say that the session still stands so: hand the token to what is
/// protected, and let that refuse a token that is smaller than one it has seen.
#[derive(Drop)]
pub struct Standing<'a, A: Allocator + Copy = Global> {
    client: &'a Client<A>,
    token: i64,
}

impl<'a, A: Allocator + Copy> Standing<'a, A> {
    ghost use Rattle.std.specs.Prelude.{◌≡◌, ℤ, None, IfSome};
    ghost use Rattle.zk_client.specs.Clients.{view_of};
    ghost use Rattle.zk_nodes.specs.Path.{path_of};
    ghost use Rattle.zk_nodes.specs.History.{History, tree_at};
    ghost use Rattle.zk_laws.specs.Messages.{from_zero};
    ghost use Rattle.zk_conclusions.specs.Seen.{Is, IsServedAt, tree_seen};
    ghost use Rattle.zk_conclusions.specs.Kinds.{kind_of};
    ghost use Rattle.zk_conclusions.specs.Standings.{IsStanding, ListsAll, NumbersRise, ShowsStanding};

    /// The client with the node of this path, as the first of its kind by this listing: `Some` exactly where the answer about the node
    /// is kept and good, and the node's owner is the client's session; the path lies right below the directory, and its name ends in a
    /// number after the marker `own`; no listed name of a rival is before it; and the zxid of the listing is neither below the node's
    /// czxid nor above the last seen one (`shows`, `none`). Under servers of a history it stands so there at the client's last seen
    /// zxid, where numbers rise with creation and the listing was true (`holds`), as one that a server answered is (`listing_is_true`
    /// of [`laws`](crate::laws)).
    ///
    /// So a program creates its node, reads it with a watch, lists the directory without one, and asks. Where there is none, it waits
    /// for its [`predecessor`](Listing::predecessor).
    pub fn of(
        client: &'a Client<A>,
        listing: &Listing<'_, A>,
        kind: &Kind<'_>,
        path: &Path<A>,
    ) -> Option<Standing<'a, A>>
        ensures shows { IfSome result (λ standing. ShowsStanding (view_of client.now) listing.now.directory.now (kind_of kind.now)
            listing.now.names.now listing.now.zxid path.now standing.token) }
        ensures holds { IfSome result (λ standing. (h : History) → IsServedAt (Is path.now) h (view_of client.now)
            → NumbersRise h (path_of listing.now.directory.now) (kind_of kind.now)
            → ListsAll (tree_at h (from_zero listing.now.zxid)) (path_of listing.now.directory.now) listing.now.names.now
            → IsStanding (tree_seen h (view_of client.now)) (path_of listing.now.directory.now) (kind_of kind.now) (path_of path.now)
            (view_of client.now).saved.session.session standing.token) }
        ensures client { IfSome result (λ standing. standing.client.now ≡ client.now) }
        ensures none { result ≡ None → (token : ℤ) → ¬ (ShowsStanding (view_of client.now) listing.now.directory.now (kind_of kind.now)
            listing.now.names.now listing.now.zxid path.now token) }
    {
        let own = name_below(listing.directory, path)?;
        if !is_numbered(own, kind.own) {
            return None;
        }
        if !is_first(kind, listing.names, own) {
            return None;
        }
        let token = token_shown(client, path)?;
        if !is_between(token, listing.zxid, client.last_zxid()) {
            return None;
        }
        Some(Standing { client, token })
    }

    /// The fencing token: the zxid at which the node was made.
    pub fn token(&self) -> i64
        ensures { result ≡ self.now.token }
    {
        self.token
    }

    /// The zxid at which the history has it so: the client's last seen one.
    pub fn last_zxid(&self) -> i64
        ensures { result ≡ (view_of self.now.client.now).saved.last }
    {
        self.client.last_zxid()
    }
}
