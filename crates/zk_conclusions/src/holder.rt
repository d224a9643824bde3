//! Whether the client's session holds the first place below a path.

use crate::firsts::{is_shown_first, name_with};
use crate::tokens::token_shown;
use std::alloc::{Allocator, Global};
use zk_client::{Client, Path};

/// A client that shows that its session holds: of the nodes below a directory whose names begin with a prefix, the first is this
/// session's, in the order of bytes. With the names of sequential creates that is the order in which they were made. So it is in
/// the history at the client's last seen zxid, and no other session holds there.
///
/// It borrows from the client and takes no memory. It does not say that the session still holds: it may have expired, and another
/// one may hold already, while this program was paused or its connection is lost. So hand the token to what is protected, and let
/// that refuse a token that is smaller than one it has seen: `later_tokens` of [`laws`](crate::laws) says what that needs.
#[derive(Drop)]
pub struct Holder<'a, A: Allocator + Copy = Global> {
    client: &'a Client<A>,
    token: i64,
}

impl<'a, A: Allocator + Copy> Holder<'a, A> {
    ghost use Rattle.std.specs.Prelude.{◌≡◌, ℤ, None, IfSome};
    ghost use Rattle.zk_client.specs.Clients.{view_of};
    ghost use Rattle.zk_nodes.specs.Path.{path_of};
    ghost use Rattle.zk_nodes.specs.History.{History};
    ghost use Rattle.zk_conclusions.specs.Seen.{IsEither, IsServedAt, tree_seen};
    ghost use Rattle.zk_conclusions.specs.Holders.{IsHolder, ShowsHolder};

    /// The client with the node of this path, as the first of those below the directory whose names begin with the prefix: `Some`
    /// exactly where the names below the directory and the answer about the node are kept and good, the path lies right below the
    /// directory, its name begins with the prefix and no other such name is before it, and the node's owner is the client's session
    /// (`shows`, `none`). A node that is no session's has owner 0 and is never held. Under servers of a history it is so there at
    /// the client's last seen zxid (`holds`).
    pub fn of(
        client: &'a Client<A>,
        directory: &Path<A>,
        prefix: &str,
        path: &Path<A>,
    ) -> Option<Holder<'a, A>>
        ensures shows { IfSome result (λ holder. ShowsHolder (view_of client.now) directory.now prefix.now path.now holder.token) }
        ensures holds { IfSome result (λ holder. (h : History) → IsServedAt (IsEither directory.now path.now) h (view_of client.now)
            → IsHolder (tree_seen h (view_of client.now)) (path_of directory.now) prefix.now (path_of path.now)
            (view_of client.now).saved.session.session holder.token) }
        ensures client { IfSome result (λ holder. holder.client.now ≡ client.now) }
        ensures none { result ≡ None → (token : ℤ) → ¬ (ShowsHolder (view_of client.now) directory.now prefix.now path.now token) }
    {
        let own = name_with(directory, prefix, path)?;
        if !is_shown_first(client, directory, prefix, own) {
            return None;
        }
        let token = token_shown(client, path)?;
        Some(Holder { client, token })
    }

    /// The fencing token: the zxid at which the node was made. It stays while the session holds by this node. A later holder's is
    /// not smaller, where names rise with creation; it may be the same where both nodes were made in one transaction.
    pub fn token(&self) -> i64
        ensures { result ≡ self.now.token }
    {
        self.token
    }

    /// The zxid at which the history has it so: the client's last seen one.
    pub fn last_zxid(&self) -> i64
        ensures { result ≡ (view_of self.now.client.now).saved.last }
    {
        self.client.last_zxid()
    }
}
