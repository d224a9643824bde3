//! Whether a session is among the first in a directory, which hold at once.

ghost use Rattle.std.specs.Prelude.{◌≡◌, ℤ, true, false, IfSome, None};
ghost use Rattle.zk_client.specs.Clients.{view_of};
ghost use Rattle.zk_turns.specs.Meaning.{Among};
ghost use Rattle.zk_conclusions.specs.Kinds.{kind_of};
ghost use Rattle.zk_contend.specs.Leases.{AreBefore, IsAmongOf, StandsBy};

use crate::mixed::is_mixed;
use crate::naming::Naming;
use std::alloc::Allocator;
use zk_client::{Client, Path};
use zk_conclusions::{Kind, Listing, Standing};

/// The markers of nobody.
static NOBODY: [&str; 0] = [];

/// Whether rivals of this number are before this name, each before another one of them.
fn are_before<A: Allocator>(
    listing: &Listing<'_, A>,
    kind: &Kind<'_>,
    own: &str,
    count: u32,
) -> bool
    ensures yes { result ≡ true → AreBefore (λ name. Among name listing.now.names.now) (kind_of kind.now) own.now count }
    ensures no { result ≡ false → IsAmongOf (kind_of kind.now) count listing.now.names.now own.now }
{
    let mut last = own;
    for _turn in 0..count {
        let Some(name) = listing.predecessor(kind, last) else {
            return false;
        };
        last = name;
    }
    true
}

/// The token of the place of a contender at this path, if this listing shows that it holds: no name of another family is there, and fewer
/// than may hold at once are before it.
pub(crate) fn token_by<A: Allocator + Copy>(
    client: &Client<A>,
    listing: &Listing<'_, A>,
    naming: Naming,
    path: &Path<A>,
) -> Option<i64>
    ensures shows { IfSome result (λ token. StandsBy (view_of client.now) listing.now.directory.now naming listing.now.names.now
        listing.now.zxid path.now token) }
    ensures none { result ≡ None → (token : ℤ) → ¬ (StandsBy (view_of client.now) listing.now.directory.now naming
        listing.now.names.now listing.now.zxid path.now token) }
{
    let own = path.name()?;
    let kind = naming.kind();
    if are_before(listing, &kind, own, naming.most()) {
        return None;
    }
    if is_mixed(listing, naming) {
        return None;
    }
    let alone = Kind {
        own: kind.own,
        against: &NOBODY,
    };
    let standing = Standing::of(client, listing, &alone, path)?;
    Some(standing.token())
}
