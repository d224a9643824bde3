//! Whether what is kept of paths is good.

ghost use Rattle.std.specs.Prelude.{◌≡◌};
ghost use Rattle.zk_cache.specs.Kept.{is_marked_good};
ghost use Rattle.zk_client.specs.Clients.{view_of};
ghost use Rattle.zk_conclusions.specs.Snapshots.{all_good};

use std::alloc::Allocator;
use zk_client::{Client, Mark, Path};

fn is_good<A: Allocator + Copy>(client: &Client<A>, path: &Path<A>) -> bool
    ensures { result ≡ is_marked_good ((view_of client.now).cache.nodes path.now) }
{
    matches!(client.peek_data(path), Some((_, Mark::Good)))
}

pub(crate) fn has_good_names<A: Allocator + Copy>(client: &Client<A>, path: &Path<A>) -> bool
    ensures { result ≡ is_marked_good ((view_of client.now).cache.children path.now) }
{
    matches!(client.peek_children(path), Some((_, Mark::Good)))
}

/// Whether an answer about the node of each path is kept and good.
pub(crate) fn are_good<A: Allocator + Copy>(client: &Client<A>, paths: &[Path<A>]) -> bool
    ensures { result ≡ all_good (view_of client.now).cache.nodes paths.now }
{
    for path in paths {
        if !is_good(client, path) {
            return false;
        }
    }
    true
}

/// Whether the names below each path are kept and good.
pub(crate) fn have_good_names<A: Allocator + Copy>(client: &Client<A>, paths: &[Path<A>]) -> bool
    ensures { result ≡ all_good (view_of client.now).cache.children paths.now }
{
    for path in paths {
        if !has_good_names(client, path) {
            return false;
        }
    }
    true
}
