//! Whether a name is the first of those below a path.

ghost use Rattle.std.specs.Prelude.{◌≡◌, ◌↔◌, ◌∷◌, nat_eq, IsTrue, IfSome, None};
ghost use Rattle.std.specs.List.{list_any, starts_with};
ghost use Rattle.zk_cache.specs.Contents.{names_in};
ghost use Rattle.zk_client.specs.Clients.{view_of};
ghost use Rattle.zk_nodes.specs.Path.{Name, path_of};
ghost use Rattle.zk_conclusions.specs.Holders.{is_before, HasPrefix, IsFirstOf};
ghost use Rattle.zk_conclusions.specs.inner.Holders.{is_rival, IsShownFirst};

use crate::below::name_below;
use std::alloc::Allocator;
use zk_client::{Children, Client, Mark, Path, SortedNames};

pub(crate) fn has_prefix(name: &str, prefix: &str) -> bool
    ensures test { result ≡ starts_with nat_eq name.now prefix.now }
    ensures rest { IsTrue result ↔ HasPrefix prefix.now name.now }
{
    name.starts_with(prefix)
}

fn is_before(one: &str, other: &str) -> bool
    ensures { result ≡ is_before one.now other.now }
{
    one < other
}

/// Whether the name begins with the prefix and is before `own`.
fn is_rival(name: &str, prefix: &str, own: &str) -> bool
    ensures { result ≡ is_rival prefix.now own.now name.now }
{
    has_prefix(name, prefix) && is_before(name, own)
}

fn has_rival<A: Allocator>(names: &SortedNames<A>, prefix: &str, own: &str) -> bool
    ensures { result ≡ list_any (is_rival prefix.now own.now) names.now }
{
    for at in 0..names.len() {
        let Some(name) = names.get(at) else {
            return false;
        };
        if is_rival(name, prefix, own) {
            return true;
        }
    }
    false
}

fn is_first<A: Allocator>(names: &Children<A>, prefix: &str, own: &str) -> bool
    ensures { IsTrue result ↔ IsFirstOf (names_in names.now).names prefix.now own.now }
{
    !has_rival(&names.names, prefix, own)
}

/// Whether the names below the directory are kept and good, and none of them that begins with the prefix is before `own`.
pub(crate) fn is_shown_first<A: Allocator + Copy>(
    client: &Client<A>,
    directory: &Path<A>,
    prefix: &str,
    own: &str,
) -> bool
    ensures { IsTrue result ↔ IsShownFirst (view_of client.now) directory.now prefix.now own.now }
{
    match client.peek_children(directory) {
        Some((names, Mark::Good)) => is_first(names, prefix, own),
        _ => false,
    }
}

/// The last name of the path, where it lies right below the directory and begins with the prefix.
pub(crate) fn name_with<'a, A: Allocator>(
    directory: &Path<A>,
    prefix: &str,
    path: &'a Path<A>,
) -> Option<&'a str>
    ensures some { IfSome result (λ name. (path_of path.now ≡ name.now ∷ path_of directory.now) × HasPrefix prefix.now name.now) }
    ensures none { result ≡ None → (name : Name) → path_of path.now ≡ name ∷ path_of directory.now → ¬ (HasPrefix prefix.now name) }
{
    let name = name_below(directory, path)?;
    if !has_prefix(name, prefix) {
        return None;
    }
    Some(name)
}
