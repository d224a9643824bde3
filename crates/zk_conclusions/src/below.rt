//! The name of a path right below a directory.

ghost use Rattle.std.specs.Prelude.{◌≡◌, ◌∷◌, IfSome, None};
ghost use Rattle.zk_nodes.specs.Path.{Name, path_of};
ghost use Rattle.zk_nodes.specs.inner.Path.{is_below};

use std::alloc::Allocator;
use zk_client::Path;

fn is_below<A: Allocator>(directory: &Path<A>, path: &Path<A>) -> bool
    ensures { result ≡ is_below (path_of directory.now) (path_of path.now) }
{
    let directory = directory.as_str();
    match path.parent() {
        Some(parent) => parent == directory,
        None => false,
    }
}

/// The last name of the path, where it lies right below the directory.
pub(crate) fn name_below<'a, A: Allocator>(
    directory: &Path<A>,
    path: &'a Path<A>,
) -> Option<&'a str>
    ensures some { IfSome result (λ name. path_of path.now ≡ name.now ∷ path_of directory.now) }
    ensures none { result ≡ None → (name : Name) → ¬ (path_of path.now ≡ name ∷ path_of directory.now) }
{
    let name = path.name()?;
    if !is_below(directory, path) {
        return None;
    }
    Some(name)
}
