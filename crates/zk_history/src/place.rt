//! Where a path lies, beside the text of another.

ghost use Rattle.std.specs.Prelude.{◌≡◌};
ghost use Rattle.zk_nodes.specs.Path.{path_eq, path_of};
ghost use Rattle.zk_nodes.specs.inner.Path.{is_below};
ghost use Rattle.zk_nodes.specs.PathFault.{IsPath};

use std::alloc::Allocator;
use zk_nodes::Path;

// Whether the path is that of a text.
pub(crate) fn is_at<A: Allocator>(path: &Path<A>, text: &str) -> bool
    requires { IsPath text.now }
    ensures { result ≡ path_eq (path_of text.now) (path_of path.now) }
{
    path.as_str() == text
}

// Whether the path lies right below that of a text.
pub(crate) fn is_right_below<A: Allocator>(path: &Path<A>, text: &str) -> bool
    requires { IsPath text.now }
    ensures { result ≡ is_below (path_of text.now) (path_of path.now) }
{
    match path.parent() {
        Some(parent) => parent == text,
        None => false,
    }
}
