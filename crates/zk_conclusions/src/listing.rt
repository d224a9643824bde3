//! The names that a getChildren was answered with, and what they say of who stands before whom.

ghost use Rattle.std.specs.Prelude.{◌≡◌, ◌<◌, ◌+◌, IfSome, None, length};
ghost use Rattle.zk_conclusions.specs.Kinds.{kind_of};
ghost use Rattle.zk_conclusions.specs.Standings.{IsFirstOf};
ghost use Rattle.zk_conclusions.specs.inner.Predecessors.{Found, is_after, is_later, name_at};
ghost use Rattle.zk_conclusions.specs.Predecessors.{IsPredecessor};

use crate::before::stands_before;
use crate::numbers::{Kind, is_before};
use std::alloc::{Allocator, Global};
use zk_client::{JoinedTexts, Path};

/// The names in a directory, as a getChildren was answered with them: those of `CallResult::Names`, in any order, and the zxid of the
/// reply. It needs no watch.
pub struct Listing<'a, A: Allocator = Global> {
    pub directory: &'a Path<A>,
    pub names: &'a JoinedTexts<A>,
    pub zxid: i64,
}

pub(crate) fn name_at<A: Allocator>(names: &JoinedTexts<A>, place: usize) -> &str
    requires { place < length names.now }
    ensures { result.now ≡ name_at names.now place }
{
    names.get(place).unwrap()
}

/// Whether the name is after the last one that was found.
fn is_after<A: Allocator>(names: &JoinedTexts<A>, last: Option<usize>, name: &str) -> bool
    requires { IfSome last (λ at. at < length names.now) }
    ensures { result ≡ is_after names.now last name.now }
{
    match last {
        Some(at) => is_before(name_at(names, at), name),
        None => true,
    }
}

/// Whether the name is a rival's, before `own`, and after the last one that was found.
fn is_later<A: Allocator>(
    kind: &Kind<'_>,
    names: &JoinedTexts<A>,
    own: &str,
    last: Option<usize>,
    name: &str,
) -> bool
    requires { IfSome last (λ at. at < length names.now) }
    ensures { result ≡ is_later (kind_of kind.now) names.now own.now last name.now }
{
    stands_before(kind, name, own) && is_after(names, last, name)
}

/// What is found with one name more.
fn found_with<A: Allocator>(
    kind: &Kind<'_>,
    names: &JoinedTexts<A>,
    own: &str,
    last: Option<usize>,
    place: usize,
) -> Option<usize>
    requires place { place < length names.now }
    requires found { Found (kind_of kind.now) names.now own.now place last }
    ensures { Found (kind_of kind.now) names.now own.now (place + 1) result }
{
    if !is_later(kind, names, own, last, name_at(names, place)) {
        return last;
    }
    Some(place)
}

/// The place of the last rival before `own`.
fn last_before<A: Allocator>(kind: &Kind<'_>, names: &JoinedTexts<A>, own: &str) -> Option<usize>
    ensures within { IfSome result (λ place. place < length names.now) }
    ensures some { IfSome result (λ place. IsPredecessor (kind_of kind.now) names.now own.now (name_at names.now place)) }
    ensures none { result ≡ None → IsFirstOf (kind_of kind.now) names.now own.now }
{
    let mut last = None;
    for place in 0..names.len() {
        last = found_with(kind, names, own, last, place);
    }
    last
}

impl<'a, A: Allocator> Listing<'a, A> {
    ghost use Rattle.std.specs.Prelude.{◌≡◌, IfSome, None};
    ghost use Rattle.zk_conclusions.specs.Kinds.{kind_of};
    ghost use Rattle.zk_conclusions.specs.Standings.{IsFirstOf};
    ghost use Rattle.zk_conclusions.specs.Predecessors.{IsPredecessor};

    /// The last rival before a contender with this name, who waits for it: it watches that one node, and lists again when that is gone
    /// (`some`). There is none exactly where no rival is before it (`none`). Of who was first in between nothing is said.
    pub fn predecessor(&self, kind: &Kind<'_>, own: &str) -> Option<&'a str>
        ensures some { IfSome result (λ name. IsPredecessor (kind_of kind.now) self.now.names.now own.now name.now) }
        ensures none { result ≡ None → IsFirstOf (kind_of kind.now) self.now.names.now own.now }
    {
        let place = last_before(kind, self.names, own)?;
        Some(name_at(self.names, place))
    }
}
