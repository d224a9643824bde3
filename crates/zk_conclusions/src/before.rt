//! Whether a name is the first of a listing, by numbers.

ghost use Rattle.std.specs.Prelude.{◌≡◌, ◌↔◌, ◌&&◌, IsTrue};
ghost use Rattle.std.specs.List.{list_any};
ghost use Rattle.zk_conclusions.specs.Numbers.{is_before, is_rival};
ghost use Rattle.zk_conclusions.specs.Kinds.{kind_of};
ghost use Rattle.zk_conclusions.specs.Standings.{IsFirstOf};

use crate::listing::name_at;
use crate::numbers::{Kind, is_before, is_rival};
use std::alloc::Allocator;
use zk_client::JoinedTexts;

/// Whether the name is a rival's and before `own`.
pub(crate) fn stands_before(kind: &Kind<'_>, name: &str, own: &str) -> bool
    ensures { result ≡ (is_rival (kind_of kind.now) name.now && is_before name.now own.now) }
{
    is_rival(kind, name) && is_before(name, own)
}

fn has_before<A: Allocator>(kind: &Kind<'_>, names: &JoinedTexts<A>, own: &str) -> bool
    ensures { result ≡ list_any (λ name. is_rival (kind_of kind.now) name && is_before name own.now) names.now }
{
    for place in 0..names.len() {
        if stands_before(kind, name_at(names, place), own) {
            return true;
        }
    }
    false
}

/// Whether none of the names is a rival's that is before `own`.
pub(crate) fn is_first<A: Allocator>(kind: &Kind<'_>, names: &JoinedTexts<A>, own: &str) -> bool
    ensures { IsTrue result ↔ IsFirstOf (kind_of kind.now) names.now own.now }
{
    !has_before(kind, names, own)
}
