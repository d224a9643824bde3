//! The nodes that a session made where answers to its creates were lost.

ghost use Rattle.std.specs.Prelude.{◌≡◌, ◌≤ℤ◌, ◌↔◌, ◌&&◌, true, false, IsTrue, IfSome, None, bytes_eq, not};
ghost use Rattle.std.specs.List.{list_any};
ghost use Rattle.zk_turns.specs.Meaning.{Among};
ghost use Rattle.zk_nodes.specs.Path.{Name};
ghost use Rattle.zk_conclusions.specs.Numbers.{is_before};
ghost use Rattle.zk_conclusions.specs.Standings.{IsFirstAmong};
ghost use Rattle.zk_conclusions.specs.Tags.{IsLeastOf, has_tag};

use crate::firsts::has_prefix;
use crate::listing::{Listing, name_at};
use crate::numbers::is_before;
use std::alloc::Allocator;
use zk_client::JoinedTexts;

/// The nodes in a directory whose names begin with a tag that one session alone puts in front of its names. A create whose answer was
/// lost may have made one, so after it more than one may be there: the least stays, and the others are to be deleted.
#[derive(Clone, Copy)]
pub struct Tagged<'a> {
    tag: &'a str,
    least: &'a str,
}

fn is_tagged_before(tag: &str, name: &str, own: &str) -> bool
    ensures { result ≡ (has_tag tag.now name.now && is_before name.now own.now) }
{
    has_prefix(name, tag) && is_before(name, own)
}

fn has_tagged_before<A: Allocator>(names: &JoinedTexts<A>, tag: &str, own: &str) -> bool
    ensures { result ≡ list_any (λ name. has_tag tag.now name && is_before name own.now) names.now }
{
    for place in 0..names.len() {
        if is_tagged_before(tag, name_at(names, place), own) {
            return true;
        }
    }
    false
}

fn is_first_tagged<A: Allocator>(names: &JoinedTexts<A>, tag: &str, name: &str) -> bool
    ensures { IsTrue result ↔ IsFirstAmong (has_tag tag.now) names.now name.now }
{
    !has_tagged_before(names, tag, name)
}

fn is_least<A: Allocator>(names: &JoinedTexts<A>, tag: &str, name: &str) -> bool
    ensures { IsTrue result ↔ ((has_tag tag.now name.now ≡ true) × IsFirstAmong (has_tag tag.now) names.now name.now) }
{
    if !has_prefix(name, tag) {
        return false;
    }
    is_first_tagged(names, tag, name)
}

/// The least of the names that begin with the tag.
fn least_of<'a, A: Allocator>(names: &'a JoinedTexts<A>, tag: &str) -> Option<&'a str>
    ensures some { IfSome result (λ least. IsLeastOf names.now tag.now least.now) }
    ensures none { result ≡ None → (name : Name) → Among name names.now → has_tag tag.now name ≡ false }
{
    for place in 0..names.len() {
        let name = name_at(names, place);
        if is_least(names, tag, name) {
            return Some(name);
        }
    }
    None
}

impl<'a> Tagged<'a> {
    ghost use Rattle.std.specs.Prelude.{◌≡◌, ◌≤ℤ◌, ◌&&◌, false, IfSome, None, bytes_eq, not};
    ghost use Rattle.zk_turns.specs.Meaning.{Among};
    ghost use Rattle.zk_nodes.specs.Path.{Name};
    ghost use Rattle.zk_conclusions.specs.Tags.{IsLeastOf, has_tag};

    /// The names of a listing that begin with the tag, where there is one, and the listing's zxid is not below that of the answer to
    /// the last create with the tag (`least`, `after`; `none`). Where servers take the requests of a session in their order, these are
    /// then all the nodes with the tag that the session still has, then and later (`lost_creates` of [`laws`](crate::laws)). So after a
    /// lost answer: create once more with the same tag, list, keep the least, and delete the others.
    pub fn of<A: Allocator>(
        listing: &Listing<'a, A>,
        tag: &'a str,
        answered: i64,
    ) -> Option<Tagged<'a>>
        ensures least { IfSome result (λ tagged. IsLeastOf listing.now.names.now tag.now tagged.least.now) }
        ensures tag { IfSome result (λ tagged. tagged.tag.now ≡ tag.now) }
        ensures after { IfSome result (λ tagged. answered ≤ℤ listing.now.zxid) }
        ensures none { result ≡ None → answered ≤ℤ listing.now.zxid → (name : Name) → Among name listing.now.names.now
            → has_tag tag.now name ≡ false }
    {
        if listing.zxid < answered {
            return None;
        }
        let least = least_of(listing.names, tag)?;
        Some(Tagged { tag, least })
    }

    /// The name of the node that stays.
    pub fn least(&self) -> &'a str
        ensures { result.now ≡ self.now.least.now }
    {
        self.least
    }

    /// Whether the node of this name is to be deleted: its name begins with the tag and is not the least.
    pub fn is_surplus(&self, name: &str) -> bool
        ensures { result ≡ (has_tag self.now.tag.now name.now && not (bytes_eq name.now self.now.least.now)) }
    {
        has_prefix(name, self.tag) && name != self.least
    }
}
