//! Which place a listing finds, where a create may have made one.

ghost use Rattle.std.specs.Prelude.{◌≡◌, ◌<◌, [], false, length, slice_index_or, IfOk, IfSome, None};
ghost use Rattle.std.specs.List.{list_any};
ghost use Rattle.zk_client.specs.Views.{outcome_view};
ghost use Rattle.zk_contend.specs.Settling.{IsFound, IsLooked, IsSettled, is_surplus};
ghost use Rattle.zk_contend.specs.inner.Abouts.{IsSurplusOf};

use crate::listed::path_in;
use crate::made::entering;
use crate::place::Place;
use std::alloc::{AllocError, Allocator};
use zk_client::{CallResult, JoinedTexts, Outcome, Path};
use zk_conclusions::{Listing, Tagged};

fn name_at<A: Allocator>(names: &JoinedTexts<A>, place: usize) -> &str
    requires { place < length names.now }
    ensures { result.now ≡ slice_index_or names.now place [] }
{
    names.get(place).unwrap()
}

/// The node to be deleted, of those whose names have the tag: the least if the contender is given up, and else the first of the others.
fn surplus_of<'a, A: Allocator>(
    tagged: &Tagged<'a>,
    names: &'a JoinedTexts<A>,
    is_given_up: bool,
) -> Option<&'a str>
    ensures some { IfSome result (λ name. IsSurplusOf names.now tagged.now.tag.now tagged.now.least.now is_given_up name.now) }
    ensures none { result ≡ None → (is_given_up ≡ false)
        × (list_any (is_surplus tagged.now.tag.now tagged.now.least.now) names.now ≡ false) }
{
    if is_given_up {
        return Some(tagged.least());
    }
    for place in 0..names.len() {
        let name = name_at(names, place);
        if tagged.is_surplus(name) {
            return Some(name);
        }
    }
    None
}

/// The place by the names with the tag: a node is to be deleted, or the place is the least, and no other.
fn found_in<A: Allocator + Copy>(
    alloc: A,
    directory: &Path<A>,
    names: &JoinedTexts<A>,
    tagged: &Tagged<'_>,
    is_given_up: bool,
) -> Result<Option<Place<A>>, AllocError>
    ensures { IfOk result (λ place. IsFound directory.now names.now tagged.now.tag.now tagged.now.least.now is_given_up place) }
{
    if let Some(name) = surplus_of(tagged, names, is_given_up) {
        return match path_in(alloc, directory, name)? {
            Some(leaving) => Ok(Some(Place::Clearing { leaving })),
            None => Ok(None),
        };
    }
    match path_in(alloc, directory, tagged.least())? {
        Some(own) => Ok(Some(Place::At { own, listing: None })),
        None => Ok(None),
    }
}

/// The place by a listing; none if it is older than the last create.
fn settled<A: Allocator + Copy>(
    alloc: A,
    directory: &Path<A>,
    front: &str,
    is_given_up: bool,
    answered: i64,
    names: &JoinedTexts<A>,
    zxid: i64,
) -> Result<Option<Place<A>>, AllocError>
    ensures { IfOk result (λ place. IsSettled directory.now front.now is_given_up answered names.now zxid place) }
{
    if zxid < answered {
        return Ok(None);
    }
    let listing = Listing {
        directory,
        names,
        zxid,
    };
    let tagged = Tagged::of(&listing, front, answered);
    let Listing {
        directory: _directory,
        names: _names,
        zxid: _zxid,
    } = listing;
    match tagged {
        Some(tagged) => found_in(alloc, directory, names, &tagged, is_given_up),
        None => Ok(Some(entering(is_given_up))),
    }
}

/// The place after a listing, where a create may have made one; none if it stays as it was.
pub(crate) fn looked<A: Allocator + Copy>(
    alloc: A,
    directory: &Path<A>,
    front: &str,
    is_given_up: bool,
    answered: i64,
    outcome: &Outcome<A>,
) -> Result<Option<Place<A>>, AllocError>
    ensures { IfOk result (λ place. IsLooked directory.now front.now is_given_up answered (outcome_view outcome.now) place) }
{
    match outcome {
        Outcome::Replied {
            zxid,
            result: CallResult::Names { names, stat: _ },
        } => settled(alloc, directory, front, is_given_up, answered, names, *zxid),
        Outcome::Replied {
            result: CallResult::Code(code),
            ..
        } if code.is_no_node() => Ok(Some(entering(is_given_up))),
        _ => Ok(None),
    }
}
