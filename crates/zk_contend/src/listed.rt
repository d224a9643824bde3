//! A listing of the directory that is kept.

ghost use Rattle.std.specs.Prelude.{◌≡◌, IfOk};
ghost use Rattle.zk_conclusions.specs.Kinds.{kind_of};
ghost use Rattle.zk_contend.specs.Namings.{is_mixed, kind_in, most_in};
ghost use Rattle.zk_contend.specs.Places.{IsBehindName, IsBehindWhere, path_in};

use crate::mixed::is_mixed;
use crate::naming::Naming;
use std::alloc::{AllocError, Allocator};
use zk_client::{JoinedTexts, Path, PathFault};
use zk_conclusions::{Kind, Listing};

/// The names in the directory, the zxid of the reply that had them, and the paths of those for which the place waits: the last rivals
/// before it, as many as may hold at once, and none if fewer are before it, or if a name is another family's.
#[derive(Drop)]
pub(crate) struct Listed<A: Allocator> {
    pub(crate) names: JoinedTexts<A>,
    pub(crate) zxid: i64,
    pub(crate) behind: Vec<Path<A>, A>,
}

/// The path of a name in the directory; none if the name makes no path.
pub(crate) fn path_in<A: Allocator + Copy>(
    alloc: A,
    directory: &Path<A>,
    name: &str,
) -> Result<Option<Path<A>>, AllocError>
    ensures { IfOk result (λ path. path ≡ path_in directory.now name.now) }
{
    match directory.join(alloc, name) {
        Ok(path) => Ok(Some(path)),
        Err(PathFault::Memory) => Err(AllocError),
        Err(_) => Ok(None),
    }
}

/// The paths of the last `most` rivals before this name; none if there are fewer.
fn behind_of<A: Allocator + Copy>(
    alloc: A,
    listing: &Listing<'_, A>,
    kind: &Kind<'_>,
    most: u32,
    own: &str,
) -> Result<Vec<Path<A>, A>, AllocError>
    ensures { IfOk result (λ behind. IsBehindName listing.now.directory.now (kind_of kind.now) most listing.now.names.now own.now
        behind.items) }
{
    let mut behind = Vec::new(alloc);
    let mut last = own;
    for _turn in 0..most {
        let Some(name) = listing.predecessor(kind, last) else {
            return Ok(Vec::new(alloc));
        };
        match path_in(alloc, listing.directory, name)? {
            Some(path) => behind.push(path)?,
            None => return Ok(Vec::new(alloc)),
        }
        last = name;
    }
    Ok(behind)
}

/// The paths of those for which the place waits: nobody beside a name of another family.
fn waited_for<A: Allocator + Copy>(
    alloc: A,
    listing: &Listing<'_, A>,
    naming: Naming,
    own: &Path<A>,
) -> Result<Vec<Path<A>, A>, AllocError>
    ensures { IfOk result (λ behind. IsBehindWhere (is_mixed naming listing.now.names.now) listing.now.directory.now
        (kind_in naming) (most_in naming) listing.now.names.now own.now behind.items) }
{
    let Some(name) = own.name() else {
        return Ok(Vec::new(alloc));
    };
    if is_mixed(listing, naming) {
        return Ok(Vec::new(alloc));
    }
    behind_of(alloc, listing, &naming.kind(), naming.most(), name)
}

/// The listing with these names.
pub(crate) fn listed_of<A: Allocator + Copy>(
    alloc: A,
    directory: &Path<A>,
    naming: Naming,
    own: &Path<A>,
    names: JoinedTexts<A>,
    zxid: i64,
) -> Result<Listed<A>, AllocError>
    ensures names { IfOk result (λ listed. listed.names ≡ names) }
    ensures zxid { IfOk result (λ listed. listed.zxid ≡ zxid) }
    ensures behind { IfOk result (λ listed. IsBehindWhere (is_mixed naming names) directory.now (kind_in naming) (most_in naming) names
        own.now listed.behind.items) }
{
    let listing = Listing {
        directory,
        names: &names,
        zxid,
    };
    let behind = waited_for(alloc, &listing, naming, own);
    let Listing {
        directory: _directory,
        names: _names,
        zxid: _zxid,
    } = listing;
    let behind = behind?;
    Ok(Listed {
        names,
        zxid,
        behind,
    })
}
