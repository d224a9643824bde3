//! Whether names of several families are in a directory.

ghost use Rattle.std.specs.Prelude.{◌≡◌};
ghost use Rattle.zk_contend.specs.Namings.{is_mixed};

use crate::naming::Naming;
use std::alloc::Allocator;
use zk_conclusions::Listing;

/// Ten bytes after any ten digits: each name that ends in ten digits is before this one.
const BEYOND: &str = "::::::::::";

/// Whether a name of this listing is that of a contender of another family.
pub(crate) fn is_mixed<A: Allocator>(listing: &Listing<'_, A>, naming: Naming) -> bool
    ensures { result ≡ is_mixed naming listing.now.names.now }
{
    match listing.predecessor(&naming.others(), BEYOND) {
        Some(_) => true,
        None => false,
    }
}
