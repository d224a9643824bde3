//! Where the place of a contender is, and what was asked for it.

use crate::listed::Listed;
use std::alloc::Allocator;
use zk_client::Path;

/// Where the place of a contender is.
#[derive(Drop)]
pub(crate) enum Place<A: Allocator> {
    /// The node of this path, the directory or one above it, is to be made.
    Making {
        path: Path<A>,
    },
    /// The place is to be made. None is there.
    Entering,
    /// A create whose answer was lost may have made one. A create of the directory goes after it, in the session's order: the barrier.
    Unsure,
    /// The names that are there are to be listed, by a server that has seen this zxid.
    Looking {
        answered: i64,
    },
    /// Beside another one this node is there, or the contender is given up: it is to be deleted.
    Clearing {
        leaving: Path<A>,
    },
    /// It is this node, and no other. Of the names in the directory there is a listing, once one was answered.
    At {
        own: Path<A>,
        listing: Option<Listed<A>>,
    },
    /// The contender is given up. This node is to be deleted, and there is no other.
    Leaving {
        own: Path<A>,
    },
    /// The contender is given up, and no node of it is there.
    Left,
}

/// What was asked for a contender.
#[derive(Clone, Copy)]
pub(crate) enum Ask {
    /// A create of the directory or of a node above it.
    Make,
    /// A create of the place.
    Enter,
    /// The barrier.
    Fence,
    /// The names in the directory, to find the place.
    Look,
    /// A delete of a node too many.
    Clear,
    /// A read of the place, with a watch.
    ReadOwn,
    /// The names in the directory, to find who is before it.
    List,
    /// A read of one of those before it, with a watch: the one at this place of theirs.
    ReadBehind { place: usize },
    /// A delete of the place.
    Leave,
}
