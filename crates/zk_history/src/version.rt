//! The versions of a node, each with where its data stand.

// Where a change is in a history.
#[derive(Clone, Copy)]
pub(crate) enum Origin {
    // In none: the root was there before.
    Root,
    // In the creation that makes this node of the first tree.
    First(usize),
    // In this transaction, at this place.
    Later(usize, usize),
}

// A node, with the change that wrote its data in their place.
#[derive(Clone, Copy)]
pub(crate) struct Entry {
    pub(crate) origin: Origin,
    pub(crate) czxid: u64,
    pub(crate) mzxid: u64,
    pub(crate) pzxid: u64,
    pub(crate) ctime: i64,
    pub(crate) mtime: i64,
    pub(crate) version: u32,
    pub(crate) owner: i64,
}

// What one change made of a path: its node, or none, and how many children it has. It holds until the next version.
#[derive(Clone, Copy)]
pub(crate) struct Version {
    pub(crate) zxid: u64,
    pub(crate) origin: Origin,
    pub(crate) entry: Option<Entry>,
    pub(crate) children: u32,
}

// Where a change stands, with the zxid and the time of its transaction.
#[derive(Clone, Copy)]
pub(crate) struct Spot {
    pub(crate) zxid: u64,
    pub(crate) time: i64,
    pub(crate) origin: Origin,
}
