//! Numbers of bytes, of calls, of paths.

/// The most bytes of a path's text. It is this client's own limit, since ZooKeeper sets none but that of a request: a path is
/// a small part of each, and fits a part of setWatches by itself.
pub const LONGEST_PATH: usize = 4_096;

/// The most bytes of a payload that is sent: a ZooKeeper server ends the connection at a longer one, by its `jute.maxbuffer`
/// (0xfffff where it is not set; ZooKeeper Administrator's Guide, "Unsafe Options").
pub const LONGEST_OUTGOING: usize = 1_048_575;

/// The most bytes of a payload that comes. It is this client's own limit: four times what a server takes, since a list of names
/// may be longer than any request, and a length beyond it is no answer but a broken stream.
pub const LONGEST_INCOMING: usize = 4_194_304;

/// The most bytes of a session's password. A payload that comes has at most [`LONGEST_INCOMING`] bytes, and 20 of a
/// ConnectResponse (zookeeper.jute) stand outside its password, so no response can bring more.
pub const LONGEST_PASSWORD: usize = 4_194_284;

/// The most calls that are pending at a time; parts of setWatches are not counted. It is this client's own limit, and bounds the
/// memory that questions take while their replies are awaited.
pub const MOST_PENDING: u32 = 1_024;

/// The most paths that are watched on a side. It is this client's own limit, and bounds the memory of the registry and what a
/// new connection sends first.
pub const MOST_PATHS: usize = 65_536;

/// The most that the paths of a part of setWatches weigh, in bytes: a path weighs what it takes in the request, 4 for its
/// length and its bytes. It is that of ZooKeeper's Java client (`SET_WATCHES_MAX_LENGTH`, 128 * 1024), well below
/// [`LONGEST_OUTGOING`].
pub const MOST_WEIGHT: usize = 131_072;
