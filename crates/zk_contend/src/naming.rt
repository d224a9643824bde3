//! How the places of contenders are named.

ghost use Rattle.std.specs.Prelude.{◌≡◌, ◌++◌, string_bytes, IfOk};
ghost use Rattle.zk_conclusions.specs.Kinds.{kind_of};
ghost use Rattle.zk_contend.specs.Namings.{behind_guid, before_guid, kind_in, mixed_kind, most_in, own_in};

use std::alloc::{AllocError, Allocator};
use zk_conclusions::Kind;

/// How the place of a contender is named, for which others it waits, and how many hold at once. A name has a prefix, the guid, a marker and
/// ten digits.
///
/// | | Name | Waits for |
/// |---|---|---|
/// | `Kazoo` | guid, `__lock__` | locks, writers and readers of kazoo |
/// | `KazooReader` | guid, `__rlock__` | locks and writers of kazoo |
/// | `CuratorLock` | `_c_`, guid, `-lock-` | locks, writers and readers of Curator |
/// | `CuratorLatch` | `_c_`, guid, `-latch-` | latches |
/// | `CuratorWriter` | `_c_`, guid, `-__WRIT__` | as `CuratorLock` |
/// | `CuratorReader` | `_c_`, guid, `-__READ__` | locks and writers of Curator |
/// | `Lease` | guid, `__lease__` | leases, until fewer than `most` are before it |
///
/// All contenders of one lock use names of one family: of kazoo, of Curator's locks, of its latches. A name of another family in the
/// directory is [`Obstacle::MixedNames`](crate::Obstacle::MixedNames), since its contender does not see this one, and both would hold.
/// Semaphores of kazoo and of Curator count their leases within a lock: no `Lease` goes into a directory of theirs.
#[derive(Clone, Copy)]
pub enum Naming {
    /// Of kazoo: a lock, an election, a writer.
    Kazoo,
    /// Of kazoo: a reader.
    KazooReader,
    CuratorLock,
    CuratorLatch,
    CuratorWriter,
    CuratorReader,
    /// One of several that hold at once. All of one directory say the same number, and of 0 none ever holds.
    Lease { most: u32 },
}

/// The markers of kazoo, and of its locks and writers alone.
static KAZOO: [&str; 2] = ["__lock__", "__rlock__"];

static KAZOO_WRITERS: [&str; 1] = ["__lock__"];

/// The same of Curator's locks.
static CURATOR: [&str; 3] = ["lock-", "__WRIT__", "__READ__"];

static CURATOR_WRITERS: [&str; 2] = ["lock-", "__WRIT__"];

/// The marker of latches.
static LATCHES: [&str; 1] = ["latch-"];

/// The marker of leases.
static LEASES: [&str; 1] = ["__lease__"];

/// What is before the digits in names of other families than kazoo's: a marker, or one with the minus of a number below 0.
static BESIDE_KAZOO: [&str; 8] = [
    "lock-",
    "__WRIT__",
    "__READ__",
    "latch-",
    "lock--",
    "__WRIT__-",
    "__READ__-",
    "latch--",
];

/// The same of other families than Curator's locks.
static BESIDE_CURATOR: [&str; 6] = [
    "__lock__",
    "__rlock__",
    "latch-",
    "__lock__-",
    "__rlock__-",
    "latch--",
];

/// The same of other families than latches.
static BESIDE_LATCHES: [&str; 10] = [
    "__lock__",
    "__rlock__",
    "lock-",
    "__WRIT__",
    "__READ__",
    "__lock__-",
    "__rlock__-",
    "lock--",
    "__WRIT__-",
    "__READ__-",
];

/// A lease knows of no other family.
static BESIDE_LEASES: [&str; 0] = [];

impl Naming {
    fn own(self) -> &'static str
        ensures { result.now ≡ own_in self }
    {
        match self {
            Naming::Kazoo => "__lock__",
            Naming::KazooReader => "__rlock__",
            Naming::CuratorLock => "lock-",
            Naming::CuratorLatch => "latch-",
            Naming::CuratorWriter => "__WRIT__",
            Naming::CuratorReader => "__READ__",
            Naming::Lease { .. } => "__lease__",
        }
    }

    /// The marker of its own name, and those of the names for which it waits.
    pub fn kind(self) -> Kind<'static>
        ensures { kind_of result ≡ kind_in self }
    {
        let own = self.own();
        let against: &'static [&'static str] = match self {
            Naming::Kazoo => &KAZOO,
            Naming::KazooReader => &KAZOO_WRITERS,
            Naming::CuratorLatch => &LATCHES,
            Naming::CuratorReader => &CURATOR_WRITERS,
            Naming::Lease { .. } => &LEASES,
            _ => &CURATOR,
        };
        Kind { own, against }
    }

    /// The marker of its own name, and what is before the digits in names of other families.
    pub(crate) fn others(self) -> Kind<'static>
        ensures { kind_of result ≡ mixed_kind self }
    {
        let own = self.own();
        let against: &'static [&'static str] = match self {
            Naming::Kazoo | Naming::KazooReader => &BESIDE_KAZOO,
            Naming::CuratorLatch => &BESIDE_LATCHES,
            Naming::Lease { .. } => &BESIDE_LEASES,
            _ => &BESIDE_CURATOR,
        };
        Kind { own, against }
    }

    /// How many of a directory hold at once.
    pub(crate) fn most(self) -> u32
        ensures { result ≡ most_in self }
    {
        match self {
            Naming::Lease { most } => most,
            _ => 1,
        }
    }

    fn before_guid(self) -> &'static str
        ensures { result.now ≡ before_guid self }
    {
        match self {
            Naming::Kazoo | Naming::KazooReader | Naming::Lease { .. } => "",
            _ => "_c_",
        }
    }

    fn behind_guid(self) -> &'static str
        ensures { result.now ≡ behind_guid self }
    {
        match self {
            Naming::Kazoo => "__lock__",
            Naming::KazooReader => "__rlock__",
            Naming::CuratorLock => "-lock-",
            Naming::CuratorLatch => "-latch-",
            Naming::CuratorWriter => "-__WRIT__",
            Naming::CuratorReader => "-__READ__",
            Naming::Lease { .. } => "__lease__",
        }
    }

    /// How the name begins of a place with this guid: what is before the digits.
    pub(crate) fn front<A: Allocator + Copy>(
        self,
        alloc: A,
        guid: &str,
    ) -> Result<String<A>, AllocError>
        ensures { IfOk result (λ front. string_bytes front ≡ before_guid self ++ guid.now ++ behind_guid self) }
    {
        let mut front = String::from_str(alloc, self.before_guid())?;
        front.push_str(guid)?;
        front.push_str(self.behind_guid())?;
        Ok(front)
    }
}
