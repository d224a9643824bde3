//! Names that end in a number, and who is before whom by it.

ghost use Rattle.std.specs.Prelude.{◌≡◌, nat_eq};
ghost use Rattle.std.specs.List.{ends_with, list_all, list_any};
ghost use Rattle.zk_conclusions.specs.Numbers.{front_of, is_before, is_digit, is_numbered, is_rival, number_of};
ghost use Rattle.zk_conclusions.specs.Kinds.{kind_of};

use std::cmp::Ordering;

/// How a contender is named, and for whom it waits: the marker of its own name, and those of its rivals. A name ends in ten digits, as
/// the name of a sequential create does, with the marker right before them; what is before the marker may be anything.
///
/// | Lock or election | `own` | `against` |
/// |---|---|---|
/// | the lock of the ZooKeeper recipes, Curator's `InterProcessMutex` | `lock-` | `lock-` |
/// | Curator's `LeaderLatch` | `latch-` | `latch-` |
/// | Curator's read lock; write lock | `__READ__`; `__WRIT__` | `__WRIT__`; `__WRIT__`, `__READ__` |
/// | kazoo's `Lock`, `Election` | `__lock__` | `__lock__` |
/// | kazoo's `ReadLock`; `WriteLock` | `__rlock__`; `__lock__` | `__lock__`; `__lock__`, `__rlock__` |
#[derive(Clone, Copy)]
pub struct Kind<'a> {
    pub own: &'a str,
    pub against: &'a [&'a str],
}

/// The last ten bytes.
fn number_of(name: &str) -> &[u8]
    ensures { result.now ≡ number_of name.now }
{
    let bytes = name.as_bytes();
    &bytes[bytes.len().saturating_sub(10)..]
}

/// What is before the last ten bytes.
fn front_of(name: &str) -> &[u8]
    ensures { result.now ≡ front_of name.now }
{
    let bytes = name.as_bytes();
    &bytes[..bytes.len().saturating_sub(10)]
}

fn are_digits(bytes: &[u8]) -> bool
    ensures { result ≡ list_all is_digit bytes.now }
{
    bytes.iter().all(|byte| matches!(*byte, b'0'..=b'9'))
}

fn ends_with(bytes: &[u8], marker: &[u8]) -> bool
    ensures { result ≡ ends_with nat_eq bytes.now marker.now }
{
    bytes.ends_with(marker)
}

/// Whether the name ends in ten digits, right after the marker.
pub(crate) fn is_numbered(name: &str, marker: &str) -> bool
    ensures { result ≡ is_numbered marker.now name.now }
{
    name.len() >= 10 && are_digits(number_of(name)) && ends_with(front_of(name), marker.as_bytes())
}

/// Whether the one name is before the other: by their numbers, and where these are the same in the order of bytes.
pub(crate) fn is_before(one: &str, other: &str) -> bool
    ensures { result ≡ is_before one.now other.now }
{
    match number_of(one).cmp(number_of(other)) {
        Ordering::Less => true,
        Ordering::Equal => one < other,
        Ordering::Greater => false,
    }
}

/// Whether the name ends in ten digits, right after one of the markers.
fn has_one(markers: &[&str], name: &str) -> bool
    ensures { result ≡ list_any (λ marker. is_numbered marker.now name.now) markers.now }
{
    markers.iter().any(|marker| is_numbered(name, *marker))
}

/// Whether the name is a rival's.
pub(crate) fn is_rival(kind: &Kind<'_>, name: &str) -> bool
    ensures { result ≡ is_rival (kind_of kind.now) name.now }
{
    has_one(kind.against, name)
}
