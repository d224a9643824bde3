//! What one change makes of the node at a path, and of its children.

ghost use Rattle.std.specs.Prelude.{◌≡◌, ◌<◌, ℤ, ℕ, List, Option, Some, true};
ghost use Rattle.std.specs.Option.{option_map};
ghost use Rattle.zk_nodes.specs.Path.{path_eq, path_of};
ghost use Rattle.zk_nodes.specs.History.{Creates, Sets, Deletes};
ghost use Rattle.zk_nodes.specs.PathFault.{IsPath};
ghost use Rattle.zk_history.specs.Made.{change_of};
ghost use Rattle.zk_history.specs.declared.version.Origin.{Origin as OriginOf};
ghost use Rattle.zk_history.specs.declared.version.Entry.{Entry as EntryOf};
ghost use Rattle.zk_history.specs.inner.Versions.{entry_regrouped, entry_after, version_after, CanBeNoted};
ghost use Rattle.zk_history.specs.Versions.{entry_of, children_of, first_entry};

use crate::change::Change;
use crate::names::counted_after;
use crate::place::{is_at, is_right_below};
use crate::version::{Entry, Origin, Spot, Version};
use std::alloc::Allocator;
use zk_nodes::Path;

// The root as it is before all changes.
fn first_entry(at: &str) -> Option<Entry>
    requires { IsPath at.now }
    ensures { result ≡ first_entry (path_of at.now) }
{
    if "/" == at {
        Some(Entry {
            origin: Origin::Root,
            czxid: 0,
            mzxid: 0,
            pzxid: 0,
            ctime: 0,
            mtime: 0,
            version: 0,
            owner: 0,
        })
    } else {
        None
    }
}

// The node at a path at a version, or before all.
pub(crate) fn entry_of(at: &str, held: Option<Version>) -> Option<Entry>
    requires { IsPath at.now }
    ensures { result ≡ entry_of (path_of at.now) held }
{
    match held {
        Some(version) => version.entry,
        None => first_entry(at),
    }
}

// How many children a path has at a version, or before all.
pub(crate) fn children_of(held: Option<Version>) -> u32
    ensures { result ≡ children_of held }
{
    match held {
        Some(version) => version.children,
        None => 0,
    }
}

// A node whose children changed.
fn regrouped(zxid: u64, found: Option<Entry>) -> Option<Entry>
    ensures { result ≡ option_map (entry_regrouped zxid) found }
{
    match found {
        Some(found) => Some(Entry {
            origin: found.origin,
            czxid: found.czxid,
            mzxid: found.mzxid,
            pzxid: zxid,
            ctime: found.ctime,
            mtime: found.mtime,
            version: found.version,
            owner: found.owner,
        }),
        None => None,
    }
}

// What a creation makes of the node at a path.
fn after_create<A: Allocator>(
    zxid: u64,
    time: i64,
    origin: Origin,
    path: &Path<A>,
    owner: i64,
    at: &str,
    found: Option<Entry>,
) -> Option<Entry>
    requires { IsPath at.now }
    ensures { (content : Option (List ℕ))
        → result ≡ entry_after zxid time origin (path_of at.now) (Creates (path_of path.now) content owner) found }
{
    if path.is_root() {
        found
    } else if is_at(path, at) {
        Some(Entry {
            origin,
            czxid: zxid,
            mzxid: zxid,
            pzxid: zxid,
            ctime: time,
            mtime: time,
            version: 0,
            owner,
        })
    } else if is_right_below(path, at) {
        regrouped(zxid, found)
    } else {
        found
    }
}

// What a write of data makes of the node at a path.
fn after_set<A: Allocator>(
    zxid: u64,
    time: i64,
    origin: Origin,
    path: &Path<A>,
    at: &str,
    found: Option<Entry>,
) -> Option<Entry>
    requires path { IsPath at.now }
    requires version { path_eq (path_of at.now) (path_of path.now) ≡ true → (e : EntryOf) → found ≡ Some e → e.version < 2147483647 }
    ensures { (content : Option (List ℕ)) → result ≡ entry_after zxid time origin (path_of at.now) (Sets (path_of path.now) content) found }
{
    if !is_at(path, at) {
        return found;
    }
    match found {
        Some(found) => Some(Entry {
            origin,
            czxid: found.czxid,
            mzxid: zxid,
            pzxid: found.pzxid,
            ctime: found.ctime,
            mtime: time,
            version: found.version + 1,
            owner: found.owner,
        }),
        None => None,
    }
}

// What a deletion makes of the node at a path.
fn after_delete<A: Allocator>(
    zxid: u64,
    path: &Path<A>,
    at: &str,
    found: Option<Entry>,
) -> Option<Entry>
    requires { IsPath at.now }
    ensures { (time : ℤ) (origin : OriginOf) → result ≡ entry_after zxid time origin (path_of at.now) (Deletes (path_of path.now)) found }
{
    if path.is_root() {
        return found;
    }
    if is_at(path, at) {
        return None;
    }
    if is_right_below(path, at) {
        return regrouped(zxid, found);
    }
    found
}

// The version of a path that a change makes, which stands at a spot.
pub(crate) fn version_after<A: Allocator>(
    spot: Spot,
    change: &Change<A>,
    at: &str,
    held: Option<Version>,
) -> Version
    requires path { IsPath at.now }
    requires fits { CanBeNoted (path_of at.now) (change_of change.now) held }
    ensures { result ≡ version_after spot.zxid spot.time spot.origin (path_of at.now) (change_of change.now) held }
{
    let Spot { zxid, time, origin } = spot;
    let before = entry_of(at, held);
    let entry = match change {
        Change::Create(path, _, owner) => {
            after_create(zxid, time, origin, path, *owner, at, before)
        }
        Change::Set(path, _) => after_set(zxid, time, origin, path, at, before),
        Change::Delete(path) => after_delete(zxid, path, at, before),
    };
    let children = counted_after(change, at, children_of(held));
    Version {
        zxid,
        origin,
        entry,
        children,
    }
}
