//! The versions of every path: what a change adds to them, and the last one up to a zxid.

ghost use Rattle.std.specs.Prelude.{◌≡◌, ◌||◌, ◌∷◌, ◌++◌, [], if◌then◌else◌, ℕ, None, Some, OnOk, OnErr, bytes_eq, nat_le};
ghost use Rattle.zk_nodes.specs.Path.{Text, path_of, parent_of};
ghost use Rattle.zk_nodes.specs.PathFault.{IsPath};
ghost use Rattle.zk_history.specs.Made.{change_of};
ghost use Rattle.zk_history.specs.Versions.{versions_of, version_at};
ghost use Rattle.zk_history.specs.inner.Versions.{versions_after, versions_before, with_version, is_near, last_version};
ghost use Rattle.zk_history.specs.inner.Versions.{without_last, CanBeNoted};
ghost use Rattle.zk_history.specs.Versions.{AreOrdered};

use crate::change::Change;
use crate::replay::version_after;
use crate::version::{Spot, Version};
use std::alloc::{AllocError, Allocator};
use std::collections::BTreeMap;
use zk_nodes::Path;

/// The versions of each path, under its text.
pub(crate) type Versions<A> = BTreeMap<String<A>, Vec<Version, A>, A>;

// Adds a version at the end of those of a text.
fn push_version<A: Allocator + Copy>(
    alloc: A,
    versions: &mut Versions<A>,
    at: &str,
    version: Version,
) -> Result<(), AllocError>
    ensures ok { OnOk result ((text : Text) → versions_of versions.new text
        ≡ (if bytes_eq at.now text then versions_of versions.old text ++ version ∷ [] else versions_of versions.old text)) }
    ensures err { OnErr result ((text : Text) → versions_of versions.new text ≡ versions_of versions.old text) }
{
    if let Some(held) = versions.get_mut(at) {
        held.push(version)?;
        return Ok(());
    }
    let mut first = Vec::new(alloc);
    first.push(version)?;
    versions.insert(String::from_str(alloc, at)?, first)?;
    Ok(())
}

// Takes the last version of a text away.
fn pop_version<A: Allocator>(versions: &mut Versions<A>, at: &str)
    ensures { (text : Text) → versions_of versions.new text
        ≡ (if bytes_eq at.now text then without_last (versions_of versions.old text) else versions_of versions.old text) }
{
    if let Some(held) = versions.get_mut(at) {
        let _ = held.pop();
    }
}

// The versions of a text.
pub(crate) fn versions_at<'a, A: Allocator>(versions: &'a Versions<A>, at: &str) -> &'a [Version]
    ensures { result.now ≡ versions_of versions.now at.now }
{
    match versions.get(at) {
        Some(held) => held.as_slice(),
        None => &[],
    }
}

// The last of some versions.
fn last_of(versions: &[Version]) -> Option<Version>
    ensures { result ≡ last_version versions.now }
{
    versions.last().copied()
}

// The last of some versions up to a zxid.
pub(crate) fn last_up_to(z: u64, versions: &[Version]) -> Option<Version>
    requires { (high : ℕ) × AreOrdered 0 versions.now high }
    ensures { result ≡ version_at z versions.now None }
{
    let count = versions.partition_point(
        |version: &Version| -> bool
            ensures { result ≡ nat_le version.now.zxid z }
        { version.zxid <= z },
    );
    if count == 0 {
        None
    } else {
        Some(versions[count - 1])
    }
}

// Adds the version that a change makes to those of one text.
fn note_at<A: Allocator + Copy>(
    alloc: A,
    versions: &mut Versions<A>,
    spot: Spot,
    change: &Change<A>,
    at: &str,
) -> Result<(), AllocError>
    requires path { IsPath at.now }
    requires fits { CanBeNoted (path_of at.now) (change_of change.now) (last_version (versions_of versions.old at.now)) }
    ensures ok { OnOk result ((text : Text) → versions_of versions.new text ≡ (if bytes_eq at.now text then with_version spot.zxid spot.time
        spot.origin text (change_of change.now) (versions_of versions.old text) else versions_of versions.old text)) }
    ensures err { OnErr result ((text : Text) → versions_of versions.new text ≡ versions_of versions.old text) }
{
    let held = last_of(versions_at(versions, at));
    push_version(alloc, versions, at, version_after(spot, change, at, held))
}

// Adds the versions that a change makes of a text and of its parent's. A refusal leaves all as they were.
fn note_both<A: Allocator + Copy>(
    alloc: A,
    versions: &mut Versions<A>,
    spot: Spot,
    change: &Change<A>,
    at: &str,
    parent: &str,
) -> Result<(), AllocError>
    requires path { IsPath at.now }
    requires above { IsPath parent.now }
    requires below { parent_of (path_of at.now) ≡ Some (path_of parent.now) }
    requires fits { (text : Text) → IsPath text
        → CanBeNoted (path_of text) (change_of change.now) (last_version (versions_of versions.old text)) }
    ensures ok { OnOk result
        ((text : Text) → versions_of versions.new text ≡ (if (bytes_eq at.now text || bytes_eq parent.now text) then with_version spot.zxid
        spot.time spot.origin text (change_of change.now) (versions_of versions.old text) else versions_of versions.old text)) }
    ensures err { OnErr result ((text : Text) → versions_of versions.new text ≡ versions_of versions.old text) }
{
    note_at(alloc, versions, spot, change, at)?;
    if note_at(alloc, versions, spot, change, parent).is_err() {
        pop_version(versions, at);
        return Err(AllocError);
    }
    Ok(())
}

// Adds the versions that the creation or the deletion of a path makes.
fn note_near<A: Allocator + Copy>(
    alloc: A,
    versions: &mut Versions<A>,
    spot: Spot,
    change: &Change<A>,
    path: &Path<A>,
) -> Result<(), AllocError>
    requires fits { (text : Text) → IsPath text
        → CanBeNoted (path_of text) (change_of change.now) (last_version (versions_of versions.old text)) }
    ensures ok { OnOk result
        ((text : Text) → IsPath text → versions_of versions.new text ≡ (if is_near (path_of text) (path_of path.now) then with_version
        spot.zxid spot.time spot.origin text (change_of change.now) (versions_of versions.old text) else versions_of versions.old text)) }
    ensures err { OnErr result ((text : Text) → versions_of versions.new text ≡ versions_of versions.old text) }
{
    match path.parent() {
        Some(parent) => note_both(alloc, versions, spot, change, path.as_str(), parent),
        None => Ok(()),
    }
}

// Adds the versions that a change makes, which stands at a spot. A refusal leaves all as they were.
pub(crate) fn note<A: Allocator + Copy>(
    alloc: A,
    versions: &mut Versions<A>,
    spot: Spot,
    change: &Change<A>,
) -> Result<(), AllocError>
    requires fits { (text : Text) → IsPath text
        → CanBeNoted (path_of text) (change_of change.now) (last_version (versions_of versions.old text)) }
    ensures ok { OnOk result ((text : Text) → IsPath text → versions_of versions.new text
        ≡ versions_after spot.zxid spot.time spot.origin text (change_of change.now) (versions_of versions.old text)) }
    ensures err { OnErr result ((text : Text) → versions_of versions.new text ≡ versions_of versions.old text) }
{
    match change {
        Change::Create(path, _, _) => note_near(alloc, versions, spot, change, path),
        Change::Set(path, _) => note_at(alloc, versions, spot, change, path.as_str()),
        Change::Delete(path) => note_near(alloc, versions, spot, change, path),
    }
}

// Takes the versions away that the creation or the deletion of a path made last.
fn forget_near<A: Allocator>(versions: &mut Versions<A>, path: &Path<A>)
    ensures { (text : Text) → IsPath text → versions_of versions.new text ≡ (if is_near (path_of text) (path_of path.now)
        then without_last (versions_of versions.old text) else versions_of versions.old text) }
{
    if let Some(parent) = path.parent() {
        pop_version(versions, path.as_str());
        pop_version(versions, parent);
    }
}

// Takes the versions away that a change made last.
pub(crate) fn forget<A: Allocator>(versions: &mut Versions<A>, change: &Change<A>)
    ensures { (text : Text) → IsPath text
        → versions_of versions.new text ≡ versions_before text (change_of change.now) (versions_of versions.old text) }
{
    match change {
        Change::Create(path, _, _) => forget_near(versions, path),
        Change::Set(path, _) => pop_version(versions, path.as_str()),
        Change::Delete(path) => forget_near(versions, path),
    }
}
