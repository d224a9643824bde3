//! What is known of the data at one path, and what a change makes of it.

ghost use Rattle.std.specs.Prelude.{◌≡◌, pos, true, false, MatchOption};
ghost use Rattle.std.specs.Option.{option_map};
ghost use Rattle.zk_nodes.specs.Path.{path_eq, path_of};
ghost use Rattle.zk_nodes.specs.PathFault.{IsPath};
ghost use Rattle.zk_nodes.specs.History.{size_of};
ghost use Rattle.zk_history.specs.Made.{change_of};
ghost use Rattle.zk_log.specs.Views.{entry_of};
ghost use Rattle.zk_log_history.specs.Changes.{listed};
ghost use Rattle.zk_log_history.specs.Known.{can_be_deleted, can_be_made, change_told, changes_told, creation_told, deletion_told};
ghost use Rattle.zk_log_history.specs.Known.{has_length, is_at, known_of, left_by, write_told};
ghost use Rattle.zk_log_history.specs.inner.Known.{Gives};

use crate::next::natural;
use crate::untold::Untold;
use std::alloc::Allocator;
use zk_history::{Change, Data};
use zk_log::LogEntry;
use zk_nodes::{DataStat, Path};

/// The longest data whose length a `Stat` can tell.
const LONGEST_DATA: usize = 2147483647;

/// What is known of the data at a path.
#[derive(Drop)]
pub enum Knowledge<A: Allocator> {
    /// No entry makes or deletes its node: it may be there, made before the logs begin.
    Unknown,
    /// The data, or none if no node is there.
    Known(Option<Data<A>>),
}

/// Whether a path is that of a text.
fn has_text<A: Allocator>(path: &Path<A>, text: &str) -> bool
    requires { IsPath text.now }
    ensures { result ≡ path_eq (path_of text.now) (path_of path.now) }
{
    path.as_str() == text
}

/// Whether these are one path, and not the root's: that node is never made and never deleted.
pub(crate) fn is_at<A: Allocator>(path: &Path<A>, other: &Path<A>) -> bool
    ensures { result ≡ is_at (path_of path.now) (path_of other.now) }
{
    !path.is_root() && has_text(other, path.as_str())
}

/// How long data are, if a `Stat` can tell it.
fn length_of<A: Allocator>(bytes: &Option<Vec<u8, A>>) -> Option<i32>
    ensures { MatchOption result (has_length (option_map (λ v. v.items) bytes.now) ≡ false)
        (λ length. (has_length (option_map (λ v. v.items) bytes.now) ≡ true)
        × (length ≡ pos (size_of (option_map (λ v. v.items) bytes.now)))) }
{
    match bytes {
        None => Some(0),
        Some(bytes) => {
            if bytes.len() <= LONGEST_DATA {
                Some(bytes.len() as i32)
            } else {
                None
            }
        }
    }
}

/// Whether no node is known to be there.
fn can_be_made<A: Allocator>(known: &Knowledge<A>) -> bool
    ensures { result ≡ can_be_made (known_of known.now) }
{
    !matches!(known, Knowledge::Known(Some(_)))
}

/// Whether no node is known to be absent.
fn can_be_deleted<A: Allocator>(known: &Knowledge<A>) -> bool
    ensures { result ≡ can_be_deleted (known_of known.now) }
{
    !matches!(known, Knowledge::Known(None))
}

/// What is known after the creation of the node.
fn created<A: Allocator>(
    entry: &LogEntry<'_, A>,
    bytes: Option<Vec<u8, A>>,
    owner: i64,
    known: &Knowledge<A>,
) -> Result<Knowledge<A>, Untold>
    ensures { Gives result (creation_told (entry_of entry.now) (option_map (λ v. v.items) bytes) owner (known_of known.now)) }
{
    let Some(data_length) = length_of(&bytes) else {
        return Err(Untold::Illegal);
    };
    if !can_be_made(known) {
        return Err(Untold::Illegal);
    }
    let zxid = natural(entry.zxid) as i64;
    let stat = DataStat {
        czxid: zxid,
        mzxid: zxid,
        ctime: entry.time,
        mtime: entry.time,
        version: 0,
        data_length,
        ephemeral_owner: owner,
    };
    Ok(Knowledge::Known(Some(Data { bytes, stat })))
}

/// What is known after a write: nothing more of a node of which nothing is known.
fn written<A: Allocator>(
    entry: &LogEntry<'_, A>,
    bytes: Option<Vec<u8, A>>,
    known: &Knowledge<A>,
) -> Result<Knowledge<A>, Untold>
    ensures { Gives result (write_told (entry_of entry.now) (option_map (λ v. v.items) bytes) (known_of known.now)) }
{
    let Some(data_length) = length_of(&bytes) else {
        return Err(Untold::Illegal);
    };
    match known {
        Knowledge::Unknown => Ok(Knowledge::Unknown),
        Knowledge::Known(None) => Err(Untold::Illegal),
        Knowledge::Known(Some(data)) => {
            if data.stat.version >= i32::MAX {
                return Err(Untold::Illegal);
            }
            let stat = DataStat {
                czxid: data.stat.czxid,
                mzxid: natural(entry.zxid) as i64,
                ctime: data.stat.ctime,
                mtime: entry.time,
                version: data.stat.version + 1,
                data_length,
                ephemeral_owner: data.stat.ephemeral_owner,
            };
            Ok(Knowledge::Known(Some(Data { bytes, stat })))
        }
    }
}

/// What is known after the deletion of the node.
fn deleted<A: Allocator>(known: &Knowledge<A>) -> Result<Knowledge<A>, Untold>
    ensures { Gives result (deletion_told (known_of known.now)) }
{
    if can_be_deleted(known) {
        Ok(Knowledge::Known(None))
    } else {
        Err(Untold::Illegal)
    }
}

/// What is known after a change of an entry.
fn changed<A: Allocator>(
    path: &Path<A>,
    entry: &LogEntry<'_, A>,
    change: Change<A>,
    known: Knowledge<A>,
) -> Result<Knowledge<A>, Untold>
    ensures { Gives result (change_told (path_of path.now) (entry_of entry.now) (change_of change) (known_of known)) }
{
    match change {
        Change::Create(other, bytes, owner) => {
            if is_at(path, &other) {
                created(entry, bytes, owner, &known)
            } else {
                Ok(known)
            }
        }
        Change::Set(other, bytes) => {
            if is_at(path, &other) {
                written(entry, bytes, &known)
            } else {
                Ok(known)
            }
        }
        Change::Delete(other) => {
            if is_at(path, &other) {
                deleted(&known)
            } else {
                Ok(known)
            }
        }
    }
}

/// What is known after a change of an entry, if there is one.
#[tactic(auto, using(crate::proofs::Known::one_gives))]
pub(crate) fn with_change<A: Allocator>(
    path: &Path<A>,
    entry: &LogEntry<'_, A>,
    change: Option<Change<A>>,
    known: Knowledge<A>,
) -> Result<Knowledge<A>, Untold>
    ensures { Gives result
        (changes_told (path_of path.now) (entry_of entry.now) (listed (option_map change_of change)) (known_of known)) }
{
    match change {
        None => Ok(known),
        Some(change) => changed(path, entry, change, known),
    }
}

/// What is left of it after the end of a session: a node that is known to be the session's goes with it.
pub(crate) fn left_by<A: Allocator>(session: i64, known: Knowledge<A>) -> Knowledge<A>
    ensures { known_of result ≡ left_by session (known_of known) }
{
    match &known {
        Knowledge::Known(Some(data)) => {
            if session != 0 && data.stat.ephemeral_owner == session {
                Knowledge::Known(None)
            } else {
                known
            }
        }
        _ => known,
    }
}
