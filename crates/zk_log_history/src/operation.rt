//! The change that an operation makes.

ghost use Rattle.std.specs.Prelude.{◌≡◌, pos, IfOk, OnOk, IfErr, Some, None, if◌then◌else◌};
ghost use Rattle.std.specs.Option.{option_map};
ghost use Rattle.zk_jute.specs.Lenient.{or_empty};
ghost use Rattle.zk_nodes.specs.History.{Sets, Deletes};
ghost use Rattle.zk_history.specs.Made.{change_of};
ghost use Rattle.zk_log.specs.Views.{kind_of, body_of};
ghost use Rattle.zk_log_history.specs.Changes.{named, created, operation_change};
ghost use Rattle.zk_log_history.specs.Refused.{path_fault, operation_fault};
ghost use Rattle.zk_log_history.specs.inner.Refused.{Unread};

use crate::untold::Untold;
use std::alloc::{AllocError, Allocator};
use zk_history::Change;
use zk_log::Txn;
use zk_nodes::{Path, PathFault, copied_data};

/// The path that is logged, of which null is none.
pub(crate) fn path_at<A: Allocator>(alloc: A, text: Option<&str>) -> Result<Path<A>, Untold>
    ensures path { IfOk result (λ path. path ≡ or_empty (option_map (λ s. s.now) text.entry)) }
    ensures read { OnOk result (path_fault (option_map (λ s. s.now) text.entry) ≡ None) }
    ensures unread { IfErr result (Unread (path_fault (option_map (λ s. s.now) text.entry))) }
{
    let text = match text {
        None => "",
        Some(text) => text,
    };
    match Path::new(alloc, text) {
        Err(PathFault::Memory) => Err(Untold::Memory),
        Err(fault) => Err(Untold::Path(fault)),
        Ok(path) => Ok(path),
    }
}

/// A path once more. Its text is one, so that memory alone is refused.
pub(crate) fn copied<A: Allocator>(alloc: A, path: &Path<A>) -> Result<Path<A>, AllocError>
    ensures { IfOk result (λ copy. copy ≡ path.now) }
{
    match Path::new(alloc, path.as_str()) {
        Ok(copy) => Ok(copy),
        Err(_) => Err(AllocError),
    }
}

/// The owner of a node: a session, or nobody.
fn owner_of(session: i64, ephemeral: bool) -> i64
    ensures { result ≡ (if ephemeral then session else pos 0) }
{
    if ephemeral { session } else { 0 }
}

/// A creation.
fn created<A: Allocator + Copy>(
    alloc: A,
    owner: i64,
    path: Option<&str>,
    bytes: Option<&[u8]>,
) -> Result<Option<Change<A>>, Untold>
    ensures change { IfOk result (λ change. option_map change_of change
        ≡ created owner (option_map (λ s. s.now) path.entry) (option_map (λ b. b.now) bytes.entry)) }
    ensures read { OnOk result (path_fault (option_map (λ s. s.now) path.entry) ≡ None) }
    ensures unread { IfErr result (Unread (path_fault (option_map (λ s. s.now) path.entry))) }
{
    let path = path_at(alloc, path)?;
    let bytes = copied_data(alloc, bytes)?;
    Ok(Some(Change::Create(path, bytes, owner)))
}

/// A write.
fn written<A: Allocator + Copy>(
    alloc: A,
    path: Option<&str>,
    bytes: Option<&[u8]>,
) -> Result<Option<Change<A>>, Untold>
    ensures change { IfOk result (λ change. option_map change_of change
        ≡ Some (Sets (named (option_map (λ s. s.now) path.entry)) (option_map (λ b. b.now) bytes.entry))) }
    ensures read { OnOk result (path_fault (option_map (λ s. s.now) path.entry) ≡ None) }
    ensures unread { IfErr result (Unread (path_fault (option_map (λ s. s.now) path.entry))) }
{
    let path = path_at(alloc, path)?;
    let bytes = copied_data(alloc, bytes)?;
    Ok(Some(Change::Set(path, bytes)))
}

/// A deletion.
fn deleted<A: Allocator>(alloc: A, path: Option<&str>) -> Result<Option<Change<A>>, Untold>
    ensures change { IfOk result (λ change. option_map change_of change ≡ Some (Deletes (named (option_map (λ s. s.now) path.entry)))) }
    ensures read { OnOk result (path_fault (option_map (λ s. s.now) path.entry) ≡ None) }
    ensures unread { IfErr result (Unread (path_fault (option_map (λ s. s.now) path.entry))) }
{
    Ok(Some(Change::Delete(path_at(alloc, path)?)))
}

/// The change that an operation makes, if it makes one.
pub(crate) fn operation_change<A: Allocator + Copy>(
    alloc: A,
    session: i64,
    txn: &Txn<'_, A>,
) -> Result<Option<Change<A>>, Untold>
    ensures change { IfOk result (λ change. option_map change_of change ≡ operation_change session (kind_of txn.now) (body_of txn.now)) }
    ensures read { OnOk result (operation_fault (kind_of txn.now) (body_of txn.now) ≡ None) }
    ensures unread { IfErr result (Unread (operation_fault (kind_of txn.now) (body_of txn.now))) }
{
    match txn {
        Txn::Create(t) => {
            let owner = owner_of(session, t.ephemeral);
            created(alloc, owner, t.path.as_str(), t.bytes.as_slice())
        }
        Txn::Create2(t) => {
            let owner = owner_of(session, t.ephemeral);
            created(alloc, owner, t.path.as_str(), t.bytes.as_slice())
        }
        Txn::CreateContainer(t) => created(alloc, 0, t.path.as_str(), t.bytes.as_slice()),
        Txn::CreateTtl(t) => created(alloc, 0, t.path.as_str(), t.bytes.as_slice()),
        Txn::Delete(path) => deleted(alloc, path.text),
        Txn::DeleteContainer(path) => deleted(alloc, path.text),
        Txn::Set(t) => written(alloc, t.path.text, t.bytes.bytes),
        Txn::Reconfig(t) => written(alloc, t.path.text, t.bytes.bytes),
        _ => Ok(None),
    }
}
