//! Changes of the tree from bytes, and from another history.

ghost use Rattle.std.specs.Prelude.{◌≡◌, IfErr, IfOk, option_map};
ghost use Rattle.zk_history.specs.Made.{change_of as told_by};
ghost use Rattle.ffi_server.specs.Changes.{change_by};
ghost use Rattle.ffi_server.specs.inner.Refused.{RefusesPath};
ghost use Rattle.ffi_server.specs.declared.undone.Undone.TheVariants.{Memory};

use crate::kind::Kind;
use crate::undone::Undone;
use std::alloc::Global;
use zk_bench::Change;
use zk_nodes::{Path, PathFault, copied_data};

// The path whose text these bytes are.
fn path_of(alloc: Global, bytes: &[u8]) -> Result<Path<Global>, Undone>
    ensures path { IfOk result (λ path. path ≡ bytes.now) }
    ensures refused { IfErr result (RefusesPath bytes.now) }
{
    match Path::from_utf8(alloc, bytes) {
        Some(Ok(path)) => Ok(path),
        Some(Err(PathFault::Memory)) => Err(Undone::Memory),
        Some(Err(_)) => Err(Undone::NotPath),
        None => Err(Undone::NotText),
    }
}

/// The change of this kind at a path, with an owner and data, if it has them.
pub(crate) fn change_of(
    alloc: Global,
    kind: Kind,
    owner: i64,
    path: &[u8],
    content: &[u8],
) -> Result<Change<Global>, Undone>
    ensures made { IfOk result (λ change. told_by change ≡ change_by kind owner path.now content.now) }
    ensures refused { IfErr result (RefusesPath path.now) }
{
    let bytes = Vec::from_slice(alloc, content)?;
    let path = match path_of(alloc, path) {
        Ok(path) => path,
        Err(why) => {
            drop(bytes);
            return Err(why);
        }
    };
    match kind {
        Kind::Made => Ok(Change::Create(path, Some(bytes), owner)),
        Kind::Written => Ok(Change::Set(path, Some(bytes))),
        Kind::Deleted => {
            drop(bytes);
            Ok(Change::Delete(path))
        }
    }
}

// A path and data in memory of their own.
fn copied_parts(
    alloc: Global,
    path: &Path<Global>,
    bytes: &Option<Vec<u8>>,
) -> Result<(Path<Global>, Option<Vec<u8>>), Undone>
    ensures path { IfOk result (λ parts. parts.0 ≡ path.now) }
    ensures bytes { IfOk result (λ parts. option_map (λ v. v.items) parts.1 ≡ option_map (λ v. v.items) bytes.now) }
    ensures refused { IfErr result (λ why. why ≡ Memory) }
{
    let lent = match bytes {
        Some(bytes) => Some(bytes.as_slice()),
        None => None,
    };
    let bytes = copied_data(alloc, lent)?;
    match Path::new(alloc, path.as_str()) {
        Ok(path) => Ok((path, bytes)),
        Err(_) => {
            drop(bytes);
            Err(Undone::Memory)
        }
    }
}

/// A change in memory of its own.
pub(crate) fn copied(alloc: Global, change: &Change<Global>) -> Result<Change<Global>, Undone>
    ensures same { IfOk result (λ copy. told_by copy ≡ told_by change.now) }
    ensures refused { IfErr result (λ why. why ≡ Memory) }
{
    match change {
        Change::Create(path, bytes, owner) => {
            let (path, bytes) = copied_parts(alloc, path, bytes)?;
            Ok(Change::Create(path, bytes, *owner))
        }
        Change::Set(path, bytes) => {
            let (path, bytes) = copied_parts(alloc, path, bytes)?;
            Ok(Change::Set(path, bytes))
        }
        Change::Delete(path) => {
            let (path, bytes) = copied_parts(alloc, path, &None)?;
            drop(bytes);
            Ok(Change::Delete(path))
        }
    }
}
