//! Paths that follow one another, each after its length.

ghost use Rattle.std.specs.Prelude.{◌≡◌, ◌↔◌, false, true, IfErr, IfOk, IsSome, OnOk, map};
ghost use Rattle.std.specs.List.{AllByRecursion};
ghost use Rattle.zk_nodes.specs.PathFault.{IsPath, fault_of};
ghost use Rattle.ffi_device.specs.Codes.{refusal_code};
ghost use Rattle.ffi_device.specs.Texts.{ArePaths, SpellsPaths};
ghost use Rattle.ffi_device.specs.inner.Texts.{RefusesPaths};

use crate::refusal::DeviceRefusal;
use crate::texts::{lent_texts, next_text};
use std::alloc::{AllocError, Global};
use zk_client::{Path, PathFault};
use zk_jute::Cursor;

// Whether the text is a path, whether or not there is memory for it.
fn is_path(alloc: Global, text: &str) -> bool
    ensures path { result ≡ true → IsPath text.now }
    ensures fault { result ≡ false → IsSome (fault_of text.now) }
{
    matches!(Path::new(alloc, text), Ok(_) | Err(PathFault::Memory))
}

/// Sees that paths are spelled so, whether or not there is memory for them. A refusal is `NotTexts`, else `NotPath`.
pub(crate) fn check_paths(alloc: Global, spelled: &[u8]) -> Result<(), DeviceRefusal>
    ensures paths { OnOk result (SpellsPaths spelled.now) }
    ensures refused { IfErr result (λ refusal. RefusesPaths spelled.now (refusal_code refusal)) }
{
    let mut at = Cursor::new(spelled);
    let mut are_paths = true;
    while !at.rest().is_empty() {
        match next_text(alloc, &mut at) {
            Some(text) => are_paths = is_path(alloc, text) && are_paths,
            None => return Err(DeviceRefusal::NotTexts),
        }
    }
    if are_paths {
        Ok(())
    } else {
        Err(DeviceRefusal::NotPath)
    }
}

// The paths of these texts. An error says that memory ran out, if they are paths.
fn copied_paths(alloc: Global, texts: &[&str]) -> Result<Vec<Path<Global>>, AllocError>
    ensures paths { IfOk result (λ paths. paths.items ≡ map (λ text. text.now) texts.now) }
    ensures each { IfOk result (λ paths. AllByRecursion IsPath paths.items) }
{
    let mut paths = Vec::new(alloc);
    for text in texts {
        let Ok(path) = Path::new(alloc, *text) else {
            return Err(AllocError);
        };
        paths.push(path)?;
    }
    Ok(paths)
}

/// The paths that are spelled so, with memory of their own. An error says that memory ran out, if [`check_paths`] sees paths.
pub(crate) fn collected_paths(
    alloc: Global,
    spelled: &[u8],
) -> Result<Vec<Path<Global>>, AllocError>
    ensures { IfOk result (λ paths. ArePaths paths.items spelled.now) }
{
    let Ok(texts) = lent_texts(alloc, spelled) else {
        return Err(AllocError);
    };
    copied_paths(alloc, texts.as_slice())
}
