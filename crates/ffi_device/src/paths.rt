//! Paths from bytes.

ghost use Rattle.std.specs.Prelude.{◌≡◌, ◌≢◌, IfOk, IfErr, IsSome, None, OnOk};
ghost use Rattle.std.specs.Str.{IsUtf8};
ghost use Rattle.zk_nodes.specs.Path.{child_text};
ghost use Rattle.zk_nodes.specs.PathFault.{IsPath, child_fault, fault_of};
ghost use Rattle.ffi_device.specs.Codes.{refusal_code};
ghost use Rattle.ffi_device.specs.inner.Refused.{RefusesChild, RefusesText};
ghost use Rattle.ffi_device.specs.Refused.{RefusesPath};

use crate::refusal::DeviceRefusal;
use std::alloc::Global;
use zk_client::{Path, PathFault};
use zk_nodes::text_fault;

/// The path whose text these bytes are. A refusal is `NotText`, else `NotPath`, else `Memory`.
pub fn path_of(alloc: Global, bytes: &[u8]) -> Result<Path<Global>, DeviceRefusal>
    ensures path { IfOk result (λ path. path ≡ bytes.now) }
    ensures accepted { OnOk result (IsPath bytes.now) }
    ensures refused { IfErr result (λ refusal. RefusesPath bytes.now (refusal_code refusal)) }
{
    match Path::from_utf8(alloc, bytes) {
        Some(Ok(path)) => Ok(path),
        Some(Err(PathFault::Memory)) => Err(DeviceRefusal::Memory),
        Some(Err(_)) => Err(DeviceRefusal::NotPath),
        None => Err(DeviceRefusal::NotText),
    }
}

/// Refuses a text that is no path's, as `NotPath`. It takes no memory.
pub(crate) fn refuse_no_path(text: &str) -> Result<(), DeviceRefusal>
    ensures accepted { OnOk result (IsPath text.now) }
    ensures refused { IfErr result (λ refusal. (refusal ≡ DeviceRefusal.NotPath) × IsSome (fault_of text.now)) }
{
    match text_fault(text) {
        None => Ok(()),
        Some(_fault) => Err(DeviceRefusal::NotPath),
    }
}

/// The text that these bytes are. The one refusal is `NotText`. It takes no memory.
pub(crate) fn text_of(bytes: &[u8]) -> Result<&str, DeviceRefusal>
    ensures text { IfOk result (λ text. text.now ≡ bytes.now) }
    ensures refused { IfErr result (λ refusal. RefusesText bytes.now (refusal_code refusal)) }
{
    match std::str::from_utf8(bytes) {
        Ok(text) => Ok(text),
        Err(_) => Err(DeviceRefusal::NotText),
    }
}

/// The path of the child of this name. A refusal is `NotPath`, else `Memory`.
pub(crate) fn child_of(
    alloc: Global,
    directory: &Path<Global>,
    name: &str,
) -> Result<Path<Global>, DeviceRefusal>
    ensures path { IfOk result (λ path. path ≡ child_text directory.now name.now) }
    ensures accepted { OnOk result (child_fault directory.now name.now ≡ None) }
    ensures refused { IfErr result (λ refusal. RefusesChild directory.now name.now (refusal_code refusal)) }
{
    match directory.join(alloc, name) {
        Ok(path) => Ok(path),
        Err(PathFault::Memory) => Err(DeviceRefusal::Memory),
        Err(_fault) => Err(DeviceRefusal::NotPath),
    }
}
