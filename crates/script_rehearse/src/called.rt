//! The paths that calls name.

ghost use Rattle.std.specs.Prelude.{◌≡◌, OnOk};
ghost use Rattle.std.specs.Option.{option_copied};
ghost use Rattle.zk_conversation.specs.Views.{call_view};
ghost use Rattle.zk_nodes.specs.inner.Names.{names_of};
ghost use Rattle.script_rehearse.specs.Scenes.{named_path, with_path};

use std::alloc::{AllocError, Allocator};
use std::collections::BTreeSet;
use zk_conversation::Call;

/// The path that a call names.
fn named_path<A: Allocator>(call: &Call<A>) -> Option<&str>
    ensures named { option_copied result ≡ named_path (call_view call.now) }
{
    match call {
        Call::Exists { path, .. } => Some(path.as_str()),
        Call::GetData { path, .. } => Some(path.as_str()),
        Call::GetChildren { path, .. } => Some(path.as_str()),
        Call::SetData { path, .. } => Some(path.as_str()),
        Call::Create { path, .. } => Some(path.as_str()),
        Call::Delete { path, .. } => Some(path.as_str()),
        Call::Close | Call::Raw { .. } => None,
    }
}

/// Adds the path that a call names.
pub(crate) fn add_path<A: Allocator + Copy>(
    alloc: A,
    call: &Call<A>,
    called: &mut BTreeSet<String<A>, A>,
) -> Result<(), AllocError>
    ensures added { OnOk result (names_of called.new ≡ with_path (named_path (call_view call.now)) (names_of called.old)) }
{
    if let Some(path) = named_path(call) {
        called.insert(String::from_str(alloc, path)?)?;
    }
    Ok(())
}
