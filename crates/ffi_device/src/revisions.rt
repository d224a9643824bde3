//! When the revision of a session rises.

ghost use Rattle.std.specs.Prelude.{◌≡◌};
ghost use Rattle.std.specs.List.{list_any};
ghost use Rattle.zk_agent.specs.Telling.{action_view, told_by};
ghost use Rattle.ffi_device.specs.Revisions.{is_another, revised};
ghost use Rattle.ffi_device.specs.Steps.{happening, is_bytes};

use std::alloc::Global;
use zk_agent::{Action, AgentInput};
use zk_conclusions::Revision;

/// Whether bytes came.
pub(crate) fn is_bytes(input: &AgentInput<Global>) -> bool
    ensures { result ≡ is_bytes (happening input.now) }
{
    matches!(input, AgentInput::Bytes(_))
}

/// Whether another state is told, or another session.
fn is_another(action: &Action<Global>) -> bool
    ensures { result ≡ is_another (action_view action.now) }
{
    matches!(action, Action::State(_) | Action::Renewed)
}

fn has_another(actions: &[Action<Global>]) -> bool
    ensures { result ≡ list_any is_another (told_by actions.now) }
{
    actions.iter().any(|action| is_another(action))
}

/// Raises the revision where bytes came, or if another state is told, or another session.
pub(crate) fn revise(revision: &mut Revision, is_bytes: bool, actions: &[Action<Global>])
    ensures { revision.new.number ≡ revised is_bytes (told_by actions.now) revision.old.number }
{
    if is_bytes || has_another(actions) {
        revision.raise();
    }
}
