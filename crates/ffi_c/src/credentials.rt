//! What a caller introduces a session by.

ghost use Rattle.std.specs.Prelude.{◌≡◌, Some, None};
ghost use Rattle.zk_frames.specs.Frame.{frame};
ghost use Rattle.zk_agent.specs.Credentials.{auth_payload};
ghost use Rattle.ffi_device.specs.declared.device.Device.{Device};
ghost use Rattle.ffi_device.specs.Credentials.{RefusesCredential};
ghost use Rattle.ffi_device.specs.Steps.{Introduces, Steps};
ghost use Rattle.ffi_c.specs.Held.{Holds, IsClosed};

use crate::handle::DwSession;
use crate::taking::drive;
use std::alloc::Global;

/// Introduces the session by this scheme and secret from now on: at once if a connection is there, and on each later one right after
/// the request that opens it.
#[unsafe(no_mangle)]
pub extern "C" fn dw_session_credential(
    alloc: Global,
    handle: &mut DwSession,
    now_ms: u64,
    scheme: &[u8],
    secret: &[u8],
) -> i32
    ensures closed { handle.old.slot.held ≡ None → IsClosed result handle.new.slot.held }
    ensures steps { (d : Device) → handle.old.slot.held ≡ Some d → Holds handle.new.slot.held
        (Steps (RefusesCredential scheme.now secret.now) now_ms (Introduces (frame (auth_payload scheme.now secret.now))) d result) }
{
    drive(
        alloc,
        handle,
        |session| session.credential_at(alloc, now_ms, scheme, secret),
    )
}
