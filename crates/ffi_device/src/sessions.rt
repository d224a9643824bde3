//! What is shown of a session, and the session put away and taken up.

ghost use Rattle.std.specs.Prelude.{◌≡◌, ◌≢◌, ◌<ℤ◌, pos, [], IfOk, MatchResult, OnOk, Ok, Err};
ghost use Rattle.zk_session.specs.declared.states.State.TheVariants.{Idle};
ghost use Rattle.zk_turns.specs.View.{view_at};
ghost use Rattle.zk_client.specs.Clients.{view_of};
ghost use Rattle.zk_client.specs.SavedSessions.{PutAway, bytes_read, saved_bytes};
ghost use Rattle.zk_client.specs.declared.saved_fault.SavedFault.{SavedFault};
ghost use Rattle.zk_client.specs.declared.saved_fault.SavedFault.TheVariants as saved_faults;
ghost use Rattle.ffi_device.specs.declared.refusal.DeviceRefusal.TheVariants as refusals;
ghost use Rattle.ffi_device.specs.Refused.{RefusesTimeout};
ghost use Rattle.ffi_device.specs.Codes.{refusal_code};
ghost use Rattle.ffi_device.specs.Sessions.{put_of, put_start, state_number};

use crate::refusal::DeviceRefusal;
use std::alloc::{AllocError, Global};
use zk_client::{Client, SavedFault, SavedSession, State};

// What was put away as these bytes.
fn read_saved(alloc: Global, saved: &[u8]) -> Result<SavedSession<Global>, DeviceRefusal>
    ensures found { (put : PutAway) → bytes_read saved.now ≡ Ok put
        → MatchResult result (λ session. session ≡ put) (λ refusal. refusal ≡ refusals.Memory) }
    ensures unread { (fault : SavedFault) → bytes_read saved.now ≡ Err fault → fault ≢ saved_faults.Memory
        → result ≡ Err refusals.NotSaved }
{
    match SavedSession::from_bytes(alloc, saved) {
        Ok(session) => Ok(session),
        Err(SavedFault::Memory) => Err(DeviceRefusal::Memory),
        Err(_) => Err(DeviceRefusal::NotSaved),
    }
}

/// A client that takes up the session of these bytes, with this timeout in milliseconds. A refusal is `BadTimeout`, else `NotSaved`, else
/// `Memory`.
pub(crate) fn resumed(
    alloc: Global,
    timeout_ms: i32,
    saved: &[u8],
) -> Result<Client<Global>, DeviceRefusal>
    ensures begins { (put : PutAway) → bytes_read saved.now ≡ Ok put
        → MatchResult result (λ client. view_of client ≡ view_at (put_start timeout_ms put) [])
        (λ refusal. RefusesTimeout timeout_ms (refusal_code refusal)) }
    ensures idle { IfOk result (λ client. (view_of client).standing.state ≡ Idle) }
    ensures accepted { OnOk result (pos 0 <ℤ timeout_ms) }
    ensures unread { (fault : SavedFault) → bytes_read saved.now ≡ Err fault → fault ≢ saved_faults.Memory → pos 0 <ℤ timeout_ms
        → result ≡ Err refusals.NotSaved }
{
    if timeout_ms <= 0 {
        return Err(DeviceRefusal::BadTimeout);
    }
    let session = match read_saved(alloc, saved) {
        Ok(session) => session,
        Err(refusal) => return Err(refusal),
    };
    let client = Client::resume(alloc, timeout_ms, &session.as_saved());
    drop(session);
    match client {
        Ok(client) => Ok(client),
        Err(_) => Err(DeviceRefusal::Memory),
    }
}

/// The bytes from which the session can be taken up. An error says that memory ran out.
pub fn saved(alloc: Global, client: &Client<Global>) -> Result<Vec<u8, Global>, AllocError>
    ensures { IfOk result (λ bytes. bytes.items ≡ saved_bytes (put_of (view_of client.now).saved)) }
{
    let told = client.saved();
    let Ok(session) = SavedSession::new(alloc, told.session, told.password, told.last_zxid) else {
        return Err(AllocError);
    };
    session.to_bytes(alloc)
}

/// The number of the state: 0 idle, 1 connecting, 2 connected, 3 expired, 4 closed.
pub fn state(client: &Client<Global>) -> i32
    ensures { result ≡ pos (state_number (view_of client.now).standing.state) }
{
    match client.state() {
        State::Idle => 0,
        State::Connecting => 1,
        State::Connected => 2,
        State::Expired => 3,
        State::Closed => 4,
    }
}
