//! The first request of a connection.

ghost use Rattle.std.specs.Prelude.{◌≡◌, pos, true, int_lt, None, IfOk, OnOk, IsErrOf};
ghost use Rattle.zk_laws.specs.Messages.{Accepted, Expired};
ghost use Rattle.zk_records.specs.Views.{response_of};
ghost use Rattle.zk_bench.specs.inner.Serving.{SendsMessage, CanBeTold};
ghost use Rattle.zk_bench.specs.declared.stop.Stop.TheVariants as stops;

use crate::replies::send_response;
use crate::stop::Stop;
use std::alloc::{AllocError, Allocator};
use zk_jute::Buffer;
use zk_records::ConnectResponse;

/// The answer to a client that is accepted: this session with the timeout that was asked for, and sixteen bytes 01.
fn accepted<A: Allocator>(
    alloc: A,
    session: i64,
    time_out: i32,
) -> Result<ConnectResponse<A>, AllocError>
    ensures { IfOk result (λ response. (response.time_out ≡ time_out) × (response.read_only ≡ None) × CanBeTold (response_of response)) }
{
    response(alloc, time_out, session, 1)
}

/// The answer to a client whose session has expired: timeout 0, session 0 and sixteen zero bytes.
fn expired<A: Allocator>(alloc: A) -> Result<ConnectResponse<A>, AllocError>
    ensures { IfOk result (λ response. (response.time_out ≡ pos 0) × (response.read_only ≡ None) × CanBeTold (response_of response)) }
{
    response(alloc, 0, 0, 0)
}

/// Sends the answer to a client that is accepted.
pub(crate) fn send_accepted<A: Allocator + Copy>(
    alloc: A,
    session: i64,
    time_out: i32,
    out: &mut Vec<u8, A>,
) -> Result<(), Stop>
    ensures sends { int_lt (pos 0) time_out ≡ true → OnOk result (SendsMessage Accepted out.old.items out.new.items) }
    ensures ended { IsErrOf result stops.End → out.new.items ≡ out.old.items }
    ensures stays { ¬ IsErrOf result stops.End }
{
    let response = accepted(alloc, session, time_out)?;
    send_response(alloc, response, out)
}

/// Sends the answer to a client whose session has expired.
pub(crate) fn send_expired<A: Allocator + Copy>(alloc: A, out: &mut Vec<u8, A>) -> Result<(), Stop>
    ensures sends { OnOk result (SendsMessage Expired out.old.items out.new.items) }
    ensures ended { IsErrOf result stops.End → out.new.items ≡ out.old.items }
    ensures stays { ¬ IsErrOf result stops.End }
{
    let response = expired(alloc)?;
    send_response(alloc, response, out)
}

// It has no readOnly byte.
fn response<A: Allocator>(
    alloc: A,
    time_out: i32,
    session_id: i64,
    byte: u8,
) -> Result<ConnectResponse<A>, AllocError>
    ensures { IfOk result (λ response. (response.time_out ≡ time_out) × (response.read_only ≡ None) × CanBeTold (response_of response)) }
{
    let passwd = Vec::from_slice(alloc, &[byte; 16])?;
    Ok(ConnectResponse {
        protocol_version: 0,
        time_out,
        session_id,
        passwd: Buffer::new(Some(passwd)),
        read_only: None,
    })
}
