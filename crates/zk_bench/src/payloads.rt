//! Requests as they arrive.

ghost use Rattle.std.specs.Prelude.{◌≡◌, ◌≤◌, ◌+◌, drop, take as first, length as bytes_of, IfOk, OnOk, MatchResult, ℤ, List, ℕ};
ghost use Rattle.zk_jute.specs.Layout.{Value};
ghost use Rattle.zk_jute.specs.Spelling.{Fits};
ghost use Rattle.zk_records.specs.Layouts.{connect_request};
ghost use Rattle.zk_records.specs.Operations.{body_layout, request_layout};
ghost use Rattle.zk_records.specs.Request.{operation_of, body_of};
ghost use Rattle.zk_records.specs.Asked.{Asked, asked_of, asked_value};
ghost use Rattle.zk_records.specs.Views.{request_of};
ghost use Rattle.zk_conversation.specs.declared.raw.RawOperation.{RawOperation};
ghost use Rattle.zk_conversation.specs.Calls.{Raw};
ghost use Rattle.zk_laws.specs.Messages.{Ask};
ghost use Rattle.zk_laws.specs.Parsed.{IsReadAs, IsRecord};
ghost use Rattle.zk_bench.specs.declared.stop.Stop.TheVariants as stops;

use crate::stop::Stop;
use std::alloc::Allocator;
use zk_jute::{Cursor, take};
use zk_records::{ConnectRequest, Request};

/// The first request of a connection, in the payload of this many bytes after a length.
pub(crate) fn first_request<A: Allocator + Copy>(
    alloc: A,
    bytes: &[u8],
    length: usize,
) -> Result<ConnectRequest<A>, Stop>
    requires { 4 + length ≤ bytes_of bytes.now }
    ensures { (value : Value connect_request) → IsRecord connect_request value (first length (drop 4 bytes.now))
        → MatchResult result (λ request. request_of request ≡ value) (λ stop. stop ≡ stops.Memory) }
{
    take(alloc, &mut Cursor::new(&bytes[4..4 + length])).map_err(From::from)
}

/// A later request with its xid, in the payload of this many bytes after a length. One that a client's caller has spelled is not read.
pub(crate) fn next_request<A: Allocator + Copy>(
    alloc: A,
    bytes: &[u8],
    length: usize,
) -> Result<(i32, Request<A>), Stop>
    requires { 4 + length ≤ bytes_of bytes.now }
    ensures fits { IfOk result (λ request. Fits (body_layout (operation_of request.1)) (body_of request.1)) }
    ensures read { (asked : Asked) → IsRecord (request_layout asked.operation) (asked_value asked) (first length (drop 4 bytes.now))
        → MatchResult result (λ request. asked_of request.0 request.1 ≡ asked) (λ stop. stop ≡ stops.Memory) }
    ensures unknown { (operation : RawOperation) (given : List ℕ) (xid : ℤ)
        → IsReadAs (Ask (Raw operation given)) xid (first length (drop 4 bytes.now)) → OnOk result ⊥ }
{
    let request = Request::take(alloc, &mut Cursor::new(&bytes[4..4 + length]))?;
    Ok(request)
}
