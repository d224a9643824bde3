//! Frames of requests.

ghost use Rattle.std.specs.Prelude.{◌≡◌, ◌<◌, ◌^◌, ◌++◌, length, IfOk};
ghost use Rattle.zk_jute.specs.Layout.{int, ◌⨾◌};
ghost use Rattle.zk_jute.specs.Spelling.{spelling};
ghost use Rattle.zk_frames.specs.Frame.{frame};
ghost use Rattle.zk_records.specs.Layouts.{request_header};
ghost use Rattle.zk_records.specs.Operations.{operation_number};

use std::alloc::{AllocError, Allocator};
use zk_frames::seal_frame;
use zk_jute::Record;
use zk_records::{Operation, RequestHeader, RequestPayload};

/// The frame whose payload is the message's spelling. `room` is how many bytes the frame is thought to have.
pub(crate) fn framed<A: Allocator + Copy, R: Record<A>>(
    alloc: A,
    room: usize,
    message: &R,
) -> Result<Vec<u8, A>, AllocError>
    requires { length (spelling R.layout (R.view message.now)) < 2 ^ 30 }
    ensures { IfOk result (λ out. out.items ≡ frame (spelling R.layout (R.view message.now))) }
{
    let mut out = Vec::with_capacity(alloc, room)?;
    out.extend_from_slice(&[0; 4])?;
    if message.put(&mut out).is_err() {
        return Err(AllocError);
    }
    seal_frame(&mut out);
    Ok(out)
}

/// The frame of a request: its header, and the record of its operation.
pub(crate) fn request_frame<A: Allocator + Copy, R: Record<A> + Copy>(
    alloc: A,
    room: usize,
    xid: i32,
    operation: Operation,
    body: R,
) -> Result<Vec<u8, A>, AllocError>
    requires { length (spelling (int ⨾ (int ⨾ R.layout)) (xid, (operation_number operation, R.view body))) < 2 ^ 30 }
    ensures { IfOk result (λ out. out.items ≡ frame (spelling (int ⨾ (int ⨾ R.layout)) (xid, (operation_number operation, R.view body)))) }
{
    let header = RequestHeader {
        xid,
        operation: operation.number(),
    };
    framed(
        alloc,
        room,
        &RequestPayload {
            header,
            record: body,
        },
    )
}

/// The frame of a request of which the caller has spelled what stands after the header.
pub(crate) fn raw_frame<A: Allocator + Copy>(
    alloc: A,
    xid: i32,
    operation: i32,
    body: &[u8],
) -> Result<Vec<u8, A>, AllocError>
    requires { length (spelling request_header (xid, operation) ++ body.now) < 2 ^ 30 }
    ensures { IfOk result (λ out. out.items ≡ frame (spelling request_header (xid, operation) ++ body.now)) }
{
    let header = RequestHeader { xid, operation };
    let mut out = Vec::with_capacity(alloc, 12 + body.len())?;
    out.extend_from_slice(&[0; 4])?;
    if header.put(&mut out).is_err() {
        return Err(AllocError);
    }
    out.extend_from_slice(body)?;
    seal_frame(&mut out);
    Ok(out)
}
