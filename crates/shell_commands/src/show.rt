//! The command that shows one frame.

ghost use Rattle.std.specs.Prelude.{◌≡◌, ◌≢◌, ◌≤◌, ◌⊎◌, length, ◌∷◌, ◌++◌, [], List, ℕ, IfOk, IfErr, string_bytes};
ghost use Rattle.std.specs.Io.KnownBytes.{Appends};
ghost use Rattle.shell_commands.specs.Asks.{IsUndone};
ghost use Rattle.shell_commands.specs.Show.{Prints, IsOf, ShowsFrame, IsHexOf, IsNotHex, IsPayloadFault, IsFault, fault_text};
ghost use Rattle.zk_limits.specs.declared.limits.TheConstants.{LONGEST_INCOMING};

use crate::asked::print_request;
use crate::fault::ShowFault;
use crate::frame::payload_of;
use crate::kind::FrameKind;
use crate::printed::{print_record, print_reply, print_response};
use crate::shown::Notice;
use crate::status::Status;
use hex::FromHexError;
use std::alloc::Allocator;
use std::io::Write;
use zk_records::{
    ConnectRequest, CreateResponse, GetChildren2Response, GetChildrenResponse, GetDataResponse,
    ReplyHeader, RequestFault, Stat,
};

/// The bytes that a text in hex means.
fn decoded<A: Allocator + Copy>(alloc: A, hex: &str) -> Result<Vec<u8, A>, ShowFault>
    ensures ok { IfOk result (λ bytes. IsHexOf bytes.items hex.now) }
    ensures err { IfErr result (λ f. (f ≡ ShowFault.Memory) ⊎ ((f ≡ ShowFault.Hex) × IsNotHex hex.now)) }
{
    match hex::decode(alloc, hex) {
        Ok(bytes) => Ok(bytes),
        Err(FromHexError::OutOfMemory) => Err(ShowFault::Memory),
        Err(_) => Err(ShowFault::Hex),
    }
}

/// What is printed of a payload of this kind.
fn print_payload<A: Allocator + Copy>(
    alloc: A,
    kind: FrameKind,
    payload: &[u8],
) -> Result<String<A>, ShowFault>
    requires { length payload.now ≤ LONGEST_INCOMING }
    ensures prints { IfOk result (λ text. Prints (IsOf kind payload.now) payload.now (string_bytes text)) }
    ensures fault { IfErr result (λ f. (f ≡ ShowFault.Memory) ⊎ IsPayloadFault kind payload.now f) }
{
    let printed = match kind {
        FrameKind::Connect => print_record::<A, ConnectRequest<A>>(alloc, payload),
        FrameKind::Accepted => print_response(alloc, payload),
        FrameKind::Request => return Ok(print_request(alloc, payload)?),
        FrameKind::Notice => print_record::<A, Notice<A>>(alloc, payload),
        FrameKind::ReplyExists => print_reply::<A, Stat>(alloc, payload),
        FrameKind::ReplySetData => print_reply::<A, Stat>(alloc, payload),
        FrameKind::ReplyGetData => print_reply::<A, GetDataResponse<A>>(alloc, payload),
        FrameKind::ReplyGetChildren => print_reply::<A, GetChildrenResponse<A>>(alloc, payload),
        FrameKind::ReplyGetChildren2 => print_reply::<A, GetChildren2Response<A>>(alloc, payload),
        FrameKind::ReplyCreate => print_reply::<A, CreateResponse<A>>(alloc, payload),
        FrameKind::ReplyHeader => print_record::<A, ReplyHeader>(alloc, payload),
    };
    Ok(printed.map_err(RequestFault::Unread)?)
}

/// What is printed of one whole frame in hex.
fn print_frame<A: Allocator + Copy>(
    alloc: A,
    kind: FrameKind,
    hex: &str,
) -> Result<String<A>, ShowFault>
    ensures shows { IfOk result (λ text. ShowsFrame kind hex.now (string_bytes text)) }
    ensures fault { IfErr result (λ f. (f ≡ ShowFault.Memory) ⊎ IsFault kind hex.now f) }
{
    let frame = decoded(alloc, hex)?;
    let payload = payload_of(alloc, frame.as_slice())?;
    let text = print_payload(alloc, kind, payload)?;
    Ok(text)
}

/// Prints the fields of one whole frame in hex, and its bytes again. What is wrong with it is told to `errors`, and then
/// nothing is printed.
pub fn show<A: Allocator + Copy, O: Write, E: Write>(
    alloc: A,
    out: &mut O,
    errors: &mut E,
    kind: FrameKind,
    hex: &str,
) -> Status
    // What is written is the print of what the payload spells.
    ensures done { result ≡ Status.Done
        → (text : List ℕ) × ShowsFrame kind hex.now text × Appends (O.contents out.old) (O.contents out.new) text }
    ensures silent { result ≡ Status.Done → errors.new ≡ errors.old }
    // What is told is the first fault.
    ensures fault { result ≡ Status.Fault
        → (f : ShowFault) × IsFault kind hex.now f × Appends (E.contents errors.old) (E.contents errors.new) (fault_text f ++ 10 ∷ []) }
    ensures quiet { result ≡ Status.Fault → out.new ≡ out.old }
    ensures memory { result ≡ Status.Memory → (out.new ≡ out.old) × (errors.new ≡ errors.old) }
    ensures usage { result ≢ Status.Usage }
    ensures asks { IsUndone result → ⊥ }
    ensures never { result ≢ Status.NeverConnected }
    ensures more { result ≢ Status.More }
{
    match print_frame(alloc, kind, hex) {
        Ok(text) => match out.write_all(text.as_bytes()) {
            Ok(()) => Status::Done,
            Err(_) => Status::Stream,
        },
        Err(ShowFault::Memory) => Status::Memory,
        Err(fault) => match writeln!(errors, "{fault}") {
            Ok(()) => Status::Fault,
            Err(_) => Status::Stream,
        },
    }
}
