//! Input, read whole.

ghost use Rattle.std.specs.Prelude.{◌≡◌, ◌<◌, OnOk, IfOk, IfSome, vec_len};
ghost use Rattle.std.specs.Io.KnownBytes.{Consumes, IsAtEnd};
ghost use Rattle.script_words.specs.declared.input.InputFault.TheVariants as faults;

use std::alloc::{AllocError, Allocator};
use std::io::Read;

/// The most bytes that one read is asked for.
const PIECE: usize = 65_536;

/// The most reads of one input.
const READS: u32 = 1_000_000;

/// Why an input was not read whole.
#[derive(Clone, Copy)]
pub enum InputFault {
    /// A read failed, or the end did not come by the last read.
    Unread,
    /// Memory ran out.
    Memory,
}

impl From<AllocError> for InputFault {
    ghost from_gives = { λ _ f. f ≡ faults.Memory };

    fn from(_e: AllocError) -> InputFault {
        InputFault::Memory
    }
}

/// Room for what one read gives.
fn room<A: Allocator>(alloc: A) -> Result<Vec<u8, A>, AllocError>
    ensures { IfOk result (λ room. 0 < vec_len room) }
{
    vec![in alloc; 0; PIECE]
}

/// The bytes that a reader gives up to its end, by at most 1,000,000 reads of up to 65,536 bytes each.
pub fn read_whole<A: Allocator + Copy, R: Read>(
    alloc: A,
    input: &mut R,
) -> Result<Vec<u8, A>, InputFault>
    ensures whole { IfOk result (λ bytes. IfSome (R.remaining input.old) (λ all. bytes.items ≡ all)) }
    ensures end { OnOk result (IsAtEnd (R.remaining input.new)) }
{
    let mut room = room(alloc)?;
    let mut bytes = Vec::new(alloc);
    for _ in 0..READS {
        match input.read(room.as_mut_slice()) {
            Err(_) => return Err(InputFault::Unread),
            Ok(0) => return Ok(bytes),
            Ok(count) => bytes.extend_from_slice(&room[..count])?,
        }
    }
    Err(InputFault::Unread)
}
