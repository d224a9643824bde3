//! The data of a node.

ghost use Rattle.std.specs.Prelude.{◌≡◌, IfOk};
ghost use Rattle.std.specs.Option.{option_map};

use std::alloc::{AllocError, Allocator};

/// The data of a node, which may be null, in memory of their own. An error says that this memory ran out.
pub fn copied_data<A: Allocator>(
    alloc: A,
    bytes: Option<&[u8]>,
) -> Result<Option<Vec<u8, A>>, AllocError>
    ensures { IfOk result (λ copy. option_map (λ v. v.items) copy ≡ option_map (λ b. b.now) bytes.entry) }
{
    match bytes {
        None => Ok(None),
        Some(bytes) => Ok(Some(Vec::from_slice(alloc, bytes)?)),
    }
}
