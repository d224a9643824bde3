//! What is written whole or not at all.

ghost use Rattle.std.specs.Prelude.{◌≡◌, take, OnOk, OnErr};

use std::alloc::Allocator;
use zk_jute::PutError;

/// Takes away what was written after this length, where the writing failed.
pub(crate) fn whole_or_none<A: Allocator>(
    out: &mut Vec<u8, A>,
    start: usize,
    outcome: Result<(), PutError>,
) -> Result<(), PutError>
    ensures same { result ≡ outcome }
    ensures ok { OnOk outcome (out.new.items ≡ out.old.items) }
    ensures err { OnErr outcome (out.new.items ≡ take start out.old.items) }
{
    if outcome.is_err() {
        out.truncate(start);
    }
    outcome
}
