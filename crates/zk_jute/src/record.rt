//! What can be written and read.

ghost use Rattle.std.specs.Prelude.{◌≡◌, ◌++◌, ℕ, Bool, List, length, take, IfOk, OnOk, OnErr, IsErrOf, IsTrue, MatchResult};
ghost use Rattle.zk_jute.specs.Layout.{Layout, Value};
ghost use Rattle.zk_jute.specs.Spelling.{spelling, Fits};
ghost use Rattle.zk_jute.specs.Reading.{reading, Gives};
ghost use Rattle.zk_jute.specs.inner.Laws.{one_spelling as one_spelling_of};
ghost use Rattle.zk_jute.specs.Cursor.{bytes_left, payload_len};

use crate::cursor::Cursor;
use crate::fault::{PutError, TakeError};
use std::alloc::Allocator;

/// A value with one spelling, which is written into memory of `A`.
///
/// An impl gives `write`, a line for each field. Callers use `put`, which leaves everything as it was where it fails;
/// inside a record's own `write` the fields' `write` is enough.
///
/// The layout's rules are those of the encoding, except for three that are this project's own: a length or a count below
/// -1, a boolean byte above 1, and text that is not UTF-8 spell nothing, and are refused.
pub trait Record<A: Allocator + Copy>: Sized {
    /// The fields, in their order.
    ghost layout: { Layout };

    /// The value that is spelled.
    ghost view: { Self → Value layout };

    /// Writes the spelling at the end of `out`. An `Err` may leave a part of it there.
    fn write(&self, out: &mut Vec<u8, A>) -> Result<(), PutError>
        ensures ok { OnOk result (out.new.items ≡ out.old.items ++ spelling layout (view self.now)) }
        ensures fits { OnOk result (Fits layout (view self.now)) }
        ensures too_long { IsErrOf result PutError.TooLong → Fits layout (view self.now) → ⊥ }
        ensures begun { take (length out.old.items) out.new.items ≡ out.old.items };

    /// No spelling begins another.
    ghost one_spelling: { (a b : Value layout) (x y : List ℕ) → Fits layout a → Fits layout b
        → spelling layout a ++ x ≡ spelling layout b ++ y → (a ≡ b) × (x ≡ y) } = { one_spelling_of layout };

    /// Writes the spelling at the end of `out`.
    ///
    /// # Errors
    ///
    /// `TooLong` where a length or a count in it is above 2,147,483,647, `Memory` where `out` could not grow. Both
    /// leave `out` as it was.
    final fn put(&self, out: &mut Vec<u8, A>) -> Result<(), PutError>
        ensures ok { OnOk result (out.new.items ≡ out.old.items ++ spelling layout (view self.now)) }
        ensures fits { OnOk result (Fits layout (view self.now)) }
        ensures too_long { IsErrOf result PutError.TooLong → Fits layout (view self.now) → ⊥ }
        ensures err { OnErr result (out.new.items ≡ out.old.items) }
    {
        let start = out.len();
        let outcome = self.write(out);
        if outcome.is_err() {
            out.truncate(start);
        }
        outcome
    }
}

/// A record that is read. What it owns lies in memory of `A`, and what it is lent lives as long as `'a`.
///
/// An impl gives `read`, a line for each field. Callers use `take`, which leaves the cursor as it was where it fails.
pub trait Readable<'a, A: Allocator + Copy>: Record<A> {
    /// Whether reading takes memory. Where not, it never answers `Memory`.
    ghost takes_memory: { Bool };

    /// Reads the value at the cursor, and moves past it. After an `Err` the cursor may stand anywhere.
    fn read(alloc: A, at: &mut Cursor<'a>) -> Result<Self, TakeError>
        ensures len { payload_len at.new ≡ payload_len at.old }
        ensures gives { Gives Self.view result (bytes_left at.new) (reading Self.layout (payload_len at.old) (bytes_left at.old)) }
        ensures memory { IsErrOf result TakeError.Memory → IsTrue takes_memory };
}

/// Reads the value whose spelling begins the bytes at the cursor, and moves past it. What stands after is not
/// looked at.
///
/// # Errors
///
/// The first fault from left to right, with its place, or `Memory` where the allocator refused a request. All leave
/// the cursor where it was.
pub fn take<'a, A: Allocator + Copy, R: Readable<'a, A>>(
    alloc: A,
    at: &mut Cursor<'a>,
) -> Result<R, TakeError>
    // What is read is spelled so.
    ensures found { IfOk result (λ x. Fits R.layout (R.view x) × (bytes_left at.old ≡ spelling R.layout (R.view x) ++ bytes_left at.new)) }
    // What is spelled so is read, unless memory runs out.
    ensures only { (value : Value R.layout) (rest : List ℕ) → Fits R.layout value → bytes_left at.old ≡ spelling R.layout value ++ rest
        → MatchResult result (λ x. (R.view x ≡ value) × (bytes_left at.new ≡ rest)) (λ e. e ≡ TakeError.Memory) }
    // Which fault it is.
    ensures exact { Gives R.view result (bytes_left at.new) (reading R.layout (payload_len at.old) (bytes_left at.old)) }
    ensures memory { IsErrOf result TakeError.Memory → IsTrue R.takes_memory }
    ensures len { payload_len at.new ≡ payload_len at.old }
    ensures err { OnErr result (at.new ≡ at.old) }
{
    let mut next = *at;
    let value = R::read(alloc, &mut next)?;
    *at = next;
    Ok(value)
}
