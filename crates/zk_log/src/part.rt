//! The parts of a multi.

ghost use Rattle.std.specs.Prelude.{◌≡◌, ◌≢◌, ◌<◌, Ok, Err, IfOk, IfErr, MatchResult, length};
ghost use Rattle.zk_jute.specs.declared.fault.TakeError.TheVariants as take_errors;
ghost use Rattle.zk_log.specs.declared.entry_fault.EntryFault.TheVariants as faults;
ghost use Rattle.zk_log.specs.Parts.{part_at, operation_of};

use crate::entry_fault::EntryFault;
use crate::kind::TxnKind;
use crate::txn::Txn;
use std::alloc::Allocator;
use zk_jute::Cursor;

/// An operation, if no bytes are left after it.
fn whole_part<'a, 'b, A: Allocator + Copy>(
    txn: Txn<'a, A>,
    place: usize,
    rest: &'b [u8],
) -> Result<Txn<'a, A>, EntryFault>
    ensures ok { IfOk result (λ t. (operation_of t ≡ operation_of txn.entry) × (length rest.entry.now ≡ 0)) }
    ensures err { IfErr result (λ e. (e ≡ EntryFault.Trailing place) × (0 < length rest.entry.now)) }
{
    if rest.is_empty() {
        Ok(txn)
    } else {
        drop(txn);
        Err(EntryFault::Trailing(place))
    }
}

impl<'a, A: Allocator + Copy> Txn<'a, A> {
    /// The operation that a part of a multi is, by its number and its bytes, all of them.
    ///
    /// # Errors
    ///
    /// The first fault from left to right, or `Unread(Memory)` if the allocator refused a request. Places are counted from the part's first
    /// byte.
    pub fn of_part(alloc: A, number: i32, bytes: &'a [u8]) -> Result<Txn<'a, A>, EntryFault>
        ensures { MatchResult result (λ t. part_at number bytes.entry.now ≡ Ok (operation_of t))
            (λ e. e ≢ faults.Unread take_errors.Memory → part_at number bytes.entry.now ≡ Err e) }
    {
        match TxnKind::at(number, bytes) {
            None => Err(EntryFault::Unknown(number)),
            Some(kind) => {
                let mut at = Cursor::new(bytes);
                let txn = Txn::read(alloc, kind, &mut at)?;
                whole_part(txn, at.place(), at.rest())
            }
        }
    }
}
