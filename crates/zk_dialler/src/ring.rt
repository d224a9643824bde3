//! The places of the addresses, in a random order.

ghost use Rattle.std.specs.Prelude.{◌≡◌, ◌+◌, ◌++◌, Bool, true, false, length, is_some, not, IfSome, IfOk, IfErr, OnOk, None, slice_index};
ghost use Rattle.std.specs.List.{filter};
ghost use Rattle.std.specs.List.Sorted.{IsPermutation};
ghost use Rattle.zk_dialler.specs.Chances.{state_after};
ghost use Rattle.zk_dialler.specs.Moves.{grouped, is_ahead, order_of};
ghost use Rattle.zk_dialler.specs.Orders.{is_empty_list, numbers, shuffled, turn_at};

use crate::chance::Chance;
use std::alloc::{AllocError, Allocator, Global};

/// The places of this many addresses in a random order, and whose turn it is. After the last the first comes again.
#[derive(Drop)]
pub(crate) struct Ring<A: Allocator = Global> {
    pub(crate) order: Vec<usize, A>,
    pub(crate) next: usize,
}

/// The numbers below this one, in order.
#[tactic(auto, using(crate::proofs::Shuffling::numbers_step))]
fn numbers<A: Allocator>(alloc: A, count: usize) -> Result<Vec<usize, A>, AllocError>
    ensures { IfOk result (λ order. order.items ≡ numbers count) }
{
    let mut order = Vec::new(alloc);
    for number in 0..count {
        order.push(number)?;
    }
    Ok(order)
}

/// Shuffles them: each place from the last one on is exchanged with a random one up to it.
#[tactic(auto, using(crate::proofs::Shuffling::shuffled_step))]
fn shuffle(order: &mut [usize], chance: &mut Chance)
    ensures exact { order.new ≡ shuffled chance.old.state (length order.old) order.old }
    ensures same { IsPermutation order.old order.new }
    ensures chance { chance.new.state ≡ state_after (length order.old) chance.old.state }
{
    let mut left = order.len();
    while left > 0 {
        chance.advance();
        let place = chance.below(left as u64) as usize;
        order.swap(left - 1, place);
        left -= 1;
    }
}

/// Whether a place is in the group that is tried first.
fn is_ahead(kept: usize, kept_first: bool, place: usize) -> bool
    ensures { result ≡ is_ahead kept kept_first place }
{
    (place < kept) == kept_first
}

/// Adds those places that are in one of the groups.
fn add_group<A: Allocator>(
    kept: usize,
    kept_first: bool,
    places: &[usize],
    order: &mut Vec<usize, A>,
) -> Result<(), AllocError>
    ensures { OnOk result (order.new.items ≡ order.old.items ++ filter (is_ahead kept kept_first) places.now) }
{
    for place in places {
        if is_ahead(kept, kept_first, *place) {
            order.push(*place)?;
        }
    }
    Ok(())
}

impl<A: Allocator + Copy> Ring<A> {
    /// The same for a session that moves or stays: if it moves, the places below `kept` come before the others, or after them.
    pub(crate) fn regrouped(
        self,
        alloc: A,
        moves: bool,
        kept: usize,
        kept_first: bool,
    ) -> Result<Ring<A>, AllocError>
        ensures order { IfOk result (λ ring. ring.order.items ≡ order_of moves kept_first kept self.order.items) }
        ensures each { IfOk result (λ ring. IsPermutation self.order.items ring.order.items) }
        ensures first { IfOk result (λ ring. self.next ≡ 0 → ring.next ≡ 0) }
    {
        if !moves {
            return Ok(self);
        }
        let mut order = Vec::new(alloc);
        add_group(kept, kept_first, self.order.as_slice(), &mut order)?;
        add_group(kept, !kept_first, self.order.as_slice(), &mut order)?;
        Ok(Ring { order, next: 0 })
    }
}

impl<A: Allocator> Ring<A> {
    /// This many addresses, in a random order.
    #[tactic(auto, using(crate::proofs::Shuffling::length_numbers))]
    pub(crate) fn new(alloc: A, count: usize, chance: &mut Chance) -> Result<Ring<A>, AllocError>
        ensures order { IfOk result (λ ring. ring.order.items ≡ shuffled chance.old.state count (numbers count)) }
        ensures each { IfOk result (λ ring. IsPermutation (numbers count) ring.order.items) }
        ensures first { IfOk result (λ ring. ring.next ≡ 0) }
        ensures chance { IfOk result (λ ring. chance.new.state ≡ state_after count chance.old.state) }
        ensures same { IfErr result (λ fault. chance.new ≡ chance.old) }
    {
        let mut order = numbers(alloc, count)?;
        shuffle(order.as_mut_slice(), chance);
        Ok(Ring { order, next: 0 })
    }

    /// How many addresses there are.
    pub(crate) fn count(&self) -> usize
        ensures { result ≡ length self.now.order.items }
    {
        self.order.len()
    }

    /// Whether there are no addresses.
    pub(crate) fn is_empty(&self) -> bool
        ensures { result ≡ is_empty_list self.now.order.items }
    {
        self.order.is_empty()
    }

    /// The place of the address whose turn it is, and none where there are no addresses. The turn goes on to the next one.
    pub(crate) fn turn(&mut self) -> Option<usize>
        ensures place { IfSome result
            (λ place. place ≡ slice_index self.old.order.items (turn_at self.old.next (length self.old.order.items))) }
        ensures order { self.new.order ≡ self.old.order }
        ensures next { IfSome result (λ place. self.new.next ≡ turn_at self.old.next (length self.old.order.items) + 1) }
        ensures none { result ≡ None → self.new ≡ self.old }
        ensures empty { is_some result ≡ not (is_empty_list self.old.order.items) }
    {
        let at = if self.next < self.order.len() {
            self.next
        } else {
            0
        };
        let place = *self.order.get(at)?;
        self.next = at + 1;
        Some(place)
    }
}
