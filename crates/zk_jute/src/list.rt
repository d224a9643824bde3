//! Lists that may be null: vectors of the encoding, an int count and that many elements, or the count -1.

ghost use Rattle.std.specs.Prelude.{◌≡◌, ◌<◌, ◌≤◌, ◌*◌, ◌^◌, ◌++◌, pos, length, map, take, OnOk, IsErrOf, true};
ghost use Rattle.std.specs.List.{flat_map, AllByRecursion};
ghost use Rattle.std.specs.Option.{option_map};
ghost use Rattle.zk_jute.specs.Layout.{vector};
ghost use Rattle.zk_jute.specs.Spelling.{int_bytes, spelling, Fits};
ghost use Rattle.zk_jute.specs.Reading.{reading, elements_at, Gives};
ghost use Rattle.zk_jute.specs.Cursor.{bytes_left, payload_len};
ghost use Rattle.zk_jute.specs.Lenient.{or_empty};

use crate::cursor::Cursor;
use crate::fault::{PutError, TakeError};
use crate::length::write_length;
use crate::record::{Readable, Record};
use std::alloc::Allocator;

/// Elements, or null.
///
/// Reading takes memory by what is there and never by the count alone: at first room for as many elements as the rest of the
/// payload may hold, at four bytes each, and for no more than the count says; then as they come. So a short payload with a large
/// count costs little.
#[derive(Drop)]
pub struct List<R, A: Allocator> {
    pub elements: Option<Vec<R, A>>,
}

impl<R, A: Allocator> List<R, A> {
    /// The elements, where null counts as none.
    pub fn or_empty(&self) -> &[R]
        ensures { result.now ≡ or_empty (option_map (λ v. v.items) self.now.elements) }
    {
        match &self.elements {
            None => &[],
            Some(elements) => elements.as_slice(),
        }
    }
}

/// Elements that are lent, or null. It is written as a `List` of the same elements.
#[derive(Clone, Copy)]
pub struct ListRef<'a, R> {
    pub elements: Option<&'a [R]>,
}

/// Writes each element.
fn write_elements<A: Allocator + Copy, R: Record<A>>(
    elements: &[R],
    out: &mut Vec<u8, A>,
) -> Result<(), PutError>
    ensures ok { OnOk result (out.new.items ≡ out.old.items ++ flat_map (spelling R.layout) (map R.view elements.now)) }
    ensures fits { OnOk result (AllByRecursion (Fits R.layout) (map R.view elements.now)) }
    ensures too_long { IsErrOf result PutError.TooLong → AllByRecursion (Fits R.layout) (map R.view elements.now) → ⊥ }
    ensures begun { take (length out.old.items) out.new.items ≡ out.old.items }
{
    for element in elements {
        element.write(out)?;
    }
    Ok(())
}

/// Writes how many elements there are, and each of them.
fn write_counted<A: Allocator + Copy, R: Record<A>>(
    elements: &[R],
    out: &mut Vec<u8, A>,
) -> Result<(), PutError>
    ensures ok { OnOk result (out.new.items
        ≡ out.old.items ++ (int_bytes (pos (length elements.now)) ++ flat_map (spelling R.layout) (map R.view elements.now))) }
    ensures fits { OnOk result ((length elements.now < 2 ^ 31) × AllByRecursion (Fits R.layout) (map R.view elements.now)) }
    ensures too_long { IsErrOf result PutError.TooLong → length elements.now < 2 ^ 31
        → AllByRecursion (Fits R.layout) (map R.view elements.now) → ⊥ }
    ensures begun { take (length out.old.items) out.new.items ≡ out.old.items }
{
    write_length(elements.len(), out)?;
    write_elements(elements, out)?;
    Ok(())
}

/// How many elements there is to be room for at first: the count, but no more than what is left may hold, at four bytes each.
fn first_room(count: usize, at: &Cursor<'_>) -> usize
    ensures count { result ≤ count }
    ensures left { result * 4 ≤ length (bytes_left at.now) }
{
    count.min(at.rest().len() / 4)
}

/// Reads as many elements. The memory for them is taken by what is left, and then as they come.
fn read_elements<'a, A: Allocator + Copy, R: Readable<'a, A> + Drop>(
    alloc: A,
    count: usize,
    at: &mut Cursor<'a>,
) -> Result<Vec<R, A>, TakeError>
    ensures len { payload_len at.new ≡ payload_len at.old }
    ensures gives { Gives (λ v. map R.view v.items) result (bytes_left at.new)
        (elements_at (reading R.layout (payload_len at.old)) count (bytes_left at.old)) }
{
    let mut elements = Vec::with_capacity(alloc, first_room(count, at))?;
    for _ in 0..count {
        let element = R::read(alloc, at)?;
        elements.push(element)?;
    }
    Ok(elements)
}

impl<A: Allocator + Copy, R: Record<A>> Record<A> for List<R, A> {
    ghost layout = { vector R.layout };

    ghost view = { λ l. option_map (λ v. map R.view v.items) l.elements };

    #[tactic(auto, unfolding(crate::specs::Spelling::counted_bytes))]
    fn write(&self, out: &mut Vec<u8, A>) -> Result<(), PutError> {
        match &self.elements {
            None => (-1i32).write(out),
            Some(elements) => {
                write_counted(elements.as_slice(), out)?;
                Ok(())
            }
        }
    }
}

impl<'a, A: Allocator + Copy, R: Readable<'a, A> + Drop> Readable<'a, A> for List<R, A> {
    ghost takes_memory = { true };

    #[tactic(auto, unfolding(crate::specs::Reading::counted_at))]
    fn read(alloc: A, at: &mut Cursor<'a>) -> Result<List<R, A>, TakeError> {
        let elements = match at.length()? {
            None => None,
            Some(count) => Some(read_elements(alloc, count, at)?),
        };
        Ok(List { elements })
    }
}

impl<'a, A: Allocator + Copy, R: Record<A>> Record<A> for ListRef<'a, R> {
    ghost layout = { vector R.layout };

    ghost view = { λ l. option_map (λ s. map R.view s.now) l.elements };

    #[tactic(auto, unfolding(crate::specs::Spelling::counted_bytes))]
    fn write(&self, out: &mut Vec<u8, A>) -> Result<(), PutError> {
        match self.elements {
            None => (-1i32).write(out),
            Some(elements) => {
                write_counted(elements, out)?;
                Ok(())
            }
        }
    }
}
