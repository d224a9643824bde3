//! A list of texts without repeats, in the order in which they came.
ghost use Rattle.std.specs.Prelude.{◌≡◌, [], length, true, not, IsOk, OnOk, OnErr, IfOk, map, Some, None, option_map, string_bytes};
ghost use Rattle.std.specs.Prelude.{if◌then◌else◌};
ghost use Rattle.zk_watches.specs.Lists.{has, with_path, without};

use crate::numbered::{Numbers, count, is_in, list_below, next_number, put_last, take_out};
use indexmap::IndexMap;
use std::alloc::{AllocError, Allocator};
use std::marker::Model;

/// Texts in the order in which they came. Each has a number, and a text that comes takes a greater one.
#[derive(Drop)]
pub(crate) struct Ordered<A: Allocator + Copy> {
    alloc: A,
    numbers: Numbers<A>,
    next: u32,
}

impl<A: Allocator + Copy> Model for Ordered<A> {
    ghost use Rattle.std.specs.Prelude.{ℕ, List};
    ghost use Rattle.zk_watches.specs.Numbered.{in_order, rows_of};
    ghost use Rattle.zk_watches.specs.inner.Numbered.{IsNumbered};

    ghost Value = { List (List ℕ) };

    ghost view = { λ o. in_order o.numbers };

    ghost invariant = { λ o. IsNumbered (rows_of o.numbers) o.next };
}

impl<A: Allocator + Copy> Ordered<A> {
    pub(crate) fn new(alloc: A) -> Self
        ensures { result ≡ [] }
    {
        Ordered {
            alloc,
            numbers: IndexMap::new(alloc),
            next: 0,
        }
    }

    pub(crate) fn len(&self) -> usize
        ensures { result ≡ length self.now }
    {
        count(&self.numbers)
    }

    pub(crate) fn contains(&self, text: &str) -> bool
        ensures { result ≡ has self.now text.now }
    {
        is_in(&self.numbers, text)
    }

    /// Puts the text last, and tells whether it is new. One that is there already stays, also where there is no memory.
    pub(crate) fn add(&mut self, text: &str) -> Result<bool, AllocError>
        ensures ok { OnOk result (self.new ≡ with_path self.old text.now) }
        ensures is_new { IfOk result (λ is_new. is_new ≡ not (has self.old text.now)) }
        ensures there { has self.old text.now ≡ true → IsOk result }
        ensures err { OnErr result (self.new ≡ self.old) }
    {
        // Most texts that come are new. Memory is taken before a text is looked for, so that it is hashed once.
        match self.put_last(text) {
            Ok(is_new) => Ok(is_new),
            Err(fault) => {
                if self.contains(text) {
                    return Ok(false);
                }
                Err(fault)
            }
        }
    }

    // The same, but memory is taken for a text that is there too.
    fn put_last(&mut self, text: &str) -> Result<bool, AllocError>
        ensures ok { OnOk result (self.new ≡ with_path self.old text.now) }
        ensures is_new { IfOk result (λ is_new. is_new ≡ not (has self.old text.now)) }
        ensures err { OnErr result (self.new ≡ self.old) }
    {
        self.next = next_number(self.alloc, &mut self.numbers, self.next)?;
        let is_new = put_last(
            &mut self.numbers,
            String::from_str(self.alloc, text)?,
            self.next,
        )?;
        if is_new {
            self.next += 1;
        }
        Ok(is_new)
    }

    /// Takes the text out, in constant time and no memory, and gives it.
    pub(crate) fn take_out(&mut self, text: &str) -> Option<String<A>>
        ensures found { option_map string_bytes result ≡ (if has self.old text.now then Some text.now else None) }
        ensures rest { self.new ≡ without self.old text.now }
    {
        take_out(&mut self.numbers, text)
    }

    pub(crate) fn clear(&mut self)
        ensures { self.new ≡ [] }
    {
        self.numbers.clear();
        self.next = 0;
    }

    /// The texts in order.
    pub(crate) fn list(&self) -> Result<Vec<&str, A>, AllocError>
        ensures { IfOk result (λ texts. map (λ text. text.now) texts.items ≡ self.now) }
    {
        list_below(self.alloc, &self.numbers, self.next)
    }
}
