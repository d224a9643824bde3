//! A value on the heap at a pointer, or nothing.

ghost use Rattle.std.specs.Prelude.{◌≡◌, Option, Some, None, IsSome};
ghost use Rattle.std.specs.Coded.{coded_option};
ghost use Rattle.ffi_handles.specs.Owned.{owned};

use std::alloc::Allocator;
use std::marker::Model;

/// A value on the heap, or nothing: a `Box` with its fields in sight.
#[derive(Drop)]
pub struct Slot<T, A: Allocator> {
    pub at: *mut T,
    pub alloc: A,
    pub ghost held: { Option T } by { coded_option T.code },
}

impl<T, A: Allocator> Model for Slot<T, A> {
    ghost also_owns = { λ slot. owned T.row (A.dealloc_token slot.alloc) slot.at slot.held };
}

impl<T, A: Allocator> Slot<T, A> {
    /// A slot with nothing.
    pub fn empty(alloc: A) -> Slot<T, A>
        ensures { result.held ≡ None }
    {
        Slot {
            at: std::ptr::null_mut(),
            alloc,
        }
    }

    /// A slot with this value.
    pub fn of(value: Box<T, A>) -> Slot<T, A>
    where
        T: Drop,
        ensures { result.held ≡ Some value.value }
    {
        let (at, alloc) = Box::into_raw_with_allocator(value);
        Slot { at, alloc }
    }

    /// The value of a slot that has one.
    pub fn into_box(self) -> Box<T, A>
        requires { IsSome self.held }
        ensures { Some result.value ≡ self.held }
    {
        let Slot { at, alloc } = self;
        unsafe { Box::from_raw(alloc, at) }
    }
}

unsafe impl<T: Send, A: Allocator + Send> Send for Slot<T, A> {}
