//! A session on the heap at a pointer that C may hold.

ghost use Rattle.std.specs.Prelude.{◌≡◌, Option};
ghost use Rattle.std.specs.Coded.{coded_option};
ghost use Rattle.std.specs.contracts.impls.GlobalAllocator.TheImpl.{ghosts};
ghost use Rattle.ffi_device.specs.contracts.device.Device.{the_row};
ghost use Rattle.ffi_device.specs.declared.device.Device.{Device};
ghost use Rattle.ffi_handles.specs.Owned.{owned};

use ffi_device::Device;
use ffi_handles::Slot;
use std::alloc::Global;
use std::marker::Model;

/// A session on the heap, or nothing: a `Slot` for C's memory, if no type has a parameter.
#[repr(C)]
#[derive(Drop)]
pub struct SessionSlot {
    at: *mut u8,
    alloc: Global,
    pub ghost held: { Option Device } by { coded_option the_row.coded },
}

impl Model for SessionSlot {
    ghost also_owns = { λ slot. owned the_row (ghosts.dealloc_token slot.alloc) slot.at slot.held };
}

impl SessionSlot {
    /// What this slot holds, for C.
    pub fn of(slot: Slot<Device, Global>) -> SessionSlot
        ensures { result.held ≡ slot.held }
    {
        let Slot { at, alloc } = slot;
        SessionSlot {
            at: at.cast::<u8>(),
            alloc,
        }
    }

    /// What it holds, for Rattle.
    pub fn into_slot(self) -> Slot<Device, Global>
        ensures { result.held ≡ self.held }
    {
        let SessionSlot { at, alloc } = self;
        Slot {
            at: at.cast::<Device>(),
            alloc,
        }
    }
}

unsafe impl Send for SessionSlot {}
