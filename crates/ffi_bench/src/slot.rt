//! A server on the heap at a pointer that C may hold.

ghost use Rattle.std.specs.Prelude.{◌≡◌, Option};
ghost use Rattle.std.specs.Coded.{coded_option};
ghost use Rattle.std.specs.contracts.impls.GlobalAllocator.TheImpl.{ghosts};
ghost use Rattle.ffi_handles.specs.Owned.{owned};
ghost use Rattle.ffi_server.specs.contracts.server.MemoryServer.{the_row};
ghost use Rattle.ffi_server.specs.declared.server.MemoryServer.{MemoryServer};

use ffi_handles::Slot;
use ffi_server::MemoryServer;
use std::alloc::Global;
use std::marker::Model;

/// A server on the heap, or nothing: a `Slot` for C's memory, if no type has a parameter.
#[repr(C)]
#[derive(Drop)]
pub struct ServerSlot {
    at: *mut u8,
    alloc: Global,
    pub ghost held: { Option MemoryServer } by { coded_option the_row.coded },
}

impl Model for ServerSlot {
    ghost also_owns = { λ slot. owned the_row (ghosts.dealloc_token slot.alloc) slot.at slot.held };
}

impl ServerSlot {
    /// What this slot holds, for C.
    pub fn of(slot: Slot<MemoryServer, Global>) -> ServerSlot
        ensures { result.held ≡ slot.held }
    {
        let Slot { at, alloc } = slot;
        ServerSlot {
            at: at.cast::<u8>(),
            alloc,
        }
    }

    /// What it holds, for Rattle.
    pub fn into_slot(self) -> Slot<MemoryServer, Global>
        ensures { result.held ≡ self.held }
    {
        let ServerSlot { at, alloc } = self;
        Slot {
            at: at.cast::<MemoryServer>(),
            alloc,
        }
    }
}

unsafe impl Send for ServerSlot {}
