//! What C holds of a server.

ghost use Rattle.std.specs.Prelude.{◌≡◌, IfSome, IfNone, Some, None, is_some};

use crate::slot::ServerSlot;
use ffi_handles::{Handle, Slot};
use ffi_server::MemoryServer;
use std::alloc::Global;

/// A server, or nothing. C makes the first one of zeros.
#[repr(C)]
pub struct DwBench {
    is_open: bool,
    slot: ServerSlot,
    ghost told: { is_open ≡ is_some slot.held },
}

impl Handle for DwBench {
    type Value = MemoryServer;

    ghost held = { λ handle. handle.slot.held };

    fn closed(alloc: Global) -> DwBench
        ensures { result.slot.held ≡ None }
    {
        DwBench {
            is_open: false,
            slot: ServerSlot::of(Slot::empty(alloc)),
        }
    }

    fn of(server: Box<MemoryServer, Global>) -> DwBench
        ensures { result.slot.held ≡ Some server.value }
    {
        DwBench {
            is_open: true,
            slot: ServerSlot::of(Slot::of(server)),
        }
    }

    fn into_box(self) -> Option<Box<MemoryServer, Global>>
        ensures some { IfSome result (λ b. self.slot.held ≡ Some b.value) }
        ensures none { IfNone result (self.slot.held ≡ None) }
    {
        let DwBench { is_open, slot } = self;
        if is_open {
            return Some(slot.into_slot().into_box());
        }
        None
    }
}

impl Drop for DwBench {
    fn drop(self) {
        let _ = self.into_box();
    }
}
