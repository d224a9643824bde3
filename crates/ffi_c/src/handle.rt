//! What C holds of a session.

ghost use Rattle.std.specs.Prelude.{◌≡◌, IfSome, IfNone, Some, None, is_some};

use crate::slot::SessionSlot;
use ffi_device::Device;
use ffi_handles::{Handle, Slot};
use std::alloc::Global;

/// A session, or nothing. C makes the first one of zeros.
#[repr(C)]
pub struct DwSession {
    is_open: bool,
    slot: SessionSlot,
    ghost told: { is_open ≡ is_some slot.held },
}

impl Handle for DwSession {
    type Value = Device;

    ghost held = { λ handle. handle.slot.held };

    fn closed(alloc: Global) -> DwSession
        ensures { result.slot.held ≡ None }
    {
        DwSession {
            is_open: false,
            slot: SessionSlot::of(Slot::empty(alloc)),
        }
    }

    fn of(session: Box<Device, Global>) -> DwSession
        ensures { result.slot.held ≡ Some session.value }
    {
        DwSession {
            is_open: true,
            slot: SessionSlot::of(Slot::of(session)),
        }
    }

    fn into_box(self) -> Option<Box<Device, Global>>
        ensures some { IfSome result (λ b. self.slot.held ≡ Some b.value) }
        ensures none { IfNone result (self.slot.held ≡ None) }
    {
        let DwSession { is_open, slot } = self;
        if is_open {
            return Some(slot.into_slot().into_box());
        }
        None
    }
}

impl Drop for DwSession {
    fn drop(self) {
        let _ = self.into_box();
    }
}
