//! A handle of C: a value of Rattle, or nothing.

ghost use Rattle.std.specs.Prelude.{◌≡◌, ◌⊎◌, Option, Some, None, IfSome, IfNone, true, false};
ghost use Rattle.std.specs.Fn.{FnOnceReturnsAtMut};

use std::alloc::Global;

/// What C holds of a value, or of nothing.
pub trait Handle: Drop {
    /// What it may hold.
    type Value: Drop;

    ghost held: { Self → Option Self.Value };

    /// A handle of nothing.
    fn closed(alloc: Global) -> Self
        ensures { held result ≡ None };

    /// A handle of this value.
    fn of(value: Box<Self::Value, Global>) -> Self
        ensures { held result ≡ Some value.value };

    /// The value of a handle, if it has one.
    fn into_box(self) -> Option<Box<Self::Value, Global>>
        ensures some { IfSome result (λ value. held self ≡ Some value.value) }
        ensures none { IfNone result (held self ≡ None) };
}

/// Takes the value of a handle, if it has one.
pub fn take_value<H: Handle>(alloc: Global, handle: &mut H) -> Option<Box<H::Value, Global>>
    ensures some { IfSome result (λ value. H.held handle.old ≡ Some value.value) }
    ensures none { IfNone result (H.held handle.old ≡ None) }
    ensures rest { H.held handle.new ≡ None }
{
    std::mem::replace(handle, H::closed(alloc)).into_box()
}

/// Does this with the value of a handle, if it has one, and puts it back.
pub fn drive<H: Handle, R, F: FnOnce(&mut H::Value) -> R>(
    alloc: Global,
    handle: &mut H,
    step: F,
) -> Option<R>
    requires { F.IsAlwaysCallable step }
    ensures none { IfNone result ((H.held handle.old ≡ None) × (H.held handle.new ≡ None)) }
    ensures some { IfSome result (λ done. (before : H.Value) × (after : H.Value) × (H.held handle.old ≡ Some before)
        × (H.held handle.new ≡ Some after) × FnOnceReturnsAtMut F.FnOnce step before done after) }
{
    let mut value = take_value(alloc, handle)?;
    let done = step(&mut value);
    *handle = H::of(value);
    Some(done)
}

/// Has a handle hold this value, and tells whether there was memory for it. Where there was none, the handle is left as it was.
pub fn hold<H: Handle>(alloc: Global, handle: &mut H, value: H::Value) -> bool
    ensures { ((result ≡ true) × (H.held handle.new ≡ Some value)) ⊎ ((result ≡ false) × (H.held handle.new ≡ H.held handle.old)) }
{
    match Box::new(alloc, value) {
        Ok(held) => {
            *handle = H::of(held);
            true
        }
        Err(failed) => {
            drop(failed);
            false
        }
    }
}
