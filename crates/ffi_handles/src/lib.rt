//! What a handle that C holds leads to: a value of Rattle on the heap, or nothing.
#![tactic(auto)]

mod handle;
mod slot;

pub use handle::{Handle, drive, hold, take_value};
pub use slot::Slot;
