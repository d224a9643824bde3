//! The paths that a client watches, in the order of registration, and their parts for the request to set them again.
//!
//! It knows no server and no answers: it is told where a read left a watch, and which event came.
#![tactic(auto)]

mod conformance;
mod in_order;
pub mod laws;
mod numbered;
mod ordered;
mod parts;
mod register_fault;
mod registry;

pub use in_order::InOrder;
pub use register_fault::RegisterFault;
pub use registry::{Fired, Registry};
