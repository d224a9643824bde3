//! A dial, a clock and a stream: what a session needs of the world outside.
//!
//! A program hands a [`Dial`] and a [`Clock`] to the driver of `zk_driver`, which decides nothing of a session either. [`Tcp`] dials over
//! a network and [`SystemClock`] is the system's clock; a test has its own.
#![tactic(auto)]

mod brought;
mod clock;
mod dial;
mod host;
mod tcp;

pub use brought::Brought;
pub use clock::{Clock, SystemClock};
pub use dial::{Dial, Stream};
pub use host::{Host, host_of};
pub use tcp::{Socket, Tcp};
