//! Which server is dialled, when, and for how long.
//!
//! A [`Dialler`] says when a connection is to be asked for, at which address, and when the attempt is given up. It does no I/O, reads no
//! clock and sees no address: it names places of the caller's list, in an order by a seed, so that the clients of one list begin at
//! different servers. A [`Backoff`] is the first moment of the next attempt: the pause grows with each attempt that has failed, random
//! by the same seed, so that the clients of a server that was lost do not come back at one moment. All of it is an exact function of the
//! seed.
#![tactic(auto)]

mod backoff;
mod chance;
mod dialler;
mod moves;
mod pause;
mod ring;

pub use backoff::Backoff;
pub use chance::Chance;
pub use dialler::{DialDue, Dialler};
pub use pause::pause_after;
