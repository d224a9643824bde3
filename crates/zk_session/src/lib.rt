//! A session of a client: its state, its moments, and what is kept over reconnects.
//!
//! It reads no clock and sends nothing: it is told what happened, with the moment, and says what is due.
#![tactic(auto)]

mod fields;
pub mod laws;
mod session;
mod states;

pub use fields::{ConnectFields, Response, Saved};
pub use session::Session;
pub use states::{Accepted, Due, State};
