//! An agent over a dial, a clock and a connection: a session for a program that decides nothing of it.
//!
//! A [`Driver`] has an agent of `zk_agent`, and does what that says: it dials, hangs up, writes and reads, waits for bytes or for the
//! agent's deadline, and tells the agent what has happened, with the clock's moment. What else the agent says, [`Driver::next`] gives to
//! the program, one action after the other; [`Driver::turn`] tells of each connection too. [`laws`] says what follows of the bytes of a
//! connection.
#![tactic(auto)]

mod bring;
mod channel;
mod driver;
mod engine;
pub mod laws;
mod look;
mod places;
mod reason;
mod send;
mod stop;
mod turn;
mod wait;

pub use driver::Driver;
pub use reason::Reason;
pub use stop::Stop;
pub use turn::Turn;
pub use zk_agent::{Action, Agent, Settings};
pub use zk_follow::Refusal;
pub use zk_trees::TreeNews;
