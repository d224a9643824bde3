//! A client of ZooKeeper as a machine: bytes, moments and calls go in, and bytes, answers and reports come out. It is the one crate
//! that a program imports: it re-exports each type that its functions name.
//!
//! [`Client::step_at`] takes one input with the moment at which it was noticed, and [`Client::deadline`] tells when to wake at the
//! latest. It reads no socket and no clock: a program that wants a session with both, which dials, follows nodes and begins again by
//! itself, uses `zk_driver`, which is built on this crate. What it says and keeps is said once, over lists of turns, in the definitions of
//! `zk_turns`; [`laws`] names what holds of each client that stands where its turns have led.
//!
//! A type that owns memory has its allocator for its last parameter, and is over the global heap where that is left out:
//! [`Client`] is `Client<Global>`.
#![tactic(auto)]

mod arrivals;
mod call_result;
mod calls;
mod client;
mod connections;
mod copies;
mod fault;
mod frames;
mod input;
pub mod laws;
mod machine;
mod output;
mod outside;
mod renewal;
mod replies;
mod running;
mod saved_fault;
mod saved_record;
mod saved_session;
mod ticks;
mod turn;

pub use call_result::CallResult;
pub use client::Client;
pub use fault::{Fault, Halt};
pub use input::Input;
pub use output::{Outcome, Output};
pub use outside::Outside;
pub use running::run;
pub use saved_fault::SavedFault;
pub use saved_session::SavedSession;
pub use zk_cache::{Children, DataAnswer, JoinedTexts, Mark, SortedNames};
pub use zk_conversation::{Call, CreateMode, RawOperation, TalkFault};
pub use zk_frames::{FrameFault, FrameLimits, HIGHEST_LIMIT};
pub use zk_jute::TakeError;
pub use zk_limits::{
    LONGEST_INCOMING, LONGEST_OUTGOING, LONGEST_PASSWORD, MOST_PATHS, MOST_PENDING,
};
pub use zk_nodes::{DataStat, Path, PathFault, Side, Stat};
pub use zk_records::{Code, Event};
pub use zk_session::{Saved, State};
