//! Rehearsals: a history, and lines that drive a client against servers over it.
#![tactic(auto)]

mod agreement;
mod bench_line;
mod called;
mod good;
mod heard;
mod keywords;
mod rehearsal;
pub mod rehearse;
mod rig;
mod said;
mod server;
