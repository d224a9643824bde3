//! A server in memory for one session, for callers that have no types of Rattle: texts and bytes go in, and numbers come out. It is a
//! [`Bench`](zk_bench::Bench), which is proved to be a server of the model; what other sessions change, it is told, or it learns that from
//! servers of theirs.
#![tactic(auto)]

mod admitted;
mod changes;
mod kind;
mod server;
mod undone;

pub use server::MemoryServer;
pub use undone::{Undone, code_of};
