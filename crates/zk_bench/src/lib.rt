//! A server of the client protocol in memory: a partner for tests of a client, by a schedule that the test decides.
//!
//! Eight servers hold beginnings of one [`History`](zk_history::History), and one connection goes to one of them. Each
//! call is one move: a server takes the next transaction and sends the notices of its watches, or it processes the next
//! whole request. Bytes come in by [`Bench::receive`] and go out by [`Bench::output`], so a test cuts them where it
//! likes. Nothing waits, and there is no clock but [`Bench::now`].
//!
//! Reads are answered from the server's own place in the history, writes are made at its end. What a server does is the
//! ZooKeeper Programmer's Guide's ("ZooKeeper Watches", "Consistency Guarantees"); where the Guide leaves a choice, the
//! rule stands at the function that keeps it.
#![tactic(auto)]

mod bench;
mod connection;
mod connects;
mod frames;
mod notices;
mod payloads;
mod phase;
mod reads;
mod replies;
mod rewatch;
mod sequence;
mod servers;
mod stop;
mod tree;
mod watches;
mod writes;

pub use bench::Bench;
pub use frames::Front;
pub use zk_history::{Change, History, HistoryFault};
