//! A client over a connection that is dialled, driven by the lines of a script. What dials is of `zk_link`.
//!
//! A [`Joint`](joint::Joint) is a client and the connection that it has: it is handed one input at a time, and waits for nothing but a
//! read.
#![tactic(auto)]

pub mod address;
mod bring;
mod first_line;
mod give;
mod heard;
pub mod joint;
pub mod laws;
pub mod link;
pub mod live;
mod live_line;
pub mod ring;
mod send;
