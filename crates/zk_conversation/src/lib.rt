//! The conversation of a client with its servers: which reply belongs to which request, over one connection after the
//! other.
//!
//! [`Conversation`] numbers and spells what is asked, keeps what is pending, and reads each payload that arrives: the
//! first of a connection as the answer to its ConnectRequest, a later one by its header. Frames go in and come out
//! whole; sockets, moments and sessions are the caller's. How a payload is read is said once, in
//! `specs/Arriving.antt`, for this crate and for all above it.
#![tactic(auto)]

mod arrival;
mod arriving;
mod awaited;
mod call;
mod conformance;
mod connect;
mod conversation;
mod copied;
mod counts;
mod fault;
mod frame;
pub mod laws;
mod phase;
mod question;
mod raw;
mod result;
mod taking;

pub use arrival::Arrival;
pub use call::{Call, CreateMode};
pub use connect::Connect;
pub use conversation::{Asked, Conversation, Pending};
pub use fault::{AskFault, TalkFault};
pub use phase::Phase;
pub use question::Question;
pub use raw::RawOperation;
pub use result::ReplyResult;
