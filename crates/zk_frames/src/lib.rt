//! Frames of a byte stream, as the client protocol has them in both directions: a length in four big-endian bytes, and
//! then that many bytes of payload.
//!
//! [`FrameReader`] cuts a stream that comes in any pieces; [`FrameLimits`] says how long the payloads may be. [`put_frame`] and
//! [`seal_frame`] write frames. [`laws`] says what holds of any calls of a reader, one after the other. What a payload means is none of
//! this crate's business.
#![tactic(auto)]

mod conformance;
mod fault;
pub mod laws;
mod limits;
mod put;
mod reader;

pub use conformance::put_frame;
pub use fault::{FrameFault, PutFault};
pub use limits::{FrameLimits, HIGHEST_LIMIT};
pub use put::seal_frame;
pub use reader::FrameReader;
