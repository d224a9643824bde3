//! A fence: what a store keeps, so that a holder of a lock that is over writes no more.
//!
//! A paused holder, or one whose packets are lost, goes on believing that it holds. So each holder sends its token with each write, and
//! the store keeps the greatest token that it has taken, and refuses a smaller one. The token is that of a
//! [`Holder`](zk_conclusions::Holder) or of a [`Standing`](zk_conclusions::Standing).
#![tactic(auto)]

mod fence;
pub mod laws;

pub use fence::Fence;
