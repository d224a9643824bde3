//! A contender for a lock or an election, a reader or a writer of a shared lock, one of several that hold at once: a state machine that a
//! session drives.
//!
//! A program loops. It asks [`LockContender::next`] for the call that is due and hands that to its client. It gives the outcome to
//! [`LockContender::hear`], each report to [`LockContender::note`], and asks [`LockContender::tell`] for news after each step.
//! [`LockContender::held`] looks up whether the session holds, and by which token. Nothing here reads a socket or a clock.
//!
//! The contender stores where its place is, and never whether it holds: that is concluded from the client
//! ([`Standing`](zk_conclusions::Standing)) whenever it is asked for. [`laws`] names what follows.
//!
//! [`Contenders`] are those of one session, each under a ticket of its program. The session of C drives them.
//!
//! One contender has one place. What it makes is open to everybody, or has the [`AccessList`] that it is given.
#![tactic(auto)]

mod acl;
mod answers;
mod call;
mod calls;
mod collection;
mod contender;
mod due;
mod kept;
pub mod laws;
mod lease;
mod listed;
mod made;
mod mixed;
mod naming;
mod place;
mod refused;
mod roll;
mod settled;
mod status;
mod stirred;

pub use acl::{AccessList, AclFault};
pub use calls::is_contenders;
pub use collection::Contenders;
pub use contender::LockContender;
pub use naming::Naming;
pub use refused::Obstacle;
pub use status::LockStatus;
