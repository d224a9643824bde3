//! A session without a socket and without a clock: which server is dialled, what is read again, which calls wait, and when another session
//! begins.
//!
//! An [`Agent`] is told what happens, with the moment at which it was noticed, and says what is to be done, in order: dial this address,
//! hang up, send these bytes. It names the place of an address in its program's list and never sees one. The program has the sockets and
//! the clock, and no policy: [`Agent::step`] takes each [`AgentInput`], and [`Agent::deadline`] tells when it is to be called at the
//! latest.
//!
//! Subjects that the program follows are kept good, as in `zk_follow`. If a server shows another epoch than was seen before, each is read
//! once more, since servers that elect may have taken back what one of them had acknowledged. After an expiry another session begins by
//! itself, with the last seen zxid, so that no server which is behind it admits it.
//!
//! Calls of the program wait in one line, in the order of asking, until the client can take them; each is answered once, or times out. A
//! read whose reply is lost with its connection is asked again, in its place; a write is not. A reply that is too long ends the connection:
//! its call is answered [`TooLarge`](zk_client::Outcome::TooLarge), and is not asked again.
//!
//! After a close nothing is asked for and nothing is due: a call is answered at once that the session is closed.
//!
//! Credentials that are handed in introduce the session on each connection, before watches are set again and calls are sent.
//!
//! A tree is followed as a subject is: of all nodes at and below its root, within a bound, the data and the names below. [`Action::Tree`]
//! tells which sides of nodes are followed for it, and when nothing is lacking of it.
#![tactic(auto)]

mod action;
mod advancing;
mod agent;
mod answering;
mod asker;
mod calls;
mod credential;
mod credentials;
mod epochs;
mod frames;
mod growing;
mod hearing;
mod idle;
mod input;
mod introducing;
mod moments;
mod overlong;
mod renewal;
mod replies;
mod sending;
mod sent;
mod unresponsive;
mod waits;

pub use action::Action;
pub use agent::{Agent, Settings};
pub use credential::Credential;
pub use input::AgentInput;
pub use overlong::the_first_waits;
pub use renewal::admits_nothing_older;
