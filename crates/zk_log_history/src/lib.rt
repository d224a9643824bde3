//! The history that a server's transaction logs tell: which entry is a transaction of which changes.
//!
//! ```text
//! let mut told = LoggedHistory::new(alloc)?;
//! for log in &logs {
//!     told = told.with(log.entries.as_slice())?;
//! }
//! let node = told.history().stat_at(zxid, &path);
//! ```
//!
//! The logs begin with the first transaction: before it stand the nodes that servers begin with. No transaction is missing, as far as
//! zxids show: the last ones of an epoch may be. A node's version counts its writes, whatever the entries tell. What servers of an
//! ensemble write into `/zookeeper/config` when they start is not in logs, so it is not in the history.
//!
//! Servers purge old logs. Those that begin later tell no whole history; a [`LoggedPath`] has what they tell of one path:
//!
//! ```text
//! let mut told = LoggedPath::new(alloc, path, zxid);
//! for log in &logs {
//!     told = told.with(log.entries.as_slice())?;
//! }
//! match told.known() {
//!     Knowledge::Unknown => println!("made before the logs, or never"),
//!     Knowledge::Known(None) => println!("absent at {}", told.last_zxid()),
//!     Knowledge::Known(Some(data)) => println!("version {}", data.stat.version),
//! }
//! ```
//!
//! A path is known as soon as an entry makes or deletes its node, and what is known is so, whichever tree stood before the logs
//! (`known_is_true`). Entries that are refused have no history before them (`refused_are_untold`).
#![tactic(auto)]

mod closing;
mod knowledge;
mod laws;
mod logged_history;
mod logged_path;
mod made;
mod next;
mod operation;
mod path_entry;
mod telling;
mod untold;

pub use knowledge::Knowledge;
pub use laws::{ends_leave_none, known_is_true, refused_are_untold};
pub use logged_history::LoggedHistory;
pub use logged_path::LoggedPath;
pub use next::first_missing;
pub use untold::{Untold, UntoldEntry};
