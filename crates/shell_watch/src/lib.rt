//! What is kept of named nodes, and what becomes of a session, printed as it changes.
//!
//! [`watch`] has a driver of `zk_driver` follow each [`NodeSide`], and decides nothing of the session: it prints a line for each thing that
//! the driver tells of the session, of its connections and of reads that are refused, and a line wherever what the client keeps of a
//! subject is not what was printed of it last. It has the driver follow trees too: of each the sides of nodes are watched that the driver
//! takes on, until it lets them go.
#![tactic(auto)]

mod bound;
mod end;
mod growth;
mod joining;
mod kept_object;
pub mod laws;
mod looks;
mod object;
mod plan;
mod planned;
mod shown;
mod stamp;
mod texts;
mod turn_object;
mod watcher;
mod words;

pub use end::WatchEnd;
pub use plan::{Style, WatchPlan};
pub use planned::watch;
pub use zk_trees::NodeSide;
