//! One call of a server, or the calls that list a tree, and the answers in words.
//!
//! [`ask`] begins a session by a driver, hands it the call of a [`CallPlan`], and prints what its answer brings, or tells why there is
//! none. It waits for a moment at most, and then gives the call up. [`tree`] lists a node so, and then each node below it, and prints their
//! paths.
#![tactic(auto)]

mod answered;
mod asked;
mod came;
mod data;
mod end;
mod fields;
mod json_lines;
pub mod laws;
mod names;
mod plan;
mod result;
mod spots;
mod told;
mod toured;
mod tree_text;
mod walk;

pub use asked::ask;
pub use end::CallEnd;
pub use plan::{CallPlan, Form, TreePlan};
pub use toured::tree;
