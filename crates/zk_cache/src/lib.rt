//! The answers that a client keeps, by path, each marked good or stale.
//!
//! What is good and what stale, the caller says: the cache knows no watches.
#![tactic(auto)]

mod answers;
mod cache;
mod children;
mod held;
mod joined_texts;
mod keyed;
pub mod laws;
mod names;
mod sorted_names;

pub use answers::DataAnswer;
pub use cache::Cache;
pub use children::Children;
pub use held::{Kept, Mark};
pub use joined_texts::JoinedTexts;
pub use sorted_names::SortedNames;
