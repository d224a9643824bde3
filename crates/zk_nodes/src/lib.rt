//! Nodes: their paths, the names below them, and what is known of one beside its data.
//!
//! A [`Path`] is the text of a node's path, a [`Stat`] what is known of a node beside its data, and a [`Side`] what is watched of
//! it. What a tree is, and what a history of transactions makes of it, is said once, in `specs/History.antt`: definitions alone.
//! The values that keep a history, and answer from it, are in `zk_history`.
#![tactic(auto)]

mod data;
mod data_stat;
pub mod laws;
mod names;
mod path;
mod path_fault;
mod plain;
mod side;
mod stat;

pub use data::copied_data;
pub use data_stat::DataStat;
pub use names::Names;
pub use path::{Path, text_fault};
pub use path_fault::PathFault;
pub use side::Side;
pub use stat::Stat;
