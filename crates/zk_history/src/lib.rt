//! The history of a data tree: what each path held at each zxid.
//!
//! A [`History`] is a first tree and the transactions after it. It is for servers in memory and for scripts: a client keeps none.
//! What trees and histories are is said once, in `specs/History.antt` of `zk_nodes`.
#![tactic(auto)]

mod change;
mod data;
mod found;
mod history;
mod history_fault;
mod names;
mod place;
mod replay;
mod told;
mod transactions;
mod version;
mod versions;

pub use change::Change;
pub use data::Data;
pub use history::History;
pub use history_fault::HistoryFault;
