//! A session of the global heap with what it said at its last step, for callers that have no types of Rattle: texts and bytes go in, and
//! numbers come out. Each function that is told what has happened is one step of the agent, with this input at this moment. What is kept is
//! looked up in the agent's client.
#![tactic(auto)]

mod actions;
mod at_once;
mod calls;
mod contenders;
mod contending;
mod copying;
mod credentials;
mod device;
mod flat;
mod holders;
mod kept;
mod laws;
mod news;
mod outputs;
mod paths;
mod refusal;
mod revisions;
mod sessions;
mod snapshots;
mod spelled_paths;
mod standings;
mod subjects;
mod subtrees;
mod texts;

pub use copying::copy_into;
pub use device::Device;
pub use flat::{Flat, FlatStat};
pub use holders::holder;
pub use kept::{
    FlatDataStat, KeptData, KeptNames, peek_children, peek_data, peek_name, peek_names,
};
pub use laws::brings_all;
pub use refusal::{DeviceRefusal, code_of};
pub use sessions::{saved, state};
pub use snapshots::snapshot;
pub use standings::{Contender, Stands, standing};
pub use subtrees::{lacking, subtree};
