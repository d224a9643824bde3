//! `zk_shell history --log`: what a server's transaction logs say of each path.
#![tactic(auto)]

mod checked;
mod deed;
mod line;
mod order;
mod plan;
mod script;
mod tell;
mod told;
mod usage;

pub use order::LogsFault;
pub use plan::{LogPlan, asks_log, plan_of};
pub use tell::{LogText, history_of};
pub use usage::{LOG_HELP, LogUsage};
