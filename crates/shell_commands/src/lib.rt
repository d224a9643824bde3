//! The commands of the shell, over readers, writers and connections, and what a command line asks for.
#![tactic(auto)]

mod ask;
mod ask_words;
mod asked;
mod capture;
pub mod command;
mod data_words;
mod default_servers;
mod fault;
mod fields;
pub mod files;
mod forms;
mod frame;
mod help;
mod host_name;
pub mod kind;
pub mod line_fault;
pub mod plays;
mod printed;
pub mod run;
pub mod script;
pub mod show;
mod shown;
pub mod status;
mod tree;
mod tree_words;
pub mod verb;
mod watch;
mod watch_words;
mod written;
