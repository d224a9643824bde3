//! The lines of scripts that drive a client, and what it says and keeps as printed lines.
//!
//! [`client_line`] and [`call_line`] read the lines that every script of a client may have, [`begin_line`] and [`drive_line`]
//! those of a replay. [`outputs`] and [`peeks`] print, names by the sets of [`name_sets`], and [`driven`] does one line with a
//! client. [`player`] and [`replay`] are the replay of a script, by `script` of `script_words`: its rules are in
//! `specs/Replays.antt`. [`Recorded`] is an outside in memory for `run` of `zk_client`.
#![tactic(auto)]

pub mod begin_line;
pub mod call_line;
pub mod client_line;
mod drive_line;
pub mod driven;
pub mod faults;
mod input_copies;
pub mod name_sets;
mod names;
pub mod outputs;
pub mod peeks;
mod player;
pub mod reads;
mod recorded;
mod recording;
pub mod replay;
mod results;
pub mod words;

pub use recording::{Recorded, RecordedTurn};
