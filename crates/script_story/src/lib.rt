//! A history, as the lines of a script tell it and ask it.
#![tactic(auto)]

mod answers;
pub mod history_line;
pub mod story;
