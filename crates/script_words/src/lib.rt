//! The words and lines that the program prints and reads.
#![tactic(auto)]

pub mod input;
pub mod lines;
pub mod numbers;
pub mod pieces;
pub mod reads;
pub mod script;
pub mod script_fault;
pub mod stop;
mod texts;
pub mod values;
pub mod words;
