//! The bytes of a connection, told frame by frame: those of both directions, in the order in which they were captured.
#![tactic(auto)]

mod asked;
mod fields;
mod frame;
mod line;
mod names;
pub mod shown;
mod stream;
mod told;
mod way;
