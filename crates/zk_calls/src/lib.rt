//! The calls of a program that wait: each for its turn, and then for its reply.
//!
//! A [`Line`] has them in the order of asking. A call that is handed over stays in its place until it is settled: by a reply, or by another
//! answer that ends its wait, or since its limit has come. A read whose reply is lost with its connection waits for its turn again, in the
//! same place; a write is never asked twice. The line knows no client and no connection: it is told what the client answers.
#![tactic(auto)]

mod ending;
mod entry;
mod limits;
mod line;
mod order;
mod turn;

pub use entry::{Ended, Ending, Entry};
pub use line::Line;
