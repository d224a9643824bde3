//! Servers in memory that a driver dials: over them it is over servers of the model, by contract.
//!
//! [`Benches`] has a bench for each connection, all over one history. What a client asks is answered at once. If it has received all
//! that came, and waits, the server takes the next transaction of the history: so what is watched changes. After a number of such waits
//! the connection is cut. One over which something is written is over then, and so the history stays.
#![tactic(auto)]

mod benches;
mod line;
mod serve;

pub use benches::Benches;
pub use line::{BenchStream, Past};
