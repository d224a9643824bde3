//! The limits of this client: of each its unit, where it comes from, and why it is what it is.
//!
//! They hang together: a path fits a part of setWatches, a part fits a request, and a password fits a payload that comes.
#![tactic(auto)]

mod limits;

pub use limits::{
    LONGEST_INCOMING, LONGEST_OUTGOING, LONGEST_PASSWORD, LONGEST_PATH, MOST_PATHS, MOST_PENDING,
    MOST_WEIGHT,
};
