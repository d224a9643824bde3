//! A client of ZooKeeper with a C interface, `include/dirwolleu.h`: a handle that C holds, functions that are total and answer a
//! number, and for each step what an agent promises of one. No function waits, and one at a time uses a handle.
#![tactic(auto)]

mod calls;
mod conclusions;
mod contending;
mod credentials;
mod handle;
mod kept;
mod laws;
mod making;
mod outputs;
mod shown;
mod slot;
mod steps;
mod subjects;
mod taking;
mod version;
