//! A server in memory with a C interface, `include/dirwolleu_bench.h`, for tests of clients in every language: a handle that C holds, and
//! functions that are total and answer a number. No function waits, and one at a time uses a handle.
#![tactic(auto)]

mod calls;
mod handle;
mod history;
mod making;
mod slot;
mod taking;
