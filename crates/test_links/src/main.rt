//! Watches over servers in memory that change, which is proved to show what their history has, and prints what that shows. What is to be
//! printed is in the file `stdout`.
#![tactic(auto)]

mod benches;

use anyhow::Result;
use benches::play_benches;
use std::io;

fn main(rt: HostRuntime) -> Result<()> {
    let mut out = io::writer(&rt);
    play_benches(rt.alloc(), &mut out)
}
