//! Follows the data of one node of real servers, through lost connections and expired sessions: tells what it holds at first, and after
//! each change. Without words it does so over a server in memory.
#![tactic(auto)]

mod follower;
mod memory;

use anyhow::Result;
use follower::follow;
use std::alloc::Global;
use std::io::Write;
use std::process::ExitCode;
use zk_client::{Path, Side};
use zk_driver::Driver;
use zk_link::{Clock, Dial, SystemClock, Tcp};

/// The timeout to ask for, in milliseconds.
const TIMEOUT_MS: i32 = 10_000;

/// Has a driver follow a node.
fn add<D: Dial + Drop, C: Clock + Drop>(
    alloc: Global,
    driver: &mut Driver<'_, Global, D, C>,
    node: &Path,
) -> Result<()> {
    let path = Path::new(alloc, node.as_str())?;
    driver.follow(1, Side::Data, path).map_err(From::from)
}

/// Follows a node of real servers.
fn serve<W: Write>(rt: &HostRuntime, node: &str, addresses: &[&str], out: &mut W) -> Result<()> {
    let node = Path::new(rt.alloc(), node)?;
    let (dial, clock) = (Tcp::new(rt), SystemClock::new(rt));
    let mut driver = Driver::begin(rt.alloc(), TIMEOUT_MS, dial, clock, addresses)?;
    let followed = match add(rt.alloc(), &mut driver, &node) {
        Ok(()) => follow(&mut driver, &node, u64::MAX, out),
        Err(fault) => Err(fault),
    };
    drop(driver);
    followed
}

/// Does what the words ask for, of which the first is the program's name.
fn run<W: Write>(rt: &HostRuntime, words: &[&str], out: &mut W) -> Result<ExitCode> {
    match words {
        [] | [_] => memory::run(rt.alloc(), out)?,
        [_, _] => {
            out.write_all(b"usage: example_config_follower [PATH IP:PORT..]\n")?;
            return Ok(ExitCode::from(2));
        }
        [_, node, addresses @ ..] => serve(rt, node, addresses, out)?,
    }
    Ok(ExitCode::SUCCESS)
}

fn main(rt: HostRuntime) -> Result<ExitCode> {
    let words: Vec<String> = std::env::args(&rt)?.collect(rt.alloc())?;
    let texts: Vec<&str> = words.iter().map(|word| word.as_str()).collect(rt.alloc())?;
    let done = run(&rt, texts.as_slice(), &mut rt.stdout());
    drop(texts);
    drop(words);
    done
}
