//! Two programs over a driver that act on what several answers say together: [`tree`], a configuration of many nodes, and [`lock`], a lock
//! between sessions. Without words both run over servers in memory.
#![tactic(auto)]

mod lock;
mod memory;
mod tree;

use anyhow::Result;
use lock::Lock;
use std::alloc::Global;
use std::io::Write;
use std::process::ExitCode;
use tree::Tree;
use zk_client::Path;
use zk_driver::Driver;
use zk_fence::Fence;
use zk_link::{Clock, Dial, SystemClock, Tcp};

/// The timeout to ask for, in milliseconds.
const TIMEOUT_MS: i32 = 9_000;

/// What the words are to be.
const USAGE: &str =
    "usage: example_conclusions [tree SECONDS ROOT IP:PORT.. | lock MILLISECONDS NAME MARKER DIRECTORY IP:PORT..]\n";

/// A program over a driver.
pub trait Program {
    /// Goes on until this moment, or to its end. What it concludes it hands on, with a token, to a store that refuses what is older.
    fn act<D: Dial + Drop, C: Clock + Drop, W: Write>(
        &mut self,
        driver: &mut Driver<'_, Global, D, C>,
        until: u64,
        store: &mut Fence,
        out: &mut W,
    ) -> Result<()>;
}

/// Runs a program over real servers, for this many seconds at most.
fn serve<P: Program + Drop, W: Write>(
    rt: &HostRuntime,
    mut program: P,
    seconds: u64,
    addresses: &[&str],
    out: &mut W,
) -> Result<()> {
    let (dial, clock) = (Tcp::new(rt), SystemClock::new(rt));
    let mut driver = Driver::begin(rt.alloc(), TIMEOUT_MS, dial, clock, addresses)?;
    let until = driver.now().saturating_add(seconds.saturating_mul(1_000));
    let served = program.act(&mut driver, until, &mut Fence::new(), out);
    drop(driver);
    served
}

/// Does what the words ask for, of which the first is the program's name.
fn run<W: Write>(rt: &HostRuntime, words: &[&str], out: &mut W) -> Result<ExitCode> {
    match words {
        [] | [_] => memory::run_in_memory(rt.alloc(), out)?,
        [_, "tree", seconds, root, addresses @ ..] => {
            let (seconds, root) = (seconds.parse()?, Path::new(rt.alloc(), root)?);
            serve(rt, Tree::new(rt.alloc(), root), seconds, addresses, out)?;
        }
        [_, "lock", ms, name, marker, directory, addresses @ ..] => {
            let (ms, directory) = (ms.parse()?, Path::new(rt.alloc(), directory)?);
            let one = Lock::new(rt.alloc(), name, marker, directory, ms)?;
            serve(rt, one, u64::MAX, addresses, out)?;
        }
        _ => {
            out.write_all(USAGE.as_bytes())?;
            return Ok(ExitCode::from(2));
        }
    }
    Ok(ExitCode::SUCCESS)
}

fn main(rt: HostRuntime) -> Result<ExitCode> {
    let words: Vec<String> = std::env::args(&rt)?.collect(rt.alloc())?;
    let texts: Vec<&str> = words.iter().map(|word| word.as_str()).collect(rt.alloc())?;
    let done = run(&rt, texts.as_slice(), &mut rt.stdout());
    drop(texts);
    drop(words);
    done
}
