//! The same over a server in memory.

use crate::{TIMEOUT_MS, add, follow};
use anyhow::Result;
use example_world::{Edit, Event, History, Moments, Shared, World};
use std::alloc::Global;
use std::cell::RefCell;
use std::io::Write;
use zk_client::Path;
use zk_driver::Driver;

/// The node.
const NODE: &str = "/config";

/// What is dialled.
static ADDRESSES: [&str; 1] = ["memory"];

/// What happens, and when, in milliseconds.
static PLAN: [(u64, Event); 9] = [
    (1_000, Event::Edits(&[Edit::Makes(NODE, "one", 0)])),
    (2_000, Event::Edits(&[Edit::Sets(NODE, "two")])),
    (3_000, Event::Parts),
    (3_100, Event::Edits(&[Edit::Sets(NODE, "three")])),
    (3_200, Event::Joins),
    (6_000, Event::Parts),
    (6_100, Event::Expires),
    (6_200, Event::Joins),
    (10_000, Event::Edits(&[Edit::Deletes(NODE)])),
];

/// The moment at which the program ends.
const END_MS: u64 = 12_000;

/// Follows the node of a server in memory, through what happens.
fn play<W: Write>(
    alloc: Global,
    driver: &mut Driver<'_, Global, Shared<'_, World>, Shared<'_, World>>,
    node: &Path,
    world: &RefCell<World>,
    out: &mut W,
) -> Result<()> {
    for (moment, event) in &PLAN {
        follow(driver, node, *moment, out)?;
        event.happen(alloc, world)?;
    }
    follow(driver, node, END_MS, out)
}

/// The same over a server in memory, which has no such node at first.
pub fn run<W: Write>(alloc: Global, out: &mut W) -> Result<()> {
    let node = Path::new(alloc, NODE)?;
    let world = RefCell::new(World::new(alloc, History::new(alloc), usize::MAX));
    let moments = Moments::new();
    let (dial, clock) = (Shared::new(&world, &moments), Shared::new(&world, &moments));
    let mut driver = Driver::begin(alloc, TIMEOUT_MS, dial, clock, &ADDRESSES)?;
    let played = match add(alloc, &mut driver, &node) {
        Ok(()) => play(alloc, &mut driver, &node, &world, out),
        Err(fault) => Err(fault),
    };
    drop(driver);
    played
}
