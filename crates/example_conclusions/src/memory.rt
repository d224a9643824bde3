//! Both programs over servers in memory.

use crate::lock::Lock;
use crate::tree::Tree;
use crate::{Program, TIMEOUT_MS};
use anyhow::Result;
use example_world::{Edit, Event, History, Moments, Shared, World, add_transaction};
use std::alloc::Global;
use std::cell::RefCell;
use std::io::Write;
use zk_client::Path;
use zk_driver::Driver;
use zk_fence::Fence;

/// The root of a configuration.
const ROOT: &str = "/config";

/// The directory of a lock.
const DIRECTORY: &str = "/lock";

/// The nodes that are there at first, with their data.
static FIRST: [(&str, &str); 5] = [
    (ROOT, "1"),
    ("/config/host", "0"),
    ("/config/port", "0"),
    ("/config/workers", "-"),
    (DIRECTORY, ""),
];

/// What two nodes of the configuration are set to by each of the first transactions, whose zxids are 1 to 5. One is made after each
/// request, so the first reads are answered from several trees.
static NUMBERS: [&str; 5] = ["1", "2", "3", "4", "5"];

/// The sessions of other contenders. A server in memory calls its client's session 1.
const EARLIER: i64 = 2;

const LATER: i64 = 3;

/// What happens to a program.
#[derive(Clone, Copy)]
enum Step {
    /// Something in its world.
    World(Event),
    /// Another program writes to the store, with this token.
    Writes(i64),
    /// Nothing.
    Ends,
}

/// What happens, and when, in milliseconds. The zxid of each edit, and of each write of the program, is one above the one before.
type Plan<'a> = &'a [(u64, Step)];

/// Nodes of a configuration change, come and go, while there is no connection too; the session expires; all of it goes and comes again.
static TREE: [(u64, Step); 12] = [
    (
        1_000,
        Step::World(Event::Edits(&[Edit::Sets("/config/host", "beta")])),
    ),
    (
        2_000,
        Step::World(Event::Edits(&[Edit::Makes("/config/workers/one", "up", 0)])),
    ),
    (3_000, Step::World(Event::Parts)),
    (
        3_100,
        Step::World(Event::Edits(&[
            Edit::Deletes("/config/workers/one"),
            Edit::Makes("/config/workers/two", "up", 0),
            Edit::Sets("/config/port", "81"),
        ])),
    ),
    (3_200, Step::World(Event::Joins)),
    (6_000, Step::World(Event::Parts)),
    (6_100, Step::World(Event::Expires)),
    (
        6_150,
        Step::World(Event::Edits(&[Edit::Deletes("/config/workers/two")])),
    ),
    (6_200, Step::World(Event::Joins)),
    (
        10_000,
        Step::World(Event::Edits(&[
            Edit::Deletes("/config/workers"),
            Edit::Deletes("/config/port"),
            Edit::Deletes("/config/host"),
            Edit::Deletes(ROOT),
        ])),
    ),
    (
        11_000,
        Step::World(Event::Edits(&[
            Edit::Makes(ROOT, "2", 0),
            Edit::Makes("/config/host", "gamma", 0),
        ])),
    ),
    (12_000, Step::Ends),
];

/// A contender waits for another one, and holds; loses its session, while a later one holds, and does not know it yet; makes two nodes,
/// since an answer is lost, and removes one; waits, holds, and leaves.
static LONG: [(u64, Step); 10] = [
    (
        0,
        Step::World(Event::Edits(&[Edit::Makes("/lock/_c_8-lock-0000000000", "", EARLIER)])),
    ),
    (
        1_000,
        Step::World(Event::Edits(&[Edit::Deletes("/lock/_c_8-lock-0000000000")])),
    ),
    (2_000, Step::World(Event::Parts)),
    (4_000, Step::World(Event::Expires)),
    (
        4_000,
        Step::World(Event::Edits(&[
            Edit::Deletes("/lock/_c_one-lock-0000000001"),
            Edit::Makes("/lock/_c_9-lock-0000000002", "", LATER),
        ])),
    ),
    (4_000, Step::Writes(5)),
    (5_000, Step::World(Event::Loses)),
    (6_000, Step::World(Event::Joins)),
    (
        12_000,
        Step::World(Event::Edits(&[Edit::Deletes("/lock/_c_9-lock-0000000002")])),
    ),
    (14_000, Step::Ends),
];

/// How long it holds, in milliseconds.
const LONG_MS: u64 = 12_000;

/// A contender holds at once, and leaves while there is no connection.
static SHORT: [(u64, Step); 2] = [(900, Step::World(Event::Parts)), (5_000, Step::Ends)];

const SHORT_MS: u64 = 1_000;

/// A transaction for each of the numbers.
fn count(alloc: Global, numbers: &[&'static str], history: &mut History<Global>) -> Result<()> {
    for number in numbers {
        let (host, port) = ("/config/host", "/config/port");
        add_transaction(
            alloc,
            &[Edit::Sets(host, *number), Edit::Sets(port, *number)],
            history,
        )?;
    }
    Ok(())
}

/// The nodes that are there at first, and a transaction for each of the numbers.
fn fill(alloc: Global, numbers: &[&'static str], history: &mut History<Global>) -> Result<()> {
    for (node, text) in &FIRST {
        let bytes = Vec::from_slice(alloc, text.as_bytes())?;
        history.node(Path::new(alloc, node)?, Some(bytes), 0)?;
    }
    count(alloc, numbers, history)
}

/// A program acts, and things happen to it.
fn play<P: Program, W: Write>(
    alloc: Global,
    plan: Plan<'_>,
    program: &mut P,
    driver: &mut Driver<'_, Global, Shared<'_, World>, Shared<'_, World>>,
    world: &RefCell<World>,
    out: &mut W,
) -> Result<()> {
    let mut store = Fence::new();
    for (moment, step) in plan {
        program.act(driver, *moment, &mut store, out)?;
        match *step {
            Step::World(event) => event.happen(alloc, world)?,
            Step::Writes(token) => {
                store.admit(token);
            }
            Step::Ends => {}
        }
    }
    Ok(())
}

/// Runs a program over a server in memory.
fn run<P: Program + Drop, W: Write>(
    alloc: Global,
    numbers: &[&'static str],
    plan: Plan<'_>,
    mut program: P,
    out: &mut W,
) -> Result<()> {
    let mut history = History::new(alloc);
    fill(alloc, numbers, &mut history)?;
    let mut world = World::new(alloc, history, usize::MAX);
    world.be_busy();
    let (world, moments) = (RefCell::new(world), Moments::new());
    let (dial, clock) = (Shared::new(&world, &moments), Shared::new(&world, &moments));
    let mut driver = Driver::begin(alloc, TIMEOUT_MS, dial, clock, &["memory"])?;
    let played = play(alloc, plan, &mut program, &mut driver, &world, out);
    drop(driver);
    played
}

/// A contender holds for this many milliseconds.
fn hold<W: Write>(alloc: Global, plan: Plan<'_>, hold_ms: u64, out: &mut W) -> Result<()> {
    let directory = Path::new(alloc, DIRECTORY)?;
    let one = Lock::new(alloc, "one", "-lock-", directory, hold_ms)?;
    run(alloc, &[], plan, one, out)
}

/// Runs both.
pub fn run_in_memory<W: Write>(alloc: Global, out: &mut W) -> Result<()> {
    let root = Path::new(alloc, ROOT)?;
    out.write_all(b"# tree\n")?;
    run(alloc, &NUMBERS, &TREE, Tree::new(alloc, root), out)?;
    out.write_all(b"# lock\n")?;
    hold(alloc, &LONG, LONG_MS, out)?;
    hold(alloc, &SHORT, SHORT_MS, out)
}
