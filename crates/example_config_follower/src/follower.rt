//! Follows a node, which need not be there: prints what it holds, each time that is known again.
use anyhow::Result;
use std::alloc::Global;
use std::io::Write;
use zk_client::{Client, DataAnswer, Path};
use zk_driver::{Action, Driver};
use zk_link::{Clock, Dial};

/// Goes on until this moment with a driver that follows the node.
pub fn follow<D: Dial + Drop, C: Clock + Drop, W: Write>(
    driver: &mut Driver<'_, Global, D, C>,
    node: &Path,
    until: u64,
    out: &mut W,
) -> Result<()> {
    for _ in 0..u64::MAX {
        match driver.next(until)? {
            Some(Action::Shown { .. }) => print_node(driver.client(), node, out)?,
            Some(Action::Renewed) => out.write_all(b"another session\n")?,
            Some(_) => {}
            None => break,
        }
    }
    Ok(())
}

/// What is kept of the node, which is good.
fn print_node<W: Write>(client: &Client, node: &Path, out: &mut W) -> Result<()> {
    let shown = match client.peek_data(node) {
        Some((DataAnswer::Full(Some(bytes), _), _)) => bytes.as_slice(),
        Some((DataAnswer::Full(None, _), _)) => b"no data",
        _ => b"no node",
    };
    out.write_all(shown)?;
    out.write_all(b"\n").map_err(From::from)
}
