//! The names of a path's children, change by change, and their number.

ghost use Rattle.std.specs.Prelude.{◌≡◌, ◌≤◌, map, slice_get, OnOk};
ghost use Rattle.zk_nodes.specs.Path.{path_of};
ghost use Rattle.zk_nodes.specs.PathFault.{IsPath};
ghost use Rattle.zk_history.specs.Replay.{children_after, count_after};
ghost use Rattle.zk_history.specs.Made.{change_of, transaction_of};
ghost use Rattle.zk_nodes.specs.inner.Names.{names_of};
ghost use Rattle.zk_history.specs.Versions.{nth_change, change_at, names_by, names_told};
ghost use Rattle.std.specs.FinSet as set;

use crate::change::{Change, Transaction};
use crate::place::is_right_below;
use crate::version::{Origin, Version};
use std::alloc::{AllocError, Allocator};
use std::collections::BTreeSet;

fn add_name<A: Allocator + Copy>(
    alloc: A,
    names: &mut BTreeSet<String<A>, A>,
    name: &str,
) -> Result<(), AllocError>
    ensures { OnOk result (names_of names.new ≡ set.insert (names_of names.old) name.now) }
{
    names.insert(String::from_str(alloc, name)?)?;
    Ok(())
}

fn remove_name<A: Allocator>(names: &mut BTreeSet<String<A>, A>, name: &str)
    ensures { names_of names.new ≡ set.remove (names_of names.old) name.now }
{
    let _ = names.remove(name);
}

fn names_after<A: Allocator + Copy>(
    alloc: A,
    change: &Change<A>,
    at: &str,
    names: &mut BTreeSet<String<A>, A>,
) -> Result<(), AllocError>
    requires { IsPath at.now }
    ensures { OnOk result (names_of names.new ≡ children_after (path_of at.now) (change_of change.now) (names_of names.old)) }
{
    match change {
        Change::Create(path, _, _) => {
            if is_right_below(path, at) {
                if let Some(name) = path.name() {
                    add_name(alloc, names, name)?;
                }
            }
        }
        Change::Set(_, _) => {}
        Change::Delete(path) => {
            if is_right_below(path, at) {
                if let Some(name) = path.name() {
                    remove_name(names, name);
                }
            }
        }
    }
    Ok(())
}

// The names of a path's children after the change at a place of a transaction.
fn names_after_nth<A: Allocator + Copy>(
    alloc: A,
    transactions: &[Transaction<A>],
    i: usize,
    j: usize,
    at: &str,
    names: &mut BTreeSet<String<A>, A>,
) -> Result<(), AllocError>
    requires { IsPath at.now }
    ensures { OnOk result (names_of names.new
        ≡ names_by (path_of at.now) (nth_change (slice_get (map transaction_of transactions.now) i) j) (names_of names.old)) }
{
    if let Some(transaction) = transactions.get(i) {
        if let Some(change) = transaction.changes.get(j) {
            return names_after(alloc, change, at, names);
        }
    }
    Ok(())
}

// The names of a path's children after the change that stands at an origin.
fn names_after_origin<A: Allocator + Copy>(
    alloc: A,
    nodes: &[Transaction<A>],
    transactions: &[Transaction<A>],
    origin: Origin,
    at: &str,
    names: &mut BTreeSet<String<A>, A>,
) -> Result<(), AllocError>
    requires { IsPath at.now }
    ensures { OnOk result (names_of names.new ≡ names_by (path_of at.now) (change_at (record {
      nodes = map transaction_of nodes.now;
      transactions = map transaction_of transactions.now;
    }) origin) (names_of names.old)) }
{
    match origin {
        Origin::Root => Ok(()),
        Origin::First(i) => names_after_nth(alloc, nodes, i, 0, at, names),
        Origin::Later(i, j) => names_after_nth(alloc, transactions, i, j, at, names),
    }
}

// The names of a path's children after the changes that made its versions, up to a zxid.
pub(crate) fn names_after_versions<A: Allocator + Copy>(
    alloc: A,
    z: u64,
    nodes: &[Transaction<A>],
    transactions: &[Transaction<A>],
    versions: &[Version],
    at: &str,
    names: &mut BTreeSet<String<A>, A>,
) -> Result<(), AllocError>
    requires { IsPath at.now }
    ensures { OnOk result (names_of names.new ≡ names_told (record {
      nodes = map transaction_of nodes.now;
      transactions = map transaction_of transactions.now;
    }) (path_of at.now) z versions.now (names_of names.old)) }
{
    for version in versions {
        if version.zxid <= z {
            names_after_origin(alloc, nodes, transactions, version.origin, at, names)?;
        }
    }
    Ok(())
}

// How many children a path has after a change.
pub(crate) fn counted_after<A: Allocator>(change: &Change<A>, at: &str, count: u32) -> u32
    requires path { IsPath at.now }
    requires fits { count ≤ 2147483647 }
    ensures { result ≡ count_after (path_of at.now) (change_of change.now) count }
{
    match change {
        Change::Create(path, _, _) => {
            if is_right_below(path, at) {
                count + 1
            } else {
                count
            }
        }
        Change::Set(_, _) => count,
        Change::Delete(path) => {
            if is_right_below(path, at) {
                count.saturating_sub(1)
            } else {
                count
            }
        }
    }
}
