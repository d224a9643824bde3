//! The good answers of a client, each with whether it agrees with the history.

ghost use Rattle.std.specs.Prelude.{◌≡◌, ◌++◌, ℕ, List, OnOk, map, string_bytes};
ghost use Rattle.std.specs.BTreeSet.{IsOrdered};
ghost use Rattle.std.specs.String.{string_cmp};
ghost use Rattle.zk_client.specs.Clients.{view_of};
ghost use Rattle.script_rehearse.specs.Good.{verdict_line, TellsPath, TellsPaths};
ghost use Rattle.script_rehearse.specs.inner.Good.{TellsVerdict};

use crate::agreement::{agrees, agrees_names};
use script_words::values::push_name;
use std::alloc::{AllocError, Allocator};
use std::collections::BTreeSet;
use zk_cache::Mark;
use zk_client::Client;
use zk_history::History;
use zk_nodes::{Path, Side};

/// Adds the line of an answer that agrees or differs.
fn push_verdict<A: Allocator + Copy>(
    text: &mut String<A>,
    alloc: A,
    side: Side,
    path: &Path<A>,
    agrees: bool,
) -> Result<(), AllocError>
    ensures { OnOk result (string_bytes text.new ≡ string_bytes text.old ++ verdict_line side path.now agrees) }
{
    let start = match side {
        Side::Data => "good data",
        Side::Child => "good child",
    };
    let verdict = if agrees { " agrees\n" } else { " differs\n" };
    text.push_str(start)?;
    push_name(text, alloc, path.as_str().as_bytes())?;
    text.push_str(verdict)
}

/// Adds the line of the good answer of a path on one side, if there is one.
fn push_answer<A: Allocator + Copy>(
    text: &mut String<A>,
    alloc: A,
    client: &Client<A>,
    history: &History<A>,
    side: Side,
    path: &Path<A>,
) -> Result<(), AllocError>
    ensures { OnOk result ((told : List ℕ) × TellsVerdict side (view_of client.now) history.now path.now told
        × (string_bytes text.new ≡ string_bytes text.old ++ told)) }
{
    match side {
        Side::Data => {
            let Some((kept, Mark::Good)) = client.peek_data(path) else {
                return Ok(());
            };
            let told = history.data_at(client.last_zxid(), path)?;
            push_verdict(text, alloc, side, path, agrees(kept, &told))
        }
        Side::Child => {
            let Some((kept, Mark::Good)) = client.peek_children(path) else {
                return Ok(());
            };
            let told = history.names_at(client.last_zxid(), path)?;
            push_verdict(text, alloc, side, path, agrees_names(kept, &told))
        }
    }
}

/// Adds the lines of the good answers of a path: data before names.
fn push_verdicts<A: Allocator + Copy>(
    text: &mut String<A>,
    alloc: A,
    client: &Client<A>,
    history: &History<A>,
    path: &Path<A>,
) -> Result<(), AllocError>
    ensures { OnOk result ((told : List ℕ) × TellsPath (view_of client.now) history.now path.now told
        × (string_bytes text.new ≡ string_bytes text.old ++ told)) }
{
    push_answer(text, alloc, client, history, Side::Data, path)?;
    push_answer(text, alloc, client, history, Side::Child, path)
}

/// Adds the lines of the good answers of a path.
fn push_path<A: Allocator + Copy>(
    text: &mut String<A>,
    alloc: A,
    client: &Client<A>,
    history: &History<A>,
    path: &str,
) -> Result<(), AllocError>
    ensures { OnOk result ((told : List ℕ) × TellsPath (view_of client.now) history.now path.now told
        × (string_bytes text.new ≡ string_bytes text.old ++ told)) }
{
    let Ok(path) = Path::new(alloc, path) else {
        return Err(AllocError);
    };
    push_verdicts(text, alloc, client, history, &path)
}

/// Adds the lines of the good answers of paths, in the order of their bytes.
pub fn push_paths<A: Allocator + Copy>(
    text: &mut String<A>,
    alloc: A,
    client: &Client<A>,
    history: &History<A>,
    paths: &BTreeSet<String<A>, A>,
) -> Result<(), AllocError>
    ensures told { OnOk result ((told : List ℕ) × TellsPaths (view_of client.now) history.now (map string_bytes paths.now.keys) told
        × (string_bytes text.new ≡ string_bytes text.old ++ told)) }
    ensures ordered { OnOk result (IsOrdered string_cmp paths.now) }
{
    for path in paths {
        push_path(text, alloc, client, history, path.as_str())?;
    }
    Ok(())
}
