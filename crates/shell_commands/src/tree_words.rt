//! The words of `tree`.

ghost use Rattle.std.specs.Prelude.{◌≡◌, ℕ, List, None, Some, IfOk, IfErr, OnOk, codes, false, map, true};
ghost use Rattle.std.specs.Option.{option_and_then};
ghost use Rattle.clap.specs.Words.{Text, first_of, found_of, rows_of};
ghost use Rattle.shell_ask.specs.declared.plan.Form.{Form as Forms};
ghost use Rattle.shell_commands.specs.Asks.{absolute, depth_read};
ghost use Rattle.shell_commands.specs.CommandLine.{AsksTour, IsTree, is_below, most_at};
ghost use Rattle.shell_commands.specs.inner.CommandLine.{TellsIf};

use crate::ask_words::{form_or_json, given, node_of, servers_of, wait_of};
use crate::command::{Command, Tour};
use crate::line_fault::{LineFault, NO_DEPTH, NO_MOST, no_command, refused};
use crate::watch_words::{count_of, path_of};
use clap::ArgMatches;
use script_words::numbers::natural_of;
use shell_ask::Form;
use std::alloc::Global;
use zk_limits::LONGEST_PATH;
use zk_nodes::Path;

/// The most levels, and the most nodes, that may be asked for.
const GREATEST: u64 = 4_294_967_295;

/// How many levels below a node are gone through. No path has as many names as the greatest that no number is given for.
fn depth_of(alloc: Global, matches: &ArgMatches<'_>) -> Result<u64, LineFault>
    ensures ok { IfOk result (λ depth. depth_read (first_of (codes "depth") (rows_of (found_of matches.now))) ≡ Some depth) }
    ensures err { IfErr result (TellsIf (depth_read (first_of (codes "depth") (rows_of (found_of matches.now))) ≡ None)) }
{
    let Some(word) = given(matches, "depth") else {
        return Ok(LONGEST_PATH as u64);
    };
    match natural_of(word.as_bytes(), GREATEST) {
        Some(depth) => Ok(depth),
        None => Err(refused(alloc, word, NO_DEPTH)),
    }
}

/// How many nodes are printed, or watched of one tree, at most.
pub(crate) fn most_of(alloc: Global, matches: &ArgMatches<'_>) -> Result<u64, LineFault>
    ensures ok { IfOk result (λ most. option_and_then most_at (first_of (codes "most") (rows_of (found_of matches.now))) ≡ Some most) }
    ensures err { IfErr result (TellsIf (option_and_then most_at (first_of (codes "most") (rows_of (found_of matches.now))) ≡ None)) }
{
    let Some(word) = given(matches, "most") else {
        return Err(no_command(alloc));
    };
    match count_of(word, GREATEST) {
        Some(most) => Ok(most),
        None => Err(refused(alloc, word, NO_MOST)),
    }
}

/// The path of a node below a chroot, and its whole path before it.
fn both_of(alloc: Global, chroot: &str, name: &str) -> Result<(Path, Path), LineFault>
    ensures ok { IfOk result (λ paths. (paths.0 ≡ absolute chroot.now name.now) × (paths.1 ≡ name.now)) }
    ensures accepted { OnOk result (is_below chroot.now name.now ≡ true) }
    ensures err { IfErr result (TellsIf (is_below chroot.now name.now ≡ false)) }
{
    let whole = node_of(alloc, chroot, name)?;
    let below = path_of(alloc, name)?;
    Ok((whole, below))
}

/// The command that the matches of `tree` give.
pub(crate) fn tree_of<'a>(alloc: Global, matches: &ArgMatches<'a>) -> Result<Command<'a>, LineFault>
    ensures ok { IfOk result (λ command. (tour : Tour) × (command ≡ Command.Tree tour) × AsksTour tour (rows_of (found_of matches.now))) }
    ensures err { IfErr result (TellsIf ((addresses : List Text) (chroot path name : Text) (deepest most : ℕ) (form : Forms) (wait_ms : ℕ)
        → IsTree addresses chroot path name deepest most form wait_ms (rows_of (found_of matches.now)) → ⊥)) }
{
    let Some(word) = given(matches, "PATH") else {
        return Err(no_command(alloc));
    };
    let wait_ms = wait_of(alloc, matches)?;
    let deepest = depth_of(alloc, matches)?;
    let most = most_of(alloc, matches)?;
    let (addresses, chroot) = servers_of(alloc, matches)?;
    let (path, name) = both_of(alloc, chroot.as_str(), word)?;
    Ok(Command::Tree(Tour {
        addresses,
        path,
        name,
        deepest,
        most,
        form: form_or_json(Form::Plain, matches),
        wait_ms,
    }))
}
