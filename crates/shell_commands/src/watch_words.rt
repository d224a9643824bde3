//! The words of `watch`.

ghost use Rattle.std.specs.Prelude.{◌≡◌, ◌≤◌, ◌++◌, true, false, List, None, Option, Some, OnOk, IfOk, IfErr, IfSome, codes, map};
ghost use Rattle.std.specs.Option.{option_and_then, option_map};
ghost use Rattle.std.specs.List.{list_all};
ghost use Rattle.clap.specs.Words.{Text, first_of, found_of, rows_of};
ghost use Rattle.zk_nodes.specs.declared.side.Side.{Side as Sides};
ghost use Rattle.shell_watch.specs.Watching.{aims_of};
ghost use Rattle.shell_commands.specs.Asks.{absolute};
ghost use Rattle.shell_commands.specs.CommandLine.{AreAims, IsDuration, IsTimeout, AreRoots, AreSights, Sights};
ghost use Rattle.shell_commands.specs.inner.CommandLine.{TellsIf};
ghost use Rattle.shell_commands.specs.CommandLine.{aims_at, sights_of, count_at, duration_read};
ghost use Rattle.shell_commands.specs.CommandLine.{given, is_below, is_path, style_in, timeout_at};

use crate::ask_words::{flag, given, node_of};
use crate::command::Scope;
use crate::line_fault::{LineFault, NO_DURATION, NO_TIMEOUT, no_command, no_path, refused};
use crate::tree_words::most_of;
use clap::ArgMatches;
use script_words::numbers::natural_of;
use shell_watch::{NodeSide, Style};
use std::alloc::Global;
use zk_nodes::{Path, PathFault, Side};

/// The most milliseconds of a timeout.
const MOST_MS: u64 = 2_147_483_647;

/// The most seconds of a watch.
const MOST_SECONDS: u64 = 4_294_967;

/// How a watch prints.
pub(crate) fn style_of(matches: &ArgMatches<'_>) -> Style
    ensures { result ≡ style_in (rows_of (found_of matches.now)) }
{
    if flag(matches, "json") {
        Style::Json
    } else if flag(matches, "text") {
        Style::Text
    } else {
        Style::Hex
    }
}

/// The number that a word means, from 1 to the most.
pub(crate) fn count_of(word: &str, most: u64) -> Option<u64>
    requires { 9 ≤ most }
    ensures value { result ≡ count_at most word.now }
    ensures below { IfSome result (λ n. n ≤ most) }
{
    match natural_of(word.as_bytes(), most) {
        Some(0) => None,
        number => number,
    }
}

/// The timeout that is asked for, in milliseconds.
pub(crate) fn timeout_of(alloc: Global, matches: &ArgMatches<'_>) -> Result<i32, LineFault>
    ensures ok { IfOk result (λ ms. IsTimeout ms (rows_of (found_of matches.now))) }
    ensures err { IfErr result (TellsIf (option_and_then timeout_at (first_of (codes "timeout") (rows_of (found_of matches.now))) ≡ None)) }
{
    let Some(word) = given(matches, "timeout") else {
        return Err(no_command(alloc));
    };
    match count_of(word, MOST_MS) {
        Some(ms) => Ok(ms as i32),
        None => Err(refused(alloc, word, NO_TIMEOUT)),
    }
}

/// How long to watch, in milliseconds, if the words say so.
pub(crate) fn duration_of(alloc: Global, matches: &ArgMatches<'_>) -> Result<Option<u64>, LineFault>
    ensures ok { IfOk result (λ ms. IsDuration ms (rows_of (found_of matches.now))) }
    ensures err { IfErr result (TellsIf (duration_read (first_of (codes "for") (rows_of (found_of matches.now))) ≡ None)) }
{
    let Some(word) = given(matches, "for") else {
        return Ok(None);
    };
    match count_of(word, MOST_SECONDS) {
        Some(seconds) => Ok(Some(1000 * seconds)),
        None => Err(refused(alloc, word, NO_DURATION)),
    }
}

/// The path that a word is.
pub(crate) fn path_of(alloc: Global, word: &str) -> Result<Path, LineFault>
    ensures ok { IfOk result (λ path. path ≡ word.now) }
    ensures accepted { OnOk result (is_path word.now ≡ true) }
    ensures err { IfErr result (TellsIf (is_path word.now ≡ false)) }
{
    match Path::new(alloc, word) {
        Ok(path) => Ok(path),
        Err(PathFault::Memory) => Err(LineFault::Memory),
        Err(fault) => Err(no_path(alloc, word, fault)),
    }
}

/// Adds what is watched of the nodes at these paths below a chroot.
fn add_subjects(
    alloc: Global,
    subjects: &mut Vec<NodeSide<Global>>,
    chroot: &str,
    side: Side,
    words: &[&str],
) -> Result<(), LineFault>
    ensures ok { OnOk result
        (aims_of subjects.new.items ≡ aims_of subjects.old.items ++ aims_at chroot.now side (map (λ w. w.now) words.now)) }
    ensures accepted { OnOk result (list_all (is_below chroot.now) (map (λ w. w.now) words.now) ≡ true) }
    ensures err { IfErr result (TellsIf (list_all (is_below chroot.now) (map (λ w. w.now) words.now) ≡ false)) }
{
    for word in words {
        let path = node_of(alloc, chroot, word)?;
        if subjects.push(NodeSide { side, path }).is_err() {
            return Err(LineFault::Memory);
        }
    }
    Ok(())
}

/// Adds what is watched of the nodes at the paths below a chroot that an option was given.
fn add_given(
    alloc: Global,
    subjects: &mut Vec<NodeSide<Global>>,
    chroot: &str,
    side: Side,
    matches: &ArgMatches<'_>,
    id: &str,
) -> Result<(), LineFault>
    ensures ok { OnOk result (aims_of subjects.new.items
        ≡ aims_of subjects.old.items ++ aims_at chroot.now side (given id.now (rows_of (found_of matches.now)))) }
    ensures accepted { OnOk result (list_all (is_below chroot.now) (given id.now (rows_of (found_of matches.now))) ≡ true) }
    ensures err { IfErr result (TellsIf (list_all (is_below chroot.now) (given id.now (rows_of (found_of matches.now))) ≡ false)) }
{
    match matches.get_strs(id) {
        Some(words) => add_subjects(alloc, subjects, chroot, side, words),
        None => Ok(()),
    }
}

/// The sides of nodes that are to be watched below a chroot.
fn subjects_of(
    alloc: Global,
    chroot: &str,
    matches: &ArgMatches<'_>,
) -> Result<Vec<NodeSide<Global>>, LineFault>
    ensures ok { IfOk result (λ subjects. AreAims chroot.now (aims_of subjects.items) (rows_of (found_of matches.now))) }
    ensures err { IfErr result (TellsIf ((aims : List (Sides × Text)) → AreAims chroot.now aims (rows_of (found_of matches.now)) → ⊥)) }
{
    let mut subjects = Vec::new(alloc);
    add_given(alloc, &mut subjects, chroot, Side::Data, matches, "data")?;
    add_given(
        alloc,
        &mut subjects,
        chroot,
        Side::Child,
        matches,
        "children",
    )?;
    Ok(subjects)
}

/// The paths below a chroot that words are.
fn paths_of(alloc: Global, chroot: &str, words: &[&str]) -> Result<Vec<Path>, LineFault>
    ensures ok { IfOk result (λ paths. paths.items ≡ map (λ p. absolute chroot.now p) (map (λ w. w.now) words.now)) }
    ensures accepted { OnOk result (list_all (is_below chroot.now) (map (λ w. w.now) words.now) ≡ true) }
    ensures err { IfErr result (TellsIf (list_all (is_below chroot.now) (map (λ w. w.now) words.now) ≡ false)) }
{
    let mut paths = Vec::new(alloc);
    for word in words {
        let path = node_of(alloc, chroot, word)?;
        if paths.push(path).is_err() {
            return Err(LineFault::Memory);
        }
    }
    Ok(paths)
}

/// The roots of the trees that are to be watched below a chroot.
fn trees_of(alloc: Global, chroot: &str, matches: &ArgMatches<'_>) -> Result<Vec<Path>, LineFault>
    ensures ok { IfOk result (λ trees. AreRoots chroot.now trees.items (rows_of (found_of matches.now))) }
    ensures err { IfErr result (TellsIf ((roots : List Text) → AreRoots chroot.now roots (rows_of (found_of matches.now)) → ⊥)) }
{
    match matches.get_strs("tree") {
        Some(words) => paths_of(alloc, chroot, words),
        None => Ok(Vec::new(alloc)),
    }
}

/// What is to be watched below a chroot.
pub(crate) fn scope_of(
    alloc: Global,
    chroot: &str,
    matches: &ArgMatches<'_>,
) -> Result<Scope, LineFault>
    ensures ok { IfOk result (λ scope. AreSights chroot.now (sights_of scope) (rows_of (found_of matches.now))) }
    ensures err { IfErr result (TellsIf ((sights : Sights) → AreSights chroot.now sights (rows_of (found_of matches.now)) → ⊥)) }
{
    let most = most_of(alloc, matches)?;
    let subjects = subjects_of(alloc, chroot, matches)?;
    let trees = trees_of(alloc, chroot, matches)?;
    Ok(Scope {
        subjects,
        trees,
        most,
    })
}
