//! What a command line asks for.

ghost use Rattle.std.specs.Prelude.{◌≡◌, ℕ, ℤ, List, Option, IfOk, IfErr, IfSome, IfNone, find, map, codes, not};
ghost use Rattle.std.specs.Borrow.{Bor};
ghost use Rattle.std.specs.Global.{Global, Vec};
ghost use Rattle.clap.specs.Words.{Text, found_of, first_value, kind_of, rows_of, subcommand_rows_of};
ghost use Rattle.script_live.specs.Addresses.{is_address};
ghost use Rattle.shell_commands.specs.Kinds.{kind_word};
ghost use Rattle.shell_commands.specs.CommandLine.{AreAddresses, AsksFor, AsksForNone, AsksQuestion, IsAsked, IsDue, IsFound};
ghost use Rattle.shell_commands.specs.CommandLine.{IsWatch, Sights, sights_of};
ghost use Rattle.shell_commands.specs.inner.CommandLine.{Tells, TellsIf};
ghost use Rattle.shell_ask.specs.declared.plan.Form.{Form};
ghost use Rattle.zk_conversation.specs.Calls.{Call as Calls};
ghost use Rattle.zk_nodes.specs.declared.side.Side.{Side};
ghost use Rattle.shell_watch.specs.declared.plan.Style.{Style};

use crate::ask_words::{form_for, given, node_of, servers_of, wait_of};
use crate::data_words::call_of;
use crate::forms::shell_form;
use crate::kind::FrameKind;
use crate::line_fault::{LineFault, NO_ADDRESS, no_command, refused};
use crate::tree_words::tree_of;
use crate::verb::Verb;
use crate::watch_words::{duration_of, scope_of, style_of, timeout_of};
use clap::error::ErrorKind;
use clap::{ArgMatches, Error};
use script_live::address::is_address;
use shell_ask::Form;
use shell_watch::{NodeSide, Style};
use std::alloc::Global;
use zk_client::Call;
use zk_nodes::Path;

/// What a command line asks for.
#[derive(Drop)]
pub enum Command<'a> {
    /// Shows one whole frame in hex.
    Show {
        kind: FrameKind,
        hex: &'a str,
    },
    /// Answers data and names of a history.
    History,
    /// Drives a client by a script.
    Replay,
    /// Drives a client against servers in memory by a script.
    Rehearse,
    /// Drives a client over connections to these addresses by a script.
    Live {
        addresses: Vec<&'a str>,
    },
    /// Watches nodes over connections to these addresses, by a timeout that is above 0, for this many milliseconds; for ever where
    /// there is no such number. What it prints has this style.
    Watch {
        addresses: Vec<&'a str>,
        scope: Scope,
        timeout_ms: i32,
        for_ms: Option<u64>,
        style: Style,
    },
    /// Asks one call of servers.
    Ask(NodeQuestion<'a>),
    /// Lists a tree.
    Tree(Tour<'a>),
}

/// What is watched: sides of nodes, and trees by their roots. Of a tree that is known to have more nodes than the most, no more are taken
/// on.
#[derive(Drop)]
pub struct Scope {
    pub subjects: Vec<NodeSide<Global>>,
    pub trees: Vec<Path>,
    pub most: u64,
}

/// A call of servers at these addresses, whose answer is waited for this many milliseconds. The node has this name below a chroot.
#[derive(Drop)]
pub struct NodeQuestion<'a> {
    pub addresses: Vec<&'a str>,
    pub chroot: String,
    pub name: &'a str,
    pub call: Call,
    /// The file whose bytes are to be the data of the call, which has none; if one is named.
    pub from: Option<&'a str>,
    pub form: Form,
    pub wait_ms: u64,
}

/// A tree of servers at these addresses, whose answers are waited for this many milliseconds together.
#[derive(Drop)]
pub struct Tour<'a> {
    pub addresses: Vec<&'a str>,
    /// The root's path.
    pub path: Path,
    /// The root's path below a chroot.
    pub name: Path,
    /// How many levels below the root are gone through.
    pub deepest: u64,
    /// How many nodes are printed at most.
    pub most: u64,
    pub form: Form,
    pub wait_ms: u64,
}

/// What a refusal of `clap` says.
fn told_of(alloc: Global, error: &Error) -> LineFault
    ensures { Tells (kind_of error.now) result }
{
    let Ok(text) = error.to_string(alloc) else {
        return LineFault::Memory;
    };
    match error.kind() {
        ErrorKind::OutOfMemory => LineFault::Memory,
        ErrorKind::DisplayHelp | ErrorKind::DisplayVersion => LineFault::Help(text),
        _ => LineFault::Refused(text),
    }
}

/// The command that the matches of `show` give.
fn show_of<'a>(matches: &ArgMatches<'a>) -> Option<Command<'a>>
    ensures some { IfSome result (λ command. (kind : FrameKind) × (hex : Bor Text) × (command ≡ Command.Show kind hex)
        × (first_value (found_of matches.now) (codes "KIND") ≡ Some (kind_word kind))
        × (first_value (found_of matches.now) (codes "HEX") ≡ Some hex.now)) }
    ensures none { IfNone result ((kind : FrameKind) (hex : Text)
        → first_value (found_of matches.now) (codes "KIND") ≡ Some (kind_word kind)
        → first_value (found_of matches.now) (codes "HEX") ≡ Some hex → ⊥) }
{
    let kind = FrameKind::named(matches.get_str("KIND")?)?;
    let hex = matches.get_str("HEX")?;
    Some(Command::Show { kind, hex })
}

/// The first word that is no address.
fn stranger<'a>(words: &[&'a str]) -> Option<&'a str>
    ensures { result ≡ find (λ w. not (is_address w.now)) words.now }
{
    words.iter().find(|word| !is_address(word)).copied()
}

/// The addresses that are given, where each word is one.
fn addresses_of<'a>(alloc: Global, matches: &ArgMatches<'a>) -> Result<Vec<&'a str>, LineFault>
    ensures ok { IfOk result (λ addresses. AreAddresses (map (λ a. a.now) addresses.items) (rows_of (found_of matches.now))) }
    ensures err { IfErr result (TellsIf ((words : List Text) → AreAddresses words (rows_of (found_of matches.now)) → ⊥)) }
{
    let Some(words) = matches.get_strs("ADDRESS") else {
        return Err(no_command(alloc));
    };
    if let Some(word) = stranger(words) {
        return Err(refused(alloc, word, NO_ADDRESS));
    }
    let addresses = Vec::from_slice(alloc, words)?;
    Ok(addresses)
}

/// The command that the matches of `live` give.
fn live_of<'a>(alloc: Global, matches: &ArgMatches<'a>) -> Result<Command<'a>, LineFault>
    ensures ok { IfOk result (λ command. (addresses : Vec (Bor Text)) × (command ≡ Command.Live addresses)
        × AreAddresses (map (λ a. a.now) addresses.items) (rows_of (found_of matches.now))) }
    ensures err { IfErr result (TellsIf ((words : List Text) → AreAddresses words (rows_of (found_of matches.now)) → ⊥)) }
{
    let addresses = addresses_of(alloc, matches)?;
    Ok(Command::Live { addresses })
}

/// The command that the matches of `watch` give.
fn watch_of<'a>(alloc: Global, matches: &ArgMatches<'a>) -> Result<Command<'a>, LineFault>
    ensures ok { IfOk result
        (λ command. (addresses : Vec (Bor Text)) × (scope : Scope) × (timeout_ms : ℤ) × (for_ms : Option ℕ) × (style : Style)
        × (command ≡ Command.Watch addresses scope timeout_ms for_ms style)
        × (chroot : Text) × IsWatch (map (λ a. a.now) addresses.items) chroot (sights_of scope) timeout_ms for_ms style
        (rows_of (found_of matches.now))) }
    ensures err { IfErr result
        (TellsIf ((addresses : List Text) (chroot : Text) (sights : Sights) (timeout_ms : ℤ) (for_ms : Option ℕ) (style : Style)
        → IsWatch addresses chroot sights timeout_ms for_ms style (rows_of (found_of matches.now)) → ⊥)) }
{
    let timeout_ms = timeout_of(alloc, matches)?;
    let for_ms = duration_of(alloc, matches)?;
    let (addresses, chroot) = servers_of(alloc, matches)?;
    let scope = scope_of(alloc, chroot.as_str(), matches)?;
    Ok(Command::Watch {
        addresses,
        scope,
        timeout_ms,
        for_ms,
        style: style_of(matches),
    })
}

/// The command that the matches of a command with this verb give.
fn ask_of<'a>(alloc: Global, verb: Verb, matches: &ArgMatches<'a>) -> Result<Command<'a>, LineFault>
    ensures ok { IfOk result (λ command. (question : NodeQuestion) × (command ≡ Command.Ask question)
        × AsksQuestion verb question (rows_of (found_of matches.now))) }
    ensures err { IfErr result
        (TellsIf ((addresses : List Text) (chroot name : Text) (call : Calls) (from : Option Text) (form : Form) (wait_ms : ℕ)
        → IsAsked verb addresses chroot name call from form wait_ms (rows_of (found_of matches.now)) → ⊥)) }
{
    let Some(name) = given(matches, "PATH") else {
        return Err(no_command(alloc));
    };
    let wait_ms = wait_of(alloc, matches)?;
    let (addresses, chroot) = servers_of(alloc, matches)?;
    let path = node_of(alloc, chroot.as_str(), name)?;
    let call = call_of(alloc, verb, path, matches)?;
    Ok(Command::Ask(NodeQuestion {
        addresses,
        chroot,
        name,
        call,
        from: given(matches, "from"),
        form: form_for(verb, matches),
        wait_ms,
    }))
}

/// The command that the matches of a command line give.
fn asked<'a>(alloc: Global, matches: &ArgMatches<'a>) -> Result<Command<'a>, LineFault>
    ensures ok { IfOk result (λ command. IsFound command (subcommand_rows_of matches.now)) }
    ensures err { IfErr result (TellsIf (AsksForNone (subcommand_rows_of matches.now))) }
{
    match matches.subcommand() {
        Some(("show", inner)) => match show_of(inner) {
            Some(command) => Ok(command),
            None => Err(no_command(alloc)),
        },
        Some(("history", _)) => Ok(Command::History),
        Some(("replay", _)) => Ok(Command::Replay),
        Some(("rehearse", _)) => Ok(Command::Rehearse),
        Some(("live", inner)) => live_of(alloc, inner),
        Some(("watch", inner)) => watch_of(alloc, inner),
        Some(("tree", inner)) => tree_of(alloc, inner),
        Some((word, inner)) => match Verb::named(word) {
            Some(verb) => ask_of(alloc, verb, inner),
            None => Err(no_command(alloc)),
        },
        None => Err(no_command(alloc)),
    }
}

/// What the words of a command line ask for. The first word is the program's name.
pub fn command_of<'a>(alloc: Global, words: &'a [&'a str]) -> Result<Command<'a>, LineFault>
    ensures ok { IfOk result (AsksFor (map (λ w. w.now) words.entry.now)) }
    ensures err { IfErr result (IsDue (map (λ w. w.now) words.entry.now)) }
{
    match shell_form(alloc)?.try_get_matches_from(words) {
        Ok(matches) => asked(alloc, &matches),
        Err(error) => Err(told_of(alloc, &error)),
    }
}
