//! The words of the commands that ask for one node.

ghost use Rattle.std.specs.Prelude.{◌≡◌, ◌==◌, true, false, List, None, Some, IfOk, IfErr, OnOk, codes, find, map, not, string_bytes};
ghost use Rattle.std.specs.List.{list_all, slice_split};
ghost use Rattle.std.specs.Option.{option_and_then, option_map};
ghost use Rattle.clap.specs.Words.{Text, first_of, found_of, rows_of};
ghost use Rattle.shell_commands.specs.Asks.{AreServers, absolute, chroot_text, cut_at_slash, data_form, flag, form_for, form_or_json};
ghost use Rattle.shell_commands.specs.Asks.{is_root};
ghost use Rattle.shell_commands.specs.Hosts.{is_named_server};
ghost use Rattle.shell_commands.specs.inner.CommandLine.{TellsIf};
ghost use Rattle.shell_commands.specs.CommandLine.{is_below, wait_at};

use crate::host_name::is_named_server;
use crate::line_fault::{LineFault, NO_SERVER, NO_WAIT, no_command, refused};
use crate::verb::Verb;
use crate::watch_words::{count_of, path_of};
use clap::ArgMatches;
use shell_ask::Form;
use std::alloc::{AllocError, Global};
use zk_nodes::Path;

/// The most seconds of a wait.
const MOST_SECONDS: u64 = 4_294_967;

/// The hosts of a word, and the chroot without its slash if there is one.
fn parted(word: &str) -> (&str, &str)
    ensures { (result.0.now, result.1.now) ≡ cut_at_slash word.now }
{
    match word.split_once('/') {
        Some(parts) => parts,
        None => (word, ""),
    }
}

/// The text of a chroot, with the slash.
fn chroot_of(alloc: Global, below: &str) -> Result<String, AllocError>
    ensures { IfOk result (λ text. string_bytes text ≡ chroot_text below.now) }
{
    let mut text = String::new(alloc);
    if !below.is_empty() {
        text.push_str("/")?;
        text.push_str(below)?;
    }
    Ok(text)
}

/// The chroot that is given: empty if there is none, and else a path.
fn root_of(alloc: Global, below: &str) -> Result<String, LineFault>
    ensures ok { IfOk result (λ root. string_bytes root ≡ chroot_text below.now) }
    ensures accepted { OnOk result (is_root (chroot_text below.now) ≡ true) }
    ensures err { IfErr result (TellsIf (is_root (chroot_text below.now) ≡ false)) }
{
    let root = chroot_of(alloc, below)?;
    if !root.is_empty() {
        path_of(alloc, root.as_str())?;
    }
    Ok(root)
}

/// The words between the commas of a text.
fn between_commas<'a>(alloc: Global, text: &'a str) -> Result<Vec<&'a str>, AllocError>
    ensures { IfOk result (λ words. map (λ w. w.now) words.items ≡ slice_split (λ b. b == 44) text.now) }
{
    text.split(',').collect(alloc)
}

/// The first word that is no server.
fn stranger<'a>(words: &[&'a str]) -> Option<&'a str>
    ensures { result ≡ find (λ w. not (is_named_server w.now)) words.now }
{
    words.iter().find(|word| !is_named_server(word)).copied()
}

/// The servers of a list.
fn hosts_of<'a>(alloc: Global, hosts: &'a str) -> Result<Vec<&'a str>, LineFault>
    ensures ok { IfOk result (λ addresses. map (λ a. a.now) addresses.items ≡ slice_split (λ b. b == 44) hosts.now) }
    ensures accepted { OnOk result (list_all is_named_server (slice_split (λ b. b == 44) hosts.now) ≡ true) }
    ensures err { IfErr result (TellsIf (list_all is_named_server (slice_split (λ b. b == 44) hosts.now) ≡ false)) }
{
    let addresses = between_commas(alloc, hosts)?;
    match stranger(addresses.as_slice()) {
        Some(word) => Err(refused(alloc, word, NO_SERVER)),
        None => Ok(addresses),
    }
}

/// The addresses that are given, and the chroot.
pub(crate) fn servers_of<'a>(
    alloc: Global,
    matches: &ArgMatches<'a>,
) -> Result<(Vec<&'a str>, String), LineFault>
    ensures ok { IfOk result
        (λ servers. AreServers (map (λ a. a.now) servers.0.items) (string_bytes servers.1) (rows_of (found_of matches.now))) }
    ensures err { IfErr result
        (TellsIf ((addresses : List Text) (chroot : Text) → AreServers addresses chroot (rows_of (found_of matches.now)) → ⊥)) }
{
    let Some(word) = given(matches, "SERVERS") else {
        return Err(no_command(alloc));
    };
    let (hosts, below) = parted(word);
    let addresses = hosts_of(alloc, hosts)?;
    let chroot = root_of(alloc, below)?;
    Ok((addresses, chroot))
}

/// The text of a path below a chroot.
fn absolute(alloc: Global, chroot: &str, path: &str) -> Result<String, AllocError>
    ensures { IfOk result (λ text. string_bytes text ≡ absolute chroot.now path.now) }
{
    let mut text = String::from_str(alloc, chroot)?;
    if path != "/" || chroot.is_empty() {
        text.push_str(path)?;
    }
    Ok(text)
}

/// The path of the node that is asked for, below a chroot.
pub(crate) fn node_of(alloc: Global, chroot: &str, name: &str) -> Result<Path, LineFault>
    ensures ok { IfOk result (λ path. path ≡ absolute chroot.now name.now) }
    ensures accepted { OnOk result (is_below chroot.now name.now ≡ true) }
    ensures err { IfErr result (TellsIf (is_below chroot.now name.now ≡ false)) }
{
    path_of(alloc, name)?;
    let text = absolute(alloc, chroot, name)?;
    path_of(alloc, text.as_str())
}

/// How long to wait, in milliseconds.
pub(crate) fn wait_of(alloc: Global, matches: &ArgMatches<'_>) -> Result<u64, LineFault>
    ensures ok { IfOk result (λ ms. option_and_then wait_at (first_of (codes "wait") (rows_of (found_of matches.now))) ≡ Some ms) }
    ensures err { IfErr result (TellsIf (option_and_then wait_at (first_of (codes "wait") (rows_of (found_of matches.now))) ≡ None)) }
{
    let Some(word) = given(matches, "wait") else {
        return Err(no_command(alloc));
    };
    match count_of(word, MOST_SECONDS) {
        Some(seconds) => Ok(1000 * seconds),
        None => Err(refused(alloc, word, NO_WAIT)),
    }
}

/// The word that was given for a name.
pub(crate) fn given<'a>(matches: &ArgMatches<'a>, name: &str) -> Option<&'a str>
    ensures { option_map (λ w. w.now) result ≡ first_of name.now (rows_of (found_of matches.now)) }
{
    matches.get_str(name)
}

/// Whether a flag is used.
pub(crate) fn flag(matches: &ArgMatches<'_>, name: &str) -> bool
    ensures { result ≡ flag name.now (rows_of (found_of matches.now)) }
{
    match given(matches, name) {
        Some(word) => word == "true",
        None => false,
    }
}

/// JSON if this is asked for, and else this form.
pub(crate) fn form_or_json(form: Form, matches: &ArgMatches<'_>) -> Form
    ensures { result ≡ form_or_json form (rows_of (found_of matches.now)) }
{
    if flag(matches, "json") {
        Form::Json
    } else {
        form
    }
}

/// How data are printed.
fn data_form(matches: &ArgMatches<'_>) -> Form
    ensures { result ≡ data_form (rows_of (found_of matches.now)) }
{
    if flag(matches, "raw") {
        Form::Raw
    } else if flag(matches, "hex") {
        Form::Hex
    } else {
        Form::Plain
    }
}

/// How the answer to the call of a verb is printed.
pub(crate) fn form_for(verb: Verb, matches: &ArgMatches<'_>) -> Form
    ensures { result ≡ form_for verb (rows_of (found_of matches.now)) }
{
    match verb {
        Verb::Get => form_or_json(data_form(matches), matches),
        Verb::List | Verb::Stat | Verb::Create => form_or_json(Form::Plain, matches),
        Verb::Set => Form::Quiet,
        Verb::Delete => Form::Plain,
    }
}
