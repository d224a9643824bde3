//! The servers that a command line asks or watches if no word of it names any.

ghost use Rattle.std.specs.Prelude.{◌≡◌, ◌++◌, ◌∷◌, [], IfOk, OnOk, false, bytes_eq, map};
ghost use Rattle.std.specs.List.{list_any};
ghost use Rattle.std.specs.Option.{option_map};
ghost use Rattle.shell_commands.specs.Servers.{first_plain, is_option, is_plain, lacks_servers, leads, names_none, node_commands, served};
ghost use Rattle.shell_commands.specs.Servers.{takes_value};

use std::alloc::{AllocError, Global};

/// Whether a command asks or watches servers.
fn asks_servers(command: &str) -> bool
    ensures { result ≡ list_any (bytes_eq command.now) node_commands }
{
    matches!(
        command,
        "get" | "ls" | "stat" | "tree" | "set" | "create" | "delete" | "watch"
    )
}

/// Whether an option takes a value: the next word.
fn takes_value(word: &str) -> bool
    ensures { result ≡ takes_value word.now }
{
    matches!(
        word,
        "--wait"
            | "--version"
            | "--from"
            | "--depth"
            | "--most"
            | "--data"
            | "--children"
            | "--tree"
            | "--timeout"
            | "--for"
    )
}

/// Whether a word is an option: a dash, and something after it.
fn is_option(word: &str) -> bool
    ensures { result ≡ is_option word.now }
{
    word.starts_with("-") && word != "-"
}

/// Whether a word is no option, and no value of the one before it.
fn is_plain(is_value: bool, word: &str) -> bool
    ensures { result ≡ is_plain is_value word.now }
{
    !is_value && !is_option(word)
}

/// Whether the word after it is its value.
fn leads(is_value: bool, word: &str) -> bool
    ensures { result ≡ leads is_value word.now }
{
    !is_value && takes_value(word)
}

/// The first plain word.
fn first_plain<'a>(words: &[&'a str]) -> Option<&'a str>
    ensures { option_map (λ w. w.now) result ≡ first_plain false (map (λ w. w.now) words.now) }
{
    let mut is_value = false;
    for word in words {
        if is_plain(is_value, word) {
            return Some(*word);
        }
        is_value = leads(is_value, word);
    }
    None
}

/// Whether the first plain word names no servers: it is a path, or there is none.
fn names_none(word: Option<&str>) -> bool
    ensures { result ≡ names_none (option_map (λ w. w.now) word.entry) }
{
    match word {
        Some(word) => word.starts_with("/"),
        None => true,
    }
}

/// Whether a command asks or watches servers, and none are named after it.
fn lacks_servers(command: &str, words: &[&str]) -> bool
    ensures { result ≡ lacks_servers command.now (map (λ w. w.now) words.now) }
{
    asks_servers(command) && names_none(first_plain(words))
}

/// Adds words.
fn add_words<'a>(all: &mut Vec<&'a str>, words: &[&'a str]) -> Result<(), AllocError>
    ensures { OnOk result (map (λ w. w.now) all.new.items ≡ map (λ w. w.now) all.old.items ++ map (λ w. w.now) words.now) }
{
    for word in words {
        all.push(*word)?;
    }
    Ok(())
}

/// The words, with these servers after a command that asks or watches if none are named.
pub(crate) fn with_servers<'a>(
    alloc: Global,
    servers: &'a str,
    words: &[&'a str],
) -> Result<Vec<&'a str>, AllocError>
    ensures { IfOk result (λ all. map (λ w. w.now) all.items ≡ served servers.now (map (λ w. w.now) words.now)) }
{
    let mut all = Vec::new(alloc);
    match words {
        [program, command, others @ ..] if lacks_servers(command, others) => {
            add_words(&mut all, &[*program, *command, servers])?;
            add_words(&mut all, others)?;
        }
        _ => add_words(&mut all, words)?,
    }
    Ok(all)
}
