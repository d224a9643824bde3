//! The call of a command that asks for one node, and the data and the version in it.

ghost use Rattle.std.specs.Prelude.{◌≡◌, false, None, Some, IfOk, IfErr};
ghost use Rattle.std.specs.Option.{option_map};
ghost use Rattle.clap.specs.Words.{found_of, rows_of};
ghost use Rattle.zk_conversation.specs.Views.{call_view, mode_number};
ghost use Rattle.shell_commands.specs.Asks.{call_for, data_given, data_in, data_with, mode_in, version_in};
ghost use Rattle.shell_commands.specs.inner.CommandLine.{TellsIf};

use crate::ask_words::{flag, given};
use crate::line_fault::{LineFault, NO_HEX, NO_VERSION, TWO_DATA, no_data, refused};
use crate::verb::Verb;
use clap::ArgMatches;
use script_words::numbers::natural_of;
use script_words::reads::parse_data;
use script_words::script_fault::ScriptFault;
use std::alloc::Global;
use zk_client::{Call, CreateMode};
use zk_nodes::Path;

/// The greatest version.
const GREATEST: u64 = 2_147_483_647;

/// The bytes of a word that is given for data: as they are, or those that hex means.
fn bytes_of(alloc: Global, word: &str, is_hex: bool) -> Result<Option<Vec<u8>>, LineFault>
    ensures ok { IfOk result (λ bytes. data_given (Some word.now) false is_hex ≡ Some (option_map (λ v. v.items) bytes)) }
    ensures err { IfErr result (TellsIf (data_given (Some word.now) false is_hex ≡ None)) }
{
    if !is_hex {
        return Ok(Some(Vec::from_slice(alloc, word.as_bytes())?));
    }
    match parse_data(alloc, word.as_bytes()) {
        Ok(bytes) => Ok(bytes),
        Err(ScriptFault::Memory) => Err(LineFault::Memory),
        Err(_) => Err(refused(alloc, word, NO_HEX)),
    }
}

/// The data that a word gives, or that no word gives.
fn data_from(
    alloc: Global,
    word: Option<&str>,
    is_null: bool,
    is_hex: bool,
) -> Result<Option<Vec<u8>>, LineFault>
    ensures ok { IfOk result
        (λ bytes. data_given (option_map (λ w. w.now) word.entry) is_null is_hex ≡ Some (option_map (λ v. v.items) bytes)) }
    ensures err { IfErr result (TellsIf (data_given (option_map (λ w. w.now) word.entry) is_null is_hex ≡ None)) }
{
    match (word, is_null) {
        (None, true) => Ok(None),
        (None, false) => Err(no_data(alloc)),
        (Some(word), false) => bytes_of(alloc, word, is_hex),
        (Some(word), true) => Err(refused(alloc, word, TWO_DATA)),
    }
}

/// The data that a word gives, or that no word gives; or none, if a file is named.
fn data_with(
    alloc: Global,
    file: Option<&str>,
    word: Option<&str>,
    is_null: bool,
    is_hex: bool,
) -> Result<Option<Vec<u8>>, LineFault>
    ensures ok { IfOk result (λ bytes. data_with (option_map (λ f. f.now) file.entry) (option_map (λ w. w.now) word.entry) is_null is_hex
        ≡ Some (option_map (λ v. v.items) bytes)) }
    ensures err { IfErr result
        (TellsIf (data_with (option_map (λ f. f.now) file.entry) (option_map (λ w. w.now) word.entry) is_null is_hex ≡ None)) }
{
    let Some(file) = file else {
        return data_from(alloc, word, is_null, is_hex);
    };
    match (word, is_null, is_hex) {
        (None, false, false) => Ok(None),
        (Some(word), _, _) => Err(refused(alloc, word, TWO_DATA)),
        (None, _, _) => Err(refused(alloc, file, TWO_DATA)),
    }
}

/// The data that are given: none if a file is named.
fn data_of(alloc: Global, matches: &ArgMatches<'_>) -> Result<Option<Vec<u8>>, LineFault>
    ensures ok { IfOk result (λ bytes. data_in (rows_of (found_of matches.now)) ≡ Some (option_map (λ v. v.items) bytes)) }
    ensures err { IfErr result (TellsIf (data_in (rows_of (found_of matches.now)) ≡ None)) }
{
    let is_null = flag(matches, "null");
    let is_hex = flag(matches, "hex");
    let word = given(matches, "DATA");
    let file = given(matches, "from");
    data_with(alloc, file, word, is_null, is_hex)
}

/// The version that a node is to have, and -1 for any.
fn version_of(alloc: Global, matches: &ArgMatches<'_>) -> Result<i32, LineFault>
    ensures ok { IfOk result (λ version. version_in (rows_of (found_of matches.now)) ≡ Some version) }
    ensures err { IfErr result (TellsIf (version_in (rows_of (found_of matches.now)) ≡ None)) }
{
    let Some(word) = given(matches, "version") else {
        return Ok(-1);
    };
    match natural_of(word.as_bytes(), GREATEST) {
        Some(version) => Ok(version as i32),
        None => Err(refused(alloc, word, NO_VERSION)),
    }
}

/// Whether the name of a node that is made ends with a number.
fn mode_of(matches: &ArgMatches<'_>) -> CreateMode
    ensures { mode_number result ≡ mode_in (rows_of (found_of matches.now)) }
{
    if flag(matches, "sequential") {
        CreateMode::PersistentSequential
    } else {
        CreateMode::Persistent
    }
}

/// The call that sets the node at a path.
fn set_of(alloc: Global, path: Path, matches: &ArgMatches<'_>) -> Result<Call, LineFault>
    ensures ok { IfOk result (λ call. call_for Verb.Set path (rows_of (found_of matches.now)) ≡ Some (call_view call)) }
    ensures err { IfErr result (TellsIf (call_for Verb.Set path (rows_of (found_of matches.now)) ≡ None)) }
{
    let bytes = data_of(alloc, matches)?;
    let version = version_of(alloc, matches)?;
    Ok(Call::SetData {
        path,
        bytes,
        version,
    })
}

/// The call that makes the node at a path.
fn create_of(alloc: Global, path: Path, matches: &ArgMatches<'_>) -> Result<Call, LineFault>
    ensures ok { IfOk result (λ call. call_for Verb.Create path (rows_of (found_of matches.now)) ≡ Some (call_view call)) }
    ensures err { IfErr result (TellsIf (call_for Verb.Create path (rows_of (found_of matches.now)) ≡ None)) }
{
    let bytes = data_of(alloc, matches)?;
    let mode = mode_of(matches);
    Ok(Call::Create { path, bytes, mode })
}

/// The call that deletes the node at a path.
fn delete_of(alloc: Global, path: Path, matches: &ArgMatches<'_>) -> Result<Call, LineFault>
    ensures ok { IfOk result (λ call. call_for Verb.Delete path (rows_of (found_of matches.now)) ≡ Some (call_view call)) }
    ensures err { IfErr result (TellsIf (call_for Verb.Delete path (rows_of (found_of matches.now)) ≡ None)) }
{
    let version = version_of(alloc, matches)?;
    Ok(Call::Delete { path, version })
}

/// The call that a verb makes of the node at a path.
pub(crate) fn call_of(
    alloc: Global,
    verb: Verb,
    path: Path,
    matches: &ArgMatches<'_>,
) -> Result<Call, LineFault>
    ensures ok { IfOk result (λ call. call_for verb path (rows_of (found_of matches.now)) ≡ Some (call_view call)) }
    ensures err { IfErr result (TellsIf (call_for verb path (rows_of (found_of matches.now)) ≡ None)) }
{
    let watch = false;
    match verb {
        Verb::Get => Ok(Call::GetData { path, watch }),
        Verb::List => Ok(Call::GetChildren { path, watch }),
        Verb::Stat => Ok(Call::Exists { path, watch }),
        Verb::Set => set_of(alloc, path, matches),
        Verb::Create => create_of(alloc, path, matches),
        Verb::Delete => delete_of(alloc, path, matches),
    }
}
