//! Why a command line asks for nothing.

ghost use Rattle.std.specs.Prelude.{◌≡◌};
ghost use Rattle.shell_commands.specs.inner.CommandLine.{IsNoHelp};
ghost use Rattle.shell_commands.specs.declared.line_fault.LineFault.TheVariants as faults;

use std::alloc::{AllocError, Global};
use thiserror::Error;
use zk_nodes::PathFault;

/// What is told after a word.
pub(crate) const NO_ADDRESS: &str = " is no address: IP:PORT in numbers, as 127.0.0.1:2181";

pub(crate) const NO_SERVER: &str = " is no server: HOST:PORT, as zk1:2181 or [::1]:2181";

pub(crate) const NO_TIMEOUT: &str = " is no timeout: a number of milliseconds from 1 to 2147483647";

pub(crate) const NO_DURATION: &str = " is no time to watch: a number of seconds from 1 to 4294967";

pub(crate) const NO_WAIT: &str = " is no time to wait: a number of seconds from 1 to 4294967";

pub(crate) const NO_DEPTH: &str = " is no depth: a number from 0 to 4294967295";

pub(crate) const NO_MOST: &str = " is no number of nodes: a number from 1 to 4294967295";

pub(crate) const NO_HEX: &str =
    " is no hex: two digits for each byte, \\e for no bytes, or \\0 for null";

pub(crate) const NO_VERSION: &str = " is no version: a number from 0 to 2147483647";

/// Others are given beside it.
pub(crate) const TWO_DATA: &str =
    ": give DATA, with --hex where it is hex, or --null, or --from FILE";

/// Why a command line asks for nothing.
#[derive(Debug, Drop, Error)]
pub enum LineFault {
    /// It asks for help or for the version, which this is.
    #[error("{0}")]
    Help(String),
    /// It is refused, and this is why.
    #[error("{0}")]
    Refused(String),
    #[error("out of memory")]
    Memory,
}

impl From<AllocError> for LineFault {
    ghost from_gives = { λ _ f. f ≡ faults.Memory };

    fn from(_e: AllocError) -> LineFault {
        LineFault::Memory
    }
}

/// A refusal with this text.
fn refusal(text: Result<String, AllocError>) -> LineFault
    ensures { IsNoHelp result }
{
    match text {
        Ok(text) => LineFault::Refused(text),
        Err(_) => LineFault::Memory,
    }
}

/// What is told if the words ask for nothing.
pub(crate) fn no_command(alloc: Global) -> LineFault
    ensures { IsNoHelp result }
{
    refusal(String::from_str(alloc, "error: no command\n"))
}

/// What is told of a word, and this after it.
pub(crate) fn refused(alloc: Global, word: &str, why: &str) -> LineFault
    ensures { IsNoHelp result }
{
    refusal(format!(in alloc; "error: {word:?}{why}\n"))
}

/// What is told of a word that is no path.
pub(crate) fn no_path(alloc: Global, word: &str, fault: PathFault) -> LineFault
    ensures { IsNoHelp result }
{
    refusal(format!(in alloc; "error: {word:?}: {fault}\n"))
}

/// What is told if no data are given.
pub(crate) fn no_data(alloc: Global) -> LineFault
    ensures { IsNoHelp result }
{
    refusal(String::from_str(
        alloc,
        "error: DATA is missing: give it, or --from FILE, or --null for null data\n",
    ))
}
