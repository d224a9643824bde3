//! The file that a command line names, and what it gives.

ghost use Rattle.std.specs.Prelude.{◌≡◌, ◌≤◌, ◌<◌, List, ℕ, Option, IfOk, IfErr, length};
ghost use Rattle.std.specs.Option.{option_map};
ghost use Rattle.zk_conversation.specs.Views.{call_view};
ghost use Rattle.zk_limits.specs.declared.limits.TheConstants.{LONGEST_OUTGOING};
ghost use Rattle.shell_commands.specs.Files.{AreWhole, IsAskedBy, IsTooLong, given_by, with_data};
ghost use Rattle.shell_commands.specs.inner.Files.{fault_of};

use script_words::input::{InputFault, read_whole};
use std::alloc::{AllocError, Global};
use std::io::{self, ErrorKind, Read};
use zk_client::Call;
use zk_limits::LONGEST_OUTGOING;

/// What opens files to read.
pub trait Files {
    /// A file that is read.
    type File: Read + Drop;

    /// What the file of a name gives, if that is known.
    ghost holds: { Self → List ℕ → Option (List ℕ) };

    /// Opens the file of a name, to be read from its first byte.
    fn open(&self, name: &str) -> io::Result<Self::File>
        ensures { IfOk result (λ file. Self.File.remaining file ≡ holds self.now name.now) };
}

/// Why a file that is named gives no data.
#[derive(Clone, Copy)]
pub enum FileFault {
    /// There is no file of this name.
    Missing,
    /// The system does not let it be read.
    Denied,
    /// It could not be opened, a read failed, or its end did not come by the last read.
    Unread,
    /// It has more bytes than a frame takes.
    TooLong,
    /// Memory ran out.
    Memory,
}

/// Why a file is not opened.
fn fault_of(kind: ErrorKind) -> FileFault
    ensures { result ≡ fault_of kind }
{
    match kind {
        ErrorKind::NotFound => FileFault::Missing,
        ErrorKind::PermissionDenied => FileFault::Denied,
        _ => FileFault::Unread,
    }
}

/// These bytes, if a frame takes as many.
fn within(bytes: Vec<u8>) -> Result<Vec<u8>, FileFault>
    ensures ok { IfOk result (λ same. (same.items ≡ bytes.items) × (length bytes.items ≤ LONGEST_OUTGOING)) }
    ensures err { IfErr result (λ fault. (fault ≡ FileFault.TooLong) × (LONGEST_OUTGOING < length bytes.items)) }
{
    if bytes.len() > LONGEST_OUTGOING {
        return Err(FileFault::TooLong);
    }
    Ok(bytes)
}

/// The bytes that a reader gives up to its end, if a frame takes as many.
fn whole_of<R: Read + Drop>(alloc: Global, input: R) -> Result<Vec<u8>, FileFault>
    ensures whole { IfOk result (λ bytes. AreWhole (R.remaining input) bytes.items) }
    ensures long { IfErr result (λ fault. fault ≡ FileFault.TooLong → IsTooLong (R.remaining input)) }
{
    let mut first = input.take(LONGEST_OUTGOING as u64 + 1);
    match read_whole(alloc, &mut first) {
        Ok(bytes) => within(bytes),
        Err(InputFault::Unread) => Err(FileFault::Unread),
        Err(InputFault::Memory) => Err(FileFault::Memory),
    }
}

/// The bytes of the file of a name, or of standard input if the name is `-`.
fn bytes_of<F: Files, I: Read>(
    alloc: Global,
    files: &F,
    input: &mut I,
    name: &str,
) -> Result<Vec<u8>, FileFault>
    ensures whole { IfOk result (λ bytes. AreWhole (given_by (F.holds files.now) (I.remaining input.old) name.now) bytes.items) }
    ensures long { IfErr result
        (λ fault. fault ≡ FileFault.TooLong → IsTooLong (given_by (F.holds files.now) (I.remaining input.old) name.now)) }
{
    if name == "-" {
        return whole_of(alloc, input);
    }
    match files.open(name) {
        Ok(file) => whole_of(alloc, file),
        Err(fault) => Err(fault_of(fault.kind())),
    }
}

/// A call with these data, if it has data.
fn with_data(call: Call, given: Vec<u8>) -> Call
    ensures { call_view result ≡ with_data given.items (call_view call) }
{
    match call {
        Call::SetData { path, version, .. } => Call::SetData {
            path,
            bytes: Some(given),
            version,
        },
        Call::Create { path, mode, .. } => Call::Create {
            path,
            bytes: Some(given),
            mode,
        },
        call => call,
    }
}

/// The call that is asked: if a file is named, with its bytes as the data.
pub(crate) fn asked_by<F: Files, I: Read>(
    alloc: Global,
    files: &F,
    input: &mut I,
    from: Option<&str>,
    call: Call,
) -> Result<Call, FileFault>
    ensures ok { IfOk result (λ asked.
        IsAskedBy (F.holds files.now) (I.remaining input.old) (option_map (λ f. f.now) from.entry) (call_view call) (call_view asked)) }
    ensures err { IfErr result (λ fault. (name : List ℕ) × (option_map (λ f. f.now) from.entry ≡ Some name)
        × (fault ≡ FileFault.TooLong → IsTooLong (given_by (F.holds files.now) (I.remaining input.old) name))) }
{
    let Some(name) = from else {
        return Ok(call);
    };
    match bytes_of(alloc, files, input, name) {
        Ok(bytes) => Ok(with_data(call, bytes)),
        Err(fault) => Err(fault),
    }
}
