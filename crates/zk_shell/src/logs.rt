//! Histories of transaction logs, whose files are read whole.

use crate::disk::Disk;
use script_words::input::{InputFault, read_whole};
use shell_commands::files::Files;
use shell_commands::status::Status;
use shell_log::{LOG_HELP, LogPlan, LogUsage, LogsFault, history_of, plan_of};
use std::alloc::{AllocError, Global};
use std::io::{ErrorKind, Write};

/// Why a file is not read.
enum Unread {
    Fault(ErrorKind),
    Memory,
}

/// The bytes of the file of a name.
fn bytes_of(alloc: Global, disk: &Disk<'_>, name: &str) -> Result<Vec<u8>, Unread> {
    let mut file = match disk.open(name) {
        Ok(file) => file,
        Err(fault) => return Err(Unread::Fault(fault.kind())),
    };
    match read_whole(alloc, &mut file) {
        Ok(bytes) => Ok(bytes),
        Err(InputFault::Unread) => Err(Unread::Fault(ErrorKind::Other)),
        Err(InputFault::Memory) => Err(Unread::Memory),
    }
}

/// The bytes of each file. A file that is not read is told.
fn read_all<E: Write>(
    alloc: Global,
    disk: &Disk<'_>,
    names: &[&str],
    errors: &mut E,
) -> Result<Vec<Vec<u8>>, Status> {
    let mut all = Vec::new(alloc);
    for name in names {
        match bytes_of(alloc, disk, name) {
            Ok(bytes) => {
                if all.push(bytes).is_err() {
                    return Err(Status::Memory);
                }
            }
            Err(Unread::Memory) => return Err(Status::Memory),
            Err(Unread::Fault(kind)) => {
                let _ = writeln!(errors, "{}: {kind}", name.as_bytes().escape_ascii());
                return Err(Status::Unread);
            }
        }
    }
    Ok(all)
}

/// Tells why a log has no history, after its name.
fn tell_of_log<E: Write>(errors: &mut E, name: &[u8], fault: LogsFault) {
    let name = name.escape_ascii();
    let _ = match fault {
        LogsFault::Unread(_, fault) => writeln!(errors, "{name}: {fault}"),
        LogsFault::Part(_, place, fault) => {
            writeln!(errors, "{name}: byte {place}: a part of a multi: {fault}")
        }
        LogsFault::Digest(_, place, zxid) => writeln!(
            errors,
            "{name}: byte {place}: zxid {zxid} has the digest of another tree: transactions before it are missing, or were taken back"
        ),
        LogsFault::Untold(_, fault) => {
            writeln!(errors, "{name}: byte {}: {}", fault.place, fault.why)
        }
        _ => writeln!(
            errors,
            "{name}: its zxids are not above those of the other logs"
        ),
    };
}

/// Tells why logs have no history.
fn tell_fault<E: Write>(errors: &mut E, names: &[&str], fault: LogsFault) -> Status {
    let number = match fault {
        LogsFault::Memory => return Status::Memory,
        LogsFault::Negative(zxid) => {
            let _ = writeln!(
                errors,
                "zxid {zxid}: a time or an owner below 0, which no script has"
            );
            return Status::Fault;
        }
        LogsFault::Unread(number, _)
        | LogsFault::Part(number, _, _)
        | LogsFault::Overlaps(number)
        | LogsFault::Untold(number, _)
        | LogsFault::Digest(number, _, _) => { number }
    };
    let name = names.get(number).copied().unwrap_or("").as_bytes();
    tell_of_log(errors, name, fault);
    Status::Fault
}

/// The bytes of files.
fn slices_of(alloc: Global, all: &[Vec<u8>]) -> Result<Vec<&[u8]>, AllocError> {
    let mut slices = Vec::new(alloc);
    for bytes in all {
        slices.push(bytes.as_slice())?;
    }
    Ok(slices)
}

/// Prints what the logs of a plan say.
fn tell_plan<O: Write, E: Write>(
    alloc: Global,
    disk: &Disk<'_>,
    plan: &LogPlan<'_, Global>,
    out: &mut O,
    errors: &mut E,
) -> Status {
    let all = match read_all(alloc, disk, plan.files.as_slice(), errors) {
        Ok(all) => all,
        Err(status) => return status,
    };
    let Ok(files) = slices_of(alloc, all.as_slice()) else {
        return Status::Memory;
    };
    match history_of(alloc, plan, files.as_slice()) {
        Err(fault) => tell_fault(errors, plan.files.as_slice(), fault),
        Ok(told) => {
            let status = match told.fault {
                None => Status::Done,
                Some(fault) => tell_fault(errors, plan.files.as_slice(), fault),
            };
            write_bytes(out, told.text.as_slice(), status)
        }
    }
}

/// Writes bytes.
fn write_bytes<O: Write>(out: &mut O, bytes: &[u8], status: Status) -> Status {
    if out.write_all(bytes).is_err() || out.flush().is_err() {
        return Status::Stream;
    }
    status
}

/// Prints the history of logs that these words ask for.
pub fn tell_logs<O: Write, E: Write>(
    alloc: Global,
    disk: &Disk<'_>,
    words: &[&str],
    out: &mut O,
    errors: &mut E,
) -> Status {
    match plan_of(alloc, words) {
        Ok(plan) => tell_plan(alloc, disk, &plan, out, errors),
        Err(LogUsage::Help) => write_bytes(out, LOG_HELP.as_bytes(), Status::Done),
        Err(LogUsage::Memory) => Status::Memory,
        Err(fault) => {
            let _ = writeln!(
                errors,
                "error: {fault}\n\nFor more information, try 'zk_shell history --log --help'."
            );
            Status::Usage
        }
    }
}
