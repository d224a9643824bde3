//! Reads, changes and watches nodes, shows frames of the protocol, answers histories of a data tree, and drives a client by scripts.
#![tactic(auto)]

mod disk;
mod logs;
mod noted;
mod output;
mod told;

use disk::Disk;
use logs::tell_logs;
use noted::Noted;
use output::NotedOutput;
use shell_commands::run::run;
use shell_commands::status::Status;
use shell_log::asks_log;
use std::alloc::AllocError;
use std::cell::RefCell;
use std::env::{self, Args, VarError};
use std::io::{self, ErrorKind};
use std::process::ExitCode;
use told::{tell_notes, tell_stream, tell_word};
use zk_link::{SystemClock, Tcp};

/// The servers of a command whose words name none: those of the environment, or one on this machine. Bytes that are no text are no server.
fn default_servers(rt: &HostRuntime) -> Result<String, AllocError> {
    let servers = match env::var(rt, "DIRWOLLEU_HOSTS") {
        Ok(servers) if !servers.is_empty() => return Ok(servers),
        Ok(_) | Err(VarError::NotPresent) => "127.0.0.1:2181",
        Err(VarError::NotUnicode) => "DIRWOLLEU_HOSTS: not UTF-8",
        Err(VarError::OutOfMemory) => return Err(AllocError),
    };
    String::from_str(rt.alloc(), servers)
}

/// Runs the command that words ask for, and tells what it does not see: why no server was reached, and which stream failed.
fn run_words(rt: &HostRuntime, words: &[&str], servers: &str) -> Status {
    let alloc = rt.alloc();
    let notes = RefCell::new(Vec::new(alloc));
    let mut out = NotedOutput::new(io::writer(rt));
    let mut errors = rt.stderr();
    let mut input = rt.stdin();
    let disk = Disk::new(rt);
    if asks_log(words) {
        let status = tell_logs(alloc, &disk, words, &mut out, &mut errors);
        if status == Status::Stream {
            tell_stream(&mut errors, out.fault());
        }
        return status;
    }
    let status = run(
        alloc,
        &disk,
        Noted::new(alloc, Tcp::new(rt), &notes),
        SystemClock::new(rt),
        &mut input,
        &mut out,
        &mut errors,
        words,
        servers,
    );
    match status {
        Status::Unconnected => tell_notes(&mut errors, &notes),
        Status::Stream => tell_stream(&mut errors, out.fault()),
        _ => {}
    }
    status
}

/// Runs the command that the process's arguments ask for.
fn run_arguments(rt: &HostRuntime, arguments: Args) -> Result<Status, AllocError> {
    let alloc = rt.alloc();
    let words: Vec<String> = arguments.collect(alloc)?;
    let servers = default_servers(rt)?;
    let mut texts = Vec::new(alloc);
    for word in &words {
        texts.push(word.as_str())?;
    }
    Ok(run_words(rt, texts.as_slice(), servers.as_str()))
}

/// Runs the command, if the process's arguments are texts.
fn run_process(rt: &HostRuntime) -> Status {
    match env::args(rt) {
        Ok(arguments) => run_arguments(rt, arguments).unwrap_or(Status::Memory),
        Err(fault) if fault.kind() == ErrorKind::InvalidData => {
            tell_word(rt.alloc(), rt, &mut rt.stderr());
            Status::Usage
        }
        Err(_) => Status::Memory,
    }
}

fn main(rt: HostRuntime) -> ExitCode {
    ExitCode::from(run_process(&rt) as u8)
}
