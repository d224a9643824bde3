//! A command line, run.

ghost use Rattle.std.specs.Prelude.{◌≡◌, ◌≢◌, List, ℕ, map};
ghost use Rattle.std.specs.Io.KnownBytes.{Appends};
ghost use Rattle.clap.specs.Words.{Text};
ghost use Rattle.shell_commands.specs.Asks.{IsUndone};
ghost use Rattle.shell_commands.specs.CommandLine.{AsksFor};
ghost use Rattle.shell_commands.specs.Run.{IsCutOff, IsDone, IsFaulty, IsHelpText, IsNeverConnected, IsRefusal, IsRefusalText, IsUndoneBy};
ghost use Rattle.shell_commands.specs.Run.{IsWhole};
ghost use Rattle.shell_commands.specs.Servers.{served};

use crate::ask::ask_with;
use crate::capture::{ToldCapture, asks_stream};
use crate::command::{Command, Scope, command_of};
use crate::default_servers::with_servers;
use crate::files::Files;
use crate::line_fault::LineFault;
use crate::plays::{LiveClient, RehearsedClient, ReplayedClient, ToldHistory};
use crate::script::script_over;
use crate::show::show;
use crate::status::Status;
use crate::tree::tour_over;
use crate::watch::watch_over;
use crate::written::write_text;
use shell_watch::{Style, WatchPlan};
use std::alloc::Global;
use std::io::{Read, Write};
use zk_link::{Clock, Dial};

/// The plan of a watch.
fn plan_of<'a>(
    addresses: &'a [&'a str],
    scope: Scope,
    timeout_ms: i32,
    for_ms: Option<u64>,
    style: Style,
) -> WatchPlan<'a, Global>
    ensures subjects { result.subjects ≡ scope.subjects }
    ensures trees { result.trees ≡ scope.trees }
    ensures most { result.most ≡ scope.most }
    ensures for_ms { result.for_ms ≡ for_ms }
    ensures style { result.style ≡ style }
{
    let Scope {
        subjects,
        trees,
        most,
    } = scope;
    WatchPlan {
        addresses,
        subjects,
        trees,
        most,
        timeout_ms,
        for_ms,
        style,
    }
}

/// Runs a command.
fn perform<F: Files, D: Dial + Drop, C: Clock + Drop, I: Read, O: Write, E: Write>(
    alloc: Global,
    files: &F,
    mut dial: D,
    clock: C,
    input: &mut I,
    out: &mut O,
    errors: &mut E,
    command: Command<'_>,
) -> Status
    ensures done { result ≡ Status.Done → (words : List Text) → AsksFor words command.entry
        → (text : List ℕ) × IsDone D.Stream.far words (F.holds files.now) (I.remaining input.old) text
        × Appends (O.contents out.old) (O.contents out.new) text × (errors.new ≡ errors.old) }
    ensures fault { result ≡ Status.Fault → (words : List Text) → AsksFor words command.entry
        → (text told : List ℕ) × IsFaulty words (I.remaining input.old) text told × Appends (O.contents out.old) (O.contents out.new) text
        × Appends (E.contents errors.old) (E.contents errors.new) told }
    ensures usage { result ≢ Status.Usage }
    ensures undone { IsUndone result → (words : List Text) → AsksFor words command.entry
        → (told : List ℕ) × IsUndoneBy D.Stream.far words (F.holds files.now) (I.remaining input.old) result told
        × Appends (E.contents errors.old) (E.contents errors.new) told × (out.new ≡ out.old) }
    ensures never { result ≡ Status.NeverConnected → (words : List Text) → AsksFor words command.entry → (text : List ℕ)
        × IsNeverConnected D.Stream.far words text × Appends (O.contents out.old) (O.contents out.new) text × (errors.new ≡ errors.old) }
    ensures more { result ≡ Status.More → (words : List Text) → AsksFor words command.entry
        → (text told : List ℕ) × IsCutOff D.Stream.far words text
        told × Appends (O.contents out.old) (O.contents out.new) text × Appends (E.contents errors.old) (E.contents errors.new) told }
    ensures memory { result ≡ Status.Memory → (words : List Text) → AsksFor words command.entry → (text : List ℕ)
        × IsWhole D.Stream.far words (I.remaining input.old) text × Appends (O.contents out.old) (O.contents out.new) text
        × (errors.new ≡ errors.old) }
{
    match command {
        Command::Show { kind, hex } => show(alloc, out, errors, kind, hex),
        Command::History => script_over(alloc, ToldHistory, input, out, errors),
        Command::Replay => script_over(alloc, ReplayedClient, input, out, errors),
        Command::Rehearse => script_over(alloc, RehearsedClient, input, out, errors),
        Command::Live { addresses } => {
            let (dial, addresses) = (&mut dial, addresses.as_slice());
            let plays = LiveClient { dial, addresses };
            script_over(alloc, plays, input, out, errors)
        }
        Command::Watch {
            addresses,
            scope,
            timeout_ms,
            for_ms,
            style,
        } => {
            let addresses = addresses.as_slice();
            let plan = plan_of(addresses, scope, timeout_ms, for_ms, style);
            watch_over(alloc, dial, clock, plan, out)
        }
        Command::Ask(question) => {
            ask_with(alloc, files, dial, clock, question, input, out, errors)
        }
        Command::Tree(tour) => tour_over(alloc, dial, clock, tour, out, errors),
    }
}

/// Tells why a command line asks for nothing.
fn tell_line<O: Write, E: Write>(out: &mut O, errors: &mut E, fault: LineFault) -> Status
    ensures done { result ≡ Status.Done
        → (text : List ℕ) × IsHelpText fault text × Appends (O.contents out.old) (O.contents out.new) text × (errors.new ≡ errors.old) }
    ensures fault { result ≢ Status.Fault }
    ensures usage { result ≡ Status.Usage
        → (told : List ℕ) × IsRefusalText fault told × Appends (E.contents errors.old) (E.contents errors.new) told × (out.new ≡ out.old) }
    ensures asks { IsUndone result → ⊥ }
    ensures never { result ≢ Status.NeverConnected }
    ensures more { result ≢ Status.More }
    ensures memory { result ≡ Status.Memory → (out.new ≡ out.old) × (errors.new ≡ errors.old) }
{
    match fault {
        LineFault::Help(text) => write_text(out, text.as_str(), Status::Done),
        LineFault::Refused(text) => write_text(errors, text.as_str(), Status::Usage),
        LineFault::Memory => Status::Memory,
    }
}

/// Runs the command that the words ask for.
fn run_words<F: Files, D: Dial + Drop, C: Clock + Drop, I: Read, O: Write, E: Write>(
    alloc: Global,
    files: &F,
    dial: D,
    clock: C,
    input: &mut I,
    out: &mut O,
    errors: &mut E,
    words: &[&str],
) -> Status
    ensures done { result ≡ Status.Done
        → (text : List ℕ) × IsDone D.Stream.far (map (λ w. w.now) words.entry.now) (F.holds files.now) (I.remaining input.old) text
        × Appends (O.contents out.old) (O.contents out.new) text × (errors.new ≡ errors.old) }
    ensures fault { result ≡ Status.Fault
        → (text told : List ℕ) × IsFaulty (map (λ w. w.now) words.entry.now) (I.remaining input.old) text told
        × Appends (O.contents out.old) (O.contents out.new) text × Appends (E.contents errors.old) (E.contents errors.new) told }
    ensures usage { result ≡ Status.Usage → (told : List ℕ) × IsRefusal (map (λ w. w.now) words.entry.now) told
        × Appends (E.contents errors.old) (E.contents errors.new) told × (out.new ≡ out.old) }
    ensures undone { IsUndone result
        → (told : List ℕ)
        × IsUndoneBy D.Stream.far (map (λ w. w.now) words.entry.now) (F.holds files.now) (I.remaining input.old) result told
        × Appends (E.contents errors.old) (E.contents errors.new) told × (out.new ≡ out.old) }
    ensures never { result ≡ Status.NeverConnected → (text : List ℕ) × IsNeverConnected D.Stream.far (map (λ w. w.now) words.entry.now) text
        × Appends (O.contents out.old) (O.contents out.new) text × (errors.new ≡ errors.old) }
    ensures more { result ≡ Status.More → (text told : List ℕ) × IsCutOff D.Stream.far (map (λ w. w.now) words.entry.now) text told
        × Appends (O.contents out.old) (O.contents out.new) text × Appends (E.contents errors.old) (E.contents errors.new) told }
    ensures memory { result ≡ Status.Memory
        → (text : List ℕ) × IsWhole D.Stream.far (map (λ w. w.now) words.entry.now) (I.remaining input.old) text
        × Appends (O.contents out.old) (O.contents out.new) text × (errors.new ≡ errors.old) }
{
    if asks_stream(words) {
        return script_over(alloc, ToldCapture, input, out, errors);
    }
    match command_of(alloc, words) {
        Ok(command) => perform(alloc, files, dial, clock, input, out, errors, command),
        Err(fault) => tell_line(out, errors, fault),
    }
}

/// Runs the command that the words ask for. The first word is the program's name. `dial` connects to addresses, for what runs over
/// connections, `clock` tells moments to a watch and to a call, and `files` opens the file that a command names. A command that asks or
/// watches has these servers if no word of it names any.
pub fn run<F: Files, D: Dial + Drop, C: Clock + Drop, I: Read, O: Write, E: Write>(
    alloc: Global,
    files: &F,
    dial: D,
    clock: C,
    input: &mut I,
    out: &mut O,
    errors: &mut E,
    words: &[&str],
    servers: &str,
) -> Status
    // A frame is shown, the frames of a capture are told, a history is answered, a replay, a rehearsal, a session, a watch or the answer to
    // a call is printed, or help is told.
    ensures done { result ≡ Status.Done
        → (text : List ℕ) × IsDone D.Stream.far (served servers.now (map (λ w. w.now) words.entry.now)) (F.holds files.now)
        (I.remaining input.old) text × Appends (O.contents out.old) (O.contents out.new) text × (errors.new ≡ errors.old) }
    // The frame or a line of the script is refused, and this is told.
    ensures fault { result ≡ Status.Fault
        → (text told : List ℕ) × IsFaulty (served servers.now (map (λ w. w.now) words.entry.now)) (I.remaining input.old) text told
        × Appends (O.contents out.old) (O.contents out.new) text × Appends (E.contents errors.old) (E.contents errors.new) told }
    // The words are refused, and this is told.
    ensures usage { result ≡ Status.Usage → (told : List ℕ) × IsRefusal (served servers.now (map (λ w. w.now) words.entry.now)) told
        × Appends (E.contents errors.old) (E.contents errors.new) told × (out.new ≡ out.old) }
    // A call is not done, or may not be, or the file with its data is not read, and this is told.
    ensures undone { IsUndone result
        → (told : List ℕ)
        × IsUndoneBy D.Stream.far (served servers.now (map (λ w. w.now) words.entry.now)) (F.holds files.now) (I.remaining input.old)
        result told × Appends (E.contents errors.old) (E.contents errors.new) told × (out.new ≡ out.old) }
    // The time of a watch is over, and no server has ever accepted its session.
    ensures never { result ≡ Status.NeverConnected
        → (text : List ℕ) × IsNeverConnected D.Stream.far (served servers.now (map (λ w. w.now) words.entry.now)) text
        × Appends (O.contents out.old) (O.contents out.new) text × (errors.new ≡ errors.old) }
    // As many nodes of a tree as are to be are printed, there are more, and this is told.
    ensures more { result ≡ Status.More
        → (text told : List ℕ) × IsCutOff D.Stream.far (served servers.now (map (λ w. w.now) words.entry.now)) text told
        × Appends (O.contents out.old) (O.contents out.new) text × Appends (E.contents errors.old) (E.contents errors.new) told }
    // Nothing is written, or whole answers of a history, or what whole lines of a replay, a rehearsal or a session print, or what a
    // watch prints.
    ensures memory { result ≡ Status.Memory
        → (text : List ℕ) × IsWhole D.Stream.far (served servers.now (map (λ w. w.now) words.entry.now)) (I.remaining input.old) text
        × Appends (O.contents out.old) (O.contents out.new) text × (errors.new ≡ errors.old) }
{
    match with_servers(alloc, servers, words) {
        Ok(words) => run_words(
            alloc,
            files,
            dial,
            clock,
            input,
            out,
            errors,
            words.as_slice(),
        ),
        Err(_) => Status::Memory,
    }
}
