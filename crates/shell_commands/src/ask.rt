//! The commands that ask for one node.

ghost use Rattle.std.specs.Prelude.{◌≡◌, ◌≢◌, ◌⊎◌, ℕ, List, IfOk, codes, string_bytes};
ghost use Rattle.std.specs.Option.{option_map};
ghost use Rattle.std.specs.Io.KnownBytes.{Appends};
ghost use Rattle.shell_ask.specs.Printing.{fault_line};
ghost use Rattle.zk_conversation.specs.Calls.{Call as Calls};
ghost use Rattle.zk_conversation.specs.Views.{call_view};
ghost use Rattle.shell_commands.specs.Asks.{IsUndone, PrintsAnswer, TellsWhy};
ghost use Rattle.shell_commands.specs.Files.{IsAskedBy, TellsUndone, why_words};

use crate::command::NodeQuestion;
use crate::files::{FileFault, Files, asked_by};
use crate::status::Status;
use crate::written::write_text;
use shell_ask::{CallEnd, CallPlan, ask};
use std::alloc::{AllocError, Allocator, Global};
use std::io::{Read, Write};
use zk_link::{Clock, Dial};

/// Asks the call of a plan over a connection, prints what its answer brings, or tells why it is not done.
pub fn ask_over<A: Allocator + Copy, D: Dial + Drop, C: Clock + Drop, O: Write, E: Write>(
    alloc: A,
    dial: D,
    clock: C,
    plan: CallPlan<'_, A>,
    out: &mut O,
    errors: &mut E,
) -> Status
    ensures done { result ≡ Status.Done
        → (text : List ℕ) × PrintsAnswer A D.Stream.far (call_view plan.entry.call) plan.entry.form plan.entry.chroot.now text
        × Appends (O.contents out.old) (O.contents out.new) text × (errors.new ≡ errors.old) }
    ensures undone { IsUndone result → (text : List ℕ) × TellsWhy A D.Stream.far (call_view plan.entry.call) plan.entry.name.now result text
        × Appends (E.contents errors.old) (E.contents errors.new) text × (out.new ≡ out.old) }
    ensures memory { result ≡ Status.Memory → (out.new ≡ out.old) × (errors.new ≡ errors.old) }
    ensures fault { result ≢ Status.Fault }
    ensures usage { result ≢ Status.Usage }
    ensures never { result ≢ Status.NeverConnected }
    ensures more { result ≢ Status.More }
{
    match ask(alloc, dial, clock, plan, out, errors) {
        CallEnd::Done => Status::Done,
        CallEnd::NoNode => Status::NoNode,
        CallEnd::Refused => Status::Refused,
        CallEnd::Unconnected => Status::Unconnected,
        CallEnd::Unanswered => Status::Unanswered,
        CallEnd::More => Status::More,
        CallEnd::Memory => Status::Memory,
        CallEnd::Stream => Status::Stream,
    }
}

/// Why a file gives no data.
fn why_words(fault: FileFault) -> &'static str
    ensures { result.now ≡ why_words fault }
{
    match fault {
        FileFault::Missing => "there is no such file",
        FileFault::Denied => "the system does not let it be read",
        FileFault::Unread => "a read failed",
        FileFault::TooLong => "it has more than 1,048,575 bytes",
        FileFault::Memory => "out of memory",
    }
}

/// What is told of a file that gives no data.
fn unread_line(alloc: Global, name: &str, fault: FileFault) -> Result<String, AllocError>
    ensures { IfOk result (λ line. string_bytes line ≡ fault_line (codes "unread: ") name.now (why_words fault)) }
{
    let why = why_words(fault);
    format!(in alloc; "unread: {name}: {why}\n")
}

/// Tells why a file gives no data.
fn tell_unread<E: Write>(alloc: Global, name: &str, fault: FileFault, errors: &mut E) -> Status
    ensures unread { result ≡ Status.Unread → (fault ≢ FileFault.Memory)
        × Appends (E.contents errors.old) (E.contents errors.new) (fault_line (codes "unread: ") name.now (why_words fault)) }
    ensures memory { result ≡ Status.Memory → errors.new ≡ errors.old }
    ensures only { (result ≡ Status.Unread) ⊎ (result ≡ Status.Memory) ⊎ (result ≡ Status.Stream) }
{
    if matches!(fault, FileFault::Memory) {
        return Status::Memory;
    }
    match unread_line(alloc, name, fault) {
        Ok(line) => write_text(errors, line.as_str(), Status::Unread),
        Err(_) => Status::Memory,
    }
}

/// Asks a question, with the bytes of a file as its data if one is named; or tells why the file gives none.
pub fn ask_with<F: Files, D: Dial + Drop, C: Clock + Drop, I: Read, O: Write, E: Write>(
    alloc: Global,
    files: &F,
    dial: D,
    clock: C,
    question: NodeQuestion<'_>,
    input: &mut I,
    out: &mut O,
    errors: &mut E,
) -> Status
    ensures done { result ≡ Status.Done → (asked : Calls) × (text : List ℕ)
        × IsAskedBy (F.holds files.now) (I.remaining input.old) (option_map (λ f. f.now) question.entry.from)
        (call_view question.entry.call) asked
        × PrintsAnswer Global D.Stream.far asked question.entry.form (string_bytes question.entry.chroot) text
        × Appends (O.contents out.old) (O.contents out.new) text × (errors.new ≡ errors.old) }
    ensures undone { IsUndone result → (text : List ℕ)
        × TellsUndone Global D.Stream.far (F.holds files.now) (I.remaining input.old) (option_map (λ f. f.now) question.entry.from)
        (call_view question.entry.call) question.entry.name.now result text
        × Appends (E.contents errors.old) (E.contents errors.new) text × (out.new ≡ out.old) }
    ensures memory { result ≡ Status.Memory → (out.new ≡ out.old) × (errors.new ≡ errors.old) }
    ensures fault { result ≢ Status.Fault }
    ensures usage { result ≢ Status.Usage }
    ensures never { result ≢ Status.NeverConnected }
    ensures more { result ≢ Status.More }
{
    let NodeQuestion {
        addresses,
        chroot,
        name,
        call,
        from,
        form,
        wait_ms,
    } = question;
    match asked_by(alloc, files, input, from, call) {
        Ok(call) => {
            let plan = CallPlan {
                addresses: addresses.as_slice(),
                call,
                name,
                chroot: chroot.as_str(),
                form,
                wait_ms,
            };
            ask_over(alloc, dial, clock, plan, out, errors)
        }
        Err(fault) => tell_unread(alloc, from.unwrap_or(""), fault, errors),
    }
}
