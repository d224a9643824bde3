//! A call, asked and told.

ghost use Rattle.std.specs.Prelude.{◌≡◌, ◌≢◌, ◌⊎◌, ℕ, List};
ghost use Rattle.std.specs.Io.KnownBytes.{Appends};
ghost use Rattle.zk_conversation.specs.Views.{call_view};
ghost use Rattle.shell_ask.specs.inner.Asking.{came_view};
ghost use Rattle.shell_ask.specs.Asking.{ComesOf, Coming};
ghost use Rattle.shell_ask.specs.Printing.{end_of, is_read, told, IsToldEnd, Prints};

use crate::answered::come;
use crate::came::Came;
use crate::end::CallEnd;
use crate::plan::{CallPlan, Form};
use crate::result::printed;
use crate::told::{end_of, is_read, told};
use std::alloc::Allocator;
use std::io::Write;
use zk_link::{Clock, Dial};

/// Writes bytes, and answers this end unless that fails.
pub(crate) fn write<W: Write>(to: &mut W, text: &[u8], end: CallEnd) -> CallEnd
    ensures written { result ≢ CallEnd.Stream → (result ≡ end) × Appends (W.contents to.old) (W.contents to.new) text.now }
    ensures only { (result ≡ end) ⊎ (result ≡ CallEnd.Stream) }
{
    match to.write_all(text) {
        Ok(()) => end,
        Err(_) => CallEnd::Stream,
    }
}

/// Prints what came of a call that is done.
fn print<A: Allocator + Copy, O: Write>(
    alloc: A,
    form: Form,
    chroot: &str,
    came: &Came<A>,
    out: &mut O,
) -> CallEnd
    ensures done { result ≡ CallEnd.Done
        → (text : List ℕ) × Prints form chroot.now (came_view came.now) text × Appends (O.contents out.old) (O.contents out.new) text }
    ensures memory { result ≡ CallEnd.Memory → out.new ≡ out.old }
    ensures only { (result ≡ CallEnd.Done) ⊎ (result ≡ CallEnd.Memory) ⊎ (result ≡ CallEnd.Stream) }
{
    match printed(alloc, form, chroot, came) {
        Ok(text) => write(out, text.as_slice(), CallEnd::Done),
        Err(_) => CallEnd::Memory,
    }
}

/// Tells what came of a call that ends so, and is not done. It may be a read.
fn print_end<A: Allocator + Copy, E: Write>(
    alloc: A,
    is_read: bool,
    name: &str,
    came: &Came<A>,
    end: CallEnd,
    errors: &mut E,
) -> CallEnd
    ensures told { IsToldEnd result
        → (result ≡ end) × Appends (E.contents errors.old) (E.contents errors.new) (told is_read name.now (came_view came.now)) }
    ensures memory { result ≡ CallEnd.Memory → IsToldEnd end → errors.new ≡ errors.old }
    ensures only { (result ≡ end) ⊎ (result ≡ CallEnd.Memory) ⊎ (result ≡ CallEnd.Stream) }
{
    match told(alloc, is_read, name, came) {
        Ok(text) => write(errors, text.as_bytes(), end),
        Err(_) => CallEnd::Memory,
    }
}

/// Prints what came of a call, or tells why it is not done. It may be a read.
fn finish<A: Allocator + Copy, O: Write, E: Write>(
    alloc: A,
    form: Form,
    chroot: &str,
    is_read: bool,
    name: &str,
    came: &Came<A>,
    out: &mut O,
    errors: &mut E,
) -> CallEnd
    ensures done { result ≡ CallEnd.Done
        → (text : List ℕ) × (end_of (came_view came.now) ≡ CallEnd.Done) × Prints form chroot.now (came_view came.now) text
        × Appends (O.contents out.old) (O.contents out.new) text × (errors.new ≡ errors.old) }
    ensures told { IsToldEnd result → (result ≡ end_of (came_view came.now))
        × Appends (E.contents errors.old) (E.contents errors.new) (told is_read name.now (came_view came.now)) × (out.new ≡ out.old) }
    ensures memory { result ≡ CallEnd.Memory → (out.new ≡ out.old) × (errors.new ≡ errors.old) }
{
    match end_of(came) {
        CallEnd::Done => print(alloc, form, chroot, came, out),
        end => print_end(alloc, is_read, name, came, end, errors),
    }
}

/// Asks the call of a plan in a session of its own, prints to `out` what its answer brings, or tells `errors` why it is not done, and ends
/// the session. It waits for the answer as long as the plan says; and for the end of the session a second at most.
///
/// The call is asked once. If there is no answer to it, it may or may not be done.
pub fn ask<A: Allocator + Copy, D: Dial + Drop, C: Clock + Drop, O: Write, E: Write>(
    alloc: A,
    dial: D,
    clock: C,
    plan: CallPlan<'_, A>,
    out: &mut O,
    errors: &mut E,
) -> CallEnd
    // It is done, and this is printed.
    ensures done { result ≡ CallEnd.Done
        → (coming : Coming) × (text : List ℕ) × ComesOf A D.Stream.far (call_view plan.entry.call) coming × (end_of coming ≡ CallEnd.Done)
        × Prints plan.entry.form plan.entry.chroot.now coming text × Appends (O.contents out.old) (O.contents out.new) text
        × (errors.new ≡ errors.old) }
    // It is not done, or may not be, and this is told.
    ensures told { IsToldEnd result
        → (coming : Coming) × ComesOf A D.Stream.far (call_view plan.entry.call) coming × (result ≡ end_of coming)
        × Appends (E.contents errors.old) (E.contents errors.new) (told (is_read (call_view plan.entry.call)) plan.entry.name.now coming)
        × (out.new ≡ out.old) }
    ensures memory { result ≡ CallEnd.Memory → (out.new ≡ out.old) × (errors.new ≡ errors.old) }
{
    let CallPlan {
        addresses,
        call,
        name,
        chroot,
        form,
        wait_ms,
    } = plan;
    let is_read = is_read(&call);
    let Some(came) = come(alloc, dial, clock, addresses, call, wait_ms) else {
        return CallEnd::Memory;
    };
    let end = finish(alloc, form, chroot, is_read, name, &came, out, errors);
    drop(came);
    end
}
