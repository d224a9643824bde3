//! A session for one call.

ghost use Rattle.std.specs.Prelude.{◌<ℤ◌, pos, None, IfOk, IfSome, OnOk};
ghost use Rattle.zk_conversation.specs.Views.{call_view};
ghost use Rattle.zk_driver.specs.Driving.{course_of};
ghost use Rattle.zk_driver.specs.Flowing.{flow_of, Runs};
ghost use Rattle.shell_ask.specs.inner.Asking.{came_view};
ghost use Rattle.shell_ask.specs.Asking.{ComesOf, Heard};

use crate::came::{Came, wait_for_answer};
use std::alloc::Allocator;
use zk_client::{Call, State};
use zk_driver::{Driver, Stop};
use zk_link::{Clock, Dial};

/// The longest timeout that a session asks for, in milliseconds.
const LONGEST_TIMEOUT_MS: u64 = 10_000;

/// How long to wait for the end of a session, in milliseconds.
const CLOSE_MS: u64 = 1_000;

/// The ticket of the call that ends the session.
const CLOSE: u64 = 0;

/// The ticket of the first call.
pub(crate) const CALL: u64 = 1;

/// The timeout that a session asks for whose calls wait this many milliseconds. It is no longer than they wait: so a server that is silent
/// is left while there is time for another one.
pub(crate) fn timeout_for(wait_ms: u64) -> i32
    ensures { pos 0 <ℤ result }
{
    (wait_ms.min(LONGEST_TIMEOUT_MS) as i32).max(1)
}

/// Ends the session of a driver, if it is connected, and waits for that a second at most. Whether it ended so is told to nobody.
pub(crate) fn close<A: Allocator + Copy, D: Dial + Drop, C: Clock + Drop>(
    driver: &mut Driver<'_, A, D, C>,
) {
    if !matches!(driver.client().state(), State::Connected) {
        return;
    }
    let until = driver.now().saturating_add(CLOSE_MS);
    if driver.ask(CLOSE, Call::Close, Some(until)).is_ok() {
        let _ = wait_for_answer(driver, CLOSE, until);
    }
}

/// Hands a driver a call, with a ticket that no other call has or had, and goes on with it to this moment at most, until the call is
/// answered.
pub(crate) fn answered<A: Allocator + Copy, D: Dial + Drop, C: Clock + Drop>(
    driver: &mut Driver<'_, A, D, C>,
    ticket: u64,
    call: Call<A>,
    until: u64,
) -> Result<Came<A>, Stop>
    ensures heard { IfOk result
        (λ came. Heard (call_view call) until (course_of driver.old.engine None) (came_view came) (course_of driver.new.engine None)) }
    ensures runs { OnOk result (Runs (flow_of D.Stream.remaining D.Stream.contents D.Stream.far D.Stream.state driver.old.engine None)
        (flow_of D.Stream.remaining D.Stream.contents D.Stream.far D.Stream.state driver.new.engine None)) }
{
    driver.ask(ticket, call, Some(until))?;
    wait_for_answer(driver, ticket, until)
}

/// What comes of a call of servers at these addresses within this many milliseconds, in a session of its own. An error says that memory ran
/// out.
pub(crate) fn come<A: Allocator + Copy, D: Dial + Drop, C: Clock + Drop>(
    alloc: A,
    dial: D,
    clock: C,
    addresses: &[&str],
    call: Call<A>,
    wait_ms: u64,
) -> Option<Came<A>>
    ensures { IfSome result (λ came. ComesOf A D.Stream.far (call_view call) (came_view came)) }
{
    let timeout_ms = timeout_for(wait_ms);
    let Ok(mut driver) = Driver::begin(alloc, timeout_ms, dial, clock, addresses) else {
        return None;
    };
    let until = driver.now().saturating_add(wait_ms);
    let came = answered(&mut driver, CALL, call, until);
    close(&mut driver);
    drop(driver);
    match came {
        Ok(came) => Some(came),
        Err(_) => None,
    }
}
