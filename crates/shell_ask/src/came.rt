//! What comes of a call.

ghost use Rattle.std.specs.Prelude.{◌≡◌, ◌∷◌, [], IfOk, OnOk, None, Some};
ghost use Rattle.std.specs.Option.{is_some};
ghost use Rattle.zk_conversation.specs.Views.{call_view};
ghost use Rattle.zk_client.specs.Clients.{view_of};
ghost use Rattle.zk_agent.specs.declared.input.AgentInput.TheVariants as happens;
ghost use Rattle.zk_driver.specs.Driving.{course_of, Course, Hands};
ghost use Rattle.zk_driver.specs.Flowing.{flow_of, Runs};
ghost use Rattle.shell_ask.specs.inner.Asking.{came_view};
ghost use Rattle.shell_ask.specs.Asking.{has_session, Hears};

use std::alloc::Allocator;
use zk_client::{Call, Outcome};
use zk_driver::{Action, Driver, Stop};
use zk_link::{Clock, Dial};

/// What came of a call.
#[derive(Drop)]
pub(crate) enum Came<A: Allocator> {
    /// It was answered so.
    Answered(Outcome<A>),
    /// Its time was over: whether it may have been sent, and whether a server had accepted the session by then.
    Late { was_sent: bool, was_accepted: bool },
}

/// Whether a server has accepted the session of a driver.
fn is_accepted<A: Allocator + Copy, D: Dial + Drop, C: Clock + Drop>(
    driver: &Driver<'_, A, D, C>,
) -> bool
    ensures { result ≡ has_session (view_of driver.now.engine.agent.asker.follower.client) }
{
    driver.client().saved().session != 0
}

/// Goes on with a driver until a call is answered, or this moment, which is its limit, has come.
pub(crate) fn wait_for_answer<A: Allocator + Copy, D: Dial + Drop, C: Clock + Drop>(
    driver: &mut Driver<'_, A, D, C>,
    ticket: u64,
    until: u64,
) -> Result<Came<A>, Stop>
    ensures hears { IfOk result
        (λ came. Hears ticket until (course_of driver.new.engine None) (course_of driver.old.engine None) (came_view came)) }
    ensures runs { OnOk result (Runs (flow_of D.Stream.remaining D.Stream.contents D.Stream.far D.Stream.state driver.old.engine None)
        (flow_of D.Stream.remaining D.Stream.contents D.Stream.far D.Stream.state driver.new.engine None)) }
{
    for _ in 0..u64::MAX {
        match driver.next(until)? {
            Some(
                Action::Answer {
                    ticket: its,
                    outcome,
                },
            ) if its == ticket => {
                return Ok(Came::Answered(outcome));
            }
            Some(
                Action::TimedOut {
                    ticket: its,
                    was_sent,
                },
            ) if its == ticket => {
                let was_accepted = is_accepted(driver);
                return Ok(Came::Late {
                    was_sent,
                    was_accepted,
                });
            }
            Some(other) => drop(other),
            None => {
                let was_accepted = is_accepted(driver);
                return Ok(Came::Late {
                    was_sent: true,
                    was_accepted,
                });
            }
        }
    }
    Err(Stop::Memory)
}
