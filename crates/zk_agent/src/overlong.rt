//! An answer that is too long ends its connection, and the call that it is for.

ghost use Rattle.std.specs.Prelude.{◌≡◌, fold};
ghost use Rattle.zk_frames.specs.declared.fault.FrameFault.TheVariants.{TooLong};
ghost use Rattle.zk_turns.specs.Turns.{Framed};
ghost use Rattle.zk_turns.specs.Past.{Dropped};
ghost use Rattle.zk_turns.specs.Rule.{says};
ghost use Rattle.zk_turns.specs.View.{View};
ghost use Rattle.zk_client.specs.Clients.{view_of};
ghost use Rattle.zk_client.specs.Views.{fault_view, output_view, said};
ghost use Rattle.zk_conversation.specs.Pending.{first_ticket};
ghost use Rattle.zk_follow.specs.Following.{AreFollowed};
ghost use Rattle.zk_agent.specs.Overlong.{found_by, is_too_long, nothing_found, refused_by, too_long_in};

use std::alloc::Allocator;
use zk_client::{Fault, Output};
use zk_follow::Follower;
use zk_frames::FrameFault;

/// What is found in outputs: whether the connection is given up since a frame is too long, and the ticket of the first answer after that.
#[derive(Clone, Copy)]
pub struct Seeking {
    pub(crate) is_over: bool,
    pub(crate) ticket: Option<u64>,
}

/// Whether a connection is given up since a frame is too long.
fn is_too_long(fault: Fault) -> bool
    ensures { result ≡ is_too_long (fault_view fault) }
{
    matches!(fault, Fault::Framed(FrameFault::TooLong))
}

impl Seeking {
    /// Nothing was found.
    fn new() -> Seeking
        ensures { result ≡ nothing_found }
    {
        Seeking {
            is_over: false,
            ticket: None,
        }
    }

    /// Goes on with an output.
    fn pass<A: Allocator>(&mut self, output: &Output<A>)
        ensures { self.new ≡ found_by self.old (output_view output.now) }
    {
        match output {
            Output::Drop(fault) => self.is_over = self.is_over || is_too_long(*fault),
            Output::Answer { ticket, .. } => {
                if self.is_over && self.ticket.is_none() {
                    self.ticket = Some(*ticket);
                }
            }
            _ => {}
        }
    }
}

/// The ticket of the call whose answer is too long, by what the client says.
#[tactic(auto, using(crate::proofs::Saying::fold_said))]
pub(crate) fn too_long_in<A: Allocator>(outputs: &[Output<A>]) -> Option<u64>
    ensures { result ≡ too_long_in (said outputs.now) }
{
    let mut seeking = Seeking::new();
    for output in outputs {
        seeking.pass(output);
    }
    seeking.ticket
}

/// The subject of a call whose answer is too long is refused.
pub(crate) fn refuse<A: Allocator + Copy>(
    follower: &mut Follower<A>,
    now: u64,
    too_long: Option<u64>,
)
    ensures client { follower.new.client ≡ follower.old.client }
    ensures subjects { follower.new.subjects.items ≡ refused_by now too_long follower.old.subjects.items }
    ensures followed { AreFollowed now (view_of follower.old.client) follower.old.subjects.items
        → AreFollowed now (view_of follower.new.client) follower.new.subjects.items }
{
    if let Some(ticket) = too_long {
        follower.refuse(now, ticket);
    }
}

/// The call whose answer is too long is the first of those that wait, if one does.
pub fn the_first_waits()
    ensures { (view : View) → too_long_in (says view (Dropped (Framed TooLong))) ≡ first_ticket view.pending }
{}
