//! A ping.

ghost use Rattle.std.specs.Prelude.{◌≡◌, ℕ, List, ◌++◌, OnOk};
ghost use Rattle.zk_session.specs.declared.states.State.TheVariants.{Connected};
ghost use Rattle.zk_turns.specs.Past.{Pinged};
ghost use Rattle.zk_turns.specs.Rule.{next, says};
ghost use Rattle.zk_client.specs.Views.{said};
ghost use Rattle.zk_client.specs.inner.Seen.{view_with, origin};
ghost use Rattle.zk_client.specs.inner.Sound.{CoreIsSound};

use crate::machine::{Core, say};
use crate::output::Output;
use std::alloc::{AllocError, Allocator};

impl<A: Allocator + Copy> Core<A> {
    /// Lets the server hear of the client.
    pub(crate) fn ping(&mut self, outputs: &mut Vec<Output<A>, A>) -> Result<(), AllocError>
        requires sound { CoreIsSound self.old }
        requires talks { self.old.session.state ≡ Connected }
        ensures sound { OnOk result (CoreIsSound self.new) }
        ensures next { OnOk result ((held : List ℕ) → view_with held self.new ≡ next (view_with held self.old) Pinged) }
        ensures says { OnOk result
            ((held : List ℕ) → said outputs.new.items ≡ said outputs.old.items ++ says (view_with held self.old) Pinged) }
        ensures origin { origin self.new ≡ origin self.old }
    {
        let frame = self.conversation.ping()?;
        self.session.sent();
        say(outputs, Output::Send(frame))
    }
}
