//! What the specification names and nothing here but tests and benchmarks calls.

ghost use Rattle.std.specs.Prelude.{◌≡◌, true, false, ◌↔◌, IsOk, OnOk, OnErr, IsErrOf};
ghost use Rattle.zk_watches.specs.Lists.{list_has, side_has, count_of, registered};

use crate::register_fault::RegisterFault;
use crate::registry::Registry;
use std::alloc::Allocator;
use zk_limits::MOST_PATHS;
use zk_nodes::{Path, Side};

impl<A: Allocator + Copy> Registry<A> {
    /// Puts the path on the side, where a watched read found the node there (`present`) or absent; on the child side that makes
    /// no difference. A path of the same list keeps its place, one of the side's other list moves, and another goes last.
    /// `Full` is for a path that is new to a side with 65,536 paths, and comes before `Memory`. After an error nothing has
    /// changed.
    pub fn register(
        &mut self,
        side: Side,
        path: &Path<A>,
        present: bool,
    ) -> Result<(), RegisterFault>
        ensures ok { OnOk result (self.new ≡ registered self.old side present path.now) }
        ensures there { list_has self.old side present path.now ≡ true → IsOk result }
        ensures full { IsErrOf result RegisterFault.Full
            ↔ ((side_has self.old side path.now ≡ false) × (count_of self.old side ≡ MOST_PATHS)) }
        ensures err { OnErr result (self.new ≡ self.old) }
    {
        if self.len(side) == MOST_PATHS && !self.contains(side, path.as_str()) {
            return Err(RegisterFault::Full);
        }
        self.watch(side, path, present)?;
        Ok(())
    }
}
