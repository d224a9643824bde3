//! What a caller follows, from bytes.

ghost use Rattle.zk_nodes.specs.declared.side.Side.TheVariants.{Child, Data};
ghost use Rattle.ffi_device.specs.Codes.{code_of};
ghost use Rattle.ffi_device.specs.Refused.{RefusesNothing, RefusesPath};
ghost use Rattle.ffi_device.specs.Steps.{Follows, FollowsTree, Steps, Unfollows, UnfollowsTree};

use crate::device::Device;
use crate::paths::path_of;
use crate::refusal::DeviceRefusal;
use std::alloc::Global;
use zk_agent::AgentInput;
use zk_client::Side;

impl Device {
    /// Follows the data of a node, or that there is none.
    #[tactic(auto, using(crate::proofs::Refusing::refuses))]
    pub fn follow_data_at(
        &mut self,
        alloc: Global,
        now: u64,
        ticket: u64,
        path: &[u8],
    ) -> Result<(), DeviceRefusal>
        ensures { Steps (RefusesPath path.now) now (Follows ticket Data path.now) self.old (code_of result) self.new }
    {
        let path = path_of(alloc, path)?;
        let side = Side::Data;
        self.step_at(now, AgentInput::Follow { ticket, side, path })
    }

    /// Follows the names of the children of a node, or that there is no node.
    #[tactic(auto, using(crate::proofs::Refusing::refuses))]
    pub fn follow_names_at(
        &mut self,
        alloc: Global,
        now: u64,
        ticket: u64,
        path: &[u8],
    ) -> Result<(), DeviceRefusal>
        ensures { Steps (RefusesPath path.now) now (Follows ticket Child path.now) self.old (code_of result) self.new }
    {
        let path = path_of(alloc, path)?;
        let side = Side::Child;
        self.step_at(now, AgentInput::Follow { ticket, side, path })
    }

    /// Follows the subject of this ticket no more.
    pub fn unfollow_at(&mut self, now: u64, ticket: u64) -> Result<(), DeviceRefusal>
        ensures { Steps RefusesNothing now (Unfollows ticket) self.old (code_of result) self.new }
    {
        self.step_at(now, AgentInput::Unfollow { ticket })
    }

    /// Follows all nodes at and below a root, of which no more are taken on if there are more than `most`. The data of the root have the
    /// tree's ticket, and all else has tickets from 2^63 on, which no program uses.
    #[tactic(auto, using(crate::proofs::Refusing::refuses))]
    pub fn follow_tree_at(
        &mut self,
        alloc: Global,
        now: u64,
        ticket: u64,
        path: &[u8],
        most: u64,
    ) -> Result<(), DeviceRefusal>
        ensures { Steps (RefusesPath path.now) now (FollowsTree ticket path.now most) self.old (code_of result) self.new }
    {
        let root = path_of(alloc, path)?;
        self.step_at(now, AgentInput::FollowTree { ticket, root, most })
    }

    /// Follows the tree of this ticket no more. If there is none, nothing but the moment is noticed.
    pub fn unfollow_tree_at(&mut self, now: u64, ticket: u64) -> Result<(), DeviceRefusal>
        ensures { Steps RefusesNothing now (UnfollowsTree ticket) self.old (code_of result) self.new }
    {
        self.step_at(now, AgentInput::UnfollowTree { ticket })
    }
}
