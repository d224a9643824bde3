//! Memory that ran out.

use std::alloc::AllocError;

/// Memory was refused, so that a follower goes on no further.
#[derive(Clone, Copy)]
pub enum FollowerStop {
    /// To a step of the client, which has no use from then on.
    Halted,
    /// To the follower: what the client said is lost.
    Memory,
}

impl From<AllocError> for FollowerStop {
    ghost use Rattle.std.specs.Prelude.{◌≡◌};
    ghost use Rattle.zk_follow.specs.declared.stop.FollowerStop.TheVariants.{Memory};

    ghost from_gives = { λ _ stop. stop ≡ Memory };

    fn from(_fault: AllocError) -> FollowerStop {
        FollowerStop::Memory
    }
}
