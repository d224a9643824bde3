//! What is known of every history that logs tell.

ghost use Rattle.zk_log_history.specs.Ended.{EndsLeaveNone};
ghost use Rattle.zk_log_history.specs.KnownIsTrue.{KnownIsTrue, RefusedAreUntold};

/// After the end of a session none of its nodes is there, whether its entry tells them or not.
#[tactic(auto, using(crate::proofs::Ended::ends_leave_none))]
pub fn ends_leave_none()
    ensures { EndsLeaveNone }
{}

/// What entries tell of a path is so, whatever history stood before them.
#[tactic(auto, using(crate::proofs::KnownIsTrue::known_is_true))]
pub fn known_is_true()
    ensures { KnownIsTrue }
{}

/// Entries that are refused by what is known of a path are no transactions after any history.
#[tactic(auto, using(crate::proofs::PathRefused::refused_are_untold))]
pub fn refused_are_untold()
    ensures { RefusedAreUntold }
{}
