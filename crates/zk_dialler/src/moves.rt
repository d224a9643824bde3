//! Which sessions move when the list of addresses changes.

ghost use Rattle.std.specs.Prelude.{◌≡◌, ◌≤◌, true, false};
ghost use Rattle.zk_dialler.specs.Chances.{next_state};
ghost use Rattle.zk_dialler.specs.Moves.{falls_in, moves_by, tries_kept};

use crate::chance::Chance;

/// Whether the number is one of a part of the whole: by a chance of part / whole.
fn falls_in(part: usize, whole: usize, chance: Chance) -> bool
    ensures { result ≡ falls_in part whole chance.state }
{
    whole > 0 && chance.below(whole as u64) < part as u64
}

/// Whether a session moves, when `count` addresses take the place of `before`. `is_listed` says whether its server is among them.
pub(crate) fn is_to_move(before: usize, count: usize, is_listed: bool, chance: Chance) -> bool
    ensures exact { result ≡ moves_by before count is_listed chance.state }
    ensures leaves { is_listed ≡ false → result ≡ true }
    ensures stays { is_listed ≡ true → count ≤ before → result ≡ false }
{
    !is_listed || falls_in(count.saturating_sub(before), count, chance)
}

/// Whether a session that moves tries the addresses that were in the list before ahead of the new ones. Another number is drawn.
pub(crate) fn are_kept_first(before: usize, kept: usize, count: usize, chance: &mut Chance) -> bool
    ensures exact { result ≡ tries_kept before kept count chance.old.state }
    ensures chance { chance.new.state ≡ next_state chance.old.state }
{
    let is_of_kept = falls_in(kept, count, *chance);
    chance.advance();
    is_of_kept
        && falls_in(
            before.saturating_sub(count),
            before.saturating_sub(kept),
            *chance,
        )
}
