//! What a fence is worth, over definitions alone. The functions do nothing: their contracts are the laws.

ghost use Rattle.zk_fence.specs.Fenced.{FencedHolders, FencedStandings, SmallerIsRefused};

/// Once a token was taken, each smaller one is refused, whatever was asked in between.
pub fn smaller_is_refused()
    ensures { SmallerIsRefused }
{}

/// Once a store has taken a write of a later holder, it takes none of an earlier one: not unless both have one token, as two nodes have
/// that one session made in one transaction. So it is for holders by the names below a directory (`holders`), where names rise with
/// creation, and for those by numbers and a listing (`standings`).
pub fn fenced()
    ensures holders { FencedHolders }
    ensures standings { FencedStandings }
{}
