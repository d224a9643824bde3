//! What follows for a whole life of a handle, over definitions alone.

ghost use Rattle.ffi_c.specs.Lives.{SameForLife, SoundForLife};
ghost use Rattle.ffi_c.specs.Pasts.{BelowByCount, CoherentForLife, HeldForLife};
ghost use Rattle.ffi_c.specs.Followed.{OneHandIsApart, ToldForLife};

/// Whoever was told the same number twice by `dw_session_revision`, below the last one, of a handle that was not opened, resumed or freed
/// in between, has each good answer as it was, and no other is good; state and session are the same, whatever functions were called
/// between. So `dw_session_subtree` and its like tell the same (`same_conclusions` of `zk_conclusions`).
pub fn same_for_life()
    ensures { SameForLife }
{}

/// Whoever took a session's handle of zeros, used it by the functions of this library alone, one after the other and whatever they
/// answered, and has a session in it within whose steps memory never ran out, has one whose client stands where turns by the rule have led,
/// whose subjects are good, or being read, or why not, and of whose calls each is on its way, or why not, and none is past its limit.
pub fn sound_for_life()
    ensures { SoundForLife }
{}

/// Whoever took a session's handle of zeros, used it by the functions of this library alone, one after the other and whatever they
/// answered, and has a session in it has all of [`holds`](zk_client::holds) for the turns of its client since the session began: opened,
/// resumed, or renewed after an expiry. The bytes that these turns heard, and the beginnings and ends of connections, are those that were
/// handed in; after memory ran out within a step, only that they are turns. Each report of them was told once, and no other; and each call
/// that was asked was settled once, or waits. The listing of each contender is one that its client was answered, if the tickets from
/// 3 * 2^62 on are those of contenders' calls alone: no call of the program has one, nor any read of a followed node's names.
///
/// So the good answers are those of any servers of the model that sent these bytes, whose history the conclusions of `zk_conclusions` are
/// about, at the paths if the servers keep to the model.
pub fn coherent_for_life()
    ensures { CoherentForLife }
{}

/// Whenever a look-up says that a contender of such a session holds, with a token, its place is first in the history at the client's last
/// seen zxid, if the servers of that history keep to the model at the directory and at the place, and numbers rise with creation. So
/// `dw_session_held` needs no promise of the program but that of its tickets (`held_is_true` of `zk_contend`).
pub fn held_for_life()
    ensures { HeldForLife }
{}

/// Whoever used such a handle so, with tickets below 3 * 2^62 for calls, subjects and trees, and was told of at most 2^62 sides of nodes
/// that are followed for trees, meets what `coherent_for_life` and `held_for_life` ask of tickets. Those of nodes run from 2^63 in each
/// session, one for each side: nobody has to look at them.
pub fn below_by_count()
    ensures { BelowByCount }
{}

/// Whoever took a session's handle of zeros, used it by the functions of this library alone, one after the other and whatever they
/// answered, and has a session in it within whose steps memory never ran out, has one that follows by each ticket what was told: what
/// the program follows by it, and what of a tree was told to be taken on by it, and not let go since; nothing else, in this order
/// (`told`). That is so of a ticket by which in no step both happen, as of one that a program uses for its subjects alone, or for trees
/// alone (`apart`). And the session has the trees that were asked for, with their roots and bounds, and no other; for each it follows
/// those sides of nodes that were told for its ticket, by the tickets that were told, and no other, if its ticket is below 2^63 and no
/// other tree has it at once. By `sound_for_life` each of these is kept good, or is being read, or why not.
pub fn told_for_life()
    ensures told { ToldForLife }
    ensures apart { OneHandIsApart }
{}
