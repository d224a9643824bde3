//! Laws of whole programs that contend for a place below a directory, each with one client: what such a program may believe between the
//! look-up that says *held* and the one that no longer says so, and what follows for two of them. The names come from sequential creates:
//! that their numbers rise is a law here.
//! The functions have empty bodies: their contracts are the laws.
#![tactic(auto)]

ghost use Rattle.std.specs.Prelude.{◌≡◌, ◌<ℤ◌, pos};
ghost use Rattle.zk_nodes.specs.History.{IsHistory, tree_at};
ghost use Rattle.zk_conclusions.specs.Holders.{NamesRise, ShowsHolder};
ghost use Rattle.zk_conclusions.specs.Seen.{IsEither, IsServedAt};
ghost use Rattle.zk_conclusions.specs.Standings.{IsShownStanding, ListsAll, NumbersRise};
ghost use Rattle.zk_conclusions.specs.Tags.{AreMadeBy};
ghost use Rattle.theory_contenders.specs.Sequences.{AreNumberedOnly, MadeInSequence, NamesInSequenceRise, SequencesRise, alone};
ghost use Rattle.theory_contenders.specs.Programs.{AreRivals, IsHolding};
ghost use Rattle.theory_contenders.specs.Programs.{EarlierAreShutOut, HoldersHaveIt, LaterTokensRise, OneHasIt};
ghost use Rattle.theory_contenders.specs.Line_example.{all_three, first_last, first_place, first_run, first_since, lock, lock_text, marker};
ghost use Rattle.theory_contenders.specs.Line_example.{made_again, places, second_held, second_place, second_run, two_places};

/// Numbers rise with creation (`NumbersRise`) where each name of the kind in the directory was made by a sequential create: it ends in the
/// ten digits of the directory's counter, which each create below it raises, whatever its name, and a new directory begins at 0. So it is
/// up to the number 2,147,483,647; the counter goes on below 0 from there (`numbers`). Where each name with a prefix is that and ten
/// digits, names rise in the order of bytes too (`names`).
pub fn numbers_rise()
    ensures numbers { SequencesRise }
    ensures names { NamesInSequenceRise }
{}

/// A program that goes by its look-ups has the token at each zxid from the one that its client had seen as a look-up said *held*, up to the
/// last one that it had seen while it still said so. What happened since, it can't know.
pub fn holders_have_it()
    ensures { HoldersHaveIt }
{}

/// Of two such programs over one history, which wait for one another, no two have the token in one tree (`one`). One that still has it
/// where the other already had has no smaller token (`later`), and a store with a [`Fence`](zk_fence::Fence) that has taken a write of it
/// takes none of the other, unless both have one token (`fenced`).
pub fn one_at_a_time()
    ensures one { OneHasIt }
    ensures later { LaterTokensRise }
    ensures fenced { EarlierAreShutOut }
{}

/// Two programs contend for one directory over one history, in bytes, and each holds in its turn (`first`, `second`): the first at 8 and
/// still at 9, the second at 10, as rivals, by tokens that differ (`rivals`, `tokens`). Between their places a node is made by hand.
pub fn two_hold_in_turn()
    ensures first { IsHolding two_places first_run first_place first_since first_last }
    ensures second { IsHolding two_places second_run second_place second_held second_held }
    ensures rivals { AreRivals first_run second_run }
    ensures tokens { first_place.token <ℤ second_place.token }
{}

/// So the premises of the laws of `zk_conclusions` and `zk_fence` are met by two contenders in one history: names and numbers rise there
/// (`history`, `sequence`, `numbers`; `alone`, `only`, `names`), both show that they stand first, and that they hold (`stands`,
/// `stands_later`; `holds`, `holds_later`), all names were listed while both places were there (`listed`), and each made its node by
/// the zxid of its last create (`made`, `made_later`). Where the directory is deleted and made again, its names begin with 0 again
/// (`again`, `from_zero`).
pub fn premises_are_met()
    ensures history { IsHistory two_places }
    ensures sequence { MadeInSequence two_places lock places }
    ensures numbers { NumbersRise two_places lock places }
    ensures names { NamesRise two_places lock marker }
    ensures alone { MadeInSequence two_places lock (alone marker) }
    ensures only { AreNumberedOnly two_places lock marker }
    ensures stands { IsShownStanding two_places first_last.view lock_text places first_place.path first_place.token }
    ensures stands_later { IsShownStanding two_places second_held.view lock_text places second_place.path second_place.token }
    ensures holds { IsServedAt (IsEither lock_text first_place.path) two_places first_last.view
        × ShowsHolder first_last.view lock_text marker first_place.path first_place.token }
    ensures holds_later { IsServedAt (IsEither lock_text second_place.path) two_places second_held.view
        × ShowsHolder second_held.view lock_text marker second_place.path second_place.token }
    ensures listed { ListsAll (tree_at two_places 8) lock all_three }
    ensures made { AreMadeBy two_places lock marker (pos 7) 6 }
    ensures made_later { AreMadeBy two_places lock marker (pos 8) 8 }
    ensures again { IsHistory made_again }
    ensures from_zero { MadeInSequence made_again lock places }
{}
