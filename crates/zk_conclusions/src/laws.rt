//! What follows from what a client shows, over definitions alone. The functions do nothing: their contracts are the laws. Each is
//! about a client that was served from a history at the paths concerned (`IsServedAt`): it has come to its view by turns of the rule,
//! under servers that hold beginnings of this history, and keep to the model at these paths. Elsewhere they may answer and tell anything.

ghost use Rattle.zk_nodes.specs.Path.{Text};
ghost use Rattle.zk_nodes.specs.History.{History};
ghost use Rattle.zk_turns.specs.View.{View};
ghost use Rattle.zk_conclusions.specs.Everywhere.{HeldEverywhere, LaterTokensEverywhere, ListingEverywhere, LooksEverywhere};
ghost use Rattle.zk_conclusions.specs.Everywhere.{OneShowsEverywhere, OneTreeEverywhere, PathsEverywhere, ShownEverywhere};
ghost use Rattle.zk_conclusions.specs.Everywhere.{StandingEverywhere, SubtreeEverywhere};
ghost use Rattle.zk_conclusions.specs.Holders.{HeldIsTrue, LaterTokens, OneHolds, OneShows, TokensRise};
ghost use Rattle.zk_conclusions.specs.Lacks.{WalkIsTheOnlyAnswer};
ghost use Rattle.zk_conclusions.specs.Looks.{OneZxidIsOneTree};
ghost use Rattle.zk_conclusions.specs.Revisions.{QuietIsUnchanged, SameGoodShowsTheSame, SameNumberIsUnchanged};
ghost use Rattle.zk_conclusions.specs.Seen.{Is, IsEither, IsServedAt, IsServedFrom};
ghost use Rattle.std.specs.Prelude.{Bool, List};
ghost use Rattle.theory_local.specs.LocalSteps.{IsOf};
ghost use Rattle.zk_conclusions.specs.Snapshots.{IsOneOf, WholeIsOfOneTree};
ghost use Rattle.zk_conclusions.specs.Standings.{FirstStays, LaterStandings, ListingIsTrue, OneShowsStanding, OneStands, StandingIsTrue};
ghost use Rattle.zk_conclusions.specs.Standings.{StandingTokensRise};
ghost use Rattle.zk_conclusions.specs.Subtrees.{IsOneReached, PathsAreAll, WholeIsSubtree};
ghost use Rattle.zk_conclusions.specs.Tags.{LostAreListed};

/// A client whose servers keep to the model at some paths is one whose servers keep to it at fewer (`fewer`): at one of them, at two, at
/// those of a snapshot and at those of a subtree (`one`, `two`, `some`, `reached`), as the laws below ask for. One whose servers keep to it
/// at all paths (`IsServedFrom`) is one whose servers keep to it at any (`model`).
pub fn served_at()
    ensures fewer { (paths some : Text → Bool) (h : History) (view : View) → ((path : Text) → IsOf some path → IsOf paths path)
        → IsServedAt (IsOf paths) h view → IsServedAt (IsOf some) h view }
    ensures one { (paths : Text → Bool) (h : History) (view : View) (path : Text) → IsOf paths path
        → IsServedAt (IsOf paths) h view → IsServedAt (Is path) h view }
    ensures two { (paths : Text → Bool) (h : History) (view : View) (this that : Text) → IsOf paths this → IsOf paths that
        → IsServedAt (IsOf paths) h view → IsServedAt (IsEither this that) h view }
    ensures some { (paths : Text → Bool) (h : History) (view : View) (nodes parents : List Text)
        → ((path : Text) → IsOneOf nodes parents path → IsOf paths path)
        → IsServedAt (IsOf paths) h view → IsServedAt (IsOneOf nodes parents) h view }
    ensures reached { (paths : Text → Bool) (h : History) (view : View) (root : Text)
        → ((path : Text) → IsOneReached view.cache root path → IsOf paths path)
        → IsServedAt (IsOf paths) h view → IsServedAt (IsOneReached view.cache root) h view }
    ensures model { (paths : Text → Bool) (h : History) (view : View) → IsServedFrom h view → IsServedAt (IsOf paths) h view }
{}

/// The laws below of a client whose servers keep to the model at all paths (`IsServedFrom`).
pub fn everywhere()
    ensures tree { OneTreeEverywhere }
    ensures looks { LooksEverywhere }
    ensures subtree { SubtreeEverywhere }
    ensures paths { PathsEverywhere }
    ensures held { HeldEverywhere }
    ensures one { OneShowsEverywhere }
    ensures later { LaterTokensEverywhere }
    ensures listing { ListingEverywhere }
    ensures standing { StandingEverywhere }
    ensures shown { ShownEverywhere }
{}

/// Where each of some paths has a good answer, all of these are those of one tree: the history's at the client's last seen zxid.
/// So reads that were answered one by one, with writes of others between them, are as if they had been made at once. Nothing is
/// said of two views of a client, or of what the tree is now.
pub fn one_tree()
    ensures { WholeIsOfOneTree }
{}

/// Good answers that were looked up at the same last seen zxid are of one tree, the history's at that zxid, whatever steps lay between
/// the look-ups, and whichever clients of the ensemble were asked. So a program that can't look several up with no step between
/// compares the zxids.
pub fn equal_zxids()
    ensures { OneZxidIsOneTree }
{}

/// Where each node that is reached from a root through kept names is kept with its data and its names, all of it good, these are the
/// nodes of the history's tree at and below the root, at the client's last seen zxid: each as it is kept, and none is left out.
pub fn one_subtree()
    ensures { WholeIsSubtree }
{}

/// The same of a list of the paths that are reached: a path at or below the root is one of them exactly where the tree has a node. So
/// where one is missing, no node is there.
pub fn all_paths()
    ensures { PathsAreAll }
{}

/// Where there is a subtree of at most `most` nodes, neither refusal is true: all is whole, and there are at most as many. So there is a
/// [`Subtree`](crate::Subtree) exactly where nothing is [`Lacking`](crate::Lacking), unless memory runs out.
pub fn no_refusal()
    ensures { WalkIsTheOnlyAnswer }
{}

/// A client that stands where turns led, and comes through more of them that say nothing of a change (no reply to a call, no report, no
/// other state), keeps each good answer as it was, and no other becomes good; its state and its session are the same (`quiet`). So it is
/// where a number that [`Revision`](crate::Revision) noted of each turn is the same, and below the last one (`number`). Stale answers
/// may have been forgotten, and the last seen zxid may have risen: the reply to a setWatches says nothing.
pub fn same_number()
    ensures quiet { QuietIsUnchanged }
    ensures number { SameNumberIsUnchanged }
{}

/// Where the same is kept and good, the same is concluded: there is a [`Snapshot`](crate::Snapshot) of the same paths, a
/// [`Subtree`](crate::Subtree) has the same paths with the same answers, and the same is [`Lacking`](crate::Lacking).
pub fn same_conclusions()
    ensures { SameGoodShowsTheSame }
{}

/// Whenever a client shows that its session holds, the session does in the history at the client's last seen zxid. It may have
/// lost its place since.
pub fn held_is_true()
    ensures { HeldIsTrue }
{}

/// In one tree no two hold (`tree`), so two clients that show it at the same zxid are of the same session, and of the same node
/// (`clients`). Two clients that show it at the same moment, but at two zxids, need not be.
pub fn one_holder()
    ensures tree { OneHolds }
    ensures clients { OneShows }
{}

/// Where names rise with creation (`NamesRise`), who holds at a later zxid has a token that is not smaller: in the history (`tree`)
/// and as two clients show it (`clients`). The premise is for the program to see to: the names come from the counter of a
/// sequential create, and nobody makes one by hand. It fails where the counter passes 2,147,483,647.
pub fn later_tokens()
    ensures tree { TokensRise }
    ensures clients { LaterTokens }
{}

/// Whoever stands first in one tree does so in each later one for as long as its node is there, where numbers rise with creation
/// (`NumbersRise`). So one listing without a watch, and a watch on its node, are enough to hold. The premise is for the program to
/// see to: all names in the directory that end in a number after a marker come from sequential creates.
pub fn first_stays()
    ensures { FirstStays }
{}

/// A getChildren that the client was answered, with a watch or without, lists each name that was in the directory at the zxid of the
/// answer.
pub fn listing_is_true()
    ensures { ListingIsTrue }
{}

/// Whoever is shown to stand first does so in the history at the client's last seen zxid, where numbers rise with creation and the
/// listing was true at its zxid.
pub fn standing_is_true()
    ensures { StandingIsTrue }
{}

/// Of two that are rivals of one another, both stand first in one tree only if they are one (`tree`); so two clients that show it at
/// the same zxid are of the same session and node (`clients`). Readers are no rivals of one another, so several may stand.
pub fn one_standing()
    ensures tree { OneStands }
    ensures clients { OneShowsStanding }
{}

/// A rival that stands first at a later zxid has a token that is not smaller: in the history (`tree`) and as two clients show it
/// (`clients`).
pub fn later_standings()
    ensures tree { StandingTokensRise }
    ensures clients { LaterStandings }
{}

/// Where servers take the requests of a session in the order in which it sent them, also over several connections (`AreMadeBy`), a
/// listing at or above the zxid of the answer to the last create with a tag has each node that an earlier create with that tag made,
/// if it is still there: then, and at each later zxid.
pub fn lost_creates()
    ensures { LostAreListed }
{}
