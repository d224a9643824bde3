//! Servers that keep to the model at some paths: what is good there is the history's, whatever they answer and tell elsewhere.
//! The functions have empty bodies: their contracts are the laws.
#![tactic(auto)]

ghost use Rattle.std.specs.Prelude.{◌≢◌, ◌<◌, ◌^◌, ℤ, true, length, ℕ, ◌≡◌, pos, negsuc, Bool, List, [], ◌∷◌, map, ◌++◌};
ghost use Rattle.zk_nodes.specs.Path.{Text};
ghost use Rattle.zk_nodes.specs.History.{History, IsHistory, Tree};
ghost use Rattle.zk_records.specs.declared.event.Event.{Event};
ghost use Rattle.zk_records.specs.declared.event.Event.TheVariants.{Created, DataChanged};
ghost use Rattle.zk_watches.specs.Lists.{Lists};
ghost use Rattle.zk_conversation.specs.Calls.{Call, part_xid};
ghost use Rattle.zk_conversation.specs.Results.{Result};
ghost use Rattle.zk_turns.specs.Turns.{Start, Item as Client_item};
ghost use Rattle.zk_turns.specs.View.{View, Cache};
ghost use Rattle.zk_turns.specs.Past.{Past};
ghost use Rattle.zk_turns.specs.Taken.{past_of};
ghost use Rattle.zk_turns.specs.Spelled.{IsHeaded};
ghost use Rattle.zk_turns.specs.Rule.{Stands};
ghost use Rattle.zk_laws.specs.Server.{HasCode, IsOther, Notice};
ghost use Rattle.zk_laws.specs.Messages.{Request, Ask, Restore, Notifies};
ghost use Rattle.zk_laws.specs.ServerSteps.{ServerEnd, Serving, Answers, IsNext};
ghost use Rattle.zk_laws.specs.Served.{Entry, items_in, wire_of, IsServing, Served, Wire, unread, first_xid, is_going, ArePayloads};
ghost use Rattle.zk_laws.specs.Headline.{IsTrueOf, IsCoherentWith, IsQuietAt, tree_of};
ghost use Rattle.theory_local.specs.LocalSteps.{IsOf, IsAbout, AreToldAt, MayDoAt};
ghost use Rattle.theory_local.specs.LocalServed.{LocalEntry, Tells, Denies, Fails, MayEnterAt, items_at, wire_at, local_of, IsServingAt};
ghost use Rattle.theory_local.specs.LocalServed.{ServedAt};
ghost use Rattle.theory_local.specs.LocalHeadline.{IsTrueAt, IsCoherentAt, IsQuietAfter, tree_after, HeadlineAt};
ghost use Rattle.theory_local.specs.LocalHeadline.{AnswersFollow, RepliesRise, ReadsFollow};

/// The headline at some paths: what servers answer and tell elsewhere does not touch what is good there, nor which answers are true there.
pub fn local_headline()
    ensures { (paths : Text → Bool) (h : History) → IsHistory h → (start : Start) (items : List Client_item) (view : View)
        → Stands start items view
        → (served : ServedAt (IsOf paths) h start items) → HeadlineAt (IsOf paths) h start items view served.entries }
{}

/// Each answer about one of these paths that is marked good is the history's answer at the client's last seen zxid.
pub fn local_coherence()
    ensures { (paths : Text → Bool) (h : History) → IsHistory h → (start : Start) (items : List Client_item) (view : View)
        → Stands start items view → ServedAt (IsOf paths) h start items → IsCoherentAt (IsOf paths) h view }
{}

/// Where the client has taken all that the server of its connection sent, and no watches are still to be set again, each good answer
/// about one of these paths is also what that server would answer where it stands.
pub fn local_quiet()
    ensures { (paths : Text → Bool) (h : History) → IsHistory h → (start : Start) (entries : List LocalEntry) (view : View)
        → IsServingAt (IsOf paths) h start entries → Stands start (items_at entries) view
        → IsQuietAfter h start entries → IsTrueAt (IsOf paths) (tree_after h entries) view.cache }
{}

/// Of two replies that were taken, on one connection or on two, the later has no lower zxid (`rise`), unless it refuses a call with the
/// zxid 0 or one below: whatever the calls were about, and whichever servers answered. So a read whose reply was taken after that to a
/// write, and that is about one of these paths, is true of a tree that has this write (`reads`). A program sees that by the order in which
/// it asks: what it asks after it was told of its write is answered so (`answers`).
pub fn replies_rise()
    ensures rise { (paths : Text → Bool) (h : History) → IsHistory h → (start : Start) (items : List Client_item) (view : View)
        → Stands start items view → ServedAt (IsOf paths) h start items → RepliesRise (past_of start items) }
    ensures reads { (paths : Text → Bool) (h : History) → IsHistory h → (start : Start) (items : List Client_item) (view : View)
        → Stands start items view → ServedAt (IsOf paths) h start items → ReadsFollow (IsOf paths) h (past_of start items) }
    ensures answers { (paths : Text → Bool) (h : History) → IsHistory h → (start : Start) (more earlier : List Client_item) (view : View)
        → Stands start (more ++ earlier) view → ServedAt (IsOf paths) h start (more ++ earlier)
        → AnswersFollow (IsOf paths) h start more earlier }
{}

/// Servers that keep to the model keep to it at any paths (`serving`, `served`), with the same items and the same server; fewer paths
/// ask less (`fewer`); and what is true at all paths is true as `zk_laws` says it (`everywhere`). So `coherence` and `quiet_client` of
/// `zk_laws` are the case of all paths, and follow (`coherence`, `quiet`).
pub fn model_is_local()
    ensures serving { (paths : Text → Bool) (h : History) (start : Start) (entries : List Entry) → IsServing h start entries
        → IsServingAt (IsOf paths) h start (map local_of entries) }
    ensures served { (paths : Text → Bool) (h : History) (start : Start) (items : List Client_item) → Served h start items
        → ServedAt (IsOf paths) h start items }
    ensures items { (entries : List Entry) → items_at (map local_of entries) ≡ items_in entries }
    ensures wire { (h : History) (entries : List Entry) → wire_at h (map local_of entries) ≡ wire_of h entries }
    ensures fewer { (paths some : Text → Bool) (h : History) (start : Start) (entries : List LocalEntry) → ((path : Text) → IsOf some path
        → IsOf paths path) → IsServingAt (IsOf paths) h start entries → IsServingAt (IsOf some) h start entries }
    ensures coherence { (h : History) → IsHistory h → (start : Start) (items : List Client_item) (view : View) → Stands start items view
        → Served h start items → IsCoherentWith h view }
    ensures quiet { (h : History) → IsHistory h → (start : Start) (entries : List Entry) (view : View) → IsServing h start entries
        → Stands start (items_in entries) view → IsQuietAt h start entries → IsTrueOf (tree_of h entries) view.cache }
    ensures everywhere { (paths : Text → Bool) (tree : Tree) (cache : Cache) → ((path : Text) → IsOf paths path)
        → IsTrueAt (IsOf paths) tree cache → IsTrueOf tree cache }
{}

/// What servers may do beside the model: give a call about another path any result (`answers`), and tell nothing of it (`silence`); tell
/// more than what is fired (`notices`), or of the same side by another event (`events`); tell anything at any moment (`tells`); refuse a
/// call with a zxid below 0 (`denials`); answer a part of setWatches with an error, and send any bytes after it (`errors`).
pub fn elsewhere_is_free()
    ensures answers { (paths : Text → Bool) (h : History) (server : ServerEnd) (requests : List Request) (call : Call) (result : Result)
        → server.stage ≡ Serving → IsNext (Ask call) requests → HasCode result → (IsAbout (IsOf paths) call → ⊥)
        → MayDoAt (IsOf paths) h (Answers call result) server requests }
    ensures silence { (paths : Text → Bool) (event : Event) (path : Text) → (IsOf paths path → ⊥)
        → AreToldAt (IsOf paths) (record { event = event; path = path } ∷ []) [] }
    ensures notices { (paths : Text → Bool) (fired sent more : List Notice) → AreToldAt (IsOf paths) fired sent
        → AreToldAt (IsOf paths) fired (sent ++ more) }
    ensures events { (paths : Text → Bool) (path : Text)
        → AreToldAt (IsOf paths) (record { event = DataChanged; path = path } ∷ []) (record { event = Created; path = path } ∷ []) }
    ensures tells { (paths : Text → Bool) (h : History) (start : Start) (sent : List Notice) (payloads : List (List ℕ)) (past : Past)
        (wire : Wire) → is_going past ≡ true → wire.server.stage ≡ Serving → ArePayloads (pos 0) (map Notifies sent) payloads
        → MayEnterAt (IsOf paths) h start (Tells sent payloads) past wire }
    ensures denials { (paths : Text → Bool) (h : History) (start : Start) (call : Call) (n : ℕ) (code : ℤ) (payload behind : List ℕ)
        (past : Past) (wire : Wire) → is_going past ≡ true → wire.server.stage ≡ Serving
        → IsNext (Ask call) (map (λ sent. sent.request) (unread start past wire)) → length payload < 2 ^ 31 → IsOther code
        → IsHeaded (first_xid (unread start past wire)) (negsuc n) code payload behind
        → MayEnterAt (IsOf paths) h start (Denies call payload) past wire }
    ensures errors { (paths : Text → Bool) (h : History) (start : Start) (is_last : Bool) (relative : ℕ) (part : Lists) (zxid code : ℤ)
        (payload behind rest : List ℕ) (past : Past) (wire : Wire) → is_going past ≡ true → wire.server.stage ≡ Serving
        → IsNext (Restore is_last relative part) (map (λ sent. sent.request) (unread start past wire)) → length payload < 2 ^ 31
        → code ≢ pos 0 → IsHeaded part_xid zxid code payload behind
        → MayEnterAt (IsOf paths) h start (Fails payload rest) past wire }
{}
