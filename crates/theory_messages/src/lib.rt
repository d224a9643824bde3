//! The client made of messages, which the proofs of `zk_laws` run beside the one of bytes; what holds between both; and examples. What
//! these laws name is in the `proofs/` of `zk_laws`, and nobody has to believe it. The functions have empty bodies: their contracts are
//! the laws.
#![tactic(auto)]

ghost use Rattle.std.specs.Prelude.{◌<◌, ◌^◌, ◌&&◌, ◌++◌, false, Bool, length, is_some, nat_lt, ◌≡◌, ◌≤◌, Some, None, ℕ};
ghost use Rattle.std.specs.Prelude.{◌∷◌, [], List, ℤ, pos};
ghost use Rattle.zk_session.specs.SessionView.{Welcome};
ghost use Rattle.zk_session.specs.declared.states.State.TheVariants.{Connecting, Connected};
ghost use Rattle.zk_conversation.specs.Calls.{part_xid, Call};
ghost use Rattle.zk_conversation.specs.Pending.{Pending, Call_waits, part_waits};
ghost use Rattle.zk_turns.specs.Past.{Accepted as Takes_acceptance, Expiry, Notifies as Takes_notice};
ghost use Rattle.zk_turns.specs.Past.{Pong as Takes_pong, Watches_set as Takes_part, kept_data, kept_names};
ghost use Rattle.zk_turns.specs.Past.{last_of, Past, lists_of, Took as Takes_in};
ghost use Rattle.zk_turns.specs.Past.{Replies as Answers_call};
ghost use Rattle.zk_turns.specs.Taken.{cut, Payload, reading, past_of};
ghost use Rattle.zk_laws.specs.Server.{Reads, Notice, zxid_held};
ghost use Rattle.zk_laws.specs.Messages.{Accepted, Expired as Expired_session, Notifies, Pong, Watches_set, Replies, from_zero};
ghost use Rattle.zk_laws.specs.Served.{IsPayload, WasSent, Entry, items_in, IsServing, MayEnter, Wire, no_wire, wire_of};
ghost use Rattle.zk_laws.specs.Server.{HasCode};
ghost use Rattle.zk_laws.proofs.Matching.{Matches};
ghost use Rattle.zk_nodes.specs.declared.side.Side.TheVariants.{Child, Data};
ghost use Rattle.zk_nodes.specs.Path.{Text, path_of};
ghost use Rattle.zk_nodes.specs.History.{History, IsHistory, tree_at, view};
ghost use Rattle.zk_conversation.specs.Questions.{Question};
ghost use Rattle.zk_conversation.specs.Results.{Result};
ghost use Rattle.zk_turns.specs.Turns.{Start, Item as Client_item};
ghost use Rattle.zk_laws.proofs.Invariant.{IsKept};
ghost use Rattle.zk_laws.specs.Laws.{IsTrueWrite};
ghost use Rattle.theory_messages.specs.Example.{at_a, at_b, fields_at_five, two_changes, two_nodes, until_first_part, until_restored};
ghost use Rattle.theory_messages.specs.Example.{until_told};
ghost use Rattle.zk_laws.proofs.Log.{good, IsCoherent, last, Took, listed, Of_data, Of_absence, Of_children, Item, left_by, Suits, Full};
ghost use Rattle.zk_laws.proofs.Run.{IsSchedule, May, Move, moved, run, start, AgreesWhenQuiet, NoneBehind};
ghost use Rattle.zk_laws.proofs.Steps.{World, By_server, Connection, MayStep};
ghost use Rattle.zk_laws.specs.ServerSteps.{Answers};
ghost use Rattle.zk_turns.specs.Meaning.{Among};
ghost use Rattle.zk_cache.specs.declared.held.Mark.TheVariants.{Good};
ghost use Rattle.zk_watches.specs.Lists.{Lists};
ghost use Rattle.zk_watches.specs.Parts.{parts};
ghost use Rattle.zk_cache.specs.Kept.{Full as Found_full};
ghost use Rattle.zk_turns.specs.View.{View, view_at};
ghost use Rattle.std.specs.List.{flat_map};
ghost use Rattle.theory_messages.specs.Meeting_example.{new_client, until_cut};
ghost use Rattle.zk_laws.proofs.Matching.{AllAsked};
ghost use Rattle.zk_turns.specs.Rule.{Stands};
ghost use Rattle.zk_frames.specs.Frame.{frame};
ghost use Rattle.zk_turns.specs.Ranges.{IsResumable, IsTyped, AllAskOf};
ghost use Rattle.zk_laws.proofs.Seen.{seen, node_answer, names_answer, if_good};
ghost use Rattle.zk_laws.specs.Headline.{IsCoherentWith};

/// The invariant between a client and its servers holds at the beginning, is kept by each turn and each move of a server,
/// and gives coherence.
pub fn one_entry()
    ensures begins { (h : History) → IsHistory h → (start : Start) → Matches h start (WasSent []) [] no_wire }
    ensures goes_on { (h : History) → IsHistory h → (start : Start) (entry : Entry) (earlier : List Entry)
        → AllAsked (items_in (entry ∷ earlier)) → MayEnter h start entry (past_of start (items_in earlier)) (wire_of h earlier)
        → Matches h start (WasSent earlier) (past_of start (items_in earlier)) (wire_of h earlier)
        → Matches h start (WasSent (entry ∷ earlier)) (past_of start (items_in (entry ∷ earlier))) (wire_of h (entry ∷ earlier)) }
    ensures coherent { (h : History) → IsHistory h → (start : Start) (entries : List Entry) (items : List Client_item) (view : View)
        (wire : Wire) → Stands start items view → Matches h start (WasSent entries) (past_of start items) wire → IsCoherentWith h view }
{}

/// What is good, and the last seen zxid, are the same by the look back over a past and by the items of a run.
#[tactic(auto, using(zk_laws::proofs::Seeing::good_node, zk_laws::proofs::Seeing::good_names, zk_laws::proofs::Seeing::last_is))]
pub fn one_meaning()
    ensures nodes { (start : Start) (path : Text) (past : Past)
        → good Data path (seen start past) ≡ if_good node_answer (kept_data path past) }
    ensures children { (start : Start) (path : Text) (past : Past)
        → good Child path (seen start past) ≡ if_good names_answer (kept_names path past) }
    ensures last { (start : Start) (past : Past) → last (seen start past) ≡ from_zero (last_of start past) }
{}

/// The lists of a run are the client's, in the same order, and the parts of setWatches, joined, are the lists.
#[tactic(auto, using(zk_laws::proofs::Ordering::listed_known, zk_laws::proofs::Ordering::listed_missing, zk_laws::proofs::Ordering::listed_parents, zk_laws::proofs::Parting::parts_known, zk_laws::proofs::Parting::parts_missing, zk_laws::proofs::Parting::parts_parents))]
pub fn one_listing()
    ensures known { (start : Start) (past : Past) → listed Of_data (seen start past) ≡ (lists_of past).data_watches }
    ensures missing { (start : Start) (past : Past) → listed Of_absence (seen start past) ≡ (lists_of past).exist_watches }
    ensures parents { (start : Start) (past : Past) → listed Of_children (seen start past) ≡ (lists_of past).child_watches }
    ensures known_parts { (lists : Lists) → flat_map (λ part. part.data_watches) (parts lists) ≡ lists.data_watches }
    ensures missing_parts { (lists : Lists) → flat_map (λ part. part.exist_watches) (parts lists) ≡ lists.exist_watches }
    ensures parents_parts { (lists : Lists) → flat_map (λ part. part.child_watches) (parts lists) ≡ lists.child_watches }
{}

/// The premises can be met: a schedule in bytes, whose client stands at its items, with an answer kept over a cut in the
/// middle of the notice that would end its mark.
#[tactic(auto, using(crate::proofs::Shown::is_history, crate::proofs::Meeting_shown::cut_then, crate::proofs::Meeting_shown::kept_then, crate::proofs::Meeting_shown::last_then, crate::proofs::Meeting_shown::stands_then, crate::proofs::Meeting_shown::resumable_then, crate::proofs::Meeting_shown::typed_then))]
pub fn small_schedule()
    ensures history { IsHistory two_changes }
    ensures serving { IsServing two_changes new_client until_cut }
    ensures stands { Stands new_client (items_in until_cut) (view_at new_client (past_of new_client (items_in until_cut))) }
    ensures resumable { IsResumable new_client }
    ensures typed { AllAskOf IsTyped (items_in until_cut) }
    ensures kept { kept_data at_a (past_of new_client (items_in until_cut))
        ≡ Some (record { answer = Found_full (Some (104 ∷ 105 ∷ [])) fields_at_five; mark = Good }) }
    ensures last { last_of new_client (past_of new_client (items_in until_cut)) ≡ pos 5 }
{}

/// What is taken is what was sent, message for message: a payload that is whole is that of the first frame sent and not taken, and
/// is taken for the message that it spells. A reply is so taken where what it answers waits first, and a client that asks in order
/// and is served in order gets no reply that leaves a watch and is behind (`nothing_behind`).
pub fn taken_as_sent()
    ensures frame { (most : ℕ) (held coming payload more taken : List ℕ) → length payload < 2 ^ 31
        → held ++ coming ≡ frame payload ++ more
        → cut most held ≡ Payload taken → (taken ≡ payload) × (coming ≡ more) }
    ensures accepted { (pending : List Pending) (last xid : ℤ) (payload : List ℕ) → IsPayload xid Accepted payload
        → (welcome : Welcome) × (reading Connecting pending last payload ≡ Takes_in (Takes_acceptance welcome)) }
    ensures expired { (pending : List Pending) (last xid : ℤ) (payload : List ℕ) → IsPayload xid Expired_session payload
        → reading Connecting pending last payload ≡ Takes_in Expiry }
    ensures notice { (pending : List Pending) (last xid : ℤ) (notice : Notice) (payload : List ℕ) → IsPayload xid (Notifies notice) payload
        → reading Connected pending last payload ≡ Takes_in (Takes_notice notice.event notice.path) }
    ensures pong { (pending : List Pending) (last xid : ℤ) (payload : List ℕ) → IsPayload xid Pong payload
        → reading Connected pending last payload ≡ Takes_in Takes_pong }
    ensures part { (pending : List Pending) (last : ℤ) (is_last : Bool) (zxid : ℕ) (payload : List ℕ)
        → IsPayload part_xid (Watches_set is_last zxid) payload
        → reading Connected (part_waits is_last ∷ pending) last payload ≡ Takes_in (Takes_part is_last (pos zxid)) }
    ensures reply { (pending : List Pending) (last : ℤ) (n ticket : ℕ) (question : Question) (zxid : ℕ) (result : Result) (payload : List ℕ)
        → HasCode result → IsPayload (pos n) (Replies question zxid result) payload
        → (is_some (left_by question result) && nat_lt zxid (from_zero last)) ≡ false
        → reading Connected (record { xid = pos n; waiting = Call_waits ticket question } ∷ pending) last payload
        ≡ Takes_in (Answers_call ticket question (pos zxid) result) }
{}

/// The invariant holds of each start, is kept by each client step and each move of a server, and gives coherence.
#[tactic(auto, using(zk_laws::proofs::Whole::start_kept, zk_laws::proofs::Whole::move_kept, zk_laws::proofs::Whole::kept_coherent))]
pub fn one_item()
    ensures begins { (h : History) (saved : ℕ) → IsKept h (start saved) }
    ensures goes_on { (h : History) → IsHistory h → (move : Move) (w : World) → May h move w → IsKept h w → IsKept h (moved h move w) }
    ensures coherent { (h : History) (w : World) → IsKept h w → IsCoherent h w.log }
{}

/// Whatever transactions the history holds, and however questions, losses, reconnects and the moves of the servers fall,
/// each answer marked good is the history's answer at the last seen zxid.
#[tactic(auto, using(zk_laws::proofs::Whole::coherent))]
pub fn coherent_runs()
    ensures { (h : History) → IsHistory h → (saved : ℕ) (moves : List Move) → IsSchedule h moves (start saved)
        → IsCoherent h (run h moves (start saved)).log }
{}

/// Each read that is answered with 0 or -101 tells what there was at its reply's zxid, and each write that a server answers with
/// 0 is a change of the transaction with that zxid.
#[tactic(auto, using(zk_laws::proofs::More::reads_true))]
pub fn true_replies()
    ensures reads { (h : History) → IsHistory h → (saved : ℕ) (moves : List Move) → IsSchedule h moves (start saved)
        → (question : Question) (zxid : ℕ) (result : Result) → Among (Took (Replies question zxid result)) (run h moves (start saved)).log
        → Reads (tree_at h zxid) question result }
    ensures writes { (h : History) (call : Call) (result : Result) (c : Connection) (log : List Item)
        → MayStep h (By_server (Answers call result)) c log → IsTrueWrite h call (zxid_held h c.place) result }
{}

/// No reply that leaves a watch comes with a zxid below the last seen one.
#[tactic(auto, using(zk_laws::proofs::More::never_behind))]
pub fn nothing_behind()
    ensures { (h : History) → IsHistory h → (saved : ℕ) (moves : List Move) → IsSchedule h moves (start saved)
        → NoneBehind (run h moves (start saved)) }
{}

/// The last seen zxid never falls, whatever comes.
#[tactic(auto, using(zk_laws::proofs::More::never_falls))]
pub fn last_never_falls()
    ensures { (h : History) (moves : List Move) (w : World) → last w.log ≤ last (run h moves w).log }
{}

/// Where all messages of a connection were taken and no watches are still to be set again, each good answer is what the
/// server would answer where it stands.
#[tactic(auto, using(zk_laws::proofs::More::agrees_when_quiet))]
pub fn quiet_agreement()
    ensures { (h : History) → IsHistory h → (saved : ℕ) (moves : List Move) → IsSchedule h moves (start saved)
        → AgreesWhenQuiet h (run h moves (start saved)) }
{}

/// The premises can be met: a run in which an answer is kept over a reconnect, and ended by a notice.
#[tactic(auto, using(crate::proofs::Shown::is_history, crate::proofs::Shown::restored, crate::proofs::Shown::kept_good, crate::proofs::Shown::told_then))]
pub fn example()
    ensures history { IsHistory two_changes }
    ensures schedule { IsSchedule two_changes until_restored (start 0) }
    ensures kept { good Data at_a (run two_changes until_restored (start 0)).log ≡ Some (Full (Some (104 ∷ 105 ∷ [])) fields_at_five) }
    ensures ended { good Data at_a (run two_changes until_told (start 0)).log ≡ None }
{}

/// Why the replies to parts before the last one don't move the last seen zxid: here one comes with 6 while an answer that is
/// good is that at 5, and not that at 6.
#[tactic(auto, using(crate::proofs::Shown::two_nodes_history, crate::proofs::Shown::first_part, crate::proofs::Shown::b_good, crate::proofs::Shown::b_seen, crate::proofs::Shown::b_not_at_six))]
pub fn first_of_two_parts()
    ensures history { IsHistory two_nodes }
    ensures schedule { IsSchedule two_nodes until_first_part (start 0) }
    ensures kept { good Data at_b (run two_nodes until_first_part (start 0)).log ≡ Some (Full (Some (104 ∷ 105 ∷ [])) fields_at_five) }
    ensures seen { last (run two_nodes until_first_part (start 0)).log ≡ 5 }
    ensures not_six { Suits (Full (Some (104 ∷ 105 ∷ [])) fields_at_five) (view Data (tree_at two_nodes 6) (path_of at_b)) → ⊥ }
{}
