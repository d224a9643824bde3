//! A client piece by piece, and one look back by another: lemmas on the way to the laws of `zk_turns`. What only they name is in its
//! `proofs/`, and nobody has to believe it. The functions have empty bodies: their contracts are the laws.
#![tactic(auto)]

ghost use Rattle.std.specs.Prelude.{◌≡◌, ◌≤◌, ℕ, List, [], ◌++◌, length, map, ◌↔◌};
ghost use Rattle.std.specs.Prelude.{Some};
ghost use Rattle.zk_nodes.specs.Path.{Text};
ghost use Rattle.zk_nodes.specs.declared.side.Side.TheVariants.{Data, Child};
ghost use Rattle.zk_turns.specs.Turns.{Start, Item, Comes, Framed};
ghost use Rattle.zk_frames.specs.Frame.{frame, IsUnfinished};
ghost use Rattle.zk_cache.specs.Kept.{is_marked_good, Answer, Names};
ghost use Rattle.zk_turns.specs.Past.{Past, Dropped};
ghost use Rattle.zk_turns.specs.Past.{is_good, kept_data, kept_names, still_said, word_data, word_child};
ghost use Rattle.zk_turns.proofs.Marked.{IsMarked, AgreesWith};
ghost use Rattle.zk_turns.specs.View.{View};
ghost use Rattle.zk_turns.specs.Taken.{past_of, longest_of};
ghost use Rattle.zk_turns.specs.Rule.{Stands, IsOpen, next, says};
ghost use Rattle.zk_turns.proofs.Fed.{Hears, heard, fed, arrival};
ghost use Rattle.zk_turns.specs.Rule.{after_signals, says_signals};
ghost use Rattle.zk_frames.specs.Stream.{StandsNext};
ghost use Rattle.zk_frames.specs.declared.fault.FrameFault.{FrameFault};
ghost use Rattle.zk_turns.specs.Sent.{sends, outputs_of};
ghost use Rattle.zk_turns.proofs.Frames_sent.{sent};

/// Bytes that leave a frame unfinished are held, and nothing is said.
pub fn unfinished_piece()
    ensures view { (piece : List ℕ) (view : View) → Hears view → IsUnfinished (longest_of view) (view.held ++ piece) →
        after_signals view (map Comes piece) ≡ fed view piece }
    ensures says { (piece : List ℕ) (view : View) → Hears view → IsUnfinished (longest_of view) (view.held ++ piece) →
        says_signals view (map Comes piece) ≡ [] }
{}

/// Where a whole frame stands first in what is held and what comes, its payload arrives, and then what is left comes.
pub fn whole_payload()
    ensures view { (view : View) (piece payload rest : List ℕ) → Hears view → IsUnfinished (longest_of view) view.held
        → length payload ≤ longest_of view →
        view.held ++ piece ≡ frame payload ++ rest →
        after_signals view (map Comes piece) ≡ after_signals (next (heard view) (arrival view payload)) (map Comes rest) }
    ensures says { (view : View) (piece payload rest : List ℕ) → Hears view → IsUnfinished (longest_of view) view.held
        → length payload ≤ longest_of view →
        view.held ++ piece ≡ frame payload ++ rest →
        says_signals view (map Comes piece)
        ≡ says (heard view) (arrival view payload) ++ says_signals (next (heard view) (arrival view payload)) (map Comes rest) }
{}

/// Where a length that is not admitted stands first, the connection ends.
pub fn bad_length()
    ensures view { (view : View) (piece : List ℕ) (fault : FrameFault) → Hears view → IsUnfinished (longest_of view) view.held
        → StandsNext (longest_of view) fault (view.held ++ piece) →
        after_signals view (map Comes piece) ≡ next (heard view) (Dropped (Framed fault)) }
    ensures says { (view : View) (piece : List ℕ) (fault : FrameFault) → Hears view → IsUnfinished (longest_of view) view.held
        → StandsNext (longest_of view) fault (view.held ++ piece) →
        says_signals view (map Comes piece) ≡ says (heard view) (Dropped (Framed fault)) }
{}

/// Where there is no connection, bytes are ignored.
pub fn unheard_piece()
    ensures view { (piece : List ℕ) (view : View) → ¬ (IsOpen view.standing.state) → after_signals view (map Comes piece) ≡ view }
    ensures says { (piece : List ℕ) (view : View) → ¬ (IsOpen view.standing.state) → says_signals view (map Comes piece) ≡ [] }
{}

/// An answer is marked good exactly where a reply that leaves a watch was taken and nothing has ended it since, and then
/// it says what the last such reply said.
pub fn good_marks()
    ensures nodes { (path : Text) (past : Past) → is_marked_good (kept_data path past) ≡ is_good Data path past }
    ensures children { (path : Text) (past : Past) → is_marked_good (kept_names path past) ≡ is_good Child path past }
    ensures answers { (path : Text) (past : Past) → AgreesWith (kept_data path past) (still_said (word_data path) past) }
{}

/// An answer stands exactly where a reply that leaves a watch said it and nothing since then concerns its path and side.
pub fn standing_answers()
    ensures nodes { (path : Text) (past : Past) (answer : Answer)
        → still_said (word_data path) past ≡ Some answer ↔ IsMarked (word_data path) past answer }
    ensures children { (path : Text) (past : Past) (names : Names)
        → still_said (word_child path) past ≡ Some names ↔ IsMarked (word_child path) past names }
{}

/// What an open connection was sent: the ConnectRequest with the saved session and the last seen zxid; once accepted, the
/// parts of setWatches with the last seen zxid; then the requests of the calls that were sent, with xids running on, and pings.
pub fn sent_frames()
    ensures { (start : Start) (items : List Item) (view : View) → Stands start items view → IsOpen view.standing.state →
        sends (outputs_of items) ≡ sent start (past_of start items) }
{}
