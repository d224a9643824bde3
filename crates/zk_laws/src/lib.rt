//! Laws over the definitions of histories and servers. The functions have empty bodies: their contracts are the laws.
#![tactic(auto)]

ghost use Rattle.std.specs.Prelude.{◌⊎◌, ◌<◌, ◌++◌, false, Bool, length, is_some, ◌≡◌, ◌≤◌, ◌↔◌, Option, Some, None, ℕ};
ghost use Rattle.std.specs.Prelude.{◌∷◌, [], List, if◌then◌else◌, ℤ, pos, map};
ghost use Rattle.zk_conversation.specs.Calls.{connect_payload, Call};
ghost use Rattle.zk_records.specs.Layouts.{connect_request};
ghost use Rattle.zk_turns.specs.Past.{held_of, state_of, awaited, For_call, Asking};
ghost use Rattle.zk_turns.specs.Past.{leaves_data, leaves_child};
ghost use Rattle.zk_turns.specs.Past.{names_of, last_of, session_of, Began, Happening, Past, Dropped, Took as Takes_in};
ghost use Rattle.zk_turns.specs.Past.{Replies as Answers_call};
ghost use Rattle.zk_turns.specs.Taken.{past_of, longest};
ghost use Rattle.zk_laws.specs.Server.{Reads, sets};
ghost use Rattle.zk_laws.specs.Messages.{from_zero};
ghost use Rattle.zk_laws.specs.Served.{WasSent, Served, Entry, items_in, requests, IsServing};
ghost use Rattle.zk_nodes.specs.declared.side.Side.TheVariants.{Child, Data};
ghost use Rattle.zk_nodes.specs.Path.{Text, Name, NodePath, path_of};
ghost use Rattle.zk_nodes.specs.History.{Node, Tree, History, IsHistory, tree_at, view, node_fields};
ghost use Rattle.zk_nodes.specs.DataStats.{data_stat_of};
ghost use Rattle.zk_nodes.specs.declared.stat.Stat.{Stat};
ghost use Rattle.std.specs.FinSet as set;
ghost use Rattle.zk_conversation.specs.Questions.{question_of, Question, Exists, GetData, GetChildren};
ghost use Rattle.zk_conversation.specs.Results.{Result, NoNode, Found, Read, Listing};
ghost use Rattle.zk_turns.specs.Turns.{Framed, Silent, Start, Fault, Drop, Replied, Answer as Given_answer, Item as Client_item};
ghost use Rattle.zk_laws.specs.Laws.{IsTrueWrite, sets_at};
ghost use Rattle.zk_turns.specs.Meaning.{Among};
ghost use Rattle.zk_turns.specs.View.{View};
ghost use Rattle.zk_turns.specs.Rule.{Stands, IsOpen};
ghost use Rattle.zk_turns.specs.Sent.{sends, outputs_of};
ghost use Rattle.zk_frames.specs.declared.fault.FrameFault.TheVariants.{TooLong};
ghost use Rattle.zk_frames.specs.Frame.{length_field, frame, joined};
ghost use Rattle.zk_laws.specs.Parsed.{AreTold, IsCutInto, IsRecord, AreReadAs, stream_of, payloads_of};
ghost use Rattle.zk_turns.specs.Ranges.{IsResumable, IsTyped, AllAskOf};
ghost use Rattle.zk_laws.specs.Headline.{Headline, IsCoherentWith, IsQuietAt, IsTrueOf, tree_of};

/// What a read is answered: code -101 exactly where no node is there; the seven fields of the node that is there, with its data
/// where they were read, and with the names of its children, as a set, its pzxid too.
pub fn read_answers()
    ensures absent { (tree : Tree) (path : Text) (watch : Bool) → Reads tree (Exists path watch) NoNode ↔ (tree (path_of path) ≡ None) }
    ensures absent_data { (tree : Tree) (path : Text) (watch : Bool)
        → Reads tree (GetData path watch) NoNode ↔ (tree (path_of path) ≡ None) }
    ensures absent_parent { (tree : Tree) (path : Text) (watch : Bool)
        → Reads tree (GetChildren path watch) NoNode ↔ (tree (path_of path) ≡ None) }
    ensures fields { (tree : Tree) (path : Text) (watch : Bool) (stat : Stat) →
        Reads tree (Exists path watch) (Found stat)
        ↔ ((node : Node) × (tree (path_of path) ≡ Some node) × (data_stat_of stat ≡ node_fields node)) }
    ensures data { (tree : Tree) (path : Text) (watch : Bool) (bytes : Option (List ℕ)) (stat : Stat) →
        Reads tree (GetData path watch) (Read bytes stat)
        ↔ ((node : Node) × (tree (path_of path) ≡ Some node) × (bytes ≡ node.content) × (data_stat_of stat ≡ node_fields node)) }
    ensures children { (tree : Tree) (path : Text) (watch : Bool) (names : List Text) (stat : Stat) →
        Reads tree (GetChildren path watch) (Listing names stat)
        ↔ ((node : Node) × (tree (path_of path) ≡ Some node) × (stat.pzxid ≡ pos node.pzxid) × (data_stat_of stat ≡ node_fields node)
        × ((name : Name) → set.contains (names_of names stat).names name ≡ is_some (tree (name ∷ path_of path)))) }
{}

/// A server sets a watch with a reply exactly where the client counts one as left. Each has a table of its own, from the Programmer's
/// Guide, "ZooKeeper Watches".
#[tactic(auto, using(crate::proofs::Tables::data_table, crate::proofs::Tables::child_table))]
pub fn one_table()
    ensures data { (question : Question) (result : Result) (path : NodePath)
        → sets question result Data path ≡ sets_at (leaves_data question result) path }
    ensures child { (question : Question) (result : Result) (path : NodePath)
        → sets question result Child path ≡ sets_at (leaves_child question result) path }
{}

/// The headline: a client that stands at its items and was served keeps good answers that are the history's at its last
/// seen zxid, was answered what is true, and gave no connection up except for silence or a message that is too long.
pub fn headline()
    ensures { (h : History) → IsHistory h → (start : Start) (items : List Client_item) (view : View) → Stands start items view
        → (served : Served h start items) → Headline h start items view served.entries }
{}

/// Whatever transactions the history holds, and however turns and the moves of the servers fall and bytes are cut: each
/// answer marked good is the history's answer at the client's last seen zxid.
#[tactic(auto, using(crate::proofs::Headlines::coherent_client))]
pub fn coherence()
    ensures { (h : History) → IsHistory h → (start : Start) (items : List Client_item) (view : View) → Stands start items view
        → Served h start items → IsCoherentWith h view }
{}

/// Under such servers each read that was answered with 0 or -101 tells what there was at its reply's zxid, and each write
/// that was answered with 0 is a change of the transaction with that zxid: of the call that waited first, which has the reply's ticket.
pub fn answers_are_true()
    ensures reads { (h : History) → IsHistory h → (start : Start) (items : List Client_item) (view : View)
        → Stands start items view → Served h start items
        → (ticket : ℕ) (question : Question) (zxid : ℤ) (result : Result) → Among (Takes_in (Answers_call ticket question zxid result))
        (past_of start items) → Reads (tree_at h (from_zero zxid)) question result }
    ensures writes { (h : History) → IsHistory h → (start : Start) (items : List Client_item) (view : View)
        → Stands start items view → Served h start items
        → (since : List Happening) (ticket : ℕ) (question : Question) (zxid : ℤ) (result : Result) (before : Past)
        → past_of start items ≡ since ++ Takes_in (Answers_call ticket question zxid result) ∷ before
        → (xid : ℕ) × (call : Call) × (more : List Asking) × (awaited before ≡ For_call xid ticket call ∷ more)
        × (question_of call ≡ question) × IsTrueWrite h call (from_zero zxid) result }
{}

/// Under such servers no connection is given up except for silence, or for a message that was sent and is longer than is admitted:
/// its length is the one that stands next.
pub fn drops_are_due()
    ensures { (h : History) → IsHistory h → (start : Start) (items : List Client_item) (view : View) → Stands start items view
        → (served : Served h start items)
        → (since : List Happening) (fault : Fault) (before : Past) → past_of start items ≡ since ++ Dropped fault ∷ before
        → (fault ≡ Silent) ⊎ ((fault ≡ Framed TooLong) × ((payload : List ℕ) × WasSent served.entries payload
        × (longest start.limits (state_of before) < length payload) × (length_field (held_of before) ≡ length payload))) }
{}

/// Under such servers each reply has a zxid of at least the one that the client began with, a saved one or 0.
pub fn above_the_saved()
    ensures { (h : History) → IsHistory h → (start : Start) (items : List Client_item) (view : View)
        → Stands start items view → Served h start items
        → (ticket : ℕ) (question : Question) (zxid : ℤ) (result : Result)
        → Among (Takes_in (Answers_call ticket question zxid result)) (past_of start items) → from_zero start.last ≤ from_zero zxid }
{}

/// Where the client has taken all that the server of its connection sent, and no watches are still to be set again, each
/// good answer is also what that server would answer where it stands.
#[tactic(auto, using(crate::proofs::Headlines::quiet_client))]
pub fn quiet_client()
    ensures { (h : History) → IsHistory h → (start : Start) (entries : List Entry) (view : View) → IsServing h start entries
        → Stands start (items_in entries) view
        → IsQuietAt h start entries → IsTrueOf (tree_of h entries) view.cache }
{}

/// Each Drop among the outputs is a drop that happened.
#[tactic(auto, using(crate::proofs::Outputs::given_drops))]
pub fn given_drops()
    ensures { (start : Start) (items : List Client_item) (view : View) (fault : Fault) → Stands start items view
        → Among (Drop fault) (outputs_of items) → Among (Dropped fault) (past_of start items) }
{}

/// Each Answer with a reply's zxid among the outputs is that of a reply that was taken.
pub fn given_answers()
    ensures { (start : Start) (items : List Client_item) (view : View) (ticket : ℕ) (zxid : ℤ) (result : Result) → Stands start items view
        → Among (Given_answer ticket (Replied zxid result)) (outputs_of items)
        → (question : Question) × Among (Takes_in (Answers_call ticket question zxid result)) (past_of start items) }
{}

/// The frames of the requests that a server may process are what the connection was sent.
#[tactic(auto, using(crate::proofs::Headlines::sends_are))]
pub fn sent_requests()
    ensures { (start : Start) (items : List Client_item) (view : View) → Stands start items view → IsOpen view.standing.state
        → sends (outputs_of items) ≡ map (λ sent. frame sent.payload) (requests start (past_of start items)) }
{}

/// A server that cuts the bytes that a connection was sent into frames finds the payloads of its requests, in order, and nothing
/// else; of a beginning of these bytes, those of the first requests. In each payload it reads the request that was asked: with
/// its xid all that a caller asked, the paths to be watched again with the last seen zxid, or the last seen zxid of a client that
/// comes, in a record that has the session as it was kept when the connection began (`connect`). Each payload is of a length that
/// a frame can tell. The client began in range, and callers ask with values of their types.
pub fn parsed_requests()
    ensures told { (start : Start) (items : List Client_item) → IsResumable start → AreTold (payloads_of start items) }
    ensures beginning { (start : Start) (items : List Client_item) (view : View) (found : List (List ℕ)) (rest : List ℕ)
        → Stands start items view → IsOpen view.standing.state
        → IsResumable start → AreTold found → joined found ++ rest ≡ stream_of items
        → (more : List (List ℕ)) × (payloads_of start items ≡ found ++ more) × (rest ≡ joined more) }
    ensures whole { (start : Start) (items : List Client_item) (view : View) (found : List (List ℕ)) (rest : List ℕ)
        → Stands start items view → IsOpen view.standing.state
        → IsResumable start → IsCutInto found rest (stream_of items) → (found ≡ payloads_of start items) × (rest ≡ []) }
    ensures read { (start : Start) (items : List Client_item) (view : View) (found : List (List ℕ)) (rest : List ℕ)
        → Stands start items view → IsOpen view.standing.state
        → IsResumable start → AllAskOf IsTyped items → AreTold found → joined found ++ rest ≡ stream_of items
        → AreReadAs (requests start (past_of start items)) found }
    ensures connect { (start : Start) (items : List Client_item) (since : List Happening) (before : Past) → IsResumable start
        → past_of start items ≡ since ++ Began ∷ before
        → IsRecord connect_request (
          pos 0,
          (
            last_of start before,
            (pos start.timeout, ((session_of start before).session, (Some (session_of start before).password, false))),
          ),
        )
        (connect_payload (last_of start before) (pos start.timeout) (session_of start before).session (session_of start before).password) }
{}
