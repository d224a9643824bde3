//! Laws that no program needs. Rules that a reader of the guide would ask for by name, each over the turns of a client, up to
//! `stale_answers`; and from `connections_begin` on that the premise on servers is nowhere too narrow: from each place that a schedule
//! reaches it goes on with whatever a server may have to do and a network may bring. The functions have empty bodies: their contracts are
//! the laws.
#![tactic(auto)]

ghost use Rattle.std.specs.List.{flat_map, AllByRecursion};
ghost use Rattle.std.specs.Prelude.{◌≡◌, ◌↔◌, List, ◌∷◌, ℕ, ◌≤◌, ◌++◌, length, ℤ, negsuc, ◌<◌, [], map, Some, pos, true, false, ◌^◌};
ghost use Rattle.std.specs.Prelude.{int_lt, ◌≢◌, Bool, Option, None, is_some, suc, ◌||◌, ◌+◌};
ghost use Rattle.std.specs.FinSet as set;
ghost use Rattle.zk_cache.specs.Kept.{Answer as Kept_answer, Names, without_stale};
ghost use Rattle.zk_conversation.specs.Calls.{Call, ping_xid, Exists, GetData, GetChildren, SetData, Create, Delete, Close};
ghost use Rattle.zk_conversation.specs.Questions.{question_of};
ghost use Rattle.zk_conversation.specs.Results.{Result, stat_of, response_timeout, NoNode, Refused, Found, Read, Listing, Made, Done};
ghost use Rattle.zk_conversation.specs.Results.{texts_of};
ghost use Rattle.zk_frames.specs.Frame.{joined, length_field};
ghost use Rattle.zk_jute.specs.Layout.{Value, ustring};
ghost use Rattle.zk_jute.specs.Spelling.{spelling, Fits};
ghost use Rattle.zk_laws.specs.Headline.{IsQuietAt};
ghost use Rattle.zk_laws.specs.Messages.{Request, Connect, Restore, Ping, Ask};
ghost use Rattle.zk_laws.specs.Parsed.{IsCutInto};
ghost use Rattle.zk_laws.specs.Served.{Entry, Goes_on, Serves, items_in, wire_of, is_going, IsServing, Served};
ghost use Rattle.zk_laws.specs.Server.{Notice, AreSent, times, Watches, fires, leaves_set, leaves_set_all, sets, fires_all, part_tells};
ghost use Rattle.zk_laws.specs.Server.{part_sets, tree_held, zxid_held, held};
ghost use Rattle.zk_laws.specs.ServerSteps.{ServerStep, Stage, Waiting, Serving, Ended, Advances, Admits, Refuses, Restores, Pongs};
ghost use Rattle.zk_laws.specs.ServerSteps.{changes_next, Answers};
ghost use Rattle.zk_nodes.specs.DataStats.{data_stat_of};
ghost use Rattle.zk_nodes.specs.History.{History, Node, node_fields, Sets, Creates, Deletes, Transaction, Change, Tree, after, apply_all};
ghost use Rattle.zk_nodes.specs.Path.{Text, Name, NodePath, path_of};
ghost use Rattle.zk_nodes.specs.StatLayout.{stat};
ghost use Rattle.zk_nodes.specs.declared.side.Side.{Side};
ghost use Rattle.zk_records.specs.Layouts.{get_data_response, get_children2_response};
ghost use Rattle.zk_records.specs.Response.{Response, ResponseFits, EndsPayload, response_spelling};
ghost use Rattle.zk_session.specs.SessionView.{Welcome};
ghost use Rattle.zk_turns.specs.Meaning.{Among};
ghost use Rattle.zk_turns.specs.Past.{Happening, Past, Began, Lost, Forgot, Took, Dropped, Accepted, state_of, kept_data, kept_names};
ghost use Rattle.zk_turns.specs.Past.{word_data, word_child, names_of, is_open, is_talking, has_halted, held_of};
ghost use Rattle.zk_turns.specs.Rule.{next, says, says_all};
ghost use Rattle.zk_turns.specs.Taken.{past_of};
ghost use Rattle.zk_turns.specs.Turns.{Fault, Start, Output, Forgets, Halts, Bytes, Cut, Now, Call as Calling, Opened as Opening};
ghost use Rattle.zk_turns.specs.View.{View};
ghost use Rattle.zk_watches.specs.Lists.{Lists};
ghost use Rattle.theory_rules.specs.Closing.{CloseSays, CloseStays, CodeIsNoMatter};
ghost use Rattle.theory_rules.specs.Leads.{IsBehind, awaited};
ghost use Rattle.theory_rules.specs.Missed.{ChangesAreReported, NamesAreReported, OneIsLess, QuietAtLast, RequestsAreFrames};
ghost use Rattle.theory_rules.specs.Next.{headed, notice_payload, IsTellable, stat_value, end_of, Reaches, Awaits, CanTake, IsSendable};
ghost use Rattle.theory_rules.specs.Next.{zxid_of};
ghost use Rattle.theory_rules.specs.Rules.{states_in, brings, brought, IsStaleSince, as_stale};
ghost use Rattle.theory_rules.specs.Seeing.{LaterMoves, EarlierLeaves, TurnsRaise, RepliesAreSeen};
ghost use Rattle.theory_rules.specs.Ticking.{PingIsSent, ConnectionIsGivenUp, NothingIsSent, NothingWhileConnecting, NothingElsewhere};
ghost use Rattle.theory_rules.specs.Told.{fired_by, notices_of, Fires, IsDue, IsSetAgain, AllTell};
ghost use Rattle.theory_rules.specs.Xids.{FirstIsOne, AreInRange, RunOn, BeginAgain, CallsAloneMove, GoesOut, IsShown, AreApart};
ghost use Rattle.theory_serving.specs.Wires.{item_of};

/// Each reply to a call moves the last seen zxid to its own where that is later (`moves`), whatever was asked, and leaves it where it is
/// not (`leaves`). No turn lowers it (`rises`), and after a turn it is at least that of each reply that the turn told (`seen`).
pub fn replies_count()
    ensures moves { LaterMoves }
    ensures leaves { EarlierLeaves }
    ensures rises { TurnsRaise }
    ensures seen { RepliesAreSeen }
{}

/// A moment makes a client send a ping exactly where it is connected, a third of the timeout has passed since it last sent and two
/// thirds have not since it last heard (`ping`), and give its connection up exactly from two thirds on (`silence`). Before that
/// it says nothing (`nothing`, `connecting`), nor where there is no connection (`elsewhere`).
pub fn pings()
    ensures ping { PingIsSent }
    ensures silence { ConnectionIsGivenUp }
    ensures nothing { NothingIsSent }
    ensures connecting { NothingWhileConnecting }
    ensures elsewhere { NothingElsewhere }
{}

/// The first call has the xid 1, and each call the one after the last call's, over all connections, up to 2,147,483,647, after which
/// it is 1 again. So no call has the xid 0 or a negative one, which are kept for pings and what else a client asks by itself.
pub fn xids()
    ensures first { FirstIsOne }
    ensures range { AreInRange }
    ensures next { RunOn }
    ensures again { BeginAgain }
    ensures calls { CallsAloneMove }
    ensures sent { GoesOut }
    ensures shown { IsShown }
    ensures apart { AreApart }
{}

/// The reply to a close is told, and then that the session is closed, whatever the reply says (`says`), and a reply with any error
/// code is such a reply (`code`). From then on the client is closed for good: no connection, no lists and no answers (`stays`).
pub fn closes()
    ensures says { CloseSays }
    ensures code { CodeIsNoMatter }
    ensures stays { CloseStays }
{}

/// What is told of states is each state that comes, once and in the order in which they come: what happens to a client tells the state that
/// it brings, and where it brings none the state stays.
#[tactic(auto, using(crate::proofs::States::told, crate::proofs::States::all_told, crate::proofs::States::state, crate::proofs::States::next_state))]
pub fn states_are_told()
    ensures told { (view : View) (happening : Happening) → states_in (says view happening) ≡ brings happening }
    ensures all { (view : View) (happenings : List Happening) → states_in (says_all view happenings) ≡ flat_map brings happenings }
    ensures state { (happening : Happening) (past : Past) → state_of (happening ∷ past) ≡ brought (brings happening) (state_of past) }
    ensures next { (view : View) (happening : Happening)
        → (next view happening).standing.state ≡ brought (brings happening) view.standing.state }
{}

/// A stale answer is the one that was good when a notice ended that, and it stays until it is read again, forgotten, or the session is
/// over: through the loss of a connection, whichever way, and the beginning and acceptance of the next.
pub fn stale_answers()
    ensures nodes { (path : Text) (past : Past) (answer : Kept_answer)
        → kept_data path past ≡ as_stale answer ↔ IsStaleSince (word_data path) (kept_data path) past answer }
    ensures children { (path : Text) (past : Past) (names : Names)
        → kept_names path past ≡ as_stale names ↔ IsStaleSince (word_child path) (kept_names path) past names }
    ensures nodes_stay { (path : Text) (past : Past) (welcome : Welcome) (fault : Fault)
        → (kept_data path (Lost ∷ past) ≡ kept_data path past) × (kept_data path (Dropped fault ∷ past) ≡ kept_data path past)
        × (kept_data path (Began ∷ past) ≡ kept_data path past) × (kept_data path (Took (Accepted welcome) ∷ past) ≡ kept_data path past) }
    ensures children_stay { (path : Text) (past : Past) (welcome : Welcome) (fault : Fault)
        → (kept_names path (Lost ∷ past) ≡ kept_names path past) × (kept_names path (Dropped fault ∷ past) ≡ kept_names path past)
        × (kept_names path (Began ∷ past) ≡ kept_names path past)
        × (kept_names path (Took (Accepted welcome) ∷ past) ≡ kept_names path past) }
    ensures forgotten { (path : Text) (past : Past) → (kept_data path (Forgot ∷ past) ≡ without_stale (kept_data path past))
        × (kept_names path (Forgot ∷ past) ≡ without_stale (kept_names path past)) }
{}

/// A connection may begin to a server at each place of the history, and the server is at that place, with no watches; nothing is processed,
/// and nothing on its way.
#[tactic(auto, using(crate::proofs::Client::opens, crate::proofs::Client::opened_end, crate::proofs::Client::opened_wire))]
pub fn connections_begin()
    ensures opens { (h : History) (start : Start) (entries : List Entry) (place : ℕ) (outputs : List Output)
        → IsServing h start entries → place ≤ length h.transactions
        → IsServing h start (Goes_on place (item_of Opening outputs) ∷ entries) }
    ensures opened_end { (h : History) (entries : List Entry) (place : ℕ) (outputs : List Output)
        → IsBehind place (λ side path. false) Waiting (end_of h (Goes_on place (item_of Opening outputs) ∷ entries)) }
    ensures opened_wire { (h : History) (entries : List Entry) (place : ℕ) (outputs : List Output)
        → ((wire_of h (Goes_on place (item_of Opening outputs) ∷ entries)).processed ≡ 0)
        × ((wire_of h (Goes_on place (item_of Opening outputs) ∷ entries)).coming ≡ []) }
{}

/// What waits may be received in any pieces: any beginning of it, after which the rest waits. Without a connection any bytes may come.
#[tactic(auto, using(crate::proofs::Client::receives, crate::proofs::Client::received_rest, crate::proofs::Client::strays))]
pub fn bytes_come()
    ensures receives { (h : History) (start : Start) (entries : List Entry) (place : ℕ) (bytes rest : List ℕ) (outputs : List Output)
        → IsServing h start entries → (wire_of h entries).coming ≡ bytes ++ rest
        → IsServing h start (Goes_on place (item_of (Bytes bytes) outputs) ∷ entries) }
    ensures received_rest { (h : History) (entries : List Entry) (place : ℕ) (bytes rest : List ℕ)
        (outputs : List Output) → (wire_of h entries).coming ≡ bytes ++ rest
        → (wire_of h (Goes_on place (item_of (Bytes bytes) outputs) ∷ entries)).coming ≡ rest }
    ensures strays { (h : History) (start : Start) (entries : List Entry) (place : ℕ) (bytes : List ℕ) (outputs : List Output)
        → IsServing h start entries → is_going (past_of start (items_in entries)) ≡ false
        → IsServing h start (Goes_on place (item_of (Bytes bytes) outputs) ∷ entries) }
{}

/// At each moment the connection may be cut, the time may be told, a caller may ask, stale answers may be forgotten, and the client may
/// halt.
#[tactic(auto, using(crate::proofs::Client::cuts, crate::proofs::Client::ticks, crate::proofs::Client::asks, crate::proofs::Client::forgets, crate::proofs::Client::halts))]
pub fn clients_go_on()
    ensures cuts { (h : History) (start : Start) (entries : List Entry) (place : ℕ) (outputs : List Output) → IsServing h start entries
        → IsServing h start (Goes_on place (item_of Cut outputs) ∷ entries) }
    ensures ticks { (h : History) (start : Start) (entries : List Entry) (place moment : ℕ) (outputs : List Output)
        → IsServing h start entries → IsServing h start (Goes_on place (item_of (Now moment) outputs) ∷ entries) }
    ensures asks { (h : History) (start : Start) (entries : List Entry) (place ticket : ℕ) (call : Call) (outputs : List Output)
        → IsServing h start entries → IsServing h start (Goes_on place (item_of (Calling ticket call) outputs) ∷ entries) }
    ensures forgets { (h : History) (start : Start) (entries : List Entry) (place : ℕ) → IsServing h start entries
        → IsServing h start (Goes_on place Forgets ∷ entries) }
    ensures halts { (h : History) (start : Start) (entries : List Entry) (place : ℕ) → IsServing h start entries
        → IsServing h start (Goes_on place Halts ∷ entries) }
{}

/// A server that serves may answer the ping that stands next, with any zxid and code, and any bytes after.
#[tactic(auto, using(crate::proofs::Taking::pongs))]
pub fn pings_are_answered()
    ensures pongs { (h : History) (start : Start) (entries : List Entry) (xid zxid err : ℤ) (behind : List ℕ)
        → Awaits h start entries Serving Ping xid → IsSendable ping_xid zxid err behind
        → CanTake h start entries Pongs (headed ping_xid zxid err behind ∷ []) }
{}

/// Each transaction after the place of a server can be taken, before the client is admitted and while it is served, with notices
/// in each order in which they may be sent, each with any zxid and code.
#[tactic(auto, using(crate::proofs::Taking::advances))]
pub fn transactions()
    ensures advances { (h : History) (start : Start) (entries : List Entry) (stage : Stage) (sent : List Notice)
        (zxid err : ℤ) → Reaches h start entries stage → stage ≢ Ended
        → (end_of h entries).place < length h.transactions
        → AreSent (fires_all (changes_next h (end_of h entries).place) (end_of h entries).watches) sent
        → AllByRecursion (IsTellable zxid err) sent → CanTake h start entries (Advances sent) (map (notice_payload zxid err) sent) }
{}

/// Notices may be sent in the order in which they are fired, with two parts of them changed about, part by part, and once where two
/// are the same.
#[tactic(auto, using(crate::proofs::Spelled::all_sent, crate::proofs::Spelled::swapped_sent, crate::proofs::Spelled::joined_sent, crate::proofs::Spelled::once_sent))]
pub fn orders()
    ensures all_sent { (fired : List Notice) → AreSent fired fired }
    ensures swapped_sent { (first second : List Notice) → AreSent (first ++ second) (second ++ first) }
    ensures joined_sent { (fired sent more others : List Notice) → AreSent fired sent → AreSent more others
        → AreSent (fired ++ more) (sent ++ others) }
    ensures once_sent { (notice : Notice) → AreSent (notice ∷ notice ∷ []) (notice ∷ []) }
{}

/// The part of watches that stands next can be set again: its notices come, and then the reply to it.
#[tactic(auto, using(crate::proofs::Taking::restores))]
pub fn parts_are_set()
    ensures restores { (h : History) (start : Start) (entries : List Entry) (is_last : Bool) (relative : ℕ) (part : Lists) (xid : ℤ)
        (sent : List Notice) (zxid err : ℤ) (behind : List ℕ)
        → Awaits h start entries Serving (Restore is_last relative part) xid
        → AreSent (part_tells relative (tree_held h (end_of h entries).place) part) sent
        → AllByRecursion (IsTellable zxid err) sent → IsSendable xid (zxid_of h entries) (pos 0) behind
        → CanTake h start entries (Restores is_last relative part sent)
        (map (notice_payload zxid err) sent ++ headed xid (zxid_of h entries) (pos 0) behind ∷ []) }
{}

/// A server that has all that the client has seen may admit it, with any response whose timeout is above 0, and may refuse it, with
/// any response whose timeout is not.
#[tactic(auto, using(crate::proofs::Taking::admits, crate::proofs::Taking::refuses))]
pub fn clients_come()
    ensures admits { (h : History) (start : Start) (entries : List Entry) (seen : ℕ) (xid : ℤ) (response : Response) (ignored : List ℕ)
        → Awaits h start entries Waiting (Connect seen) xid
        → seen ≤ zxid_held h (end_of h entries).place → ResponseFits response → EndsPayload response.read_only ignored
        → length (response_spelling response ++ ignored) < 2 ^ 31
        → int_lt (pos 0) (response_timeout response) ≡ true
        → CanTake h start entries (Admits seen) ((response_spelling response ++ ignored) ∷ []) }
    ensures refuses { (h : History) (start : Start) (entries : List Entry) (seen : ℕ) (xid : ℤ) (response : Response) (ignored : List ℕ)
        → Awaits h start entries Waiting (Connect seen) xid
        → seen ≤ zxid_held h (end_of h entries).place → ResponseFits response → EndsPayload response.read_only ignored
        → length (response_spelling response ++ ignored) < 2 ^ 31
        → int_lt (pos 0) (response_timeout response) ≡ false
        → CanTake h start entries (Refuses seen) ((response_spelling response ++ ignored) ∷ []) }
{}

/// Each call that stands next may be refused, with each code that is neither 0 nor -101; a close is answered.
#[tactic(auto, using(crate::proofs::Answering::refuses, crate::proofs::Answering::closes))]
pub fn calls_are_refused()
    ensures refuses { (h : History) (start : Start) (entries : List Entry) (call : Call) (xid code : ℤ) (behind : List ℕ)
        → Awaits h start entries Serving (Ask call) xid → code ≢ pos 0 → code ≢ negsuc 100
        → IsSendable xid (zxid_of h entries) code behind
        → CanTake h start entries (Answers call (Refused code)) (headed xid (zxid_of h entries) code behind ∷ []) }
    ensures closes { (h : History) (start : Start) (entries : List Entry) (xid : ℤ) (behind : List ℕ)
        → Awaits h start entries Serving (Ask Close) xid → IsSendable xid (zxid_of h entries) (pos 0) behind
        → CanTake h start entries (Answers Close Done) (headed xid (zxid_of h entries) (pos 0) behind ∷ []) }
{}

/// A read that stands next may be answered that there is no node, where none is there.
#[tactic(auto, using(crate::proofs::Answering::absent_node, crate::proofs::Answering::absent_data, crate::proofs::Answering::absent_children))]
pub fn absent_nodes()
    ensures absent_node { (h : History) (start : Start) (entries : List Entry) (path : Text) (watch : Bool) (xid : ℤ) (behind : List ℕ)
        → Awaits h start entries Serving (Ask (Exists path watch)) xid
        → tree_held h (end_of h entries).place (path_of path) ≡ None → IsSendable xid (zxid_of h entries) (negsuc 100) behind
        → CanTake h start entries (Answers (Exists path watch) NoNode) (headed xid (zxid_of h entries) (negsuc 100) behind ∷ []) }
    ensures absent_data { (h : History) (start : Start) (entries : List Entry) (path : Text) (watch : Bool) (xid : ℤ) (behind : List ℕ)
        → Awaits h start entries Serving (Ask (GetData path watch)) xid
        → tree_held h (end_of h entries).place (path_of path) ≡ None → IsSendable xid (zxid_of h entries) (negsuc 100) behind
        → CanTake h start entries (Answers (GetData path watch) NoNode) (headed xid (zxid_of h entries) (negsuc 100) behind ∷ []) }
    ensures absent_children { (h : History) (start : Start) (entries : List Entry) (path : Text) (watch : Bool) (xid : ℤ) (behind : List ℕ)
        → Awaits h start entries Serving (Ask (GetChildren path watch)) xid
        → tree_held h (end_of h entries).place (path_of path) ≡ None → IsSendable xid (zxid_of h entries) (negsuc 100) behind
        → CanTake h start entries (Answers (GetChildren path watch) NoNode) (headed xid (zxid_of h entries) (negsuc 100) behind ∷ []) }
{}

/// A read that stands next may be answered what is there, where a node is: with any Stat that has its fields, with its data, and with
/// any list that names its children.
#[tactic(auto, using(crate::proofs::Answering::found_node, crate::proofs::Answering::found_data, crate::proofs::Answering::found_children))]
pub fn found_nodes()
    ensures found_node { (h : History) (start : Start) (entries : List Entry) (path : Text) (watch : Bool) (xid : ℤ) (node : Node)
        (value : Value stat) (ignored : List ℕ) → Awaits h start entries Serving (Ask (Exists path watch)) xid
        → tree_held h (end_of h entries).place (path_of path) ≡ Some node → Fits stat value
        → data_stat_of (stat_of value) ≡ node_fields node
        → IsSendable xid (zxid_of h entries) (pos 0) (spelling stat value ++ ignored)
        → CanTake h start entries (Answers (Exists path watch) (Found (stat_of value)))
        (headed xid (zxid_of h entries) (pos 0) (spelling stat value ++ ignored) ∷ []) }
    ensures found_data { (h : History) (start : Start) (entries : List Entry) (path : Text) (watch : Bool) (xid : ℤ) (node : Node)
        (value : Value stat) (ignored : List ℕ) → Awaits h start entries Serving (Ask (GetData path watch)) xid
        → tree_held h (end_of h entries).place (path_of path) ≡ Some node → Fits get_data_response (node.content, value)
        → data_stat_of (stat_of value) ≡ node_fields node
        → IsSendable xid (zxid_of h entries) (pos 0) (spelling get_data_response (node.content, value) ++ ignored)
        → CanTake h start entries (Answers (GetData path watch) (Read node.content (stat_of value)))
        (headed xid (zxid_of h entries) (pos 0) (spelling get_data_response (node.content, value) ++ ignored) ∷ []) }
    ensures found_children { (h : History) (start : Start) (entries : List Entry) (path : Text) (watch : Bool) (xid : ℤ) (node : Node)
        (names : Option (List (Option (List ℕ)))) (value : Value stat) (ignored : List ℕ)
        → Awaits h start entries Serving (Ask (GetChildren path watch)) xid
        → tree_held h (end_of h entries).place (path_of path) ≡ Some node
        → Fits get_children2_response (names, value) → data_stat_of (stat_of value) ≡ node_fields node
        → (stat_of value).pzxid ≡ pos node.pzxid
        → ((name : Name) → set.contains (names_of (texts_of names) (stat_of value)).names name
        ≡ is_some (tree_held h (end_of h entries).place (name ∷ path_of path)))
        → IsSendable xid (zxid_of h entries) (pos 0) (spelling get_children2_response (names, value) ++ ignored)
        → CanTake h start entries (Answers (GetChildren path watch) (Listing (texts_of names) (stat_of value)))
        (headed xid (zxid_of h entries) (pos 0) (spelling get_children2_response (names, value) ++ ignored) ∷ []) }
{}

/// A node has a Stat with any counts.
#[tactic(auto, using(crate::proofs::Spelled::stat_fields, crate::proofs::Spelled::stat_pzxid))]
pub fn nodes_have_stats()
    ensures stat_fields { (node : Node) (cversion acl_version children : ℤ)
        → data_stat_of (stat_of (stat_value node cversion acl_version children)) ≡ node_fields node }
    ensures stat_pzxid { (node : Node) (cversion acl_version children : ℤ)
        → (stat_of (stat_value node cversion acl_version children)).pzxid ≡ pos node.pzxid }
{}

/// A write that stands next may be answered as done, where the last transaction that the server holds has its change. A create of the
/// modes 0 and 1 makes the path that was asked for, one of another mode any path that begins with it.
#[tactic(auto, using(crate::proofs::Answering::written, crate::proofs::Answering::made, crate::proofs::Answering::deleted))]
pub fn writes_are_accepted()
    ensures written { (h : History) (start : Start) (entries : List Entry) (path : Text) (content : Option (List ℕ)) (version xid : ℤ)
        (earlier : List Transaction) (last : Transaction) (node : Node) (value : Value stat) (ignored : List ℕ)
        → Awaits h start entries Serving (Ask (SetData path content version)) xid → held h (end_of h entries).place ≡ earlier ++ last ∷ []
        → Among (Sets (path_of path) content) last.changes
        → tree_held h (end_of h entries).place (path_of path) ≡ Some node → Fits stat value
        → data_stat_of (stat_of value) ≡ node_fields node
        → IsSendable xid (zxid_of h entries) (pos 0) (spelling stat value ++ ignored)
        → CanTake h start entries (Answers (SetData path content version) (Found (stat_of value)))
        (headed xid (zxid_of h entries) (pos 0) (spelling stat value ++ ignored) ∷ []) }
    ensures made { (h : History) (start : Start) (entries : List Entry) (path : Text) (content : Option (List ℕ)) (mode : ℕ) (xid owner : ℤ)
        (earlier : List Transaction) (last : Transaction) (ignored : List ℕ)
        → Awaits h start entries Serving (Ask (Create path content mode)) xid → mode ≤ 1
        → held h (end_of h entries).place ≡ earlier ++ last ∷ [] → Among (Creates (path_of path) content owner) last.changes
        → Fits ustring (Some path) → IsSendable xid (zxid_of h entries) (pos 0) (spelling ustring (Some path) ++ ignored)
        → CanTake h start entries (Answers (Create path content mode) (Made path))
        (headed xid (zxid_of h entries) (pos 0) (spelling ustring (Some path) ++ ignored) ∷ []) }
    ensures numbered { (h : History) (start : Start) (entries : List Entry) (path : Text) (content : Option (List ℕ)) (mode : ℕ)
        (number : List ℕ) (xid owner : ℤ) (earlier : List Transaction) (last : Transaction) (ignored : List ℕ)
        → Awaits h start entries Serving (Ask (Create path content mode)) xid → 1 < mode
        → held h (end_of h entries).place ≡ earlier ++ last ∷ [] → Among (Creates (path_of (path ++ number)) content owner) last.changes
        → Fits ustring (Some (path ++ number))
        → IsSendable xid (zxid_of h entries) (pos 0) (spelling ustring (Some (path ++ number)) ++ ignored)
        → CanTake h start entries (Answers (Create path content mode) (Made (path ++ number)))
        (headed xid (zxid_of h entries) (pos 0) (spelling ustring (Some (path ++ number)) ++ ignored) ∷ []) }
    ensures deleted { (h : History) (start : Start) (entries : List Entry) (path : Text) (version xid : ℤ) (earlier : List Transaction)
        (last : Transaction) (behind : List ℕ)
        → Awaits h start entries Serving (Ask (Delete path version)) xid → held h (end_of h entries).place ≡ earlier ++ last ∷ []
        → Among (Deletes (path_of path)) last.changes
        → IsSendable xid (zxid_of h entries) (pos 0) behind
        → CanTake h start entries (Answers (Delete path version) Done) (headed xid (zxid_of h entries) (pos 0) behind ∷ []) }
{}

/// Each change fires the watches of its table that are set, in order, and leaves all others.
#[tactic(auto, using(crate::proofs::Telling::change_tells, crate::proofs::Telling::change_kept, crate::proofs::Telling::change_keeps))]
pub fn changes_fire()
    ensures told { (change : Change) (watches : Watches) → fires change watches ≡ notices_of watches (fired_by change) }
    ensures kept { (change : Change) (watches : Watches) (side : Side) (path : NodePath) → leaves_set change watches side path ≡ true
        → (watches side path ≡ true) × (Fires (fired_by change) side path → ⊥) }
    ensures stays { (change : Change) (watches : Watches) (side : Side) (path : NodePath) → watches side path ≡ true
        → (Fires (fired_by change) side path → ⊥) → leaves_set change watches side path ≡ true }
{}

/// Path by path, a part tells what is due for it and nothing else, and sets again the watches of which nothing is told, and no others.
#[tactic(auto, using(crate::proofs::Telling::due_told, crate::proofs::Telling::told_due, crate::proofs::Telling::set_again, crate::proofs::Telling::only_again))]
pub fn parts_tell()
    ensures told { (relative : ℕ) (tree : Tree) (part : Lists) (notice : Notice) → IsDue relative tree part notice.event notice.path
        → Among notice (part_tells relative tree part) }
    ensures only { (relative : ℕ) (tree : Tree) (part : Lists) (notice : Notice) → Among notice (part_tells relative tree part)
        → IsDue relative tree part notice.event notice.path }
    ensures again { (relative : ℕ) (tree : Tree) (part : Lists) (side : Side) (path : Text) → IsSetAgain relative tree part side path
        → part_sets relative tree part side (path_of path) ≡ true }
    ensures none_else { (relative : ℕ) (tree : Tree) (part : Lists) (side : Side) (path : NodePath)
        → part_sets relative tree part side path ≡ true → (text : Text) × (path_of text ≡ path) × IsSetAgain relative tree part side text }
{}

/// Each step leads where it should: a transaction to the next place, with the watches that its changes leave; an admission to a server
/// that serves, a refusal or a close to one that has ended; an answer or a part adds the watches that it sets; a pong leaves all.
#[tactic(auto, using(crate::proofs::Leading::advanced, crate::proofs::Leading::admitted, crate::proofs::Leading::refused, crate::proofs::Leading::answered, crate::proofs::Leading::closed, crate::proofs::Leading::restored, crate::proofs::Leading::ponged))]
pub fn steps_lead_on()
    ensures advanced { (h : History) (entries : List Entry) (sent : List Notice) (payloads : List (List ℕ))
        → IsBehind (suc (end_of h entries).place) (leaves_set_all (changes_next h (end_of h entries).place) (end_of h entries).watches)
        (end_of h entries).stage (end_of h (Serves (Advances sent) payloads ∷ entries)) }
    ensures admitted { (h : History) (entries : List Entry) (seen : ℕ) (payloads : List (List ℕ))
        → IsBehind (end_of h entries).place (end_of h entries).watches Serving (end_of h (Serves (Admits seen) payloads ∷ entries)) }
    ensures refused { (h : History) (entries : List Entry) (seen : ℕ) (payloads : List (List ℕ))
        → IsBehind (end_of h entries).place (end_of h entries).watches Ended (end_of h (Serves (Refuses seen) payloads ∷ entries)) }
    ensures answered { (h : History) (entries : List Entry) (call : Call) (result : Result) (payloads : List (List ℕ)) → call ≢ Close
        → IsBehind (end_of h entries).place (λ side path. (end_of h entries).watches side path || sets (question_of call) result side path)
        Serving (end_of h (Serves (Answers call result) payloads ∷ entries)) }
    ensures closed { (h : History) (entries : List Entry) (result : Result) (payloads : List (List ℕ))
        → (end_of h (Serves (Answers Close result) payloads ∷ entries)).stage ≡ Ended }
    ensures restored { (h : History) (entries : List Entry) (is_last : Bool) (relative : ℕ) (part : Lists) (sent : List Notice)
        (payloads : List (List ℕ))
        → IsBehind (end_of h entries).place
        (λ side path. (end_of h entries).watches side path || part_sets relative (tree_held h (end_of h entries).place) part side path)
        (end_of h entries).stage (end_of h (Serves (Restores is_last relative part sent) payloads ∷ entries)) }
    ensures ponged { (h : History) (entries : List Entry) (payloads : List (List ℕ)) → IsBehind
        (end_of h entries).place (end_of h entries).watches (end_of h entries).stage (end_of h (Serves Pongs payloads ∷ entries)) }
{}

/// What a step sends comes after what was on its way. After a transaction the same request stands next, after each other step the one
/// after it.
#[tactic(auto, using(crate::proofs::Leading::comes_behind, crate::proofs::Leading::still_next, crate::proofs::Leading::next_done))]
pub fn requests_are_processed()
    ensures comes_behind { (h : History) (entries : List Entry) (step : ServerStep) (payloads : List (List ℕ))
        → (wire_of h (Serves step payloads ∷ entries)).coming ≡ (wire_of h entries).coming ++ joined payloads }
    ensures still_next { (h : History) (start : Start) (entries : List Entry) (sent : List Notice) (payloads : List (List ℕ))
        → awaited h start (Serves (Advances sent) payloads ∷ entries) ≡ awaited h start entries }
    ensures next_done { (h : History) (start : Start) (entries : List Entry) (step : ServerStep) (payloads : List (List ℕ))
        (request : Request) (others : List Request) → ((sent : List Notice) → step ≢ Advances sent)
        → awaited h start entries ≡ request ∷ others → awaited h start (Serves step payloads ∷ entries) ≡ others }
{}

/// A cut, a moment, a call and a client that forgets leave the server's end, and what is on its way, as they were; bytes that are received
/// leave the server's end.
#[tactic(auto, using(crate::proofs::Leading::cut_stays, crate::proofs::Leading::tick_stays, crate::proofs::Leading::call_stays, crate::proofs::Leading::forgetting_stays, crate::proofs::Leading::bytes_stay))]
pub fn wires_stay()
    ensures cut_stays { (h : History) (entries : List Entry) (place : ℕ) (outputs : List Output)
        → wire_of h (Goes_on place (item_of Cut outputs) ∷ entries) ≡ wire_of h entries }
    ensures tick_stays { (h : History) (entries : List Entry) (place moment : ℕ) (outputs : List Output)
        → wire_of h (Goes_on place (item_of (Now moment) outputs) ∷ entries) ≡ wire_of h entries }
    ensures call_stays { (h : History) (entries : List Entry) (place ticket : ℕ) (call : Call) (outputs : List Output)
        → wire_of h (Goes_on place (item_of (Calling ticket call) outputs) ∷ entries) ≡ wire_of h entries }
    ensures forgetting_stays { (h : History) (entries : List Entry) (place : ℕ)
        → wire_of h (Goes_on place Forgets ∷ entries) ≡ wire_of h entries }
    ensures bytes_stay { (h : History) (entries : List Entry) (place : ℕ) (bytes : List ℕ) (outputs : List Output)
        → (end_of h (Goes_on place (item_of (Bytes bytes) outputs) ∷ entries) ≡ end_of h entries)
        × ((wire_of h (Goes_on place (item_of (Bytes bytes) outputs) ∷ entries)).processed ≡ (wire_of h entries).processed) }
{}

/// All is quiet where the client talks, nothing is on its way or half taken, and no part of watches waits; a connection is open as the
/// client's state says; and a schedule serves the items that are in it.
#[tactic(auto, using(crate::proofs::Leading::quiet_so, crate::proofs::Leading::going_so, crate::proofs::Leading::served_so))]
pub fn quiet_places()
    ensures quiet_so { (h : History) (start : Start) (entries : List Entry)
        → is_talking (state_of (past_of start (items_in entries))) ≡ true → is_going (past_of start (items_in entries)) ≡ true
        → (wire_of h entries).coming ≡ [] → held_of (past_of start (items_in entries)) ≡ []
        → ((is_last : Bool) (relative : ℕ) (part : Lists) → Among (Restore is_last relative part) (awaited h start entries) → ⊥)
        → IsQuietAt h start entries }
    ensures going_so { (past : Past) → is_open (state_of past) ≡ true → has_halted past ≡ false → is_going past ≡ true }
    ensures served_so { (h : History) (start : Start) (entries : List Entry) → IsServing h start entries
        → Served h start (items_in entries) }
{}

/// Notices may be sent in each list that has all that are fired, none more often than it is; and the changes of a transaction fire one
/// after the other, each the watches that those before it left.
#[tactic(auto, using(crate::proofs::Leading::counted_so, crate::proofs::Leading::first_tells, crate::proofs::Leading::none_tells))]
pub fn notices_are_counted()
    ensures counted_so { (fired sent : List Notice) → ((notice : Notice) → times notice sent ≤ times notice fired)
        → ((notice : Notice) → 0 < times notice fired → 0 < times notice sent) → AreSent fired sent }
    ensures first_tells { (change : Change) (changes : List Change) (watches : Watches)
        → fires_all (change ∷ changes) watches ≡ fires change watches ++ fires_all changes (leaves_set change watches) }
    ensures none_tells { (watches : Watches) → fires_all [] watches ≡ [] }
{}

/// A write that stands next may be answered that there is no node.
#[tactic(auto, using(crate::proofs::Answering::unwritten, crate::proofs::Answering::unmade, crate::proofs::Answering::undeleted))]
pub fn absent_writes()
    ensures unwritten { (h : History) (start : Start) (entries : List Entry) (path : Text) (content : Option (List ℕ)) (version xid : ℤ)
        (behind : List ℕ) → Awaits h start entries Serving (Ask (SetData path content version)) xid
        → IsSendable xid (zxid_of h entries) (negsuc 100) behind → CanTake h start entries (Answers (SetData path content version) NoNode)
        (headed xid (zxid_of h entries) (negsuc 100) behind ∷ []) }
    ensures unmade { (h : History) (start : Start) (entries : List Entry) (path : Text) (content : Option (List ℕ)) (mode : ℕ) (xid : ℤ)
        (behind : List ℕ) → Awaits h start entries Serving (Ask (Create path content mode)) xid
        → IsSendable xid (zxid_of h entries) (negsuc 100) behind → CanTake h start entries (Answers (Create path content mode) NoNode)
        (headed xid (zxid_of h entries) (negsuc 100) behind ∷ []) }
    ensures undeleted { (h : History) (start : Start) (entries : List Entry) (path : Text) (version xid : ℤ) (behind : List ℕ)
        → Awaits h start entries Serving (Ask (Delete path version)) xid
        → IsSendable xid (zxid_of h entries) (negsuc 100) behind
        → CanTake h start entries (Answers (Delete path version) NoNode) (headed xid (zxid_of h entries) (negsuc 100) behind ∷ []) }
{}

/// Each notice may come with a zxid, a code and a state of its own, and with any bytes after it.
#[tactic(auto, using(crate::proofs::Taking::tells_of_changes, crate::proofs::Taking::tells_of_parts))]
pub fn any_notices()
    ensures tells_of_changes { (h : History) (start : Start) (entries : List Entry) (stage : Stage) (sent : List Notice)
        (payloads : List (List ℕ)) → Reaches h start entries stage → stage ≢ Ended
        → (end_of h entries).place < length h.transactions
        → AreSent (fires_all (changes_next h (end_of h entries).place) (end_of h entries).watches) sent → AllTell sent payloads
        → CanTake h start entries (Advances sent) payloads }
    ensures tells_of_parts { (h : History) (start : Start) (entries : List Entry) (is_last : Bool) (relative : ℕ) (part : Lists) (xid : ℤ)
        (sent : List Notice) (payloads : List (List ℕ)) (behind : List ℕ)
        → Awaits h start entries Serving (Restore is_last relative part) xid
        → AreSent (part_tells relative (tree_held h (end_of h entries).place) part) sent
        → AllTell sent payloads → IsSendable xid (zxid_of h entries) (pos 0) behind
        → CanTake h start entries (Restores is_last relative part sent) (payloads ++ headed xid (zxid_of h entries) (pos 0) behind ∷ []) }
{}

/// Bytes that end in less than a whole frame are cut into the frames before it.
#[tactic(auto, using(crate::proofs::Leading::cut_so))]
pub fn frames_are_cut()
    ensures cut_so { (payloads : List (List ℕ)) (rest : List ℕ) → AllByRecursion (λ payload. length payload < 2 ^ 31) payloads
        → (4 ≤ length rest → length rest < 4 + length_field rest) → IsCutInto payloads rest (joined payloads ++ rest) }
{}

/// A server holds as many transactions as its place says, the first ones: the tree is what the last of them left, its zxid that of the
/// last; and before any, the first tree and 0.
#[tactic(auto, using(crate::proofs::Holding::none_tree, crate::proofs::Holding::none_zxid, crate::proofs::Holding::first_held, crate::proofs::Holding::last_zxid, crate::proofs::Holding::last_tree))]
pub fn servers_hold()
    ensures none_tree { (h : History) → tree_held h 0 ≡ h.first }
    ensures none_zxid { (h : History) → zxid_held h 0 ≡ 0 }
    ensures first_held { (h : History) (first more : List Transaction) → h.transactions ≡ first ++ more → held h (length first) ≡ first }
    ensures last_zxid { (h : History) (place : ℕ) (earlier : List Transaction) (last : Transaction) → held h place ≡ earlier ++ last ∷ []
        → zxid_held h place ≡ last.zxid }
    ensures last_tree { (h : History) (place : ℕ) (earlier : List Transaction) (last : Transaction) → held h place ≡ earlier ++ last ∷ []
        → tree_held h place ≡ apply_all last.zxid last.time last.changes (after earlier h.first) }
{}

/// No change is missed. Where all is quiet, an answer that is kept and is not what there is to see in the server's tree is stale: it was
/// good when a notice ended that, this was reported, and nothing else was reported of that side of the path since.
#[tactic(auto, using(crate::proofs::Missed::changes, crate::proofs::Missed::names))]
pub fn no_change_is_missed()
    ensures nodes { ChangesAreReported }
    ensures children { NamesAreReported }
{}

/// Servers in memory reach such a place in as many steps as requests wait. These are a number of frames (`count`), each that is
/// processed is one of them (`less`), and where none is left and the client has received all bytes, all is quiet (`quiet`).
#[tactic(auto, using(crate::proofs::Quiet::quiet_at_last))]
pub fn quiet_is_reached()
    ensures count { RequestsAreFrames }
    ensures less { OneIsLess }
    ensures quiet { QuietAtLast }
{}
