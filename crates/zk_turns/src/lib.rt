//! Laws about whole lists of turns.
#![tactic(auto)]

ghost use Rattle.std.specs.Prelude.{ℤ, pos, Ok};
ghost use Rattle.zk_jute.specs.Layout.{Layout, Value};
ghost use Rattle.zk_jute.specs.Spelling.{IsBytes, spelling, Fits};
ghost use Rattle.zk_jute.specs.Reading.{reading as read_at};
ghost use Rattle.zk_records.specs.Operations.{operation_number, request_layout};
ghost use Rattle.zk_records.specs.declared.operation.Operation.TheVariants.{Ping, SetWatches};
ghost use Rattle.zk_records.specs.Layouts.{connect_request};
ghost use Rattle.zk_records.specs.Response.{Response, IsPayload};
ghost use Rattle.zk_conversation.specs.declared.phase.Phase.TheVariants.{Opening};
ghost use Rattle.zk_conversation.specs.Calls.{Call, wording, call_payload, connect_payload, part_xid, part_payload};
ghost use Rattle.zk_conversation.specs.Calls.{ping_payload, ping_xid, texts_value};
ghost use Rattle.zk_conversation.specs.Questions.{Question};
ghost use Rattle.zk_conversation.specs.Results.{Result, record_of};
ghost use Rattle.zk_conversation.specs.Pending.{Pending};
ghost use Rattle.zk_conversation.specs.Arriving.{Connected, arriving};
ghost use Rattle.zk_turns.specs.Turns.{Fault, new_start};
ghost use Rattle.zk_turns.specs.Ranges.{IsResumable, IsTyped, AllAskOf};
ghost use Rattle.zk_session.specs.SessionView.{Welcome};
ghost use Rattle.zk_watches.specs.Parts.{parts};
ghost use Rattle.std.specs.List.{AllByRecursion};
ghost use Rattle.zk_turns.specs.Taken.{refusal};
ghost use Rattle.zk_turns.specs.Spelled.{BeginsWith, ReadsAs, WordingFits};
ghost use Rattle.zk_turns.specs.Causes.{in_turn, IsFirstOf, IsGivenUp};
ghost use Rattle.std.specs.Prelude.{◌≡◌, ◌≤◌, ℕ, List, [], ◌∷◌, ◌++◌, length, Option, ◌<◌, ◌≤ℤ◌, ◌+◌, ◌^◌, ◌&&◌, ◌↔◌, true, false};
ghost use Rattle.std.specs.Prelude.{Some, if◌then◌else◌};
ghost use Rattle.zk_nodes.specs.Path.{Text};
ghost use Rattle.zk_nodes.specs.declared.side.Side.{Side};
ghost use Rattle.zk_records.specs.declared.event.Event.{Event};
ghost use Rattle.zk_nodes.specs.declared.data_stat.DataStat.{DataStat};
ghost use Rattle.zk_turns.specs.Turns.{Report, Start, Item, Turned, Forgets, Halts, Turn, Bytes, Signal};
ghost use Rattle.zk_cache.specs.Kept.{Full};
ghost use Rattle.zk_cache.specs.declared.held.Mark.TheVariants.{Good};
ghost use Rattle.zk_turns.specs.Past.{Past, Happening, Began, Asked, Took, Accepted, Notifies, Dropped, session_of, state_of, is_talking};
ghost use Rattle.zk_turns.specs.Past.{is_over, is_good, kept_data};
ghost use Rattle.zk_turns.specs.Past.{in_known, in_missing, in_parents, KeepsNothing, last_of, xid_of, lists_of};
ghost use Rattle.zk_records.specs.Events.{concerns};
ghost use Rattle.zk_turns.specs.View.{View, view_at};
ghost use Rattle.zk_turns.specs.Taken.{IsStream, happenings, past_of};
ghost use Rattle.zk_turns.specs.Rule.{Rule, Stands, HaltsAs, forgotten, report, IsOpen, says, after_all};
ghost use Rattle.zk_turns.specs.Rule.{says_all, after_signals, says_signals};
ghost use Rattle.zk_watches.specs.Lists.{has};
ghost use Rattle.zk_turns.specs.Reported.{reports_in, reports_of};
ghost use Rattle.zk_turns.specs.Meaning.{Among, CameIn, HasData, IsGoodSince, IsLastSeen, LeavesAt, StandsBefore};
ghost use Rattle.zk_turns.specs.Sent.{told_state, outputs_of};
ghost use Rattle.zk_turns.specs.Tickets.{answers_in, calls_in, waiting_with};

/// One turn by the rule keeps what holds of the client: each field of the view is what the definitions give for all
/// items, the new turn with them, and each turn gave what was due.
pub fn one_turn()
    ensures view { (start : Start) (items : List Item) (view after : View) (turn : Turn) →
        Stands start items view → Rule view turn after → after ≡ view_at start (past_of start (Turned turn ∷ items)) }
    ensures stands { (start : Start) (items : List Item) (view after : View) (turn : Turn) →
        Stands start items view → Rule view turn after → Stands start (Turned turn ∷ items) after }
{}

/// A new client, or one that takes up a saved session, stands where nothing has happened.
pub fn first_view()
    ensures { (start : Start) → Stands start [] (view_at start []) }
{}

/// What forget_stale leaves.
pub fn one_forget()
    ensures { (start : Start) (items : List Item) (view : View) → Stands start items view →
        Stands start (Forgets ∷ items) (record view { cache = forgotten view.cache }) }
{}

/// What a halt leaves.
pub fn one_halt()
    ensures { (start : Start) (items : List Item) (view after : View) → Stands start items view → HaltsAs view after →
        Stands start (Halts ∷ items) after }
{}

/// Bytes that come in two pieces give the same outputs, joined, and the same view as in one.
pub fn one_cut()
    ensures outputs { (view middle after whole_after : View) (a b : List ℕ) (first second whole : Turn) →
        first.input ≡ Bytes a → second.input ≡ Bytes b → whole.input ≡ Bytes (a ++ b) →
        Rule view first middle → Rule middle second after → Rule view whole whole_after → whole.outputs ≡ first.outputs ++ second.outputs }
    ensures view { (view middle after whole_after : View) (a b : List ℕ) (first second whole : Turn) →
        first.input ≡ Bytes a → second.input ≡ Bytes b → whole.input ≡ Bytes (a ++ b) →
        Rule view first middle → Rule middle second after → Rule view whole whole_after → whole_after ≡ after }
{}

/// What one signal and one happening do.
pub fn one_signal()
    ensures view { (view : View) (signal : Signal) → after_signals view (signal ∷ []) ≡ after_all view (happenings view signal) }
    ensures says { (view : View) (signal : Signal) → says_signals view (signal ∷ []) ≡ says_all view (happenings view signal) }
    ensures happening { (view : View) (happening : Happening) → says_all view (happening ∷ []) ≡ says view happening }
{}

/// An answer is good exactly where a reply that left a watch was taken and no notice about that side of its path, no expiry,
/// close or halt came since.
pub fn good_since()
    ensures { (side : Side) (path : Text) (past : Past) → is_good side path past ≡ true ↔ IsGoodSince side path past }
{}

/// A good answer has the node's data exactly where a getData gave them, with a watch that nothing has ended since, and each
/// later reply that left a watch there gave the same seven fields.
pub fn kept_whole()
    ensures { (path : Text) (bytes : Option (List ℕ)) (fields : DataStat) (past : Past) →
        kept_data path past ≡ Some (record { answer = Full bytes fields; mark = Good }) ↔ HasData path bytes fields past }
{}

/// The last seen zxid is the greatest of the saved one and those that count.
pub fn last_seen()
    ensures { (start : Start) (past : Past) → IsLastSeen start past (last_of start past) }
{}

/// A list has each path that came into it and stayed, once, in the order in which they last came in.
#[tactic(auto, using(crate::proofs::Placed::known_placed, crate::proofs::Placed::missing_placed, crate::proofs::Placed::parents_placed))]
pub fn listed_order()
    ensures known { (path : Text) (past : Past) → Among path (lists_of past).data_watches ↔ CameIn in_known path past }
    ensures missing { (path : Text) (past : Past) → Among path (lists_of past).exist_watches ↔ CameIn in_missing path past }
    ensures parents { (path : Text) (past : Past) → Among path (lists_of past).child_watches ↔ CameIn in_parents path past }
    ensures known_order { (first second : Text) (past : Past) (a : CameIn in_known first past) (b : CameIn in_known second past) →
        length a.before < length b.before → StandsBefore first second (lists_of past).data_watches }
    ensures missing_order { (first second : Text) (past : Past) (a : CameIn in_missing first past) (b : CameIn in_missing second past) →
        length a.before < length b.before → StandsBefore first second (lists_of past).exist_watches }
    ensures parents_order { (first second : Text) (past : Past) (a : CameIn in_parents first past) (b : CameIn in_parents second past) →
        length a.before < length b.before → StandsBefore first second (lists_of past).child_watches }
    ensures known_once { (path : Text) (past : Past) → ¬ StandsBefore path path (lists_of past).data_watches }
    ensures missing_once { (path : Text) (past : Past) → ¬ StandsBefore path path (lists_of past).exist_watches }
    ensures parents_once { (path : Text) (past : Past) → ¬ StandsBefore path path (lists_of past).child_watches }
{}

/// Each list has exactly the paths whose good answer is of its kind.
pub fn listed_paths()
    ensures known { (path : Text) (past : Past) → has (lists_of past).data_watches path ≡ in_known path past }
    ensures missing { (path : Text) (past : Past) → has (lists_of past).exist_watches path ≡ in_missing path past }
    ensures parents { (path : Text) (past : Past) → has (lists_of past).child_watches path ≡ in_parents path past }
{}

/// A notice is reported on each side that it is about and where the answer was good, which it is not from then on. The
/// outputs have these reports, in order, and no others. Between two of one side of a path a watched read of it was answered.
pub fn reports()
    ensures report { (start : Start) (event : Event) (path : Text) (side : Side) (past : Past) →
        report (view_at start past) event path side
        ≡ (if concerns event side && is_good side path past then Report path side event ∷ [] else []) }
    ensures ended { (event : Event) (path : Text) (side : Side) (past : Past) →
        concerns event side ≡ true → is_good side path (Took (Notifies event path) ∷ past) ≡ false }
    ensures all { (start : Start) (items : List Item) (view : View) → Stands start items view →
        reports_in (outputs_of items) ≡ reports_of (past_of start items) }
    ensures once { (event : Event) (path : Text) (side : Side) (since : List Happening) (before : Past) →
        concerns event side ≡ true → is_good side path (since ++ Took (Notifies event path) ∷ before) ≡ true →
        (reply : Happening) × Among reply since × LeavesAt side path reply }
{}

/// After an expiry, the reply to a close or a halt nothing is kept.
pub fn nothing_is_kept()
    ensures { (start : Start) (items : List Item) → is_over (past_of start items) ≡ true → KeepsNothing (past_of start items) }
{}

/// The last seen zxid never falls.
pub fn last_never_falls()
    ensures { (start : Start) (item : Item) (items : List Item) →
        last_of start (past_of start items) ≤ℤ last_of start (past_of start (item ∷ items)) }
{}

/// The answers with a ticket are never more than the calls with it. Each call is answered once or waits, and none waits
/// where there is no talk.
pub fn each_call_once()
    ensures at_most { (start : Start) (ticket : ℕ) (items : List Item) (view : View) → Stands start items view →
        answers_in ticket items ≤ calls_in ticket items }
    ensures exactly { (start : Start) (ticket : ℕ) (items : List Item) (view : View) → Stands start items view
        → view.standing.halted ≡ false →
        calls_in ticket items ≡ answers_in ticket items + waiting_with ticket view.pending }
    ensures ended { (start : Start) (ticket : ℕ) (items : List Item) (view : View) → Stands start items view
        → view.standing.halted ≡ false →
        is_talking view.standing.state ≡ false → calls_in ticket items ≡ answers_in ticket items }
{}

/// On an open connection the bytes that came are whole frames, each of them taken, and then less than one.
pub fn whole_stream()
    ensures { (start : Start) (items : List Item) → IsOpen (state_of (past_of start items)) → IsStream start.limits (past_of start items) }
{}

/// The client's state is the one that was told last.
pub fn told_states()
    ensures { (start : Start) (items : List Item) (view : View) → Stands start items view
        → told_state (outputs_of items) ≡ view.standing.state }
{}

/// A call is refused by the first of the conditions that applies, and sent where none does.
pub fn refused_first()
    ensures { (view : View) (call : Call) → IsFirstOf in_turn view call (refusal view call) }
{}

/// A connection is given up exactly where a length that is not admitted stands next, a payload has no reading, a reply that leaves
/// a watch is behind, a part of setWatches is refused, or silence is due.
pub fn given_up()
    ensures { (view : View) (signal : Signal) (fault : Fault) → view.standing.halted ≡ false →
        Among (Dropped fault) (happenings view signal) ↔ IsGivenUp view signal fault }
{}

/// A reading is there exactly where a spelling of the record begins the bytes.
pub fn readings()
    ensures field { (layout : Layout) (end : ℕ) (bytes : List ℕ) (value : Value layout) (rest : List ℕ) → IsBytes bytes →
        read_at layout end bytes ≡ Ok (value, rest) ↔ (Fits layout value × (bytes ≡ spelling layout value ++ rest)) }
    ensures result { (question : Question) (end : ℕ) (bytes : List ℕ) (result : Result) → IsBytes bytes →
        record_of question end bytes ≡ Ok result ↔ BeginsWith question result bytes }
    ensures first { (pending : List Pending) (payload : List ℕ) (response : Response) → IsBytes payload →
        arriving Opening pending payload ≡ Ok (Connected response) ↔ ((ignored : List ℕ) × IsPayload payload response ignored) }
{}

/// What is sent is read again, whatever follows: each request begins with the header and the record of what was asked, and the
/// first message of a connection is the record of the session that is asked for.
pub fn requests_read()
    ensures call { (xid : ℤ) (call : Call) (end : ℕ) (rest : List ℕ) →
        WordingFits xid (wording call) → ReadsAs xid (wording call) end (call_payload xid call ++ rest) rest }
    ensures part { (relative : ℤ) (known missing parents : List Text) (end : ℕ) (rest : List ℕ) →
        Fits (request_layout SetWatches)
        (part_xid, (operation_number SetWatches, (relative, (texts_value known, (texts_value missing, texts_value parents))))) →
        read_at (request_layout SetWatches) end (part_payload relative known missing parents ++ rest)
        ≡ Ok
        ((part_xid, (operation_number SetWatches, (relative, (texts_value known, (texts_value missing, texts_value parents))))), rest) }
    ensures connect { (last timeout session : ℤ) (password : List ℕ) (end : ℕ) (rest : List ℕ) →
        Fits connect_request (pos 0, (last, (timeout, (session, (Some password, false))))) →
        read_at connect_request end (connect_payload last timeout session password ++ rest)
        ≡ Ok ((pos 0, (last, (timeout, (session, (Some password, false))))), rest) }
    ensures ping { (end : ℕ) (rest : List ℕ) → Fits (request_layout Ping) (ping_xid, (operation_number Ping, tt)) →
        read_at (request_layout Ping) end (ping_payload ++ rest) ≡ Ok ((ping_xid, (operation_number Ping, tt)), rest) }
{}

/// Each request that was sent is of a length that a frame can tell, and its numbers, texts and lists are in the range of their
/// fields, so that it is read again: a call was refused where it would be too long, and what is asked for as a connection begins
/// was read of a payload, or is what the client began with. Callers ask with values of their types, and a new client begins
/// in range.
pub fn requests_fit()
    ensures new { (timeout : ℕ) → timeout < 2 ^ 31 → IsResumable (new_start timeout) }
    ensures call { (start : Start) (items : List Item) (since : List Happening) (ticket : ℕ) (call : Call) (before : Past) →
        AllAskOf IsTyped items → past_of start items ≡ since ++ Asked ticket call ∷ before →
        WordingFits (pos (xid_of before)) (wording call) }
    ensures call_told { (start : Start) (items : List Item) (since : List Happening) (ticket : ℕ) (call : Call) (before : Past) →
        past_of start items ≡ since ++ Asked ticket call ∷ before → length (call_payload (pos (xid_of before)) call) < 2 ^ 31 }
    ensures parts { (start : Start) (items : List Item) (since : List Happening) (welcome : Welcome) (before : Past) →
        IsResumable start → AllAskOf IsTyped items → past_of start items ≡ since ++ Took (Accepted welcome) ∷ before →
        AllByRecursion (λ part. Fits (request_layout SetWatches) (
          part_xid,
          (
            operation_number SetWatches,
            (last_of start before, (texts_value part.data_watches, (texts_value part.exist_watches, texts_value part.child_watches))),
          ),
        ))
        (parts (lists_of before)) }
    ensures parts_told { (start : Start) (items : List Item) (since : List Happening) (welcome : Welcome) (before : Past) →
        past_of start items ≡ since ++ Took (Accepted welcome) ∷ before →
        AllByRecursion (λ part. length (part_payload (last_of start before) part.data_watches part.exist_watches part.child_watches)
        < 2 ^ 31) (parts (lists_of before)) }
    ensures connect { (start : Start) (items : List Item) (since : List Happening) (before : Past) →
        IsResumable start → past_of start items ≡ since ++ Began ∷ before →
        Fits connect_request (
          pos 0,
          (
            last_of start before,
            (pos start.timeout, ((session_of start before).session, (Some (session_of start before).password, false))),
          ),
        ) }
    ensures connect_told { (start : Start) (items : List Item) (since : List Happening) (before : Past) →
        IsResumable start → past_of start items ≡ since ++ Began ∷ before →
        length (connect_payload (last_of start before) (pos start.timeout)
        (session_of start before).session (session_of start before).password) < 2 ^ 31 }
    ensures ping { Fits (request_layout Ping) (ping_xid, (operation_number Ping, tt)) }
{}
