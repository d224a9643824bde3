//! What servers in memory show, and schedules of servers that meet a client: each thing that happens to them keeps the relation.
//! The functions have empty bodies: their contracts are the laws.
#![tactic(auto)]

ghost use Rattle.std.specs.Prelude.{◌≡◌, ◌≢◌, ◌≤◌, ◌<◌, ◌⊎◌, ◌++◌, ◌+◌, ◌^◌, true, false, map, List, [], ◌∷◌, ℕ, ℤ, pos, Some, take, drop};
ghost use Rattle.std.specs.Prelude.{slice_index, slice_set, length as length_of};
ghost use Rattle.std.specs.List.{AllByRecursion};
ghost use Rattle.zk_nodes.specs.History.{History, IsHistory};
ghost use Rattle.zk_conversation.specs.Calls.{Call};
ghost use Rattle.zk_turns.specs.Turns.{Start, Output, Send, ends_connection, Item as Client_item, Forgets, Halts, Bytes, Cut, Now};
ghost use Rattle.zk_turns.specs.Turns.{Call as Calling, Opened as Opening};
ghost use Rattle.zk_turns.specs.View.{View, view_at};
ghost use Rattle.zk_turns.specs.Past.{kept_data, last_of, state_of};
ghost use Rattle.zk_cache.specs.Kept.{Full};
ghost use Rattle.zk_cache.specs.declared.held.Mark.TheVariants.{Good, Stale};
ghost use Rattle.zk_session.specs.declared.states.State.TheVariants.{Expired};
ghost use Rattle.theory_messages.specs.Example.{at_a, fields_at_five};
ghost use Rattle.theory_messages.specs.Meeting_example.{new_client};
ghost use Rattle.theory_serving.specs.Whole_example.{three_changes, first_part, second_part, write_a, until_lost, until_back, until_told};
ghost use Rattle.theory_serving.specs.Whole_example.{until_written, until_expired};
ghost use Rattle.zk_turns.specs.Taken.{past_of};
ghost use Rattle.zk_turns.specs.Rule.{Rule, Stands};
ghost use Rattle.zk_turns.specs.Ranges.{IsResumable, IsTyped, AllAskOf};
ghost use Rattle.zk_laws.specs.Messages.{Request, Connect, Restore, Ask, Ping};
ghost use Rattle.zk_laws.specs.ServerSteps.{ServerEnd, MayDo, messages_by, end_after};
ghost use Rattle.zk_frames.specs.Frame.{frame, joined as frames, length_field};
ghost use Rattle.zk_laws.specs.Headline.{IsCoherentWith, IsQuietAt};
ghost use Rattle.theory_serving.specs.GoingOn.{GoesOn};
ghost use Rattle.zk_laws.specs.Served.{ArePayloads, Entry, is_going, items_in, wire_of, requests, unread, IsServing, Served};
ghost use Rattle.theory_serving.specs.Steps.{Step, used_by, Moves, ended_by, sent_by, processed_by};
ghost use Rattle.theory_serving.specs.Shown.{Shown, Apart, Open, Over, AllTaken, connected, with_output, more_requests, Hears, Takes};
ghost use Rattle.theory_serving.specs.Shown.{Processes};
ghost use Rattle.theory_serving.specs.Wires.{IsServedBy, StandsFirst, IsFor, IsCutAt, WasServed, item_of, is_up};

/// A schedule stays one when the history goes on, its servers end where they did, and each stands at a place of the history.
#[tactic(auto, using(crate::proofs::GoingOn::goes_serving, crate::proofs::GoingOn::goes_wire, crate::proofs::GoingOn::place_low, crate::proofs::GoingOn::goes_served))]
pub fn history_goes_on()
    ensures serving { (h later : History) (start : Start) (entries : List Entry) → GoesOn h later → IsServing h start entries
        → IsServing later start entries }
    ensures wire { (h later : History) (start : Start) (entries : List Entry) → GoesOn h later → IsServing h start entries
        → wire_of later entries ≡ wire_of h entries }
    ensures place { (h : History) (start : Start) (entries : List Entry) → IsServing h start entries
        → (wire_of h entries).server.place ≤ length_of h.transactions }
    ensures served { (h later : History) (start : Start) (items : List Client_item) → GoesOn h later → Served h start items
        → Served later start items }
{}

/// Steps may be taken after others: then they end where the later ones do, and send and process what both do.
#[tactic(auto, using(crate::proofs::Stepping::moves_more, crate::proofs::Stepping::ended_more, crate::proofs::Stepping::sent_more, crate::proofs::Stepping::processed_more))]
pub fn joined_steps()
    ensures moves { (h : History) (xid : ℤ) (asked : List Request) (first second : List Step) (server : ServerEnd)
        → Moves h xid asked first server
        → Moves h xid (drop (processed_by first) asked) second (ended_by h first server) → Moves h xid asked (first ++ second) server }
    ensures ended { (h : History) (first second : List Step) (server : ServerEnd)
        → ended_by h (first ++ second) server ≡ ended_by h second (ended_by h first server) }
    ensures sent { (first second : List Step) → sent_by (first ++ second) ≡ sent_by first ++ sent_by second }
    ensures processed { (first second : List Step) → processed_by (first ++ second) ≡ processed_by first + processed_by second }
{}

/// One step more, after others.
#[tactic(auto, using(crate::proofs::Stepping::last_moves, crate::proofs::Stepping::last_ended, crate::proofs::Stepping::last_sent, crate::proofs::Stepping::last_processed))]
pub fn one_more_step()
    ensures moves { (h : History) (xid : ℤ) (asked : List Request) (first : List Step) (last : Step) (server : ServerEnd)
        → Moves h xid asked first server
        → MayDo h last.step (ended_by h first server) (drop (processed_by first) asked)
        → ArePayloads xid (messages_by h last.step (ended_by h first server).place) last.payloads
        → Moves h xid asked (first ++ last ∷ []) server }
    ensures ended { (h : History) (first : List Step) (last : Step) (server : ServerEnd)
        → ended_by h (first ++ last ∷ []) server ≡ end_after h last.step (ended_by h first server) }
    ensures sent { (first : List Step) (last : Step) → sent_by (first ++ last ∷ []) ≡ sent_by first ++ frames last.payloads }
    ensures processed { (first : List Step) (last : Step) → processed_by (first ++ last ∷ []) ≡ processed_by first + used_by last.step }
{}

/// Steps with no request to process may be taken whatever is asked, and a step that processes the request after them. They
/// process none, and leave the stage of the connection.
#[tactic(auto, using(crate::proofs::Stepping::idle_moves, crate::proofs::Stepping::answer_moves, crate::proofs::Stepping::idle_processes, crate::proofs::Stepping::idle_stays))]
pub fn steps_without_request()
    ensures moves { (h : History) (first second : ℤ) (asked : List Request) (steps : List Step) (server : ServerEnd)
        → Moves h first [] steps server → Moves h second asked steps server }
    ensures answers { (h : History) (other xid : ℤ) (request : Request) (first : List Step) (last : Step) (server : ServerEnd)
        → Moves h other [] first server
        → MayDo h last.step (ended_by h first server) (request ∷ [])
        → ArePayloads xid (messages_by h last.step (ended_by h first server).place) last.payloads
        → Moves h xid (request ∷ []) (first ++ last ∷ []) server }
    ensures processes { (h : History) (xid : ℤ) (steps : List Step) (server : ServerEnd) → Moves h xid [] steps server
        → processed_by steps ≡ 0 }
    ensures stays { (h : History) (xid : ℤ) (steps : List Step) (server : ServerEnd) → Moves h xid [] steps server
        → (ended_by h steps server).stage ≡ server.stage }
{}

/// Steps that a server may take it may take over a history that goes on, and they end where they did: at a place of the history.
pub fn steps_go_on()
    ensures moves { (h later : History) (xid : ℤ) (asked : List Request) (steps : List Step) (server : ServerEnd) → GoesOn h later
        → server.place ≤ length_of h.transactions
        → Moves h xid asked steps server → Moves later xid asked steps server }
    ensures ended { (h later : History) (xid : ℤ) (asked : List Request) (steps : List Step) (server : ServerEnd) → GoesOn h later
        → server.place ≤ length_of h.transactions
        → Moves h xid asked steps server → ended_by later steps server ≡ ended_by h steps server }
    ensures place { (h : History) (xid : ℤ) (asked : List Request) (steps : List Step) (server : ServerEnd)
        → server.place ≤ length_of h.transactions
        → Moves h xid asked steps server → (ended_by h steps server).place ≤ length_of h.transactions }
{}

/// Servers that hold beginnings of a history do so where one of them goes on to a place of it, and where the history goes on.
#[tactic(auto, using(crate::proofs::Later::taken_none, crate::proofs::Later::taken_at, crate::proofs::Later::taken_set, crate::proofs::Later::taken_later))]
pub fn places()
    ensures none { (h : History) (taken : List ℕ) → AllByRecursion (λ place. place ≡ 0) taken → AllTaken h taken }
    ensures each { (h : History) (taken : List ℕ) (server : ℕ) → AllTaken h taken → slice_index taken server ≤ length_of h.transactions }
    ensures set { (h : History) (taken : List ℕ) (server place : ℕ) → AllTaken h taken → place ≤ length_of h.transactions
        → AllTaken h (slice_set taken server place) }
    ensures later { (h later : History) (taken : List ℕ) → GoesOn h later → AllTaken h taken → AllTaken later taken }
{}

/// A client that was served by the servers in memory was served by servers of the laws, so that its good answers are those of the
/// history that is shown at its last seen zxid. One that has gone through nothing was.
#[tactic(auto, using(crate::proofs::Entries::nobody, crate::proofs::Entries::served_so, crate::proofs::Entries::coherent_so))]
pub fn served()
    ensures begins { (start : Start) (shown : Shown) → IsServedBy start [] shown }
    ensures served { (start : Start) (items : List Client_item) (shown : Shown) → IsServedBy start items shown
        → Served shown.history start items }
    ensures coherent { (start : Start) (items : List Client_item) (view : View) (shown : Shown) → IsHistory shown.history
        → Stands start items view → IsServedBy start items shown → IsCoherentWith shown.history view }
{}

/// What happens to the client: a connection to a server begins, at a place of the history; bytes that were on their way are
/// received, in whatever pieces; the connection is cut; it is a moment; a caller asks; stale answers are forgotten; the client
/// halts. The servers hear what it says, and it goes on to be served by them.
pub fn client_goes_on()
    ensures opened { (start : Start) (items : List Client_item) (view : View) (place : ℕ) (outputs : List Output) (old new : Shown)
        → IsServedBy start items old → Stands start (item_of Opening outputs ∷ items) view
        → place ≤ length_of old.history.transactions → Hears outputs (connected place old) new → IsServedBy start
        (item_of Opening outputs ∷ items) new }
    ensures received { (start : Start) (items : List Client_item) (view : View) (bytes rest : List ℕ) (outputs : List Output)
        (old new : Shown) → IsServedBy start items old → Stands start (item_of (Bytes bytes) outputs ∷ items) view
        → old.output ≡ bytes ++ rest → Hears outputs (with_output rest old) new → IsServedBy start
        (item_of (Bytes bytes) outputs ∷ items) new }
    ensures cut { (start : Start) (items : List Client_item) (outputs : List Output) (old new : Shown) → IsServedBy start items old
        → new.history ≡ old.history → IsServedBy start (item_of Cut outputs ∷ items) new }
    ensures told { (start : Start) (items : List Client_item) (view : View) (moment : ℕ) (outputs : List Output) (old new : Shown)
        → IsServedBy start items old → Stands start (item_of (Now moment) outputs ∷ items) view
        → Hears outputs old new → IsServedBy start (item_of (Now moment) outputs ∷ items) new }
    ensures asked { (start : Start) (items : List Client_item) (view : View) (ticket : ℕ) (call : Call) (outputs : List Output)
        (old new : Shown) → IsServedBy start items old
        → Stands start (item_of (Calling ticket call) outputs ∷ items) view → Hears outputs old new
        → IsServedBy start (item_of (Calling ticket call) outputs ∷ items) new }
    ensures forgets { (start : Start) (items : List Client_item) (shown : Shown) → IsServedBy start items shown
        → IsServedBy start (Forgets ∷ items) shown }
    ensures halts { (start : Start) (items : List Client_item) (old new : Shown) → IsServedBy start items old → new.history ≡ old.history
        → IsServedBy start (Halts ∷ items) new }
{}

/// The servers hear outputs one after the other: the bytes of one that sends come after those that wait, one that neither sends nor
/// ends the connection leaves all as it is, and with one that ends it nothing is meant but that the history stays.
pub fn hearing()
    ensures nothing { (shown : Shown) → Hears [] shown shown }
    ensures bytes { (bytes : List ℕ) (outputs : List Output) (old new : Shown)
        → Hears outputs (record old { requests = more_requests old.phase old.requests bytes }) new → Hears (Send bytes ∷ outputs) old new }
    ensures other { (output : Output) (outputs : List Output) (old new : Shown) → ((bytes : List ℕ) → output ≢ Send bytes)
        → Hears outputs old new → Hears (output ∷ outputs) old new }
    ensures end { (output : Output) (outputs : List Output) (old new : Shown) → ends_connection output ≡ true → new.history ≡ old.history
        → Hears (output ∷ outputs) old new }
{}

/// What the servers do: the connected one takes transactions, or processes the first request that waits, which is the one that was
/// asked; and where the client has no connection, or the server has ended it and sends nothing, the history may go on.
pub fn servers_go_on()
    ensures takes { (start : Start) (items : List Client_item) (steps : List Step) (old new : Shown) → IsServedBy start items old
        → is_going (past_of start items) ≡ true → old.phase ≡ Open → Takes steps old new → IsServedBy start items new }
    ensures processes { (start : Start) (items : List Client_item) (view : View) (old new : Shown) → IsServedBy start items old
        → IsResumable start → 0 < start.timeout → Stands start items view
        → is_going (past_of start items) ≡ true → old.phase ≡ Open → old.requests ≢ []
        → ((request : Request) (xid : ℤ) (payload rest : List ℕ) → StandsFirst request xid payload rest old.requests
        → (steps : List Step) × Processes request xid payload steps old new)
        → IsServedBy start items new }
    ensures rests { (start : Start) (items : List Client_item) (old new : Shown) → IsServedBy start items old
        → GoesOn old.history new.history
        → (is_going (past_of start items) ≡ true → (new.phase ≡ Over) × (new.output ≡ old.output)) → IsServedBy start items new }
{}

/// A frame that some bytes begin with: its length, its payload, and what is after it.
#[tactic(auto, using(crate::proofs::Fronts::front_there, crate::proofs::Fronts::front_field, crate::proofs::Fronts::front_behind, crate::proofs::Fronts::front_payload))]
pub fn first_frame()
    ensures there { (payload rest bytes : List ℕ) → bytes ≡ frame payload ++ rest → 4 + length_of payload ≤ length_of bytes }
    ensures field { (payload rest bytes : List ℕ) → bytes ≡ frame payload ++ rest → length_of payload < 2 ^ 31
        → length_field bytes ≡ length_of payload }
    ensures behind { (payload rest bytes : List ℕ) → bytes ≡ frame payload ++ rest → drop (4 + length_of payload) bytes ≡ rest }
    ensures payload { (payload rest bytes : List ℕ) → bytes ≡ frame payload ++ rest → take (length_of payload) (drop 4 bytes) ≡ payload }
{}

/// While the client has a connection there is one, and while this is open, what waits to be processed is nothing, or has in front
/// the frame of a request that was asked; and before it, in the bytes that the connection was sent, stand the frames of what was
/// processed.
pub fn what_waits()
    ensures there { (start : Start) (items : List Client_item) (shown : Shown) → IsServedBy start items shown
        → is_going (past_of start items) ≡ true → shown.phase ≢ Apart }
    ensures first { (start : Start) (items : List Client_item) (view : View) (shown : Shown) → IsServedBy start items shown
        → IsResumable start → 0 < start.timeout → Stands start items view
        → is_going (past_of start items) ≡ true → shown.phase ≡ Open
        → (shown.requests ≡ []) ⊎ ((request : Request) × (xid : ℤ) × (payload : List ℕ) × (rest : List ℕ)
        × StandsFirst request xid payload rest shown.requests) }
    ensures cut { (start : Start) (items : List Client_item) (view : View) (shown : Shown) → IsServedBy start items shown
        → IsResumable start → Stands start items view
        → is_going (past_of start items) ≡ true → shown.phase ≡ Open → (processed : ℕ) × IsCutAt items processed shown.requests }
{}

/// The same by the view of the client alone: one that begins in range, with a timeout above 0, was served; so it is after each
/// turn by the rule; and what the servers do keeps it so: over a history the server has to process a ConnectRequest alone where it
/// has accepted nobody, and any other alone where it has. Then its good answers are those of the history at its last seen zxid.
pub fn sessions()
    ensures begins { (start : Start) (view : View) (shown : Shown) → IsResumable start → 0 < start.timeout → Stands start [] view
        → WasServed view shown }
    ensures opened { (view after : View) (place : ℕ) (outputs : List Output) (old new : Shown) → WasServed view old
        → Rule view (record { input = Opening; outputs = outputs }) after
        → place ≤ length_of old.history.transactions → Hears outputs (connected place old) new → WasServed after new }
    ensures received { (view after : View) (bytes rest : List ℕ) (outputs : List Output) (old new : Shown) → WasServed view old
        → Rule view (record { input = Bytes bytes; outputs = outputs }) after
        → old.output ≡ bytes ++ rest → Hears outputs (with_output rest old) new → WasServed after new }
    ensures cut { (view after : View) (outputs : List Output) (old new : Shown) → WasServed view old
        → Rule view (record { input = Cut; outputs = outputs }) after → new.history ≡ old.history → WasServed after new }
    ensures told { (view after : View) (moment : ℕ) (outputs : List Output) (old new : Shown) → WasServed view old
        → Rule view (record { input = Now moment; outputs = outputs }) after → Hears outputs old new → WasServed after new }
    ensures asked { (view after : View) (ticket : ℕ) (call : Call) (outputs : List Output) (old new : Shown)
        → WasServed view old → Rule view (record { input = Calling ticket call; outputs = outputs }) after
        → Hears outputs old new → WasServed after new }
    ensures forgets { (view after : View) (shown : Shown) → WasServed view shown → ((start : Start) (items : List Client_item)
        → Stands start items view → Stands start (Forgets ∷ items) after) → WasServed after shown }
    ensures there { (view : View) (shown : Shown) → WasServed view shown → is_up view ≡ true → shown.phase ≢ Apart }
    ensures takes { (view : View) (steps : List Step) (old new : Shown) → WasServed view old → is_up view ≡ true → old.phase ≡ Open
        → Takes steps old new → WasServed view new }
    ensures waits { (view : View) (shown : Shown) → WasServed view shown → is_up view ≡ true → shown.phase ≡ Open
        → (shown.requests ≡ []) ⊎ ((request : Request) × (xid : ℤ) × (payload : List ℕ) × (rest : List ℕ)
        × StandsFirst request xid payload rest shown.requests) }
    ensures processes { (view : View) (old new : Shown) → WasServed view old → is_up view ≡ true → old.phase ≡ Open → old.requests ≢ []
        → ((request : Request) (xid : ℤ) (payload rest : List ℕ) → StandsFirst request xid payload rest old.requests
        → (steps : List Step) × Processes request xid payload steps old new) → WasServed view new }
    ensures answers { (view : View) (old new : Shown) → IsHistory old.history → WasServed view old → is_up view ≡ true
        → old.phase ≡ Open → old.requests ≢ []
        → ((request : Request) (xid : ℤ) (payload rest : List ℕ)
        → StandsFirst request xid payload rest old.requests → IsFor request old.server.stage → (steps : List Step) × Processes request
        xid payload steps old new) → WasServed view new }
    ensures rests { (view : View) (old new : Shown) → WasServed view old → GoesOn old.history new.history
        → (is_up view ≡ true → (new.phase ≡ Over) × (new.output ≡ old.output)) → WasServed view new }
    ensures good { (view : View) (shown : Shown) → IsHistory shown.history → WasServed view shown → IsCoherentWith shown.history view }
{}

/// The premises can be met by one schedule in bytes with all that can befall a watch, over three connections: the first is cut in the
/// middle of a notice, and the answer is still good; on the second, to a server that is behind, the watches are set again in two
/// parts, of which the first tells of the change that was missed, a ping and a write are answered, and all is quiet; over the third
/// the session expires.
pub fn whole_schedule()
    ensures history { IsHistory three_changes }
    ensures serving { IsServing three_changes new_client until_expired }
    ensures stands { Stands new_client (items_in until_expired) (view_at new_client (past_of new_client (items_in until_expired))) }
    ensures resumable { IsResumable new_client }
    ensures typed { AllAskOf IsTyped (items_in until_expired) }
    ensures kept { kept_data at_a (past_of new_client (items_in until_lost))
        ≡ Some (record { answer = Full (Some (104 ∷ 105 ∷ [])) fields_at_five; mark = Good }) }
    ensures behind { (wire_of three_changes until_back).server.place ≡ 1 }
    ensures stale { kept_data at_a (past_of new_client (items_in until_told))
        ≡ Some (record { answer = Full (Some (104 ∷ 105 ∷ [])) fields_at_five; mark = Stale }) }
    ensures asked { map (λ sent. sent.request) (requests new_client (past_of new_client (items_in until_written)))
        ≡ Connect 5 ∷ Restore false 5 first_part ∷ Restore true 5 second_part ∷ Ping ∷ Ask write_a ∷ [] }
    ensures answered { unread new_client (past_of new_client (items_in until_written)) (wire_of three_changes until_written) ≡ [] }
    ensures quiet { IsQuietAt three_changes new_client until_written }
    ensures written { last_of new_client (past_of new_client (items_in until_written)) ≡ pos 7 }
    ensures expired { state_of (past_of new_client (items_in until_expired)) ≡ Expired }
{}
