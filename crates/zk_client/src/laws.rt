//! The laws that a client's turns meet, over definitions alone. They are functions that do nothing: their contracts are the laws.
//!
//! Whoever stands where its turns have led, [`holds`]: so of each program that calls [`step`](crate::Client::step) the good answers
//! are the history's. What a turn by the rule leads to, and what is kept, sent, reported and answered by all that happened: [`one_turn`],
//! [`one_cut`] and those with them. What servers of the model make of it: [`headline`] and those with it.

ghost use Rattle.std.specs.Prelude.{List};
ghost use Rattle.zk_turns.specs.Turns.{Start, Item};
ghost use Rattle.zk_turns.specs.View.{View};
ghost use Rattle.zk_turns.specs.Rule.{Stands};
ghost use Rattle.zk_client.specs.Runs.{Holds};

pub use theory_messages::{one_entry, one_item, small_schedule, taken_as_sent};
pub use theory_pieces::{good_marks, sent_frames, standing_answers};
pub use zk_laws::{
    above_the_saved, answers_are_true, coherence, drops_are_due, headline, parsed_requests,
    quiet_client, sent_requests,
};
pub use zk_turns::{
    each_call_once, first_view, given_up, good_since, kept_whole, last_never_falls, last_seen,
    listed_order, listed_paths, nothing_is_kept, one_cut, one_forget, one_halt, one_turn, readings,
    refused_first, reports, requests_fit, requests_read, told_states, whole_stream,
};

/// Whoever stands, holds. A client stands where nothing has happened when it is made, each step leads on from where it stands to
/// where the turn has led, and of each view that stands all this is so: under servers that hold beginnings of one history, each
/// answer that is marked good is the history's at the last seen zxid; each notice that ends one is reported once; and after an
/// expiry, a close or a halt nothing is kept.
pub fn holds()
    ensures { (start : Start) (items : List Item) (view : View) → Stands start items view → Holds start items view }
{}
