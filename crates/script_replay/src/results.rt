//! What a call is answered, as it is printed.

ghost use Rattle.std.specs.Prelude.{◌≡◌, ◌++◌, ◌∷◌, ℕ, ℤ, List, Some, OnOk, string_bytes};
ghost use Rattle.std.specs.FinSet as set;
ghost use Rattle.zk_client.specs.Views.{call_result_view, outcome_view};
ghost use Rattle.zk_conversation.specs.Results.{Listing};
ghost use Rattle.zk_turns.specs.Turns.{Replied};
ghost use Rattle.script_words.specs.Words.{bytes_word};
ghost use Rattle.script_replay.specs.Shown.{reason_text, back_words, full_words, TellsSet, TellsResult, TellsOutcome};

use crate::names::push_listing;
use crate::words::push_spaced;
use script_words::values::{
    push_data_word, push_front, push_name, push_numbers, push_value, push_word,
};
use script_words::words::bytes_to_word;
use std::alloc::{AllocError, Allocator};
use zk_cache::JoinedTexts;
use zk_client::{CallResult, Outcome};
use zk_nodes::DataStat;
use zk_records::Stat;

/// Adds the six numbers of a Stat after the first five, a space before each.
#[tactic(auto, unfolding(crate::specs::Shown::back_words))]
fn push_back<A: Allocator + Copy>(
    text: &mut String<A>,
    alloc: A,
    stat: &Stat,
) -> Result<(), AllocError>
    ensures { OnOk result (string_bytes text.new ≡ string_bytes text.old ++ back_words stat.now) }
{
    let numbers = [
        stat.cversion as i64,
        stat.aversion as i64,
        stat.ephemeral_owner,
        stat.data_length as i64,
        stat.num_children as i64,
        stat.pzxid,
    ];
    push_numbers(text, alloc, numbers.as_slice())
}

/// Adds the eleven numbers of a Stat, a space before each.
#[tactic(auto, unfolding(crate::specs::Shown::full_words))]
fn push_full<A: Allocator + Copy>(
    text: &mut String<A>,
    alloc: A,
    stat: &Stat,
) -> Result<(), AllocError>
    ensures { OnOk result (string_bytes text.new ≡ string_bytes text.old ++ full_words stat.now) }
{
    push_front(text, alloc, &DataStat::from(*stat))?;
    push_back(text, alloc, stat)
}

/// Adds names and a Stat.
fn push_names_result<A: Allocator + Copy>(
    text: &mut String<A>,
    alloc: A,
    names: &JoinedTexts<A>,
    stat: &Stat,
) -> Result<(), AllocError>
    ensures { OnOk result ((told : List ℕ) × TellsResult (Listing names.now stat.now) told
        × (string_bytes text.new ≡ string_bytes text.old ++ told)) }
{
    push_listing(text, alloc, names)?;
    push_full(text, alloc, stat)
}

/// Adds what a reply brought.
pub fn push_result<A: Allocator + Copy>(
    text: &mut String<A>,
    alloc: A,
    found: &CallResult<A>,
) -> Result<(), AllocError>
    ensures { OnOk result
        ((told : List ℕ) × TellsResult (call_result_view found.now) told × (string_bytes text.new ≡ string_bytes text.old ++ told)) }
{
    match found {
        CallResult::Code(code) => {
            text.push_str("code")?;
            push_word(text, alloc, &code.number())
        }
        CallResult::Stat(stat) => {
            text.push_str("stat")?;
            push_full(text, alloc, stat)
        }
        CallResult::Data { bytes, stat } => {
            text.push_str("data ")?;
            push_data_word(text, alloc, bytes)?;
            push_full(text, alloc, stat)
        }
        CallResult::Names { names, stat } => push_names_result(text, alloc, names, stat),
        CallResult::Created(path) => {
            text.push_str("created")?;
            push_name(text, alloc, path.as_bytes())
        }
        CallResult::Done => text.push_str("done"),
        CallResult::Raw(bytes) => {
            text.push_str("raw ")?;
            let word = bytes_to_word(alloc, bytes.as_slice())?;
            text.push_str(word.as_str())
        }
    }
}

/// Adds the zxid of a reply, and what it brought.
fn push_reply<A: Allocator + Copy>(
    text: &mut String<A>,
    alloc: A,
    zxid: &i64,
    found: &CallResult<A>,
) -> Result<(), AllocError>
    ensures { OnOk result ((told : List ℕ) × TellsOutcome (Replied zxid.now (call_result_view found.now)) told
        × (string_bytes text.new ≡ string_bytes text.old ++ told)) }
{
    push_value(text, alloc, zxid)?;
    text.push_str(" ")?;
    push_result(text, alloc, found)
}

/// Adds why there is no reply, by its code.
fn push_reason<A: Allocator>(text: &mut String<A>, outcome: &Outcome<A>) -> Result<(), AllocError>
    ensures { OnOk result (string_bytes text.new ≡ string_bytes text.old ++ reason_text (outcome_view outcome.now)) }
{
    match outcome.code() {
        None => Ok(()),
        Some(code) => {
            text.push_str("-")?;
            push_spaced(text, code)
        }
    }
}

/// Adds what a call is answered: the zxid of its reply and what it brought, or why there is none.
pub fn push_outcome<A: Allocator + Copy>(
    text: &mut String<A>,
    alloc: A,
    outcome: &Outcome<A>,
) -> Result<(), AllocError>
    ensures { OnOk result
        ((told : List ℕ) × TellsOutcome (outcome_view outcome.now) told × (string_bytes text.new ≡ string_bytes text.old ++ told)) }
{
    match outcome {
        Outcome::Replied {
            zxid,
            result: found,
        } => push_reply(text, alloc, zxid, found),
        _ => push_reason(text, outcome),
    }
}
