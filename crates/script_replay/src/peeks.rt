//! What a client keeps, as printed lines.

ghost use Rattle.std.specs.Prelude.{◌≡◌, ◌++◌, ◌∷◌, ℕ, List, [], Some, IfOk, OnOk, option_map, string_bytes};
ghost use Rattle.script_words.specs.Values.{spaced};
ghost use Rattle.script_words.specs.Words.{bytes_word};
ghost use Rattle.zk_cache.specs.Contents.{answer_of, names_in};
ghost use Rattle.script_replay.specs.Shown.{answer_text, kept_line, last_line, mark_word, saved_line, TellsKept};

use crate::names::push_kept;
use crate::words::push_spaced;
use script_words::values::{push_data_word, push_stat, push_word};
use script_words::words::bytes_to_word;
use std::alloc::{AllocError, Allocator};
use zk_cache::{Children, DataAnswer, Mark};
use zk_session::Saved;

/// The word for a mark.
fn mark_to_word(mark: Mark) -> &'static str
    ensures { result.now ≡ mark_word mark }
{
    match mark {
        Mark::Good => "good",
        Mark::Stale => "stale",
    }
}

/// Adds a mark and the end of the line.
fn push_mark<A: Allocator>(text: &mut String<A>, mark: Mark) -> Result<(), AllocError>
    ensures { OnOk result (string_bytes text.new ≡ string_bytes text.old ++ (spaced (mark_word mark) ++ 10 ∷ [])) }
{
    push_spaced(text, mark_to_word(mark))?;
    text.push_str("\n")
}

/// Adds an answer about a node itself.
fn push_data_answer<A: Allocator + Copy>(
    text: &mut String<A>,
    alloc: A,
    answer: &DataAnswer<A>,
) -> Result<(), AllocError>
    ensures { OnOk result (string_bytes text.new ≡ string_bytes text.old ++ answer_text (answer_of answer.now)) }
{
    match answer {
        DataAnswer::Absent => text.push_str("data absent"),
        DataAnswer::Known(stat) => {
            text.push_str("data known")?;
            push_stat(text, alloc, stat)
        }
        DataAnswer::Full(bytes, stat) => {
            text.push_str("data full ")?;
            push_data_word(text, alloc, bytes)?;
            push_stat(text, alloc, stat)
        }
    }
}

/// Adds the line of an answer that is kept about a node itself.
fn push_data_line<A: Allocator + Copy>(
    text: &mut String<A>,
    alloc: A,
    answer: &DataAnswer<A>,
    mark: Mark,
) -> Result<(), AllocError>
    ensures { OnOk result
        (string_bytes text.new ≡ string_bytes text.old ++ kept_line (Some (record { answer = answer_of answer.now; mark = mark }))) }
{
    push_data_answer(text, alloc, answer)?;
    push_mark(text, mark)
}

/// The line of what is kept about the data of a path.
pub fn data_line<A: Allocator + Copy>(
    alloc: A,
    kept: Option<(&DataAnswer<A>, Mark)>,
) -> Result<String<A>, AllocError>
    ensures { IfOk result
        (λ text. string_bytes text ≡ kept_line (option_map (λ k. record { answer = answer_of k.0.now; mark = k.1 }) kept.entry)) }
{
    let Some((answer, mark)) = kept else {
        return String::from_str(alloc, "data none\n");
    };
    let mut text = String::new(alloc);
    push_data_line(&mut text, alloc, answer, mark)?;
    Ok(text)
}

/// Adds the line of names that are kept.
fn push_found<A: Allocator + Copy>(
    text: &mut String<A>,
    alloc: A,
    found: &Children<A>,
    mark: Mark,
) -> Result<(), AllocError>
    ensures { OnOk result ((told : List ℕ) × TellsKept (Some (record { answer = names_in found.now; mark = mark })) told
        × (string_bytes text.new ≡ string_bytes text.old ++ told)) }
{
    push_kept(text, alloc, &found.names)?;
    push_word(text, alloc, &found.pzxid)?;
    push_mark(text, mark)
}

/// The line of names that are kept.
fn found_line<A: Allocator + Copy>(
    alloc: A,
    found: &Children<A>,
    mark: Mark,
) -> Result<String<A>, AllocError>
    ensures { IfOk result (λ text. TellsKept (Some (record { answer = names_in found.now; mark = mark })) (string_bytes text)) }
{
    let mut text = String::new(alloc);
    push_found(&mut text, alloc, found, mark)?;
    Ok(text)
}

/// The line of what is kept about the names below a path.
pub fn names_line<A: Allocator + Copy>(
    alloc: A,
    kept: Option<(&Children<A>, Mark)>,
) -> Result<String<A>, AllocError>
    ensures { IfOk result
        (λ text. TellsKept (option_map (λ k. record { answer = names_in k.0.now; mark = k.1 }) kept.entry) (string_bytes text)) }
{
    match kept {
        None => String::from_str(alloc, "names none\n"),
        Some((found, mark)) => found_line(alloc, found, mark),
    }
}

/// The line of the last seen zxid.
pub fn last_line<A: Allocator + Copy>(alloc: A, zxid: i64) -> Result<String<A>, AllocError>
    ensures { IfOk result (λ text. string_bytes text ≡ last_line zxid) }
{
    let mut text = String::from_str(alloc, "last")?;
    push_word(&mut text, alloc, &zxid)?;
    text.push_str("\n")?;
    Ok(text)
}

/// Adds a space and the word for bytes.
fn push_bytes<A: Allocator + Copy>(
    text: &mut String<A>,
    alloc: A,
    bytes: &[u8],
) -> Result<(), AllocError>
    ensures { OnOk result (string_bytes text.new ≡ string_bytes text.old ++ spaced (bytes_word (Some bytes.now))) }
{
    let word = bytes_to_word(alloc, bytes)?;
    push_spaced(text, word.as_str())
}

/// Adds the line of what a session can be taken up with.
fn push_saved<A: Allocator + Copy>(
    text: &mut String<A>,
    alloc: A,
    saved: &Saved<'_>,
) -> Result<(), AllocError>
    ensures { OnOk result
        (string_bytes text.new ≡ string_bytes text.old ++ saved_line saved.now.session saved.now.password.now saved.now.last_zxid) }
{
    text.push_str("saved")?;
    push_word(text, alloc, &saved.session)?;
    push_bytes(text, alloc, saved.password)?;
    push_word(text, alloc, &saved.last_zxid)?;
    text.push_str("\n")
}

/// The line of what a session can be taken up with.
pub(crate) fn saved_line<A: Allocator + Copy>(
    alloc: A,
    saved: &Saved<'_>,
) -> Result<String<A>, AllocError>
    ensures { IfOk result (λ text. string_bytes text ≡ saved_line saved.now.session saved.now.password.now saved.now.last_zxid) }
{
    let mut text = String::new(alloc);
    push_saved(&mut text, alloc, saved)?;
    Ok(text)
}
