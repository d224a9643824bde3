//! What a client keeps of a subject, in words.

ghost use Rattle.std.specs.Prelude.{◌≡◌, ◌++◌, ◌∷◌, [], IfOk, IfSome, codes, string_bytes};
ghost use Rattle.std.specs.Option.{option_map};
ghost use Rattle.script_words.specs.Values.{spaced, stat_words};
ghost use Rattle.script_replay.specs.Shown.{mark_word};
ghost use Rattle.zk_client.specs.Clients.{view_of};
ghost use Rattle.script_replay.specs.ClientLines.{PeekLine};
ghost use Rattle.script_replay.specs.Played.{DoesClient};
ghost use Rattle.shell_watch.specs.Lines.{data_word, none_words, text_words, words_in, Looks};

use crate::plan::Style;
use crate::texts::data_word;
use script_replay::peeks::{data_line, names_line};
use script_replay::words::push_spaced;
use script_words::values::push_stat;
use std::alloc::{AllocError, Allocator};
use zk_client::{Client, DataAnswer, DataStat, Mark, Path, Side};
use zk_trees::{NodeSide, is_missing};

/// The words if nothing is kept.
pub(crate) fn none_words(side: Side) -> &'static str
    ensures { result.now ≡ none_words side }
{
    match side {
        Side::Data => "data none",
        Side::Child => "names none",
    }
}

/// The words of a line, without its end.
fn words_of(line: &str) -> Option<&str>
    ensures { IfSome result (λ words. line.now ≡ words.now ++ 10 ∷ []) }
{
    line.strip_suffix('\n')
}

/// The line of what a client keeps of a subject, as a look-up of `script_replay` prints it.
fn line_of<A: Allocator + Copy>(
    alloc: A,
    client: &Client<A>,
    subject: &NodeSide<A>,
) -> Result<String<A>, AllocError>
    ensures { IfOk result
        (λ text. DoesClient (PeekLine subject.now.side subject.now.path) (view_of client.now) (view_of client.now) (string_bytes text)) }
{
    match subject.side {
        Side::Data => data_line(alloc, client.peek_data(&subject.path)),
        Side::Child => names_line(alloc, client.peek_children(&subject.path)),
    }
}

/// What a client keeps of a subject, in words.
pub(crate) fn look<A: Allocator + Copy>(
    alloc: A,
    client: &Client<A>,
    subject: &NodeSide<A>,
) -> Result<String<A>, AllocError>
    ensures { IfOk result (λ text. Looks subject.now.side subject.now.path (view_of client.now) (string_bytes text)) }
{
    if is_missing(client, &subject.path) {
        return String::from_str(alloc, "does not exist");
    }
    let line = line_of(alloc, client, subject)?;
    match words_of(line.as_str()) {
        Some(words) => String::from_str(alloc, words),
        // Each line has an end.
        None => Err(AllocError),
    }
}

/// The word for a mark.
pub(crate) fn mark_word(mark: Mark) -> &'static str
    ensures { result.now ≡ mark_word mark }
{
    match mark {
        Mark::Good => "good",
        Mark::Stale => "stale",
    }
}

/// The words of data that are kept whole, with the data as text.
fn full_words<A: Allocator + Copy>(
    alloc: A,
    bytes: &Option<Vec<u8, A>>,
    stat: &DataStat,
    mark: Mark,
) -> Result<String<A>, AllocError>
    ensures { IfOk result (λ text. string_bytes text
        ≡ codes "data full " ++ (data_word (option_map (λ v. v.items) bytes.now) ++ (stat_words stat.now ++ spaced (mark_word mark)))) }
{
    let mut text = String::from_str(alloc, "data full ")?;
    text.push_str(data_word(alloc, bytes)?.as_str())?;
    push_stat(&mut text, alloc, stat)?;
    push_spaced(&mut text, mark_word(mark))?;
    Ok(text)
}

/// The words of a look-up of a node's data, with the data as text.
fn text_words<A: Allocator + Copy>(
    alloc: A,
    client: &Client<A>,
    path: &Path<A>,
    words: &str,
) -> Result<String<A>, AllocError>
    ensures { IfOk result (λ text. string_bytes text ≡ text_words ((view_of client.now).cache.nodes path.now) words.now) }
{
    match client.peek_data(path) {
        Some((DataAnswer::Full(bytes, stat), mark)) => full_words(alloc, bytes, stat, mark),
        _ => String::from_str(alloc, words),
    }
}

/// The words of a look-up in a style.
pub(crate) fn words_in<A: Allocator + Copy>(
    alloc: A,
    style: Style,
    client: &Client<A>,
    subject: &NodeSide<A>,
    words: &str,
) -> Result<String<A>, AllocError>
    ensures { IfOk result
        (λ text. string_bytes text ≡ words_in style subject.now.side ((view_of client.now).cache.nodes subject.now.path) words.now) }
{
    match (style, subject.side) {
        (Style::Text, Side::Data) => text_words(alloc, client, &subject.path, words),
        _ => String::from_str(alloc, words),
    }
}
