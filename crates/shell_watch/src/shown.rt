//! What was printed of subjects.

ghost use Rattle.std.specs.Prelude.{◌≡◌, ◌++◌, ℕ, List, IfOk, OnOk, string_bytes};
ghost use Rattle.zk_client.specs.Clients.{view_of};
ghost use Rattle.shell_watch.specs.Lines.{subject_line, subject_words, IsSubjectLine};
ghost use Rattle.shell_watch.specs.Trees.{fresh, printed};
ghost use Rattle.shell_watch.specs.Watching.{aim_of, ShowsAll, ShowsSo};

use crate::kept_object::subject_object;
use crate::looks::{look, none_words, words_in};
use crate::plan::Style;
use crate::stamp::line_at;
use script_replay::words::push_spaced;
use script_words::values::push_word;
use script_words::words::text_to_word;
use std::alloc::{AllocError, Allocator};
use zk_client::{Client, Path, Side};
use zk_trees::{NodeSide, copy_of};

/// A subject that is watched, the ticket by which it is followed, the words that were printed of it last, if any were, and whether it is
/// let go: then it is printed once more, if it has changed.
#[derive(Drop)]
pub(crate) struct Watched<A: Allocator> {
    pub(crate) subject: NodeSide<A>,
    pub(crate) ticket: u64,
    pub(crate) note: Option<String<A>>,
    pub(crate) is_leaving: bool,
}

/// The words that were printed of it last; if none were, those if nothing is kept.
pub(crate) fn printed<A: Allocator>(one: &Watched<A>) -> &str
    ensures { result.now ≡ printed one.now }
{
    match &one.note {
        Some(words) => words.as_str(),
        None => none_words(one.subject.side),
    }
}

/// The words of a subject's line: the path, what is kept, and the last seen zxid.
fn subject_words<A: Allocator + Copy>(
    alloc: A,
    path: &str,
    words: &str,
    zxid: i64,
) -> Result<String<A>, AllocError>
    ensures { IfOk result (λ text. string_bytes text ≡ subject_words path.now words.now zxid) }
{
    let mut text = text_to_word(alloc, path.as_bytes())?;
    push_spaced(&mut text, words)?;
    text.push_str(" last")?;
    push_word(&mut text, alloc, &zxid)?;
    Ok(text)
}

/// The line of words of a subject of which a look-up has these words.
fn line_of_words<A: Allocator + Copy>(
    alloc: A,
    style: Style,
    ms: u64,
    client: &Client<A>,
    subject: &NodeSide<A>,
    words: &str,
) -> Result<String<A>, AllocError>
    ensures { IfOk result
        (λ text. string_bytes text ≡ subject_line style ms subject.now.side subject.now.path (view_of client.now) words.now) }
{
    let shown = words_in(alloc, style, client, subject, words)?;
    let path = subject.path.as_str();
    let line = subject_words(alloc, path, shown.as_str(), client.last_zxid())?;
    line_at(alloc, ms, line.as_str())
}

/// The line of a subject of which a look-up has these words.
fn subject_line<A: Allocator + Copy>(
    alloc: A,
    style: Style,
    ms: u64,
    client: &Client<A>,
    subject: &NodeSide<A>,
    words: &str,
) -> Result<String<A>, AllocError>
    ensures { IfOk result
        (λ text. IsSubjectLine style ms subject.now.side subject.now.path (view_of client.now) words.now (string_bytes text)) }
{
    match style {
        Style::Json => subject_object(alloc, ms, client, subject),
        Style::Hex | Style::Text => line_of_words(alloc, style, ms, client, subject, words),
    }
}

/// A side of a copy of a path, as if nothing were kept of it and that were printed.
pub(crate) fn fresh<A: Allocator + Copy>(
    alloc: A,
    ticket: u64,
    side: Side,
    path: &Path<A>,
) -> Result<Watched<A>, AllocError>
    ensures { IfOk result (λ one. one ≡ fresh ticket (side, path.now)) }
{
    let path = copy_of(alloc, path)?;
    Ok(Watched {
        subject: NodeSide { side, path },
        ticket,
        note: None,
        is_leaving: false,
    })
}

/// Adds the line of a subject, if what a client keeps of it is not what was printed last.
fn show<A: Allocator + Copy>(
    alloc: A,
    style: Style,
    ms: u64,
    client: &Client<A>,
    one: &mut Watched<A>,
    text: &mut String<A>,
) -> Result<(), AllocError>
    ensures { OnOk result ((told : List ℕ) × ShowsSo style ms (view_of client.now) one.old one.new told
        × (string_bytes text.new ≡ string_bytes text.old ++ told)) }
{
    let words = look(alloc, client, &one.subject)?;
    if words.as_str() == printed(one) {
        return Ok(());
    }
    let line = subject_line(alloc, style, ms, client, &one.subject, words.as_str())?;
    text.push_str(line.as_str())?;
    one.note = Some(words);
    Ok(())
}

/// Adds the line of each subject of which what a client keeps is not what was printed last.
pub(crate) fn show_all<A: Allocator + Copy>(
    alloc: A,
    style: Style,
    ms: u64,
    client: &Client<A>,
    watched: &mut [Watched<A>],
    text: &mut String<A>,
) -> Result<(), AllocError>
    ensures { OnOk result ((told : List ℕ) × ShowsAll style ms (view_of client.now) watched.old watched.new told
        × (string_bytes text.new ≡ string_bytes text.old ++ told)) }
{
    for one in watched.iter_mut() {
        show(alloc, style, ms, client, one, text)?;
    }
    Ok(())
}
