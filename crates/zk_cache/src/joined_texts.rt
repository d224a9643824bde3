//! Texts that are in one block of memory.
ghost use Rattle.std.specs.Prelude.{◌≡◌, ◌<◌, ◌^◌, ◌+◌, ◌++◌, ◌∷◌, Some, [], map, length, option_map, slice_get, IfOk, OnOk};
ghost use Rattle.std.specs.List.{sum_by, flat_map, AllByRecursion};
ghost use Rattle.zk_cache.specs.Spelled.{texts_from, AreSpelledFrom};
ghost use Rattle.zk_cache.specs.inner.Contents.{name_in};
ghost use Rattle.zk_cache.specs.inner.Cuts.{start_at};
ghost use Rattle.zk_jute.specs.Layout.{ustring};
ghost use Rattle.zk_jute.specs.Lenient.{or_empty};
ghost use Rattle.zk_jute.specs.Spelling.{Fits, spelling};

use std::alloc::{AllocError, Allocator, Global};
use std::marker::Model;
use zk_jute::{Record, TextRef};

/// Texts, seen as the list of them. However many there are, they take two blocks of memory: one in which each stands after its length,
/// as zookeeper.jute spells a ustring, and where in it each ends.
#[derive(Drop)]
pub struct JoinedTexts<A: Allocator = Global> {
    spelled: Vec<u8, A>,
    ends: Vec<usize, A>,
}

impl<A: Allocator> Model for JoinedTexts<A> {
    ghost use Rattle.std.specs.Prelude.{ℕ, List};
    ghost use Rattle.zk_cache.specs.Spelled.{texts_from, AreSpelledFrom};

    ghost Value = { List (List ℕ) };

    ghost view = { λ t. texts_from t.spelled.items 0 t.ends.items };

    ghost invariant = { λ t. AreSpelledFrom t.spelled.items 0 t.ends.items };
}

impl<A: Allocator> JoinedTexts<A> {
    /// How many texts there are.
    pub fn len(&self) -> usize
        ensures { result ≡ length self.now }
    {
        self.ends.as_slice().len()
    }

    /// The text at this place, from 0 on. It takes constant time.
    pub fn get(&self, index: usize) -> Option<&str>
        ensures { option_map (λ text. text.now) result ≡ slice_get self.now index }
    {
        let ends = self.ends.as_slice();
        if index >= ends.len() {
            return None;
        }
        let start = start_of(ends, index) + 4;
        let bytes = &self.spelled.as_slice()[start..ends[index]];
        // It is UTF-8, as the invariant says.
        let text = unsafe { std::str::from_utf8_unchecked(bytes) };
        Some(text)
    }

    /// All texts, each after its length in four bytes.
    pub fn spelled(&self) -> &[u8]
        ensures is { result.now ≡ flat_map (λ text. spelling ustring (Some text)) self.now }
        ensures fits { AllByRecursion (λ text. Fits ustring (Some text)) self.now }
    {
        self.spelled.as_slice()
    }
}

impl<A: Allocator + Copy> JoinedTexts<A> {
    /// These texts.
    pub(crate) fn of(alloc: A, texts: &[&str]) -> Result<JoinedTexts<A>, AllocError>
        ensures { IfOk result (λ joined. joined ≡ map (λ text. text.now) texts.now) }
    {
        let mut spelled = Vec::with_capacity(alloc, joined_len(texts))?;
        let mut ends = Vec::with_capacity(alloc, texts.len())?;
        for segment in texts {
            push(&mut spelled, &mut ends, segment)?;
        }
        Ok(JoinedTexts { spelled, ends })
    }

    /// The names of a reply, in its order. A null name is the empty one. An error says that memory ran out: a name from a frame is
    /// never too long.
    pub fn of_names(alloc: A, names: &[TextRef<'_>]) -> Result<JoinedTexts<A>, AllocError>
        ensures { IfOk result
            (λ joined. joined ≡ map (λ name. or_empty (option_map (λ text. text.now) name.text)) names.now) }
    {
        let mut spelled = Vec::with_capacity(alloc, names_len(names))?;
        let mut ends = Vec::with_capacity(alloc, names.len())?;
        for name in names {
            push(&mut spelled, &mut ends, name.or_empty())?;
        }
        Ok(JoinedTexts { spelled, ends })
    }
}

// How many bytes the texts and their lengths have together, as far as that can be counted.
fn joined_len(texts: &[&str]) -> usize
    ensures { sum_by (λ text. 4 + length text.now) texts.now < 2 ^ 64 → result ≡ sum_by (λ text. 4 + length text.now) texts.now }
{
    let mut count: usize = 0;
    for text in texts {
        count = count.saturating_add(4).saturating_add(text.len());
    }
    count
}

// The same of names, of which a null one has no bytes of its own.
fn names_len(names: &[TextRef<'_>]) -> usize
    ensures { sum_by (λ name. 4 + length (name_in name)) names.now < 2 ^ 64
        → result ≡ sum_by (λ name. 4 + length (name_in name)) names.now }
{
    let mut count: usize = 0;
    for name in names {
        count = count
            .saturating_add(4)
            .saturating_add(name.or_empty().len());
    }
    count
}

// One text more, after its length. An error says that memory ran out, or that the text is too long, as none from a frame is.
#[inline(always)]
fn push<A: Allocator + Copy>(
    spelled: &mut Vec<u8, A>,
    ends: &mut Vec<usize, A>,
    segment: &str,
) -> Result<(), AllocError>
    requires { AreSpelledFrom spelled.old.items 0 ends.old.items }
    ensures spelled { OnOk result (AreSpelledFrom spelled.new.items 0 ends.new.items) }
    ensures texts { OnOk result (texts_from spelled.new.items 0 ends.new.items
        ≡ texts_from spelled.old.items 0 ends.old.items ++ segment.now ∷ []) }
{
    let Ok(()) = segment.write(spelled) else {
        return Err(AllocError);
    };
    ends.push(spelled.as_slice().len())?;
    Ok(())
}

// Where the spelling of the text at this place begins: where the one before it ends.
fn start_of(ends: &[usize], index: usize) -> usize
    requires { index < length ends.now }
    ensures { result ≡ start_at 0 ends.now index }
{
    if index == 0 { 0 } else { ends[index - 1] }
}
