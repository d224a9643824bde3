//! Texts that follow one another, each after its length.

ghost use Rattle.std.specs.Prelude.{◌≡◌, ◌++◌, ◌+◌, ◌<◌, ◌^◌, ℕ, List, [], length, IfErr, IfOk, IfSome, None, Some, get_or, map};
ghost use Rattle.std.specs.List.{sum_by};
ghost use Rattle.zk_jute.specs.Cursor.{bytes_left};
ghost use Rattle.zk_jute.specs.Layout.{ustring};
ghost use Rattle.zk_jute.specs.Spelling.{Fits, spelling};
ghost use Rattle.ffi_device.specs.Codes.{refusal_code};
ghost use Rattle.ffi_device.specs.Texts.{AreTexts};
ghost use Rattle.ffi_device.specs.inner.Texts.{RefusesTexts};

use crate::refusal::DeviceRefusal;
use std::alloc::{AllocError, Global};
use zk_client::JoinedTexts;
use zk_jute::{Cursor, TextRef, take};

/// The text of this index, and the empty one if there is none.
pub(crate) fn text_at(texts: &JoinedTexts<Global>, index: usize) -> &str
    ensures { result.now ≡ get_or texts.now index [] }
{
    match texts.get(index) {
        Some(text) => text,
        None => "",
    }
}

/// The texts, each after its length.
pub(crate) fn spelled_texts(texts: &JoinedTexts<Global>) -> &[u8]
    ensures { AreTexts texts.now result.now }
{
    texts.spelled()
}

/// The next text, which the cursor moves past, and nothing if there is none. It takes no memory.
pub(crate) fn next_text<'a>(alloc: Global, at: &mut Cursor<'a>) -> Option<&'a str>
    ensures some { IfSome result
        (λ text. Fits ustring (Some text.now) × (bytes_left at.old ≡ spelling ustring (Some text.now) ++ bytes_left at.new)) }
    ensures none { result ≡ None → (text rest : List ℕ) → Fits ustring (Some text)
        → ¬ (bytes_left at.old ≡ spelling ustring (Some text) ++ rest) }
{
    match take(alloc, at) {
        Ok(TextRef { text }) => text,
        Err(_) => None,
    }
}

/// The texts that are spelled so, one after the other. A refusal is `NotTexts`, else `Memory`.
pub(crate) fn lent_texts<'a>(
    alloc: Global,
    spelled: &'a [u8],
) -> Result<Vec<&'a str>, DeviceRefusal>
    ensures ok { IfOk result (λ texts. AreTexts (map (λ text. text.now) texts.items) spelled.now) }
    ensures refused { IfErr result (λ refusal. RefusesTexts spelled.now (refusal_code refusal)) }
{
    let mut at = Cursor::new(spelled);
    let mut texts = Vec::new(alloc);
    while !at.rest().is_empty() {
        match next_text(alloc, &mut at) {
            Some(text) => {
                if texts.push(text).is_err() {
                    return Err(DeviceRefusal::Memory);
                }
            }
            None => return Err(DeviceRefusal::NotTexts),
        }
    }
    Ok(texts)
}

// The same texts, with memory of their own.
fn joined_texts(alloc: Global, texts: &[&str]) -> Result<JoinedTexts<Global>, AllocError>
    ensures { IfOk result (λ joined. joined ≡ map (λ text. text.now) texts.now) }
{
    let mut names = Vec::with_capacity(alloc, texts.len())?;
    for text in texts {
        names.push(TextRef { text: Some(*text) })?;
    }
    JoinedTexts::of_names(alloc, names.as_slice())
}

/// The texts that are spelled so, with memory of their own. A refusal is as of [`lent_texts`].
pub(crate) fn owned_texts(
    alloc: Global,
    spelled: &[u8],
) -> Result<JoinedTexts<Global>, DeviceRefusal>
    ensures ok { IfOk result (λ texts. AreTexts texts spelled.now) }
    ensures refused { IfErr result (λ refusal. RefusesTexts spelled.now (refusal_code refusal)) }
{
    let texts = lent_texts(alloc, spelled)?;
    match joined_texts(alloc, texts.as_slice()) {
        Ok(joined) => Ok(joined),
        Err(_) => Err(DeviceRefusal::Memory),
    }
}
