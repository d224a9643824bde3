//! What was said, one action at a time, and then how contenders stand.

ghost use Rattle.std.specs.Prelude.{◌≡◌, ◌<◌, ◌+◌, ◌-◌, ◌++◌, [], IfOk, IfSome, OnErr, drop, get_or, length, string_bytes, take};
ghost use Rattle.std.specs.List.{slice_get};
ghost use Rattle.std.specs.Option.{option_map};
ghost use Rattle.ffi_device.specs.News.{standing_flat};
ghost use Rattle.ffi_device.specs.Kept.{WritesText};
ghost use Rattle.ffi_device.specs.Outputs.{next_of, outcome_names, read_after, told, told_name, told_names, told_text, told_words};
ghost use Rattle.ffi_device.specs.Texts.{AreTexts};

use crate::actions::{action_flat, action_text};
use crate::copying::copy_into;
use crate::device::Device;
use crate::flat::Flat;
use crate::news::standing_flat;
use crate::texts::{spelled_texts, text_at};
use std::alloc::{AllocError, Global};
use zk_agent::Action;
use zk_client::{CallResult, Outcome};
use zk_contend::LockStatus;

/// The names of a listing, each after its length, and nothing if the answer is none.
pub(crate) fn outcome_names(outcome: &Outcome<Global>) -> &[u8]
    ensures { AreTexts (outcome_names outcome.now) result.now }
{
    match outcome {
        Outcome::Replied {
            result: CallResult::Names { names, .. },
            ..
        } => spelled_texts(names),
        _ => b"",
    }
}

/// The name of this index in a listing, and nothing if there is none.
pub(crate) fn outcome_name(outcome: &Outcome<Global>, index: usize) -> &[u8]
    ensures { result.now ≡ get_or (outcome_names outcome.now) index [] }
{
    match outcome {
        Outcome::Replied {
            result: CallResult::Names { names, .. },
            ..
        } => text_at(names, index).as_bytes(),
        _ => b"",
    }
}

impl Device {
    /// The next action of the last step, and after all of them how the next contender stands, as numbers. The one before is over.
    pub fn next(&mut self) -> Option<Flat>
        ensures next { result ≡ next_of self.old.said.items self.old.news.items self.old.read }
        ensures agent { self.new.agent ≡ self.old.agent }
        ensures said { self.new.said ≡ self.old.said }
        ensures read { self.new.read ≡ read_after result self.old.read }
        ensures over { self.new.is_over ≡ self.old.is_over }
        ensures number { self.new.revision ≡ self.old.revision }
        ensures contenders { self.new.contenders ≡ self.old.contenders }
        ensures contends { self.new.is_contending ≡ self.old.is_contending }
        ensures news { self.new.news ≡ self.old.news }
    {
        let flat = self.unread()?;
        self.read += 1;
        Some(flat)
    }

    // What is told next.
    fn unread(&self) -> Option<Flat>
        ensures next { result ≡ next_of self.now.said.items self.now.news.items self.now.read }
        ensures below { IfSome result (λ flat. self.now.read < length self.now.said.items + length self.now.news.items) }
    {
        match self.said.as_slice().get(self.read) {
            Some(action) => Some(action_flat(action)),
            None => self.unread_news(),
        }
    }

    // How the contender stands that is told next, once all that was said was told.
    fn unread_news(&self) -> Option<Flat>
        ensures next { result ≡ option_map standing_flat (slice_get self.now.news.items (self.now.read - length self.now.said.items)) }
        ensures below { IfSome result
            (λ flat. self.now.read - length self.now.said.items < length self.now.news.items) }
    {
        match self.next_news() {
            Some(news) => Some(standing_flat(news)),
            None => None,
        }
    }

    // The news that are told next, once all that was said was told.
    fn next_news(&self) -> Option<&(u64, LockStatus)>
        ensures news { option_map (λ news. news.now) result
            ≡ slice_get self.now.news.items (self.now.read - length self.now.said.items) }
        ensures below { IfSome result
            (λ news. self.now.read - length self.now.said.items < length self.now.news.items) }
    {
        let read = self.read.saturating_sub(self.said.len());
        self.news.as_slice().get(read)
    }

    // The action that was told last, unless how a contender stands was.
    fn told(&self) -> Option<&Action<Global>>
        ensures { option_map (λ action. action.now) result ≡ told self.now.said.items self.now.read }
    {
        if self.read == 0 {
            return None;
        }
        self.said.as_slice().get(self.read - 1)
    }

    // The text of the action that was told last, and nothing if none was told.
    fn told_text(&self) -> &[u8]
        ensures { result.now ≡ told_text self.now.said.items self.now.read }
    {
        match self.told() {
            Some(action) => action_text(action),
            None => b"",
        }
    }

    /// Copies the text of the action that was told last, from this place on, as much of it as there is room for, and tells how many
    /// bytes there are from there on.
    pub fn copy_text(&self, from: usize, room: &mut [u8]) -> usize
        ensures count { result ≡ length (drop from (told_text self.now.said.items self.now.read)) }
        ensures copied { room.new ≡ take (length room.old) (drop from (told_text self.now.said.items self.now.read))
            ++ drop (length (drop from (told_text self.now.said.items self.now.read))) room.old }
    {
        let text = self.told_text();
        copy_into(&text[from.min(text.len())..], room)
    }

    /// The words of why a connection is given up, if that was told last. An error says that memory ran out.
    pub fn words(&self, alloc: Global) -> Result<String<Global>, AllocError>
        ensures { IfOk result (λ words. string_bytes words ≡ told_words self.now.said.items self.now.read) }
    {
        match self.told() {
            Some(Action::GivenUp(fault)) => format!(in alloc; "{fault}"),
            _ => Ok(String::new(alloc)),
        }
    }

    // The name of this index in the listing that was told last, and nothing if there is none.
    fn told_name(&self, index: usize) -> &[u8]
        ensures { result.now ≡ told_name index self.now.said.items self.now.read }
    {
        match self.told() {
            Some(Action::Answer { outcome, .. }) => outcome_name(outcome, index),
            _ => b"",
        }
    }

    /// Copies the name of this index in the listing that was told last, as much of it as there is room for, and tells how many
    /// bytes it has.
    pub fn copy_name(&self, index: usize, room: &mut [u8]) -> usize
        ensures count { result ≡ length (told_name index self.now.said.items self.now.read) }
        ensures copied { room.new ≡ take (length room.old) (told_name index self.now.said.items self.now.read)
            ++ drop (length (told_name index self.now.said.items self.now.read)) room.old }
    {
        copy_into(self.told_name(index), room)
    }

    // The names of the listing that was told last, each after its length, and nothing if none was.
    fn spelled_names(&self) -> &[u8]
        ensures { AreTexts (told_names self.now.said.items self.now.read) result.now }
    {
        match self.told() {
            Some(Action::Answer { outcome, .. }) => outcome_names(outcome),
            _ => b"",
        }
    }

    /// Copies all names of the listing that was told last, in the order of the reply and each after its length in four bytes, as many
    /// bytes of them as there is room for, and tells how many there are.
    pub fn copy_names(&self, room: &mut [u8]) -> usize
        ensures { WritesText (AreTexts (told_names self.now.said.items self.now.read)) room.old room.new result }
    {
        copy_into(self.spelled_names(), room)
    }
}
