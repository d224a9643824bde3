//! All that waits to be told, at once.

ghost use Rattle.std.specs.Prelude.{◌≡◌, ◌-◌, ◌++◌, [], IfOk, OnErr, OnOk, Some, drop, length, map};
ghost use Rattle.std.specs.List.{flat_map, AllByRecursion};
ghost use Rattle.ffi_device.specs.Outputs.{names_in, words_of};
ghost use Rattle.ffi_device.specs.AtOnce.{action_output, joined, news_output, output_bytes, spelled, waiting};
ghost use Rattle.ffi_device.specs.AtOnce.{AreOutputs, FitsOutput, IsSpelled, WritesOutputs};

use crate::actions::{action_flat, action_text};
use crate::copying::copy_into;
use crate::device::Device;
use crate::flat::Flat;
use crate::news::standing_flat;
use crate::outputs::outcome_names;
use std::alloc::{AllocError, Global};
use std::mem;
use zk_agent::Action;
use zk_contend::LockStatus;
use zk_jute::{BytesRef, PutError, Record, Then};

/// How many bytes an output has besides its own, if these are counted: its numbers, its Stat and the length of its bytes.
const FIXED: usize = 122;

// Outputs as bytes. If the frame of a credential is among them, the block that has it is overwritten before it is given back, also when the
// text moves to a larger one.
struct Text {
    bytes: Vec<u8>,
    is_secret: bool,
}

impl Drop for Text {
    fn drop(mut self) {
        if self.is_secret {
            self.bytes.fill(0);
        }
        let Self {
            bytes: _,
            is_secret: _,
        } = self;
    }
}

impl Text {
    // No bytes yet.
    fn new(alloc: Global) -> Text
        ensures { result.bytes.items ≡ [] }
    {
        Text {
            bytes: Vec::new(alloc),
            is_secret: false,
        }
    }

    // Has room for this many bytes more. What is there moves to a larger block by a copy, so that the first one can be overwritten.
    fn make_room(&mut self, alloc: Global, more: usize) -> Result<(), AllocError>
        ensures { self.new.bytes.items ≡ self.old.bytes.items }
    {
        let length = self.bytes.len();
        if more <= self.bytes.capacity().saturating_sub(length) {
            return Ok(());
        }
        let mut bytes = Vec::with_capacity(alloc, length.saturating_add(more.max(length)))?;
        bytes.extend_from_slice(self.bytes.as_slice())?;
        let is_secret = self.is_secret;
        let _left = mem::replace(self, Text { bytes, is_secret });
        Ok(())
    }
}

// Writes an output, of which these are longs, at the end of the text.
#[tactic(auto, unfolding(crate::specs::AtOnce::spelled, crate::specs::AtOnce::IsSpelled))]
fn write_fields(
    flat: &Flat,
    ticket: i64,
    size: i64,
    names: i64,
    bytes: &[u8],
    text: &mut Vec<u8>,
) -> Result<(), PutError>
    ensures ok { OnOk result (text.new.items ≡ text.old.items ++ spelled flat.now ticket size names bytes.now) }
    ensures fits { OnOk result (IsSpelled flat.now ticket size names bytes.now) }
{
    let stat = &flat.stat;
    let counts = Then(stat.data_length, Then(stat.num_children, stat.pzxid));
    let owned = Then(stat.aversion, Then(stat.ephemeral_owner, counts));
    let versions = Then(stat.version, Then(stat.cversion, owned));
    let times = Then(stat.ctime, Then(stat.mtime, versions));
    let stat = Then(stat.czxid, Then(stat.mzxid, times));
    let flags = Then(flat.is_null, flat.has_stat);
    let sizes = Then(flat.zxid, Then(size, Then(names, flags)));
    let code = Then(flat.code, Then(ticket, sizes));
    let numbers = Then(flat.kind, Then(flat.detail, Then(flat.result, code)));
    let bytes = BytesRef { bytes: Some(bytes) };
    Then(numbers, Then(stat, bytes)).write(text)
}

// Writes an output at the end of the text. An error says that memory ran out: what came in a frame is never too long.
fn write_output(alloc: Global, flat: &Flat, bytes: &[u8], text: &mut Text) -> Result<(), AllocError>
    ensures ok { OnOk result (text.new.bytes.items ≡ text.old.bytes.items ++ output_bytes (flat.now, bytes.now)) }
    ensures fits { OnOk result (FitsOutput (flat.now, bytes.now)) }
{
    text.make_room(alloc, bytes.len().saturating_add(FIXED))?;
    let ticket = flat.ticket.cast_signed();
    let size = (flat.length as u64).cast_signed();
    let names = (flat.names as u64).cast_signed();
    match write_fields(flat, ticket, size, names, bytes, &mut text.bytes) {
        Ok(()) => Ok(()),
        Err(_) => Err(AllocError),
    }
}

// The names of a listing, each after its length, or the words of why a connection is given up, and else nothing.
fn rest_of(alloc: Global, action: &Action<Global>) -> Result<Vec<u8>, AllocError>
    ensures { IfOk result (λ rest. rest.items ≡ joined (names_in (Some action.now)) ++ words_of (Some action.now)) }
{
    match action {
        Action::Answer { outcome, .. } => Vec::from_slice(alloc, outcome_names(outcome)),
        Action::GivenUp(fault) => Ok(format!(in alloc; "{fault}")?.into_bytes()),
        _ => Ok(Vec::new(alloc)),
    }
}

// Writes an action at the end of the text. A frame and data are not copied once more.
fn write_action(alloc: Global, action: &Action<Global>, text: &mut Text) -> Result<(), AllocError>
    ensures ok { OnOk result (text.new.bytes.items ≡ text.old.bytes.items ++ output_bytes (action_output action.now)) }
    ensures fits { OnOk result (FitsOutput (action_output action.now)) }
{
    text.is_secret = text.is_secret || matches!(action, Action::Introduce(_));
    let flat = action_flat(action);
    let mut rest = rest_of(alloc, action)?;
    if rest.is_empty() {
        return write_output(alloc, &flat, action_text(action), text);
    }
    let mut bytes = Vec::from_slice(alloc, action_text(action))?;
    bytes.append(&mut rest)?;
    write_output(alloc, &flat, bytes.as_slice(), text)
}

// Writes these actions at the end of the text.
fn write_actions(
    alloc: Global,
    actions: &[Action<Global>],
    text: &mut Text,
) -> Result<(), AllocError>
    ensures ok { OnOk result (text.new.bytes.items ≡ text.old.bytes.items ++ flat_map output_bytes (map action_output actions.now)) }
    ensures fits { OnOk result (AllByRecursion FitsOutput (map action_output actions.now)) }
{
    for action in actions {
        write_action(alloc, action, text)?;
    }
    Ok(())
}

// Writes how these contenders stand at the end of the text.
fn write_news(alloc: Global, news: &[(u64, LockStatus)], text: &mut Text) -> Result<(), AllocError>
    ensures ok { OnOk result (text.new.bytes.items ≡ text.old.bytes.items ++ flat_map output_bytes (map news_output news.now)) }
    ensures fits { OnOk result (AllByRecursion FitsOutput (map news_output news.now)) }
{
    for one in news {
        write_output(alloc, &standing_flat(one), b"", text)?;
    }
    Ok(())
}

impl Device {
    // The actions that were not told yet.
    fn unread_actions(&self) -> &[Action<Global>]
        ensures { result.now ≡ drop self.now.read self.now.said.items }
    {
        let said = self.said.as_slice();
        &said[self.read.min(said.len())..]
    }

    // How contenders stand, if that was not told yet.
    fn unread_news_all(&self) -> &[(u64, LockStatus)]
        ensures { result.now ≡ drop (self.now.read - length self.now.said.items) self.now.news.items }
    {
        let news = self.news.as_slice();
        let read = self.read.saturating_sub(self.said.len());
        &news[read.min(news.len())..]
    }

    // All that waits to be told.
    fn outputs_text(&self, alloc: Global) -> Result<Text, AllocError>
        ensures { IfOk result (λ text. AreOutputs (waiting self.now.said.items self.now.news.items self.now.read) text.bytes.items) }
    {
        let mut text = Text::new(alloc);
        write_actions(alloc, self.unread_actions(), &mut text)?;
        write_news(alloc, self.unread_news_all(), &mut text)?;
        Ok(text)
    }

    /// Writes all actions of the last step that were not told yet, and then how contenders stand, if there is room for all: then all is
    /// told. Else nothing is. Tells how many bytes they are. An error says that memory ran out.
    pub fn outputs(&mut self, alloc: Global, room: &mut [u8]) -> Result<usize, AllocError>
        ensures written { IfOk result (λ count. WritesOutputs self.old room.old room.new count self.new) }
        ensures same { OnErr result ((room.new ≡ room.old) × (self.new ≡ self.old)) }
    {
        let text = self.outputs_text(alloc)?;
        let wanted = text.bytes.len();
        if room.len() < wanted {
            return Ok(wanted);
        }
        copy_into(text.bytes.as_slice(), room);
        self.read = self.said.len() + self.news.len();
        Ok(wanted)
    }
}
