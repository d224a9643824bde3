//! A history, as the lines of a script make it and ask it.

ghost use Rattle.std.specs.Prelude.{◌≡◌, ◌≢◌, OnErr, IfOk, IfErr, map, string_bytes};
ghost use Rattle.std.specs.Option.{option_map};
ghost use Rattle.zk_history.specs.HistoryView.{natural};
ghost use Rattle.zk_nodes.specs.declared.side.Side.TheVariants.{Data, Child};
ghost use Rattle.script_story.specs.inner.HistoryLines.{value_of};
ghost use Rattle.script_words.specs.Reads.{Reads};
ghost use Rattle.script_story.specs.Stories.{Position, first_position, may_stand, position_of, rules, said, IsAnswer, IsRefused};
ghost use Rattle.script_story.specs.inner.Stories.{allowed};
ghost use Rattle.script_story.specs.Stories.{RefusesLine, Takes, TakesLine};

use crate::answers::{push_data, push_names};
use crate::history_line::{HistoryKeyword, HistoryLine, parse_line};
use script_words::pieces::words_of;
use script_words::reads::split_keyword;
use script_words::script::LineReader;
use script_words::script_fault::ScriptFault;
use script_words::stop::LineStop;
use std::alloc::{AllocError, Allocator};
use zk_history::{History, HistoryFault};
use zk_nodes::{Path, Side};

/// A history, and whether it was asked: from then on it takes look-ups alone.
#[derive(Drop)]
pub struct Story<A: Allocator + Copy> {
    pub history: History<A>,
    pub begun: bool,
    pub asked: bool,
}

/// What a history answers to a line: why it refuses a change is why it refuses the line.
fn allowed(answer: Result<(), HistoryFault>) -> Result<(), ScriptFault>
    ensures { result ≡ allowed answer }
{
    match answer {
        Ok(()) => Ok(()),
        Err(HistoryFault::Place) => Err(ScriptFault::Place),
        Err(HistoryFault::Order) => Err(ScriptFault::Order),
        Err(HistoryFault::Illegal) => Err(ScriptFault::Illegal),
        Err(HistoryFault::Memory) => Err(ScriptFault::Memory),
    }
}

impl<A: Allocator + Copy> Story<A> {
    /// A history with the root alone.
    pub fn new(alloc: A) -> Story<A>
        ensures { position_of result ≡ first_position }
    {
        Story {
            history: History::new(alloc),
            begun: false,
            asked: false,
        }
    }

    /// Whether a line of this keyword is allowed here.
    fn takes(&self, keyword: HistoryKeyword) -> bool
        ensures { result ≡ may_stand keyword self.now.begun self.now.asked }
    {
        match keyword {
            HistoryKeyword::Ask => true,
            HistoryKeyword::Tx => !self.asked,
            HistoryKeyword::Node => !self.asked && !self.begun,
            HistoryKeyword::Create | HistoryKeyword::Set | HistoryKeyword::Delete => !self.asked
                && self.begun,
        }
    }

    /// The line that answers a look-up.
    fn answer(
        &self,
        alloc: A,
        side: Side,
        zxid: i64,
        path: &Path<A>,
    ) -> Result<String<A>, AllocError>
        ensures { IfOk result (λ text. IsAnswer side self.now.history (natural zxid) path.now (string_bytes text)) }
    {
        let mut text = String::new(alloc);
        let pushed = match side {
            Side::Data => {
                let told = self.history.data_at(zxid, path)?;
                push_data(&mut text, alloc, &told)
            }
            Side::Child => {
                let told = self.history.names_at(zxid, path)?;
                push_names(&mut text, alloc, &told)
            }
        };
        pushed?;
        Ok(text)
    }

    /// Does what a line says, and answers it: a look-up by a line, all else by nothing.
    fn perform(&mut self, alloc: A, line: HistoryLine<A>) -> Result<String<A>, ScriptFault>
        ensures ok { IfOk result (λ answer. Takes (value_of line) (position_of self.old) (position_of self.new) (string_bytes answer)) }
        ensures refused { IfErr result (IsRefused (value_of line) self.old.history) }
        ensures err { OnErr result (self.new ≡ self.old) }
    {
        let (done, begun) = match line {
            HistoryLine::Node(path, bytes, time) => {
                (self.history.node(path, bytes, time), self.begun)
            }
            HistoryLine::Begin(zxid, time) => (self.history.begin(zxid, time), true),
            HistoryLine::Change(change) => (self.history.change(change), self.begun),
            HistoryLine::Ask(side, zxid, path) => {
                let answer = self.answer(alloc, side, zxid, &path)?;
                self.asked = true;
                return Ok(answer);
            }
        };
        allowed(done)?;
        self.begun = begun;
        Ok(String::new(alloc))
    }

    /// What the words of a line say. An empty line and one that begins with `#` say nothing.
    fn said(&self, alloc: A, words: &[&[u8]]) -> Result<Option<HistoryLine<A>>, ScriptFault>
        ensures { Reads (option_map value_of) result (said (map (λ w. w.now) words.now) self.now.begun self.now.asked) }
    {
        let Some((first, behind)) = split_keyword(words) else {
            return Ok(None);
        };
        let keyword = HistoryKeyword::named(first).ok_or(ScriptFault::Unknown)?;
        if !self.takes(keyword) {
            return Err(ScriptFault::Place);
        }
        let line = parse_line(alloc, keyword, behind)?;
        Ok(Some(line))
    }

    /// Reads a line and does what it says, and gives what it answers: the whole line that answers a look-up, and for another
    /// nothing. The first reason that applies refuses it, and then the story is as it was.
    pub fn read_line(&mut self, alloc: A, line: &[u8]) -> Result<String<A>, ScriptFault>
        ensures ok { IfOk result (λ answer. TakesLine line.now (position_of self.old) (position_of self.new) (string_bytes answer)) }
        ensures refused { IfErr result (λ fault. fault ≢ ScriptFault.Memory → RefusesLine line.now (position_of self.old) fault) }
        ensures err { OnErr result (self.new ≡ self.old) }
    {
        let words = words_of(alloc, line)?;
        match self.said(alloc, words.as_slice())? {
            Some(line) => self.perform(alloc, line),
            None => Ok(String::new(alloc)),
        }
    }
}

impl<A: Allocator + Copy> LineReader<A> for Story<A> {
    ghost Position = { Position };

    ghost rules = { rules };

    ghost stands = { λ story position. position_of story ≡ position };

    fn read(&mut self, alloc: A, line: &[u8]) -> Result<String<A>, LineStop> {
        match self.read_line(alloc, line) {
            Ok(answer) => Ok(answer),
            Err(fault) => Err(LineStop::from(fault)),
        }
    }
}
