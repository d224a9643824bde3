//! A rehearsal, line by line.

ghost use Rattle.std.specs.Prelude.{◌≡◌, ◌<ℤ◌, pos, true, false, Ok, IfOk, IfErr, IfSome, map, string_bytes};
ghost use Rattle.std.specs.Option.{option_map};
ghost use Rattle.script_words.specs.Pieces.{words_of};
ghost use Rattle.script_words.specs.Scripts.{IsDue};
ghost use Rattle.script_words.specs.Stops.{IfHalted, IsWant};
ghost use Rattle.script_words.specs.inner.Stops.{IsDueBy};
ghost use Rattle.script_rehearse.specs.inner.BenchLines.{bench_value_of};
ghost use Rattle.script_rehearse.specs.inner.RehearseLines.{said_value, CanPlay};
ghost use Rattle.script_rehearse.specs.RehearseLines.{says_at, BenchValueLine, HistoryLine};
ghost use Rattle.script_rehearse.specs.Rehearsed.{Position, is_begun, Begins, Does, DoesBenchLine, DoesHistory};
ghost use Rattle.script_rehearse.specs.inner.Rehearsed.{position_of};
ghost use Rattle.script_rehearse.specs.Rehearsed.{HaltsBenchLine, HaltsLine, TakesLine};
ghost use Rattle.script_rehearse.specs.inner.Rehearsed.{HaltsSaid, IsDueOf};
ghost use Rattle.script_rehearse.specs.Scripts.{first_position, rules};
ghost use Rattle.script_rehearse.specs.inner.Scripts.{IsAt};

use crate::bench_line::BenchLine;
use crate::rig::Rig;
use crate::said::{Said, parse_said};
use script_story::story::Story;
use script_words::pieces::words_of;
use script_words::script::LineReader;
use script_words::stop::LineStop;
use std::alloc::Allocator;
use std::mem;
use zk_history::History;

/// A history, and a client with servers over it, once a line has made them.
#[derive(Drop)]
pub struct Rehearsal<A: Allocator + Copy> {
    story: Story<A>,
    rig: Option<Rig<A>>,
}

impl<A: Allocator + Copy> Rehearsal<A> {
    /// A history with the root alone, and no client yet.
    pub fn new(alloc: A) -> Rehearsal<A>
        ensures { position_of result ≡ first_position }
    {
        Rehearsal {
            story: Story::new(alloc),
            rig: None,
        }
    }

    /// Whether the client was made.
    fn is_begun(&self) -> bool
        ensures { result ≡ is_begun (position_of self.now) }
    {
        self.rig.is_some()
    }

    /// Makes the client, and the servers over the history so far.
    fn begin(&mut self, alloc: A, timeout: i32)
        requires above { pos 0 <ℤ timeout }
        requires first { is_begun (position_of self.old) ≡ false }
        ensures { Begins timeout (position_of self.old) (position_of self.new) }
    {
        let history = mem::replace(&mut self.story.history, History::new(alloc));
        let rig = Rig::new(alloc, timeout, history);
        drop(mem::replace(&mut self.rig, Some(rig)));
    }

    /// Does what a line after the one that makes the client says.
    fn perform(&mut self, alloc: A, line: BenchLine<A>) -> Result<String<A>, LineStop>
        requires { is_begun (position_of self.old) ≡ true }
        ensures ok { IfOk result
            (λ text. DoesBenchLine (bench_value_of line) (position_of self.old) (position_of self.new) (string_bytes text)) }
        ensures err { IfErr result IsWant }
        ensures halt { IfErr result (IfHalted (HaltsBenchLine (bench_value_of line) (position_of self.old) (position_of self.new))) }
    {
        match &mut self.rig {
            Some(rig) => rig.perform(alloc, line),
            None => Err(LineStop::Memory),
        }
    }

    /// Reads a line of the history.
    fn read_history(&mut self, alloc: A, line: &[u8]) -> Result<String<A>, LineStop>
        requires { is_begun (position_of self.old) ≡ false }
        ensures ok { IfOk result (λ text. DoesHistory line.now (position_of self.old) (position_of self.new) (string_bytes text)) }
        ensures err { IfErr result (IsDueOf line.now HistoryLine (position_of self.old)) }
        ensures halt { IfErr result (IfHalted ⊥) }
    {
        self.story.read(alloc, line)
    }

    /// Does what a line says that is allowed here.
    fn perform_said(&mut self, alloc: A, line: &[u8], said: Said<A>) -> Result<String<A>, LineStop>
        requires { CanPlay (is_begun (position_of self.old)) (said_value said) }
        ensures ok { IfOk result
            (λ text. Does line.now (said_value said) (position_of self.old) (position_of self.new) (string_bytes text)) }
        ensures err { IfErr result (IsDueOf line.now (said_value said) (position_of self.old)) }
        ensures halt { IfErr result (IfHalted (HaltsSaid (said_value said) (position_of self.old) (position_of self.new))) }
    {
        match said {
            Said::History => self.read_history(alloc, line),
            Said::Begin(timeout) => {
                self.begin(alloc, timeout);
                Ok(String::new(alloc))
            }
            Said::Bench(line) => self.perform(alloc, line),
        }
    }

    /// What a line says, if it says something.
    fn said(&self, alloc: A, line: &[u8]) -> Result<Option<Said<A>>, LineStop>
        ensures says { IfOk result
            (λ said. says_at (words_of line.now) (is_begun (position_of self.now)) ≡ Ok (option_map said_value said)) }
        ensures can { IfOk result (λ said. IfSome said (λ one. CanPlay (is_begun (position_of self.now)) (said_value one))) }
        ensures err { IfErr result (IsDueBy (says_at (words_of line.now) (is_begun (position_of self.now)))) }
        ensures halt { IfErr result (IfHalted ⊥) }
    {
        let words = words_of(alloc, line)?;
        let said = parse_said(alloc, words.as_slice(), self.is_begun())?;
        Ok(said)
    }

    /// Does what a line says, and gives what is to be printed: the lines of what the client says, or of a look-up. An empty line
    /// and one that begins with `#` say nothing. The first reason that applies refuses a line. A halt is the answer only if the
    /// line brings an input, and the client has halted at it.
    #[tactic(auto, using(crate::proofs::DueLemmas::words_due, crate::proofs::DueLemmas::due, crate::proofs::DueLemmas::taken, crate::proofs::DueLemmas::none_halts, crate::proofs::DueLemmas::halts_so))]
    pub fn read_line(&mut self, alloc: A, line: &[u8]) -> Result<String<A>, LineStop>
        ensures ok { IfOk result (λ text. TakesLine line.now (position_of self.old) (position_of self.new) (string_bytes text)) }
        ensures err { IfErr result (IsDue rules line.now (position_of self.old)) }
        ensures halt { IfErr result (IfHalted (HaltsLine line.now (position_of self.old) (position_of self.new))) }
    {
        match self.said(alloc, line)? {
            Some(said) => self.perform_said(alloc, line, said),
            None => Ok(String::new(alloc)),
        }
    }
}

impl<A: Allocator + Copy> LineReader<A> for Rehearsal<A> {
    ghost Position = { Position };

    ghost rules = { rules };

    ghost stands = { IsAt };

    fn read(&mut self, alloc: A, line: &[u8]) -> Result<String<A>, LineStop> {
        self.read_line(alloc, line)
    }
}
