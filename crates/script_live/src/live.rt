//! A live session of a whole script.

ghost use Rattle.std.specs.Prelude.{◌≡◌, [], false, is_some, IfErr, IfOk, map, string_bytes};
ghost use Rattle.zk_turns.specs.View.{view_at};
ghost use Rattle.zk_client.specs.Clients.{view_of};
ghost use Rattle.script_words.specs.Pieces.{words_of};
ghost use Rattle.script_words.specs.Scripts.{lines_of};
ghost use Rattle.script_words.specs.Stops.{IfHalted, IsWant};
ghost use Rattle.script_words.specs.inner.Stops.{IsDueBy};
ghost use Rattle.script_replay.specs.Lines.{begin_value_of, client_value_of};
ghost use Rattle.script_replay.specs.ReplayLines.{BeginValue, CanBegin};
ghost use Rattle.script_replay.specs.Played.{start_of};
ghost use Rattle.script_live.specs.Begins.{begun_by, Begins};
ghost use Rattle.script_live.specs.Flowing.{flow_of};
ghost use Rattle.script_live.specs.inner.Lines.{live_value_of};
ghost use Rattle.script_live.specs.LiveLines.{DrivesLine, says_at};
ghost use Rattle.script_live.specs.Lives.{position_of, rules, DoesLive, HaltsLine, HaltsLive, IsTranscript, Position, TakesLine};
ghost use Rattle.script_live.specs.Printed.{Prints};

use crate::first_line::begin_of;
use crate::link::Link;
use crate::live_line::{LiveLine, parse_live_line};
use crate::ring::Ring;
use script_replay::begin_line::BeginLine;
use script_replay::client_line::ClientLine;
use script_replay::driven::{driven, make_client};
use script_words::pieces::lines_of;
use script_words::script::{LineReader, ScriptEnd, Transcript, end_at, nothing, read_lines};
use script_words::stop::LineStop;
use std::alloc::{AllocError, Allocator};
use zk_client::Input;
use zk_link::Dial;

/// A client with its connection, what dials, the addresses that are tried, and whether lines have begun.
#[derive(Drop)]
struct Session<'a, A: Allocator + Copy, D: Dial> {
    link: Link<A, D::Stream>,
    dial: &'a mut D,
    ring: Ring<'a>,
    is_begun: bool,
}

impl<A: Allocator + Copy, D: Dial> Session<'_, A, D> {
    /// Does what a line says that is the same whatever is at the other end.
    fn drive(&mut self, alloc: A, line: ClientLine<A>) -> Result<String<A>, LineStop>
        ensures ok { IfOk result (λ text. DoesLive (DrivesLine (client_value_of line)) (view_of self.old.link.joint.client)
            (view_of self.new.link.joint.client) (string_bytes text)) }
        ensures prints { IfOk result (λ text. Prints (flow_of D.Stream.remaining D.Stream.contents self.old.link.joint)
            (flow_of D.Stream.remaining D.Stream.contents self.new.link.joint) [] (string_bytes text)) }
        ensures err { IfErr result IsWant }
        ensures halt { IfErr result (IfHalted
            (HaltsLive (DrivesLine (client_value_of line)) (view_of self.old.link.joint.client) (view_of self.new.link.joint.client))) }
        ensures begun { self.new.is_begun ≡ self.old.is_begun }
    {
        let mut text = String::new(alloc);
        match line {
            ClientLine::Cut => {
                self.link.cut(alloc, &mut text)?;
                Ok(text)
            }
            ClientLine::Now(moment) => {
                self.link.step(alloc, Input::Now(moment), &mut text)?;
                Ok(text)
            }
            ClientLine::Call(asked) => {
                self.link.ask(alloc, asked, &mut text)?;
                Ok(text)
            }
            line => driven(alloc, &mut self.link.joint.client, line),
        }
    }

    /// Does what a line says, and gives what is to be printed.
    fn act(&mut self, alloc: A, line: LiveLine<A>) -> Result<String<A>, LineStop>
        ensures ok { IfOk result (λ text.
            DoesLive (live_value_of line) (view_of self.old.link.joint.client) (view_of self.new.link.joint.client) (string_bytes text)) }
        ensures prints { IfOk result (λ text. Prints (flow_of D.Stream.remaining D.Stream.contents self.old.link.joint)
            (flow_of D.Stream.remaining D.Stream.contents self.new.link.joint) [] (string_bytes text)) }
        ensures err { IfErr result IsWant }
        ensures halt { IfErr result
            (IfHalted (HaltsLive (live_value_of line) (view_of self.old.link.joint.client) (view_of self.new.link.joint.client))) }
        ensures begun { self.new.is_begun ≡ self.old.is_begun }
    {
        let mut text = String::new(alloc);
        match line {
            LiveLine::Resume(_) => {}
            LiveLine::Open => self
                .link
                .connect(alloc, self.dial, &mut self.ring, &mut text)?,
            LiveLine::Client(line) => return self.drive(alloc, line),
        }
        Ok(text)
    }

    /// Does what a line says, and gives what is to be printed. The first reason that applies refuses a line.
    #[tactic(auto, using(crate::proofs::LiveLemmas::took_none, crate::proofs::LiveLemmas::took))]
    fn read_line(&mut self, alloc: A, line: &[u8]) -> Result<String<A>, LineStop>
        ensures ok { IfOk result (λ text. TakesLine line.now (position_of D.Stream.remaining D.Stream.contents self.old)
            (position_of D.Stream.remaining D.Stream.contents self.new) (string_bytes text)) }
        ensures err { IfErr result (IsDueBy (says_at (words_of line.now) self.old.is_begun)) }
        ensures halt { IfErr result
            (IfHalted (HaltsLine line.now self.old.is_begun (view_of self.old.link.joint.client) (view_of self.new.link.joint.client))) }
    {
        let Some(line) = parse_live_line(alloc, line, self.is_begun)? else {
            return Ok(String::new(alloc));
        };
        self.is_begun = true;
        let text = self.act(alloc, line)?;
        Ok(text)
    }
}

impl<A: Allocator + Copy, D: Dial> LineReader<A> for Session<'_, A, D> {
    ghost Position = { Position };

    ghost rules = { rules };

    ghost stands = { λ session here. position_of D.Stream.remaining D.Stream.contents session ≡ here };

    fn read(&mut self, alloc: A, line: &[u8]) -> Result<String<A>, LineStop> {
        match self.read_line(alloc, line) {
            Ok(text) => Ok(text),
            Err(stop) => Err(stop),
        }
    }
}

/// The client that a line asks for, with no connection yet.
fn made<'a, A: Allocator + Copy, D: Dial>(
    alloc: A,
    dial: &'a mut D,
    addresses: &'a [&'a str],
    begin: BeginLine<A>,
) -> Result<Session<'a, A, D>, AllocError>
    requires { CanBegin (begin_value_of begin) }
    ensures view { IfOk result (λ session. view_of session.link.joint.client ≡ view_at (start_of (begin_value_of begin)) []) }
    ensures closed { IfOk result (λ session. is_some session.link.joint.stream ≡ false) }
    ensures begun { IfOk result (λ session. session.is_begun ≡ false) }
{
    let client = make_client(alloc, begin)?;
    Ok(Session {
        link: Link::new(alloc, client),
        dial,
        ring: Ring::new(addresses),
        is_begun: false,
    })
}

/// Connects a client, and reads lines.
fn connected<A: Allocator + Copy, D: Dial>(
    alloc: A,
    session: &mut Session<'_, A, D>,
    lines: &[&[u8]],
) -> Transcript<A>
    requires begun { session.old.is_begun ≡ false }
    requires closed { is_some session.old.link.joint.stream ≡ false }
    ensures { (begin : BeginValue) → begun_by (map (λ l. l.now) lines.now) ≡ Begins begin
        → view_of session.old.link.joint.client ≡ view_at (start_of begin) []
        → IsTranscript (map (λ l. l.now) lines.now) (string_bytes result.text) result.end }
{
    match session.act(alloc, LiveLine::Open) {
        Ok(text) => read_lines(alloc, session, lines, text),
        Err(stop) => nothing(alloc, end_at(0, stop)),
    }
}

/// Makes the client that was asked for, connects it, and reads lines.
fn live_from<A: Allocator + Copy, D: Dial>(
    alloc: A,
    dial: &mut D,
    addresses: &[&str],
    lines: &[&[u8]],
    begin: BeginLine<A>,
) -> Transcript<A>
    requires can { CanBegin (begin_value_of begin) }
    requires first { begun_by (map (λ l. l.now) lines.now) ≡ Begins (begin_value_of begin) }
    ensures { IsTranscript (map (λ l. l.now) lines.now) (string_bytes result.text) result.end }
{
    match made(alloc, dial, addresses, begin) {
        Ok(mut session) => {
            let transcript = connected(alloc, &mut session, lines);
            drop(session);
            transcript
        }
        Err(_) => nothing(alloc, ScriptEnd::Memory),
    }
}

/// Makes the client that lines ask for, connects it, and reads them.
fn live_lines<A: Allocator + Copy, D: Dial>(
    alloc: A,
    dial: &mut D,
    addresses: &[&str],
    lines: &[&[u8]],
) -> Transcript<A>
    ensures { IsTranscript (map (λ l. l.now) lines.now) (string_bytes result.text) result.end }
{
    match begin_of(alloc, lines) {
        Ok(begin) => live_from(alloc, dial, addresses, lines, begin),
        Err(end) => nothing(alloc, end),
    }
}

/// Drives a client by a script, over connections to the addresses, which are tried in turn: what its lines print, and how they end.
///
/// The client asks for 30,000 milliseconds, or takes up the session that the first line says. It is connected before the lines
/// are read. After a call, bytes are read until its answer has come or the connection has ended. An address is dialled for the session's
/// timeout at most, and for a second if that is less. A read waits for the session's timeout, and for 30,000 milliseconds at least
/// while the client connects. A read or a write that fails, a read for which nothing comes in that time, and an end of the bytes is a
/// cut, and so is a wait of more than 1,000,000 pieces. Text comes with the transcript.
pub fn live<A: Allocator + Copy, D: Dial>(
    alloc: A,
    dial: &mut D,
    addresses: &[&str],
    script: &[u8],
) -> Transcript<A>
    ensures { IsTranscript (lines_of script.now) (string_bytes result.text) result.end }
{
    match lines_of(alloc, script) {
        Ok(lines) => live_lines(alloc, dial, addresses, lines.as_slice()),
        Err(_) => nothing(alloc, ScriptEnd::Memory),
    }
}
