//! A client and the connection that it has.

ghost use Rattle.std.specs.Prelude.{◌≡◌, ◌≤◌, [], ◌∷◌, true, false, is_some, IfErr, IfOk, IsOk, OnOk, string_bytes};
ghost use Rattle.zk_conversation.specs.Views.{call_view};
ghost use Rattle.zk_client.specs.Clients.{view_of};
ghost use Rattle.zk_client.specs.Views.{input_view};
ghost use Rattle.zk_turns.specs.Turns.{Call, Cut, Opened};
ghost use Rattle.script_words.specs.Stops.{IfHalted, IsWant};
ghost use Rattle.script_live.specs.Flowing.{flow_of, holding, piece_in, Carries, Reads};
ghost use Rattle.script_live.specs.inner.Flowing.{piece_bytes};
ghost use Rattle.script_live.specs.Heard.{is_waiting, tape, Awaits, Brings, Connects, Halts, HaltsAmong, HaltsAwaiting};
ghost use Rattle.script_live.specs.inner.Heard.{HaltsBrought};
ghost use Rattle.script_live.specs.Heard.{HaltsConnecting, Hears, MayEnd, Takes};
ghost use Rattle.script_live.specs.Printed.{HandsThen, Prints};

use crate::heard::{cut, printed_step};
use crate::joint::Joint;
use crate::ring::Ring;
use script_replay::call_line::AskedCall;
use script_words::stop::LineStop;
use std::alloc::{AllocError, Allocator};
use zk_client::{Client, Input, Output};
use zk_link::{Brought, Dial, Stream};
use zk_session::State;

/// The most pieces that are read for one line.
const PIECES: u32 = 1_000_000;

/// How many milliseconds a read waits at least while the client connects: the timeout that is asked for.
const CONNECTING_MS: u64 = 30_000;

/// The shortest time that an attempt to connect has, in milliseconds.
const SHORTEST_DIAL_MS: u64 = 1_000;

/// A client, and its connection, if it has one.
#[derive(Drop)]
pub struct Link<A: Allocator + Copy, S: Drop> {
    pub joint: Joint<A, S>,
}

/// Whether an output answers the call with this ticket.
fn is_answer<A: Allocator>(output: &Output<A>, asked: u64) -> bool {
    match output {
        Output::Answer { ticket, .. } => *ticket == asked,
        _ => false,
    }
}

/// Whether one of the outputs does.
fn has_answer<A: Allocator>(outputs: &[Output<A>], asked: u64) -> bool {
    outputs.iter().any(|output| is_answer(output, asked))
}

/// The piece that a connection has brought, or none if it has ended, or brought nothing in time.
fn piece_of<A: Allocator>(
    brought: Result<Brought<A>, AllocError>,
) -> Result<Option<Vec<u8, A>>, AllocError>
    ensures { IfOk result (λ piece. IsOk brought × IfOk brought (λ b. piece_bytes piece ≡ piece_in b)) }
{
    match brought? {
        Brought::Piece(bytes) => Ok(Some(bytes)),
        Brought::Nothing | Brought::End => Ok(None),
    }
}

impl<A: Allocator + Copy, S: Stream> Link<A, S> {
    /// A client with no connection yet.
    pub fn new(alloc: A, client: Client<A>) -> Link<A, S>
        ensures client { view_of result.joint.client ≡ view_of client }
        ensures closed { is_some result.joint.stream ≡ false }
    {
        Link {
            joint: Joint::new(alloc, client),
        }
    }

    /// The connection ends.
    pub fn cut(&mut self, alloc: A, text: &mut String<A>) -> Result<(), LineStop>
        ensures ok { OnOk result (Hears (tape (view_of self.old.joint.client) (string_bytes text.old)) Cut
            (tape (view_of self.new.joint.client) (string_bytes text.new))) }
        ensures flows { OnOk result (Prints (flow_of S.remaining S.contents self.old.joint) (flow_of S.remaining S.contents self.new.joint)
            (string_bytes text.old) (string_bytes text.new)) }
        ensures shut { OnOk result (is_some self.new.joint.stream ≡ false) }
        ensures err { IfErr result IsWant }
        ensures halt { IfErr result (IfHalted (Halts (tape (view_of self.old.joint.client) (string_bytes text.old)) Cut
            (tape (view_of self.new.joint.client) (string_bytes text.new)))) }
    {
        cut(alloc, &mut self.joint, text)
    }

    /// Ends the connection, if it is over.
    #[tactic(auto, using(crate::proofs::Printing::prints_none))]
    fn end_if(&mut self, is_over: bool, alloc: A, text: &mut String<A>) -> Result<(), LineStop>
        ensures ok { OnOk result (MayEnd (tape (view_of self.old.joint.client) (string_bytes text.old))
            (tape (view_of self.new.joint.client) (string_bytes text.new))) }
        ensures flows { OnOk result (Prints (flow_of S.remaining S.contents self.old.joint) (flow_of S.remaining S.contents self.new.joint)
            (string_bytes text.old) (string_bytes text.new)) }
        ensures shut { is_over ≡ true → OnOk result (is_some self.new.joint.stream ≡ false) }
        ensures same { is_over ≡ false → self.new ≡ self.old }
        ensures err { IfErr result IsWant }
        ensures halt { IfErr result (IfHalted (Halts (tape (view_of self.old.joint.client) (string_bytes text.old)) Cut
            (tape (view_of self.new.joint.client) (string_bytes text.new)))) }
    {
        if !is_over {
            return Ok(());
        }
        self.cut(alloc, text)
    }

    /// Hands the client an input, and the connection what goes to the server. If that is not written, the connection ends.
    pub fn step(
        &mut self,
        alloc: A,
        input: Input<A>,
        text: &mut String<A>,
    ) -> Result<Vec<Output<A>, A>, LineStop>
        ensures ok { OnOk result (Takes (tape (view_of self.old.joint.client) (string_bytes text.old)) (input_view input)
            (tape (view_of self.new.joint.client) (string_bytes text.new))) }
        ensures flows { OnOk result (HandsThen (input_view input) (flow_of S.remaining S.contents self.old.joint)
            (flow_of S.remaining S.contents self.new.joint) (string_bytes text.old) (string_bytes text.new)) }
        ensures err { IfErr result IsWant }
        ensures halt { IfErr result (IfHalted (HaltsAmong (tape (view_of self.old.joint.client) (string_bytes text.old))
            (input_view input ∷ Cut ∷ []) (tape (view_of self.new.joint.client) (string_bytes text.new)))) }
    {
        let heard = printed_step(alloc, &mut self.joint, input, text)?;
        self.end_if(!heard.is_well, alloc, text)?;
        Ok(heard.outputs)
    }

    /// How many milliseconds a read may wait: the session's timeout. While the client connects it is at least the one that is asked for,
    /// since what a server granted before binds no other.
    fn longest_wait(&self) -> u64
        ensures least { 1 ≤ result }
        ensures connecting { is_waiting (view_of self.now.joint.client).standing.state ≡ true → 30000 ≤ result }
        ensures timeout { (view_of self.now.joint.client).saved.session.timeout ≤ result }
    {
        let timeout = u64::from(self.joint.client.timeout_ms()).max(1);
        if self.is_connecting() {
            return timeout.max(CONNECTING_MS);
        }
        timeout
    }

    /// How many milliseconds an attempt to connect may take: the session's timeout, and at least a second.
    fn longest_dial(&self) -> u64 {
        u64::from(self.joint.client.timeout_ms()).max(SHORTEST_DIAL_MS)
    }

    /// The next piece of the connection, or none if it has ended, or brings nothing in time.
    fn next_piece(&mut self) -> Result<Option<Vec<u8, A>>, AllocError>
        ensures view { view_of self.new.joint.client ≡ view_of self.old.joint.client }
        ensures flows { IfOk result (λ piece. Carries (flow_of S.remaining S.contents self.old.joint) Reads
            (holding (piece_bytes piece) (flow_of S.remaining S.contents self.new.joint))) }
    {
        let wait = self.longest_wait();
        let brought = self.joint.read(wait);
        piece_of(brought)
    }

    /// Hands the client what the connection brings next. One that brings nothing in time ends.
    fn bring(&mut self, alloc: A, text: &mut String<A>) -> Result<Vec<Output<A>, A>, LineStop>
        ensures ok { OnOk result (Brings (tape (view_of self.old.joint.client) (string_bytes text.old))
            (tape (view_of self.new.joint.client) (string_bytes text.new))) }
        ensures flows { OnOk result (Prints (flow_of S.remaining S.contents self.old.joint) (flow_of S.remaining S.contents self.new.joint)
            (string_bytes text.old) (string_bytes text.new)) }
        ensures err { IfErr result IsWant }
        ensures halt { IfErr result (IfHalted (HaltsBrought (tape (view_of self.old.joint.client) (string_bytes text.old))
            (tape (view_of self.new.joint.client) (string_bytes text.new)))) }
    {
        match self.next_piece()? {
            Some(bytes) => {
                let outputs = self.step(alloc, Input::Bytes(bytes), text)?;
                Ok(outputs)
            }
            None => {
                self.cut(alloc, text)?;
                Ok(Vec::new(alloc))
            }
        }
    }

    /// Whether the server has not answered yet that a connection begins.
    fn is_connecting(&self) -> bool
        ensures { result ≡ is_waiting (view_of self.now.joint.client).standing.state }
    {
        matches!(self.joint.client.state(), State::Connecting)
    }

    /// Reads until the server has answered that a connection begins. By the last piece it ends.
    #[tactic(auto, using(crate::proofs::HeardLemmas::nothing, crate::proofs::Printing::prints_none))]
    fn settle(&mut self, alloc: A, text: &mut String<A>) -> Result<(), LineStop>
        ensures ok { OnOk result (Brings (tape (view_of self.old.joint.client) (string_bytes text.old))
            (tape (view_of self.new.joint.client) (string_bytes text.new))) }
        ensures settled { OnOk result (is_waiting (view_of self.new.joint.client).standing.state ≡ false) }
        ensures flows { OnOk result (Prints (flow_of S.remaining S.contents self.old.joint) (flow_of S.remaining S.contents self.new.joint)
            (string_bytes text.old) (string_bytes text.new)) }
        ensures err { IfErr result IsWant }
        ensures halt { IfErr result (IfHalted (HaltsBrought (tape (view_of self.old.joint.client) (string_bytes text.old))
            (tape (view_of self.new.joint.client) (string_bytes text.new)))) }
    {
        for _ in 0..PIECES {
            if !self.is_connecting() {
                return Ok(());
            }
            self.bring(alloc, text)?;
        }
        if !self.is_connecting() {
            return Ok(());
        }
        self.cut(alloc, text)?;
        Ok(())
    }

    /// Reads until the call with this ticket is answered, or the connection has ended. By the last piece it ends.
    #[tactic(auto, using(crate::proofs::HeardLemmas::nothing, crate::proofs::Printing::prints_none))]
    fn wait(
        &mut self,
        alloc: A,
        ticket: u64,
        first: Vec<Output<A>, A>,
        text: &mut String<A>,
    ) -> Result<(), LineStop>
        ensures ok { OnOk result (Brings (tape (view_of self.old.joint.client) (string_bytes text.old))
            (tape (view_of self.new.joint.client) (string_bytes text.new))) }
        ensures flows { OnOk result (Prints (flow_of S.remaining S.contents self.old.joint) (flow_of S.remaining S.contents self.new.joint)
            (string_bytes text.old) (string_bytes text.new)) }
        ensures err { IfErr result IsWant }
        ensures halt { IfErr result (IfHalted (HaltsBrought (tape (view_of self.old.joint.client) (string_bytes text.old))
            (tape (view_of self.new.joint.client) (string_bytes text.new)))) }
    {
        let mut outputs = first;
        for _ in 0..PIECES {
            if !self.joint.is_open() || has_answer(outputs.as_slice(), ticket) {
                return Ok(());
            }
            outputs = self.bring(alloc, text)?;
        }
        if !self.joint.is_open() || has_answer(outputs.as_slice(), ticket) {
            return Ok(());
        }
        self.cut(alloc, text)?;
        Ok(())
    }

    /// Asks the server, and waits for its answer.
    pub fn ask(
        &mut self,
        alloc: A,
        asked: AskedCall<A>,
        text: &mut String<A>,
    ) -> Result<(), LineStop>
        ensures ok { OnOk result (Awaits (tape (view_of self.old.joint.client) (string_bytes text.old))
            (Call asked.ticket (call_view asked.call)) (tape (view_of self.new.joint.client) (string_bytes text.new))) }
        ensures flows { OnOk result (Prints (flow_of S.remaining S.contents self.old.joint) (flow_of S.remaining S.contents self.new.joint)
            (string_bytes text.old) (string_bytes text.new)) }
        ensures err { IfErr result IsWant }
        ensures halt { IfErr result (IfHalted (HaltsAwaiting (tape (view_of self.old.joint.client) (string_bytes text.old))
            (Call asked.ticket (call_view asked.call)) (tape (view_of self.new.joint.client) (string_bytes text.new)))) }
    {
        let ticket = asked.ticket;
        let outputs = self.step(alloc, Input::Call(ticket, asked.call), text)?;
        self.wait(alloc, ticket, outputs, text)?;
        Ok(())
    }

    /// Ends the connection that is there, and begins one with the next address that connects.
    #[tactic(auto, using(crate::proofs::HeardLemmas::fails, crate::proofs::Printing::prints_down))]
    pub fn connect<D: Dial<Stream = S>>(
        &mut self,
        alloc: A,
        dial: &mut D,
        ring: &mut Ring<'_>,
        text: &mut String<A>,
    ) -> Result<(), LineStop>
        ensures ok { OnOk result (Connects (tape (view_of self.old.joint.client) (string_bytes text.old))
            (tape (view_of self.new.joint.client) (string_bytes text.new))) }
        ensures flows { OnOk result (Prints (flow_of S.remaining S.contents self.old.joint) (flow_of S.remaining S.contents self.new.joint)
            (string_bytes text.old) (string_bytes text.new)) }
        ensures err { IfErr result IsWant }
        ensures halt { IfErr result (IfHalted (HaltsConnecting (tape (view_of self.old.joint.client) (string_bytes text.old))
            (tape (view_of self.new.joint.client) (string_bytes text.new)))) }
    {
        let is_open = self.joint.is_open();
        self.end_if(is_open, alloc, text)?;
        let within = self.longest_dial();
        let Some(stream) = ring.connect(dial, within) else {
            text.push_str("down\n")?;
            return Ok(());
        };
        self.joint.hold(stream);
        self.step(alloc, Input::Opened, text)?;
        self.settle(alloc, text)?;
        Ok(())
    }
}
