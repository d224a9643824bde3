//! A client and the connection that it has: one input at a time.

ghost use Rattle.std.specs.Prelude.{◌≡◌, ◌≢◌, ◌++◌, [], false, true, is_some, IfErr, IfOk, OnOk};
ghost use Rattle.std.specs.List.{filter};
ghost use Rattle.zk_turns.specs.Turns.{Cut};
ghost use Rattle.zk_client.specs.Clients.{view_of};
ghost use Rattle.zk_client.specs.Views.{input_view, said};
ghost use Rattle.script_words.specs.declared.stop.LineStop.TheVariants.{Memory};
ghost use Rattle.zk_link.specs.Written.{IsLeftOf};
ghost use Rattle.script_live.specs.Exchanged.{known_of, Exchanges};
ghost use Rattle.script_live.specs.Flowing.{flow_of, piece_in, Cuts, Delivers, HoldsSo};
ghost use Rattle.script_live.specs.Frames.{frames};
ghost use Rattle.script_live.specs.Trails.{bare_of, is_given, kept, trail_of, Fails, Hears, IsLoud};

use crate::bring::{bring, make_room};
use crate::give::{give, has_end};
use crate::send::{queue, send};
use script_words::stop::LineStop;
use std::alloc::{AllocError, Allocator};
use zk_client::{Client, Input, Output};
use zk_link::{Brought, Stream};

/// How long a read may wait, in milliseconds, while bytes are left to be written.
const PRESSED_WAIT: u64 = 10;

/// A client, and its connection, if it has one.
#[derive(Drop)]
pub struct Joint<A: Allocator + Copy, S: Drop> {
    /// The client. What it says is done if [`step`](Joint::step) hands it an input.
    pub client: Client<A>,
    pub(crate) stream: Option<S>,
    alloc: A,
    room: Vec<u8, A>,
    unsent: Vec<u8, A>,
}

impl<A: Allocator + Copy, S: Stream> Joint<A, S> {
    /// A client with no connection yet.
    pub fn new(alloc: A, client: Client<A>) -> Joint<A, S>
        ensures client { view_of result.client ≡ view_of client }
        ensures closed { is_some result.stream ≡ false }
    {
        Joint {
            client,
            stream: None,
            alloc,
            room: Vec::new(alloc),
            unsent: Vec::new(alloc),
        }
    }

    /// Whether there is a connection.
    pub fn is_open(&self) -> bool
        ensures { result ≡ is_some self.now.stream }
    {
        self.stream.is_some()
    }

    /// Takes a connection that begins; one that is there is let go, and what is left to be written to it is forgotten. It is on the caller
    /// to tell the client, by [`Input::Opened`].
    pub fn hold(&mut self, stream: S)
        ensures trail { bare_of self.new ≡ record (bare_of self.old) { is_open = true } }
        ensures unsent { self.new.unsent.items ≡ [] }
        ensures flows { HoldsSo (flow_of S.remaining S.contents self.old) (flow_of S.remaining S.contents self.new) }
    {
        self.unsent.clear();
        self.stream = Some(stream);
    }

    /// Whether bytes are left to be written: the connection took less than there was for it.
    pub fn is_pressed(&self) -> bool
        ensures yes { result ≡ true → self.now.unsent.items ≢ [] }
        ensures no { result ≡ false → self.now.unsent.items ≡ [] }
    {
        !self.unsent.is_empty()
    }

    /// Writes what is left to be written, as much as the connection takes for now, and reads once: for `ms` milliseconds, or for 10 at
    /// most while bytes are left.
    fn exchange(&mut self, ms: u64) -> Result<Brought<A>, AllocError>
        ensures trail { bare_of self.new ≡ bare_of self.old }
        ensures unsent { IsLeftOf self.old.unsent.items self.new.unsent.items }
        ensures whole { IfOk result (λ brought. Exchanges self.old.unsent.items self.new.unsent.items
            (known_of S.remaining S.contents self.old.stream) (known_of S.remaining S.contents self.new.stream) (piece_in brought)) }
        ensures apart { is_some self.old.stream ≡ false → IfOk result (λ brought. piece_in brought ≡ []) }
    {
        make_room(&mut self.room)?;
        let Some(stream) = &mut self.stream else {
            return Ok(Brought::End);
        };
        if !send(stream, &mut self.unsent) {
            return Ok(Brought::End);
        }
        let wait = if self.unsent.is_empty() {
            ms
        } else {
            ms.min(PRESSED_WAIT)
        };
        bring(self.alloc, stream, &mut self.room, wait)
    }

    /// What the connection brings within `ms` milliseconds, at least 1, and a tenth longer and 2 if it takes nothing of what is left
    /// to be written. If there is none, it is over. Of what is left to be written the first bytes alone may be gone after it.
    pub fn read(&mut self, ms: u64) -> Result<Brought<A>, AllocError>
        ensures trail { bare_of self.new ≡ bare_of self.old }
        ensures unsent { IsLeftOf self.old.unsent.items self.new.unsent.items }
        ensures whole { IfOk result (λ brought. Exchanges self.old.unsent.items self.new.unsent.items
            (known_of S.remaining S.contents self.old.stream) (known_of S.remaining S.contents self.new.stream) (piece_in brought)) }
        ensures apart { is_some self.old.stream ≡ false → IfOk result (λ brought. piece_in brought ≡ []) }
    {
        let mut left = ms;
        for _ in 0..ms / PRESSED_WAIT {
            if !self.is_pressed() {
                break;
            }
            match self.exchange(PRESSED_WAIT)? {
                Brought::Nothing => left = left.saturating_sub(PRESSED_WAIT),
                brought => return Ok(brought),
            }
        }
        self.exchange(left.max(1))
    }

    /// Puts what goes to the server after what is left to be written, if there is a connection, and writes as much as it takes for now.
    /// Whether the connection has not failed.
    fn write(&mut self, outputs: &[Output<A>]) -> Result<bool, AllocError>
        ensures client { self.new.client ≡ self.old.client }
        ensures stream { is_some self.new.stream ≡ is_some self.old.stream }
        ensures kept { is_some self.old.stream ≡ true
            → OnOk result (IsLeftOf (self.old.unsent.items ++ frames (said outputs.now)) self.new.unsent.items) }
        ensures sends { is_some self.old.stream ≡ true
            → OnOk result (Exchanges (self.old.unsent.items ++ frames (said outputs.now)) self.new.unsent.items
            (known_of S.remaining S.contents self.old.stream) (known_of S.remaining S.contents self.new.stream) []) }
    {
        match &mut self.stream {
            Some(stream) => {
                queue(outputs, &mut self.unsent)?;
                Ok(send(stream, &mut self.unsent))
            }
            None => Ok(true),
        }
    }

    /// Lets the connection go that is over with one of the outputs.
    fn let_go(&mut self, outputs: &[Output<A>])
        ensures client { self.new.client ≡ self.old.client }
        ensures stream { is_some self.new.stream ≡ kept (said outputs.now) (is_some self.old.stream) }
        ensures same { is_some self.new.stream ≡ true → self.new.stream ≡ self.old.stream }
        ensures unsent { self.new.unsent ≡ self.old.unsent }
    {
        if has_end(outputs) {
            self.stream = None;
        }
    }

    /// Does what a client says: what goes to the server is written, the connection that is over with an output is let go, and the rest is
    /// given. Whether the connection has not failed.
    fn deliver(
        &mut self,
        made: Vec<Output<A>, A>,
        outputs: &mut Vec<Output<A>, A>,
    ) -> Result<bool, LineStop>
        ensures client { self.new.client ≡ self.old.client }
        ensures stream { is_some self.new.stream ≡ kept (said made.items) (is_some self.old.stream) }
        ensures given { OnOk result (said outputs.new.items ≡ said outputs.old.items ++ filter is_given (said made.items)) }
        ensures sends { is_some self.new.stream ≡ true
            → OnOk result (Exchanges (self.old.unsent.items ++ frames (said made.items)) self.new.unsent.items
            (known_of S.remaining S.contents self.old.stream) (known_of S.remaining S.contents self.new.stream) []) }
        ensures err { IfErr result (λ stop. (stop ≡ Memory) × (outputs.new.items ≡ outputs.old.items)) }
    {
        let written = self.write(made.as_slice());
        self.let_go(made.as_slice());
        let Ok(is_well) = written else {
            return Err(LineStop::Memory);
        };
        match give(made, outputs) {
            Ok(()) => Ok(is_well),
            Err(_) => Err(LineStop::Memory),
        }
    }

    /// Hands the client one input, and does what it says: what goes to the server is written, the connection that is over with an output
    /// is let go, and the rest is given, after what `outputs` has. Whether the connection has not failed: if it has, it is over, and
    /// [`cut`](Joint::cut) is due. What it does not take for now is written before the next reads. What a moment makes due is heard by
    /// [`Input::Now`].
    ///
    /// An error says that memory ran out, in the client, or for what is written or given. An input without effect halts no client.
    pub fn step(
        &mut self,
        input: Input<A>,
        outputs: &mut Vec<Output<A>, A>,
    ) -> Result<bool, LineStop>
        ensures ok { OnOk result (Hears (trail_of self.old outputs.old.items) (input_view input) (trail_of self.new outputs.new.items)) }
        ensures err { IfErr result (λ stop. Fails stop (trail_of self.old outputs.old.items) (trail_of self.new outputs.new.items)) }
        ensures flows { OnOk result (Delivers (input_view input) (said outputs.old.items) (said outputs.new.items)
            (flow_of S.remaining S.contents self.old) (flow_of S.remaining S.contents self.new)) }
        ensures loud { IfErr result (λ stop. IsLoud stop (view_of self.old.client) (input_view input)) }
    {
        let Ok(made) = self.client.step(input) else {
            return Err(LineStop::Halted);
        };
        self.deliver(made, outputs)
    }

    /// The connection is over: it is let go, if it is there still, and the client is told.
    pub fn cut(&mut self, outputs: &mut Vec<Output<A>, A>) -> Result<(), LineStop>
        ensures ok { OnOk result
            (Hears (record (trail_of self.old outputs.old.items) { is_open = false }) Cut (trail_of self.new outputs.new.items)) }
        ensures err { IfErr result (λ stop. Fails stop (trail_of self.old outputs.old.items) (trail_of self.new outputs.new.items)) }
        ensures flows { OnOk result (Cuts (said outputs.old.items) (said outputs.new.items) (flow_of S.remaining S.contents self.old)
            (flow_of S.remaining S.contents self.new)) }
        ensures loud { IfErr result (λ stop. IsLoud stop (view_of self.old.client) Cut) }
    {
        self.stream = None;
        self.step(Input::Cut, outputs)?;
        Ok(())
    }
}
