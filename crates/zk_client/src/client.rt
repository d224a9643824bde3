//! The client.

ghost use Rattle.std.specs.Prelude.{◌≡◌, ◌≤◌, length, false};
ghost use Rattle.std.proofs.Props.{props};
ghost use Rattle.zk_limits.specs.declared.limits.TheConstants.{LONGEST_PASSWORD};
ghost use Rattle.zk_turns.specs.Taken.{longest};
ghost use Rattle.zk_client.specs.Sound.{IsSound, IsReading};

use crate::fault::Halt;
use crate::input::{Given, Input};
use crate::machine::Core;
use crate::output::Output;
use crate::turn::{known_of_given, turn};
use std::alloc::{AllocError, Allocator, Global};
use zk_cache::{Cache, Children, DataAnswer, Mark};
use zk_conversation::Conversation;
use zk_frames::{FrameLimits, FrameReader};
use zk_nodes::{Path, Side};
use zk_session::{Saved, Session, State};
use zk_turns::{first_view, one_forget, one_turn};
use zk_watches::Registry;

/// A client of one session: what it is told by [`Client::step`] moves it from connection to connection. It shows a view of nine
/// fields: its state, the saved session, the moments, what is pending, the bytes that are held, the next xid, the three lists of
/// watched paths, what is kept of each path and how long payloads may be.
#[derive(Drop)]
pub struct Client<A: Allocator + Copy = Global> {
    core: Core<A>,
    reader: FrameReader<A>,
    ghost sound: { core.halted ≡ false → IsSound core.session core.conversation core.registry } by { Prim.hlevel props },
    ghost reading: { core.halted ≡ false → IsReading (longest core.limits core.session.state) reader } by { Prim.hlevel props },
    ghost short: { length core.session.saved.session.password ≤ LONGEST_PASSWORD },
}

impl<A: Allocator + Copy> Client<A> {
    ghost use Rattle.std.specs.Prelude.{◌≡◌, ◌≤◌, ◌<◌, ◌^◌, ◌<ℤ◌, ◌≤ℤ◌, pos, unsigned_abs, length, ℕ, List, [], ◌∷◌, None, IfOk, IfSome};
    ghost use Rattle.std.specs.Prelude.{OnOk, OnErr, IsOk, IsErr, true, false, option_map};
    ghost use Rattle.zk_session.specs.Fields.{Saves};
    ghost use Rattle.zk_session.specs.declared.states.State.TheVariants.{Idle};
    ghost use Rattle.zk_limits.specs.declared.limits.TheConstants.{LONGEST_PASSWORD, MOST_PENDING};
    ghost use Rattle.zk_conversation.specs.Pending.{calls_pending};
    ghost use Rattle.zk_cache.specs.Contents.{answer_of, names_in};
    ghost use Rattle.zk_watches.specs.Lists.{side_has};
    ghost use Rattle.zk_turns.specs.Turns.{Start, Item, Turned, Forgets, Now, Bytes, new_start};
    ghost use Rattle.zk_turns.specs.View.{view_at};
    ghost use Rattle.zk_turns.specs.Taken.{NothingIsDue};
    ghost use Rattle.zk_turns.specs.Rule.{Rule, RuleAt, Stands, StandsAt, HaltsAs, HaltsAt, forgotten};
    ghost use Rattle.zk_client.specs.Views.{input_view, said, turn_of};
    ghost use Rattle.zk_client.specs.inner.Given.{given_view};
    ghost use Rattle.zk_client.specs.inner.Steps.{Adds};
    ghost use Rattle.zk_client.specs.Steps.{IsQuiet, IsQuietAt};
    ghost use Rattle.zk_turns.specs.Ranges.{IsResumable, IsTyped, AsksOf};
    ghost use Rattle.zk_client.specs.Clients.{view_of, saved_start, Tells};

    /// A client of no session yet, which asks for this timeout in milliseconds. It takes no memory.
    pub fn new(alloc: A, timeout_ms: i32) -> Client<A>
        requires { pos 0 <ℤ timeout_ms }
        ensures view { view_of result ≡ view_at (new_start (unsigned_abs timeout_ms)) [] }
        ensures stands { Stands (new_start (unsigned_abs timeout_ms)) [] (view_of result) }
        ensures resumable { IsResumable (new_start (unsigned_abs timeout_ms)) }
    {
        first_view();
        Client {
            core: Core {
                alloc,
                limits: FrameLimits::standard(),
                halted: false,
                session: Session::new(alloc, timeout_ms),
                earlier: None,
                conversation: Conversation::new(alloc),
                registry: Registry::new(alloc),
                cache: Cache::new(alloc),
            },
            reader: FrameReader::new(alloc),
        }
    }

    /// A client that takes up a saved session, with this timeout in milliseconds. It keeps no answers and watches nothing. An
    /// error says that there is no memory for the password.
    pub fn resume(alloc: A, timeout_ms: i32, saved: &Saved<'_>) -> Result<Client<A>, AllocError>
        requires timeout { pos 0 <ℤ timeout_ms }
        requires last { pos 0 ≤ℤ saved.now.last_zxid }
        requires password { length saved.now.password.now ≤ LONGEST_PASSWORD }
        ensures view { IfOk result (λ client. view_of client ≡ view_at (saved_start timeout_ms saved.now) []) }
        ensures stands { IfOk result (λ client. Stands (saved_start timeout_ms saved.now) [] (view_of client)) }
        ensures resumable { IfOk result (λ client. IsResumable (saved_start timeout_ms saved.now)) }
    {
        first_view();
        Ok(Client {
            core: Core {
                alloc,
                limits: FrameLimits::standard(),
                halted: false,
                session: Session::resume(alloc, timeout_ms, saved)?,
                earlier: None,
                conversation: Conversation::new(alloc),
                registry: Registry::new(alloc),
                cache: Cache::new(alloc),
            },
            reader: FrameReader::new(alloc),
        })
    }

    /// The same client with these limits of payloads. It has no connection yet: what comes on one is held to the limits with which
    /// it began. A limit above the standard one is of use only if the servers' `jute.maxbuffer` is as high.
    pub fn with_limits(self, limits: FrameLimits) -> Client<A>
        requires { (view_of self).standing.state ≡ Idle }
        ensures view { view_of result ≡ record (view_of self) { limits = limits } }
        ensures stands { (start : Start) → Stands start [] (view_of self) → Stands (record start { limits = limits }) [] (view_of result) }
    {
        let Client { mut core, reader } = self;
        core.limits = limits;
        Client { core, reader }
    }

    /// Takes an input, and gives the outputs that it makes due, in order. A turn is by the rule, so that the client stands where
    /// all its turns have led. It happens at the moment that was told last: [`step_at`](Client::step_at) tells it in the same call.
    ///
    /// An error says that memory ran out. The input is no turn then: nothing is kept and nothing is watched any more, the state, the
    /// saved session and the last seen zxid are those before the step, and each later step answers the same. An input without
    /// effect takes no memory.
    pub fn step(&mut self, input: Input<A>) -> Result<Vec<Output<A>, A>, Halt>
        ensures rule { IfOk result (λ outputs. Rule (view_of self.old) (turn_of input outputs.items) (view_of self.new)) }
        ensures stands { IfOk result (λ outputs. (start : Start) (items : List Item) → Stands start items (view_of self.old)
            → Stands start (Turned (turn_of input outputs.items) ∷ items) (view_of self.new)) }
        ensures typed { AsksOf IsTyped (input_view input) }
        ensures quiet { IsQuiet (view_of self.old) (input_view input) → IsOk result }
        ensures halt { OnErr result (HaltsAs (view_of self.old) (view_of self.new)) }
        ensures halted { (view_of self.old).standing.halted ≡ true → IsErr result }
    {
        let mut outputs = Vec::new(self.core.alloc);
        self.step_into(input, &mut outputs)?;
        Ok(outputs)
    }

    /// [`step`](Client::step), whose outputs take the place of those that were given, in the same room. After an error there are none.
    pub fn step_into(
        &mut self,
        input: Input<A>,
        outputs: &mut Vec<Output<A>, A>,
    ) -> Result<(), Halt>
        ensures rule { OnOk result (Rule (view_of self.old) (turn_of input outputs.new.items) (view_of self.new)) }
        ensures stands { OnOk result ((start : Start) (items : List Item) → Stands start items (view_of self.old)
            → Stands start (Turned (turn_of input outputs.new.items) ∷ items) (view_of self.new)) }
        ensures typed { AsksOf IsTyped (input_view input) }
        ensures quiet { IsQuiet (view_of self.old) (input_view input) → IsOk result }
        ensures halt { OnErr result (HaltsAs (view_of self.old) (view_of self.new)) }
        ensures silent { OnErr result (outputs.new.items ≡ []) }
        ensures halted { (view_of self.old).standing.halted ≡ true → IsErr result }
    {
        one_turn();
        outputs.clear();
        let taken = self.apply(Given::Input(input), outputs);
        if taken.is_err() {
            outputs.clear();
        }
        taken
    }

    /// Takes the moment, and nothing else: [`step_into`](Client::step_into) of [`Input::Now`], for a program that tells it often.
    pub fn tick_into(&mut self, now: u64, outputs: &mut Vec<Output<A>, A>) -> Result<(), Halt>
        ensures rule { OnOk result (Rule (view_of self.old) (turn_of (Input.Now now) outputs.new.items) (view_of self.new)) }
        ensures stands { OnOk result ((start : Start) (items : List Item) → Stands start items (view_of self.old)
            → Stands start (Turned (turn_of (Input.Now now) outputs.new.items) ∷ items) (view_of self.new)) }
        ensures quiet { IsQuiet (view_of self.old) (Now now) → IsOk result }
        ensures halt { OnErr result (HaltsAs (view_of self.old) (view_of self.new)) }
        ensures silent { OnErr result (outputs.new.items ≡ []) }
        ensures halted { (view_of self.old).standing.halted ≡ true → IsErr result }
    {
        one_turn();
        outputs.clear();
        let taken = self.apply(Given::Input(Input::Now(now)), outputs);
        if taken.is_err() {
            outputs.clear();
        }
        taken
    }

    /// Takes an input that is noticed at this moment, and gives the outputs of both, in order: two turns in one call, the moment
    /// first. So what the input brings is heard, and what it asks for is sent, at its own moment, and a connection is given up for
    /// silence alone.
    ///
    /// Moments are milliseconds of a clock that does not go back; one below an earlier one counts as the earlier one. Hand in
    /// [`Input::Cut`] before [`Input::Opened`] where a connection is open still: what the moment makes due would be for the old one.
    /// An error is that of [`step`](Client::step): memory ran out; if it came at the input, the moment was a turn, whose outputs are gone.
    pub fn step_at(&mut self, now: u64, input: Input<A>) -> Result<Vec<Output<A>, A>, Halt>
        ensures rule { IfOk result (λ outputs. RuleAt now (view_of self.old) (turn_of input outputs.items) (view_of self.new)) }
        ensures stands { IfOk result (λ outputs. (start : Start) (items : List Item) → Stands start items (view_of self.old)
            → StandsAt start items now (turn_of input outputs.items) (view_of self.new)) }
        ensures typed { AsksOf IsTyped (input_view input) }
        ensures quiet { IsQuietAt (view_of self.old) now (input_view input) → IsOk result }
        ensures halt { OnErr result (HaltsAt now (view_of self.old) (view_of self.new)) }
        ensures halted { (view_of self.old).standing.halted ≡ true → IsErr result }
    {
        let mut outputs = Vec::new(self.core.alloc);
        self.step_at_into(now, input, &mut outputs)?;
        Ok(outputs)
    }

    /// [`step_at`](Client::step_at), whose outputs take the place of those that were given, in the same room. After an error there
    /// are none.
    pub fn step_at_into(
        &mut self,
        now: u64,
        input: Input<A>,
        outputs: &mut Vec<Output<A>, A>,
    ) -> Result<(), Halt>
        ensures rule { OnOk result (RuleAt now (view_of self.old) (turn_of input outputs.new.items) (view_of self.new)) }
        ensures stands { OnOk result ((start : Start) (items : List Item) → Stands start items (view_of self.old)
            → StandsAt start items now (turn_of input outputs.new.items) (view_of self.new)) }
        ensures typed { AsksOf IsTyped (input_view input) }
        ensures quiet { IsQuietAt (view_of self.old) now (input_view input) → IsOk result }
        ensures halt { OnErr result (HaltsAt now (view_of self.old) (view_of self.new)) }
        ensures silent { OnErr result (outputs.new.items ≡ []) }
        ensures halted { (view_of self.old).standing.halted ≡ true → IsErr result }
    {
        outputs.clear();
        let taken = self.take_at(now, Given::Input(input), outputs);
        if taken.is_err() {
            outputs.clear();
        }
        taken
    }

    /// [`step_at_into`](Client::step_at_into) of bytes that are lent: they are copied into room that the client keeps.
    pub fn bytes_at_into(
        &mut self,
        now: u64,
        bytes: &[u8],
        outputs: &mut Vec<Output<A>, A>,
    ) -> Result<(), Halt>
        ensures rule { OnOk result
            (RuleAt now (view_of self.old) (record { input = Bytes bytes.now; outputs = said outputs.new.items }) (view_of self.new)) }
        ensures stands { OnOk result ((start : Start) (items : List Item) → Stands start items (view_of self.old)
            → StandsAt start items now (record { input = Bytes bytes.now; outputs = said outputs.new.items }) (view_of self.new)) }
        ensures quiet { IsQuietAt (view_of self.old) now (Bytes bytes.now) → IsOk result }
        ensures halt { OnErr result (HaltsAt now (view_of self.old) (view_of self.new)) }
        ensures silent { OnErr result (outputs.new.items ≡ []) }
        ensures halted { (view_of self.old).standing.halted ≡ true → IsErr result }
    {
        outputs.clear();
        let taken = self.take_at(now, Given::Lent(bytes), outputs);
        if taken.is_err() {
            outputs.clear();
        }
        taken
    }

    /// Makes room for bytes of this length: [`bytes_at_into`](Client::bytes_at_into) copies them into it. An error says that there is
    /// no memory for it.
    pub fn reserve(&mut self, length: usize) -> Result<(), AllocError>
        ensures { self.new ≡ self.old }
    {
        self.reader.reserve(length)
    }

    /// Takes the moment, and then what is given, and adds the outputs that they make due to none.
    fn take_at(
        &mut self,
        now: u64,
        given: Given<'_, A>,
        outputs: &mut Vec<Output<A>, A>,
    ) -> Result<(), Halt>
        requires { outputs.old.items ≡ [] }
        ensures rule { OnOk result
            (RuleAt now (view_of self.old) (record { input = given_view given.entry; outputs = said outputs.new.items })
            (view_of self.new)) }
        ensures stands { OnOk result ((start : Start) (items : List Item) → Stands start items (view_of self.old)
            → StandsAt start items now (record { input = given_view given.entry; outputs = said outputs.new.items }) (view_of self.new)) }
        ensures typed { AsksOf IsTyped (given_view given.entry) }
        ensures quiet { IsQuietAt (view_of self.old) now (given_view given.entry) → IsOk result }
        ensures halt { OnErr result (HaltsAt now (view_of self.old) (view_of self.new)) }
        ensures halted { (view_of self.old).standing.halted ≡ true → IsErr result }
    {
        known_of_given(&given);
        self.apply(Given::Input(Input::Now(now)), outputs)?;
        self.apply(given, outputs)
    }

    /// Takes what is given, and adds the outputs that it makes due.
    #[inline(always)]
    fn apply(&mut self, given: Given<'_, A>, outputs: &mut Vec<Output<A>, A>) -> Result<(), Halt>
        ensures rule { OnOk result
            (Adds (view_of self.old) (given_view given.entry) (said outputs.old.items) (said outputs.new.items) (view_of self.new)) }
        ensures typed { AsksOf IsTyped (given_view given.entry) }
        ensures quiet { IsQuiet (view_of self.old) (given_view given.entry) → IsOk result }
        ensures halt { OnErr result (HaltsAs (view_of self.old) (view_of self.new)) }
        ensures halted { (view_of self.old).standing.halted ≡ true → IsErr result }
    {
        let state = self.core.session.state();
        let last = self.core.session.last_zxid();
        known_of_given(&given);
        self.core.earlier = None;
        if self.core.halted {
            drop(given);
            self.core.halt(state, last);
            return Err(Halt);
        }
        let Ok(()) = turn(&mut self.core, &mut self.reader, given, outputs) else {
            self.core.halt(state, last);
            return Err(Halt);
        };
        Ok(())
    }

    /// The first moment at which something is due: at the latest then a program has to tell the client the moment, by
    /// [`Input::Now`] or with an input. A ping falls due a third of the timeout after the last frame that was sent; two thirds
    /// after the last byte that was heard, the connection is given up. It is 0 where something is due already, and none where
    /// nothing will be: with no connection, or after a halt.
    pub fn deadline(&self) -> Option<u64>
        ensures before { IfSome result (λ first. (moment : ℕ) → moment < first → NothingIsDue (view_of self.now) moment) }
        ensures due { IfSome result (λ first. ¬ (NothingIsDue (view_of self.now) first)) }
        ensures never { result ≡ None → (moment : ℕ) → moment < 2 ^ 64 → NothingIsDue (view_of self.now) moment }
    {
        if !self.core.halted {
            self.core.session.deadline()
        } else {
            None
        }
    }

    /// The timeout of the session, in milliseconds: the one that a server granted last, and before any has, the one to ask for.
    pub fn timeout_ms(&self) -> u32
        ensures { result ≡ (view_of self.now).saved.session.timeout }
    {
        self.core.session.timeout_ms()
    }

    /// What is kept about the data of a path. It takes no memory.
    pub fn peek_data(&self, path: &Path<A>) -> Option<(&DataAnswer<A>, Mark)>
        ensures { option_map (λ kept. record { answer = answer_of kept.0.now; mark = kept.1 }) result
            ≡ (view_of self.now).cache.nodes path.now }
    {
        self.core.cache.peek_data(path.as_str())
    }

    /// What is kept about the children of a path. It takes no memory.
    pub fn peek_children(&self, path: &Path<A>) -> Option<(&Children<A>, Mark)>
        ensures { option_map (λ kept. record { answer = names_in kept.0.now; mark = kept.1 }) result
            ≡ (view_of self.now).cache.children path.now }
    {
        self.core.cache.peek_children(path.as_str())
    }

    /// What is kept about the data of the path with this text, as [`Client::peek_data`] tells it. Whether it is a path's is not
    /// looked at. It takes no memory.
    pub fn peek_data_at(&self, text: &str) -> Option<(&DataAnswer<A>, Mark)>
        ensures { option_map (λ kept. record { answer = answer_of kept.0.now; mark = kept.1 }) result
            ≡ (view_of self.now).cache.nodes text.now }
    {
        self.core.cache.peek_data(text)
    }

    /// What is kept about the children of the path with this text, as [`Client::peek_children`] tells it. Whether it is a path's is
    /// not looked at. It takes no memory.
    pub fn peek_children_at(&self, text: &str) -> Option<(&Children<A>, Mark)>
        ensures { option_map (λ kept. record { answer = names_in kept.0.now; mark = kept.1 }) result
            ≡ (view_of self.now).cache.children text.now }
    {
        self.core.cache.peek_children(text)
    }

    /// Whether this side of a path is watched: a report of it is to come before it changes. It takes no memory.
    pub fn is_watched(&self, side: Side, path: &Path<A>) -> bool
        ensures { result ≡ side_has (view_of self.now).lists side path.now }
    {
        self.core.registry.contains(side, path.as_str())
    }

    /// How long payloads may be.
    pub fn limits(&self) -> FrameLimits
        ensures { result ≡ (view_of self.now).limits }
    {
        self.core.limits
    }

    /// How many calls wait for their replies: [`MOST_PENDING`](crate::MOST_PENDING) at most. It takes constant time.
    pub fn pending_calls(&self) -> u32
        ensures count { result ≡ calls_pending (view_of self.now).pending }
        ensures most { result ≤ MOST_PENDING }
    {
        self.core.conversation.pending().calls
    }

    /// The greatest zxid seen: of the replies, and of the saved session.
    pub fn last_zxid(&self) -> i64
        ensures { result ≡ (view_of self.now).saved.last }
    {
        self.core.session.last_zxid()
    }

    /// Where the client stands.
    pub fn state(&self) -> State
        ensures { result ≡ (view_of self.now).standing.state }
    {
        self.core.session.state()
    }

    /// What another client can be resumed from.
    pub fn saved(&self) -> Saved<'_>
        ensures tells { Tells (view_of self.now).saved result }
        ensures password { length result.password.now ≤ LONGEST_PASSWORD }
        ensures last { pos 0 ≤ℤ result.last_zxid }
    {
        let _last = self.core.session.last_zxid();
        self.core.session.saved()
    }

    /// Takes the stale answers out. It takes no memory.
    pub fn forget_stale(&mut self)
        ensures view { view_of self.new ≡ record (view_of self.old) { cache = forgotten (view_of self.old).cache } }
        ensures stands { (start : Start) (items : List Item) → Stands start items (view_of self.old)
            → Stands start (Forgets ∷ items) (view_of self.new) }
    {
        one_forget();
        self.core.forget_stale();
    }
}
