//! A client with what it is asked for its program: subjects that are followed, and calls.

ghost use Rattle.std.specs.Prelude.{All};
ghost use Rattle.std.proofs.Props.{props};
ghost use Rattle.zk_client.specs.Clients.{view_of};
ghost use Rattle.zk_agent.specs.inner.Calls.{IsAsked};

use crate::action::Action;
use crate::advancing::{advance, begin, hand_over};
use crate::calls::{close_calls, end_calls};
use crate::input::AgentInput;
use crate::moments::has_come;
use crate::replies::Heard;
use std::alloc::{AllocError, Allocator, Global};
use zk_calls::{Ending, Line};
use zk_client::{Call, Client, Input, Output, Path, Side};
use zk_follow::{Follower, FollowerStop};
use zk_trees::{TreeNews, Trees};

/// A client with what it is asked for its program: subjects that are followed, and calls. If a call counts as handed over, the client
/// waits for its reply.
#[derive(Drop)]
pub(crate) struct Asker<A: Allocator + Copy = Global> {
    alloc: A,
    pub(crate) follower: Follower<A>,
    pub(crate) line: Line<A>,
    /// Where the outputs of the client stand within a step.
    room: Vec<Output<A>, A>,
    ghost asked: { All (IsAsked (view_of follower.client)) line.entries.items } by { Prim.hlevel props },
}

impl<A: Allocator + Copy> Asker<A> {
    ghost use Rattle.std.specs.Prelude.{◌≡◌, ◌++◌, ◌∷◌, ◌<ℤ◌, ℕ, List, pos, map, true, false, [], None, IfOk, OnErr, OnOk, OnSome, All};
    ghost use Rattle.zk_turns.specs.Turns.{Forgets, Item, Now, Start};
    ghost use Rattle.zk_turns.specs.Taken.{NothingIsDue};
    ghost use Rattle.zk_turns.specs.View.{view_at};
    ghost use Rattle.zk_turns.specs.Rule.{forgotten, Stands};
    ghost use Rattle.zk_client.specs.Clients.{renewed_start, view_of};
    ghost use Rattle.zk_client.specs.Views.{input_view};
    ghost use Rattle.zk_follow.specs.Following.{doubted, due_again, fresh, ticked, unfollowed, AreFollowed, AreQuiet, BreaksOff};
    ghost use Rattle.zk_trees.specs.Tending.{footing_in, shifted_by, trees_told, Tends};
    ghost use Rattle.zk_agent.specs.Trees.{Alters};
    ghost use Rattle.zk_calls.specs.Lines.{ended, left, next_call};
    ghost use Rattle.zk_agent.specs.inner.Agents.{HandsOver};
    ghost use Rattle.zk_agent.specs.Agents.{TakesSo};
    ghost use Rattle.zk_agent.specs.Calls.{closings, endings};
    ghost use Rattle.zk_agent.specs.Replies.{heard_in};
    ghost use Rattle.zk_agent.specs.Telling.{told_by, Told};

    /// A client that is asked nothing.
    pub(crate) fn new(alloc: A, client: Client<A>) -> Asker<A>
        ensures client { view_of result.follower.client ≡ view_of client }
        ensures subjects { result.follower.subjects.items ≡ [] }
        ensures line { result.line.entries.items ≡ [] }
    {
        Asker {
            alloc,
            follower: Follower::new(alloc, client),
            line: Line::new(alloc),
            room: Vec::new(alloc),
        }
    }

    /// Hands the client an input, and tells what it says.
    pub(crate) fn step(
        &mut self,
        now: u64,
        input: Input<A>,
        actions: &mut Vec<Action<A>, A>,
    ) -> Result<Heard, FollowerStop>
        ensures takes { IfOk result (λ heard. TakesSo now (input_view input)
            (view_of self.old.follower.client) self.old.follower.subjects.items self.old.line.entries.items (told_by actions.old.items)
            (view_of self.new.follower.client) self.new.follower.subjects.items self.new.line.entries.items
            (told_by actions.new.items) heard) }
        ensures followed { OnOk result (AreFollowed now (view_of self.new.follower.client) self.new.follower.subjects.items) }
        ensures broke { OnErr result (BreaksOff (view_of self.old.follower.client) (view_of self.new.follower.client)) }
    {
        match advance(
            self.alloc,
            &mut self.follower,
            &mut self.line,
            &mut self.room,
            now,
            input,
            actions,
        ) {
            Ok(heard) => Ok(heard),
            Err(stop) => {
                self.line.clear();
                Err(stop)
            }
        }
    }

    /// Hands the client a moment at which nothing is due of it and of the subjects, of whom there is nothing to tell either.
    pub(crate) fn pass(&mut self, now: u64) -> Result<(), FollowerStop>
        requires due { NothingIsDue (view_of self.old.follower.client) now }
        requires quiet { AreQuiet (view_of self.old.follower.client) self.old.follower.subjects.items }
        ensures takes { OnOk result ((told : List Told) → TakesSo now (Now now)
            (view_of self.old.follower.client) self.old.follower.subjects.items self.old.line.entries.items told
            (view_of self.new.follower.client) self.new.follower.subjects.items self.new.line.entries.items told (heard_in [])) }
        ensures followed { OnOk result (AreFollowed now (view_of self.new.follower.client) self.new.follower.subjects.items) }
        ensures line { OnOk result (self.new.line ≡ self.old.line) }
        ensures view { OnOk result (view_of self.new.follower.client ≡ ticked now (view_of self.old.follower.client)) }
        ensures broke { OnErr result (BreaksOff (view_of self.old.follower.client) (view_of self.new.follower.client)) }
    {
        match self.follower.pass(now, &mut self.room) {
            Ok(()) => Ok(()),
            Err(stop) => {
                self.line.clear();
                Err(stop)
            }
        }
    }

    /// Hands the call over whose turn it is, if there is one, and tells what the client says.
    pub(crate) fn hand_over(
        &mut self,
        now: u64,
        actions: &mut Vec<Action<A>, A>,
    ) -> Result<Option<Heard>, FollowerStop>
        ensures hands { IfOk result (λ heard. HandsOver now
            (view_of self.old.follower.client) self.old.follower.subjects.items self.old.line.entries.items (told_by actions.old.items)
            (view_of self.new.follower.client) self.new.follower.subjects.items self.new.line.entries.items
            (told_by actions.new.items) heard) }
        ensures followed { IfOk result
            (λ heard. OnSome heard (AreFollowed now (view_of self.new.follower.client) self.new.follower.subjects.items)) }
        ensures broke { OnErr result (BreaksOff (view_of self.old.follower.client) (view_of self.new.follower.client)) }
    {
        match hand_over(
            self.alloc,
            &mut self.follower,
            &mut self.line,
            &mut self.room,
            now,
            actions,
        ) {
            Ok(heard) => Ok(heard),
            Err(stop) => {
                self.line.clear();
                Err(stop)
            }
        }
    }

    /// A subject is followed.
    pub(crate) fn follow(
        &mut self,
        ticket: u64,
        side: Side,
        path: Path<A>,
    ) -> Result<(), AllocError>
        ensures client { self.new.follower.client ≡ self.old.follower.client }
        ensures subjects { OnOk result
            (self.new.follower.subjects.items ≡ self.old.follower.subjects.items ++ fresh ticket side path ∷ []) }
        ensures same { OnErr result (self.new.follower.subjects.items ≡ self.old.follower.subjects.items) }
        ensures line { self.new.line ≡ self.old.line }
    {
        self.follower.follow(ticket, side, path)
    }

    /// A subject is followed no more.
    pub(crate) fn unfollow(&mut self, ticket: u64)
        ensures client { self.new.follower.client ≡ self.old.follower.client }
        ensures subjects { self.new.follower.subjects.items ≡ unfollowed ticket self.old.follower.subjects.items }
        ensures line { self.new.line ≡ self.old.line }
    {
        self.follower.unfollow(ticket);
    }

    /// What is kept of the subjects is doubted.
    pub(crate) fn doubt_all(&mut self)
        ensures client { self.new.follower.client ≡ self.old.follower.client }
        ensures subjects { self.new.follower.subjects.items ≡ map doubted self.old.follower.subjects.items }
        ensures line { self.new.line ≡ self.old.line }
    {
        self.follower.doubt_all();
    }

    /// Takes the stale answers out of what the client keeps.
    pub(crate) fn forget_stale(&mut self)
        ensures view { view_of self.new.follower.client
            ≡ record (view_of self.old.follower.client) { cache = forgotten (view_of self.old.follower.client).cache } }
        ensures stands { (start : Start) (items : List Item) → Stands start items (view_of self.old.follower.client)
            → Stands start (Forgets ∷ items) (view_of self.new.follower.client) }
        ensures subjects { self.new.follower.subjects ≡ self.old.follower.subjects }
        ensures line { self.new.line ≡ self.old.line }
        ensures followed { (now : ℕ) → AreFollowed now (view_of self.old.follower.client) self.old.follower.subjects.items
            → AreFollowed now (view_of self.new.follower.client) self.new.follower.subjects.items }
    {
        self.follower.forget_stale();
    }

    /// Trees are tended that are due: what there is to tell of them.
    pub(crate) fn tend(
        &mut self,
        now: u64,
        trees: &mut Trees<A>,
    ) -> Result<Vec<TreeNews<A>, A>, AllocError>
        ensures tends { IfOk result (λ all. Tends now trees.old trees.new
            (footing_in trees.old self.old.follower []) (footing_in trees.new self.new.follower all.items)) }
        ensures told { IfOk result (λ all.
            self.new.follower.subjects.items ≡ shifted_by (trees_told all.items) self.old.follower.subjects.items) }
        ensures client { self.new.follower.client ≡ self.old.follower.client }
        ensures line { self.new.line ≡ self.old.line }
    {
        trees.tend(now, &mut self.follower)
    }

    /// A tree is followed, or followed no more, if an input asks for that: what there is to tell of it.
    pub(crate) fn alter(
        &mut self,
        input: &AgentInput<A>,
        trees: &mut Trees<A>,
    ) -> Result<Vec<TreeNews<A>, A>, AllocError>
        ensures alters { IfOk result (λ all. Alters input.now trees.old trees.new
            (footing_in trees.old self.old.follower []) (footing_in trees.new self.new.follower all.items)) }
        ensures told { IfOk result (λ all.
            self.new.follower.subjects.items ≡ shifted_by (trees_told all.items) self.old.follower.subjects.items) }
        ensures client { self.new.follower.client ≡ self.old.follower.client }
        ensures line { self.new.line ≡ self.old.line }
    {
        match input {
            AgentInput::FollowTree { ticket, root, most } => {
                trees.plant(*ticket, root, *most, &mut self.follower)
            }
            AgentInput::UnfollowTree { ticket } => trees.uproot(*ticket, &mut self.follower),
            _ => Ok(Vec::new(self.alloc)),
        }
    }

    /// A call is asked.
    pub(crate) fn ask(
        &mut self,
        ticket: u64,
        call: Call<A>,
        until: Option<u64>,
    ) -> Result<(), AllocError>
        ensures line { OnOk result (self.new.line.entries.items
            ≡ self.old.line.entries.items ++ record { ticket = ticket; call = call; until = until; is_sent = false } ∷ []) }
        ensures follower { self.new.follower ≡ self.old.follower }
    {
        self.line.ask(ticket, call, until)
    }

    /// Whether no limit of a call has come.
    fn is_in_time(&self, now: u64) -> bool
        ensures { result ≡ true → ended (Ending.Late now) self.now.line.entries.items ≡ [] }
    {
        !has_come(now, self.line.deadline())
    }

    /// Whether it is known that nothing is due at this moment, of the client, the subjects and the calls, of which none waits for its turn.
    pub(crate) fn rests_at(&self, now: u64) -> bool
        ensures due { result ≡ true → NothingIsDue (view_of self.now.follower.client) now }
        ensures quiet { result ≡ true → AreQuiet (view_of self.now.follower.client) self.now.follower.subjects.items }
        ensures next { result ≡ true → next_call self.now.line.entries.items ≡ None }
        ensures limits { result ≡ true → ended (Ending.Late now) self.now.line.entries.items ≡ [] }
    {
        self.line.rests() && self.is_in_time(now) && self.follower.is_quiet_at(now)
    }

    /// The calls wait no more whose limit has come.
    pub(crate) fn give_up(
        &mut self,
        now: u64,
        actions: &mut Vec<Action<A>, A>,
    ) -> Result<(), AllocError>
        ensures line { OnOk result (self.new.line.entries.items ≡ left (Ending.Late now) self.old.line.entries.items) }
        ensures told { OnOk result
            (told_by actions.new.items ≡ told_by actions.old.items ++ endings (Ending.Late now) self.old.line.entries.items) }
        ensures follower { self.new.follower ≡ self.old.follower }
    {
        if self.is_in_time(now) {
            return Ok(());
        }
        match end_calls(&mut self.line, Ending::Late(now), actions) {
            Ok(()) => Ok(()),
            Err(fault) => {
                self.line.clear();
                Err(fault)
            }
        }
    }

    /// No call waits any more: the session is closed.
    pub(crate) fn close(&mut self, actions: &mut Vec<Action<A>, A>) -> Result<(), AllocError>
        ensures line { OnOk result (self.new.line.entries.items ≡ []) }
        ensures told { OnOk result (told_by actions.new.items ≡ told_by actions.old.items ++ closings self.old.line.entries.items) }
        ensures follower { self.new.follower ≡ self.old.follower }
    {
        match close_calls(&mut self.line, actions) {
            Ok(()) => Ok(()),
            Err(fault) => {
                self.line.clear();
                Err(fault)
            }
        }
    }

    /// Another session begins, with this timeout in milliseconds.
    pub(crate) fn renew(
        &mut self,
        timeout_ms: i32,
        actions: &mut Vec<Action<A>, A>,
    ) -> Result<(), AllocError>
        requires { pos 0 <ℤ timeout_ms }
        ensures client { OnOk result
            (view_of self.new.follower.client ≡ view_at (renewed_start timeout_ms (view_of self.old.follower.client)) []) }
        ensures subjects { OnOk result (self.new.follower.subjects.items ≡ map due_again self.old.follower.subjects.items) }
        ensures followed { OnOk result
            ((now : ℕ) → AreFollowed now (view_of self.new.follower.client) self.new.follower.subjects.items) }
        ensures line { OnOk result (self.new.line.entries.items ≡ []) }
        ensures told { OnOk result
            (told_by actions.new.items ≡ told_by actions.old.items ++ endings Ending.Expired self.old.line.entries.items) }
        ensures same { OnErr result (view_of self.new.follower.client ≡ view_of self.old.follower.client) }
    {
        match begin(&mut self.follower, &mut self.line, timeout_ms, actions) {
            Ok(()) => Ok(()),
            Err(fault) => {
                self.line.clear();
                Err(fault)
            }
        }
    }
}
