//! A driver, and what was printed of subjects.

ghost use Rattle.std.specs.Prelude.{◌≡◌, ◌≢◌, ◌⊎◌, ◌||◌, ℕ, List, [], true, false, IfErr, IfOk, OnOk, string_bytes};
ghost use Rattle.std.specs.Io.KnownBytes.{Appends};
ghost use Rattle.zk_agent.specs.Telling.{told_by};
ghost use Rattle.zk_client.specs.Clients.{view_of};
ghost use Rattle.zk_driver.specs.Noting.{is_come};
ghost use Rattle.shell_watch.specs.Trees.{grown_after, grown_by, watched_after, watched_by};
ghost use Rattle.shell_watch.specs.Watching.{accepts, aim_of, aims_of, end_of, EndsFrom, FollowsAll, FollowsSo, HasCome, Closes, Does};
ghost use Rattle.shell_watch.specs.Watching.{IsOver, PlantsAll, PlantsSo, Prepares, PrintsFrom, TellsTurn};
ghost use Rattle.shell_watch.specs.inner.Watching.{stand_of, Heard, LinesOf, ShowsThen, Writes, WritesEnd, WritesOn};
ghost use Rattle.zk_trees.specs.Tending.{tree_told};

use crate::bound::bound_text;
use crate::end::{Failure, WatchEnd};
use crate::growth::Growth;
use crate::joining::{drop_leaving, join, leave};
use crate::plan::Style;
use crate::shown::{Watched, fresh, show_all};
use crate::words::turn_line;
use std::alloc::{AllocError, Allocator};
use std::io::{self, Write};
use zk_client::{Call, Path, State};
use zk_driver::{Action, Driver, Stop, TreeNews, Turn};
use zk_link::{Clock, Dial};
use zk_trees::{NodeSide, copy_of};

/// The ticket of the call that ends the session. Those of subjects begin at 1.
const CLOSE: u64 = 0;

/// The longest that the end of the session is waited for, in milliseconds.
const LONGEST_CLOSE_MS: u64 = 2_000;

/// A driver, what was printed of the subjects, whether a server has accepted a session, when the watch began, how it is printed, and how
/// its trees grow.
#[derive(Drop)]
pub(crate) struct Watcher<'a, A: Allocator + Copy, D: Dial + Drop, C: Clock + Drop> {
    pub(crate) alloc: A,
    pub(crate) driver: Driver<'a, A, D, C>,
    pub(crate) watched: Vec<Watched<A>, A>,
    pub(crate) is_accepted: bool,
    pub(crate) begins: u64,
    pub(crate) style: Style,
    pub(crate) growth: Growth,
}

/// Writes what was made, if anything was.
fn write<O: Write>(out: &mut O, text: &str) -> Result<(), Failure>
    ensures ok { OnOk result (Appends (O.contents out.old) (O.contents out.new) text.now) }
    ensures err { IfErr result (λ why. why ≡ Failure.Stream) }
{
    if text.is_empty() {
        return Ok(());
    }
    if out.write_all(text.as_bytes()).is_err() || out.flush().is_err() {
        return Err(Failure::Stream);
    }
    Ok(())
}

/// The moment at which a watch ends that begins at this one.
fn end_of(begins: u64, for_ms: Option<u64>) -> u64
    ensures { result ≡ end_of begins for_ms }
{
    match for_ms {
        Some(ms) => begins.saturating_add(ms),
        None => u64::MAX,
    }
}

/// Whether a server has accepted a session.
fn accepts<A: Allocator>(turn: &Turn<A>) -> bool
    ensures { result ≡ accepts turn.now }
{
    matches!(turn, Turn::Told(Action::State(State::Connected)))
}

/// Whether the moment has come.
fn is_come<A: Allocator>(turn: &Turn<A>) -> bool
    ensures { result ≡ is_come turn.now }
{
    matches!(turn, Turn::Come)
}

impl<'a, A: Allocator + Copy, D: Dial + Drop, C: Clock + Drop> Watcher<'a, A, D, C> {
    /// Whether the client is connected.
    fn is_connected(&self) -> bool
        ensures yes { result ≡ true → (view_of self.now.driver.engine.agent.asker.follower.client).standing.state ≡ State.Connected }
        ensures no { result ≡ false → (view_of self.now.driver.engine.agent.asker.follower.client).standing.state ≢ State.Connected }
    {
        matches!(self.driver.client().state(), State::Connected)
    }

    /// The time since the watch began, in milliseconds.
    fn elapsed(&mut self) -> u64
        ensures engine { self.new.driver.engine ≡ self.old.driver.engine }
        ensures watched { self.new.watched ≡ self.old.watched }
        ensures accepted { self.new.is_accepted ≡ self.old.is_accepted }
        ensures style { self.new.style ≡ self.old.style }
        ensures growth { self.new.growth ≡ self.old.growth }
    {
        self.driver.now().saturating_sub(self.begins)
    }

    /// Adds each subject of which what is kept is not what was printed last, if nothing waits to be told. What is let go is watched no
    /// more then.
    fn show(&mut self, ms: u64, text: &mut String<A>) -> Result<(), AllocError>
        ensures engine { self.new.driver.engine ≡ self.old.driver.engine }
        ensures accepted { self.new.is_accepted ≡ self.old.is_accepted }
        ensures style { self.new.style ≡ self.old.style }
        ensures growth { self.new.growth ≡ self.old.growth }
        ensures shows { OnOk result (ShowsThen self.old.style ms (view_of self.old.driver.engine.agent.asker.follower.client)
            (told_by self.old.driver.engine.waiting.items) self.old.watched.items self.new.watched.items (string_bytes text.old)
            (string_bytes text.new)) }
    {
        if self.driver.has_told() {
            return Ok(());
        }
        let client = self.driver.client();
        let watched = self.watched.as_mut_slice();
        show_all(self.alloc, self.style, ms, client, watched, text)?;
        drop_leaving(&mut self.watched);
        Ok(())
    }

    /// The line of a turn, or none if it is not printed.
    fn line(&self, turn: &Turn<A>, ms: u64) -> Result<String<A>, AllocError>
        ensures { IfOk result (λ text. LinesOf self.now.style ms turn.now
            (view_of self.now.driver.engine.agent.asker.follower.client) self.now.watched.items (string_bytes text)) }
    {
        let client = self.driver.client();
        let at = self.driver.address().unwrap_or("");
        let watched = self.watched.as_slice();
        turn_line(self.alloc, self.style, ms, client, watched, at, turn)
    }

    /// What is told of a tree: a side of a node is watched for it or is let go, or it has more nodes than the most.
    fn take_news(&mut self, news: &TreeNews<A>) -> Result<(), AllocError>
        ensures engine { self.new.driver.engine ≡ self.old.driver.engine }
        ensures accepted { self.new.is_accepted ≡ self.old.is_accepted }
        ensures style { self.new.style ≡ self.old.style }
        ensures watched { OnOk result (self.new.watched.items ≡ watched_by (tree_told news.now) self.old.watched.items) }
        ensures growth { OnOk result (self.new.growth ≡ grown_by (tree_told news.now) self.old.growth) }
    {
        match news {
            TreeNews::MemberAdded {
                ticket,
                side,
                path,
                ..
            } => join(self.alloc, *ticket, *side, path, &mut self.watched),
            TreeNews::MemberRemoved { ticket, .. } => {
                leave(*ticket, &mut self.watched);
                Ok(())
            }
            TreeNews::Bounded { is_bounded, .. } => {
                self.growth.note_bound(*is_bounded);
                Ok(())
            }
            TreeNews::Complete { .. } => Ok(()),
        }
    }

    /// What a turn tells of trees counts, if they grow.
    fn take(&mut self, turn: &Turn<A>) -> Result<(), AllocError>
        ensures engine { self.new.driver.engine ≡ self.old.driver.engine }
        ensures accepted { self.new.is_accepted ≡ self.old.is_accepted }
        ensures style { self.new.style ≡ self.old.style }
        ensures watched { OnOk result (self.new.watched.items ≡ watched_after turn.now self.old.growth self.old.watched.items) }
        ensures growth { OnOk result (self.new.growth ≡ grown_after turn.now self.old.growth) }
    {
        if !self.growth.is_growing {
            return Ok(());
        }
        match turn {
            Turn::Told(Action::Tree(news)) => self.take_news(news),
            _ => Ok(()),
        }
    }

    /// What is printed of a turn, after this time, and if nothing waits to be told after it, of what is kept. A line tells if a tree
    /// has more nodes than the most, and none had.
    fn printed_turn(&mut self, turn: &Turn<A>, ms: u64) -> Result<String<A>, AllocError>
        ensures engine { self.new.driver.engine ≡ self.old.driver.engine }
        ensures accepted { self.new.is_accepted ≡ self.old.is_accepted }
        ensures style { self.new.style ≡ self.old.style }
        ensures growth { OnOk result (self.new.growth ≡ grown_after turn.now self.old.growth) }
        ensures tells { IfOk result (λ text. TellsTurn self.old.style turn.now (view_of self.old.driver.engine.agent.asker.follower.client)
            (told_by self.old.driver.engine.waiting.items) self.old.growth self.old.watched.items self.new.watched.items
            (string_bytes text)) }
    {
        let mut text = self.line(turn, ms)?;
        let (was, most) = (self.growth.has_bounded(), self.growth.most);
        self.take(turn)?;
        let is = self.growth.has_bounded();
        let bound = bound_text(self.alloc, self.style, ms, was, is, most)?;
        text.push_str(bound.as_str())?;
        self.show(ms, &mut text)?;
        Ok(text)
    }

    /// Notes whether a server has accepted a session.
    fn note(&mut self, turn: &Turn<A>)
        ensures accepted { self.new.is_accepted ≡ (self.old.is_accepted || accepts turn.now) }
        ensures engine { self.new.driver.engine ≡ self.old.driver.engine }
        ensures watched { self.new.watched ≡ self.old.watched }
        ensures style { self.new.style ≡ self.old.style }
        ensures growth { self.new.growth ≡ self.old.growth }
    {
        if accepts(turn) {
            self.is_accepted = true;
        }
    }

    /// One turn, and what is printed of it. Whether the moment has come, and nothing waits to be told.
    fn run_turn(&mut self, until: u64) -> Result<(bool, String<A>), Failure>
        ensures ok { IfOk result
            (λ heard. Heard until heard.0 (stand_of D.Stream.remaining D.Stream.contents D.Stream.far D.Stream.state self.old.driver.engine
            self.old.watched.items self.old.is_accepted self.old.style self.old.growth) (string_bytes heard.1) (stand_of D.Stream.remaining
            D.Stream.contents D.Stream.far D.Stream.state self.new.driver.engine self.new.watched.items self.new.is_accepted
            self.new.style self.new.growth)) }
        ensures err { IfErr result (λ why. why ≢ Failure.Stream) }
    {
        let turn = self.driver.turn(until)?;
        let ms = self.elapsed();
        let printed = self.printed_turn(&turn, ms);
        self.note(&turn);
        let is_over = is_come(&turn);
        drop(turn);
        let text = printed?;
        Ok((is_over, text))
    }

    /// One turn, which is printed. Whether the moment has come, and nothing waits to be told.
    fn round<O: Write>(&mut self, until: u64, out: &mut O) -> Result<bool, Failure>
        ensures ok { OnOk result
            (Writes (stand_of D.Stream.remaining D.Stream.contents D.Stream.far D.Stream.state self.old.driver.engine self.old.watched.items
            self.old.is_accepted self.old.style self.old.growth)
            (stand_of D.Stream.remaining D.Stream.contents D.Stream.far D.Stream.state self.new.driver.engine
            self.new.watched.items self.new.is_accepted self.new.style self.new.growth) (O.contents out.old) (O.contents out.new)) }
        ensures come { IfOk result
            (λ is_over. is_over ≡ true → HasCome until (stand_of D.Stream.remaining D.Stream.contents D.Stream.far D.Stream.state
            self.new.driver.engine self.new.watched.items self.new.is_accepted self.new.style self.new.growth)) }
        ensures err { IfErr result (λ why. why ≢ Failure.Stream → out.new ≡ out.old) }
    {
        let (is_over, text) = self.run_turn(until)?;
        write(out, text.as_str())?;
        Ok(is_over)
    }

    /// Goes on until this moment.
    fn run<O: Write>(&mut self, end: u64, out: &mut O) -> Result<(), Failure>
        ensures ok { OnOk result
            (Writes (stand_of D.Stream.remaining D.Stream.contents D.Stream.far D.Stream.state self.old.driver.engine self.old.watched.items
            self.old.is_accepted self.old.style self.old.growth)
            (stand_of D.Stream.remaining D.Stream.contents D.Stream.far D.Stream.state self.new.driver.engine
            self.new.watched.items self.new.is_accepted self.new.style self.new.growth) (O.contents out.old) (O.contents out.new)) }
        ensures come { OnOk result (HasCome end
            (stand_of D.Stream.remaining D.Stream.contents D.Stream.far D.Stream.state self.new.driver.engine self.new.watched.items
            self.new.is_accepted self.new.style self.new.growth)) }
        ensures err { IfErr result
            (λ why. why ≢ Failure.Stream
            → WritesOn (stand_of D.Stream.remaining D.Stream.contents D.Stream.far D.Stream.state self.old.driver.engine
            self.old.watched.items self.old.is_accepted self.old.style self.old.growth) (O.contents out.old) (O.contents out.new)) }
    {
        for _ in 0..u64::MAX {
            match self.round(end, out) {
                Ok(true) => return Ok(()),
                Ok(false) => (),
                Err(why) => return Err(why),
            }
        }
        Err(Failure::Memory)
    }

    /// Goes on until the client is not connected any more, and nothing waits to be told, but not past this moment.
    fn await_close<O: Write>(&mut self, until: u64, out: &mut O) -> Result<(), Failure>
        ensures ok { OnOk result
            (Writes (stand_of D.Stream.remaining D.Stream.contents D.Stream.far D.Stream.state self.old.driver.engine self.old.watched.items
            self.old.is_accepted self.old.style self.old.growth)
            (stand_of D.Stream.remaining D.Stream.contents D.Stream.far D.Stream.state self.new.driver.engine
            self.new.watched.items self.new.is_accepted self.new.style self.new.growth) (O.contents out.old) (O.contents out.new)) }
        ensures err { IfErr result
            (λ why. why ≢ Failure.Stream
            → WritesOn (stand_of D.Stream.remaining D.Stream.contents D.Stream.far D.Stream.state self.old.driver.engine
            self.old.watched.items self.old.is_accepted self.old.style self.old.growth) (O.contents out.old) (O.contents out.new)) }
    {
        for _ in 0..u64::MAX {
            if !self.is_connected() && !self.driver.has_told() {
                return Ok(());
            }
            match self.round(until, out) {
                Ok(true) => return Ok(()),
                Ok(false) => (),
                Err(why) => return Err(why),
            }
        }
        Ok(())
    }

    /// Asks for the end of the session, and no tree grows from then on. The answer is the moment until which it is waited for: a third of
    /// the timeout, and 2 seconds at most.
    fn ask_close(&mut self) -> Result<u64, Stop>
        ensures { IfOk result (λ until.
            Does (stand_of D.Stream.remaining D.Stream.contents D.Stream.far D.Stream.state self.old.driver.engine self.old.watched.items
            self.old.is_accepted self.old.style self.old.growth) (Closes until)
            (stand_of D.Stream.remaining D.Stream.contents D.Stream.far D.Stream.state
            self.new.driver.engine self.new.watched.items self.new.is_accepted self.new.style self.new.growth)) }
    {
        let wait = u64::from(self.driver.client().timeout_ms() / 3).min(LONGEST_CLOSE_MS);
        let until = self.driver.now().saturating_add(wait);
        self.driver.ask(CLOSE, Call::Close, Some(until))?;
        self.growth.is_growing = false;
        Ok(until)
    }

    /// Ends the session if the client is connected, and waits for that a third of the timeout at most, and 2 seconds.
    fn close<O: Write>(&mut self, out: &mut O) -> Result<(), Failure>
        ensures ok { OnOk result (WritesEnd
            (stand_of D.Stream.remaining D.Stream.contents D.Stream.far D.Stream.state self.old.driver.engine self.old.watched.items
            self.old.is_accepted self.old.style self.old.growth)
            (stand_of D.Stream.remaining D.Stream.contents D.Stream.far D.Stream.state self.new.driver.engine
            self.new.watched.items self.new.is_accepted self.new.style self.new.growth) (O.contents out.old) (O.contents out.new)) }
        ensures err { IfErr result
            (λ why. why ≢ Failure.Stream
            → WritesOn (stand_of D.Stream.remaining D.Stream.contents D.Stream.far D.Stream.state self.old.driver.engine
            self.old.watched.items self.old.is_accepted self.old.style self.old.growth) (O.contents out.old) (O.contents out.new)) }
    {
        if !self.is_connected() {
            return Ok(());
        }
        let until = self.ask_close()?;
        self.await_close(until, out)
    }

    /// How a watch ends that cannot go on: if a write has failed, the session is ended first.
    fn give_up(&mut self, why: Failure) -> WatchEnd
        ensures over { result ≢ WatchEnd.Over }
        ensures never { result ≢ WatchEnd.NeverConnected }
        ensures stream { result ≢ WatchEnd.Stream → why ≢ Failure.Stream }
    {
        if matches!(why, Failure::Stream) {
            let _ = self.close(&mut io::sink());
        }
        why.end()
    }

    /// Follows a subject, by the next ticket.
    fn follow(&mut self, subject: &NodeSide<A>) -> Result<(), Stop>
        ensures { OnOk result (FollowsSo (aim_of subject.now)
            (stand_of D.Stream.remaining D.Stream.contents D.Stream.far D.Stream.state self.old.driver.engine
            self.old.watched.items self.old.is_accepted self.old.style self.old.growth)
            (stand_of D.Stream.remaining D.Stream.contents D.Stream.far D.Stream.state self.new.driver.engine
            self.new.watched.items self.new.is_accepted self.new.style self.new.growth)) }
    {
        let Some(ticket) = self.growth.take_ticket() else {
            return Err(Stop::Memory);
        };
        let Ok(one) = fresh(self.alloc, ticket, subject.side, &subject.path) else {
            return Err(Stop::Memory);
        };
        if self.watched.push(one).is_err() {
            return Err(Stop::Memory);
        }
        let Ok(path) = copy_of(self.alloc, &subject.path) else {
            return Err(Stop::Memory);
        };
        self.driver.follow(ticket, subject.side, path)
    }

    /// Follows each subject.
    fn follow_all(&mut self, subjects: &[NodeSide<A>]) -> Result<(), Stop>
        ensures { OnOk result (FollowsAll (aims_of subjects.now)
            (stand_of D.Stream.remaining D.Stream.contents D.Stream.far D.Stream.state self.old.driver.engine
            self.old.watched.items self.old.is_accepted self.old.style self.old.growth)
            (stand_of D.Stream.remaining D.Stream.contents D.Stream.far D.Stream.state self.new.driver.engine
            self.new.watched.items self.new.is_accepted self.new.style self.new.growth)) }
    {
        for subject in subjects {
            self.follow(subject)?;
        }
        Ok(())
    }

    /// Follows a tree, by the next ticket.
    fn plant(&mut self, root: &Path<A>) -> Result<(), Stop>
        ensures { OnOk result (PlantsSo root.now
            (stand_of D.Stream.remaining D.Stream.contents D.Stream.far D.Stream.state self.old.driver.engine
            self.old.watched.items self.old.is_accepted self.old.style self.old.growth)
            (stand_of D.Stream.remaining D.Stream.contents D.Stream.far D.Stream.state self.new.driver.engine
            self.new.watched.items self.new.is_accepted self.new.style self.new.growth)) }
    {
        let Ok(root) = copy_of(self.alloc, root) else {
            return Err(Stop::Memory);
        };
        let most = self.growth.most;
        let Some(ticket) = self.growth.take_ticket() else {
            return Err(Stop::Memory);
        };
        self.driver.follow_tree(ticket, root, most)
    }

    /// Follows each tree.
    fn plant_all(&mut self, roots: &[Path<A>]) -> Result<(), Stop>
        ensures { OnOk result (PlantsAll roots.now
            (stand_of D.Stream.remaining D.Stream.contents D.Stream.far D.Stream.state self.old.driver.engine
            self.old.watched.items self.old.is_accepted self.old.style self.old.growth)
            (stand_of D.Stream.remaining D.Stream.contents D.Stream.far D.Stream.state self.new.driver.engine
            self.new.watched.items self.new.is_accepted self.new.style self.new.growth)) }
    {
        for root in roots {
            self.plant(root)?;
        }
        Ok(())
    }

    /// Follows each subject, and then each tree.
    fn prepare(&mut self, subjects: &[NodeSide<A>], roots: &[Path<A>]) -> Result<(), Stop>
        ensures { OnOk result (Prepares (aims_of subjects.now) roots.now
            (stand_of D.Stream.remaining D.Stream.contents D.Stream.far D.Stream.state self.old.driver.engine
            self.old.watched.items self.old.is_accepted self.old.style self.old.growth)
            (stand_of D.Stream.remaining D.Stream.contents D.Stream.far D.Stream.state self.new.driver.engine
            self.new.watched.items self.new.is_accepted self.new.style self.new.growth)) }
    {
        self.follow_all(subjects)?;
        self.plant_all(roots)
    }

    /// Goes on for this many milliseconds, and then ends the session.
    fn go_on<O: Write>(&mut self, for_ms: Option<u64>, out: &mut O) -> Result<(), Failure>
        ensures ok { OnOk result ((text : List ℕ)
            × IsOver for_ms (stand_of D.Stream.remaining D.Stream.contents D.Stream.far D.Stream.state self.old.driver.engine
            self.old.watched.items self.old.is_accepted self.old.style self.old.growth)
            (stand_of D.Stream.remaining D.Stream.contents D.Stream.far D.Stream.state
            self.new.driver.engine self.new.watched.items self.new.is_accepted self.new.style self.new.growth) text
            × Appends (O.contents out.old) (O.contents out.new) text) }
        ensures err { IfErr result
            (λ why. why ≢ Failure.Stream
            → WritesOn (stand_of D.Stream.remaining D.Stream.contents D.Stream.far D.Stream.state self.old.driver.engine
            self.old.watched.items self.old.is_accepted self.old.style self.old.growth) (O.contents out.old) (O.contents out.new)) }
    {
        self.begins = self.driver.now();
        let end = end_of(self.begins, for_ms);
        match self.run(end, out) {
            Ok(()) => self.close(out),
            Err(why) => Err(why),
        }
    }

    /// How a watch ends whose time is over.
    fn end(&self) -> WatchEnd
        ensures over { result ≡ WatchEnd.Over → self.now.is_accepted ≡ true }
        ensures never { result ≡ WatchEnd.NeverConnected → self.now.is_accepted ≡ false }
        ensures well { result ≢ WatchEnd.Stream }
    {
        if self.is_accepted {
            return WatchEnd::Over;
        }
        WatchEnd::NeverConnected
    }

    /// Follows these subjects and trees for this many milliseconds, and then ends the session.
    pub(crate) fn watch_for<O: Write>(
        &mut self,
        subjects: &[NodeSide<A>],
        roots: &[Path<A>],
        for_ms: Option<u64>,
        out: &mut O,
    ) -> WatchEnd
        ensures over { result ≡ WatchEnd.Over → (text : List ℕ) × EndsFrom (aims_of subjects.now) roots.now for_ms
            (stand_of D.Stream.remaining D.Stream.contents D.Stream.far D.Stream.state self.old.driver.engine self.old.watched.items
            self.old.is_accepted self.old.style self.old.growth) text true
            × Appends (O.contents out.old) (O.contents out.new) text }
        ensures never { result ≡ WatchEnd.NeverConnected → (text : List ℕ) × EndsFrom (aims_of subjects.now) roots.now for_ms
            (stand_of D.Stream.remaining D.Stream.contents D.Stream.far D.Stream.state self.old.driver.engine self.old.watched.items
            self.old.is_accepted self.old.style
            self.old.growth) text false × Appends (O.contents out.old) (O.contents out.new) text }
        ensures printed { result ≢ WatchEnd.Stream → (text : List ℕ) × ((text ≡ [])
            ⊎ PrintsFrom (aims_of subjects.now) roots.now
            (stand_of D.Stream.remaining D.Stream.contents D.Stream.far D.Stream.state self.old.driver.engine self.old.watched.items
            self.old.is_accepted self.old.style self.old.growth) text) × Appends (O.contents out.old) (O.contents out.new) text }
    {
        if let Err(stop) = self.prepare(subjects, roots) {
            return Failure::from(stop).end();
        }
        match self.go_on(for_ms, out) {
            Ok(()) => self.end(),
            Err(why) => self.give_up(why),
        }
    }
}
