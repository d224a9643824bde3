//! A contender.

ghost use Rattle.std.specs.Prelude.{◌≡◌, ◌≢◌, ◌≤◌, ◌+◌, length, None, Some, IfErr, IfOk, OnOk};
ghost use Rattle.std.specs.List.{list_all};
ghost use Rattle.zk_client.specs.Clients.{view_of};
ghost use Rattle.zk_nodes.specs.Path.{child_text};
ghost use Rattle.zk_nodes.specs.PathFault.{child_fault};
ghost use Rattle.zk_nodes.specs.declared.path_fault.PathFault.TheVariants.{Memory};
ghost use Rattle.zk_contend.specs.Contenders.{entry_fault, is_named};
ghost use Rattle.zk_contend.specs.Places.{shows_node};
ghost use Rattle.zk_contend.specs.Standings.{waiting, waits_for};

use crate::acl::AccessList;
use crate::kept::{session_of, shows_node, shows_own};
use crate::lease::token_by;
use crate::listed::Listed;
use crate::mixed::is_mixed;
use crate::naming::Naming;
use crate::place::{Ask, Place};
use crate::refused::{Obstacle, Refused, refusal_of, refused_for};
use crate::status::{LockStatus, news_of, without_refusal};
use std::alloc::{AllocError, Allocator, Global};
use std::mem;
use zk_client::{Call, Client, Event, Outcome, Path, PathFault};
use zk_conclusions::Listing;
use zk_limits::LONGEST_PATH;

/// How many digits a sequential create adds to a name.
const DIGITS: usize = 10;

/// A contender for a lock or an election, a reader or a writer of a shared lock: it has one place at a time, an ephemeral sequential
/// node of the session in the directory, and asks one call at a time.
#[derive(Drop)]
pub struct LockContender<A: Allocator + Copy = Global> {
    pub(crate) alloc: A,
    pub(crate) directory: Path<A>,
    pub(crate) naming: Naming,
    // How the names of its nodes begin, and no others.
    pub(crate) front: String<A>,
    // The path of a create of its place.
    pub(crate) entry: Path<A>,
    pub(crate) data: Option<Vec<u8, A>>,
    // That of its place, and of the directories that it makes. Without one they are open to everybody.
    pub(crate) acl: Option<AccessList<A>>,
    pub(crate) place: Place<A>,
    pub(crate) asked: Option<Ask>,
    pub(crate) refused: Option<Refused>,
    pub(crate) is_given_up: bool,
    told: LockStatus,
}

impl<A: Allocator + Copy> LockContender<A> {
    ghost use Rattle.std.specs.Prelude.{◌≡◌, ◌≢◌, ◌≤◌, ◌+◌, ℕ, ℤ, true, false, length, None, Some, IfErr, IfOk, OnErr, OnOk, IfSome};
    ghost use Rattle.zk_nodes.specs.declared.path_fault.PathFault.TheVariants.{Memory};
    ghost use Rattle.std.specs.Option.{option_copied, option_map};
    ghost use Rattle.zk_client.specs.Clients.{view_of};
    ghost use Rattle.zk_client.specs.Views.{outcome_view};
    ghost use Rattle.zk_conversation.specs.Views.{call_view};
    ghost use Rattle.zk_contend.specs.Dues.{call_asked, IsAtRest, StandsAt};
    ghost use Rattle.zk_contend.specs.declared.status.LockStatus.{LockStatus};
    ghost use Rattle.zk_contend.specs.Standings.{is_left, news_of, otherwise, standing_in, told_after};
    ghost use Rattle.zk_contend.specs.Standings.{IsObstacle, IsOtherwise, ShowsContender, TellsHeld};
    ghost use Rattle.zk_contend.specs.Hearing.{refused_for};
    ghost use Rattle.zk_contend.specs.Namings.{is_mixed};
    ghost use Rattle.zk_contend.specs.declared.refused.Obstacle.{Obstacle};
    ghost use Rattle.zk_contend.specs.declared.place.Place.TheVariants.{At};
    ghost use Rattle.zk_contend.specs.Contenders.{closed, forgotten, given_up, has_left, is_about, is_at, is_behind, noted, own_of};
    ghost use Rattle.zk_contend.specs.Contenders.{contender_fault, renewed};
    ghost use Rattle.zk_contend.specs.Contenders.{IsAsked, IsFresh, IsHeard, IsHeardOf, IsRefusal};

    /// A contender in this directory, which is made if it is not there. The guid is to be a text that no other contender has: 32
    /// hexadecimal digits for kazoo's names, a UUID for Curator's. What it makes, its places and the directories that were not there, has
    /// this ACL, and without one is open to everybody. `may_be_there` says that this session may have sent a create with it
    /// before, as after a restart: then the place is looked for first. An error says why no place in this directory has a path (`refused`,
    /// `accepted`), or that memory ran out.
    pub fn new(
        alloc: A,
        directory: Path<A>,
        naming: Naming,
        guid: &str,
        bytes: Option<Vec<u8, A>>,
        acl: Option<AccessList<A>>,
        may_be_there: bool,
    ) -> Result<LockContender<A>, PathFault>
        ensures fresh { IfOk result (λ contender. IsFresh directory naming guid.now may_be_there contender) }
        ensures bytes { IfOk result (λ contender. contender.data ≡ bytes) }
        ensures acl { IfOk result (λ contender. contender.acl ≡ acl) }
        ensures fits { IfOk result (λ contender. length contender.entry + 10 ≤ LONGEST_PATH) }
        ensures accepted { OnOk result (contender_fault directory naming guid.now ≡ None) }
        ensures refused { IfErr result (λ fault. fault ≢ Memory → contender_fault directory naming guid.now ≡ Some fault) }
    {
        let front = naming.front(alloc, guid)?;
        let entry = entry_in(alloc, &directory, front.as_str())?;
        let place = if may_be_there {
            Place::Unsure
        } else {
            Place::Entering
        };
        Ok(LockContender {
            alloc,
            directory,
            naming,
            front,
            entry,
            data: bytes,
            acl,
            place,
            asked: None,
            refused: None,
            is_given_up: false,
            told: LockStatus::Contends,
        })
    }

    /// The call that is due now, if one is. It counts as asked from then on: its outcome is to be given to
    /// [`hear`](LockContender::hear), and no other call is due before. An error means that memory ran out, and nothing has changed then.
    pub fn next(&mut self, client: &Client<A>, now: u64) -> Result<Option<Call<A>>, AllocError>
        ensures some { IfOk result (λ next. IfSome next (λ call. IsAsked (view_of client.now) now self.old (call_view call) self.new)) }
        ensures none { IfOk result (λ next. next ≡ None → IsAtRest (view_of client.now) now self.old × (self.new ≡ self.old)) }
        ensures same { OnErr result (self.new ≡ self.old) }
    {
        let Some(ask) = self.due(client, now) else {
            return Ok(None);
        };
        let call = self.ask(ask)?;
        Ok(Some(call))
    }

    /// It asks this. An error means that memory ran out, and nothing has changed then.
    pub(crate) fn ask(&mut self, ask: Ask) -> Result<Call<A>, AllocError>
        ensures call { IfOk result (λ call. call_view call ≡ call_asked self.old ask) }
        ensures asked { OnOk result (self.new ≡ record self.old { asked = Some ask }) }
        ensures same { OnErr result (self.new ≡ self.old) }
    {
        let call = self.call(ask)?;
        self.asked = Some(ask);
        Ok(call)
    }

    /// The token of the place at this path, by this listing.
    pub(crate) fn token_at(
        &self,
        client: &Client<A>,
        own: &Path<A>,
        listed: &Listed<A>,
    ) -> Option<i64>
        ensures shows { IfSome result (λ token. StandsAt (view_of client.now) self.now own.now listed.now token) }
        ensures none { result ≡ None → (token : ℤ) → ¬ (StandsAt (view_of client.now) self.now own.now listed.now token) }
    {
        let listing = Listing {
            directory: &self.directory,
            names: &listed.names,
            zxid: listed.zxid,
        };
        let token = token_by(client, &listing, self.naming, own);
        let Listing {
            directory: _directory,
            names: _names,
            zxid: _zxid,
        } = listing;
        token
    }

    /// The token, if the session holds: exactly if the client shows that no rival is before its place, or of a lease fewer than may hold
    /// at once, by a listing that was answered since it came there and has no name of another family (`shows`, `none`). Under servers of a
    /// history it is so there at the client's last seen zxid (`held_is_true` of [`laws`](crate::laws)). It may be lost since: hand the
    /// token to what is protected.
    pub fn held(&self, client: &Client<A>) -> Option<i64>
        ensures shows { IfSome result (λ token. ShowsContender (view_of client.now) self.now token) }
        ensures none { result ≡ None → (token : ℤ) → ¬ (ShowsContender (view_of client.now) self.now token) }
    {
        match &self.place {
            Place::At {
                own,
                listing: Some(listed),
            } => self.token_at(client, own, listed),
            _ => None,
        }
    }

    /// Whether a name of this listing is another family's.
    fn is_mixed_by(&self, listed: &Listed<A>) -> bool
        ensures { result ≡ is_mixed self.now.naming listed.now.names }
    {
        let listing = Listing {
            directory: &self.directory,
            names: &listed.names,
            zxid: listed.zxid,
        };
        let found = is_mixed(&listing, self.naming);
        let Listing {
            directory: _directory,
            names: _names,
            zxid: _zxid,
        } = listing;
        found
    }

    /// What is in its way by its listing: a name of another family, or that it waits for nobody, its place is watched, and yet it does not
    /// hold.
    fn obstacle_at(&self, client: &Client<A>, own: &Path<A>, listed: &Listed<A>) -> Option<Obstacle>
        ensures some { IfSome result (IsObstacle (view_of client.now) self.now.directory self.now.naming (At own.now (Some listed.now))) }
        ensures none { result ≡ None → (why : Obstacle)
            → ¬ (IsObstacle (view_of client.now) self.now.directory self.now.naming (At own.now (Some listed.now)) why) }
    {
        if self.is_mixed_by(listed) {
            return Some(Obstacle::MixedNames);
        }
        if !listed.behind.is_empty() {
            return None;
        }
        if !shows_own(client, own) {
            return None;
        }
        match self.token_at(client, own, listed) {
            Some(_) => None,
            None => Some(Obstacle::NumbersUsedUp),
        }
    }

    fn obstacle(&self, client: &Client<A>) -> Option<Obstacle>
        ensures some { IfSome result (IsObstacle (view_of client.now) self.now.directory self.now.naming self.now.place) }
        ensures none { result ≡ None → (why : Obstacle)
            → ¬ (IsObstacle (view_of client.now) self.now.directory self.now.naming self.now.place why) }
    {
        match &self.place {
            Place::At {
                own,
                listing: Some(listed),
            } => self.obstacle_at(client, own, listed),
            _ => None,
        }
    }

    /// Why the answer to this is a refusal, if it is one.
    fn refusal(&self, client: &Client<A>, ask: Ask, told: Option<Obstacle>) -> Option<Obstacle>
        ensures { (now : ℕ) → IsRefusal (view_of client.now) now ask self.now.directory self.now.naming self.now.place
            (refused_for now told) (refused_for now result) }
    {
        match ask {
            Ask::List => match self.obstacle(client) {
                Some(why) => Some(why),
                None => told,
            },
            _ => told,
        }
    }

    /// Hears the answer to what was asked.
    fn hear_of(
        &mut self,
        client: &Client<A>,
        now: u64,
        ask: Ask,
        outcome: Outcome<A>,
    ) -> Result<(), AllocError>
        ensures heard { OnOk result (IsHeardOf (view_of client.now) now ask (outcome_view outcome) self.old self.new) }
        ensures same { OnErr result (self.new ≡ self.old) }
    {
        let told = refusal_of(ask, &outcome);
        let session = session_of(client);
        self.take_in(session, ask, outcome)?;
        self.asked = None;
        self.refused = refused_for(now, self.refusal(client, ask, told));
        Ok(())
    }

    /// Hears the outcome of the call that was asked. An error means that memory ran out: what is known of the place is forgotten, and it is
    /// looked for, as after a create whose answer was lost.
    pub fn hear(
        &mut self,
        client: &Client<A>,
        now: u64,
        outcome: Outcome<A>,
    ) -> Result<(), AllocError>
        ensures heard { OnOk result (IsHeard (view_of client.now) now (outcome_view outcome) self.old self.new) }
        ensures forgotten { OnErr result (self.new ≡ forgotten self.old) }
    {
        let Some(ask) = self.asked else {
            drop(outcome);
            return Ok(());
        };
        match self.hear_of(client, now, ask, outcome) {
            Ok(()) => Ok(()),
            Err(fault) => {
                self.place = Place::Unsure;
                self.asked = None;
                self.refused = None;
                Err(fault)
            }
        }
    }

    fn is_at(&self, path: &str) -> bool
        ensures { result ≡ is_at path.now self.now.place }
    {
        match &self.place {
            Place::At { own, .. } => path == own.as_str(),
            _ => false,
        }
    }

    fn is_behind(&self, path: &str) -> bool
        ensures { result ≡ is_behind path.now self.now.place }
    {
        match &self.place {
            Place::At {
                listing: Some(listed),
                ..
            } => is_named(path, listed.behind.as_slice()),
            _ => false,
        }
    }

    /// Whether the path is that of its place, or of one that it waits for.
    pub(crate) fn is_about(&self, path: &str) -> bool
        ensures { result ≡ is_about path.now self.now }
    {
        self.is_at(path) || self.is_behind(path)
    }

    /// Notes a report of the client. The place is lost if its deletion is reported, and if that of the one before it is, the directory is
    /// listed again. Each report may be given to it.
    pub fn note(&mut self, path: &str, event: Event)
        ensures { self.new ≡ noted path.now event self.old }
    {
        if !matches!(event, Event::Deleted) {
            return;
        }
        if self.is_at(path) {
            self.lose();
        } else if self.is_behind(path) {
            self.forget_listing();
        }
    }

    /// Whether it is given up, and no node of it is there.
    fn is_left(&self) -> bool
        ensures { result ≡ is_left self.now.place }
    {
        matches!(self.place, Place::Left)
    }

    /// How it stands, where it does not hold and nothing is refused.
    fn unrefused(&self, client: &Client<A>) -> LockStatus
        ensures { result ≡ standing_in (view_of client.now) self.now.place }
    {
        match &self.place {
            Place::Left => LockStatus::GivenUp,
            Place::At {
                listing: Some(listed),
                ..
            } => waits_for(client, listed.behind.as_slice()),
            _ => LockStatus::Contends,
        }
    }

    /// How it stands, where it does not hold.
    fn otherwise(&self, client: &Client<A>) -> LockStatus
        ensures { result ≡ otherwise (view_of client.now) self.now }
    {
        match self.refused {
            Some(refused) if !self.is_left() => LockStatus::Refused { why: refused.why },
            _ => self.unrefused(client),
        }
    }

    /// How it stands: that it holds exactly if [`held`](LockContender::held) says so.
    pub fn stands(&self, client: &Client<A>) -> LockStatus
        ensures held { TellsHeld (view_of client.now) self.now result }
        ensures otherwise { IsOtherwise (view_of client.now) self.now result }
    {
        match self.held(client) {
            Some(token) => LockStatus::Holds { token },
            None => self.otherwise(client),
        }
    }

    /// What there is to tell, once after each step of the client and each input: how it stands, if that is not what was told last. So the
    /// step that hears of a loss tells it. That it contends is told only after that it holds.
    pub fn tell(&mut self, client: &Client<A>) -> Option<LockStatus>
        ensures news { (stands : LockStatus) × TellsHeld (view_of client.now) self.old stands
            × IsOtherwise (view_of client.now) self.old stands × (result ≡ news_of self.old.told stands) }
        ensures held { TellsHeld (view_of client.now) self.old self.new.told }
        ensures told { self.new ≡ record self.old { told = told_after self.old.told result } }
    {
        let stands = self.stands(client);
        let news = news_of(self.told, stands);
        if let Some(stands) = news {
            self.told = stands;
        }
        news
    }

    /// The contender is given up, and pauses no more. Its place is deleted, however often the connection is lost; a create that may be
    /// under way is awaited, or its place is looked for. It asks until no node of it is there (`nothing_left` of [`laws`](crate::laws)). A
    /// refusal from then on is told, also for what was told before.
    pub fn give_up(&mut self)
        ensures gives { self.new ≡ given_up self.old }
        ensures tells { (why : Obstacle) → news_of self.new.told (LockStatus.Refused why) ≡ Some (LockStatus.Refused why) }
    {
        self.told = without_refusal(self.told);
        self.refused = None;
        self.is_given_up = true;
        self.place = match mem::replace(&mut self.place, Place::Left) {
            Place::Making { path: _path } => Place::Left,
            Place::Entering if !matches!(self.asked, Some(Ask::Enter)) => Place::Left,
            Place::At {
                own,
                listing: _listing,
            } => Place::Leaving { own },
            place => place,
        };
    }

    /// Whether it is given up, no node of it is there, and no call of it is under way.
    pub(crate) fn has_left(&self) -> bool
        ensures { result ≡ has_left self.now }
    {
        self.is_left() && self.asked.is_none()
    }

    /// The client goes on with another session, since the last one has expired: no node of it is there any more. It contends again, unless
    /// it is given up. Outcomes of calls of the last session are not to be heard from then on.
    pub fn renew(&mut self)
        ensures { self.new ≡ renewed self.old }
    {
        self.place = if self.is_given_up {
            Place::Left
        } else {
            Place::Entering
        };
        self.asked = None;
        self.refused = None;
    }

    /// The session is closed: it is given up, and nothing is left.
    pub fn close(&mut self)
        ensures { self.new ≡ closed self.old }
    {
        self.place = Place::Left;
        self.asked = None;
        self.refused = None;
        self.is_given_up = true;
    }

    /// The moment at which a refusal is over, so that a call may be due.
    pub fn deadline(&self) -> Option<u64>
        ensures { result ≡ option_map (λ refused. refused.until) self.now.refused }
    {
        match self.refused {
            Some(refused) => Some(refused.until),
            None => None,
        }
    }

    /// The path of its place, if that is known.
    pub fn place(&self) -> Option<&Path<A>>
        ensures { option_copied result ≡ own_of self.now.place }
    {
        match &self.place {
            Place::At { own, .. } => Some(own),
            _ => None,
        }
    }
}

/// The path of a create of a place in the directory, whose name begins so: with the digits that it gets it is one too.
fn entry_in<A: Allocator + Copy>(
    alloc: A,
    directory: &Path<A>,
    front: &str,
) -> Result<Path<A>, PathFault>
    ensures entry { IfOk result (λ entry. entry ≡ child_text directory.now front.now) }
    ensures fits { IfOk result (λ entry. length entry + 10 ≤ LONGEST_PATH) }
    ensures accepted { OnOk result
        (entry_fault (child_text directory.now front.now) (child_fault directory.now front.now) ≡ None) }
    ensures refused { IfErr result (λ fault. fault ≢ Memory
        → entry_fault (child_text directory.now front.now) (child_fault directory.now front.now) ≡ Some fault) }
{
    let entry = directory.join(alloc, front)?;
    if entry.as_str().len() + DIGITS > LONGEST_PATH {
        return Err(PathFault::TooLong);
    }
    Ok(entry)
}

/// Whether the path is one of these.
fn is_named<A: Allocator>(path: &str, behind: &[Path<A>]) -> bool
    ensures { result ≡ is_named path.now behind.now }
{
    behind.iter().any(|one| path == one.as_str())
}

/// Whether each of these is watched.
fn are_watched<A: Allocator + Copy>(client: &Client<A>, behind: &[Path<A>]) -> bool
    ensures { result ≡ list_all (shows_node (view_of client.now)) behind.now }
{
    behind.iter().all(|one| shows_node(client, one))
}

/// Whether it waits for these, each of which has to be watched.
fn waits_for<A: Allocator + Copy>(client: &Client<A>, behind: &[Path<A>]) -> LockStatus
    ensures { result ≡ waiting (waits_for (view_of client.now) behind.now) }
{
    if behind.is_empty() || !are_watched(client, behind) {
        return LockStatus::Contends;
    }
    LockStatus::Waits
}
