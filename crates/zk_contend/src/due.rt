//! What is to be asked for a contender.

ghost use Rattle.std.specs.Prelude.{◌≡◌, true, false, IfSome, None, Some, slice_get};
ghost use Rattle.std.specs.List.{list_all};
ghost use Rattle.zk_nodes.specs.Path.{Text};
ghost use Rattle.zk_client.specs.Clients.{view_of};
ghost use Rattle.zk_contend.specs.Dues.{IsAsleep, IsAtRest, IsDue, Rests, RestsAt, RestsListed, Wants, WantsAt, WantsListed};
ghost use Rattle.zk_contend.specs.Hearing.{is_paused};
ghost use Rattle.zk_contend.specs.Places.{is_ready, shows_node};

use crate::contender::LockContender;
use crate::kept::{is_ready, shows_node, shows_own};
use crate::listed::Listed;
use crate::place::{Ask, Place};
use crate::refused::is_paused;
use std::alloc::Allocator;
use zk_client::{Client, Path};

/// The place of the first of these that is not watched.
fn first_unwatched<A: Allocator + Copy>(client: &Client<A>, behind: &[Path<A>]) -> Option<usize>
    ensures some { IfSome result (λ place. (path : Text) × (slice_get behind.now place ≡ Some path)
        × (shows_node (view_of client.now) path ≡ false)) }
    ensures none { result ≡ None → list_all (shows_node (view_of client.now)) behind.now ≡ true }
{
    for place in 0..behind.len() {
        if !shows_node(client, &behind[place]) {
            return Some(place);
        }
    }
    None
}

impl<A: Allocator + Copy> LockContender<A> {
    /// What is to be asked at its place, by the last listing: nothing if it holds, or if each that it waits for is watched.
    fn wants_listed(&self, client: &Client<A>, own: &Path<A>, listed: &Listed<A>) -> Option<Ask>
        ensures some { IfSome result (λ ask. WantsListed (view_of client.now) self.now own.now listed.now ask) }
        ensures none { result ≡ None → RestsListed (view_of client.now) self.now own.now listed.now }
    {
        if let Some(place) = first_unwatched(client, listed.behind.as_slice()) {
            return Some(Ask::ReadBehind { place });
        }
        if !listed.behind.is_empty() {
            return None;
        }
        match self.token_at(client, own, listed) {
            Some(_) => None,
            None => Some(Ask::List),
        }
    }

    /// What is to be asked at its place: a read of it, with a watch, and a listing.
    fn wants_at(
        &self,
        client: &Client<A>,
        own: &Path<A>,
        listing: &Option<Listed<A>>,
    ) -> Option<Ask>
        ensures some { IfSome result (λ ask. WantsAt (view_of client.now) self.now own.now listing.now ask) }
        ensures none { result ≡ None → RestsAt (view_of client.now) self.now own.now listing.now }
    {
        if !shows_own(client, own) {
            return Some(Ask::ReadOwn);
        }
        match listing {
            Some(listed) => self.wants_listed(client, own, listed),
            None => Some(Ask::List),
        }
    }

    /// What is to be asked next, if nothing is under way.
    fn wants(&self, client: &Client<A>) -> Option<Ask>
        ensures some { IfSome result (λ ask. Wants (view_of client.now) self.now ask) }
        ensures none { result ≡ None → Rests (view_of client.now) self.now }
    {
        match &self.place {
            Place::Making { .. } => Some(Ask::Make),
            Place::Entering => Some(Ask::Enter),
            Place::Unsure => Some(Ask::Fence),
            Place::Looking { .. } => Some(Ask::Look),
            Place::Clearing { .. } => Some(Ask::Clear),
            Place::At { own, listing } => self.wants_at(client, own, listing),
            Place::Leaving { .. } => Some(Ask::Leave),
            Place::Left => None,
        }
    }

    /// What is to be asked now.
    pub(crate) fn due(&self, client: &Client<A>, now: u64) -> Option<Ask>
        ensures some { IfSome result (λ ask. IsDue (view_of client.now) now self.now ask) }
        ensures none { result ≡ None → IsAtRest (view_of client.now) now self.now }
    {
        if self.asked.is_some() || is_paused(now, self.refused) || !is_ready(client) {
            return None;
        }
        self.wants(client)
    }

    /// Whether nothing is due by what the client shows, whatever the moment: it has asked, or it rests.
    pub(crate) fn is_asleep(&self, client: &Client<A>) -> bool
        ensures { result ≡ true → IsAsleep (view_of client.now) self.now }
    {
        self.asked.is_some() || self.wants(client).is_none()
    }
}
