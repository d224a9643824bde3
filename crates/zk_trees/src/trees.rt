//! The trees beside a follower: which are followed, and when they are tended.

ghost use Rattle.std.specs.Prelude.{◌≡◌, ◌==◌, map, nat_eq};
ghost use Rattle.std.specs.List.{list_any, starts_with};
ghost use Rattle.zk_trees.specs.Tending.{bed_of, due_after, found, is_any_behind, left, noted_report, noted_shown, seed_of, sides_in};
ghost use Rattle.zk_trees.specs.Tending.{Footing};

use crate::ledger::Ledger;
use crate::order::has_ticket;
use crate::subject::copy_of;
use crate::tree::{Tree, TreeNews, Trees};
use std::alloc::{AllocError, Allocator};
use zk_client::Path;
use zk_follow::Follower;

/// How many sides of nodes a millisecond is for, from when trees were tended to when they are again.
const SIDES_EACH_MS: u64 = 1_000;

/// How many sides of nodes trees have.
fn sides_in<A: Allocator>(trees: &[Tree<A>]) -> u64
    ensures { result ≡ sides_in trees.now }
{
    let mut count = 0u64;
    for tree in trees {
        count = count.saturating_add(tree.members.len() as u64);
    }
    count
}

/// When trees are due again that are tended at this moment.
fn due_after<A: Allocator>(now: u64, trees: &[Tree<A>]) -> u64
    ensures { result ≡ due_after now trees.now }
{
    now.saturating_add(sides_in(trees) / SIDES_EACH_MS)
}

/// Whether one may be another one since it was tended last.
fn is_any_behind<A: Allocator>(trees: &[Tree<A>]) -> bool
    ensures { result ≡ is_any_behind trees.now }
{
    trees.iter().any(|tree| tree.is_behind)
}

/// Whether a text begins with another.
fn begins_with(text: &str, beginning: &str) -> bool
    ensures { result ≡ starts_with nat_eq text.now beginning.now }
{
    text.starts_with(beginning)
}

/// A tree may be another one where a member of this ticket is shown.
fn note_shown<A: Allocator>(tree: &mut Tree<A>, ticket: u64)
    ensures { tree.new ≡ noted_shown ticket tree.old }
{
    if !tree.is_behind && has_ticket(tree.members.as_slice(), tree.tickets_rise, ticket) {
        tree.is_behind = true;
    }
}

/// So it may where this path is reported.
fn note_report<A: Allocator>(tree: &mut Tree<A>, path: &str)
    ensures { tree.new ≡ noted_report path.now tree.old }
{
    if !tree.is_behind && begins_with(path, tree.root.as_str()) {
        tree.is_behind = true;
    }
}

/// Notes that a subject of this ticket is shown.
fn note_each_shown<A: Allocator>(trees: &mut [Tree<A>], ticket: u64)
    ensures { trees.new ≡ map (noted_shown ticket) trees.old }
{
    for tree in trees.iter_mut() {
        note_shown(tree, ticket);
    }
}

/// Notes that this path is reported.
fn note_each_report<A: Allocator>(trees: &mut [Tree<A>], path: &str)
    ensures { trees.new ≡ map (noted_report path.now) trees.old }
{
    for tree in trees.iter_mut() {
        note_report(tree, path);
    }
}

/// Takes the first tree of this ticket out, where there is one.
fn take_out<A: Allocator>(trees: &mut Vec<Tree<A>, A>, ticket: u64) -> Option<Tree<A>>
    ensures found { result ≡ found ticket trees.old.items }
    ensures left { trees.new.items ≡ left ticket trees.old.items }
{
    for index in 0..trees.len() {
        let is_it = trees[index].ticket == ticket;
        if is_it {
            return Some(trees.remove(index));
        }
    }
    None
}

impl<A: Allocator + Copy> Tree<A> {
    ghost use Rattle.std.specs.Prelude.{◌≡◌, false, IfOk};

    /// A tree of nothing yet. An error means that memory ran out.
    pub(crate) fn new(
        alloc: A,
        ticket: u64,
        root: &Path<A>,
        most: u64,
    ) -> Result<Tree<A>, AllocError>
        ensures seed { IfOk result (λ tree. (footing : Footing A) → bed_of footing tree ≡ seed_of footing ticket root.now most) }
        ensures rests { IfOk result (λ tree. tree.is_behind ≡ false) }
    {
        let root = copy_of(alloc, root)?;
        Ok(Tree {
            ticket,
            root,
            most,
            is_bounded: false,
            is_behind: false,
            members: Vec::new(alloc),
            tickets_rise: true,
        })
    }
}

impl<A: Allocator + Copy> Trees<A> {
    ghost use Rattle.std.specs.Prelude.{◌≡◌, ◌<◌, [], ℕ, false, map, true, None, IfOk, IfSome, OnOk};
    ghost use Rattle.zk_trees.specs.Tending.{are_at_rest, due_after, footing_in, noted_report, noted_shown};
    ghost use Rattle.zk_trees.specs.inner.Tending.{footing_of};
    ghost use Rattle.zk_trees.specs.Tending.{Plants, Tends, TendsEach, Uproots, UprootsSo, shifted_by, trees_told};

    /// Whether trees rest at this moment: [`tend`](Trees::tend) leaves them as they are.
    pub fn are_at_rest(&self, now: u64) -> bool
        ensures { result ≡ are_at_rest now self.now }
    {
        !self.is_behind || now < self.due
    }

    /// Tends each tree.
    fn tend_all(
        &mut self,
        now: u64,
        follower: &mut Follower<A>,
        ledger: &mut Ledger<A>,
    ) -> Result<(), AllocError>
        ensures tends { OnOk result (TendsEach self.old.all.items self.new.all.items
            (footing_of follower.old ledger.old) (footing_of follower.new ledger.new)) }
        ensures due { OnOk result (self.new.due ≡ due_after now self.new.all.items) }
        ensures client { follower.new.client ≡ follower.old.client }
    {
        let tended = ledger.tend_each(follower, self.all.as_mut_slice());
        self.is_behind = is_any_behind(self.all.as_slice());
        self.due = due_after(now, self.all.as_slice());
        tended
    }

    /// Tends each tree that may be another one since it was tended last, where they are due: what is gone is let go, and what good names
    /// lead to is taken on, by what the client keeps. What is taken on is to be read by the next step of the follower. The answer is what
    /// there is to tell, in order. An error means that memory ran out, and the trees are of no use then.
    pub fn tend(
        &mut self,
        now: u64,
        follower: &mut Follower<A>,
    ) -> Result<Vec<TreeNews<A>, A>, AllocError>
        ensures tends { IfOk result
            (λ all. Tends now self.old self.new (footing_in self.old follower.old []) (footing_in self.new follower.new all.items)) }
        ensures told { IfOk result
            (λ all. follower.new.subjects.items ≡ shifted_by (trees_told all.items) follower.old.subjects.items) }
        ensures client { follower.new.client ≡ follower.old.client }
    {
        if self.are_at_rest(now) {
            return Ok(Vec::new(self.alloc));
        }
        let mut ledger = Ledger::begin(self.alloc, self.next);
        self.tend_all(now, follower, &mut ledger)?;
        let Ledger { next, news, .. } = ledger;
        self.next = next;
        Ok(news)
    }

    /// Follows all nodes at and below a root, of which no more are taken on where there are more than `most`. The data of the root have the
    /// tree's ticket, and all else has tickets from 2^63 on, which no program uses. The answer and an error are those of
    /// [`tend`](Trees::tend).
    pub fn plant(
        &mut self,
        ticket: u64,
        root: &Path<A>,
        most: u64,
        follower: &mut Follower<A>,
    ) -> Result<Vec<TreeNews<A>, A>, AllocError>
        ensures plants { IfOk result (λ all. Plants ticket root.now most self.old self.new
            (footing_in self.old follower.old []) (footing_in self.new follower.new all.items)) }
        ensures told { IfOk result
            (λ all. follower.new.subjects.items ≡ shifted_by (trees_told all.items) follower.old.subjects.items) }
        ensures client { follower.new.client ≡ follower.old.client }
    {
        let mut ledger = Ledger::begin(self.alloc, self.next);
        let tree = ledger.plant(follower, ticket, root, most)?;
        self.all.push(tree)?;
        let Ledger { next, news, .. } = ledger;
        self.next = next;
        Ok(news)
    }

    /// Follows the first tree of this ticket no more, where there is one. The answer and an error are those of [`tend`](Trees::tend).
    pub fn uproot(
        &mut self,
        ticket: u64,
        follower: &mut Follower<A>,
    ) -> Result<Vec<TreeNews<A>, A>, AllocError>
        ensures uproots { IfOk result (λ all. Uproots ticket self.old self.new
            (footing_in self.old follower.old []) (footing_in self.new follower.new all.items)) }
        ensures told { IfOk result
            (λ all. follower.new.subjects.items ≡ shifted_by (trees_told all.items) follower.old.subjects.items) }
        ensures client { follower.new.client ≡ follower.old.client }
    {
        let taken = take_out(&mut self.all, ticket);
        self.is_behind = is_any_behind(self.all.as_slice());
        let Some(tree) = taken else {
            return Ok(Vec::new(self.alloc));
        };
        let mut ledger = Ledger::begin(self.alloc, self.next);
        ledger.uproot(follower, &tree)?;
        let Ledger { next, news, .. } = ledger;
        self.next = next;
        Ok(news)
    }

    /// Notes that a subject of this ticket is shown: what is kept of it is good.
    pub fn note_shown(&mut self, ticket: u64)
        ensures all { self.new.all.items ≡ map (noted_shown ticket) self.old.all.items }
        ensures next { self.new.next ≡ self.old.next }
        ensures due { self.new.due ≡ self.old.due }
    {
        note_each_shown(self.all.as_mut_slice(), ticket);
        self.is_behind = is_any_behind(self.all.as_slice());
    }

    /// Notes that this path is reported.
    pub fn note_report(&mut self, path: &str)
        ensures all { self.new.all.items ≡ map (noted_report path.now) self.old.all.items }
        ensures next { self.new.next ≡ self.old.next }
        ensures due { self.new.due ≡ self.old.due }
    {
        note_each_report(self.all.as_mut_slice(), path);
        self.is_behind = is_any_behind(self.all.as_slice());
    }

    /// The first moment at which trees are to be tended. It may be past, and there is none where all rest.
    pub fn deadline(&self) -> Option<u64>
        ensures before { IfSome result (λ first. (moment : ℕ) → moment < first → are_at_rest moment self.now ≡ true) }
        ensures due { IfSome result (λ first. are_at_rest first self.now ≡ false) }
        ensures never { result ≡ None → (moment : ℕ) → are_at_rest moment self.now ≡ true }
    {
        if self.is_behind {
            return Some(self.due);
        }
        None
    }
}
