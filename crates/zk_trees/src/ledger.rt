//! What is done to trees within a step: what is gone is let go, and what good names lead to is taken on.

ghost use Rattle.std.specs.Prelude.{◌≡◌, ◌&&◌, not};
ghost use Rattle.zk_trees.specs.Trees.{wants_of};
ghost use Rattle.zk_trees.specs.Tending.{is_none, is_same, lacks_nothing};

use crate::index::{Index, add_member, index_for, is_settled};
use crate::leaving::{drop_gone, tickets_gone, tickets_of};
use crate::member::member_of;
use crate::order::tickets_rise;
use crate::subject::{NodeSide, copy_of};
use crate::tree::{Tree, TreeNews};
use crate::wanting::{Wanted, wanted_at};
use std::alloc::{AllocError, Allocator};
use zk_client::{Path, Side};
use zk_follow::Follower;

/// The ticket by which the next node is followed, and what is told of trees within a step.
#[derive(Drop)]
pub(crate) struct Ledger<A: Allocator + Copy> {
    pub(crate) alloc: A,
    pub(crate) next: u64,
    pub(crate) news: Vec<TreeNews<A>, A>,
}

fn is_same(is: bool, other: bool) -> bool
    ensures { result ≡ is_same is other }
{
    if is { other } else { !other }
}

/// Whether there is none.
fn is_none<A: Allocator>(subjects: &[NodeSide<A>]) -> bool
    ensures { result ≡ is_none subjects.now }
{
    subjects.is_empty()
}

/// Whether nothing is wanted, and not since there are more nodes than the bound.
fn lacks_nothing<A: Allocator>(wanted: &Wanted<A>) -> bool
    ensures { result ≡ lacks_nothing (wants_of wanted.now) }
{
    wanted.subjects.is_empty() && !wanted.is_bounded
}

impl<A: Allocator + Copy> Ledger<A> {
    ghost use Rattle.std.specs.Prelude.{◌≡◌, ◌+◌, ◌++◌, ◌∷◌, [], ⊤, false, true, map, IfOk, List, OnOk};
    ghost use Rattle.zk_nodes.specs.declared.side.Side.TheVariants.{Child, Data};
    ghost use Rattle.zk_turns.specs.View.{View};
    ghost use Rattle.zk_follow.specs.declared.subject.Subject.{Subject};
    ghost use Rattle.zk_trees.specs.declared.member.Member.{Member};
    ghost use Rattle.zk_trees.specs.Trees.{aim_of, aims_of};
    ghost use Rattle.zk_trees.specs.inner.Trees.{IsIndexIfMade};
    ghost use Rattle.zk_trees.specs.Tending.{bed_of, tells, tree_told, trees_told, IsBounded, IsWhole, LetsGo, TakesOn};
    ghost use Rattle.zk_trees.specs.inner.Tending.{footing_of};
    ghost use Rattle.zk_trees.specs.Tending.{Grows, Joins, LetsAllGo, NotesBound, PlantsBed, TakesAllOn, TakesItOn, TellsWhole};
    ghost use Rattle.zk_trees.specs.Tending.{TendsEach, TendsOne, TendsTree, UprootsTree};
    ghost use Rattle.zk_trees.specs.Tending.{LeavesAll};
    ghost use Rattle.zk_trees.specs.inner.Tending.{footing_at};

    /// Of a step in which nothing was told yet.
    pub(crate) fn begin(alloc: A, next: u64) -> Ledger<A>
        ensures next { result.next ≡ next }
        ensures news { result.news.items ≡ [] }
    {
        Ledger {
            alloc,
            next,
            news: Vec::new(alloc),
        }
    }

    /// A ticket that no other node has or had.
    fn take(&mut self) -> Result<u64, AllocError>
        ensures ticket { IfOk result (λ ticket. ticket ≡ self.old.next) }
        ensures next { OnOk result (self.new ≡ record self.old { next = self.old.next + 1 }) }
    {
        let ticket = self.next;
        let Some(next) = ticket.checked_add(1) else {
            return Err(AllocError);
        };
        self.next = next;
        Ok(ticket)
    }

    /// Tells news, after those that were told.
    fn tell(&mut self, news: TreeNews<A>) -> Result<(), AllocError>
        ensures told { OnOk result (trees_told self.new.news.items ≡ trees_told self.old.news.items ++ tree_told news ∷ []) }
        ensures next { self.new.next ≡ self.old.next }
    {
        self.news.push(news)?;
        Ok(())
    }

    /// Follows a side of a node by this ticket, and tells so.
    fn follow(
        &mut self,
        follower: &mut Follower<A>,
        tree: u64,
        ticket: u64,
        subject: &NodeSide<A>,
    ) -> Result<(), AllocError>
        ensures told { OnOk result (footing_of follower.new self.new
            ≡ tells (TakesOn tree ticket subject.now.side subject.now.path) (footing_of follower.old self.old)) }
        ensures client { follower.new.client ≡ follower.old.client }
    {
        let side = subject.side;
        let path = copy_of(self.alloc, &subject.path)?;
        let copy = copy_of(self.alloc, &subject.path)?;
        follower.follow(ticket, side, copy)?;
        self.tell(TreeNews::MemberAdded {
            tree,
            ticket,
            side,
            path,
        })
    }

    /// Tells of each of these tickets that it is let go.
    fn tell_left(&mut self, tree: u64, tickets: &[u64]) -> Result<(), AllocError>
        ensures told { OnOk result
            (trees_told self.new.news.items ≡ trees_told self.old.news.items ++ map (LetsGo tree) tickets.now) }
        ensures next { OnOk result (self.new.next ≡ self.old.next) }
    {
        for ticket in tickets {
            let ticket = *ticket;
            self.tell(TreeNews::MemberRemoved { tree, ticket })?;
        }
        Ok(())
    }

    /// Follows the members of these tickets no more, in one pass, and tells so, in order.
    fn leave_all(
        &mut self,
        follower: &mut Follower<A>,
        tree: u64,
        tickets: &[u64],
    ) -> Result<(), AllocError>
        ensures leaves { OnOk result
            (LeavesAll tree tickets.now (footing_of follower.old self.old) (footing_of follower.new self.new)) }
        ensures client { follower.new.client ≡ follower.old.client }
    {
        if tickets.is_empty() {
            return Ok(());
        }
        follower.unfollow_all(tickets)?;
        self.tell_left(tree, tickets)
    }

    /// Follows this side of a node by this ticket, as a member of a tree.
    fn join(
        &mut self,
        follower: &mut Follower<A>,
        ticket: u64,
        subject: &NodeSide<A>,
        is_found: bool,
        tree: &mut Tree<A>,
    ) -> Result<(), AllocError>
        ensures joins { OnOk result (Joins ticket is_found (aim_of subject.now)
            (bed_of (footing_of follower.old self.old) tree.old) (bed_of (footing_of follower.new self.new) tree.new)) }
        ensures member { OnOk result ((one : Member A ⊤) × (aim_of one.subject ≡ aim_of subject.now)
            × (tree.new.members.items ≡ tree.old.members.items ++ one ∷ [])) }
        ensures behind { tree.new.is_behind ≡ tree.old.is_behind }
        ensures client { follower.new.client ≡ follower.old.client }
    {
        let one = member_of(self.alloc, ticket, subject, is_found)?;
        let rise = tickets_rise(tree.members.as_slice(), tree.tickets_rise, &one);
        tree.members.push(one)?;
        tree.tickets_rise = rise;
        self.follow(follower, tree.ticket, ticket, subject)
    }

    /// Follows a side of a node that was found, where it is not settled. The index is one of the tree's members, if it was made.
    fn take_on(
        &mut self,
        follower: &mut Follower<A>,
        subject: &NodeSide<A>,
        index: &mut Option<Index<A>>,
        tree: &mut Tree<A>,
    ) -> Result<(), AllocError>
        requires { IsIndexIfMade index.old tree.old.members.items }
        ensures takes { OnOk result (TakesItOn (aim_of subject.now)
            (bed_of (footing_of follower.old self.old) tree.old) (bed_of (footing_of follower.new self.new) tree.new)) }
        ensures index { OnOk result (IsIndexIfMade index.new tree.new.members.items) }
        ensures client { follower.new.client ≡ follower.old.client }
    {
        if is_settled(index, tree.members.as_slice(), follower.client(), subject) {
            return Ok(());
        }
        let ticket = self.take()?;
        add_member(index, subject)?;
        self.join(follower, ticket, subject, true, tree)
    }

    /// Takes on each of these, in order.
    fn take_each_on(
        &mut self,
        follower: &mut Follower<A>,
        subjects: &[NodeSide<A>],
        index: &mut Option<Index<A>>,
        tree: &mut Tree<A>,
    ) -> Result<(), AllocError>
        requires { IsIndexIfMade index.old tree.old.members.items }
        ensures takes { OnOk result (TakesAllOn (aims_of subjects.now)
            (bed_of (footing_of follower.old self.old) tree.old) (bed_of (footing_of follower.new self.new) tree.new)) }
        ensures client { follower.new.client ≡ follower.old.client }
    {
        for subject in subjects {
            self.take_on(follower, subject, index, tree)?;
        }
        Ok(())
    }

    /// Takes on each of these, in order. Members are found by an index of them, if many are wanted.
    fn take_all_on(
        &mut self,
        follower: &mut Follower<A>,
        subjects: &[NodeSide<A>],
        tree: &mut Tree<A>,
    ) -> Result<(), AllocError>
        ensures takes { OnOk result (TakesAllOn (aims_of subjects.now)
            (bed_of (footing_of follower.old self.old) tree.old) (bed_of (footing_of follower.new self.new) tree.new)) }
        ensures client { follower.new.client ≡ follower.old.client }
    {
        if is_none(subjects) {
            return Ok(());
        }
        let mut index = index_for(self.alloc, tree.members.as_slice(), subjects.len())?;
        self.take_each_on(follower, subjects, &mut index, tree)
    }

    /// Notes whether a tree has more nodes than its bound, and tells it where that is not what it was.
    fn note_bound(&mut self, is_bounded: bool, tree: &mut Tree<A>) -> Result<(), AllocError>
        ensures notes { (view : View) (subjects : List (Subject A)) → OnOk result (NotesBound is_bounded
            (bed_of (footing_at view subjects self.old) tree.old) (bed_of (footing_at view subjects self.new) tree.new)) }
    {
        if is_same(tree.is_bounded, is_bounded) {
            return Ok(());
        }
        tree.is_bounded = is_bounded;
        self.tell(TreeNews::Bounded {
            tree: tree.ticket,
            is_bounded,
        })
    }

    /// Tells of a tree where nothing is lacking.
    fn tell_whole(&mut self, is_whole: bool, tree: &Tree<A>) -> Result<(), AllocError>
        ensures tells { (view : View) (subjects : List (Subject A)) → OnOk result (TellsWhole is_whole
            (bed_of (footing_at view subjects self.old) tree.now) (bed_of (footing_at view subjects self.new) tree.now)) }
    {
        if is_whole {
            return self.tell(TreeNews::Complete { tree: tree.ticket });
        }
        Ok(())
    }

    /// Takes a tree on, as far as good names lead.
    fn grow(&mut self, follower: &mut Follower<A>, tree: &mut Tree<A>) -> Result<(), AllocError>
        ensures grows { OnOk result
            (Grows (bed_of (footing_of follower.old self.old) tree.old) (bed_of (footing_of follower.new self.new) tree.new)) }
        ensures client { follower.new.client ≡ follower.old.client }
    {
        let wanted = wanted_at(self.alloc, follower.client(), tree.most, &tree.root)?;
        self.take_all_on(follower, wanted.subjects.as_slice(), tree)?;
        self.note_bound(wanted.is_bounded, tree)?;
        self.tell_whole(lacks_nothing(&wanted), tree)
    }

    /// Follows no more what is gone.
    fn let_go(&mut self, follower: &mut Follower<A>, tree: &mut Tree<A>) -> Result<(), AllocError>
        ensures lets { OnOk result
            (LetsAllGo (bed_of (footing_of follower.old self.old) tree.old) (bed_of (footing_of follower.new self.new) tree.new)) }
        ensures client { follower.new.client ≡ follower.old.client }
    {
        let tickets = tickets_gone(self.alloc, follower.client(), tree.members.as_slice())?;
        if tickets.is_empty() {
            return Ok(());
        }
        drop_gone(follower.client(), &mut tree.members);
        self.leave_all(follower, tree.ticket, tickets.as_slice())
    }

    /// Lets go what is gone of a tree, and takes it on.
    fn tend_tree(
        &mut self,
        follower: &mut Follower<A>,
        tree: &mut Tree<A>,
    ) -> Result<(), AllocError>
        ensures tends { OnOk result
            (TendsTree (bed_of (footing_of follower.old self.old) tree.old) (bed_of (footing_of follower.new self.new) tree.new)) }
        ensures rests { OnOk result (tree.new.is_behind ≡ false) }
        ensures client { follower.new.client ≡ follower.old.client }
    {
        self.let_go(follower, tree)?;
        self.grow(follower, tree)?;
        tree.is_behind = false;
        Ok(())
    }

    /// Tends a tree that may be another one since it was tended last.
    fn tend_one(&mut self, follower: &mut Follower<A>, tree: &mut Tree<A>) -> Result<(), AllocError>
        ensures tends { OnOk result
            (TendsOne tree.old tree.new (footing_of follower.old self.old) (footing_of follower.new self.new)) }
        ensures client { follower.new.client ≡ follower.old.client }
    {
        if tree.is_behind {
            return self.tend_tree(follower, tree);
        }
        Ok(())
    }

    /// Tends each of these trees, in order.
    pub(crate) fn tend_each(
        &mut self,
        follower: &mut Follower<A>,
        trees: &mut [Tree<A>],
    ) -> Result<(), AllocError>
        ensures tends { OnOk result
            (TendsEach trees.old trees.new (footing_of follower.old self.old) (footing_of follower.new self.new)) }
        ensures client { follower.new.client ≡ follower.old.client }
    {
        for tree in trees.iter_mut() {
            self.tend_one(follower, tree)?;
        }
        Ok(())
    }

    /// Follows the data of a root, and the names below it, as a tree of no other nodes yet.
    pub(crate) fn plant(
        &mut self,
        follower: &mut Follower<A>,
        ticket: u64,
        root: &Path<A>,
        most: u64,
    ) -> Result<Tree<A>, AllocError>
        ensures plants { IfOk result
            (λ tree. PlantsBed ticket root.now most (footing_of follower.old self.old) (bed_of (footing_of follower.new self.new) tree)) }
        ensures rests { IfOk result (λ tree. tree.is_behind ≡ false) }
        ensures client { follower.new.client ≡ follower.old.client }
    {
        let its_data = NodeSide::of(self.alloc, Side::Data, root)?;
        let its_names = NodeSide::of(self.alloc, Side::Child, root)?;
        let mut tree = Tree::new(self.alloc, ticket, root, most)?;
        let its = self.take()?;
        self.join(follower, ticket, &its_data, false, &mut tree)?;
        self.join(follower, its, &its_names, false, &mut tree)?;
        Ok(tree)
    }

    /// Follows no more all that is followed of a tree.
    pub(crate) fn uproot(
        &mut self,
        follower: &mut Follower<A>,
        tree: &Tree<A>,
    ) -> Result<(), AllocError>
        ensures goes { OnOk result (UprootsTree tree.now (footing_of follower.old self.old) (footing_of follower.new self.new)) }
        ensures client { follower.new.client ≡ follower.old.client }
    {
        let tickets = tickets_of(self.alloc, tree.members.as_slice())?;
        self.leave_all(follower, tree.ticket, tickets.as_slice())
    }
}
