//! The trees that are followed: of each the nodes at and below a root, within a bound, as they come to be known.

ghost use Rattle.std.specs.Prelude.{◌≡◌, ◌^◌, [], true};
ghost use Rattle.std.specs.List.{list_any};
ghost use Rattle.std.proofs.Props.{props};
ghost use Rattle.zk_trees.specs.Orders.{AreInOrder};

use crate::member::Member;
use std::alloc::{Allocator, Global};
use zk_client::{Path, Side};

/// What is told of a tree, by its ticket.
#[derive(Drop)]
pub enum TreeNews<A: Allocator = Global> {
    /// A side of a node is followed for the tree, by this ticket.
    MemberAdded {
        tree: u64,
        ticket: u64,
        side: Side,
        path: Path<A>,
    },
    /// What this ticket follows is followed no more: it is kept and good that there is no such node, or the tree is followed no more.
    MemberRemoved {
        tree: u64,
        ticket: u64,
    },
    /// Whether the tree has more nodes than its bound is not what it was.
    Bounded {
        tree: u64,
        is_bounded: bool,
    },
    /// Nothing is lacking of the tree, and it may be another one than when that was told last.
    Complete {
        tree: u64,
    },
}

/// A tree that is followed: its ticket, its root, the most nodes; whether it has more; whether it may be another one since it was tended
/// last; and what is followed of it.
#[derive(Drop)]
pub struct Tree<A: Allocator> {
    pub(crate) ticket: u64,
    pub(crate) root: Path<A>,
    pub(crate) most: u64,
    pub(crate) is_bounded: bool,
    pub(crate) is_behind: bool,
    pub(crate) members: Vec<Member<A, ()>, A>,
    /// Whether it is known that tickets rise from the second member on. The first one's is the program's.
    pub(crate) tickets_rise: bool,
    ghost in_order: { tickets_rise ≡ true → AreInOrder members.items } by { Prim.hlevel props },
}

/// The trees that are followed, beside a [`Follower`](zk_follow::Follower), the ticket by which the next node is followed, and the moment
/// from which on they are tended again.
///
/// [`tend`](Trees::tend) is to be called before each step of the follower: what it takes on is read then. After the step they are to be
/// told of each subject that was shown, and of each path that was reported, by [`note_shown`](Trees::note_shown) and
/// [`note_report`](Trees::note_report). [`deadline`](Trees::deadline) is when trees are to be tended next.
#[derive(Drop)]
pub struct Trees<A: Allocator + Copy = Global> {
    pub(crate) alloc: A,
    pub(crate) all: Vec<Tree<A>, A>,
    pub(crate) next: u64,
    pub(crate) due: u64,
    /// Whether one may be another one since it was tended last.
    pub(crate) is_behind: bool,
    ghost behind: { is_behind ≡ list_any (λ tree. tree.is_behind) all.items } by { Prim.hlevel props },
}

/// The first ticket of a node: those below are the program's.
const FIRST: u64 = 9_223_372_036_854_775_808;

impl<A: Allocator + Copy> Trees<A> {
    /// None yet. The ticket of the first node is 2^63: those below are the program's.
    pub fn new(alloc: A) -> Trees<A>
        ensures all { result.all.items ≡ [] }
        ensures next { result.next ≡ 2 ^ 63 }
        ensures due { result.due ≡ 0 }
    {
        Trees {
            alloc,
            all: Vec::new(alloc),
            next: FIRST,
            due: 0,
            is_behind: false,
        }
    }
}
