//! Which sides of nodes members follow, told in a time that does not rise with their number.

ghost use Rattle.std.specs.Prelude.{◌≡◌, ◌&&◌, ◌||◌, ℕ, List, IfOk, OnOk, false, is_some, bytes_eq};
ghost use Rattle.indexmap.specs.IndexMap.{get_by_text};
ghost use Rattle.zk_nodes.specs.declared.side.Side.{Side as OneSide};
ghost use Rattle.zk_nodes.specs.Path.{Text};
ghost use Rattle.zk_client.specs.Clients.{view_of};
ghost use Rattle.zk_trees.specs.Trees.{aim_of, is_member, is_settled, is_side};
ghost use Rattle.zk_trees.specs.inner.Trees.{has_aim, AddsMember, IsIndexIfMade, IsIndexOf};

use crate::member::Member;
use crate::subject::{NodeSide, is_missing};
use indexmap::IndexMap;
use std::alloc::{AllocError, Allocator};
use std::hash::{BuildHasherDefault, FoldHasher};
use zk_client::{Client, Side};

/// Paths, each once.
type Paths<A> = IndexMap<String<A>, (), BuildHasherDefault<FoldHasher>, A>;

/// Up to this many subjects are looked for by a look at each member: that takes less than to make an index of all.
const FEW: usize = 8;

/// The paths whose data members follow, and those below which they follow the names.
#[derive(Drop)]
pub(crate) struct Index<A: Allocator + Copy> {
    alloc: A,
    nodes: Paths<A>,
    names: Paths<A>,
}

/// Whether a path is among these.
fn has_path<A: Allocator + Copy>(paths: &Paths<A>, path: &str) -> bool
    ensures { result ≡ is_some (get_by_text paths.now path.now) }
{
    paths.get(path).is_some()
}

/// Adds a path. An error means that memory ran out.
fn add_path<A: Allocator + Copy>(
    alloc: A,
    paths: &mut Paths<A>,
    path: &str,
) -> Result<(), AllocError>
    ensures { OnOk result ((other : List ℕ) → is_some (get_by_text paths.new other)
        ≡ (bytes_eq path.now other || is_some (get_by_text paths.old other))) }
{
    paths.insert(String::from_str(alloc, path)?, ())?;
    Ok(())
}

/// An index of these members. An error means that memory ran out.
fn index_of<A: Allocator + Copy, N: Drop>(
    alloc: A,
    members: &[Member<A, N>],
) -> Result<Index<A>, AllocError>
    ensures { IfOk result (λ index. IsIndexOf index members.now) }
{
    let mut index = Index::new(alloc);
    for one in members {
        index.add(&one.subject)?;
    }
    Ok(index)
}

impl<A: Allocator + Copy> Index<A> {
    /// An index of no member.
    fn new(alloc: A) -> Index<A>
        ensures { (aim : OneSide × Text) → has_aim result aim ≡ false }
    {
        Index {
            alloc,
            nodes: IndexMap::new(alloc),
            names: IndexMap::new(alloc),
        }
    }

    /// Adds what a member follows. An error means that memory ran out.
    fn add(&mut self, subject: &NodeSide<A>) -> Result<(), AllocError>
        ensures { OnOk result ((aim : OneSide × Text) → has_aim self.new aim
            ≡ ((is_side subject.now.side aim.0 && bytes_eq subject.now.path aim.1) || has_aim self.old aim)) }
    {
        match subject.side {
            Side::Data => add_path(self.alloc, &mut self.nodes, subject.path.as_str()),
            Side::Child => add_path(self.alloc, &mut self.names, subject.path.as_str()),
        }
    }

    /// Whether a member follows this.
    fn has(&self, subject: &NodeSide<A>) -> bool
        ensures { result ≡ has_aim self.now (aim_of subject.now) }
    {
        match subject.side {
            Side::Data => has_path(&self.nodes, subject.path.as_str()),
            Side::Child => has_path(&self.names, subject.path.as_str()),
        }
    }
}

/// An index of these members, if more than a few subjects are looked for among them. An error means that memory ran out.
pub(crate) fn index_for<A: Allocator + Copy, N: Drop>(
    alloc: A,
    members: &[Member<A, N>],
    sought: usize,
) -> Result<Option<Index<A>>, AllocError>
    ensures { IfOk result (λ index. IsIndexIfMade index members.now) }
{
    if sought <= FEW {
        return Ok(None);
    }
    let index = index_of(alloc, members)?;
    Ok(Some(index))
}

/// Adds what a member follows, if there is an index. An error means that memory ran out.
pub(crate) fn add_member<A: Allocator + Copy>(
    index: &mut Option<Index<A>>,
    subject: &NodeSide<A>,
) -> Result<(), AllocError>
    ensures { OnOk result (AddsMember (aim_of subject.now) index.old index.new) }
{
    match index {
        Some(index) => index.add(subject),
        None => Ok(()),
    }
}

/// Whether one of these members follows this.
fn has_aim<A: Allocator + Copy, N: Drop>(members: &[Member<A, N>], subject: &NodeSide<A>) -> bool
    ensures { result ≡ is_member (aim_of subject.now) members.now }
{
    members.iter().any(|one| one.subject.is_same(subject))
}

/// The same by the index, if there is one.
fn is_member<A: Allocator + Copy, N: Drop>(
    index: &Option<Index<A>>,
    members: &[Member<A, N>],
    subject: &NodeSide<A>,
) -> bool
    requires { IsIndexIfMade index.now members.now }
    ensures { result ≡ is_member (aim_of subject.now) members.now }
{
    match index {
        Some(index) => index.has(subject),
        None => has_aim(members, subject),
    }
}

/// Whether a subject is not to be taken on: it is that of a member, or it is kept and good that there is no such node.
pub(crate) fn is_settled<A: Allocator + Copy, N: Drop>(
    index: &Option<Index<A>>,
    members: &[Member<A, N>],
    client: &Client<A>,
    subject: &NodeSide<A>,
) -> bool
    requires { IsIndexIfMade index.now members.now }
    ensures { result ≡ is_settled (view_of client.now) (aim_of subject.now) members.now }
{
    is_member(index, members, subject) || is_missing(client, &subject.path)
}
