//! The tree as a server has it.

ghost use Rattle.std.specs.Prelude.{◌≡◌, IfOk, Some};
ghost use Rattle.zk_jute.specs.Lenient.{or_empty};
ghost use Rattle.zk_nodes.specs.Path.{path_of as names_in};
ghost use Rattle.zk_nodes.specs.History.{tree_at, view as view_of};
ghost use Rattle.zk_nodes.specs.declared.side.Side.TheVariants as sides;
ghost use Rattle.zk_history.specs.HistoryView.{history_of, natural};
ghost use Rattle.zk_nodes.specs.PathFault.{IsPath};
ghost use Rattle.zk_history.specs.Shown.{data_told, names_told, IsStat};
ghost use Rattle.zk_bench.specs.inner.Writing.{path_told};

use std::alloc::{AllocError, Allocator};
use zk_history::{Data, History};
use zk_jute::Text;
use zk_nodes::{Names, Path, PathFault, Stat};

/// The tree of a history after the transactions up to a zxid. A text that is no path names no node.
#[derive(Drop)]
pub(crate) struct Tree<'a, A: Allocator + Copy> {
    pub(crate) alloc: A,
    pub(crate) history: &'a History<A>,
    pub(crate) zxid: i64,
}

/// A text as it was sent, where null counts as the empty one.
pub(crate) fn text_of<A: Allocator>(text: &Text<A>) -> &str
    ensures { result.now ≡ or_empty text.now }
{
    match text.as_str() {
        Some(text) => text,
        None => "",
    }
}

/// The path of a text, and none where it is no path.
pub(crate) fn path_of<A: Allocator>(alloc: A, text: &str) -> Result<Option<Path<A>>, AllocError>
    ensures path { IfOk result (λ path. IsPath text.now → path ≡ Some text.now) }
    ensures told { IfOk result (λ path. path ≡ path_told text.now) }
{
    match Path::new(alloc, text) {
        Ok(path) => Ok(Some(path)),
        Err(PathFault::Memory) => Err(AllocError),
        Err(_) => Ok(None),
    }
}

impl<A: Allocator + Copy> Tree<'_, A> {
    /// The `Stat` of the node at a text, and none where no node is there.
    #[tactic(auto, using(crate::proofs::Answered::stat_found))]
    pub(crate) fn stat(&self, text: &str) -> Result<Option<Stat>, AllocError>
        ensures { IfOk result (λ told. IsPath text.now
            → IsStat (tree_at (history_of self.now.history.now) (natural self.now.zxid)) (names_in text.now) told) }
    {
        let zxid = self.zxid;
        match path_of(self.alloc, text)? {
            Some(path) => Ok(self.history.stat_at(zxid, &path)),
            None => Ok(None),
        }
    }

    /// The data at a text, and none where no node is there.
    pub(crate) fn data(&self, text: &str) -> Result<Option<Data<A>>, AllocError>
        ensures { IfOk result (λ told. IsPath text.now
            → data_told told ≡ view_of sides.Data (tree_at (history_of self.now.history.now) (natural self.now.zxid)) (names_in text.now)) }
    {
        match path_of(self.alloc, text)? {
            Some(path) => self.history.data_at(self.zxid, &path),
            None => Ok(None),
        }
    }

    /// The names of the children at a text, and none where no node is there.
    pub(crate) fn names(&self, text: &str) -> Result<Option<Names<A>>, AllocError>
        ensures { IfOk result (λ told. IsPath text.now → names_told told
            ≡ view_of sides.Child (tree_at (history_of self.now.history.now) (natural self.now.zxid)) (names_in text.now)) }
    {
        match path_of(self.alloc, text)? {
            Some(path) => self.history.names_at(self.zxid, &path),
            None => Ok(None),
        }
    }
}
