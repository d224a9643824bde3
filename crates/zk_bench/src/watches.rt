//! The watches of one connection.

ghost use Rattle.std.specs.Prelude.{◌≡◌, ◌&&◌, ◌||◌, [], OnOk, cond};
ghost use Rattle.std.specs.FinSet as set;
ghost use Rattle.zk_nodes.specs.inner.Names.{names_of};
ghost use Rattle.zk_nodes.specs.declared.side.Side.TheVariants as sides;
ghost use Rattle.zk_records.specs.Events.{concerns};
ghost use Rattle.zk_nodes.specs.Path.{path_of, IsPathText};
ghost use Rattle.zk_bench.specs.inner.Watching.{used_up};
ghost use Rattle.zk_bench.specs.inner.Serving.{watched, leaves_at, is_watched};

use std::alloc::{AllocError, Allocator};
use std::collections::BTreeSet;
use zk_records::{Event, Side};

/// The paths that one connection watches, on both sides. A watch is used up by the first event that concerns it.
#[derive(Drop)]
pub(crate) struct Watches<A: Allocator + Copy> {
    pub(crate) data: BTreeSet<String<A>, A>,
    pub(crate) child: BTreeSet<String<A>, A>,
}

/// Adds a path to those of one side.
pub(crate) fn add_watch<A: Allocator + Copy>(
    alloc: A,
    paths: &mut BTreeSet<String<A>, A>,
    path: &str,
) -> Result<(), AllocError>
    ensures { OnOk result (names_of paths.new ≡ set.insert (names_of paths.old) path.now) }
{
    paths.insert(String::from_str(alloc, path)?)?;
    Ok(())
}

/// Adds a path to those of one side, where it is to be watched.
pub(crate) fn add_where<A: Allocator + Copy>(
    alloc: A,
    paths: &mut BTreeSet<String<A>, A>,
    watch: bool,
    path: &str,
) -> Result<(), AllocError>
    ensures { OnOk result (names_of paths.new ≡ cond watch (set.insert (names_of paths.old) path.now) (names_of paths.old)) }
{
    if watch {
        add_watch(alloc, paths, path)?;
    }
    Ok(())
}

// Uses up the watch on a path of one side, if the event concerns that side, and says whether there was one.
fn use_up<A: Allocator + Copy>(
    paths: &mut BTreeSet<String<A>, A>,
    concerned: bool,
    path: &str,
) -> bool
    ensures paths { names_of paths.new ≡ used_up concerned (names_of paths.old) path.now }
    ensures there { result ≡ (concerned && set.contains (names_of paths.old) path.now) }
{
    if concerned { paths.remove(path) } else { false }
}

impl<A: Allocator + Copy> Watches<A> {
    /// No watch.
    pub(crate) fn new(alloc: A) -> Watches<A>
        ensures data { result.data.keys ≡ [] }
        ensures child { result.child.keys ≡ [] }
    {
        Watches {
            data: BTreeSet::new(alloc),
            child: BTreeSet::new(alloc),
        }
    }

    /// Uses up the watches that an event at a path concerns, and says whether there was one.
    pub(crate) fn fire(&mut self, event: Event, path: &str) -> bool
        ensures left { IsPathText path.now → watched self.new ≡ leaves_at event (path_of path.now) (watched self.old) }
        ensures told { IsPathText path.now → result ≡ is_watched event (path_of path.now) (watched self.old) }
        ensures data { names_of self.new.data ≡ used_up (concerns event sides.Data) (names_of self.old.data) path.now }
        ensures child { names_of self.new.child ≡ used_up (concerns event sides.Child) (names_of self.old.child) path.now }
        ensures fired { result ≡ ((concerns event sides.Data && set.contains (names_of self.old.data) path.now)
            || (concerns event sides.Child && set.contains (names_of self.old.child) path.now)) }
    {
        let on_data = use_up(&mut self.data, event.concerns(Side::Data), path);
        let on_child = use_up(&mut self.child, event.concerns(Side::Child), path);
        on_data | on_child
    }
}
