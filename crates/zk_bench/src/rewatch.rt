//! Watches that a client sets again after a reconnect.

ghost use Rattle.std.specs.Prelude.{◌≡◌, ℕ, pos, [], ◌∷◌, OnOk, OnErr, IsErrOf, take as first, length as bytes_of};
ghost use Rattle.std.specs.List.{AllByRecursion};
ghost use Rattle.zk_nodes.specs.Path.{path_of, IsPathText};
ghost use Rattle.zk_nodes.specs.History.{tree_at};
ghost use Rattle.zk_history.specs.HistoryView.{history_of, natural};
ghost use Rattle.zk_nodes.specs.PathFault.{IsPath};
ghost use Rattle.zk_watches.specs.Lists.{Lists};
ghost use Rattle.zk_laws.specs.Server.{both, part_tells, part_sets};
ghost use Rattle.zk_bench.specs.declared.stop.Stop.TheVariants as stops;
ghost use Rattle.zk_bench.specs.inner.Serving.{watched, Tells};
ghost use Rattle.zk_bench.specs.inner.Restoring.{missed_of, side_of, with_watch, texts_in, Rewatches, RestoresPart, IsPart, ArePaths};

use crate::connection::Connection;
use crate::replies::{send_header, send_notice};
use crate::stop::Stop;
use crate::tree::{Tree, text_of};
use crate::watches::{Watches, add_watch};
use std::alloc::{AllocError, Allocator};
use zk_jute::Text;
use zk_records::{Event, ReplyHeader, SetWatches, Stat};

/// The lists of a setWatches request.
#[derive(Clone, Copy)]
pub(crate) enum Watched {
    /// Paths whose nodes were there.
    Data,
    /// Paths at which no node was.
    Exist,
    /// Paths whose children were asked for.
    Child,
}

// What a client missed at a path of this list since the zxid that it saw last: the event that is sent in place of the
// watch, and none where the watch is set.
fn missed(list: Watched, stat: Option<Stat>, relative: i64) -> Option<Event>
    ensures is { result ≡ missed_of list stat relative }
{
    match (list, stat) {
        (Watched::Exist, None) => None,
        (Watched::Exist, Some(_)) => Some(Event::Created),
        (Watched::Data | Watched::Child, None) => Some(Event::Deleted),
        (Watched::Data, Some(stat)) => {
            if stat.mzxid > relative {
                Some(Event::DataChanged)
            } else {
                None
            }
        }
        (Watched::Child, Some(stat)) => {
            if stat.pzxid > relative {
                Some(Event::ChildrenChanged)
            } else {
                None
            }
        }
    }
}

// Leaves a watch on the side of this list.
fn watch<A: Allocator + Copy>(
    alloc: A,
    list: Watched,
    path: &str,
    watches: &mut Watches<A>,
) -> Result<(), AllocError>
    ensures { IsPathText path.now → OnOk result (watched watches.new ≡ with_watch (side_of list) (path_of path.now) (watched watches.old)) }
{
    match list {
        Watched::Data | Watched::Exist => add_watch(alloc, &mut watches.data, path)?,
        Watched::Child => add_watch(alloc, &mut watches.child, path)?,
    }
    Ok(())
}

// Sends what was missed at a path, or leaves the watch.
fn rewatch<A: Allocator + Copy>(
    tree: &Tree<'_, A>,
    list: Watched,
    path: &str,
    relative: i64,
    connection: &mut Connection<A>,
) -> Result<(), Stop>
    ensures rest { connection.new ≡ record connection.old { watches = connection.new.watches; output = connection.new.output } }
    ensures begun { first (bytes_of connection.old.output.items) connection.new.output.items ≡ connection.old.output.items }
    ensures stays { IsPath path.now → ¬ IsErrOf result stops.End }
    ensures rewatches { (since : ℕ) → relative ≡ pos since → IsPath path.now
        → OnOk result (Rewatches list since (tree_at (history_of tree.now.history.now) (natural tree.now.zxid)) (path.now ∷ [])
        (watched connection.old.watches) (watched connection.new.watches) connection.old.output.items connection.new.output.items) }
{
    match missed(list, tree.stat(path)?, relative) {
        Some(event) => {
            send_notice(tree.alloc, event, path, &mut connection.output)?;
        }
        None => {
            watch(tree.alloc, list, path, &mut connection.watches)?;
        }
    }
    Ok(())
}

// Goes through one list.
fn rewatch_all<A: Allocator + Copy>(
    tree: &Tree<'_, A>,
    list: Watched,
    paths: &[Text<A>],
    relative: i64,
    connection: &mut Connection<A>,
) -> Result<(), Stop>
    ensures rest { connection.new ≡ record connection.old { watches = connection.new.watches; output = connection.new.output } }
    ensures begun { first (bytes_of connection.old.output.items) connection.new.output.items ≡ connection.old.output.items }
    ensures stays { AllByRecursion IsPath (texts_in paths.now) → ¬ IsErrOf result stops.End }
    ensures rewatches { (since : ℕ) → relative ≡ pos since → AllByRecursion IsPath (texts_in paths.now)
        → OnOk result (Rewatches list since (tree_at (history_of tree.now.history.now) (natural tree.now.zxid)) (texts_in paths.now)
        (watched connection.old.watches) (watched connection.new.watches) connection.old.output.items connection.new.output.items) }
{
    for path in paths {
        rewatch(tree, list, text_of(path), relative, connection)?;
    }
    Ok(())
}

// Goes through the three lists.
fn rewatch_lists<A: Allocator + Copy>(
    tree: &Tree<'_, A>,
    request: &SetWatches<A>,
    connection: &mut Connection<A>,
) -> Result<(), Stop>
    ensures rest { connection.new ≡ record connection.old { watches = connection.new.watches; output = connection.new.output } }
    ensures begun { first (bytes_of connection.old.output.items) connection.new.output.items ≡ connection.old.output.items }
    ensures stays { (since : ℕ) (part : Lists) → IsPart request.now since part → ArePaths part → ¬ IsErrOf result stops.End }
    ensures tells { (since : ℕ) (part : Lists) → IsPart request.now since part → ArePaths part
        → OnOk result (Tells (part_tells since (tree_at (history_of tree.now.history.now) (natural tree.now.zxid)) part)
        connection.old.output.items connection.new.output.items) }
    ensures left { (since : ℕ) (part : Lists) → IsPart request.now since part → ArePaths part
        → OnOk result (watched connection.new.watches ≡ both (watched connection.old.watches)
        (part_sets since (tree_at (history_of tree.now.history.now) (natural tree.now.zxid)) part)) }
{
    let relative = request.relative_zxid;
    let data = request.data_watches.or_empty();
    rewatch_all(tree, Watched::Data, data, relative, connection)?;
    let exist = request.exist_watches.or_empty();
    rewatch_all(tree, Watched::Exist, exist, relative, connection)?;
    let child = request.child_watches.or_empty();
    rewatch_all(tree, Watched::Child, child, relative, connection)?;
    Ok(())
}

/// Answers setWatches: sets the watches, or sends what was missed, path by path: the data, the exist and the child list.
/// Where the reply can't be sent, nothing is.
pub(crate) fn set_watches<A: Allocator + Copy>(
    tree: &Tree<'_, A>,
    xid: i32,
    request: &SetWatches<A>,
    connection: &mut Connection<A>,
) -> Result<(), Stop>
    ensures rest { connection.new ≡ record connection.old { watches = connection.new.watches; output = connection.new.output } }
    ensures stays { (since : ℕ) (part : Lists) → IsPart request.now since part → ArePaths part → ¬ IsErrOf result stops.End }
    ensures restores { (since zxid : ℕ) (part : Lists) → IsPart request.now since part → ArePaths part → tree.now.zxid ≡ pos zxid
        → OnOk result (RestoresPart (tree_at (history_of tree.now.history.now) zxid) zxid xid since part connection.old connection.new) }
    ensures err { OnErr result (connection.new.output.items ≡ connection.old.output.items) }
{
    let header = ReplyHeader {
        xid,
        zxid: tree.zxid,
        err: 0,
    };
    let start = connection.output.len();
    if let Err(stop) = rewatch_lists(tree, request, connection) {
        connection.output.truncate(start);
        return Err(stop);
    }
    let sent = send_header(tree.alloc, header, &mut connection.output);
    if sent.is_err() {
        connection.output.truncate(start);
    }
    sent
}
