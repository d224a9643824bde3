//! What a transaction tells the connection that watches.

ghost use Rattle.std.specs.Prelude.{◌≡◌, ◌≢◌, OnOk, OnErr, IsOk, IsErrOf, map, take as first, length as bytes_of};
ghost use Rattle.zk_nodes.specs.Path.{path_of, IsPathText};
ghost use Rattle.zk_nodes.specs.PathFault.{IsPath};
ghost use Rattle.zk_history.specs.Made.{change_of};
ghost use Rattle.zk_laws.specs.Server.{fires, leaves_set, fires_all, leaves_set_all};
ghost use Rattle.zk_bench.specs.declared.phase.Phase.TheVariants.{Accepted};
ghost use Rattle.zk_bench.specs.inner.Serving.{watched, fires_at, leaves_at, Tells};
ghost use Rattle.zk_bench.specs.declared.stop.Stop.TheVariants as stops;

use crate::connection::Connection;
use crate::phase::Phase;
use crate::replies::send_notice;
use crate::stop::Stop;
use std::alloc::Allocator;
use zk_history::Change;
use zk_records::Event;

// Sends an event at a path, if it is watched. A deletion is told once where both sides are.
fn send_event<A: Allocator + Copy>(
    alloc: A,
    event: Event,
    path: &str,
    connection: &mut Connection<A>,
) -> Result<(), Stop>
    requires { IsPathText path.now }
    ensures rest { connection.new ≡ record connection.old { watches = connection.new.watches; output = connection.new.output } }
    ensures left { watched connection.new.watches ≡ leaves_at event (path_of path.now) (watched connection.old.watches) }
    ensures stays { IsPath path.now → ¬ IsErrOf result stops.End }
    ensures tells { OnOk result (Tells
        (fires_at event (path_of path.now) (watched connection.old.watches)) connection.old.output.items connection.new.output.items) }
    ensures begun { first (bytes_of connection.old.output.items) connection.new.output.items ≡ connection.old.output.items }
{
    if connection.watches.fire(event, path) {
        send_notice(alloc, event, path, &mut connection.output)?;
    }
    Ok(())
}

// Sends what a change tells: the event at its path, and then that at its parent.
fn tell_change<A: Allocator + Copy>(
    alloc: A,
    change: &Change<A>,
    connection: &mut Connection<A>,
) -> Result<(), Stop>
    ensures rest { connection.new ≡ record connection.old { watches = connection.new.watches; output = connection.new.output } }
    ensures left { OnOk result (watched connection.new.watches ≡ leaves_set (change_of change.now) (watched connection.old.watches)) }
    ensures stays { ¬ IsErrOf result stops.End }
    ensures tells { OnOk result
        (Tells (fires (change_of change.now) (watched connection.old.watches)) connection.old.output.items connection.new.output.items) }
    ensures begun { first (bytes_of connection.old.output.items) connection.new.output.items ≡ connection.old.output.items }
{
    let (event, path) = match change {
        Change::Set(path, _) => {
            send_event(alloc, Event::DataChanged, path.as_str(), connection)?;
            return Ok(());
        }
        Change::Create(path, _, _) => (Event::Created, path),
        Change::Delete(path) => (Event::Deleted, path),
    };
    // The root is neither made nor deleted.
    let Some(parent) = path.parent() else {
        return Ok(());
    };
    send_event(alloc, event, path.as_str(), connection)?;
    send_event(alloc, Event::ChildrenChanged, parent, connection)?;
    Ok(())
}

/// Sends the notices of a transaction's changes, in their order: all of them, or with an error none.
pub(crate) fn tell_changes<A: Allocator + Copy>(
    alloc: A,
    changes: &[Change<A>],
    connection: &mut Connection<A>,
) -> Result<(), Stop>
    ensures rest { connection.new ≡ record connection.old { watches = connection.new.watches; output = connection.new.output } }
    ensures left { OnOk result
        (watched connection.new.watches ≡ leaves_set_all (map change_of changes.now) (watched connection.old.watches)) }
    ensures stays { ¬ IsErrOf result stops.End }
    ensures tells { OnOk result (Tells
        (fires_all (map change_of changes.now) (watched connection.old.watches)) connection.old.output.items connection.new.output.items) }
    ensures err { OnErr result (connection.new.output.items ≡ connection.old.output.items) }
{
    let start = connection.output.len();
    for change in changes {
        if let Err(stop) = tell_change(alloc, change, connection) {
            connection.output.truncate(start);
            return Err(stop);
        }
    }
    Ok(())
}

/// The same for a connection whose client may not have been accepted: then nothing is sent.
pub(crate) fn tell_accepted<A: Allocator + Copy>(
    alloc: A,
    changes: &[Change<A>],
    connection: &mut Connection<A>,
) -> Result<(), Stop>
    ensures rest { connection.new ≡ record connection.old { watches = connection.new.watches; output = connection.new.output } }
    ensures left { connection.old.phase ≡ Accepted
        → OnOk result (watched connection.new.watches ≡ leaves_set_all (map change_of changes.now) (watched connection.old.watches)) }
    ensures stays { ¬ IsErrOf result stops.End }
    ensures tells { connection.old.phase ≡ Accepted → OnOk result (Tells
        (fires_all (map change_of changes.now) (watched connection.old.watches)) connection.old.output.items connection.new.output.items) }
    ensures idle { connection.old.phase ≢ Accepted → connection.new ≡ connection.old }
    ensures quiet { connection.old.phase ≢ Accepted → IsOk result }
    ensures err { OnErr result (connection.new.output.items ≡ connection.old.output.items) }
{
    if connection.phase == Phase::Accepted {
        tell_changes(alloc, changes, connection)?;
    }
    Ok(())
}
