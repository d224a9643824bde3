//! What happens to a world while a program runs.

use crate::world::World;
use anyhow::Result;
use std::alloc::Global;
use std::cell::RefCell;
use zk_bench::{Change, History};
use zk_client::Path;

/// What another session does to the node of a path.
#[derive(Clone, Copy)]
pub enum Edit {
    /// Makes it with these data, as an ephemeral node of the session of this number, or as none where that is 0.
    Makes(&'static str, &'static str, i64),
    /// Sets its data.
    Sets(&'static str, &'static str),
    Deletes(&'static str),
}

/// What happens between two moments.
#[derive(Clone, Copy)]
pub enum Event {
    /// Another session makes these edits, each by a transaction of its own, and the server takes them.
    Edits(&'static [Edit]),
    /// The connection is cut, and none can be made.
    Parts,
    /// A connection can be made again.
    Joins,
    /// The session expires.
    Expires,
    /// The answer to the next write is lost.
    Loses,
}

impl Edit {
    /// The change as a server takes it.
    fn change(self, alloc: Global) -> Result<Change<Global>> {
        let (path, text) = match self {
            Edit::Makes(path, text, _) | Edit::Sets(path, text) => (path, text),
            Edit::Deletes(path) => return Ok(Change::Delete(Path::new(alloc, path)?)),
        };
        let data = Some(Vec::from_slice(alloc, text.as_bytes())?);
        let path = Path::new(alloc, path)?;
        Ok(match self {
            Edit::Makes(_, _, owner) => Change::Create(path, data, owner),
            _ => Change::Set(path, data),
        })
    }
}

/// Adds a transaction of these edits to a history.
pub fn add_transaction(alloc: Global, edits: &[Edit], history: &mut History<Global>) -> Result<()> {
    history.begin(history.last_zxid().saturating_add(1), 0)?;
    for edit in edits {
        history.change(edit.change(alloc)?)?;
    }
    Ok(())
}

impl Event {
    /// It happens to the world.
    pub fn happen(self, alloc: Global, world: &RefCell<World>) -> Result<()> {
        let Ok(mut world) = world.try_borrow_mut() else {
            return Ok(());
        };
        match self {
            Event::Edits(edits) => {
                for edit in edits {
                    world.change(edit.change(alloc)?)?;
                }
            }
            Event::Parts => world.part(),
            Event::Joins => world.join(),
            Event::Expires => world.expire(),
            Event::Loses => world.lose(),
        }
        Ok(())
    }
}
