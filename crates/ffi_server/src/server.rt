//! A server in memory for one session.

ghost use Rattle.std.specs.Prelude.{◌≡◌, ◌≤◌, suc, pos, IfErr, IfOk};
ghost use Rattle.ffi_server.specs.inner.Moves.{Appends};
ghost use Rattle.ffi_server.specs.Moves.{begun, Changes, Connects, Cuts, Expires, Hears, Learns, Processes, Says, Takes};
ghost use Rattle.zk_history.specs.Made.{change_of as told_by};
ghost use Rattle.ffi_server.specs.Refused.{RefusesServer};
ghost use Rattle.zk_bench.specs.Stepping.{IsReady};

use crate::admitted::admit;
use crate::changes::{change_of, copied};
use crate::kind::kind_of;
use crate::undone::Undone;
use std::alloc::Global;
use zk_bench::{Bench, Change, History};

/// A bench of the global heap. Its session is the one whose client connects; what other sessions change is changed here, or learned
/// from a server of theirs.
#[derive(Drop)]
pub struct MemoryServer {
    pub bench: Bench<Global>,
}

// Which server has this number, counted from 0.
fn place_of(number: i32) -> Result<usize, Undone>
    ensures place { IfOk result (λ at. (number ≡ pos (suc at)) × (suc at ≤ 8)) }
    ensures refused { IfErr result (RefusesServer number) }
{
    if number < 1 || 8 < number {
        return Err(Undone::NoSuchServer);
    }
    Ok((number - 1) as usize)
}

impl MemoryServer {
    /// A server of the session of this number, over a history with the root alone.
    pub fn new(alloc: Global, session: i64) -> MemoryServer
        ensures is { result.bench ≡ begun session }
        ensures ready { IsReady result.bench }
    {
        let mut bench = Bench::new(alloc, History::new(alloc));
        bench.number(session);
        MemoryServer { bench }
    }

    // Appends a change at this moment, if the tree admits it.
    fn append(&mut self, alloc: Global, now_ms: u64, change: Change<Global>) -> Result<(), Undone>
        ensures { Appends now_ms (told_by change) self.old.bench result self.new.bench }
    {
        if let Err(why) = admit(alloc, self.bench.history(), &change) {
            drop(change);
            return Err(why);
        }
        if now_ms > i64::MAX as u64 {
            drop(change);
            return Err(Undone::NoTransaction);
        }
        if self.bench.history().last_zxid() == i64::MAX {
            drop(change);
            return Err(Undone::NoTransaction);
        }
        self.bench.now(now_ms);
        match self.bench.append(change) {
            Ok(()) => Ok(()),
            Err(_) => Err(Undone::Memory),
        }
    }

    /// Another session changes the tree: 1 makes a node with an owner, 2 writes its data, 3 deletes it.
    pub fn change(
        &mut self,
        alloc: Global,
        now_ms: u64,
        kind: i32,
        owner: i64,
        path: &[u8],
        content: &[u8],
    ) -> Result<(), Undone>
        ensures { Changes now_ms kind owner path.now content.now self.old.bench result self.new.bench }
    {
        let Some(kind) = kind_of(kind) else {
            return Err(Undone::NoSuchKind);
        };
        let change = change_of(alloc, kind, owner, path, content)?;
        self.append(alloc, now_ms, change)
    }

    /// Takes over the next transaction that another server has and this one has not.
    pub fn learn(&mut self, alloc: Global, other: &MemoryServer) -> Result<(), Undone>
        ensures { Learns other.now.bench self.old.bench result self.new.bench }
    {
        let last = self.bench.history().last_zxid();
        let Some((_, time, changes)) = other.bench.history().transaction(last as usize) else {
            return Err(Undone::Nothing);
        };
        if time < 0 || changes.len() != 1 {
            return Err(Undone::NoTransaction);
        }
        let change = copied(alloc, &changes[0])?;
        self.append(alloc, time as u64, change)
    }

    /// A new connection of the client to a server, 1 to 8.
    pub fn connect(&mut self, number: i32) -> Result<(), Undone>
        ensures { Connects number self.old.bench result self.new.bench }
    {
        let place = place_of(number)?;
        self.bench.connect(place + 1);
        Ok(())
    }

    /// The connection is gone.
    pub fn cut(&mut self) -> Result<(), Undone>
        ensures { Cuts self.old.bench result self.new.bench }
    {
        self.bench.disconnect();
        Ok(())
    }

    /// Bytes of the client come in.
    pub fn hear(&mut self, bytes: &[u8]) -> Result<(), Undone>
        ensures { Hears bytes.now self.old.bench result self.new.bench }
    {
        self.bench.receive(bytes).map_err(From::from)
    }

    /// The first bytes of the server go out, as many as there is room for.
    pub fn say(&mut self, room: &mut [u8], count: &mut usize) -> Result<(), Undone>
        ensures { Says room.old room.new count.new self.old.bench result self.new.bench }
    {
        *count = 0;
        let bytes = self.bench.output(room.len())?;
        *count = bytes.len();
        room[..bytes.len()].copy_from_slice(bytes.as_slice());
        drop(bytes);
        if self.bench.is_open() {
            Ok(())
        } else {
            Err(Undone::Nothing)
        }
    }

    /// The connected server processes the next whole request.
    pub fn process(&mut self, now_ms: u64) -> Result<(), Undone>
        ensures { Processes now_ms self.old.bench result self.new.bench }
    {
        let before = self.bench.waiting();
        self.bench.now(now_ms);
        self.bench.process()?;
        if self.bench.waiting() < before {
            Ok(())
        } else {
            Err(Undone::Nothing)
        }
    }

    /// A server, 1 to 8, takes the next transaction of the history.
    pub fn take(&mut self, number: i32) -> Result<(), Undone>
        ensures { Takes number self.old.bench result self.new.bench }
    {
        let place = place_of(number)?;
        self.bench.take(place + 1).map_err(From::from)
    }

    /// From now on clients are told that the session has expired, or are admitted again.
    pub fn expire(&mut self, is_expired: bool) -> Result<(), Undone>
        ensures { Expires is_expired self.old.bench result self.new.bench }
    {
        if is_expired {
            self.bench.expire();
        } else {
            self.bench.renew();
        }
        Ok(())
    }
}
