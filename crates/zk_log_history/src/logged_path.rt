//! What logs tell of one path, whatever stood before them.

ghost use Rattle.std.specs.Prelude.{◌≡◌, ◌<◌, ◌^◌, pos, map, Ok, IfOk, IfErr};
ghost use Rattle.zk_nodes.specs.Path.{path_of};
ghost use Rattle.zk_log.specs.Views.{placed_of};
ghost use Rattle.zk_log_history.specs.Known.{IsStop, entries_told, known_of, placed_told, unknown, zxid_told};

use crate::knowledge::Knowledge;
use crate::next::{comes_next, natural};
use crate::path_entry::with_entry;
use crate::untold::{Untold, UntoldEntry};
use std::alloc::Allocator;
use std::marker::Model;
use zk_log::PlacedEntry;
use zk_nodes::Path;

/// What logs tell of the data at a path at a zxid. They may begin at any transaction.
#[derive(Drop)]
pub struct LoggedPath<A: Allocator + Copy> {
    alloc: A,
    path: Path<A>,
    until: i64,
    last: u64,
    known: Knowledge<A>,
}

impl<A: Allocator + Copy> Model for LoggedPath<A> {
    ghost use Rattle.std.specs.Prelude.{◌<◌, ◌^◌};
    ghost use Rattle.zk_nodes.specs.Path.{path_of};
    ghost use Rattle.zk_log_history.specs.Known.{PathView, known_of};

    ghost Value = { PathView };

    ghost view = { λ told. record { path = path_of told.path; until = told.until; last = told.last; known = known_of told.known } };

    ghost invariant = { λ told. told.last < 2 ^ 63 };
}

/// The zxid of an entry after the last, or after 0, if none is missing between them. The first entry may be any.
fn next_zxid(last: u64, zxid: i64) -> Result<u64, Untold>
    requires { last < 2 ^ 63 }
    ensures exact { result ≡ zxid_told last zxid }
    ensures small { IfOk result (λ next. next < 2 ^ 63) }
{
    let next = natural(zxid);
    if next <= last {
        return Err(Untold::Order);
    }
    if last == 0 || comes_next(last, next) {
        Ok(next)
    } else {
        Err(Untold::Missing)
    }
}

impl<A: Allocator + Copy> LoggedPath<A> {
    /// Nothing is known of the path at the zxid.
    pub fn new(alloc: A, path: Path<A>, zxid: i64) -> LoggedPath<A>
        ensures { result ≡ unknown (path_of path) zxid }
    {
        LoggedPath {
            alloc,
            path,
            until: zxid,
            last: 0,
            known: Knowledge::Unknown,
        }
    }

    /// The same with the entry of a record.
    fn followed(self, one: &PlacedEntry<'_, A>) -> Result<LoggedPath<A>, UntoldEntry>
        ensures told { IfOk result (λ told. placed_told (placed_of one.now) self ≡ Ok told) }
        ensures refused { IfErr result (λ fault. IsStop (placed_told (placed_of one.now) self) fault) }
    {
        let entry = &one.entry;
        if self.until < entry.zxid {
            return Ok(self);
        }
        let place = one.place;
        let alloc = self.alloc;
        let path = self.path;
        let until = self.until;
        let last = match next_zxid(self.last, entry.zxid) {
            Err(why) => return Err(UntoldEntry { place, why }),
            Ok(last) => last,
        };
        match with_entry(alloc, &path, entry, &entry.txn, self.known) {
            Err(why) => Err(UntoldEntry { place, why }),
            Ok(known) => Ok(LoggedPath {
                alloc,
                path,
                until,
                last,
                known,
            }),
        }
    }

    /// The same with what these entries of a log tell; those above the zxid are left out.
    ///
    /// # Errors
    ///
    /// The first entry that is no transaction after those before it, by what is known of the path, and why. `Memory`, if the allocator
    /// refused a request.
    pub fn with(self, entries: &[PlacedEntry<'_, A>]) -> Result<LoggedPath<A>, UntoldEntry>
        ensures told { IfOk result (λ told. entries_told (map placed_of entries.now) self ≡ Ok told) }
        ensures refused { IfErr result (λ fault. IsStop (entries_told (map placed_of entries.now) self) fault) }
    {
        let mut told = self;
        for one in entries {
            told = told.followed(one)?;
        }
        Ok(told)
    }

    /// What is known of the path at the zxid, by the entries so far.
    pub fn known(&self) -> &Knowledge<A>
        ensures { known_of result.now ≡ self.now.known }
    {
        &self.known
    }

    /// The zxid of the last entry up to the zxid, or 0.
    pub fn last_zxid(&self) -> i64
        ensures { result ≡ pos self.now.last }
    {
        self.last as i64
    }
}
