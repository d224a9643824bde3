//! What is known of a node beside its data.

ghost use Rattle.std.specs.Prelude.{false};
ghost use Rattle.zk_nodes.specs.StatLayout.{stat};

use std::alloc::Allocator;
use zk_jute::{Cursor, PutError, Readable, Record, TakeError, Then};

/// What is known of a node beside its data.
#[derive(Clone, Copy)]
pub struct Stat {
    pub czxid: i64,
    pub mzxid: i64,
    pub ctime: i64,
    pub mtime: i64,
    pub version: i32,
    pub cversion: i32,
    pub aversion: i32,
    pub ephemeral_owner: i64,
    pub data_length: i32,
    pub num_children: i32,
    pub pzxid: i64,
}

impl<A: Allocator + Copy> Record<A> for Stat {
    ghost layout = { stat };

    ghost view = { λ s. (
      s.czxid,
      (
        s.mzxid,
        (s.ctime, (s.mtime, (s.version, (s.cversion, (s.aversion, (s.ephemeral_owner, (s.data_length, (s.num_children, s.pzxid)))))))),
      ),
    ) };

    fn write(&self, out: &mut Vec<u8, A>) -> Result<(), PutError> {
        let last = Then(self.data_length, Then(self.num_children, self.pzxid));
        let owner = Then(self.ephemeral_owner, last);
        let versions = Then(
            self.version,
            Then(self.cversion, Then(self.aversion, owner)),
        );
        let times = Then(self.ctime, Then(self.mtime, versions));
        Then(self.czxid, Then(self.mzxid, times)).write(out)
    }
}

impl<'a, A: Allocator + Copy> Readable<'a, A> for Stat {
    ghost takes_memory = { false };

    fn read(alloc: A, at: &mut Cursor<'a>) -> Result<Stat, TakeError> {
        let Then(czxid, Then(mzxid, Then(ctime, Then(mtime, versions)))) = Then::read(alloc, at)?;
        let Then(version, Then(cversion, Then(aversion, Then(ephemeral_owner, last)))) = versions;
        let Then(data_length, Then(num_children, pzxid)) = last;
        Ok(Stat {
            czxid,
            mzxid,
            ctime,
            mtime,
            version,
            cversion,
            aversion,
            ephemeral_owner,
            data_length,
            num_children,
            pzxid,
        })
    }
}
