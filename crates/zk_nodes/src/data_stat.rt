//! What data watches keep true of a node.

ghost use Rattle.std.specs.Prelude.{◌≡◌};
ghost use Rattle.zk_nodes.specs.DataStats.{data_stat_of};

use crate::stat::Stat;

/// The fields of a `Stat` that change only where a data watch fires.
// The two of 32 bits are side by side: fields lie in the order of the source, and so no bytes are lost between them.
#[derive(Clone, Copy, PartialEq, Eq)]
pub struct DataStat {
    pub czxid: i64,
    pub mzxid: i64,
    pub ctime: i64,
    pub mtime: i64,
    pub version: i32,
    pub data_length: i32,
    pub ephemeral_owner: i64,
}

impl From<Stat> for DataStat {
    ghost from_gives = { λ s d. d ≡ data_stat_of s };

    fn from(stat: Stat) -> DataStat {
        DataStat {
            czxid: stat.czxid,
            mzxid: stat.mzxid,
            ctime: stat.ctime,
            mtime: stat.mtime,
            version: stat.version,
            data_length: stat.data_length,
            ephemeral_owner: stat.ephemeral_owner,
        }
    }
}
