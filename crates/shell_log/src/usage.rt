//! Faults of the words of a command line, and its help.

use std::fmt;

/// What `zk_shell history --log --help` prints.
pub const LOG_HELP: &str = "\
Prints what transaction logs of ZooKeeper say, a line for each change

Usage: zk_shell history --log <FILE>.. [--path <PATH>] [--at <ZXID>] [--json]
       zk_shell history --log <FILE>.. --script [--at <ZXID>]

Options:
      --log <FILE>..  Logs of one server: log.* of its dataDir/version-2
      --path <PATH>   Only what concerns this path
      --at <ZXID>     With --path what the path held at this zxid, else that
                      transaction alone
      --json          An object a line
      --script        The history up to the zxid of --at, or all of it, as a
                      script: `zk_shell history` answers what was at a zxid,
                      `zk_shell rehearse` plays it to a client
  -h, --help          Print help

Logs are taken in the order of their zxids. Printed:
  ZXID TIME SESSION create PATH DATA OWNER   OWNER: its session, or 0
  ZXID TIME SESSION container PATH DATA
  ZXID TIME SESSION ttl PATH DATA MS
  ZXID TIME SESSION set PATH DATA VERSION
  ZXID TIME SESSION acl PATH VERSION
  ZXID TIME SESSION delete PATH              Also for each node of a session
                                             that ends, where its close or the
                                             logs before it tell it
  ZXID TIME SESSION check PATH VERSION       A part of a transaction
  ZXID TIME SESSION open TIMEOUT             A session begins
  ZXID TIME SESSION close                    It ends
  ZXID TIME SESSION error CODE               Nothing changed
  gap FROM TO            Zxids that are not in the logs
  unknown PATH           What it held then is not in the logs
  absent PATH            There was no such node
  torn FILE BYTE         A crash has cut off the record at this byte
  digest FILE BYTE       The record at this byte has the digest of another
                         tree than the logs make: transactions before it are
                         missing, or were taken back
  unchecked FILE BYTE    From this record on digests are not compared

TIME is in milliseconds since 1970. DATA is hex, \\e for no bytes, \\0 for
null. In a PATH each byte outside 21 to 7e, and the backslash, is \\x and two
digits. The logs begin with the first transaction if their first zxid ends in
1 and is of epoch 0 or 1; else what was before them is unknown. Then, and after
a gap, there is no script. A script has no access lists, and not what servers of
an ensemble write into /zookeeper/config when they start. Files are read whole,
and with --script all data are kept in memory.

Servers write digests from 3.6 on. From the first transaction they are compared
up to a gap, a record without one, or, if the tree is large, a session's close
that tells no paths. Servers get them wrong while a write of the root itself is
on its way: the next 1,000 transactions are not compared.

With --path an entry that those before it rule out, as a creation of the node
while it is there, is told too, and what the path holds is unknown from it on.

Exit status: 0 done; 1 a log has a fault, a wrong digest or such an entry, told
with its byte; 2 a fault of the command line; 3 out of memory; 4 standard output
failed; 10 a file is not read.
";

/// Why a command line asks for nothing.
#[derive(Clone, Copy)]
pub enum LogUsage {
    /// It asks for help.
    Help,
    /// No file is named.
    NoFile,
    /// A word that is no option and no value.
    Unexpected,
    /// An option without its value.
    NoValue,
    /// A zxid that is no number.
    NoNumber,
    /// A script of one path, or of objects.
    Script,
    /// Memory ran out.
    Memory,
}

impl fmt::Display for LogUsage {
    fn fmt<W: fmt::Write>(&self, f: &mut fmt::Formatter<W>) -> fmt::Result {
        match self {
            LogUsage::Help => write!(f, "help is asked for"),
            LogUsage::NoFile => write!(f, "--log names no file"),
            LogUsage::Unexpected => write!(f, "a word is unexpected"),
            LogUsage::NoValue => write!(f, "an option has no value"),
            LogUsage::NoNumber => write!(f, "--at wants a zxid"),
            LogUsage::Script => write!(f, "--script takes no --path and no --json"),
            LogUsage::Memory => write!(f, "out of memory"),
        }
    }
}
