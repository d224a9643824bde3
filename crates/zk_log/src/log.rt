//! Whole logs.

ghost use Rattle.std.specs.Prelude.{◌≡◌, ◌≢◌, [], Ok, Err, IfOk, MatchResult, FitsSigned, length, map, pos};
ghost use Rattle.std.specs.Int.{w64};
ghost use Rattle.zk_jute.specs.Cursor.{bytes_left, payload_len};
ghost use Rattle.zk_jute.specs.Reading.{reading, Gives};
ghost use Rattle.zk_log.specs.Format.{file_header};
ghost use Rattle.zk_log.specs.Reading.{placed_at, entries_at, log_at, with_entries, ReadLog, IsLog};
ghost use Rattle.zk_log.specs.Views.{placed_of, log_of};
ghost use Rattle.zk_log.specs.inner.Views.{file_header_of};

use crate::entry::LogEntry;
use crate::entry_fault::EntryFault;
use crate::log_fault::LogFault;
use crate::record::{FoundRecord, next_record};
use std::alloc::Allocator;
use zk_jute::{Cursor, Readable, TakeError, Then};

/// The bytes `ZKLG`, as an int.
const MAGIC: i32 = 1_514_884_167;

/// The version of the format.
const VERSION: i32 = 2;

/// An entry, and the place of its record: a number of bytes, counted from the file's first.
#[derive(Drop)]
pub struct PlacedEntry<'a, A: Allocator> {
    pub place: usize,
    pub entry: LogEntry<'a, A>,
}

/// A log, whose zxids rise.
#[derive(Drop)]
pub struct Log<'a, A: Allocator> {
    pub dbid: i64,
    pub entries: Vec<PlacedEntry<'a, A>, A>,
    /// The place of a record after them that a crash has cut off.
    pub torn: Option<usize>,
}

/// The header of a file.
#[derive(Clone, Copy)]
pub(crate) struct LogHeader {
    pub(crate) magic: i32,
    pub(crate) version: i32,
    pub(crate) dbid: i64,
}

/// The header at the cursor, which moves past it. After an `Err` it may stand anywhere.
fn read_header<A: Allocator + Copy>(alloc: A, at: &mut Cursor<'_>) -> Result<LogHeader, TakeError>
    ensures len { payload_len at.new ≡ payload_len at.old }
    ensures memory { result ≢ Err TakeError.Memory }
    ensures gives { Gives file_header_of result (bytes_left at.new) (reading file_header (payload_len at.old) (bytes_left at.old)) }
{
    let Then(magic, Then(version, dbid)) = Then::read(alloc, at)?;
    Ok(LogHeader {
        magic,
        version,
        dbid,
    })
}

/// The entry of the record at a place, if its zxid is above this one.
#[tactic(auto, unfolding(crate::specs::Reading::placed_at))]
fn read_placed<'a, A: Allocator + Copy>(
    alloc: A,
    place: usize,
    low: i64,
    bytes: &'a [u8],
) -> Result<PlacedEntry<'a, A>, LogFault>
    ensures gives { MatchResult result (λ one. placed_at place low bytes.entry.now ≡ Ok (placed_of one))
        (λ e. e ≢ LogFault.Memory → placed_at place low bytes.entry.now ≡ Err e) }
    ensures fits { IfOk result (λ one. FitsSigned w64 one.entry.zxid) }
{
    match LogEntry::read(alloc, bytes) {
        Err(EntryFault::Unread(TakeError::Memory)) => Err(LogFault::Memory),
        Err(fault) => Err(LogFault::Entry(place, fault)),
        Ok(entry) => {
            if low < entry.zxid {
                Ok(PlacedEntry { place, entry })
            } else {
                let zxid = entry.zxid;
                drop(entry);
                Err(LogFault::Order(place, zxid))
            }
        }
    }
}

/// Adds the entries of at most this many records, of a file of this length. Gives the place of a record after them that is cut off.
fn push_entries<'a, A: Allocator + Copy>(
    alloc: A,
    most: usize,
    end: usize,
    bytes: &'a [u8],
    entries: &mut Vec<PlacedEntry<'a, A>, A>,
) -> Result<Option<usize>, LogFault>
    requires { entries.old.items ≡ [] }
    ensures { MatchResult result
        (λ torn. entries_at most end (pos 0) bytes.entry.now ≡ Ok (map placed_of entries.new.items, torn))
        (λ e. e ≢ LogFault.Memory → entries_at most end (pos 0) bytes.entry.now ≡ Err e) }
{
    let mut low = 0;
    let mut rest = bytes;
    for _ in 0..most {
        let place = end.saturating_sub(rest.len());
        match next_record(alloc, place, rest)? {
            FoundRecord::End => return Ok(None),
            FoundRecord::Torn => return Ok(Some(place)),
            FoundRecord::Holds(entry, behind) => {
                let one = read_placed(alloc, place, low, entry)?;
                low = one.entry.zxid;
                rest = behind;
                entries.push(one)?;
            }
        }
    }
    Ok(None)
}

/// The entries after a header, of a file of this length.
fn read_log<'a, A: Allocator + Copy>(
    alloc: A,
    dbid: i64,
    end: usize,
    bytes: &'a [u8],
) -> Result<Log<'a, A>, LogFault>
    ensures { MatchResult result
        (λ log. with_entries dbid (entries_at (length bytes.entry.now) end (pos 0) bytes.entry.now) ≡ Ok (log_of log))
        (λ e. e ≢ LogFault.Memory → with_entries dbid (entries_at (length bytes.entry.now) end (pos 0) bytes.entry.now) ≡ Err e) }
{
    let mut entries = Vec::new(alloc);
    match push_entries(alloc, bytes.len(), end, bytes, &mut entries) {
        Err(fault) => Err(fault),
        Ok(torn) => Ok(Log {
            dbid,
            entries,
            torn,
        }),
    }
}

/// The log that these bytes are.
#[tactic(auto, unfolding(crate::specs::Reading::log_at))]
fn log_at<'a, A: Allocator + Copy>(alloc: A, bytes: &'a [u8]) -> Result<Log<'a, A>, LogFault>
    ensures { MatchResult result (λ log. log_at bytes.entry.now ≡ Ok (log_of log))
        (λ e. e ≢ LogFault.Memory → log_at bytes.entry.now ≡ Err e) }
{
    let mut at = Cursor::new(bytes);
    let header = match read_header(alloc, &mut at) {
        Err(fault) => return Err(LogFault::Header(fault)),
        Ok(header) => header,
    };
    if header.magic != MAGIC {
        return Err(LogFault::Magic);
    }
    if header.version != VERSION {
        return Err(LogFault::Version(header.version));
    }
    read_log(alloc, header.dbid, bytes.len(), at.rest())
}

impl<'a, A: Allocator + Copy> Log<'a, A> {
    /// The log that these bytes are.
    ///
    /// # Errors
    ///
    /// The first fault from left to right, or `Memory` if the allocator refused a request.
    pub fn read(alloc: A, bytes: &'a [u8]) -> Result<Log<'a, A>, LogFault>
        // What is read is spelled so.
        ensures found { IfOk result (λ log. IsLog bytes.entry.now (log_of log)) }
        // What is spelled so is read, unless memory runs out.
        ensures only { (log : ReadLog) → IsLog bytes.entry.now log
            → MatchResult result (λ read. log_of read ≡ log) (λ e. e ≡ LogFault.Memory) }
        // Which log, or which fault it is.
        ensures exact { MatchResult result (λ log. log_at bytes.entry.now ≡ Ok (log_of log))
            (λ e. e ≢ LogFault.Memory → log_at bytes.entry.now ≡ Err e) }
    {
        log_at(alloc, bytes)
    }
}
