//! Records: an entry with its checksum, its length and the byte `B` after it.

ghost use Rattle.std.specs.Prelude.{◌≡◌, ◌≢◌, Ok, Err, MatchResult};
ghost use Rattle.zk_jute.specs.Cursor.{bytes_left, payload_len};
ghost use Rattle.zk_jute.specs.Reading.{reading, Gives};
ghost use Rattle.zk_log.specs.Format.{record_front};
ghost use Rattle.zk_log.specs.Reading.{are_zeros, record_at, with_entry};
ghost use Rattle.zk_log.specs.Views.{found_of};
ghost use Rattle.zk_log.specs.inner.Views.{record_front_of};

use crate::checksum::adler32;
use crate::log_fault::LogFault;
use std::alloc::Allocator;
use zk_jute::{BytesRef, Cursor, Readable, TakeError, Then};

/// What stands at a place of a log.
#[derive(Clone, Copy)]
pub enum FoundRecord<'a> {
    /// The end, or zeros to the end.
    End,
    /// A record that a crash has cut off: its last byte at least is 0 or not there, and so is all after it.
    Torn,
    /// A record with this entry, and the bytes after the record.
    Holds(&'a [u8], &'a [u8]),
}

/// The checksum and the entry of a record.
#[derive(Clone, Copy)]
pub(crate) struct RecordFront<'a> {
    pub(crate) sum: i64,
    pub(crate) entry: BytesRef<'a>,
}

/// Whether each byte is 0.
fn are_zeros(bytes: &[u8]) -> bool
    ensures { result ≡ are_zeros bytes.now }
{
    bytes.iter().all(|byte| *byte == 0)
}

/// The checksum and the entry at the cursor, which moves past them. After an `Err` it may stand anywhere.
fn read_record<'a, A: Allocator + Copy>(
    alloc: A,
    at: &mut Cursor<'a>,
) -> Result<RecordFront<'a>, TakeError>
    ensures len { payload_len at.new ≡ payload_len at.old }
    ensures memory { result ≢ Err TakeError.Memory }
    ensures gives { Gives record_front_of result (bytes_left at.new) (reading record_front (payload_len at.old) (bytes_left at.old)) }
{
    let Then(sum, entry) = Then::read(alloc, at)?;
    Ok(RecordFront { sum, entry })
}

/// What an entry with this checksum is, by the bytes after it.
fn with_entry<'a>(
    place: usize,
    sum: i64,
    entry: &'a [u8],
    behind: &'a [u8],
) -> Result<FoundRecord<'a>, LogFault>
    ensures { MatchResult result (λ f. with_entry place sum entry.entry.now behind.entry.now ≡ Ok (found_of f))
        (λ e. with_entry place sum entry.entry.now behind.entry.now ≡ Err e) }
{
    if entry.is_empty() {
        return if are_zeros(behind) {
            Ok(FoundRecord::Torn)
        } else {
            Err(LogFault::Length(place))
        };
    }
    match behind {
        [] => Ok(FoundRecord::Torn),
        [b'B', rest @ ..] => {
            if sum == i64::from(adler32(entry)) {
                Ok(FoundRecord::Holds(entry, rest))
            } else {
                Err(LogFault::Checksum(place))
            }
        }
        [..] => {
            if are_zeros(behind) {
                Ok(FoundRecord::Torn)
            } else {
                Err(LogFault::EndByte(place))
            }
        }
    }
}

/// What these bytes are, which begin at a place of a log and go to its end.
#[tactic(auto, unfolding(crate::specs::Reading::record_at))]
pub fn next_record<'a, A: Allocator + Copy>(
    alloc: A,
    place: usize,
    bytes: &'a [u8],
) -> Result<FoundRecord<'a>, LogFault>
    ensures { MatchResult result (λ f. record_at place bytes.entry.now ≡ Ok (found_of f))
        (λ e. record_at place bytes.entry.now ≡ Err e) }
{
    if are_zeros(bytes) {
        return Ok(FoundRecord::End);
    }
    let mut at = Cursor::new(bytes);
    match read_record(alloc, &mut at) {
        Err(TakeError::Short(_)) => Ok(FoundRecord::Torn),
        Err(_) => Err(LogFault::Length(place)),
        Ok(front) => match front.entry.bytes {
            None => Err(LogFault::Length(place)),
            Some(entry) => with_entry(place, front.sum, entry, at.rest()),
        },
    }
}
