//! A session that is put away, for another process to take up.

ghost use Rattle.std.specs.Prelude.{◌≡◌};
ghost use Rattle.zk_client.specs.SavedSessions.{no_digits};

use crate::saved_fault::SavedFault;
use crate::saved_record::SavedRecord;
use hex::FromHexError;
use std::alloc::{AllocError, Allocator, Global};
use std::fmt;
use std::marker::Model;
use zk_jute::{BytesRef, Cursor, PutError, Record, take};
use zk_limits::LONGEST_PASSWORD;
use zk_session::Saved;

/// A session to be taken up later, maybe by another process: its id, its password and the last seen zxid, in memory of its
/// own. Whoever has the password can take the session up, so keep the bytes and the text of it as a secret.
///
/// Its view is the three. The password has at most 4,194,284 bytes, and the zxid is not below 0.
#[derive(Drop)]
pub struct SavedSession<A: Allocator = Global> {
    session: i64,
    password: Vec<u8, A>,
    last_zxid: i64,
}

impl<A: Allocator> Model for SavedSession<A> {
    ghost use Rattle.zk_client.specs.SavedSessions.{PutAway, IsInRange};

    ghost Value = { PutAway };

    ghost view = { λ s. record { session = s.session; password = s.password.items; last = s.last_zxid } };

    ghost invariant = { λ s. IsInRange s.password.items s.last_zxid };
}

impl<A: Allocator + Copy> SavedSession<A> {
    ghost use Rattle.std.specs.Prelude.{◌≤◌, ◌≤ℤ◌, ◌%◌, pos, length, Err, IfOk, MatchResult, string_bytes};
    ghost use Rattle.zk_limits.specs.declared.limits.TheConstants.{LONGEST_PASSWORD};
    ghost use Rattle.hex.specs.Hex.{decode_of, encode_lower};
    ghost use Rattle.zk_client.specs.SavedSessions.{PutAway, CanBePutAway, saved_bytes, put_away, bytes_read, digits_read};
    ghost use Rattle.zk_client.specs.SavedSessions.{Gives, GivesLater};

    /// A session of these three. What a client says of itself becomes one so:
    /// `let saved = client.saved(); SavedSession::new(alloc, saved.session, saved.password, saved.last_zxid)`, and is never
    /// refused unless memory runs out.
    ///
    /// # Errors
    ///
    /// `LongPassword`, else `NegativeZxid`, else `Memory`.
    pub fn new(
        alloc: A,
        session: i64,
        password: &[u8],
        last_zxid: i64,
    ) -> Result<SavedSession<A>, SavedFault>
        ensures { Gives (put_away session password.now last_zxid) result }
    {
        if password.len() > LONGEST_PASSWORD {
            return Err(SavedFault::LongPassword {
                length: password.len(),
            });
        }
        if last_zxid < 0 {
            return Err(SavedFault::NegativeZxid { last_zxid });
        }
        Ok(SavedSession {
            session,
            password: Vec::from_slice(alloc, password)?,
            last_zxid,
        })
    }

    /// The session whose record these bytes are, with nothing after it.
    ///
    /// # Errors
    ///
    /// The first of `Unread`, `BytesBehind`, `NoPassword`, `LongPassword`, `NegativeZxid` and `Memory` that applies.
    pub fn from_bytes(alloc: A, bytes: &[u8]) -> Result<SavedSession<A>, SavedFault>
        // Which session or fault it is.
        ensures exact { Gives (bytes_read bytes.now) result }
        // What is read is spelled so.
        ensures found { IfOk result (λ saved. bytes.now ≡ saved_bytes saved) }
        // What is spelled so is read, unless memory runs out.
        ensures only { (value : PutAway) → CanBePutAway value → bytes.now ≡ saved_bytes value
            → MatchResult result (λ saved. saved ≡ value) (λ fault. fault ≡ SavedFault.Memory) }
    {
        SavedSession::read(alloc, bytes)
    }

    // The same, with the one clause from which the other two follow.
    fn read(alloc: A, bytes: &[u8]) -> Result<SavedSession<A>, SavedFault>
        ensures { Gives (bytes_read bytes.now) result }
    {
        let mut at = Cursor::new(bytes);
        let record: SavedRecord<'_> = match take(alloc, &mut at) {
            Ok(record) => record,
            Err(fault) => return Err(SavedFault::Unread(fault)),
        };
        let behind = at.rest();
        if !behind.is_empty() {
            return Err(SavedFault::BytesBehind {
                count: behind.len(),
            });
        }
        match record.password.bytes {
            Some(password) => SavedSession::new(alloc, record.session, password, record.last_zxid),
            None => Err(SavedFault::NoPassword),
        }
    }

    /// The session whose record this text spells in hexadecimal digits of either case, two for each byte. The text is these
    /// digits alone: a program that reads a line cuts off the line's end and any blanks first.
    ///
    /// # Errors
    ///
    /// `OddDigits`, else `NotHex`, else those of [`SavedSession::from_bytes`]. Memory for the bytes is requested before the
    /// digits are looked at, so `Memory` may be told instead of another fault, but never instead of `OddDigits`.
    pub fn from_text(alloc: A, text: &str) -> Result<SavedSession<A>, SavedFault>
        // Which session or fault it is.
        ensures exact { GivesLater (digits_read (length text.now) (decode_of text.now)) result }
        // What is read is spelled so.
        ensures found { IfOk result (λ saved. decode_of text.now ≡ Ok (saved_bytes saved)) }
        ensures odd { length text.now % 2 ≡ 1 → result ≡ Err (SavedFault.OddDigits (length text.now)) }
        // What is spelled so is read, unless memory runs out.
        ensures only { (value : PutAway) → CanBePutAway value → text.now ≡ encode_lower (saved_bytes value)
            → MatchResult result (λ saved. saved ≡ value) (λ fault. fault ≡ SavedFault.Memory) }
    {
        match hex::decode(alloc, text) {
            Ok(bytes) => SavedSession::from_bytes(alloc, bytes.as_slice()),
            Err(fault) => Err(no_digits(fault, text.len())),
        }
    }

    /// The bytes of its record, which [`SavedSession::from_bytes`] reads: 20 and those of the password. An error says
    /// that memory ran out.
    pub fn to_bytes(&self, alloc: A) -> Result<Vec<u8, A>, AllocError>
        ensures { IfOk result (λ bytes. bytes.items ≡ saved_bytes self.now) }
    {
        let record = SavedRecord {
            session: self.session,
            password: BytesRef {
                bytes: Some(self.password.as_slice()),
            },
            last_zxid: self.last_zxid,
        };
        let mut bytes = Vec::new(alloc);
        match record.put(&mut bytes) {
            Ok(()) => Ok(bytes),
            Err(PutError::Memory) => Err(AllocError),
            Err(PutError::TooLong) => unreachable!(),
        }
    }

    /// The bytes of its record as hexadecimal digits in lower case, one word with no line's end, which
    /// [`SavedSession::from_text`] reads. An error says that memory ran out.
    pub fn to_text(&self, alloc: A) -> Result<String<A>, AllocError>
        ensures { IfOk result (λ text. string_bytes text ≡ encode_lower (saved_bytes self.now)) }
    {
        let bytes = self.to_bytes(alloc)?;
        hex::encode(alloc, bytes.as_slice())
    }

    /// What a client can be resumed from: `Client::resume(alloc, 10_000, &saved.as_saved())`, with a timeout in milliseconds.
    pub fn as_saved(&self) -> Saved<'_>
        ensures session { result.session ≡ self.now.session }
        ensures password { result.password.now ≡ self.now.password }
        ensures last { result.last_zxid ≡ self.now.last }
        // What `Client::resume` requires.
        ensures short { length result.password.now ≤ LONGEST_PASSWORD }
        ensures counts { pos 0 ≤ℤ result.last_zxid }
    {
        Saved {
            session: self.session,
            password: self.password.as_slice(),
            last_zxid: self.last_zxid,
        }
    }
}

/// Its id and its last seen zxid. The password is a secret, and is not shown.
impl<A: Allocator> fmt::Debug for SavedSession<A> {
    ghost use Rattle.std.specs.Prelude.{Some};
    ghost use Rattle.zk_client.specs.SavedSessions.{saved_debug_text};

    ghost debug_output = { λ saved. Some (saved_debug_text saved) };

    fn fmt<W: fmt::Write>(&self, f: &mut fmt::Formatter<W>) -> fmt::Result {
        let session = &self.session;
        let last_zxid = &self.last_zxid;
        write!(
            f,
            "SavedSession {{ session: {session}, last_zxid: {last_zxid}, .. }}"
        )
    }
}

// Why a text of this many bytes is no digits.
fn no_digits(fault: FromHexError, count: usize) -> SavedFault
    ensures { result ≡ no_digits count fault }
{
    match fault {
        FromHexError::InvalidHexCharacter { index, .. } => SavedFault::NotHex { place: index },
        FromHexError::OutOfMemory => SavedFault::Memory,
        FromHexError::OddLength | FromHexError::InvalidStringLength => {
            SavedFault::OddDigits { count }
        }
    }
}
