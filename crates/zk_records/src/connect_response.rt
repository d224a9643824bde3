//! The answer to the first message of a connection, with memory of its own and lent by the payload.

ghost use Rattle.std.specs.Prelude.{◌≡◌, ◌≢◌, ◌++◌, Err, List, ℕ, length, take, IfOk, OnOk, OnErr, IsErrOf, MatchResult};
ghost use Rattle.zk_jute.specs.Cursor.{bytes_left, payload_len};
ghost use Rattle.zk_jute.specs.Reading.{Gives};
ghost use Rattle.zk_records.specs.Response.{Response, response_spelling, ResponseFits, IsPayload, flag_at, response_at};
ghost use Rattle.zk_records.specs.Views.{response_of, lent_response_of};

use crate::whole::whole_or_none;
use std::alloc::Allocator;
use zk_jute::{Buffer, BytesRef, Cursor, PutError, Readable, Record, TakeError, Then};

/// What a server answers as a connection begins.
///
/// Whether `read_only` is there is decided by the end of the payload, so this is no `Record`: `put` and `take` speak of
/// a whole payload.
#[derive(Drop)]
pub struct ConnectResponse<A: Allocator> {
    /// The version that the server speaks, which nothing depends on.
    pub protocol_version: i32,
    /// The session's timeout in milliseconds; 0 or less says that the session has expired.
    pub time_out: i32,
    pub session_id: i64,
    pub passwd: Buffer<A>,
    /// `None` where the payload ends before it, as that of an older server does.
    pub read_only: Option<bool>,
}

impl<A: Allocator + Copy> ConnectResponse<A> {
    /// Writes the spelling at the end of `out`.
    ///
    /// # Errors
    ///
    /// `TooLong` where the password has more than 2,147,483,647 bytes, `Memory` where `out` could not grow. Both leave
    /// `out` as it was.
    pub fn put(&self, out: &mut Vec<u8, A>) -> Result<(), PutError>
        ensures ok { OnOk result (out.new.items ≡ out.old.items ++ response_spelling (response_of self.now)) }
        ensures fits { OnOk result (ResponseFits (response_of self.now)) }
        ensures too_long { IsErrOf result PutError.TooLong → ResponseFits (response_of self.now) → ⊥ }
        ensures err { OnErr result (out.new.items ≡ out.old.items) }
    {
        let start = out.len();
        let outcome = self.write(out);
        whole_or_none(out, start, outcome)
    }

    /// Reads the response that a whole payload spells. Bytes may follow it where `read_only` is there.
    ///
    /// # Errors
    ///
    /// The first fault from left to right, with its place, or `Memory` where the allocator refused a request. All
    /// leave the cursor where it was.
    pub fn take(alloc: A, at: &mut Cursor<'_>) -> Result<ConnectResponse<A>, TakeError>
        // What is read is spelled so.
        ensures found { IfOk result (λ r. IsPayload (bytes_left at.old) (response_of r) (bytes_left at.new)) }
        // What is spelled so is read, unless memory runs out.
        ensures only { (r : Response) (ignored : List ℕ) → IsPayload (bytes_left at.old) r ignored
            → MatchResult result (λ x. (response_of x ≡ r) × (bytes_left at.new ≡ ignored)) (λ e. e ≡ TakeError.Memory) }
        // Which fault it is.
        ensures exact { Gives response_of result (bytes_left at.new) (response_at (payload_len at.old) (bytes_left at.old)) }
        ensures len { payload_len at.new ≡ payload_len at.old }
        ensures err { OnErr result (at.new ≡ at.old) }
    {
        let mut next = *at;
        let response = ConnectResponse::read(alloc, &mut next)?;
        *at = next;
        Ok(response)
    }

    /// Writes the spelling. An `Err` may leave a part of it.
    fn write(&self, out: &mut Vec<u8, A>) -> Result<(), PutError>
        ensures ok { OnOk result (out.new.items ≡ out.old.items ++ response_spelling (response_of self.now)) }
        ensures fits { OnOk result (ResponseFits (response_of self.now)) }
        ensures too_long { IsErrOf result PutError.TooLong → ResponseFits (response_of self.now) → ⊥ }
        ensures begun { take (length out.old.items) out.new.items ≡ out.old.items }
    {
        self.protocol_version.write(out)?;
        self.time_out.write(out)?;
        self.session_id.write(out)?;
        self.passwd.write(out)?;
        if let Some(read_only) = self.read_only {
            read_only.write(out)?;
        }
        Ok(())
    }

    /// Reads the response. After an `Err` the cursor may stand anywhere.
    #[tactic(auto, unfolding(crate::specs::Response::response_at))]
    fn read(alloc: A, at: &mut Cursor<'_>) -> Result<ConnectResponse<A>, TakeError>
        ensures len { payload_len at.new ≡ payload_len at.old }
        ensures gives { Gives response_of result (bytes_left at.new) (response_at (payload_len at.old) (bytes_left at.old)) }
    {
        let Then(protocol_version, Then(time_out, after)) = Then::read(alloc, at)?;
        let Then(session_id, passwd) = after;
        let read_only = read_flag(alloc, at)?;
        Ok(ConnectResponse {
            protocol_version,
            time_out,
            session_id,
            passwd,
            read_only,
        })
    }
}

/// Reads a boolean, unless the payload ends here.
#[tactic(auto, unfolding(crate::specs::Response::flag_at))]
pub(crate) fn read_flag<A: Allocator + Copy>(
    alloc: A,
    at: &mut Cursor<'_>,
) -> Result<Option<bool>, TakeError>
    ensures len { payload_len at.new ≡ payload_len at.old }
    ensures memory { result ≢ Err TakeError.Memory }
    ensures gives { Gives (λ flag. flag) result (bytes_left at.new) (flag_at (payload_len at.old) (bytes_left at.old)) }
{
    if at.rest().is_empty() {
        return Ok(None);
    }
    let flag = bool::read(alloc, at)?;
    Ok(Some(flag))
}

/// What a server answers as a connection begins, with its password lent by the payload.
#[derive(Clone, Copy)]
pub struct ConnectResponseRef<'a> {
    /// The version that the server speaks, which nothing depends on.
    pub protocol_version: i32,
    /// The session's timeout in milliseconds; 0 or less says that the session has expired.
    pub time_out: i32,
    pub session_id: i64,
    pub passwd: BytesRef<'a>,
    /// `None` where the payload ends before it, as that of an older server does.
    pub read_only: Option<bool>,
}

impl<'a> ConnectResponseRef<'a> {
    /// Reads the response that a whole payload spells. Bytes may follow it where `read_only` is there.
    ///
    /// # Errors
    ///
    /// The first fault from left to right, with its place. It leaves the cursor where it was.
    pub fn take<A: Allocator + Copy>(
        alloc: A,
        at: &mut Cursor<'a>,
    ) -> Result<ConnectResponseRef<'a>, TakeError>
        // What is read is spelled so.
        ensures found { IfOk result (λ r. IsPayload (bytes_left at.old) (lent_response_of r) (bytes_left at.new)) }
        // What is spelled so is read.
        ensures only { (r : Response) (ignored : List ℕ) → IsPayload (bytes_left at.old) r ignored
            → MatchResult result (λ x. (lent_response_of x ≡ r) × (bytes_left at.new ≡ ignored)) (λ e. e ≡ TakeError.Memory) }
        // Which fault it is.
        ensures exact { Gives lent_response_of result (bytes_left at.new) (response_at (payload_len at.old) (bytes_left at.old)) }
        ensures memory { result ≢ Err TakeError.Memory }
        ensures len { payload_len at.new ≡ payload_len at.old }
        ensures err { OnErr result (at.new ≡ at.old) }
    {
        let mut next = *at;
        let response = ConnectResponseRef::read(alloc, &mut next)?;
        *at = next;
        Ok(response)
    }

    /// Reads the response. After an `Err` the cursor may stand anywhere.
    #[tactic(auto, unfolding(crate::specs::Response::response_at))]
    fn read<A: Allocator + Copy>(
        alloc: A,
        at: &mut Cursor<'a>,
    ) -> Result<ConnectResponseRef<'a>, TakeError>
        ensures len { payload_len at.new ≡ payload_len at.old }
        ensures gives { Gives lent_response_of result (bytes_left at.new) (response_at (payload_len at.old) (bytes_left at.old)) }
        ensures memory { result ≢ Err TakeError.Memory }
    {
        let Then(protocol_version, Then(time_out, after)) = Then::read(alloc, at)?;
        let Then(session_id, passwd) = after;
        let read_only = read_flag(alloc, at)?;
        Ok(ConnectResponseRef {
            protocol_version,
            time_out,
            session_id,
            passwd,
            read_only,
        })
    }
}
