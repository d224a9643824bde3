//! Replies: a header, and a result where the header's err is 0.

ghost use Rattle.std.specs.Prelude.{◌≡◌, ◌++◌, List, ℕ, length, take, IfOk, OnOk, OnErr, IsErrOf, IsTrue, MatchResult};
ghost use Rattle.std.specs.Option.{option_map, is_some};
ghost use Rattle.zk_jute.specs.Cursor.{bytes_left, payload_len};
ghost use Rattle.zk_jute.specs.Reading.{Gives};
ghost use Rattle.zk_records.specs.Reply.{ReplyValue, has_result, reply_of, reply_spelling, ReplyFits, result_at, reply_at};

use crate::reply_header::ReplyHeader;
use crate::whole::whole_or_none;
use std::alloc::Allocator;
use zk_jute::{Cursor, PutError, Readable, Record, TakeError};

/// A reply: its header, and the record that answers the request where its err is 0.
///
/// The replies to exists and setData are `Reply<Stat>`, those to delete, setWatches, ping and closeSession
/// `Reply<Nothing>`.
#[derive(Drop)]
pub struct Reply<R> {
    pub header: ReplyHeader,
    /// `None` where the header's err is not 0.
    pub result: Option<R>,
}

impl<R> Reply<R> {
    /// Writes the payload of the frame that carries this reply at the end of `out`.
    ///
    /// # Errors
    ///
    /// `TooLong` where a length or a count in it is above 2,147,483,647, `Memory` where `out` could not grow. Both
    /// leave `out` as it was.
    pub fn put<A: Allocator + Copy>(&self, out: &mut Vec<u8, A>) -> Result<(), PutError>
    where
        R: Record<A>,
        // There is a result exactly where err is 0.
        requires { is_some self.now.result ≡ has_result self.now.header.err }
        ensures ok { OnOk result (out.new.items ≡ out.old.items ++ reply_spelling R.layout (reply_of R.view self.now)) }
        ensures fits { OnOk result (ReplyFits R.layout (reply_of R.view self.now)) }
        ensures too_long { IsErrOf result PutError.TooLong → ReplyFits R.layout (reply_of R.view self.now) → ⊥ }
        ensures err { OnErr result (out.new.items ≡ out.old.items) }
    {
        let start = out.len();
        let outcome = self.write(out);
        whole_or_none(out, start, outcome)
    }

    /// Writes the header and the result. An `Err` may leave a part of them.
    fn write<A: Allocator + Copy>(&self, out: &mut Vec<u8, A>) -> Result<(), PutError>
    where
        R: Record<A>,
        requires { is_some self.now.result ≡ has_result self.now.header.err }
        ensures ok { OnOk result (out.new.items ≡ out.old.items ++ reply_spelling R.layout (reply_of R.view self.now)) }
        ensures fits { OnOk result (ReplyFits R.layout (reply_of R.view self.now)) }
        ensures too_long { IsErrOf result PutError.TooLong → ReplyFits R.layout (reply_of R.view self.now) → ⊥ }
        ensures begun { take (length out.old.items) out.new.items ≡ out.old.items }
    {
        self.header.write(out)?;
        if let Some(result) = &self.result {
            result.write(out)?;
        }
        Ok(())
    }
}

/// Reads the reply that the bytes at the cursor begin with, and moves past it. What stands after it is not looked at:
/// where err is not 0, that is all after the header.
///
/// # Errors
///
/// The first fault from left to right, with its place, or `Memory` where the allocator refused a request. All leave
/// the cursor where it was.
pub fn take_reply<'a, A: Allocator + Copy, R: Readable<'a, A>>(
    alloc: A,
    at: &mut Cursor<'a>,
) -> Result<Reply<R>, TakeError>
    // What is read is spelled so.
    ensures found { IfOk result (λ x. ReplyFits R.layout (reply_of R.view x)
        × (bytes_left at.old ≡ reply_spelling R.layout (reply_of R.view x) ++ bytes_left at.new)) }
    // What is spelled so is read, unless memory runs out.
    ensures only { (value : ReplyValue R.layout) (rest : List ℕ) → ReplyFits R.layout value
        → bytes_left at.old ≡ reply_spelling R.layout value ++ rest
        → MatchResult result (λ x. (reply_of R.view x ≡ value) × (bytes_left at.new ≡ rest)) (λ e. e ≡ TakeError.Memory) }
    // There is a result exactly where err is 0.
    ensures answered { IfOk result (λ x. is_some x.result ≡ has_result x.header.err) }
    // Which fault it is.
    ensures exact { Gives (reply_of R.view) result (bytes_left at.new) (reply_at R.layout (payload_len at.old) (bytes_left at.old)) }
    ensures memory { IsErrOf result TakeError.Memory → IsTrue R.takes_memory }
    ensures len { payload_len at.new ≡ payload_len at.old }
    ensures err { OnErr result (at.new ≡ at.old) }
{
    let mut next = *at;
    let reply = read_reply(alloc, &mut next)?;
    *at = next;
    Ok(reply)
}

/// Reads the reply. After an `Err` the cursor may stand anywhere.
#[tactic(auto, unfolding(crate::specs::Reply::reply_at))]
fn read_reply<'a, A: Allocator + Copy, R: Readable<'a, A>>(
    alloc: A,
    at: &mut Cursor<'a>,
) -> Result<Reply<R>, TakeError>
    ensures len { payload_len at.new ≡ payload_len at.old }
    ensures gives { Gives (reply_of R.view) result (bytes_left at.new) (reply_at R.layout (payload_len at.old) (bytes_left at.old)) }
    ensures answered { IfOk result (λ x. is_some x.result ≡ has_result x.header.err) }
    ensures memory { IsErrOf result TakeError.Memory → IsTrue R.takes_memory }
{
    let header = ReplyHeader::read(alloc, at)?;
    let result = read_result(alloc, header.err, at)?;
    Ok(Reply { header, result })
}

/// Reads the result after a header with this err.
#[tactic(auto, unfolding(crate::specs::Reply::result_at))]
fn read_result<'a, A: Allocator + Copy, R: Readable<'a, A>>(
    alloc: A,
    err: i32,
    at: &mut Cursor<'a>,
) -> Result<Option<R>, TakeError>
    ensures len { payload_len at.new ≡ payload_len at.old }
    ensures gives { Gives (option_map R.view) result (bytes_left at.new) (result_at R.layout err (payload_len at.old) (bytes_left at.old)) }
    ensures answered { IfOk result (λ x. is_some x ≡ has_result err) }
    ensures memory { IsErrOf result TakeError.Memory → IsTrue R.takes_memory }
{
    if err != 0 {
        return Ok(None);
    }
    let result = R::read(alloc, at)?;
    Ok(Some(result))
}
