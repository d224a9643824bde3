//! What a reply brings, lent by its payload.

ghost use Rattle.std.specs.Prelude.{◌≡◌, pos, true, IsErrOf};
ghost use Rattle.zk_jute.specs.Cursor.{bytes_left, payload_len};
ghost use Rattle.zk_conversation.specs.Results.{record_of, result_of};
ghost use Rattle.zk_conversation.specs.Views.{question_view, result_view};
ghost use Rattle.zk_conversation.specs.inner.Lent.{Reads, stat_of_reply, data_of_reply, names_of_reply, created_of_reply};
ghost use Rattle.zk_conversation.specs.Lent.{lists_names};

use crate::question::Question;
use std::alloc::Allocator;
use zk_jute::{Cursor, Readable, TakeError, TextRef, take};
use zk_records::{Code, CreateRef, GetChildren2Ref, GetDataRef, Stat};

/// What a reply brings: the code of its error, or the record of its question. Texts and bytes are slices of the
/// payload.
#[derive(Drop)]
pub enum ReplyResult<'a, A: Allocator> {
    /// The request was refused, or there is no node.
    Code(Code),
    /// What is known of a node: of exists and setData.
    Stat(Stat),
    /// The data of a node, which may be null.
    Data {
        bytes: Option<&'a [u8]>,
        stat: Stat,
    },
    /// The names below a node, in the order of the reply. A null name means the empty one.
    Names {
        names: Vec<TextRef<'a>, A>,
        stat: Stat,
    },
    /// The path of the node that was made.
    Created(&'a str),
    /// The node was deleted, or the session is closed.
    Done,
    /// All that stands after the header of a reply to what the caller has spelled.
    Raw(&'a [u8]),
}

/// Reads the result of a reply with this err, after its header.
pub(crate) fn read_result<'a, A: Allocator + Copy>(
    alloc: A,
    question: &Question<A>,
    err: i32,
    at: Cursor<'a>,
) -> Result<ReplyResult<'a, A>, TakeError>
    ensures gives { Reads result_view result (result_of (question_view question.now) err (payload_len at.entry) (bytes_left at.entry)) }
    ensures memory { IsErrOf result TakeError.Memory → lists_names (question_view question.now) err ≡ true }
{
    if err != 0 {
        return Ok(ReplyResult::Code(Code::new(err)));
    }
    read_record(alloc, question, at)
}

/// Reads the record of the question.
fn read_record<'a, A: Allocator + Copy>(
    alloc: A,
    question: &Question<A>,
    at: Cursor<'a>,
) -> Result<ReplyResult<'a, A>, TakeError>
    ensures gives { Reads result_view result (record_of (question_view question.now) (payload_len at.entry) (bytes_left at.entry)) }
    ensures memory { IsErrOf result TakeError.Memory → lists_names (question_view question.now) (pos 0) ≡ true }
{
    match question {
        Question::Exists { .. } => read_stat(alloc, at),
        Question::GetData { .. } => read_data(alloc, at),
        Question::GetChildren { .. } => read_names(alloc, at),
        Question::SetData { .. } => read_stat(alloc, at),
        Question::Create { .. } => read_created(alloc, at),
        Question::Delete { .. } => Ok(ReplyResult::Done),
        Question::Close => Ok(ReplyResult::Done),
        Question::Raw => Ok(ReplyResult::Raw(at.rest())),
    }
}

fn read_stat<'a, A: Allocator + Copy>(
    alloc: A,
    mut at: Cursor<'a>,
) -> Result<ReplyResult<'a, A>, TakeError>
    ensures gives { Reads result_view result (stat_of_reply (payload_len at.entry) (bytes_left at.entry)) }
    ensures memory { IsErrOf result TakeError.Memory → ⊥ }
{
    let stat: Stat = take(alloc, &mut at)?;
    Ok(ReplyResult::Stat(stat))
}

fn read_data<'a, A: Allocator + Copy>(
    alloc: A,
    mut at: Cursor<'a>,
) -> Result<ReplyResult<'a, A>, TakeError>
    ensures gives { Reads result_view result (data_of_reply (payload_len at.entry) (bytes_left at.entry)) }
    ensures memory { IsErrOf result TakeError.Memory → ⊥ }
{
    let found: GetDataRef<'a> = take(alloc, &mut at)?;
    Ok(ReplyResult::Data {
        bytes: found.bytes.bytes,
        stat: found.stat,
    })
}

fn read_names<'a, A: Allocator + Copy>(
    alloc: A,
    mut at: Cursor<'a>,
) -> Result<ReplyResult<'a, A>, TakeError>
    ensures { Reads result_view result (names_of_reply (payload_len at.entry) (bytes_left at.entry)) }
{
    let found = GetChildren2Ref::read(alloc, &mut at)?;
    let names = found.children.elements.unwrap_or(Vec::new(alloc));
    Ok(ReplyResult::Names {
        names,
        stat: found.stat,
    })
}

fn read_created<'a, A: Allocator + Copy>(
    alloc: A,
    mut at: Cursor<'a>,
) -> Result<ReplyResult<'a, A>, TakeError>
    ensures gives { Reads result_view result (created_of_reply (payload_len at.entry) (bytes_left at.entry)) }
    ensures memory { IsErrOf result TakeError.Memory → ⊥ }
{
    let created: CreateRef<'a> = take(alloc, &mut at)?;
    Ok(ReplyResult::Created(created.path.or_empty()))
}
