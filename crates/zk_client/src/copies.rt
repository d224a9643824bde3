//! Copies of what a payload lends.

ghost use Rattle.std.specs.Prelude.{◌≡◌, IfOk};
ghost use Rattle.zk_conversation.specs.Views.{result_view};
ghost use Rattle.zk_client.specs.Views.{call_result_view};

use crate::call_result::CallResult;
use std::alloc::{AllocError, Allocator};
use zk_cache::JoinedTexts;
use zk_conversation::ReplyResult;
use zk_nodes::copied_data;

/// What a reply brings, in memory of its own.
pub(crate) fn copied<A: Allocator + Copy>(
    alloc: A,
    found: &ReplyResult<'_, A>,
) -> Result<CallResult<A>, AllocError>
    ensures { IfOk result (λ copy. call_result_view copy ≡ result_view found.now) }
{
    match found {
        ReplyResult::Code(code) => Ok(CallResult::Code(*code)),
        ReplyResult::Stat(stat) => Ok(CallResult::Stat(*stat)),
        ReplyResult::Data { bytes, stat } => {
            let bytes = copied_data(alloc, *bytes)?;
            Ok(CallResult::Data { bytes, stat: *stat })
        }
        ReplyResult::Names { names, stat } => {
            let names = JoinedTexts::of_names(alloc, names)?;
            Ok(CallResult::Names { names, stat: *stat })
        }
        ReplyResult::Created(path) => Ok(CallResult::Created(String::from_str(alloc, path)?)),
        ReplyResult::Done => Ok(CallResult::Done),
        ReplyResult::Raw(bytes) => Ok(CallResult::Raw(Vec::from_slice(alloc, bytes)?)),
    }
}
