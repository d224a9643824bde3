//! What a reply brings.

use std::alloc::{Allocator, Global};
use zk_cache::JoinedTexts;
use zk_records::{Code, Stat};

/// What the reply to a call brings: the code of its error, or what was asked for.
#[derive(Drop)]
pub enum CallResult<A: Allocator = Global> {
    /// The server refused the request, or there is no node.
    Code(Code),
    /// What is known of a node: of exists and setData.
    Stat(Stat),
    /// The data of a node, which may be null.
    Data {
        bytes: Option<Vec<u8, A>>,
        stat: Stat,
    },
    /// The names below a node, in the order of the reply. A null name is the empty one.
    Names {
        names: JoinedTexts<A>,
        stat: Stat,
    },
    /// The path of the node that was made.
    Created(String<A>),
    /// The node was deleted, or the session is closed.
    Done,
    /// All that stands after the header of a reply to what the caller has spelled.
    Raw(Vec<u8, A>),
}
