//! What is kept of a call while its reply is awaited.

ghost use Rattle.std.specs.Prelude.{◌≡◌};
ghost use Rattle.zk_conversation.specs.Questions.{watched_side};
ghost use Rattle.zk_conversation.specs.Pending.{closes};
ghost use Rattle.zk_conversation.specs.Views.{question_view};

use std::alloc::Allocator;
use zk_nodes::Path;
use zk_records::Side;

/// The kind of a call, its path, and whether it is to leave a watch. Of a write no data are kept.
#[derive(Drop)]
pub enum Question<A: Allocator> {
    Exists { path: Path<A>, watch: bool },
    GetData { path: Path<A>, watch: bool },
    GetChildren { path: Path<A>, watch: bool },
    SetData { path: Path<A> },
    Create { path: Path<A> },
    Delete { path: Path<A> },
    Close,
    /// Of a request that the caller has spelled.
    Raw,
}

impl<A: Allocator> Question<A> {
    /// The side on which it is to leave a watch, if it is to leave one.
    pub fn watched_side(&self) -> Option<Side>
        ensures { result ≡ watched_side (question_view self.now) }
    {
        match self {
            Question::Exists { watch: true, .. } => Some(Side::Data),
            Question::GetData { watch: true, .. } => Some(Side::Data),
            Question::GetChildren { watch: true, .. } => Some(Side::Child),
            _ => None,
        }
    }

    /// Whether it ends the session.
    pub fn closes(&self) -> bool
        ensures { result ≡ closes (question_view self.now) }
    {
        match self {
            Question::Close => true,
            _ => false,
        }
    }
}
