//! What kind of payload a frame has.

ghost use Rattle.std.specs.Prelude.{◌≡◌, ◌≢◌, IfSome, IfNone};
ghost use Rattle.shell_commands.specs.Kinds.{kind_word};

/// What kind of payload a frame has.
#[derive(Clone, Copy)]
pub enum FrameKind {
    /// A connection's first message, which has no header.
    Connect,
    /// The answer to it, which has no header.
    Accepted,
    /// A request, by the type that its header names.
    Request,
    /// What a watch tells.
    Notice,
    /// The reply to an exists request.
    ReplyExists,
    /// The reply to a setData request.
    ReplySetData,
    /// The reply to a getData request.
    ReplyGetData,
    /// The reply to a getChildren request.
    ReplyGetChildren,
    /// The reply to a getChildren2 request.
    ReplyGetChildren2,
    /// The reply to a create request.
    ReplyCreate,
    /// A reply that is a header alone.
    ReplyHeader,
}

impl FrameKind {
    /// The kind that a word names.
    pub fn named(word: &str) -> Option<FrameKind>
        ensures some { IfSome result (λ kind. word.now ≡ kind_word kind) }
        ensures none { IfNone result ((kind : FrameKind) → word.now ≢ kind_word kind) }
    {
        match word {
            "connect" => Some(FrameKind::Connect),
            "accepted" => Some(FrameKind::Accepted),
            "request" => Some(FrameKind::Request),
            "notice" => Some(FrameKind::Notice),
            "reply-exists" => Some(FrameKind::ReplyExists),
            "reply-setdata" => Some(FrameKind::ReplySetData),
            "reply-getdata" => Some(FrameKind::ReplyGetData),
            "reply-getchildren" => Some(FrameKind::ReplyGetChildren),
            "reply-getchildren2" => Some(FrameKind::ReplyGetChildren2),
            "reply-create" => Some(FrameKind::ReplyCreate),
            "reply-header" => Some(FrameKind::ReplyHeader),
            _ => None,
        }
    }
}
