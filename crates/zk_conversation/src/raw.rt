//! Requests whose bytes a caller spells.

ghost use Rattle.std.specs.Prelude.{◌≡◌, IfSome};
ghost use Rattle.zk_conversation.specs.Calls.{raw_number, raw_numbered};

/// What a request asks for whose bytes after the header a caller spells.
///
/// None of these leaves, moves or removes a watch, begins or ends a session, or says who asks, and each is answered once,
/// in its place, under its own xid. So a client whose caller asks them stays what it is without them. None has the number of
/// an operation that a client asks by itself or by another call.
#[derive(Clone, Copy)]
pub enum RawOperation {
    GetAcl,
    SetAcl,
    Sync,
    /// Several changes that happen together or not at all.
    Multi,
    /// Makes a node, with any ACL, and brings its `Stat` too.
    Create2,
    CreateContainer,
    CreateTtl,
    /// Several reads, none of which can leave a watch.
    MultiRead,
    GetEphemerals,
    GetAllChildrenNumber,
    WhoAmI,
}

impl RawOperation {
    /// The operation of this type number, if it is one of these.
    pub fn new(number: i32) -> Option<RawOperation>
        ensures found { result ≡ raw_numbered number }
        ensures number { IfSome result (λ operation. raw_number operation ≡ number) }
    {
        match number {
            6 => Some(RawOperation::GetAcl),
            7 => Some(RawOperation::SetAcl),
            9 => Some(RawOperation::Sync),
            14 => Some(RawOperation::Multi),
            15 => Some(RawOperation::Create2),
            19 => Some(RawOperation::CreateContainer),
            21 => Some(RawOperation::CreateTtl),
            22 => Some(RawOperation::MultiRead),
            103 => Some(RawOperation::GetEphemerals),
            104 => Some(RawOperation::GetAllChildrenNumber),
            107 => Some(RawOperation::WhoAmI),
            _ => None,
        }
    }

    /// Its type number, as a request's header has it.
    pub fn number(self) -> i32
        ensures { result ≡ raw_number self }
    {
        match self {
            RawOperation::GetAcl => 6,
            RawOperation::SetAcl => 7,
            RawOperation::Sync => 9,
            RawOperation::Multi => 14,
            RawOperation::Create2 => 15,
            RawOperation::CreateContainer => 19,
            RawOperation::CreateTtl => 21,
            RawOperation::MultiRead => 22,
            RawOperation::GetEphemerals => 103,
            RawOperation::GetAllChildrenNumber => 104,
            RawOperation::WhoAmI => 107,
        }
    }
}
