//! Why a server refused a request.

ghost use Rattle.std.specs.Prelude.{◌≡◌};
ghost use Rattle.zk_records.specs.Codes.{code_of, code_number, is_no_node};

/// Why a server refused a request: the error codes of the protocol that this client knows by name. Any other number is
/// carried as it is, which is a rule of this project.
#[derive(Clone, Copy, PartialEq, Eq)]
pub enum Code {
    ConnectionLoss,
    Unimplemented,
    BadArguments,
    NoNode,
    NoAuth,
    BadVersion,
    NoChildrenForEphemerals,
    NodeExists,
    NotEmpty,
    SessionExpired,
    InvalidAcl,
    SessionMoved,
    /// Any other number.
    Other(i32),
}

impl Code {
    /// The code of this number.
    pub fn new(number: i32) -> Code
        ensures { result ≡ code_of number }
    {
        match number {
            -4 => Code::ConnectionLoss,
            -6 => Code::Unimplemented,
            -8 => Code::BadArguments,
            -101 => Code::NoNode,
            -102 => Code::NoAuth,
            -103 => Code::BadVersion,
            -108 => Code::NoChildrenForEphemerals,
            -110 => Code::NodeExists,
            -111 => Code::NotEmpty,
            -112 => Code::SessionExpired,
            -114 => Code::InvalidAcl,
            -118 => Code::SessionMoved,
            _ => Code::Other(number),
        }
    }

    /// Its number, as a reply's header says it.
    pub fn number(self) -> i32
        ensures { result ≡ code_number self }
    {
        match self {
            Code::ConnectionLoss => -4,
            Code::Unimplemented => -6,
            Code::BadArguments => -8,
            Code::NoNode => -101,
            Code::NoAuth => -102,
            Code::BadVersion => -103,
            Code::NoChildrenForEphemerals => -108,
            Code::NodeExists => -110,
            Code::NotEmpty => -111,
            Code::SessionExpired => -112,
            Code::InvalidAcl => -114,
            Code::SessionMoved => -118,
            Code::Other(number) => number,
        }
    }

    /// Whether it says that there is no node.
    pub fn is_no_node(self) -> bool
        ensures { result ≡ is_no_node self }
    {
        self.number() == Code::NoNode.number()
    }
}
