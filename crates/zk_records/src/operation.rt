//! What a request asks for.

ghost use Rattle.std.specs.Prelude.{◌≡◌, IfSome};
ghost use Rattle.zk_records.specs.Operations.{operation_number, operation_numbered};

/// What a request asks for, as the type in its header says.
#[derive(Clone, Copy)]
pub enum Operation {
    Create,
    Delete,
    Exists,
    GetData,
    SetData,
    GetChildren,
    /// Asks for nothing: it tells the server that the client is there.
    Ping,
    /// The children together with the node's `Stat`.
    GetChildren2,
    SetWatches,
    CloseSession,
}

impl Operation {
    /// The operation of this type number, if it is one of the ten.
    pub fn new(number: i32) -> Option<Operation>
        ensures found { result ≡ operation_numbered number }
        ensures number { IfSome result (λ operation. operation_number operation ≡ number) }
    {
        match number {
            1 => Some(Operation::Create),
            2 => Some(Operation::Delete),
            3 => Some(Operation::Exists),
            4 => Some(Operation::GetData),
            5 => Some(Operation::SetData),
            8 => Some(Operation::GetChildren),
            11 => Some(Operation::Ping),
            12 => Some(Operation::GetChildren2),
            101 => Some(Operation::SetWatches),
            -11 => Some(Operation::CloseSession),
            _ => None,
        }
    }

    /// Its type number, as a request's header has it.
    pub fn number(self) -> i32
        ensures { result ≡ operation_number self }
    {
        match self {
            Operation::Create => 1,
            Operation::Delete => 2,
            Operation::Exists => 3,
            Operation::GetData => 4,
            Operation::SetData => 5,
            Operation::GetChildren => 8,
            Operation::Ping => 11,
            Operation::GetChildren2 => 12,
            Operation::SetWatches => 101,
            Operation::CloseSession => -11,
        }
    }
}
