//! The names of numbers, as ZooKeeper has them.

ghost use Rattle.std.specs.Prelude.{◌≡◌};
ghost use Rattle.script_stream.specs.Names.{code_name, event_name, operation_name, other_name, type_name};

use zk_records::{Code, Event, Operation};

/// The name of an operation.
fn operation_name(operation: Operation) -> &'static str
    ensures { result.now ≡ operation_name operation }
{
    match operation {
        Operation::Create => "create",
        Operation::Delete => "delete",
        Operation::Exists => "exists",
        Operation::GetData => "getData",
        Operation::SetData => "setData",
        Operation::GetChildren => "getChildren",
        Operation::Ping => "ping",
        Operation::GetChildren2 => "getChildren2",
        Operation::SetWatches => "setWatches",
        Operation::CloseSession => "closeSession",
    }
}

/// The name of a type whose records are not read here.
fn other_name(number: i32) -> &'static str
    ensures { result.now ≡ other_name number }
{
    match number {
        6 => "getACL",
        7 => "setACL",
        9 => "sync",
        13 => "check",
        14 => "multi",
        15 => "create2",
        16 => "reconfig",
        18 => "removeWatches",
        19 => "createContainer",
        21 => "createTTL",
        22 => "multiRead",
        100 => "auth",
        102 => "sasl",
        105 => "setWatches2",
        106 => "addWatch",
        _ => "unknown",
    }
}

/// The name of a request's type.
pub fn type_name(number: i32) -> &'static str
    ensures { result.now ≡ type_name number }
{
    match Operation::new(number) {
        Some(operation) => operation_name(operation),
        None => other_name(number),
    }
}

/// The name of a notice's type.
pub fn event_name(number: i32) -> &'static str
    ensures { result.now ≡ event_name number }
{
    match Event::new(number) {
        Some(Event::Created) => "NodeCreated",
        Some(Event::Deleted) => "NodeDeleted",
        Some(Event::DataChanged) => "NodeDataChanged",
        Some(Event::ChildrenChanged) => "NodeChildrenChanged",
        None => "unknown",
    }
}

/// The name of the code of an error.
#[tactic(auto, unfolding(crate::specs::Names::code_name))]
pub fn code_name(number: i32) -> &'static str
    ensures { result.now ≡ code_name number }
{
    match Code::new(number) {
        Code::ConnectionLoss => "ConnectionLoss",
        Code::Unimplemented => "Unimplemented",
        Code::BadArguments => "BadArguments",
        Code::NoNode => "NoNode",
        Code::NoAuth => "NoAuth",
        Code::BadVersion => "BadVersion",
        Code::NoChildrenForEphemerals => "NoChildrenForEphemerals",
        Code::NodeExists => "NodeExists",
        Code::NotEmpty => "NotEmpty",
        Code::SessionExpired => "SessionExpired",
        Code::InvalidAcl => "InvalidACL",
        Code::SessionMoved => "SessionMoved",
        Code::Other(0) => "Ok",
        Code::Other(_) => "unknown",
    }
}
