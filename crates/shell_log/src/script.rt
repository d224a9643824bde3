//! The history of logs, as a script that `history` and `rehearse` take.

use crate::line::{Piece, Value, push_line};
use crate::order::LogsFault;
use std::alloc::Allocator;
use zk_history::{Change, History};

/// The nodes that servers begin with.
const FIRST_NODES: &str = "\
node /zookeeper \\e 0
node /zookeeper/quota \\e 0
node /zookeeper/config \\e 0
";

/// The data of a node.
fn data_of<A: Allocator>(bytes: &Option<Vec<u8, A>>) -> Value<'_> {
    match bytes {
        Some(bytes) => Value::Data(Some(bytes.as_slice())),
        None => Value::Data(None),
    }
}

/// The pieces of the line of a change.
fn pieces_of<A: Allocator>(change: &Change<A>) -> [Piece<'_>; 4] {
    let (word, path, content, owner) = match change {
        Change::Create(path, bytes, owner) => (
            "create",
            path,
            data_of(bytes),
            Value::Number(*owner),
        ),
        Change::Set(path, bytes) => ("set", path, data_of(bytes), Value::Missing),
        Change::Delete(path) => ("delete", path, Value::Missing, Value::Missing),
    };
    [
        ("", Value::Head(word)),
        ("path", Value::Name(path.as_str())),
        ("data", content),
        ("owner", owner),
    ]
}

/// Adds the script of a history, each line of which is made in a text that has room.
pub(crate) fn push_history<A: Allocator + Copy>(
    out: &mut Vec<u8, A>,
    line: &mut String<A>,
    alloc: A,
    history: &History<A>,
) -> Result<(), LogsFault> {
    out.extend_from_slice(FIRST_NODES.as_bytes())?;
    for n in 0..usize::MAX {
        let Some((zxid, time, changes)) = history.transaction(n) else {
            break;
        };
        // The sessions of servers whose `myid` is above 127 are below 0.
        let is_below = |change: &Change<
            A,
        >| matches!(change, Change::Create(_, _, owner) if *owner < 0);
        if time < 0 || changes.iter().any(is_below) {
            return Err(LogsFault::Negative(zxid));
        }
        let pieces = [
            ("", Value::Head("tx")),
            ("zxid", Value::Number(zxid)),
            ("time", Value::Number(time)),
        ];
        push_line(out, line, alloc, &pieces)?;
        for change in changes {
            push_line(out, line, alloc, &pieces_of(change))?;
        }
    }
    Ok(())
}
