//! What is told of a change.

use crate::line::{NOTHING, Piece, Value};
use std::alloc::Allocator;
use zk_log::{LogEntry, Txn};

/// What was done: a word, the path and the data, and a number.
#[derive(Clone, Copy)]
pub(crate) struct Deed<'d> {
    pub(crate) word: &'static str,
    pub(crate) path: Option<&'d str>,
    content: Value<'d>,
    number: Piece<'d>,
}

/// A deletion.
pub(crate) fn deletion(path: Option<&str>) -> Option<Deed<'_>> {
    Some(Deed {
        word: "delete",
        path,
        content: Value::Missing,
        number: NOTHING,
    })
}

/// A number of 32 bits, with its key.
fn small(key: &'static str, number: i32) -> Piece<'static> {
    (key, Value::Number(i64::from(number)))
}

/// What an operation did that neither makes a node nor writes its data.
fn other_deed<'d, A: Allocator>(txn: &'d Txn<'_, A>) -> Option<Deed<'d>> {
    let (word, path, number) = match txn {
        Txn::Delete(path) | Txn::DeleteContainer(path) => ("delete", path.text, NOTHING),
        Txn::SetAcl(t) => ("acl", t.path.text, small("version", t.version)),
        Txn::Check(t) => ("check", t.path.text, small("version", t.version)),
        Txn::CreateSession(timeout) => ("open", None, small("timeout", *timeout)),
        Txn::CloseSession(_) | Txn::CloseSessionAlone => ("close", None, NOTHING),
        Txn::Error(code) => ("error", None, small("code", *code)),
        _ => return None,
    };
    Some(Deed {
        word,
        path,
        content: Value::Missing,
        number,
    })
}

/// What an operation of a session did. A multi does what its parts do.
pub(crate) fn deed_of<'d, A: Allocator>(session: i64, txn: &'d Txn<'_, A>) -> Option<Deed<'d>> {
    let (word, path, bytes, number) = match txn {
        Txn::Create(t) | Txn::Create2(t) => {
            let owner = if t.ephemeral { session } else { 0 };
            let number = ("owner", Value::Number(owner));
            ("create", t.path.as_str(), t.bytes.as_slice(), number)
        }
        Txn::CreateContainer(t) => ("container", t.path.as_str(), t.bytes.as_slice(), NOTHING),
        Txn::CreateTtl(t) => {
            let number = ("ttl", Value::Number(t.ttl));
            ("ttl", t.path.as_str(), t.bytes.as_slice(), number)
        }
        Txn::Set(t) | Txn::Reconfig(t) => (
            "set",
            t.path.text,
            t.bytes.bytes,
            small("version", t.version),
        ),
        txn => return other_deed(txn),
    };
    Some(Deed {
        word,
        path,
        content: Value::Data(bytes),
        number,
    })
}

/// The pieces of the line of what an entry did.
pub(crate) fn pieces_of<'d, A: Allocator>(
    entry: &LogEntry<'_, A>,
    deed: &Deed<'d>,
) -> [Piece<'d>; 7] {
    let path = match deed.path {
        Some(path) => Value::Name(path),
        None => Value::Missing,
    };
    [
        ("zxid", Value::Number(entry.zxid)),
        ("time", Value::Number(entry.time)),
        ("session", Value::Number(entry.session)),
        ("operation", Value::Word(deed.word)),
        ("path", path),
        ("data", deed.content),
        deed.number,
    ]
}
