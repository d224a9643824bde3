//! The lines of calls.

ghost use Rattle.std.specs.Prelude.{◌≡◌, map};
ghost use Rattle.std.specs.Option.{option_map};
ghost use Rattle.zk_conversation.specs.Views.{call_view};
ghost use Rattle.script_words.specs.Reads.{Reads};
ghost use Rattle.script_replay.specs.CallLines.{kind_read, asks_at, content_at, on_path_at, close_at, operation_at, spelled_at, kind_at};
ghost use Rattle.script_replay.specs.CallLines.{numbered_at, call_at};
ghost use Rattle.script_replay.specs.Lines.{asked_of};
ghost use Rattle.script_replay.specs.inner.Lines.{asks_of};

use crate::reads::{parse_boolean, parse_bytes, parse_mode, parse_natural, parse_version};
use script_words::reads::{is_named, parse_data, parse_path, parse_text};
use script_words::script_fault::ScriptFault;
use std::alloc::Allocator;
use zk_conversation::{Call, CreateMode, RawOperation};
use zk_nodes::Path;

/// What a call asks for, by its second word.
#[derive(Clone, Copy)]
enum CallKind {
    Exists,
    GetData,
    GetChildren,
    SetData,
    Create,
    Delete,
    Close,
    Raw,
}

/// A call, with its caller's number.
#[derive(Drop)]
pub struct AskedCall<A: Allocator> {
    pub ticket: u64,
    pub call: Call<A>,
}

/// What is asked of a node: whether a watch is to be left, or a version, or a mode.
#[derive(Clone, Copy)]
enum Wish {
    Exists(bool),
    GetData(bool),
    GetChildren(bool),
    SetData(i32),
    Create(CreateMode),
    Delete(i32),
}

fn kind_named(word: &[u8]) -> Result<CallKind, ScriptFault>
    ensures { Reads (λ k. k) result (kind_read word.now) }
{
    if is_named(word, "exists") {
        Ok(CallKind::Exists)
    } else if is_named(word, "getdata") {
        Ok(CallKind::GetData)
    } else if is_named(word, "getchildren") {
        Ok(CallKind::GetChildren)
    } else if is_named(word, "setdata") {
        Ok(CallKind::SetData)
    } else if is_named(word, "create") {
        Ok(CallKind::Create)
    } else if is_named(word, "delete") {
        Ok(CallKind::Delete)
    } else if is_named(word, "close") {
        Ok(CallKind::Close)
    } else if is_named(word, "raw") {
        Ok(CallKind::Raw)
    } else {
        Err(ScriptFault::Words)
    }
}

fn parse_wish(kind: CallKind, word: &[u8]) -> Result<Wish, ScriptFault>
    ensures { Reads asks_of result (asks_at kind word.now) }
{
    match kind {
        CallKind::Exists => Ok(Wish::Exists(parse_boolean(word)?)),
        CallKind::GetData => Ok(Wish::GetData(parse_boolean(word)?)),
        CallKind::GetChildren => Ok(Wish::GetChildren(parse_boolean(word)?)),
        CallKind::SetData => Ok(Wish::SetData(parse_version(word)?)),
        CallKind::Create => Ok(Wish::Create(parse_mode(word)?)),
        CallKind::Delete => Ok(Wish::Delete(parse_version(word)?)),
        CallKind::Close | CallKind::Raw => Err(ScriptFault::Words),
    }
}

/// The call that asks this of the node at a path. Bytes are brought by some alone.
fn call_of<A: Allocator>(wish: Wish, path: Path<A>, bytes: Option<Vec<u8, A>>) -> Call<A>
    ensures { call_view result ≡ asks_of wish path (option_map (λ v. v.items) bytes) }
{
    match wish {
        Wish::Exists(watch) => Call::Exists { path, watch },
        Wish::GetData(watch) => Call::GetData { path, watch },
        Wish::GetChildren(watch) => Call::GetChildren { path, watch },
        Wish::SetData(version) => Call::SetData {
            path,
            bytes,
            version,
        },
        Wish::Create(mode) => Call::Create { path, bytes, mode },
        Wish::Delete(version) => Call::Delete { path, version },
    }
}

/// The data that a call brings, if its kind brings some.
fn parse_content<A: Allocator + Copy>(
    alloc: A,
    word: Option<&[u8]>,
) -> Result<Option<Vec<u8, A>>, ScriptFault>
    ensures { Reads (option_map (λ v. v.items)) result (content_at (option_map (λ w. w.now) word.entry)) }
{
    match word {
        None => Ok(None),
        Some(word) => parse_data(alloc, word),
    }
}

fn parse_on_path<A: Allocator + Copy>(
    alloc: A,
    kind: CallKind,
    ticket: &[u8],
    path: &[u8],
    bytes: Option<&[u8]>,
    word: &[u8],
) -> Result<AskedCall<A>, ScriptFault>
    ensures { Reads asked_of result (on_path_at kind ticket.now path.now (option_map (λ w. w.now) bytes.entry) word.now) }
{
    let path = parse_text(alloc, path)?;
    let wish = parse_wish(kind, word)?;
    let ticket = parse_natural(ticket)?;
    let bytes = parse_content(alloc, bytes)?;
    let path = parse_path(alloc, path.as_str())?;
    let call = call_of(wish, path, bytes);
    Ok(AskedCall { ticket, call })
}

fn parse_close<A: Allocator + Copy>(
    ticket: &[u8],
    words: &[&[u8]],
) -> Result<AskedCall<A>, ScriptFault>
    ensures { Reads asked_of result (close_at ticket.now (map (λ w. w.now) words.now)) }
{
    let [] = words else {
        return Err(ScriptFault::Words);
    };
    let ticket = parse_natural(ticket)?;
    let call = Call::Close;
    Ok(AskedCall { ticket, call })
}

/// The operation that the core does not read, by its number.
#[tactic(auto, unfolding(crate::specs::CallLines::operation_at))]
fn parse_operation(word: &[u8]) -> Result<RawOperation, ScriptFault>
    ensures { Reads (λ operation. operation) result (operation_at word.now) }
{
    let number = parse_version(word)?;
    RawOperation::new(number).ok_or(ScriptFault::Number)
}

fn parse_raw<A: Allocator + Copy>(
    alloc: A,
    ticket: &[u8],
    operation: &[u8],
    body: &[u8],
) -> Result<AskedCall<A>, ScriptFault>
    ensures { Reads asked_of result (spelled_at ticket.now operation.now body.now) }
{
    let ticket = parse_natural(ticket)?;
    let operation = parse_operation(operation)?;
    let body = parse_bytes(alloc, body)?;
    let call = Call::Raw { operation, body };
    Ok(AskedCall { ticket, call })
}

/// The call of a kind. Some bring data, between their path and their last word.
fn parse_kind<A: Allocator + Copy>(
    alloc: A,
    kind: CallKind,
    ticket: &[u8],
    words: &[&[u8]],
) -> Result<AskedCall<A>, ScriptFault>
    ensures { Reads asked_of result (kind_at kind ticket.now (map (λ w. w.now) words.now)) }
{
    match kind {
        CallKind::Close => parse_close(ticket, words),
        CallKind::Raw => {
            let [operation, body] = words else {
                return Err(ScriptFault::Words);
            };
            parse_raw(alloc, ticket, operation, body)
        }
        CallKind::SetData | CallKind::Create => {
            let [path, bytes, word] = words else {
                return Err(ScriptFault::Words);
            };
            parse_on_path(alloc, kind, ticket, path, Some(bytes), word)
        }
        CallKind::Exists | CallKind::GetData | CallKind::GetChildren | CallKind::Delete => {
            let [path, word] = words else {
                return Err(ScriptFault::Words);
            };
            parse_on_path(alloc, kind, ticket, path, None, word)
        }
    }
}

/// The call that its number and the words after it ask for.
fn parse_numbered<A: Allocator + Copy>(
    alloc: A,
    ticket: &[u8],
    words: &[&[u8]],
) -> Result<AskedCall<A>, ScriptFault>
    ensures { Reads asked_of result (numbered_at ticket.now (map (λ w. w.now) words.now)) }
{
    let Some((kind, words)) = words.split_first() else {
        return Err(ScriptFault::Words);
    };
    let kind = kind_named(kind)?;
    parse_kind(alloc, kind, ticket, words)
}

/// The call that the words after `call` ask for: its number, its kind, and what the kind asks for.
pub(crate) fn parse_call<A: Allocator + Copy>(
    alloc: A,
    words: &[&[u8]],
) -> Result<AskedCall<A>, ScriptFault>
    ensures { Reads asked_of result (call_at (map (λ w. w.now) words.now)) }
{
    let Some((ticket, words)) = words.split_first() else {
        return Err(ScriptFault::Words);
    };
    parse_numbered(alloc, ticket, words)
}
