//! Reads, and the watches that they leave.
//!
//! exists leaves a data watch whether a node is there or not; getData a data watch, and getChildren a child watch, where
//! one is there (Programmer's Guide, "ZooKeeper Watches").

ghost use Rattle.std.specs.Prelude.{◌≡◌, ◌+◌, ℕ, pos, Some, None, cond, map, OnOk, IfOk, IfErr, IsErrOf, string_bytes};
ghost use Rattle.std.specs.Option.{option_map};
ghost use Rattle.std.specs.FinSet as set;
ghost use Rattle.std.specs.BTreeSet.{IsOrdered};
ghost use Rattle.std.specs.String.{string_cmp};
ghost use Rattle.zk_jute.specs.Lenient.{or_empty};
ghost use Rattle.zk_nodes.specs.Path.{Text as Bytes, path_of};
ghost use Rattle.zk_nodes.specs.History.{tree_at};
ghost use Rattle.zk_history.specs.HistoryView.{HasChildren, history_of, natural};
ghost use Rattle.zk_nodes.specs.Names.{Names as NameSet};
ghost use Rattle.zk_nodes.specs.inner.Names.{names_of};
ghost use Rattle.zk_nodes.specs.PathFault.{IsPath};
ghost use Rattle.zk_history.specs.Shown.{IsStat};
ghost use Rattle.zk_conversation.specs.Calls.{Call, Exists, GetData, GetChildren};
ghost use Rattle.zk_watches.specs.Lists.{Lists};
ghost use Rattle.zk_bench.specs.inner.Restoring.{RestoresPart};
ghost use Rattle.zk_bench.specs.inner.Answering.{AnswersRead, RefusesRead, MissesNode, ListsChildren, FindsNoNode, IsReadOf, IsRestoring};
ghost use Rattle.zk_bench.specs.Serving.{FitsReply};
ghost use Rattle.zk_bench.specs.Answerable.{DataFit, size_of_names, NamesFit, AnswerFits};
ghost use Rattle.zk_bench.specs.inner.Answerable.{ListFits};
ghost use Rattle.zk_bench.specs.inner.Refusals.{IsCode};
ghost use Rattle.zk_bench.specs.declared.stop.Stop.TheVariants as stops;
ghost use Rattle.zk_bench.specs.declared.stop.Refusal.TheVariants as refusals;

use crate::connection::Connection;
use crate::replies::send_result;
use crate::rewatch::set_watches;
use crate::stop::Refusal;
use crate::tree::{Tree, text_of};
use crate::watches::add_where;
use std::alloc::{AllocError, Allocator};
use std::collections::BTreeSet;
use zk_jute::{Buffer, List, Text};
use zk_records::{
    Code, GetChildren2Response, GetChildrenResponse, GetDataResponse, ReadRequest, Request, Stat,
};

/// Answers a request that leaves the history as it is.
pub(crate) fn read<A: Allocator + Copy>(
    tree: &Tree<'_, A>,
    xid: i32,
    request: &Request<A>,
    connection: &mut Connection<A>,
) -> Result<(), Refusal>
    ensures requests { connection.new.requests ≡ connection.old.requests }
    ensures rest { connection.new ≡ record connection.old { watches = connection.new.watches; output = connection.new.output } }
    ensures ends { IsErrOf result (refusals.Stop stops.End) → connection.new.output.items ≡ connection.old.output.items }
    ensures stays { (asked : Call) (zxid : ℕ) → IsReadOf request.now asked → tree.now.zxid ≡ pos zxid
        → AnswerFits (tree_at (history_of tree.now.history.now) zxid) asked → ¬ IsErrOf result (refusals.Stop stops.End) }
    ensures holds { (since : ℕ) (part : Lists) → IsRestoring request.now since part → ¬ IsErrOf result (refusals.Stop stops.End) }
    ensures answers { (asked : Call) (zxid : ℕ) → IsReadOf request.now asked → tree.now.zxid ≡ pos zxid
        → OnOk result (AnswersRead (tree_at (history_of tree.now.history.now) zxid) zxid xid asked connection.old connection.new) }
    ensures refuses { (asked : Call) (zxid : ℕ) → IsReadOf request.now asked → tree.now.zxid ≡ pos zxid
        → IfErr result (RefusesRead (tree_at (history_of tree.now.history.now) zxid) asked connection.old connection.new) }
    ensures restores { (since zxid : ℕ) (part : Lists) → IsRestoring request.now since part → tree.now.zxid ≡ pos zxid
        → OnOk result (RestoresPart (tree_at (history_of tree.now.history.now) zxid) zxid xid since part connection.old connection.new) }
    ensures stops { (since : ℕ) (part : Lists) → IsRestoring request.now since part → IfErr result (λ refusal. IsCode refusal → ⊥) }
{
    match request {
        Request::Exists(r) => exists(tree, xid, r, connection),
        Request::GetData(r) => get_data(tree, xid, r, connection),
        Request::GetChildren(r) => get_children(tree, xid, r, connection),
        Request::GetChildren2(r) => get_children_2(tree, xid, r, connection),
        Request::SetWatches(r) => {
            set_watches(tree, xid, r, connection)?;
            Ok(())
        }
        _ => Ok(()),
    }
}

// Answers exists.
fn exists<A: Allocator + Copy>(
    tree: &Tree<'_, A>,
    xid: i32,
    request: &ReadRequest<A>,
    connection: &mut Connection<A>,
) -> Result<(), Refusal>
    ensures requests { connection.new.requests ≡ connection.old.requests }
    ensures rest { connection.new ≡ record connection.old { watches = connection.new.watches; output = connection.new.output } }
    ensures ends { IsErrOf result (refusals.Stop stops.End) → connection.new.output.items ≡ connection.old.output.items }
    ensures stays { ¬ IsErrOf result (refusals.Stop stops.End) }
    ensures answers { (text : Bytes) (zxid : ℕ) → IsPath text → request.now.path ≡ Some text → tree.now.zxid ≡ pos zxid
        → OnOk result (AnswersRead (tree_at (history_of tree.now.history.now) zxid) zxid xid
        (Exists text request.now.watch) connection.old connection.new) }
    ensures refuses { (text : Bytes) (zxid : ℕ) → IsPath text → request.now.path ≡ Some text → tree.now.zxid ≡ pos zxid
        → IfErr result
        (RefusesRead (tree_at (history_of tree.now.history.now) zxid) (Exists text request.now.watch) connection.old connection.new) }
{
    let text = text_of(&request.path);
    let stat = tree.stat(text)?;
    let paths = &mut connection.watches.data;
    add_where(tree.alloc, paths, request.watch, text)?;
    let Some(stat) = stat else {
        return Err(Refusal::Code(Code::NoNode));
    };
    let zxid = tree.zxid;
    send_result(tree.alloc, xid, zxid, stat, &mut connection.output)?;
    Ok(())
}

// The `Stat` of the node that is read, and -101 where no node is there. Where one is, the watch that is asked for is left
// among these paths.
fn watched<A: Allocator + Copy>(
    tree: &Tree<'_, A>,
    request: &ReadRequest<A>,
    paths: &mut BTreeSet<String<A>, A>,
) -> Result<Stat, Refusal>
    ensures found { (text : Bytes) → IsPath text → request.now.path ≡ Some text
        → IfOk result (λ stat. IsStat (tree_at (history_of tree.now.history.now) (natural tree.now.zxid)) (path_of text) (Some stat)) }
    ensures left { OnOk result
        (names_of paths.new ≡ cond request.now.watch (set.insert (names_of paths.old) (or_empty request.now.path)) (names_of paths.old)) }
    ensures stays { ¬ IsErrOf result (refusals.Stop stops.End) }
    ensures misses { (text : Bytes) → IsPath text → request.now.path ≡ Some text
        → IfErr result (MissesNode (tree_at (history_of tree.now.history.now) (natural tree.now.zxid)) (path_of text)
        (names_of paths.old) (names_of paths.new)) }
{
    let text = text_of(&request.path);
    let Some(stat) = tree.stat(text)? else {
        return Err(Refusal::Code(Code::NoNode));
    };
    add_where(tree.alloc, paths, request.watch, text)?;
    Ok(stat)
}

// Answers getData.
fn get_data<A: Allocator + Copy>(
    tree: &Tree<'_, A>,
    xid: i32,
    request: &ReadRequest<A>,
    connection: &mut Connection<A>,
) -> Result<(), Refusal>
    ensures requests { connection.new.requests ≡ connection.old.requests }
    ensures rest { connection.new ≡ record connection.old { watches = connection.new.watches; output = connection.new.output } }
    ensures ends { IsErrOf result (refusals.Stop stops.End) → connection.new.output.items ≡ connection.old.output.items }
    ensures stays { (text : Bytes) → IsPath text → request.now.path ≡ Some text
        → DataFit (tree_at (history_of tree.now.history.now) (natural tree.now.zxid) (path_of text))
        → ¬ IsErrOf result (refusals.Stop stops.End) }
    ensures answers { (text : Bytes) (zxid : ℕ) → IsPath text → request.now.path ≡ Some text → tree.now.zxid ≡ pos zxid
        → OnOk result (AnswersRead (tree_at (history_of tree.now.history.now) zxid) zxid xid
        (GetData text request.now.watch) connection.old connection.new) }
    ensures refuses { (text : Bytes) (zxid : ℕ) → IsPath text → request.now.path ≡ Some text → tree.now.zxid ≡ pos zxid
        → IfErr result
        (RefusesRead (tree_at (history_of tree.now.history.now) zxid) (GetData text request.now.watch) connection.old connection.new) }
{
    let stat = watched(tree, request, &mut connection.watches.data)?;
    let Some(data) = tree.data(text_of(&request.path))? else {
        return Err(Refusal::Code(Code::NoNode));
    };
    let bytes = Buffer::new(data.bytes);
    let record = GetDataResponse { bytes, stat };
    let zxid = tree.zxid;
    send_result(tree.alloc, xid, zxid, record, &mut connection.output)?;
    Ok(())
}

// Answers getChildren, the names in byte order.
fn get_children<A: Allocator + Copy>(
    tree: &Tree<'_, A>,
    xid: i32,
    request: &ReadRequest<A>,
    connection: &mut Connection<A>,
) -> Result<(), Refusal>
    ensures requests { connection.new.requests ≡ connection.old.requests }
    ensures rest { connection.new ≡ record connection.old { watches = connection.new.watches; output = connection.new.output } }
    ensures ends { IsErrOf result (refusals.Stop stops.End) → connection.new.output.items ≡ connection.old.output.items }
{
    let _stat = watched(tree, request, &mut connection.watches.child)?;
    let children = children_at(tree, text_of(&request.path))?;
    let record = GetChildrenResponse { children };
    let out = &mut connection.output;
    send_result(tree.alloc, xid, tree.zxid, record, out).map_err(Refusal::from)
}

// Answers getChildren2, the names in byte order, with the node's `Stat`.
fn get_children_2<A: Allocator + Copy>(
    tree: &Tree<'_, A>,
    xid: i32,
    request: &ReadRequest<A>,
    connection: &mut Connection<A>,
) -> Result<(), Refusal>
    ensures requests { connection.new.requests ≡ connection.old.requests }
    ensures rest { connection.new ≡ record connection.old { watches = connection.new.watches; output = connection.new.output } }
    ensures ends { IsErrOf result (refusals.Stop stops.End) → connection.new.output.items ≡ connection.old.output.items }
    ensures stays { (text : Bytes) → IsPath text → request.now.path ≡ Some text
        → NamesFit (tree_at (history_of tree.now.history.now) (natural tree.now.zxid)) (path_of text) (tree_at
        (history_of tree.now.history.now) (natural tree.now.zxid) (path_of text)) → ¬ IsErrOf result (refusals.Stop stops.End) }
    ensures answers { (text : Bytes) (zxid : ℕ) → IsPath text → request.now.path ≡ Some text → tree.now.zxid ≡ pos zxid
        → OnOk result (AnswersRead (tree_at (history_of tree.now.history.now) zxid) zxid xid
        (GetChildren text request.now.watch) connection.old connection.new) }
    ensures refuses { (text : Bytes) (zxid : ℕ) → IsPath text → request.now.path ≡ Some text → tree.now.zxid ≡ pos zxid
        → IfErr result (RefusesRead (tree_at (history_of tree.now.history.now) zxid)
        (GetChildren text request.now.watch) connection.old connection.new) }
{
    let stat = watched(tree, request, &mut connection.watches.child)?;
    let children = children_at(tree, text_of(&request.path))?;
    let record = GetChildren2Response { children, stat };
    let zxid = tree.zxid;
    send_result(tree.alloc, xid, zxid, record, &mut connection.output)?;
    Ok(())
}

// The names of the children at a text, in byte order, and -101 where no node is there.
fn children_at<A: Allocator + Copy>(
    tree: &Tree<'_, A>,
    text: &str,
) -> Result<List<Text<A>, A>, Refusal>
    ensures found { IsPath text.now → IfOk result (λ list. ListsChildren (tree_at (history_of tree.now.history.now) (natural tree.now.zxid))
        (path_of text.now) (option_map (λ v. v.items) list.elements)) }
    ensures fits { (names : NameSet) → IsPath text.now
        → HasChildren (tree_at (history_of tree.now.history.now) (natural tree.now.zxid)) (path_of text.now) names
        → FitsReply (4 + size_of_names names + 68) → IfOk result (λ list. ListFits (option_map (λ v. v.items) list.elements)) }
    ensures stays { ¬ IsErrOf result (refusals.Stop stops.End) }
    ensures misses { IsPath text.now
        → IfErr result (FindsNoNode (tree_at (history_of tree.now.history.now) (natural tree.now.zxid)) (path_of text.now)) }
{
    let Some(names) = tree.names(text)? else {
        return Err(Refusal::Code(Code::NoNode));
    };
    let children = list_of(tree.alloc, names.names)?;
    Ok(children)
}

// The names as the wire's list, in their order.
fn list_of<A: Allocator + Copy>(
    alloc: A,
    names: BTreeSet<String<A>, A>,
) -> Result<List<Text<A>, A>, AllocError>
    ensures is { IfOk result (λ list. option_map (λ v. v.items) list.elements ≡ Some (map Some (map string_bytes names.keys))) }
    ensures ordered { IsOrdered string_cmp names }
{
    let mut elements = Vec::new(alloc);
    for name in names {
        elements.push(Text::new(Some(name)))?;
    }
    Ok(List {
        elements: Some(elements),
    })
}
