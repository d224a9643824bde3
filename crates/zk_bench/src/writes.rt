//! Writes: which are refused, and how the others are made.

ghost use Rattle.std.specs.Prelude.{◌≡◌, ◌≤◌, ℕ, List, Option, false, pos, Some, None, IfOk, IfErr, IfSome, OnOk, IsErrOf, string_bytes};
ghost use Rattle.std.specs.Option.{option_map};
ghost use Rattle.std.specs.FinSet as set;
ghost use Rattle.zk_jute.specs.Lenient.{or_empty};
ghost use Rattle.zk_nodes.specs.Path.{path_of as names_in, parent_of};
ghost use Rattle.zk_nodes.specs.History.{Creates, Sets, Deletes, size_of};
ghost use Rattle.zk_history.specs.HistoryView.{HasChildren, IsAccepted, newest_tree};
ghost use Rattle.zk_history.specs.Made.{change_of};
ghost use Rattle.zk_nodes.specs.PathFault.{IsPath};
ghost use Rattle.zk_nodes.specs.Names.{Names as NameSet};
ghost use Rattle.zk_history.specs.declared.history_fault.HistoryFault.TheVariants as faults;
ghost use Rattle.zk_records.specs.declared.code.Code.TheVariants as codes;
ghost use Rattle.zk_laws.specs.Server.{IsMadeOf};
ghost use Rattle.zk_bench.specs.declared.stop.Stop.TheVariants as stops;
ghost use Rattle.zk_bench.specs.declared.stop.Refusal.TheVariants as refusals;
ghost use Rattle.zk_bench.specs.inner.Refusals.{IsCode};
ghost use Rattle.zk_bench.specs.Served.{Continues};
ghost use Rattle.zk_bench.specs.Writing.{appended};
ghost use Rattle.zk_bench.specs.inner.Writing.{mode_of as mode_told, owner_of, IsAnswer, IsRefusedWith, IsStatAt, tree_of, node_at};
ghost use Rattle.zk_bench.specs.inner.Writing.{is_version as version_told, data_refusal, removal_refusal, set_refusal, deletion_refusal};
ghost use Rattle.zk_bench.specs.inner.Writing.{made_text, creates_beside, refusal_above, place_refusal, creation_refusal, AreBeside};
ghost use Rattle.zk_bench.specs.inner.Writing.{is_over};
ghost use Rattle.zk_bench.specs.inner.Writing.{AppendRefused, WriteRefused};

use crate::sequence::numbered;
use crate::stop::{Refusal, Stop};
use crate::tree::{Tree, path_of, text_of};
use std::alloc::Allocator;
use zk_history::{Change, History, HistoryFault};
use zk_jute::Buffer;
use zk_nodes::{Path, Stat};
use zk_records::{Code, DeleteRequest};

/// How a node is made: the flags of a create.
#[derive(Clone, Copy)]
pub(crate) struct Mode {
    pub(crate) ephemeral: bool,
    pub(crate) sequential: bool,
}

/// The mode of some flags, 0 to 3, and none for others.
pub(crate) fn mode_of(flags: i32) -> Option<Mode>
    ensures { option_map (λ mode. (mode.ephemeral, mode.sequential)) result ≡ mode_told flags }
{
    let (ephemeral, sequential) = match flags {
        0 => (false, false),
        1 => (true, false),
        2 => (false, true),
        3 => (true, true),
        _ => return None,
    };
    Some(Mode {
        ephemeral,
        sequential,
    })
}

// The `Stat` of the node below which a path is to be made, with the node's text, or the first code that refuses it: -110
// for the root, -101 where the parent is absent, -108 where it has an owner.
fn parent_of<'p, A: Allocator + Copy>(
    tree: &Tree<'_, A>,
    asked: &'p Path<A>,
) -> Result<(&'p str, Stat), Refusal>
    ensures parent { IfOk result (λ found. parent_of (names_in asked.now) ≡ Some (names_in found.0.now)) }
    ensures path { IfOk result (λ found. IsPath found.0.now) }
    ensures accepted { OnOk result (refusal_above (tree_of tree.now.history.now tree.now.zxid) (names_in asked.now) ≡ None) }
    ensures counted { (names : NameSet) → AreBeside (tree_of tree.now.history.now tree.now.zxid) (names_in asked.now) names
        → IfOk result (λ found. found.1.num_children ≡ pos (set.len names)) }
    ensures beside { OnOk result ((names : NameSet) × AreBeside (tree_of tree.now.history.now tree.now.zxid) (names_in asked.now) names) }
    ensures told { IfErr result (IsRefusedWith (refusal_above (tree_of tree.now.history.now tree.now.zxid) (names_in asked.now))) }
    ensures refused { IfErr result IsAnswer }
{
    let Some(parent) = asked.parent() else {
        return Err(Refusal::Code(Code::NodeExists));
    };
    let Some(above) = tree.stat(parent)? else {
        return Err(Refusal::Code(Code::NoNode));
    };
    if above.ephemeral_owner != 0 {
        return Err(Refusal::Code(Code::NoChildrenForEphemerals));
    }
    Ok((parent, above))
}

// The path that is made where this one was asked for.
fn path_in_mode<A: Allocator + Copy>(
    tree: &Tree<'_, A>,
    mode: Mode,
    asked: &Path<A>,
    parent: &str,
) -> Result<Path<A>, Refusal>
    requires path { IsPath parent.now }
    requires parent { parent_of (names_in asked.now) ≡ Some (names_in parent.now) }
    ensures made { IfOk result (λ path. IsMadeOf asked.now mode.sequential path) }
    ensures text { IfOk result
        (λ path. made_text mode.sequential asked.now (creates_beside (names_in asked.now) tree.now.history.now.transactions) ≡ Some path) }
    ensures none { IfErr result (λ refusal. IsCode refusal
        → made_text mode.sequential asked.now (creates_beside (names_in asked.now) tree.now.history.now.transactions) ≡ None) }
    ensures refused { IfErr result (IsRefusedWith (Some codes.BadArguments)) }
{
    if mode.sequential {
        return numbered(tree.alloc, tree.history, asked, parent);
    }
    Path::new(tree.alloc, asked.as_str()).map_err(From::from)
}

// The code that refuses a node at this path, below a parent that has this many children: -110 where a node is there, -8
// where the parent has 2,147,483,647 children.
fn refusal_at<A: Allocator + Copy>(
    tree: &Tree<'_, A>,
    path: &Path<A>,
    children: i32,
) -> Option<Code>
    ensures is { result ≡ place_refusal (tree_of tree.now.history.now tree.now.zxid (names_in path.now)) children }
    ensures answer { IfSome result (λ code. IsAnswer (refusals.Code code)) }
{
    if tree.history.stat_at(tree.zxid, path).is_some() {
        return Some(Code::NodeExists);
    }
    if children == i32::MAX {
        return Some(Code::BadArguments);
    }
    None
}

// The path of the node that a create makes, or the first code that refuses it: -110 for the root, -101 where the parent
// is absent, -108 where it has an owner, -8 for a sequential path that can't be made, -110 where a node is there, -8
// where the parent has 2,147,483,647 children. A text that is no path is refused with -8 before all these.
fn created_path<A: Allocator + Copy>(
    tree: &Tree<'_, A>,
    mode: Mode,
    text: &str,
) -> Result<Path<A>, Refusal>
    ensures made { IfOk result (λ path. IsMadeOf text.now mode.sequential path) }
    ensures text { IfOk result
        (λ path. made_text mode.sequential text.now (creates_beside (names_in text.now) tree.now.history.now.transactions) ≡ Some path) }
    ensures accepted { (names : NameSet) → AreBeside (tree_of tree.now.history.now tree.now.zxid) (names_in text.now) names
        → OnOk result (creation_refusal (tree_of tree.now.history.now tree.now.zxid) mode.sequential text.now
        (creates_beside (names_in text.now) tree.now.history.now.transactions) (set.len names) ≡ None) }
    ensures told { (names : NameSet) → AreBeside (tree_of tree.now.history.now tree.now.zxid) (names_in text.now) names
        → IfErr result (IsRefusedWith (creation_refusal (tree_of tree.now.history.now tree.now.zxid) mode.sequential text.now
        (creates_beside (names_in text.now) tree.now.history.now.transactions) (set.len names))) }
    ensures beside { OnOk result ((names : NameSet) × AreBeside (tree_of tree.now.history.now tree.now.zxid) (names_in text.now) names) }
    ensures stays { ¬ IsErrOf result (refusals.Stop stops.End) }
    ensures refused { IfErr result IsAnswer }
{
    let asked = Path::new(tree.alloc, text)?;
    let (parent, above) = match parent_of(tree, &asked) {
        Ok(found) => found,
        Err(refusal) => {
            drop(asked);
            return Err(refusal);
        }
    };
    let path = path_in_mode(tree, mode, &asked, parent);
    drop(asked);
    let path = path?;
    match refusal_at(tree, &path, above.num_children) {
        Some(code) => {
            drop(path);
            Err(Refusal::Code(code))
        }
        None => Ok(path),
    }
}

/// What a create of this session changes, with the text of the path that it makes, or the first code that refuses it.
pub(crate) fn creation<A: Allocator + Copy>(
    tree: &Tree<'_, A>,
    session: i64,
    mode: Mode,
    text: &str,
    bytes: Buffer<A>,
) -> Result<(String<A>, Change<A>), Refusal>
    ensures made { IfOk result (λ made. (change_of made.1 ≡ Creates (names_in (string_bytes made.0)) bytes
        (owner_of session mode.ephemeral)) × IsMadeOf text.now mode.sequential (string_bytes made.0)) }
    ensures text { IfOk result (λ made. made_text mode.sequential text.now
        (creates_beside (names_in text.now) tree.now.history.now.transactions) ≡ Some (string_bytes made.0)) }
    ensures accepted { (names : NameSet) → AreBeside (tree_of tree.now.history.now tree.now.zxid) (names_in text.now) names
        → OnOk result (creation_refusal (tree_of tree.now.history.now tree.now.zxid) mode.sequential text.now
        (creates_beside (names_in text.now) tree.now.history.now.transactions) (set.len names) ≡ None) }
    ensures told { (names : NameSet) → AreBeside (tree_of tree.now.history.now tree.now.zxid) (names_in text.now) names
        → IfErr result (IsRefusedWith (creation_refusal (tree_of tree.now.history.now tree.now.zxid) mode.sequential text.now
        (creates_beside (names_in text.now) tree.now.history.now.transactions) (set.len names))) }
    ensures path { IfOk result (λ made. IsPath (string_bytes made.0)) }
    ensures allowed { size_of bytes ≤ 2147483647
        → IfOk result (λ made. IsAccepted (change_of made.1) (tree_of tree.now.history.now tree.now.zxid)) }
    ensures stays { ¬ IsErrOf result (refusals.Stop stops.End) }
    ensures refused { IfErr result IsAnswer }
{
    let path = match created_path(tree, mode, text) {
        Ok(path) => path,
        Err(refusal) => {
            drop(bytes);
            return Err(refusal);
        }
    };
    let Ok(text) = String::from_str(tree.alloc, path.as_str()) else {
        drop(path);
        drop(bytes);
        return Err(Refusal::Stop(Stop::Memory));
    };
    let owner = if mode.ephemeral { session } else { 0 };
    let change = Change::Create(path, bytes.into_inner(), owner);
    Ok((text, change))
}

// A path with the `Stat` of the node there, and -101 where no node is there.
fn node_at<A: Allocator + Copy>(tree: &Tree<'_, A>, text: &str) -> Result<(Path<A>, Stat), Refusal>
    ensures path { IfOk result (λ found. found.0 ≡ text.now) }
    ensures found { IfOk result (λ found. IsStatAt (tree_of tree.now.history.now tree.now.zxid) text.now (Some found.1)) }
    ensures missing { IfErr result (λ refusal. IsCode refusal → node_at (tree_of tree.now.history.now tree.now.zxid) text.now ≡ None) }
    ensures refused { IfErr result (IsRefusedWith (Some codes.NoNode)) }
{
    let Some(path) = path_of(tree.alloc, text)? else {
        return Err(Refusal::Code(Code::NoNode));
    };
    match tree.history.stat_at(tree.zxid, &path) {
        Some(stat) => Ok((path, stat)),
        None => Err(Refusal::Code(Code::NoNode)),
    }
}

// Whether a write that asks for this version, or for any by -1, is for a node of that version.
fn is_version(asked: i32, version: i32) -> bool
    ensures { result ≡ version_told asked version }
{
    asked == -1 || asked == version
}

// The code that refuses data at a node of this version: -103 where another one is asked for, -8 where it is 2,147,483,647.
fn refused_data(asked: i32, version: i32) -> Option<Code>
    ensures is { result ≡ data_refusal asked version }
    ensures answer { IfSome result (λ code. IsAnswer (refusals.Code code)) }
{
    if !is_version(asked, version) {
        return Some(Code::BadVersion);
    }
    if version == i32::MAX {
        return Some(Code::BadArguments);
    }
    None
}

/// The path of the node that a setData writes, or the first code that refuses it: -101 where no node is there, -103 for
/// another version, -8 where the version is 2,147,483,647.
pub(crate) fn written_path<A: Allocator + Copy>(
    tree: &Tree<'_, A>,
    text: &str,
    version: i32,
) -> Result<Path<A>, Refusal>
    ensures path { IfOk result (λ path. path ≡ text.now) }
    ensures accepted { OnOk result (set_refusal (node_at (tree_of tree.now.history.now tree.now.zxid) text.now) version ≡ None) }
    ensures told { IfErr result (IsRefusedWith (set_refusal (node_at (tree_of tree.now.history.now tree.now.zxid) text.now) version)) }
    ensures allowed { (content : Option (List ℕ)) → size_of content ≤ 2147483647
        → OnOk result (IsAccepted (Sets (names_in text.now) content) (tree_of tree.now.history.now tree.now.zxid)) }
    ensures stays { ¬ IsErrOf result (refusals.Stop stops.End) }
    ensures refused { IfErr result IsAnswer }
{
    let (path, stat) = node_at(tree, text)?;
    match refused_data(version, stat.version) {
        Some(code) => Err(Refusal::Code(code)),
        None => Ok(path),
    }
}

// The code that refuses that a node with this `Stat` is deleted: -103 where another version is asked for, -111 where it
// has children.
fn refused_deletion(asked: i32, stat: &Stat) -> Option<Code>
    ensures is { result ≡ removal_refusal asked stat.now.version stat.now.num_children }
    ensures answer { IfSome result (λ code. IsAnswer (refusals.Code code)) }
{
    if !is_version(asked, stat.version) {
        return Some(Code::BadVersion);
    }
    if stat.num_children != 0 {
        return Some(Code::NotEmpty);
    }
    None
}

/// The path of the node that a delete takes away, or the first code that refuses it: -8 for the root, -101 where no node
/// is there, -103 for another version, -111 where it has children.
pub(crate) fn deleted_path<A: Allocator + Copy>(
    tree: &Tree<'_, A>,
    request: &DeleteRequest<A>,
) -> Result<Path<A>, Refusal>
    ensures path { IfOk result (λ path. path ≡ or_empty request.now.path) }
    ensures accepted { (names : NameSet)
        → HasChildren (tree_of tree.now.history.now tree.now.zxid) (names_in (or_empty request.now.path)) names
        → OnOk result (deletion_refusal (tree_of tree.now.history.now tree.now.zxid) (or_empty request.now.path)
        (set.len names) request.now.version ≡ None) }
    ensures told { (names : NameSet) → HasChildren (tree_of tree.now.history.now tree.now.zxid) (names_in (or_empty request.now.path)) names
        → IfErr result (IsRefusedWith (deletion_refusal (tree_of tree.now.history.now tree.now.zxid) (or_empty request.now.path)
        (set.len names) request.now.version)) }
    ensures allowed { OnOk result
        (IsAccepted (Deletes (names_in (or_empty request.now.path))) (tree_of tree.now.history.now tree.now.zxid)) }
    ensures stays { ¬ IsErrOf result (refusals.Stop stops.End) }
    ensures refused { IfErr result IsAnswer }
{
    let text = text_of(&request.path);
    if text == "/" {
        return Err(Refusal::Code(Code::BadArguments));
    }
    let (path, stat) = node_at(tree, text)?;
    match refused_deletion(request.version, &stat) {
        Some(code) => Err(Refusal::Code(code)),
        None => Ok(path),
    }
}

/// Appends a change as a transaction of its own, one zxid above the last. `Order` where the zxid or the time would be past 2^63 - 1, and
/// then the history is as it was. After another fault a transaction with no change may have been appended.
#[tactic(auto, using(crate::proofs::Continuing::same_goes_on, crate::proofs::Continuing::begun_goes_on, crate::proofs::Continuing::changed_goes_on))]
pub(crate) fn append<A: Allocator + Copy>(
    history: &mut History<A>,
    time: u64,
    change: Change<A>,
) -> Result<(), HistoryFault>
    ensures ok { OnOk result (history.new ≡ appended history.old time (change_of change)) }
    ensures goes_on { Continues history.old history.new }
    ensures order { IfErr result (λ fault. fault ≡ faults.Order → history.new ≡ history.old) }
    ensures room { OnOk result (is_over history.old time ≡ false) }
    ensures accepted { OnOk result (IsAccepted (change_of change) (newest_tree history.old)) }
    ensures told { IfErr result (AppendRefused history.old time (change_of change)) }
{
    let last = history.last_zxid();
    if last == i64::MAX || time > i64::MAX as u64 {
        drop(change);
        return Err(HistoryFault::Order);
    }
    if let Err(fault) = history.begin(last + 1, time as i64) {
        drop(change);
        return Err(fault);
    }
    history.change(change)
}

/// The same for a write of the client, which is refused with -8 where the zxid or the time would be past 2^63 - 1.
#[tactic(auto)]
pub(crate) fn append_write<A: Allocator + Copy>(
    history: &mut History<A>,
    time: u64,
    change: Change<A>,
) -> Result<(), Refusal>
    ensures ok { OnOk result (history.new ≡ appended history.old time (change_of change)) }
    ensures goes_on { Continues history.old history.new }
    ensures refused { IfErr result
        (λ refusal. IsCode refusal → (refusal ≡ refusals.Code codes.BadArguments) × (history.new ≡ history.old)) }
    ensures room { OnOk result (is_over history.old time ≡ false) }
    ensures accepted { OnOk result (IsAccepted (change_of change) (newest_tree history.old)) }
    ensures told { IfErr result (WriteRefused history.old time (change_of change)) }
{
    match append(history, time, change) {
        Ok(()) => Ok(()),
        Err(HistoryFault::Order) => Err(Refusal::Code(Code::BadArguments)),
        Err(fault) => Err(Refusal::from(fault)),
    }
}
