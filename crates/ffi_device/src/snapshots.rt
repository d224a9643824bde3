//! What is kept of several paths at one moment, as bytes.

ghost use Rattle.std.specs.Prelude.{◌≡◌, ◌↔◌, ◌++◌, ℕ, List, true, IfErr, IfOk, IsTrue, OnErr, OnOk, option_map};
ghost use Rattle.zk_client.specs.Clients.{view_of};
ghost use Rattle.zk_conclusions.specs.Snapshots.{is_whole};
ghost use Rattle.zk_jute.specs.Spelling.{Fits, spelling};
ghost use Rattle.ffi_device.specs.Codes.{refusal_code};
ghost use Rattle.ffi_device.specs.Kept.{WritesText};
ghost use Rattle.ffi_device.specs.Snapshots.{AreParents, IsParent, IsSnapshotOf, IsSnapshotText, RefusesSnapshot, parent_layout};
ghost use Rattle.ffi_device.specs.Snapshots.{parent_value, shown_kept, shown_layout, shown_value};
ghost use Rattle.ffi_device.specs.Subtrees.{AreRecords};

use crate::copying::copy_into;
use crate::kept::{data_flat, names_text};
use crate::refusal::DeviceRefusal;
use crate::spelled_paths::{check_paths, collected_paths};
use crate::subtrees::{bytes_in, pzxid_in, stat_in};
use std::alloc::{AllocError, Global};
use zk_client::{Client, DataStat, Path};
use zk_conclusions::Snapshot;
use zk_conclusions::laws::one_tree;
use zk_jute::{BytesRef, PutError, Record, Then};

// Writes a node at the end of the text.
fn write_shown(
    path: &str,
    kind: i32,
    bytes: Option<&[u8]>,
    stat: DataStat,
    text: &mut Vec<u8>,
) -> Result<(), PutError>
    ensures ok { OnOk result (text.new.items
        ≡ text.old.items ++ spelling shown_layout (shown_value path.now kind (option_map (λ bytes. bytes.now) bytes.entry) stat)) }
    ensures fits { OnOk result (Fits shown_layout (shown_value path.now kind (option_map (λ bytes. bytes.now) bytes.entry) stat)) }
{
    let last = Then(stat.version, Then(stat.ephemeral_owner, stat.data_length));
    let times = Then(stat.ctime, Then(stat.mtime, last));
    let zxids = Then(stat.czxid, Then(stat.mzxid, times));
    Then(path, Then(kind, Then(BytesRef { bytes }, zxids))).write(text)
}

// Writes what is kept of the node at a path.
fn write_kept(
    client: &Client<Global>,
    path: &Path<Global>,
    text: &mut Vec<u8>,
) -> Result<(), PutError>
    ensures ok { OnOk result (text.new.items ≡ text.old.items ++ spelling shown_layout (shown_kept (view_of client.now).cache path.now)) }
    ensures fits { OnOk result (Fits shown_layout (shown_kept (view_of client.now).cache path.now)) }
{
    let kept = client.peek_data(path);
    let kind = data_flat(kept).kind;
    write_shown(path.as_str(), kind, bytes_in(kept), stat_in(kept), text)
}

// What is kept of the nodes at these paths. An error says that memory ran out: what came in a frame is never too long.
fn spelled_shown(
    alloc: Global,
    client: &Client<Global>,
    paths: &[Path<Global>],
) -> Result<Vec<u8>, AllocError>
    ensures { IfOk result (λ text. AreRecords shown_layout (shown_kept (view_of client.now).cache) paths.now text.items) }
{
    let mut text = Vec::new(alloc);
    for path in paths {
        let Ok(()) = write_kept(client, path, &mut text) else {
            return Err(AllocError);
        };
    }
    Ok(text)
}

// Writes the names below a path at the end of the text.
fn write_parent(path: &str, names: &[u8], pzxid: i64, text: &mut Vec<u8>) -> Result<(), PutError>
    ensures ok { OnOk result (text.new.items ≡ text.old.items ++ spelling parent_layout (parent_value path.now names.now pzxid)) }
    ensures fits { OnOk result (Fits parent_layout (parent_value path.now names.now pzxid)) }
{
    let bytes = Some(names);
    Then(path, Then(BytesRef { bytes }, pzxid)).write(text)
}

// Writes the names that are kept below a path.
fn write_names(
    client: &Client<Global>,
    path: &Path<Global>,
    text: &mut Vec<u8>,
) -> Result<(), AllocError>
    ensures { OnOk result ((one : List ℕ) × (text.new.items ≡ text.old.items ++ one) × IsParent (view_of client.now).cache path.now one) }
{
    let kept = client.peek_children(path);
    match write_parent(path.as_str(), names_text(kept), pzxid_in(kept), text) {
        Ok(()) => Ok(()),
        Err(_) => Err(AllocError),
    }
}

// The names that are kept below these paths. An error says that memory ran out.
fn spelled_parents(
    alloc: Global,
    client: &Client<Global>,
    paths: &[Path<Global>],
) -> Result<Vec<u8>, AllocError>
    ensures { IfOk result (λ text. AreParents (view_of client.now).cache paths.now text.items) }
{
    let mut text = Vec::new(alloc);
    for path in paths {
        let Ok(()) = write_names(client, path, &mut text) else {
            return Err(AllocError);
        };
    }
    Ok(text)
}

// Whether an answer about each node, and about the names below each of the others, is kept and good.
fn is_whole(client: &Client<Global>, paths: &[Path<Global>], above: &[Path<Global>]) -> bool
    ensures { IsTrue result ↔ (is_whole (view_of client.now).cache paths.now above.now ≡ true) }
{
    Snapshot::of(client, paths, above).is_some()
}

// What is kept of the nodes of the first paths, and then of the names below the second ones. An error says that memory ran out.
fn spelled_whole(
    alloc: Global,
    client: &Client<Global>,
    paths: &[Path<Global>],
    above: &[Path<Global>],
) -> Result<Vec<u8>, AllocError>
    requires { is_whole (view_of client.now).cache paths.now above.now ≡ true }
    ensures { IfOk result (λ text. IsSnapshotOf (view_of client.now) paths.now above.now text.items) }
{
    one_tree();
    let mut text = spelled_shown(alloc, client, paths)?;
    let mut parents = spelled_parents(alloc, client, above)?;
    text.append(&mut parents)?;
    Ok(text)
}

// The same of the paths that are spelled so, if all of it is good.
fn snapshot_text(
    alloc: Global,
    client: &Client<Global>,
    nodes: &[u8],
    parents: &[u8],
) -> Result<Vec<u8>, DeviceRefusal>
    ensures text { IfOk result (λ text. IsSnapshotText (view_of client.now) nodes.now parents.now text.items) }
    ensures refused { IfErr result (λ refusal. RefusesSnapshot (view_of client.now).cache nodes.now parents.now (refusal_code refusal)) }
{
    check_paths(alloc, nodes)?;
    check_paths(alloc, parents)?;
    let paths = collected_paths(alloc, nodes)?;
    let above = collected_paths(alloc, parents)?;
    if !is_whole(client, paths.as_slice(), above.as_slice()) {
        return Err(DeviceRefusal::NotWhole);
    }
    let text = spelled_whole(alloc, client, paths.as_slice(), above.as_slice())?;
    Ok(text)
}

/// Copies what is kept of the nodes of the first paths, and of the names below the second ones, if all of it is good, as much of it
/// as there is room for, and tells how many bytes there are. The paths of each follow one another, each after its length. A refusal is
/// `NotTexts` or `NotPath`, else `Memory` or `NotWhole`.
pub fn snapshot(
    alloc: Global,
    client: &Client<Global>,
    nodes: &[u8],
    parents: &[u8],
    room: &mut [u8],
) -> Result<usize, DeviceRefusal>
    ensures written { IfOk result (WritesText (IsSnapshotText (view_of client.now) nodes.now parents.now) room.old room.new) }
    ensures refused { IfErr result (λ refusal. RefusesSnapshot (view_of client.now).cache nodes.now parents.now (refusal_code refusal)) }
    ensures same { OnErr result (room.new ≡ room.old) }
{
    let text = snapshot_text(alloc, client, nodes, parents)?;
    Ok(copy_into(text.as_slice(), room))
}
