//! All nodes at and below a path, and what is lacking before there are, as bytes.

ghost use Rattle.std.specs.Prelude.{◌≡◌, ◌++◌, IfErr, IfOk, OnErr, OnOk, option_map};
ghost use Rattle.zk_cache.specs.Contents.{answer_of, names_in};
ghost use Rattle.zk_client.specs.Clients.{view_of};
ghost use Rattle.zk_jute.specs.Spelling.{Fits, spelling};
ghost use Rattle.zk_conclusions.specs.Lacks.{HasNoPath};
ghost use Rattle.zk_conclusions.specs.Subtrees.{HasMoreNodes, IsWholeBelow, Says};
ghost use Rattle.ffi_device.specs.Codes.{refusal_code};
ghost use Rattle.ffi_device.specs.Flats.{side_number};
ghost use Rattle.ffi_device.specs.Kept.{WritesText};
ghost use Rattle.ffi_device.specs.Refused.{RefusesNodes};
ghost use Rattle.ffi_device.specs.Subtrees.{AreNodes, AreReads, IsLackingText, IsSubtreeText, bytes_in, node_kept, node_layout, node_value};
ghost use Rattle.ffi_device.specs.Subtrees.{pzxid_in, read_layout, read_value, stat_in};

use crate::copying::copy_into;
use crate::paths::path_of;
use crate::refusal::DeviceRefusal;
use std::alloc::{AllocError, Global};
use zk_client::{Children, Client, DataAnswer, DataStat, Mark, Path, Side};
use zk_conclusions::{Lacking, NoSubtree, Subtree};
use zk_jute::{BytesRef, PutError, Record, Then};

const NO_STAT: DataStat = DataStat {
    czxid: 0,
    mzxid: 0,
    ctime: 0,
    mtime: 0,
    version: 0,
    ephemeral_owner: 0,
    data_length: 0,
};

/// The data of a node that is kept with its data.
pub(crate) fn bytes_in(kept: Option<(&DataAnswer<Global>, Mark)>) -> Option<&[u8]>
    ensures { option_map (λ bytes. bytes.now) result
        ≡ bytes_in (option_map (λ kept. record { answer = answer_of kept.0.now; mark = kept.1 }) kept.entry) }
{
    match kept {
        Some((DataAnswer::Full(Some(bytes), _), _)) => Some(bytes.as_slice()),
        _ => None,
    }
}

/// What is known of it.
pub(crate) fn stat_in(kept: Option<(&DataAnswer<Global>, Mark)>) -> DataStat
    ensures { result ≡ stat_in (option_map (λ kept. record { answer = answer_of kept.0.now; mark = kept.1 }) kept.entry) }
{
    match kept {
        Some((DataAnswer::Full(_, stat), _)) => *stat,
        Some((DataAnswer::Known(stat), _)) => *stat,
        _ => NO_STAT,
    }
}

/// The zxid of the last change of the names below it.
pub(crate) fn pzxid_in(kept: Option<(&Children<Global>, Mark)>) -> i64
    ensures { result ≡ pzxid_in (option_map (λ kept. record { answer = names_in kept.0.now; mark = kept.1 }) kept.entry) }
{
    match kept {
        Some((names, _)) => names.pzxid,
        None => 0,
    }
}

// Writes a node at the end of the text.
fn write_node(
    path: &str,
    bytes: Option<&[u8]>,
    stat: DataStat,
    pzxid: i64,
    text: &mut Vec<u8>,
) -> Result<(), PutError>
    ensures ok { OnOk result (text.new.items
        ≡ text.old.items ++ spelling node_layout (node_value path.now (option_map (λ bytes. bytes.now) bytes.entry) stat pzxid)) }
    ensures fits { OnOk result (Fits node_layout (node_value path.now (option_map (λ bytes. bytes.now) bytes.entry) stat pzxid)) }
{
    let last = Then(stat.data_length, pzxid);
    let versions = Then(stat.version, Then(stat.ephemeral_owner, last));
    let times = Then(stat.ctime, Then(stat.mtime, versions));
    let zxids = Then(stat.czxid, Then(stat.mzxid, times));
    Then(path, Then(BytesRef { bytes }, zxids)).write(text)
}

// Writes what is kept of the node at a path.
fn write_kept(
    client: &Client<Global>,
    path: &Path<Global>,
    text: &mut Vec<u8>,
) -> Result<(), PutError>
    ensures ok { OnOk result (text.new.items ≡ text.old.items ++ spelling node_layout (node_kept (view_of client.now).cache path.now)) }
    ensures fits { OnOk result (Fits node_layout (node_kept (view_of client.now).cache path.now)) }
{
    let kept = client.peek_data(path);
    let pzxid = pzxid_in(client.peek_children(path));
    write_node(path.as_str(), bytes_in(kept), stat_in(kept), pzxid, text)
}

// What is kept of the nodes at these paths. An error says that memory ran out: what came in a frame is never too long.
fn spelled_nodes(
    alloc: Global,
    client: &Client<Global>,
    paths: &[Path<Global>],
) -> Result<Vec<u8>, AllocError>
    ensures { IfOk result (λ text. AreNodes (view_of client.now).cache paths.now text.items) }
{
    let mut text = Vec::new(alloc);
    for path in paths {
        let Ok(()) = write_kept(client, path, &mut text) else {
            return Err(AllocError);
        };
    }
    Ok(text)
}

// All nodes at and below the root.
fn subtree_text(
    alloc: Global,
    client: &Client<Global>,
    root: &Path<Global>,
    most: usize,
) -> Result<Vec<u8>, NoSubtree>
    ensures text { IfOk result (λ text. IsSubtreeText (view_of client.now) root.now most text.items) }
    ensures refused { IfErr result
        (λ why. Says why (¬ (IsWholeBelow (view_of client.now).cache root.now)) (HasMoreNodes (view_of client.now).cache root.now most)) }
{
    let subtree = Subtree::of(client, alloc, root, most)?;
    let text = spelled_nodes(alloc, client, subtree.paths())?;
    Ok(text)
}

fn side_number(side: Side) -> i32
    ensures { result ≡ side_number side }
{
    match side {
        Side::Data => 1,
        Side::Child => 2,
    }
}

// Writes a path with the number of a side.
fn write_read(path: &str, side: Side, text: &mut Vec<u8>) -> Result<(), PutError>
    ensures ok { OnOk result (text.new.items ≡ text.old.items ++ spelling read_layout (read_value side path.now)) }
    ensures fits { OnOk result (Fits read_layout (read_value side path.now)) }
{
    Then(path, side_number(side)).write(text)
}

// These paths, each with the number of the side. An error says that memory ran out.
fn spelled_reads(alloc: Global, paths: &[Path<Global>], side: Side) -> Result<Vec<u8>, AllocError>
    ensures { IfOk result (λ text. AreReads side paths.now text.items) }
{
    let mut text = Vec::new(alloc);
    for path in paths {
        let Ok(()) = write_read(path.as_str(), side, &mut text) else {
            return Err(AllocError);
        };
    }
    Ok(text)
}

// The reads that are lacking at and below the root.
fn lacking_text(
    alloc: Global,
    client: &Client<Global>,
    root: &Path<Global>,
    most: usize,
) -> Result<Vec<u8>, NoSubtree>
    ensures text { IfOk result (λ text. IsLackingText (view_of client.now).cache root.now most text.items) }
    ensures refused { IfErr result
        (λ why. Says why (HasNoPath (view_of client.now).cache root.now) (HasMoreNodes (view_of client.now).cache root.now most)) }
{
    let lacking = Lacking::of(client, alloc, root, most)?;
    let mut text = spelled_reads(alloc, lacking.data.as_slice(), Side::Data)?;
    let mut names = spelled_reads(alloc, lacking.names.as_slice(), Side::Child)?;
    text.append(&mut names)?;
    Ok(text)
}

/// Copies all nodes at and below a path, at most `most`, as much of them as there is room for, and tells how many bytes there are.
/// A refusal is as of [`peek_data`](crate::peek_data), else `NotWhole` or `TooMany`.
pub fn subtree(
    alloc: Global,
    client: &Client<Global>,
    path: &[u8],
    most: usize,
    room: &mut [u8],
) -> Result<usize, DeviceRefusal>
    ensures written { IfOk result (WritesText (IsSubtreeText (view_of client.now) path.now most) room.old room.new) }
    ensures refused { IfErr result (λ refusal. RefusesNodes (¬ (IsWholeBelow (view_of client.now).cache path.now))
        (HasMoreNodes (view_of client.now).cache path.now most) path.now (refusal_code refusal)) }
    ensures same { OnErr result (room.new ≡ room.old) }
{
    let path = path_of(alloc, path)?;
    let text = subtree_text(alloc, client, &path, most)?;
    Ok(copy_into(text.as_slice(), room))
}

/// Copies the reads that are lacking at and below a path before there is a subtree of at most `most` nodes, in the same way. A
/// refusal is as of [`peek_data`](crate::peek_data), else `NotWhole`, if no read helps, or `TooMany`.
pub fn lacking(
    alloc: Global,
    client: &Client<Global>,
    path: &[u8],
    most: usize,
    room: &mut [u8],
) -> Result<usize, DeviceRefusal>
    ensures written { IfOk result (WritesText (IsLackingText (view_of client.now).cache path.now most) room.old room.new) }
    ensures refused { IfErr result (λ refusal. RefusesNodes (HasNoPath (view_of client.now).cache path.now)
        (HasMoreNodes (view_of client.now).cache path.now most) path.now (refusal_code refusal)) }
    ensures same { OnErr result (room.new ≡ room.old) }
{
    let path = path_of(alloc, path)?;
    let text = lacking_text(alloc, client, &path, most)?;
    Ok(copy_into(text.as_slice(), room))
}
