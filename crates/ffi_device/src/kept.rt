//! What a client keeps of a path, as numbers and texts.

ghost use Rattle.std.specs.Prelude.{◌≡◌, ◌≢◌, ◌++◌, IfErr, IfOk, None, OnErr, OnOk, drop, length, option_map, take};
ghost use Rattle.zk_cache.specs.Contents.{answer_of, names_in};
ghost use Rattle.zk_client.specs.Clients.{view_of};
ghost use Rattle.zk_nodes.specs.PathFault.{IsPath};
ghost use Rattle.ffi_device.specs.Codes.{refusal_code};
ghost use Rattle.ffi_device.specs.Kept.{data_flat, data_stat_flat, data_text, mark_number, AreKeptNames, AreNames};
ghost use Rattle.ffi_device.specs.Kept.{AreSpelled, IsKeptName, TellsNames, WritesName, WritesNames};
ghost use Rattle.ffi_device.specs.Refused.{RefusesPath};

use crate::copying::copy_into;
use crate::paths::{path_of, refuse_no_path, text_of};
use crate::refusal::DeviceRefusal;
use crate::texts::{spelled_texts, text_at};
use std::alloc::Global;
use zk_client::{Children, Client, DataAnswer, DataStat, Mark};

/// What is kept of the fields of a node that change only if a data watch fires.
#[repr(C)]
#[derive(Clone, Copy)]
pub struct FlatDataStat {
    pub czxid: i64,
    pub mzxid: i64,
    pub ctime: i64,
    pub mtime: i64,
    pub ephemeral_owner: i64,
    pub version: i32,
    pub data_length: i32,
}

/// What is kept about the data of a path, as numbers. The data are read separately.
#[repr(C)]
#[derive(Clone, Copy)]
pub struct KeptData {
    /// 0 nothing is kept, 1 no node is there, 2 a node whose data were not read, 3 a node with its data.
    pub kind: i32,
    /// 1 good, 2 stale.
    pub mark: i32,
    /// How many bytes the data have.
    pub length: usize,
    /// Of a node with its data, whether these are null.
    pub is_null: bool,
    pub stat: FlatDataStat,
}

/// What is kept about the children of a path, as numbers. The names are read separately.
#[repr(C)]
#[derive(Clone, Copy)]
pub struct KeptNames {
    /// 0 nothing is kept, 1 good, 2 stale.
    pub mark: i32,
    /// How many names there are.
    pub count: usize,
    /// The zxid of the last change of this set.
    pub pzxid: i64,
}

const NO_DATA: KeptData = KeptData {
    kind: 0,
    mark: 0,
    length: 0,
    is_null: false,
    stat: FlatDataStat {
        czxid: 0,
        mzxid: 0,
        ctime: 0,
        mtime: 0,
        ephemeral_owner: 0,
        version: 0,
        data_length: 0,
    },
};

fn mark_number(mark: Mark) -> i32
    ensures { result ≡ mark_number mark }
{
    match mark {
        Mark::Good => 1,
        Mark::Stale => 2,
    }
}

fn data_stat_flat(stat: &DataStat) -> FlatDataStat
    ensures { result ≡ data_stat_flat stat.now }
{
    FlatDataStat {
        czxid: stat.czxid,
        mzxid: stat.mzxid,
        ctime: stat.ctime,
        mtime: stat.mtime,
        ephemeral_owner: stat.ephemeral_owner,
        version: stat.version,
        data_length: stat.data_length,
    }
}

/// What is kept of the data, as numbers.
pub(crate) fn data_flat(kept: Option<(&DataAnswer<Global>, Mark)>) -> KeptData
    ensures { result ≡ data_flat (option_map (λ kept. record { answer = answer_of kept.0.now; mark = kept.1 }) kept.entry) }
{
    let mut flat = NO_DATA;
    let Some((answer, mark)) = kept else {
        return flat;
    };
    flat.mark = mark_number(mark);
    match answer {
        DataAnswer::Absent => flat.kind = 1,
        DataAnswer::Known(stat) => {
            flat.kind = 2;
            flat.stat = data_stat_flat(stat);
        }
        DataAnswer::Full(bytes, stat) => {
            flat.kind = 3;
            flat.stat = data_stat_flat(stat);
            match bytes {
                Some(bytes) => flat.length = bytes.as_slice().len(),
                None => flat.is_null = true,
            }
        }
    }
    flat
}

fn data_text(kept: Option<(&DataAnswer<Global>, Mark)>) -> &[u8]
    ensures { result.now ≡ data_text (option_map (λ kept. record { answer = answer_of kept.0.now; mark = kept.1 }) kept.entry) }
{
    match kept {
        Some((DataAnswer::Full(Some(bytes), _), _)) => bytes.as_slice(),
        _ => b"",
    }
}

// The numbers of names with their mark.
fn flat_names(names: &Children<Global>, mark: Mark) -> KeptNames
    ensures { AreNames (record { answer = names_in names.now; mark = mark }) result }
{
    KeptNames {
        mark: mark_number(mark),
        count: names.names.len(),
        pzxid: names.pzxid,
    }
}

fn names_flat(kept: Option<(&Children<Global>, Mark)>) -> KeptNames
    ensures { TellsNames (option_map (λ kept. record { answer = names_in kept.0.now; mark = kept.1 }) kept.entry) result }
{
    match kept {
        Some((names, mark)) => flat_names(names, mark),
        None => KeptNames {
            mark: 0,
            count: 0,
            pzxid: 0,
        },
    }
}

// The name of this index of those that are kept, and nothing if there is none.
fn name_at(kept: Option<(&Children<Global>, Mark)>, index: usize) -> &[u8]
    ensures { IsKeptName index (option_map (λ kept. record { answer = names_in kept.0.now; mark = kept.1 }) kept.entry) result.now }
{
    match kept {
        Some((names, _)) if index < names.names.len() => {
            text_at(names.names.as_texts(), index).as_bytes()
        }
        _ => b"",
    }
}

// The names in byte order, each after its length.
fn spelled_names(names: &Children<Global>) -> &[u8]
    ensures { AreSpelled (names_in names.now).names result.now }
{
    // `len` is called for its clause that the names are in byte order, which the proof cites.
    let _ = names.names.len();
    spelled_texts(names.names.as_texts())
}

/// The names that are kept, in byte order and each after its length.
pub(crate) fn names_text(kept: Option<(&Children<Global>, Mark)>) -> &[u8]
    ensures { AreKeptNames (option_map (λ kept. record { answer = names_in kept.0.now; mark = kept.1 }) kept.entry) result.now }
{
    match kept {
        Some((names, _)) => spelled_names(names),
        None => b"",
    }
}

// What is kept about the data of the path of these bytes.
fn data_at<'a>(
    client: &'a Client<Global>,
    path: &[u8],
) -> Result<Option<(&'a DataAnswer<Global>, Mark)>, DeviceRefusal>
    ensures found { IfOk result (λ found. option_map (λ kept. record { answer = answer_of kept.0.now; mark = kept.1 }) found
        ≡ (view_of client.now).cache.nodes path.now) }
    ensures checked { OnOk result ((view_of client.now).cache.nodes path.now ≡ None → IsPath path.now) }
    ensures refused { IfErr result (λ refusal. RefusesPath path.now (refusal_code refusal)) }
    ensures memory { IfErr result (λ refusal. refusal ≢ DeviceRefusal.Memory) }
{
    let text = text_of(path)?;
    let kept = client.peek_data_at(text);
    if kept.is_none() {
        refuse_no_path(text)?;
    }
    Ok(kept)
}

// What is kept about the children of the path of these bytes.
fn children_at<'a>(
    client: &'a Client<Global>,
    path: &[u8],
) -> Result<Option<(&'a Children<Global>, Mark)>, DeviceRefusal>
    ensures found { IfOk result (λ found. option_map (λ kept. record { answer = names_in kept.0.now; mark = kept.1 }) found
        ≡ (view_of client.now).cache.children path.now) }
    ensures checked { OnOk result ((view_of client.now).cache.children path.now ≡ None → IsPath path.now) }
    ensures refused { IfErr result (λ refusal. RefusesPath path.now (refusal_code refusal)) }
    ensures memory { IfErr result (λ refusal. refusal ≢ DeviceRefusal.Memory) }
{
    let text = text_of(path)?;
    let kept = client.peek_children_at(text);
    if kept.is_none() {
        refuse_no_path(text)?;
    }
    Ok(kept)
}

/// What is kept about the data of a path. The data are copied, as much of them as there is room for. A refusal is `NotText`,
/// else `NotPath`. It takes no memory, and looks at the path only if nothing is kept of it.
pub fn peek_data(
    client: &Client<Global>,
    path: &[u8],
    room: &mut [u8],
) -> Result<KeptData, DeviceRefusal>
    ensures found { IfOk result (λ flat. flat ≡ data_flat ((view_of client.now).cache.nodes path.now)) }
    ensures copied { OnOk result (room.new ≡ take (length room.old) (data_text ((view_of client.now).cache.nodes path.now))
        ++ drop (length (data_text ((view_of client.now).cache.nodes path.now))) room.old) }
    ensures checked { OnOk result ((view_of client.now).cache.nodes path.now ≡ None → IsPath path.now) }
    ensures refused { IfErr result (λ refusal. RefusesPath path.now (refusal_code refusal)) }
    ensures memory { IfErr result (λ refusal. refusal ≢ DeviceRefusal.Memory) }
    ensures same { OnErr result (room.new ≡ room.old) }
{
    let kept = data_at(client, path)?;
    copy_into(data_text(kept), room);
    Ok(data_flat(kept))
}

/// What is kept about the children of a path. A refusal is as of [`peek_data`].
pub fn peek_children(client: &Client<Global>, path: &[u8]) -> Result<KeptNames, DeviceRefusal>
    ensures found { IfOk result (TellsNames ((view_of client.now).cache.children path.now)) }
    ensures checked { OnOk result ((view_of client.now).cache.children path.now ≡ None → IsPath path.now) }
    ensures refused { IfErr result (λ refusal. RefusesPath path.now (refusal_code refusal)) }
    ensures memory { IfErr result (λ refusal. refusal ≢ DeviceRefusal.Memory) }
{
    let kept = children_at(client, path)?;
    Ok(names_flat(kept))
}

/// Copies the name of this index, in byte order, of those that are kept of a path, as much of it as there is room for, and
/// tells how many bytes it has. A refusal is as of [`peek_data`].
pub fn peek_name(
    client: &Client<Global>,
    path: &[u8],
    index: usize,
    room: &mut [u8],
) -> Result<usize, DeviceRefusal>
    ensures written { IfOk result (WritesName index ((view_of client.now).cache.children path.now) room.old room.new) }
    ensures checked { OnOk result ((view_of client.now).cache.children path.now ≡ None → IsPath path.now) }
    ensures refused { IfErr result (λ refusal. RefusesPath path.now (refusal_code refusal)) }
    ensures memory { IfErr result (λ refusal. refusal ≢ DeviceRefusal.Memory) }
    ensures same { OnErr result (room.new ≡ room.old) }
{
    let kept = children_at(client, path)?;
    Ok(copy_into(name_at(kept, index), room))
}

/// Copies all names that are kept of a path, in byte order and each after its length in four bytes, as many bytes of them as
/// there is room for, and tells how many there are. A refusal is `NotText`, else `NotPath`, else `Memory`.
pub fn peek_names(
    alloc: Global,
    client: &Client<Global>,
    path: &[u8],
    room: &mut [u8],
) -> Result<usize, DeviceRefusal>
    ensures written { IfOk result (WritesNames ((view_of client.now).cache.children path.now) room.old room.new) }
    ensures refused { IfErr result (λ refusal. RefusesPath path.now (refusal_code refusal)) }
    ensures same { OnErr result (room.new ≡ room.old) }
{
    let path = path_of(alloc, path)?;
    Ok(copy_into(names_text(client.peek_children(&path)), room))
}
