//! What a client keeps of a subject, as an object of JSON.

ghost use Rattle.std.specs.Prelude.{◌≡◌, ◌++◌, List, Some, codes, IfOk, OnOk, map, string_bytes};
ghost use Rattle.std.specs.List.Sorted.{IsStrictlySortedBy};
ghost use Rattle.std.specs.Option.{option_map};
ghost use Rattle.json.specs.Token as json;
ghost use Rattle.zk_nodes.specs.Names.{name_cmp};
ghost use Rattle.zk_cache.specs.Contents.{answer_of, names_in};
ghost use Rattle.zk_client.specs.Clients.{view_of};
ghost use Rattle.zk_follow.specs.Following.{is_kept, says_none};
ghost use Rattle.shell_words.specs.Objects.{data_members, number_members, text_members};
ghost use Rattle.shell_watch.specs.Lines.{answer_kind, answer_members, array_members, fields, kind_of};
ghost use Rattle.shell_watch.specs.Lines.{mark_members, names_kind, node_kind, node_members, side_name, stat_members};
ghost use Rattle.shell_watch.specs.Lines.{subject_members, AreMembers, AreNamesMembers, IsSubjectObject};

use crate::looks::mark_word;
use crate::object::{begun, ended};
use json::Writer;
use shell_words::objects::{put_data, put_fields, put_number, put_text};
use std::alloc::{AllocError, Allocator};
use zk_client::{Children, Client, DataAnswer, DataStat, Mark, Side, SortedNames};
use zk_trees::{NodeSide, is_missing};

/// The word for a side.
fn side_name(side: Side) -> &'static str
    ensures { result.now ≡ side_name side }
{
    match side {
        Side::Data => "data",
        Side::Child => "names",
    }
}

/// The seven fields, by ZooKeeper's names.
fn fields_of(stat: &DataStat) -> [(&'static str, i64); 7]
    ensures { map (λ field. (field.0.now, field.1)) result ≡ fields stat.now }
{
    [
        ("czxid", stat.czxid),
        ("mzxid", stat.mzxid),
        ("ctime", stat.ctime),
        ("mtime", stat.mtime),
        ("version", stat.version as i64),
        ("ephemeralOwner", stat.ephemeral_owner),
        ("dataLength", stat.data_length as i64),
    ]
}

/// Writes the seven fields.
fn put_stat<A: Allocator + Copy>(writer: &mut Writer<A>, stat: &DataStat) -> Result<(), AllocError>
    ensures { OnOk result ((writer.new.before ≡ writer.old.before) × (writer.new.tokens ≡ writer.old.tokens ++ stat_members stat.now)) }
{
    put_fields(writer, &fields_of(stat))
}

/// Writes data that are kept whole, and the seven fields.
fn put_full<A: Allocator + Copy>(
    writer: &mut Writer<A>,
    alloc: A,
    bytes: &Option<Vec<u8, A>>,
    stat: &DataStat,
) -> Result<(), AllocError>
    ensures { OnOk result ((writer.new.before ≡ writer.old.before)
        × (writer.new.tokens ≡ writer.old.tokens ++ (data_members (option_map (λ v. v.items) bytes.now) ++ stat_members stat.now))) }
{
    put_data(writer, alloc, bytes)?;
    put_stat(writer, stat)
}

/// What an answer about a node itself says.
fn answer_kind<A: Allocator>(answer: &DataAnswer<A>) -> &'static str
    ensures { result.now ≡ answer_kind (answer_of answer.now) }
{
    match answer {
        DataAnswer::Absent => "absent",
        DataAnswer::Known(_) => "known",
        DataAnswer::Full(_, _) => "data",
    }
}

/// Writes an answer about a node itself.
fn put_answer<A: Allocator + Copy>(
    writer: &mut Writer<A>,
    alloc: A,
    answer: &DataAnswer<A>,
) -> Result<(), AllocError>
    ensures { OnOk result
        ((writer.new.before ≡ writer.old.before) × (writer.new.tokens ≡ writer.old.tokens ++ answer_members (answer_of answer.now))) }
{
    match answer {
        DataAnswer::Absent => Ok(()),
        DataAnswer::Known(stat) => put_stat(writer, stat),
        DataAnswer::Full(bytes, stat) => put_full(writer, alloc, bytes, stat),
    }
}

/// What is kept of a node itself: which kind of answer.
fn node_kind<A: Allocator>(kept: Option<(&DataAnswer<A>, Mark)>) -> &'static str
    ensures { result.now ≡ node_kind (option_map (λ k. record { answer = answer_of k.0.now; mark = k.1 }) kept.entry) }
{
    match kept {
        None => "none",
        Some((answer, _)) => answer_kind(answer),
    }
}

/// Writes what is kept of a node itself.
fn put_node<A: Allocator + Copy>(
    writer: &mut Writer<A>,
    alloc: A,
    kept: Option<(&DataAnswer<A>, Mark)>,
) -> Result<(), AllocError>
    ensures { OnOk result ((writer.new.before ≡ writer.old.before)
        × (writer.new.tokens ≡ writer.old.tokens
        ++ node_members (option_map (λ k. record { answer = answer_of k.0.now; mark = k.1 }) kept.entry))) }
{
    let Some((answer, mark)) = kept else {
        return Ok(());
    };
    put_answer(writer, alloc, answer)?;
    put_text(writer, "mark", mark_word(mark))
}

/// Writes each of the names.
fn put_each<A: Allocator + Copy>(
    writer: &mut Writer<A>,
    names: &SortedNames<A>,
) -> Result<(), AllocError>
    ensures written { OnOk result
        ((writer.new.before ≡ writer.old.before) × (writer.new.tokens ≡ writer.old.tokens ++ map json.string names.now)) }
    ensures sorted { OnOk result (IsStrictlySortedBy name_cmp names.now) }
{
    for index in 0..names.len() {
        if let Some(name) = names.get(index) {
            writer.string(name)?;
        }
    }
    Ok(())
}

/// Writes a key and an array of the names.
fn put_array<A: Allocator + Copy>(
    writer: &mut Writer<A>,
    key: &str,
    names: &SortedNames<A>,
) -> Result<(), AllocError>
    ensures written { OnOk result
        ((writer.new.before ≡ writer.old.before) × (writer.new.tokens ≡ writer.old.tokens ++ array_members key.now names.now)) }
    ensures sorted { OnOk result (IsStrictlySortedBy name_cmp names.now) }
{
    writer.key(key)?;
    writer.begin_array()?;
    put_each(writer, names)?;
    writer.end_array()
}

/// Writes names that are kept.
fn put_found<A: Allocator + Copy>(
    writer: &mut Writer<A>,
    found: &Children<A>,
    mark: Mark,
) -> Result<(), AllocError>
    ensures written { OnOk result ((writer.new.before ≡ writer.old.before)
        × (writer.new.tokens ≡ writer.old.tokens ++ (array_members (codes "names") found.now.names
        ++ (number_members (codes "pzxid") found.now.pzxid ++ mark_members mark)))) }
    ensures sorted { OnOk result (IsStrictlySortedBy name_cmp found.now.names) }
{
    put_array(writer, "names", &found.names)?;
    put_number(writer, "pzxid", found.pzxid)?;
    put_text(writer, "mark", mark_word(mark))
}

/// Writes names that are kept: each once, in the order of their bytes.
fn put_listing<A: Allocator + Copy>(
    writer: &mut Writer<A>,
    found: &Children<A>,
    mark: Mark,
) -> Result<(), AllocError>
    ensures { OnOk result
        ((members : List json.Token) × AreNamesMembers (Some (record { answer = names_in found.now; mark = mark })) members
        × (writer.new.before ≡ writer.old.before) × (writer.new.tokens ≡ writer.old.tokens ++ members)) }
{
    put_found(writer, found, mark)
}

/// What is kept of the names below a node.
fn names_kind<A: Allocator>(kept: Option<(&Children<A>, Mark)>) -> &'static str
    ensures { result.now ≡ names_kind (option_map (λ k. record { answer = names_in k.0.now; mark = k.1 }) kept.entry) }
{
    match kept {
        None => "none",
        Some(_) => "names",
    }
}

/// Writes what is kept of the names below a node.
fn put_names<A: Allocator + Copy>(
    writer: &mut Writer<A>,
    kept: Option<(&Children<A>, Mark)>,
) -> Result<(), AllocError>
    ensures { OnOk result ((members : List json.Token)
        × AreNamesMembers (option_map (λ k. record { answer = names_in k.0.now; mark = k.1 }) kept.entry) members
        × (writer.new.before ≡ writer.old.before) × (writer.new.tokens ≡ writer.old.tokens ++ members)) }
{
    match kept {
        None => Ok(()),
        Some((found, mark)) => put_listing(writer, found, mark),
    }
}

/// What is kept of a subject: which kind of line tells it.
fn kind_of<A: Allocator + Copy>(client: &Client<A>, subject: &NodeSide<A>) -> &'static str
    ensures { result.now ≡ kind_of subject.now.side subject.now.path (view_of client.now) }
{
    match subject.side {
        Side::Child if !is_missing(client, &subject.path) => {
            names_kind(client.peek_children(&subject.path))
        }
        _ => node_kind(client.peek_data(&subject.path)),
    }
}

/// Writes what is kept of a subject.
fn put_kept<A: Allocator + Copy>(
    writer: &mut Writer<A>,
    alloc: A,
    client: &Client<A>,
    subject: &NodeSide<A>,
) -> Result<(), AllocError>
    ensures { OnOk result ((members : List json.Token) × AreMembers subject.now.side subject.now.path (view_of client.now) members
        × (writer.new.before ≡ writer.old.before) × (writer.new.tokens ≡ writer.old.tokens ++ members)) }
{
    match subject.side {
        Side::Child if !is_missing(client, &subject.path) => {
            put_names(writer, client.peek_children(&subject.path))
        }
        _ => put_node(writer, alloc, client.peek_data(&subject.path)),
    }
}

/// Writes which side of which path is watched.
fn put_aim<A: Allocator + Copy>(
    writer: &mut Writer<A>,
    subject: &NodeSide<A>,
) -> Result<(), AllocError>
    ensures { OnOk result ((writer.new.before ≡ writer.old.before)
        × (writer.new.tokens ≡ writer.old.tokens
        ++ (text_members (codes "path") subject.now.path ++ text_members (codes "side") (side_name subject.now.side)))) }
{
    put_text(writer, "path", subject.path.as_str())?;
    put_text(writer, "side", side_name(subject.side))
}

/// Writes what is kept of a subject, and the last seen zxid.
fn put_known<A: Allocator + Copy>(
    writer: &mut Writer<A>,
    alloc: A,
    client: &Client<A>,
    subject: &NodeSide<A>,
) -> Result<(), AllocError>
    ensures { OnOk result ((kept : List json.Token) × AreMembers subject.now.side subject.now.path (view_of client.now) kept
        × (writer.new.before ≡ writer.old.before)
        × (writer.new.tokens ≡ writer.old.tokens ++ (kept ++ number_members (codes "last") (view_of client.now).saved.last))) }
{
    put_kept(writer, alloc, client, subject)?;
    put_number(writer, "last", client.last_zxid())
}

/// Writes a subject: the path, the side, what is kept, and the last seen zxid.
fn put_subject<A: Allocator + Copy>(
    writer: &mut Writer<A>,
    alloc: A,
    client: &Client<A>,
    subject: &NodeSide<A>,
) -> Result<(), AllocError>
    ensures { OnOk result ((kept : List json.Token) × AreMembers subject.now.side subject.now.path (view_of client.now) kept
        × (writer.new.before ≡ writer.old.before)
        × (writer.new.tokens ≡ writer.old.tokens
        ++ subject_members subject.now.side subject.now.path kept (view_of client.now).saved.last)) }
{
    put_aim(writer, subject)?;
    put_known(writer, alloc, client, subject)
}

/// The object of a subject.
pub(crate) fn subject_object<A: Allocator + Copy>(
    alloc: A,
    ms: u64,
    client: &Client<A>,
    subject: &NodeSide<A>,
) -> Result<String<A>, AllocError>
    ensures { IfOk result (λ text. IsSubjectObject ms subject.now.side subject.now.path (view_of client.now) (string_bytes text)) }
{
    let mut writer = begun(alloc, kind_of(client, subject), ms)?;
    put_subject(&mut writer, alloc, client, subject)?;
    ended(writer)
}
