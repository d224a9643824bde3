//! Records whose fields are printed.

ghost use Rattle.std.specs.Prelude.{◌≡◌, ◌++◌, OnOk, string_bytes, true, codes, map};
ghost use Rattle.std.specs.List.{flat_map};
ghost use Rattle.zk_jute.specs.Layout.{vector, ◌⨾◌};
ghost use Rattle.zk_records.specs.Layouts.{acl, reply_header, watcher_event};
ghost use Rattle.zk_records.specs.declared.operation.Operation.TheVariants.{SetData, Create, Delete, SetWatches as SetsWatches};
ghost use Rattle.shell_commands.specs.Print.{Names, lines_of, each};
ghost use Rattle.shell_commands.specs.Names.{connect_names, reply_header_names, stat_names, get_data_names, get_children_names};
ghost use Rattle.shell_commands.specs.Names.{get_children2_names, create_names, event_names, notice_names, read_request_names, acl_names};
ghost use Rattle.shell_commands.specs.Names.{body_names};

use crate::fields::{PrintedField, push_boolean, push_buffer, push_fields, push_text, push_texts};
use script_words::lines::{push_line, push_shown};
use script_words::words::NULL;
use std::alloc::{AllocError, Allocator};
use zk_jute::{Cursor, List, PutError, Readable, Record, TakeError};
use zk_records::{
    Acl, ConnectRequest, CreateRequest, CreateResponse, DeleteRequest, GetChildren2Response,
    GetChildrenResponse, GetDataResponse, ReadRequest, ReplyHeader, SetDataRequest, SetWatches,
    Stat, WatcherEvent,
};

/// A record whose fields are printed, a line for each.
pub trait Shown<A: Allocator + Copy>: Record<A> {
    /// The names of the fields.
    ghost names: { Names };

    /// Adds the lines.
    fn push_lines(&self, text: &mut String<A>, alloc: A) -> Result<(), AllocError>
        ensures { OnOk result (string_bytes text.new ≡ string_bytes text.old ++ lines_of Self.layout names (Self.view self.now)) };
}

impl<A: Allocator + Copy> Shown<A> for ConnectRequest<A> {
    ghost names = { connect_names };

    fn push_lines(&self, text: &mut String<A>, alloc: A) -> Result<(), AllocError> {
        let fields = [
            ("protocolVersion", PrintedField::Int(&self.protocol_version)),
            ("lastZxidSeen", PrintedField::Long(&self.last_zxid_seen)),
            ("timeOut", PrintedField::Int(&self.time_out)),
            ("sessionId", PrintedField::Long(&self.session_id)),
            ("passwd", PrintedField::Buffer(&self.passwd)),
            ("readOnly", PrintedField::Boolean(self.read_only)),
        ];
        push_fields(text, alloc, &fields)
    }
}

impl<A: Allocator + Copy> Shown<A> for ReplyHeader {
    ghost names = { reply_header_names };

    fn push_lines(&self, text: &mut String<A>, alloc: A) -> Result<(), AllocError> {
        let fields = [
            ("xid", PrintedField::Int(&self.xid)),
            ("zxid", PrintedField::Long(&self.zxid)),
            ("err", PrintedField::Int(&self.err)),
        ];
        push_fields(text, alloc, &fields)
    }
}

impl<A: Allocator + Copy> Shown<A> for Stat {
    ghost names = { stat_names };

    fn push_lines(&self, text: &mut String<A>, alloc: A) -> Result<(), AllocError> {
        let fields = [
            ("czxid", PrintedField::Long(&self.czxid)),
            ("mzxid", PrintedField::Long(&self.mzxid)),
            ("ctime", PrintedField::Long(&self.ctime)),
            ("mtime", PrintedField::Long(&self.mtime)),
            ("version", PrintedField::Int(&self.version)),
            ("cversion", PrintedField::Int(&self.cversion)),
            ("aversion", PrintedField::Int(&self.aversion)),
            ("ephemeralOwner", PrintedField::Long(&self.ephemeral_owner)),
            ("dataLength", PrintedField::Int(&self.data_length)),
            ("numChildren", PrintedField::Int(&self.num_children)),
            ("pzxid", PrintedField::Long(&self.pzxid)),
        ];
        push_fields(text, alloc, &fields)
    }
}

impl<A: Allocator + Copy> Shown<A> for GetDataResponse<A> {
    ghost names = { get_data_names };

    fn push_lines(&self, text: &mut String<A>, alloc: A) -> Result<(), AllocError> {
        push_buffer(text, alloc, "data", &self.bytes)?;
        self.stat.push_lines(text, alloc)
    }
}

impl<A: Allocator + Copy> Shown<A> for GetChildrenResponse<A> {
    ghost names = { get_children_names };

    fn push_lines(&self, text: &mut String<A>, alloc: A) -> Result<(), AllocError> {
        push_texts(text, alloc, "children", &self.children)
    }
}

impl<A: Allocator + Copy> Shown<A> for GetChildren2Response<A> {
    ghost names = { get_children2_names };

    fn push_lines(&self, text: &mut String<A>, alloc: A) -> Result<(), AllocError> {
        push_texts(text, alloc, "children", &self.children)?;
        self.stat.push_lines(text, alloc)
    }
}

impl<A: Allocator + Copy> Shown<A> for CreateResponse<A> {
    ghost names = { create_names };

    fn push_lines(&self, text: &mut String<A>, alloc: A) -> Result<(), AllocError> {
        push_text(text, alloc, "path", &self.path)
    }
}

impl<A: Allocator + Copy> Shown<A> for WatcherEvent<A> {
    ghost names = { event_names };

    fn push_lines(&self, text: &mut String<A>, alloc: A) -> Result<(), AllocError> {
        let fields = [
            ("type", PrintedField::Int(&self.kind)),
            ("state", PrintedField::Int(&self.state)),
            ("path", PrintedField::Text(&self.path)),
        ];
        push_fields(text, alloc, &fields)
    }
}

/// What a watch tells, with its header.
#[derive(Drop)]
pub struct Notice<A: Allocator> {
    header: ReplyHeader,
    event: WatcherEvent<A>,
}

impl<A: Allocator + Copy> Record<A> for Notice<A> {
    ghost layout = { reply_header ⨾ watcher_event };

    ghost view = { λ r. (⟦<ReplyHeader as Record<A>>⟧.view r.header, ⟦<WatcherEvent<A> as Record<A>>⟧.view r.event) };

    fn write(&self, out: &mut Vec<u8, A>) -> Result<(), PutError> {
        self.header.write(out)?;
        self.event.write(out)
    }
}

impl<'a, A: Allocator + Copy> Readable<'a, A> for Notice<A> {
    ghost takes_memory = { true };

    fn read(alloc: A, at: &mut Cursor<'a>) -> Result<Notice<A>, TakeError> {
        Ok(Notice {
            header: ReplyHeader::read(alloc, at)?,
            event: WatcherEvent::read(alloc, at)?,
        })
    }
}

impl<A: Allocator + Copy> Shown<A> for Notice<A> {
    ghost names = { notice_names };

    fn push_lines(&self, text: &mut String<A>, alloc: A) -> Result<(), AllocError> {
        self.header.push_lines(text, alloc)?;
        self.event.push_lines(text, alloc)
    }
}

impl<A: Allocator + Copy> Shown<A> for ReadRequest<A> {
    ghost names = { read_request_names };

    fn push_lines(&self, text: &mut String<A>, alloc: A) -> Result<(), AllocError> {
        push_text(text, alloc, "path", &self.path)?;
        push_boolean(text, "watch", self.watch)
    }
}

impl<A: Allocator + Copy> Shown<A> for SetDataRequest<A> {
    ghost names = { body_names SetData };

    fn push_lines(&self, text: &mut String<A>, alloc: A) -> Result<(), AllocError> {
        let fields = [
            ("path", PrintedField::Text(&self.path)),
            ("data", PrintedField::Buffer(&self.bytes)),
            ("version", PrintedField::Int(&self.version)),
        ];
        push_fields(text, alloc, &fields)
    }
}

impl<A: Allocator + Copy> Shown<A> for Acl<A> {
    ghost names = { acl_names };

    fn push_lines(&self, text: &mut String<A>, alloc: A) -> Result<(), AllocError> {
        let fields = [
            ("perms", PrintedField::Int(&self.perms)),
            ("scheme", PrintedField::Text(&self.id.scheme)),
            ("id", PrintedField::Text(&self.id.id)),
        ];
        push_fields(text, alloc, &fields)
    }
}

/// Adds the lines of each record.
fn push_each<A: Allocator + Copy, R: Shown<A>>(
    text: &mut String<A>,
    alloc: A,
    values: &[R],
) -> Result<(), AllocError>
    ensures { OnOk result (string_bytes text.new ≡ string_bytes text.old ++ flat_map (lines_of R.layout R.names) (map R.view values.now)) }
{
    for value in values {
        value.push_lines(text, alloc)?;
    }
    Ok(())
}

/// Adds how many access rules there are, and the lines of each.
fn push_acl<A: Allocator + Copy>(
    text: &mut String<A>,
    alloc: A,
    values: &List<Acl<A>, A>,
) -> Result<(), AllocError>
    ensures { OnOk result (string_bytes text.new ≡ string_bytes text.old
        ++ lines_of (vector acl) (each (codes "acl") acl_names) (⟦<List<Acl<A>, A> as Record<A>>⟧.view values.now)) }
{
    match &values.elements {
        None => push_line(text, "acl", NULL),
        Some(values) => {
            push_shown(text, alloc, "acl", &values.len())?;
            push_each(text, alloc, values.as_slice())
        }
    }
}

impl<A: Allocator + Copy> Shown<A> for CreateRequest<A> {
    ghost names = { body_names Create };

    fn push_lines(&self, text: &mut String<A>, alloc: A) -> Result<(), AllocError> {
        push_text(text, alloc, "path", &self.path)?;
        push_buffer(text, alloc, "data", &self.bytes)?;
        push_acl(text, alloc, &self.acl)?;
        push_shown(text, alloc, "flags", &self.flags)
    }
}

impl<A: Allocator + Copy> Shown<A> for DeleteRequest<A> {
    ghost names = { body_names Delete };

    fn push_lines(&self, text: &mut String<A>, alloc: A) -> Result<(), AllocError> {
        push_text(text, alloc, "path", &self.path)?;
        push_shown(text, alloc, "version", &self.version)
    }
}

impl<A: Allocator + Copy> Shown<A> for SetWatches<A> {
    ghost names = { body_names SetsWatches };

    fn push_lines(&self, text: &mut String<A>, alloc: A) -> Result<(), AllocError> {
        push_shown(text, alloc, "relativeZxid", &self.relative_zxid)?;
        push_texts(text, alloc, "dataWatches", &self.data_watches)?;
        push_texts(text, alloc, "existWatches", &self.exist_watches)?;
        push_texts(text, alloc, "childWatches", &self.child_watches)
    }
}
