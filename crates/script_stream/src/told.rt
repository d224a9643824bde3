//! Records whose fields are told.

ghost use Rattle.std.specs.Prelude.{◌≡◌, ◌++◌, OnOk, string_bytes};
ghost use Rattle.zk_jute.specs.Cursor.{bytes_left, payload_len};
ghost use Rattle.zk_jute.specs.Reading.{reading};
ghost use Rattle.script_stream.specs.Frames.{fault_told, read_told};
ghost use Rattle.script_stream.specs.Records.{Labels, connect_labels, create_labels, created_labels, delete_labels, event_labels};
ghost use Rattle.script_stream.specs.Records.{get_children2_labels, get_children_labels, get_data_labels, read_labels, set_data_labels};
ghost use Rattle.script_stream.specs.Records.{set_watches_labels, stat_labels, words_of};

use crate::fields::{ToldField, push_count, push_fields, push_size, push_text, push_value};
use crate::names::event_name;
use std::alloc::{AllocError, Allocator};
use zk_jute::{Cursor, Readable, Record, TakeError, take};
use zk_records::{
    ConnectRequest, CreateRequest, CreateResponse, DeleteRequest, GetChildren2Response,
    GetChildrenResponse, GetDataResponse, ReadRequest, SetDataRequest, SetWatches, Stat,
    WatcherEvent,
};

/// A record whose fields are told.
pub trait ToldRecord<A: Allocator + Copy>: Record<A> {
    /// How its fields are told.
    ghost labels: { Labels };

    /// Adds the words.
    fn push_words(&self, text: &mut String<A>, alloc: A) -> Result<(), AllocError>
        ensures { OnOk result (string_bytes text.new ≡ string_bytes text.old ++ words_of Self.layout labels (Self.view self.now)) };
}

/// Adds why bytes do not read.
pub fn push_fault<A: Allocator>(
    text: &mut String<A>,
    alloc: A,
    fault: TakeError,
) -> Result<(), AllocError>
    ensures { OnOk result (string_bytes text.new ≡ string_bytes text.old ++ fault_told fault) }
{
    push_value(text, alloc, "fault", &fault)
}

/// Adds the words of the record at the cursor, or why it does not read.
pub fn push_record<'a, A: Allocator + Copy, R: Readable<'a, A> + ToldRecord<A> + Drop>(
    text: &mut String<A>,
    alloc: A,
    at: &mut Cursor<'a>,
) -> Result<(), AllocError>
    ensures { OnOk result (string_bytes text.new
        ≡ string_bytes text.old ++ read_told (words_of R.layout R.labels) (reading R.layout (payload_len at.old) (bytes_left at.old))) }
{
    let read: Result<R, TakeError> = take(alloc, at);
    match read {
        Ok(record) => record.push_words(text, alloc),
        Err(TakeError::Memory) => Err(AllocError),
        Err(fault) => push_fault(text, alloc, fault),
    }
}

impl<A: Allocator + Copy> ToldRecord<A> for ConnectRequest<A> {
    ghost labels = { connect_labels };

    fn push_words(&self, text: &mut String<A>, alloc: A) -> Result<(), AllocError> {
        let fields = [
            ("protocolVersion", ToldField::Int(&self.protocol_version)),
            ("lastZxidSeen", ToldField::Long(&self.last_zxid_seen)),
            ("timeOut", ToldField::Int(&self.time_out)),
            ("sessionId", ToldField::Long(&self.session_id)),
            ("readOnly", ToldField::Boolean(self.read_only)),
        ];
        push_fields(text, alloc, &fields)
    }
}

impl<A: Allocator + Copy> ToldRecord<A> for ReadRequest<A> {
    ghost labels = { read_labels };

    fn push_words(&self, text: &mut String<A>, alloc: A) -> Result<(), AllocError> {
        let fields = [
            ("path", ToldField::Text(&self.path)),
            ("watch", ToldField::Boolean(self.watch)),
        ];
        push_fields(text, alloc, &fields)
    }
}

impl<A: Allocator + Copy> ToldRecord<A> for SetDataRequest<A> {
    ghost labels = { set_data_labels };

    fn push_words(&self, text: &mut String<A>, alloc: A) -> Result<(), AllocError> {
        let fields = [
            ("path", ToldField::Text(&self.path)),
            ("data", ToldField::Size(&self.bytes)),
            ("version", ToldField::Int(&self.version)),
        ];
        push_fields(text, alloc, &fields)
    }
}

impl<A: Allocator + Copy> ToldRecord<A> for CreateRequest<A> {
    ghost labels = { create_labels };

    fn push_words(&self, text: &mut String<A>, alloc: A) -> Result<(), AllocError> {
        push_text(text, alloc, "path", &self.path)?;
        push_size(text, alloc, "data", &self.bytes)?;
        push_count(text, alloc, "acl", &self.acl)?;
        push_value(text, alloc, "flags", &self.flags)
    }
}

impl<A: Allocator + Copy> ToldRecord<A> for DeleteRequest<A> {
    ghost labels = { delete_labels };

    fn push_words(&self, text: &mut String<A>, alloc: A) -> Result<(), AllocError> {
        let fields = [
            ("path", ToldField::Text(&self.path)),
            ("version", ToldField::Int(&self.version)),
        ];
        push_fields(text, alloc, &fields)
    }
}

impl<A: Allocator + Copy> ToldRecord<A> for SetWatches<A> {
    ghost labels = { set_watches_labels };

    fn push_words(&self, text: &mut String<A>, alloc: A) -> Result<(), AllocError> {
        push_value(text, alloc, "relativeZxid", &self.relative_zxid)
    }
}

impl<A: Allocator + Copy> ToldRecord<A> for WatcherEvent<A> {
    ghost labels = { event_labels };

    fn push_words(&self, text: &mut String<A>, alloc: A) -> Result<(), AllocError> {
        push_value(text, alloc, "type", &self.kind)?;
        text.push_str(" ")?;
        text.push_str(event_name(self.kind))?;
        push_value(text, alloc, "state", &self.state)?;
        push_text(text, alloc, "path", &self.path)
    }
}

impl<A: Allocator + Copy> ToldRecord<A> for Stat {
    ghost labels = { stat_labels };

    fn push_words(&self, text: &mut String<A>, alloc: A) -> Result<(), AllocError> {
        let fields = [
            ("czxid", ToldField::Long(&self.czxid)),
            ("mzxid", ToldField::Long(&self.mzxid)),
            ("ctime", ToldField::Long(&self.ctime)),
            ("mtime", ToldField::Long(&self.mtime)),
            ("version", ToldField::Int(&self.version)),
            ("cversion", ToldField::Int(&self.cversion)),
            ("aversion", ToldField::Int(&self.aversion)),
            ("ephemeralOwner", ToldField::Long(&self.ephemeral_owner)),
            ("dataLength", ToldField::Int(&self.data_length)),
            ("numChildren", ToldField::Int(&self.num_children)),
            ("pzxid", ToldField::Long(&self.pzxid)),
        ];
        push_fields(text, alloc, &fields)
    }
}

impl<A: Allocator + Copy> ToldRecord<A> for GetDataResponse<A> {
    ghost labels = { get_data_labels };

    fn push_words(&self, text: &mut String<A>, alloc: A) -> Result<(), AllocError> {
        push_size(text, alloc, "data", &self.bytes)?;
        self.stat.push_words(text, alloc)
    }
}

impl<A: Allocator + Copy> ToldRecord<A> for GetChildrenResponse<A> {
    ghost labels = { get_children_labels };

    fn push_words(&self, text: &mut String<A>, alloc: A) -> Result<(), AllocError> {
        push_count(text, alloc, "children", &self.children)
    }
}

impl<A: Allocator + Copy> ToldRecord<A> for GetChildren2Response<A> {
    ghost labels = { get_children2_labels };

    fn push_words(&self, text: &mut String<A>, alloc: A) -> Result<(), AllocError> {
        push_count(text, alloc, "children", &self.children)?;
        self.stat.push_words(text, alloc)
    }
}

impl<A: Allocator + Copy> ToldRecord<A> for CreateResponse<A> {
    ghost labels = { created_labels };

    fn push_words(&self, text: &mut String<A>, alloc: A) -> Result<(), AllocError> {
        push_text(text, alloc, "path", &self.path)
    }
}
