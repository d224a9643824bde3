//! What a caller asks.

ghost use Rattle.std.specs.Prelude.{◌≡◌, ◌<◌, ◌≤◌, ◌^◌, ℤ, pos, length, IfOk};
ghost use Rattle.std.specs.Option.{option_map};
ghost use Rattle.zk_jute.specs.Lenient.{or_empty};
ghost use Rattle.zk_frames.specs.Frame.{frame};
ghost use Rattle.zk_conversation.specs.Calls.{call_payload};
ghost use Rattle.zk_conversation.specs.Questions.{question_of};
ghost use Rattle.zk_conversation.specs.Views.{call_view, question_view, mode_number};

use crate::frame::{raw_frame, request_frame};
use crate::question::Question;
use crate::raw::RawOperation;
use std::alloc::{AllocError, Allocator, Global};
use zk_jute::{BytesRef, Nothing};
use zk_nodes::Path;
use zk_records::{CreateRequestRef, DeleteRef, Operation, ReadRequestRef, SetDataRef};

/// What a caller asks of a server. A `watch` asks to leave a watch on the path.
#[derive(Drop)]
pub enum Call<A: Allocator = Global> {
    /// Whether there is a node, and what is known of it.
    Exists {
        path: Path<A>,
        watch: bool,
    },
    /// The data of a node.
    GetData {
        path: Path<A>,
        watch: bool,
    },
    /// The names below a node.
    GetChildren {
        path: Path<A>,
        watch: bool,
    },
    /// Sets the data of a node, which may be null. Version -1 is any; another has to be the node's.
    SetData {
        path: Path<A>,
        bytes: Option<Vec<u8, A>>,
        version: i32,
    },
    /// Makes a node, with the one open ACL.
    Create {
        path: Path<A>,
        bytes: Option<Vec<u8, A>>,
        mode: CreateMode,
    },
    /// Deletes a node. Version -1 is any.
    Delete {
        path: Path<A>,
        version: i32,
    },
    /// Ends the session.
    Close,
    /// Asks what the caller spells: the bytes that stand after the header go out as they are.
    Raw {
        operation: RawOperation,
        body: Vec<u8, A>,
    },
}

/// What kind of node is made: `CreateMode` of the Programmer's Guide, "Nodes and ephemeral nodes".
#[derive(Clone, Copy)]
pub enum CreateMode {
    /// It stays until it is deleted.
    Persistent,
    /// It goes with the session.
    Ephemeral,
    /// It stays, and a number of ten digits is added to its name.
    PersistentSequential,
    /// It goes with the session, and a number of ten digits is added to its name.
    EphemeralSequential,
}

impl CreateMode {
    /// The flags of a create request that ask for it.
    pub fn flags(self) -> i32
        ensures { result ≡ pos (mode_number self) }
    {
        match self {
            CreateMode::Persistent => 0,
            CreateMode::Ephemeral => 1,
            CreateMode::PersistentSequential => 2,
            CreateMode::EphemeralSequential => 3,
        }
    }
}

impl<A: Allocator + Copy> Call<A> {
    /// What is kept of the call while its reply is awaited.
    pub(crate) fn into_question(self) -> Question<A>
        ensures { question_view result ≡ question_of (call_view self) }
    {
        match self {
            Call::Exists { path, watch } => Question::Exists { path, watch },
            Call::GetData { path, watch } => Question::GetData { path, watch },
            Call::GetChildren { path, watch } => Question::GetChildren { path, watch },
            Call::SetData {
                path,
                bytes: _bytes,
                version: _,
            } => Question::SetData { path },
            Call::Create {
                path,
                bytes: _bytes,
                mode: _,
            } => Question::Create { path },
            Call::Delete { path, version: _ } => Question::Delete { path },
            Call::Close => Question::Close,
            Call::Raw {
                operation: _,
                body: _body,
            } => Question::Raw,
        }
    }

    /// How many bytes the payload of its request has, whatever its xid.
    pub fn payload_length(&self) -> usize
        ensures { (xid : ℤ) → length (call_payload xid (call_view self.now)) ≡ result }
    {
        match self {
            Call::Exists { path, watch: _ } => 13 + path.as_str().len(),
            Call::GetData { path, watch: _ } => 13 + path.as_str().len(),
            Call::GetChildren { path, watch: _ } => 13 + path.as_str().len(),
            Call::SetData {
                path,
                bytes,
                version: _,
            } => 20 + path.as_str().len() + data_length(bytes),
            Call::Create {
                path,
                bytes,
                mode: _,
            } => 47 + path.as_str().len() + data_length(bytes),
            Call::Delete { path, version: _ } => 16 + path.as_str().len(),
            Call::Close => 8,
            Call::Raw { operation: _, body } => 8 + body.as_slice().len(),
        }
    }

    /// The frame of its request.
    #[tactic(auto, unfolding(crate::specs::Calls::call_payload))]
    pub(crate) fn frame(&self, alloc: A, xid: i32) -> Result<Vec<u8, A>, AllocError>
        requires { length (call_payload xid (call_view self.now)) < 2 ^ 30 }
        ensures { IfOk result (λ out. out.items ≡ frame (call_payload xid (call_view self.now))) }
    {
        let room = 4 + self.payload_length();
        match self {
            Call::Exists { path, watch } => {
                let record = reads(path, *watch);
                request_frame(alloc, room, xid, Operation::Exists, record)
            }
            Call::GetData { path, watch } => {
                let record = reads(path, *watch);
                request_frame(alloc, room, xid, Operation::GetData, record)
            }
            Call::GetChildren { path, watch } => {
                let record = reads(path, *watch);
                request_frame(alloc, room, xid, Operation::GetChildren2, record)
            }
            Call::SetData {
                path,
                bytes,
                version,
            } => {
                let record = SetDataRef {
                    path: path.as_str(),
                    bytes: lent(bytes),
                    version: *version,
                };
                request_frame(alloc, room, xid, Operation::SetData, record)
            }
            Call::Create { path, bytes, mode } => {
                let record = CreateRequestRef {
                    path: path.as_str(),
                    bytes: lent(bytes),
                    flags: mode.flags(),
                };
                request_frame(alloc, room, xid, Operation::Create, record)
            }
            Call::Delete { path, version } => {
                let record = DeleteRef {
                    path: path.as_str(),
                    version: *version,
                };
                request_frame(alloc, room, xid, Operation::Delete, record)
            }
            Call::Close => request_frame(alloc, room, xid, Operation::CloseSession, Nothing),
            Call::Raw { operation, body } => raw_frame(
                alloc,
                xid,
                operation.number(),
                body.as_slice(),
            ),
        }
    }
}

fn reads<A: Allocator>(path: &Path<A>, watch: bool) -> ReadRequestRef<'_>
    ensures path { result.path.now ≡ path.entry.now }
    ensures watch { result.watch ≡ watch }
{
    ReadRequestRef {
        path: path.as_str(),
        watch,
    }
}

fn lent<A: Allocator>(bytes: &Option<Vec<u8, A>>) -> BytesRef<'_>
    ensures { option_map (λ s. s.now) result.bytes ≡ option_map (λ v. v.items) bytes.entry.now }
{
    match bytes {
        None => BytesRef { bytes: None },
        Some(bytes) => BytesRef {
            bytes: Some(bytes.as_slice()),
        },
    }
}

fn data_length<A: Allocator>(bytes: &Option<Vec<u8, A>>) -> usize
    ensures length { result ≡ length (or_empty (option_map (λ v. v.items) bytes.now)) }
    ensures small { result < 2 ^ 63 }
{
    match bytes {
        None => 0,
        Some(bytes) => bytes.len(),
    }
}
