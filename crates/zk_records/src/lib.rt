//! The records of the ZooKeeper client protocol (`zookeeper.jute`), and the codes, events and operations that their
//! numbers mean.
//!
//! Each record is a struct with the wire's fields in their order, and its layout is in `specs/Layouts.antt`. What is
//! stated of `put` and `take` is stated in `zk_jute`, once for every layout. Two messages are no layouts, and have `put`
//! and `take` of their own: a [`Reply`], whose result is there where its err is 0, and a [`ConnectResponse`], whose last
//! field may be cut off by the payload's end. A [`Request`] is read by the type in its header.
//!
//! A record that owns its memory has a lent form beside it, named `..Ref`, of the same layout: its texts and bytes are
//! slices of the payload that was read, or of what the writer keeps. Fields that the wire names `type` and `data` are
//! `kind` and `bytes`.
//!
//! Null texts, lists and passwords are read as such here. Whoever uses a reply reads them as empty by `or_empty`.
#![tactic(auto)]

mod acl;
mod code;
mod connect_request;
mod connect_response;
mod create_request;
mod create_response;
mod delete_request;
mod event;
mod get_children2_response;
mod get_children_response;
mod get_data_response;
mod open_acl;
mod operation;
mod read_request;
mod reply;
mod reply_header;
mod request;
mod request_body;
mod request_fault;
mod request_header;
mod request_payload;
mod set_data_request;
mod set_watches;
mod watcher_event;
mod whole;

pub use acl::{Acl, Id};
pub use code::Code;
pub use connect_request::ConnectRequest;
pub use connect_response::{ConnectResponse, ConnectResponseRef};
pub use create_request::{CreateRequest, CreateRequestRef};
pub use create_response::{CreateRef, CreateResponse};
pub use delete_request::{DeleteRef, DeleteRequest};
pub use event::Event;
pub use get_children_response::GetChildrenResponse;
pub use get_children2_response::{GetChildren2Ref, GetChildren2Response};
pub use get_data_response::{GetDataRef, GetDataResponse};
pub use open_acl::OpenAcl;
pub use operation::Operation;
pub use read_request::{ReadRequest, ReadRequestRef};
pub use reply::{Reply, take_reply};
pub use reply_header::ReplyHeader;
pub use request::Request;
pub use request_fault::RequestFault;
pub use request_header::RequestHeader;
pub use request_payload::RequestPayload;
pub use set_data_request::{SetDataRef, SetDataRequest};
pub use set_watches::{SetWatches, SetWatchesRef};
pub use watcher_event::{WatcherEvent, WatcherEventRef};
pub use zk_nodes::{DataStat, Names, Path, PathFault, Side, Stat};
