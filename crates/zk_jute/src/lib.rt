//! Jute, the binary encoding of ZooKeeper's records (`zookeeper.jute`).
//!
//! An int has four bytes and a long eight, big-endian, in two's complement. A boolean is one byte, 0 or 1. A
//! ustring is an int length and that many bytes of UTF-8, a buffer an int length and that many bytes, a vector an
//! int count and that many elements; the length or count -1 means null. A record is its fields one after
//! another, with nothing between them.
//!
//! Refusing a length or a count below -1, a boolean byte above 1, and text that is not UTF-8 is a rule of this
//! project: the encoding leaves open what a reader makes of them.
//!
//! A type's encoding is its `layout`. All that is stated of `put` and `take` is stated of layouts: what is put is the
//! one spelling of the value, what is taken is the value whose spelling begins the bytes, the fault is the first in
//! reading order, at its place, and no spelling begins another.
#![tactic(auto)]

mod buffer;
mod cursor;
mod fault;
mod length;
mod lent;
mod list;
mod nothing;
mod number;
mod record;
mod text;
mod then;

pub use buffer::Buffer;
pub use cursor::Cursor;
pub use fault::{PutError, TakeError};
pub use lent::{BytesRef, TextRef};
pub use list::{List, ListRef};
pub use nothing::Nothing;
pub use record::{Readable, Record, take};
pub use text::Text;
pub use then::Then;
