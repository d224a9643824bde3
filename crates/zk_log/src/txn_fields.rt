//! The fields of operations, as zookeeper.jute has them.

ghost use Rattle.std.specs.Prelude.{◌≡◌};
ghost use Rattle.zk_jute.specs.Cursor.{bytes_left, payload_len};
ghost use Rattle.zk_jute.specs.Reading.{reading, Gives};
ghost use Rattle.zk_log.specs.Kinds.{node, container, ttl, node_data, node_acl, node_version, part};
ghost use Rattle.zk_log.specs.Views.{node_of, container_of, ttl_of, node_data_of, node_acl_of, node_version_of};

use std::alloc::Allocator;
use zk_jute::{Buffer, BytesRef, Cursor, List, Readable, TakeError, Text, TextRef, Then};

/// Who may do what with a node: the sum of rights, and the scheme and the id of whom they are for.
pub type AclTxn<A> = Then<i32, Then<Text<A>, Text<A>>>;

/// A part of a multi: the number of its operation, and the bytes of its fields.
pub type PartTxn<A> = Then<i32, Buffer<A>>;

/// A node is made.
#[derive(Drop)]
pub struct CreateTxn<A: Allocator> {
    pub path: Text<A>,
    pub bytes: Buffer<A>,
    pub acl: List<AclTxn<A>, A>,
    /// Whether it belongs to the session.
    pub ephemeral: bool,
    /// The number of changes of the parent's children so far.
    pub parent_cversion: i32,
}

/// A container is made: a node that the server deletes once its children are gone.
#[derive(Drop)]
pub struct CreateContainerTxn<A: Allocator> {
    pub path: Text<A>,
    pub bytes: Buffer<A>,
    pub acl: List<AclTxn<A>, A>,
    pub parent_cversion: i32,
}

/// A node is made that the server deletes when it was not written for a while.
#[derive(Drop)]
pub struct CreateTtlTxn<A: Allocator> {
    pub path: Text<A>,
    pub bytes: Buffer<A>,
    pub acl: List<AclTxn<A>, A>,
    pub parent_cversion: i32,
    /// In milliseconds.
    pub ttl: i64,
}

/// The data of a node are written.
#[derive(Clone, Copy)]
pub struct SetDataTxn<'a> {
    pub path: TextRef<'a>,
    pub bytes: BytesRef<'a>,
    /// The version that the node has then.
    pub version: i32,
}

/// The access list of a node is written.
#[derive(Drop)]
pub struct SetAclTxn<'a, A: Allocator> {
    pub path: TextRef<'a>,
    pub acl: List<AclTxn<A>, A>,
    /// The version that the access list has then.
    pub version: i32,
}

/// A node has a version.
#[derive(Clone, Copy)]
pub struct CheckVersionTxn<'a> {
    pub path: TextRef<'a>,
    pub version: i32,
}

impl<A: Allocator + Copy> CreateTxn<A> {
    /// The fields at the cursor, which moves past them. After an `Err` it may stand anywhere.
    pub(crate) fn read(alloc: A, at: &mut Cursor<'_>) -> Result<CreateTxn<A>, TakeError>
        ensures len { payload_len at.new ≡ payload_len at.old }
        ensures gives { Gives node_of result (bytes_left at.new) (reading node (payload_len at.old) (bytes_left at.old)) }
    {
        let Then(path, Then(bytes, Then(acl, Then(ephemeral, parent_cversion)))) = Then::read(
            alloc, at,
        )?;
        Ok(CreateTxn {
            path,
            bytes,
            acl,
            ephemeral,
            parent_cversion,
        })
    }
}

impl<A: Allocator + Copy> CreateContainerTxn<A> {
    /// The fields at the cursor, which moves past them. After an `Err` it may stand anywhere.
    pub(crate) fn read(alloc: A, at: &mut Cursor<'_>) -> Result<CreateContainerTxn<A>, TakeError>
        ensures len { payload_len at.new ≡ payload_len at.old }
        ensures gives { Gives container_of result (bytes_left at.new) (reading container (payload_len at.old) (bytes_left at.old)) }
    {
        let Then(path, Then(bytes, Then(acl, parent_cversion))) = Then::read(alloc, at)?;
        Ok(CreateContainerTxn {
            path,
            bytes,
            acl,
            parent_cversion,
        })
    }
}

impl<A: Allocator + Copy> CreateTtlTxn<A> {
    /// The fields at the cursor, which moves past them. After an `Err` it may stand anywhere.
    pub(crate) fn read(alloc: A, at: &mut Cursor<'_>) -> Result<CreateTtlTxn<A>, TakeError>
        ensures len { payload_len at.new ≡ payload_len at.old }
        ensures gives { Gives ttl_of result (bytes_left at.new) (reading ttl (payload_len at.old) (bytes_left at.old)) }
    {
        let Then(path, Then(bytes, Then(acl, Then(parent_cversion, ttl)))) = Then::read(alloc, at)?;
        Ok(CreateTtlTxn {
            path,
            bytes,
            acl,
            parent_cversion,
            ttl,
        })
    }
}

impl<'a> SetDataTxn<'a> {
    /// The fields at the cursor, which moves past them. After an `Err` it may stand anywhere.
    pub(crate) fn read<A: Allocator + Copy>(
        alloc: A,
        at: &mut Cursor<'a>,
    ) -> Result<SetDataTxn<'a>, TakeError>
        ensures len { payload_len at.new ≡ payload_len at.old }
        ensures gives { Gives node_data_of result (bytes_left at.new) (reading node_data (payload_len at.old) (bytes_left at.old)) }
    {
        let Then(path, Then(bytes, version)) = Then::read(alloc, at)?;
        Ok(SetDataTxn {
            path,
            bytes,
            version,
        })
    }
}

impl<'a, A: Allocator + Copy> SetAclTxn<'a, A> {
    /// The fields at the cursor, which moves past them. After an `Err` it may stand anywhere.
    pub(crate) fn read(alloc: A, at: &mut Cursor<'a>) -> Result<SetAclTxn<'a, A>, TakeError>
        ensures len { payload_len at.new ≡ payload_len at.old }
        ensures gives { Gives node_acl_of result (bytes_left at.new) (reading node_acl (payload_len at.old) (bytes_left at.old)) }
    {
        let Then(path, Then(acl, version)) = Then::read(alloc, at)?;
        Ok(SetAclTxn { path, acl, version })
    }
}

impl<'a> CheckVersionTxn<'a> {
    /// The fields at the cursor, which moves past them. After an `Err` it may stand anywhere.
    pub(crate) fn read<A: Allocator + Copy>(
        alloc: A,
        at: &mut Cursor<'a>,
    ) -> Result<CheckVersionTxn<'a>, TakeError>
        ensures len { payload_len at.new ≡ payload_len at.old }
        ensures gives { Gives node_version_of result (bytes_left at.new) (reading node_version (payload_len at.old) (bytes_left at.old)) }
    {
        let Then(path, version) = Then::read(alloc, at)?;
        Ok(CheckVersionTxn { path, version })
    }
}
