//! The operation of an entry, with its fields.

ghost use Rattle.std.specs.Prelude.{◌≡◌, ◌≢◌, Ok, Err, IfOk, MatchResult};
ghost use Rattle.zk_jute.specs.Cursor.{bytes_left, payload_len};
ghost use Rattle.zk_jute.specs.Reading.{reading};
ghost use Rattle.zk_log.specs.Kinds.{fields};
ghost use Rattle.zk_log.specs.Views.{kind_of, body_of};

use crate::kind::TxnKind;
use crate::txn_fields::{
    CheckVersionTxn, CreateContainerTxn, CreateTtlTxn, CreateTxn, PartTxn, SetAclTxn, SetDataTxn,
};
use std::alloc::Allocator;
use zk_jute::{Cursor, List, Readable, TakeError, Text, TextRef};

/// The operation of an entry, with its fields. What is written often has slices of the log for its path and data.
#[derive(Drop)]
pub enum Txn<'a, A: Allocator> {
    Create(CreateTxn<A>),
    Create2(CreateTxn<A>),
    CreateContainer(CreateContainerTxn<A>),
    CreateTtl(CreateTtlTxn<A>),
    Delete(TextRef<'a>),
    DeleteContainer(TextRef<'a>),
    Set(SetDataTxn<'a>),
    Reconfig(SetDataTxn<'a>),
    SetAcl(SetAclTxn<'a, A>),
    Check(CheckVersionTxn<'a>),
    Multi(List<PartTxn<A>, A>),
    /// Its timeout in milliseconds.
    CreateSession(i32),
    /// The paths of its ephemeral nodes.
    CloseSession(List<Text<A>, A>),
    CloseSessionAlone,
    /// Its code.
    Error(i32),
}

impl<'a, A: Allocator + Copy> Txn<'a, A> {
    /// Reads the fields of an operation at the cursor, which moves past them. After an `Err` it may stand anywhere.
    pub(crate) fn read(
        alloc: A,
        kind: TxnKind,
        at: &mut Cursor<'a>,
    ) -> Result<Txn<'a, A>, TakeError>
        ensures len { payload_len at.new ≡ payload_len at.old }
        ensures same { IfOk result (λ t. kind_of t ≡ kind) }
        ensures gives { MatchResult result
            (λ t. reading (fields (kind_of t)) (payload_len at.old) (bytes_left at.old) ≡ Ok (body_of t, bytes_left at.new))
            (λ e. e ≢ TakeError.Memory → reading (fields kind) (payload_len at.old) (bytes_left at.old) ≡ Err e) }
    {
        match kind {
            TxnKind::Create => Ok(Txn::Create(CreateTxn::read(alloc, at)?)),
            TxnKind::Create2 => Ok(Txn::Create2(CreateTxn::read(alloc, at)?)),
            TxnKind::CreateContainer => {
                Ok(Txn::CreateContainer(CreateContainerTxn::read(alloc, at)?))
            }
            TxnKind::CreateTtl => Ok(Txn::CreateTtl(CreateTtlTxn::read(alloc, at)?)),
            TxnKind::Delete => Ok(Txn::Delete(TextRef::read(alloc, at)?)),
            TxnKind::DeleteContainer => Ok(Txn::DeleteContainer(TextRef::read(alloc, at)?)),
            TxnKind::Set => Ok(Txn::Set(SetDataTxn::read(alloc, at)?)),
            TxnKind::Reconfig => Ok(Txn::Reconfig(SetDataTxn::read(alloc, at)?)),
            other => Txn::read_other(alloc, other, at),
        }
    }

    /// The same of an operation that makes, deletes or sets no node. It has no memory for another one.
    fn read_other(alloc: A, kind: TxnKind, at: &mut Cursor<'a>) -> Result<Txn<'a, A>, TakeError>
        ensures len { payload_len at.new ≡ payload_len at.old }
        ensures same { IfOk result (λ t. kind_of t ≡ kind) }
        ensures gives { MatchResult result
            (λ t. reading (fields (kind_of t)) (payload_len at.old) (bytes_left at.old) ≡ Ok (body_of t, bytes_left at.new))
            (λ e. e ≢ TakeError.Memory → reading (fields kind) (payload_len at.old) (bytes_left at.old) ≡ Err e) }
    {
        match kind {
            TxnKind::SetAcl => Ok(Txn::SetAcl(SetAclTxn::read(alloc, at)?)),
            TxnKind::Check => Ok(Txn::Check(CheckVersionTxn::read(alloc, at)?)),
            TxnKind::Multi => Ok(Txn::Multi(List::read(alloc, at)?)),
            TxnKind::CreateSession => Ok(Txn::CreateSession(i32::read(alloc, at)?)),
            TxnKind::CloseSession => Ok(Txn::CloseSession(List::read(alloc, at)?)),
            TxnKind::CloseSessionAlone => Ok(Txn::CloseSessionAlone),
            TxnKind::Error => Ok(Txn::Error(i32::read(alloc, at)?)),
            _ => Err(TakeError::Memory),
        }
    }
}
