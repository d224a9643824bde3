//! Contenders from bytes, and what is looked up of them.

ghost use Rattle.std.specs.Prelude.{◌≡◌, IfErr, IfOk, IfSome, None, OnOk, option_map};
ghost use Rattle.zk_contend.specs.Acls.{IsAcl};
ghost use Rattle.zk_contend.specs.Collections.{one_of, own_at, ShowsOne};
ghost use Rattle.ffi_device.specs.Codes.{code_of, refusal_code};
ghost use Rattle.ffi_device.specs.Contending.{naming_number, view_in, CopiesPlace, IsContender};
ghost use Rattle.ffi_device.specs.Refused.{RefusesContender, RefusesNothing};
ghost use Rattle.ffi_device.specs.inner.Refused.{RefusesAcl};
ghost use Rattle.ffi_device.specs.Steps.{Contends, GivesUp, Steps};

use crate::copying::copy_into;
use crate::device::Device;
use crate::paths::{path_of, text_of};
use crate::refusal::DeviceRefusal;
use std::alloc::Global;
use zk_agent::AgentInput;
use zk_client::PathFault;
use zk_contend::{AccessList, AclFault, LockContender, Naming};
use zk_nodes::copied_data;

// The naming of this number.
fn naming_of(number: u32) -> Option<Naming>
    ensures some { IfSome result (λ naming. naming_number naming ≡ number) }
    ensures none { result ≡ None → number ≡ 6 }
{
    match number {
        0 => Some(Naming::Kazoo),
        1 => Some(Naming::KazooReader),
        2 => Some(Naming::CuratorLock),
        3 => Some(Naming::CuratorLatch),
        4 => Some(Naming::CuratorWriter),
        5 => Some(Naming::CuratorReader),
        6 => None,
        _ => Some(Naming::Lease { most: number - 6 }),
    }
}

// The ACL that these bytes spell, if there are some. A refusal is `NotAcl` or `Memory`.
fn acl_of(alloc: Global, bytes: Option<&[u8]>) -> Result<Option<AccessList<Global>>, DeviceRefusal>
    ensures same { IfOk result
        (λ acl. option_map (λ a. a.spelled.items) acl ≡ option_map (λ s. s.now) bytes.entry) }
    ensures accepted { OnOk result (IfSome (option_map (λ s. s.now) bytes.entry) IsAcl) }
    ensures refused { IfErr result (λ refusal. RefusesAcl (option_map (λ s. s.now) bytes.entry) (refusal_code refusal)) }
{
    let Some(bytes) = bytes else {
        return Ok(None);
    };
    match AccessList::new(alloc, bytes) {
        Ok(acl) => Ok(Some(acl)),
        Err(AclFault::Memory) => Err(DeviceRefusal::Memory),
        Err(AclFault::NotAcl) => Err(DeviceRefusal::NotAcl),
    }
}

// A contender at its beginning. A refusal is `NoSuchMode`, else `NotText`, else `NotPath`, else `NotAcl`, else `Memory`.
fn contender(
    alloc: Global,
    directory: &[u8],
    naming: u32,
    guid: &[u8],
    bytes: Option<&[u8]>,
    acl: Option<&[u8]>,
    may_be_there: bool,
) -> Result<LockContender<Global>, DeviceRefusal>
    ensures contender { IfOk result
        (IsContender directory.now naming guid.now (option_map (λ s. s.now) bytes.entry) (option_map (λ s. s.now) acl.entry)
        may_be_there) }
    ensures refused { IfErr result (λ refusal. RefusesContender directory.now naming guid.now (option_map (λ s. s.now) acl.entry)
        (refusal_code refusal)) }
{
    let Some(naming) = naming_of(naming) else {
        return Err(DeviceRefusal::NoSuchMode);
    };
    let guid = text_of(guid)?;
    let directory = path_of(alloc, directory)?;
    let acl = acl_of(alloc, acl)?;
    let bytes = copied_data(alloc, bytes)?;
    match LockContender::new(alloc, directory, naming, guid, bytes, acl, may_be_there) {
        Ok(contender) => Ok(contender),
        Err(PathFault::Memory) => Err(DeviceRefusal::Memory),
        Err(_) => Err(DeviceRefusal::NotPath),
    }
}

impl Device {
    /// A contender joins under this ticket, by a naming of this number, unless another one has the ticket. The guid is a text that no
    /// other contender has. What it makes has the ACL that these bytes spell, and without one is open to everybody. `may_be_there` says
    /// that this session may have sent a create with it before. A refusal before a step is `NoSuchMode`, else `NotText`, else `NotPath`,
    /// else `NotAcl`, else `Memory`.
    pub fn contend_at(
        &mut self,
        alloc: Global,
        now: u64,
        ticket: u64,
        directory: &[u8],
        naming: u32,
        guid: &[u8],
        bytes: Option<&[u8]>,
        acl: Option<&[u8]>,
        may_be_there: bool,
    ) -> Result<(), DeviceRefusal>
        ensures { Steps (RefusesContender directory.now naming guid.now (option_map (λ s. s.now) acl.entry)) now
            (Contends ticket directory.now naming guid.now (option_map (λ s. s.now) bytes.entry) (option_map (λ s. s.now) acl.entry)
            may_be_there) self.old (code_of result) self.new }
    {
        let contender = contender(alloc, directory, naming, guid, bytes, acl, may_be_there)?;
        let Ok(_) = self.contenders.contend(ticket, contender) else {
            return Err(self.stop());
        };
        self.is_contending = true;
        self.step_at(now, AgentInput::Moment)
    }

    /// The contender of this ticket is given up, if there is one.
    pub fn give_up_at(&mut self, now: u64, ticket: u64) -> Result<(), DeviceRefusal>
        ensures { Steps RefusesNothing now (GivesUp ticket) self.old (code_of result) self.new }
    {
        let Ok(_) = self.contenders.give_up(ticket) else {
            return Err(self.stop());
        };
        self.step_at(now, AgentInput::Moment)
    }

    /// The token, if the session holds by the contender of this ticket.
    pub fn held(&self, ticket: u64) -> Option<i64>
        ensures { ShowsOne (view_in self.now.agent) (one_of self.now.contenders ticket) result }
    {
        self.contenders.held(self.agent.client(), ticket)
    }

    /// Copies the path of the place of the contender of this ticket, as much of it as there is room for, and tells how many bytes it has;
    /// if it is not known, nothing is copied.
    pub fn copy_place(&self, ticket: u64, room: &mut [u8]) -> Option<usize>
        ensures { CopiesPlace (own_at (one_of self.now.contenders ticket)) room.old room.new result }
    {
        match self.contenders.place(ticket) {
            Some(path) => Some(copy_into(path.as_str().as_bytes(), room)),
            None => None,
        }
    }
}
