//! The ACL of what a contender makes.

ghost use Rattle.std.specs.Prelude.{◌≡◌, ◌≢◌, ◌++◌, pos, Some, IfErr, IfOk, OnOk};
ghost use Rattle.std.specs.Option.{option_map};
ghost use Rattle.zk_jute.specs.Layout.{buffer, ustring};
ghost use Rattle.zk_jute.specs.Spelling.{spelling};
ghost use Rattle.zk_jute.specs.declared.fault.TakeError.TheVariants as faults;
ghost use Rattle.zk_conversation.specs.Views.{mode_number};
ghost use Rattle.zk_contend.specs.Acls.{create_body, IsAcl};
ghost use Rattle.zk_contend.specs.declared.acl.AclFault.TheVariants.{Memory};

use std::alloc::{AllocError, Allocator, Global};
use zk_client::{CreateMode, Path};
use zk_jute::{BytesRef, Cursor, List, Record, TakeError, Then, take};
use zk_records::Acl;

/// Why bytes are no ACL.
#[derive(Clone, Copy)]
pub enum AclFault {
    /// They spell no vector of ACL entries, one without an entry, or one with more after it.
    NotAcl,
    Memory,
}

/// The ACL of what a contender makes, as it is spelled.
#[derive(Drop)]
pub struct AccessList<A: Allocator = Global> {
    pub(crate) spelled: Vec<u8, A>,
}

fn acl_fault(fault: TakeError) -> AclFault
    ensures { fault ≡ faults.Memory → result ≡ Memory }
{
    match fault {
        TakeError::Memory => AclFault::Memory,
        TakeError::Short(_)
        | TakeError::BadLength(_)
        | TakeError::BadBool(_)
        | TakeError::NotUtf8(_) => AclFault::NotAcl,
    }
}

/// Refuses bytes that are no ACL.
fn check<A: Allocator + Copy>(alloc: A, bytes: &[u8]) -> Result<(), AclFault>
    ensures accepted { OnOk result (IsAcl bytes.now) }
    ensures refused { IfErr result (λ fault. fault ≢ Memory → ¬ (IsAcl bytes.now)) }
{
    let mut at = Cursor::new(bytes);
    match take::<A, List<Acl<A>, A>>(alloc, &mut at) {
        Ok(list) => {
            let is_empty = list.or_empty().is_empty();
            drop(list);
            if is_empty {
                return Err(AclFault::NotAcl);
            }
            if !at.rest().is_empty() {
                return Err(AclFault::NotAcl);
            }
            Ok(())
        }
        Err(fault) => Err(acl_fault(fault)),
    }
}

impl<A: Allocator + Copy> AccessList<A> {
    /// The ACL that these bytes spell, as a vector of one entry or more of `zookeeper.jute`. An error says that they spell none, or that
    /// memory ran out.
    pub fn new(alloc: A, bytes: &[u8]) -> Result<AccessList<A>, AclFault>
        ensures same { IfOk result (λ list. list.spelled.items ≡ bytes.now) }
        ensures accepted { OnOk result (IsAcl bytes.now) }
        ensures refused { IfErr result (λ fault. fault ≢ Memory → ¬ (IsAcl bytes.now)) }
    {
        check(alloc, bytes)?;
        match Vec::from_slice(alloc, bytes) {
            Ok(spelled) => Ok(AccessList { spelled }),
            Err(_) => Err(AclFault::Memory),
        }
    }

    /// What stands after the header of a create2 with it. An error means that memory ran out, or that the data have 2^31 bytes or more.
    pub(crate) fn create_body(
        &self,
        alloc: A,
        path: &Path<A>,
        bytes: Option<&[u8]>,
        mode: CreateMode,
    ) -> Result<Vec<u8, A>, AllocError>
        ensures { IfOk result (λ body. body.items ≡ create_body self.now.spelled.items path.now (option_map (λ b. b.now) bytes.entry)
            (mode_number mode)) }
    {
        let mut body = Vec::new(alloc);
        if Then(path.as_str(), BytesRef { bytes })
            .put(&mut body)
            .is_err()
        {
            return Err(AllocError);
        }
        body.extend_from_slice(self.spelled.as_slice())?;
        if mode.flags().put(&mut body).is_err() {
            return Err(AllocError);
        }
        Ok(body)
    }
}
