//! The open access list.

ghost use Rattle.std.specs.Prelude.{◌≡◌};
ghost use Rattle.zk_jute.specs.Layout.{vector};
ghost use Rattle.zk_records.specs.Layouts.{acl};
ghost use Rattle.zk_records.specs.OpenAcl.{open_acl};

use std::alloc::Allocator;
use zk_jute::{PutError, Record, Then};

/// The access list that leaves a node open: the one entry with perms 31 (read, write, create, delete and admin), scheme
/// `world` and id `anyone`. It is `OPEN_ACL_UNSAFE` of the ZooKeeper Programmer's Guide.
#[derive(Clone, Copy)]
pub struct OpenAcl;

impl<A: Allocator + Copy> Record<A> for OpenAcl {
    ghost layout = { vector acl };

    ghost view = { λ _. open_acl };

    #[tactic(auto, unfolding(zk_jute::specs::Spelling::counted_bytes))]
    fn write(&self, out: &mut Vec<u8, A>) -> Result<(), PutError> {
        let entry = Then(31i32, Then("world", "anyone"));
        Then(1i32, entry).write(out)
    }
}
