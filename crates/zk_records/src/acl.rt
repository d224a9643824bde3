//! Who may do what with a node.

ghost use Rattle.std.specs.Prelude.{◌≡◌, true};
ghost use Rattle.zk_records.specs.Layouts.{acl};
ghost use Rattle.zk_records.specs.Layouts as layouts;

use std::alloc::Allocator;
use zk_jute::{Cursor, PutError, Readable, Record, TakeError, Text, Then};

/// Who may do something: an Id of the ZooKeeper Programmer's Guide.
#[derive(Drop)]
pub struct Id<A: Allocator> {
    pub scheme: Text<A>,
    pub id: Text<A>,
}

impl<A: Allocator + Copy> Record<A> for Id<A> {
    ghost layout = { layouts.id };

    ghost view = { λ i. (i.scheme, i.id) };

    fn write(&self, out: &mut Vec<u8, A>) -> Result<(), PutError> {
        Then(&self.scheme, &self.id).write(out)
    }
}

impl<'a, A: Allocator + Copy> Readable<'a, A> for Id<A> {
    ghost takes_memory = { true };

    fn read(alloc: A, at: &mut Cursor<'a>) -> Result<Id<A>, TakeError> {
        let Then(scheme, id) = Then::read(alloc, at)?;
        Ok(Id { scheme, id })
    }
}

/// What someone may do: an entry of an access list.
#[derive(Drop)]
pub struct Acl<A: Allocator> {
    /// The sum of 1 (read), 2 (write), 4 (create), 8 (delete) and 16 (admin).
    pub perms: i32,
    pub id: Id<A>,
}

impl<A: Allocator + Copy> Record<A> for Acl<A> {
    ghost layout = { acl };

    ghost view = { λ a. (a.perms, (a.id.scheme, a.id.id)) };

    fn write(&self, out: &mut Vec<u8, A>) -> Result<(), PutError> {
        Then(self.perms, &self.id).write(out)
    }
}

impl<'a, A: Allocator + Copy> Readable<'a, A> for Acl<A> {
    ghost takes_memory = { true };

    fn read(alloc: A, at: &mut Cursor<'a>) -> Result<Acl<A>, TakeError> {
        let Then(perms, id) = Then::read(alloc, at)?;
        Ok(Acl { perms, id })
    }
}
