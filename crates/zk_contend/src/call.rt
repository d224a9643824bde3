//! The calls of a contender.

ghost use Rattle.std.specs.Prelude.{◌≡◌, IfOk};
ghost use Rattle.std.specs.Option.{option_map};
ghost use Rattle.zk_conversation.specs.Views.{call_view, mode_number};
ghost use Rattle.zk_contend.specs.Acls.{create_body, create_with};
ghost use Rattle.zk_contend.specs.Dues.{acl_of, call_asked, path_asked};

use crate::contender::LockContender;
use crate::made::copied;
use crate::place::{Ask, Place};
use std::alloc::{AllocError, Allocator};
use zk_client::{Call, CreateMode, Path, RawOperation};
use zk_nodes::copied_data;

/// The path that this is about.
fn path_asked<'a, A: Allocator>(
    directory: &'a Path<A>,
    place: &'a Place<A>,
    ask: Ask,
) -> &'a Path<A>
    ensures { result.now ≡ path_asked directory.now place.now ask }
{
    match (place, ask) {
        (Place::Making { path }, Ask::Make) => path,
        (Place::Clearing { leaving }, Ask::Clear) => leaving,
        (Place::At { own, listing: _ }, Ask::ReadOwn) => own,
        (
            Place::At {
                own: _,
                listing: Some(listed),
            },
            Ask::ReadBehind { place },
        ) => match listed.behind.get(place) {
            Some(path) => path,
            None => directory,
        },
        (Place::Leaving { own }, Ask::Leave) => own,
        _ => directory,
    }
}

fn lent<A: Allocator>(bytes: &Option<Vec<u8, A>>) -> Option<&[u8]>
    ensures { option_map (λ b. b.now) result ≡ option_map (λ v. v.items) bytes.now }
{
    match bytes {
        Some(bytes) => Some(bytes.as_slice()),
        None => None,
    }
}

impl<A: Allocator + Copy> LockContender<A> {
    /// The call that makes a node of this path, with its ACL, if it has one.
    fn create(
        &self,
        path: &Path<A>,
        bytes: Option<&[u8]>,
        mode: CreateMode,
    ) -> Result<Call<A>, AllocError>
        ensures { IfOk result (λ call. call_view call ≡ create_with (acl_of self.now) path.now (option_map (λ b. b.now) bytes.entry)
            (mode_number mode)) }
    {
        match &self.acl {
            Some(acl) => Ok(Call::Raw {
                operation: RawOperation::Create2,
                body: acl.create_body(self.alloc, path, bytes, mode)?,
            }),
            None => Ok(Call::Create {
                path: copied(self.alloc, path)?,
                bytes: copied_data(self.alloc, bytes)?,
                mode,
            }),
        }
    }

    /// The call that asks this.
    pub(crate) fn call(&self, ask: Ask) -> Result<Call<A>, AllocError>
        ensures { IfOk result (λ call. call_view call ≡ call_asked self.now ask) }
    {
        let path = path_asked(&self.directory, &self.place, ask);
        match ask {
            Ask::Enter => {
                let data = lent(&self.data);
                self.create(&self.entry, data, CreateMode::EphemeralSequential)
            }
            Ask::Make | Ask::Fence => self.create(path, None, CreateMode::Persistent),
            _ => {
                let path = copied(self.alloc, path)?;
                match ask {
                    Ask::ReadOwn | Ask::ReadBehind { .. } => Ok(Call::GetData {
                        path,
                        watch: true,
                    }),
                    Ask::Clear | Ask::Leave => Ok(Call::Delete { path, version: -1 }),
                    _ => Ok(Call::GetChildren { path, watch: false }),
                }
            }
        }
    }
}
