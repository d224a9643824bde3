//! Copies of calls.

ghost use Rattle.std.specs.Prelude.{◌≡◌, IfOk};
ghost use Rattle.std.specs.Option.{option_map};
ghost use Rattle.zk_conversation.specs.Views.{call_view};

use crate::call::Call;
use std::alloc::{AllocError, Allocator};
use zk_nodes::{Path, copied_data};

fn copied_path<A: Allocator>(alloc: A, path: &Path<A>) -> Result<Path<A>, AllocError>
    ensures { IfOk result (λ copy. copy ≡ path.now) }
{
    Path::new(alloc, path.as_str()).map_err(|_| AllocError)
}

fn lent<A: Allocator>(bytes: &Option<Vec<u8, A>>) -> Option<&[u8]>
    ensures { option_map (λ s. s.now) result ≡ option_map (λ v. v.items) bytes.entry.now }
{
    match bytes {
        None => None,
        Some(bytes) => Some(bytes.as_slice()),
    }
}

impl<A: Allocator + Copy> Call<A> {
    /// A call of the same words, in memory of its own.
    pub fn copied(&self, alloc: A) -> Result<Call<A>, AllocError>
        ensures { IfOk result (λ copy. call_view copy ≡ call_view self.now) }
    {
        match self {
            Call::Exists { path, watch } => {
                let path = copied_path(alloc, path)?;
                let watch = *watch;
                Ok(Call::Exists { path, watch })
            }
            Call::GetData { path, watch } => {
                let path = copied_path(alloc, path)?;
                let watch = *watch;
                Ok(Call::GetData { path, watch })
            }
            Call::GetChildren { path, watch } => {
                let path = copied_path(alloc, path)?;
                let watch = *watch;
                Ok(Call::GetChildren { path, watch })
            }
            Call::SetData {
                path,
                bytes,
                version,
            } => {
                let path = copied_path(alloc, path)?;
                let bytes = copied_data(alloc, lent(bytes))?;
                let version = *version;
                Ok(Call::SetData {
                    path,
                    bytes,
                    version,
                })
            }
            Call::Create { path, bytes, mode } => {
                let path = copied_path(alloc, path)?;
                let bytes = copied_data(alloc, lent(bytes))?;
                let mode = *mode;
                Ok(Call::Create { path, bytes, mode })
            }
            Call::Delete { path, version } => {
                let path = copied_path(alloc, path)?;
                let version = *version;
                Ok(Call::Delete { path, version })
            }
            Call::Close => Ok(Call::Close),
            Call::Raw { operation, body } => {
                let operation = *operation;
                let body = Vec::from_slice(alloc, body)?;
                Ok(Call::Raw { operation, body })
            }
        }
    }
}
