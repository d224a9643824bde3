//! Whether a session holds the first place in a directory.

ghost use Rattle.std.specs.Prelude.{◌≡◌, IfErr, IfOk, OnOk};
ghost use Rattle.zk_client.specs.Clients.{view_of};
ghost use Rattle.ffi_device.specs.Codes.{refusal_code};
ghost use Rattle.ffi_device.specs.Holders.{ArePlace, RefusesHolder, TellsHolder};

use crate::paths::{path_of, text_of};
use crate::refusal::DeviceRefusal;
use std::alloc::Global;
use zk_client::{Client, Path};
use zk_conclusions::Holder;

// The token by which it holds, if that is shown.
fn token_shown(
    client: &Client<Global>,
    directory: &Path<Global>,
    prefix: &str,
    path: &Path<Global>,
) -> Option<i64>
    ensures { TellsHolder (view_of client.now) directory.now prefix.now path.now result }
{
    match Holder::of(client, directory, prefix, path) {
        Some(holder) => Some(holder.token()),
        None => None,
    }
}

/// The token by which the session holds the first place of the names in a directory that begin with the prefix, by its node of this
/// path, if that is shown. A refusal is as of [`peek_data`](crate::peek_data), of the prefix, of the directory and of the path.
pub fn holder(
    alloc: Global,
    client: &Client<Global>,
    directory: &[u8],
    prefix: &[u8],
    path: &[u8],
) -> Result<Option<i64>, DeviceRefusal>
    ensures tells { IfOk result (λ token. TellsHolder (view_of client.now) directory.now prefix.now path.now token) }
    ensures place { OnOk result (ArePlace directory.now prefix.now path.now) }
    ensures refused { IfErr result (λ refusal. RefusesHolder directory.now prefix.now path.now (refusal_code refusal)) }
{
    let prefix = text_of(prefix)?;
    let directory = path_of(alloc, directory)?;
    let path = path_of(alloc, path)?;
    Ok(token_shown(client, &directory, prefix, &path))
}
