//! Whether a session comes first in a directory, by one listing.

ghost use Rattle.std.specs.Prelude.{◌≡◌, ◌≢◌, [], ◌∷◌, IfErr, IfOk, IfSome, None, OnErr, OnOk, map};
ghost use Rattle.zk_client.specs.Clients.{view_of};
ghost use Rattle.zk_nodes.specs.Path.{child_text};
ghost use Rattle.zk_nodes.specs.PathFault.{child_fault};
ghost use Rattle.zk_conclusions.specs.Kinds.{kind_of};
ghost use Rattle.ffi_device.specs.Codes.{refusal_code};
ghost use Rattle.ffi_device.specs.Standings.{AreNoMarkers, RefusesStanding, StandsBy, Stood};

use crate::copying::copy_into;
use crate::paths::{child_of, path_of, text_of};
use crate::refusal::DeviceRefusal;
use crate::texts::{lent_texts, owned_texts};
use std::alloc::Global;
use zk_client::{Client, Path};
use zk_conclusions::{Kind, Listing, Standing};

/// Where a session stands.
#[derive(Clone, Copy)]
pub enum Stands {
    /// First, by this token.
    First(i64),
    /// After a rival, whose name has this many bytes.
    After(usize),
    /// No rival is listed before it, and it is not shown to stand first.
    Unsure,
}

/// What is asked of a contender: its directory and its name there; the names of a listing and the zxid of that answer; and the markers,
/// that of its name first. Names and markers follow one another, each after its length.
#[derive(Clone, Copy)]
pub struct Contender<'a> {
    pub directory: &'a [u8],
    pub name: &'a [u8],
    pub names: &'a [u8],
    pub listed: i64,
    pub markers: &'a [u8],
}

// Where the node of this name stands. The path is that of the node.
fn stands_by(
    client: &Client<Global>,
    listing: &Listing<'_, Global>,
    kind: &Kind<'_>,
    name: &str,
    path: &Path<Global>,
    room: &mut [u8],
) -> Stands
    requires { path.now ≡ child_text listing.now.directory.now name.now }
    ensures { StandsBy (view_of client.now) listing.now.directory.now name.now listing.now.names.now listing.now.zxid
        (kind_of kind.now) result room.old room.new }
{
    match Standing::of(client, listing, kind, path) {
        Some(standing) => Stands::First(standing.token()),
        None => match listing.predecessor(kind, name) {
            Some(rival) => Stands::After(copy_into(rival.as_bytes(), room)),
            None => Stands::Unsure,
        },
    }
}

// How contenders are named, if there is a marker: the first is that of the session's name.
fn kind_in<'a>(markers: &'a [&'a str]) -> Option<Kind<'a>>
    ensures some { IfSome result (λ kind. (kind_of kind).own ∷ (kind_of kind).against ≡ map (λ marker. marker.now) markers.now) }
    ensures none { result ≡ None → markers.now ≡ [] }
{
    match markers.split_first() {
        Some((own, against)) => Some(Kind { own: *own, against }),
        None => None,
    }
}

// The same of a contender whose directory and path are known.
fn stands_among(
    alloc: Global,
    client: &Client<Global>,
    directory: &Path<Global>,
    name: &str,
    contender: &Contender<'_>,
    room: &mut [u8],
) -> Result<Stands, DeviceRefusal>
    ensures stood { IfOk result (λ stands. Stood (view_of client.now) directory.now name.now contender.now.names.now contender.now.listed
        contender.now.markers.now stands room.old room.new) }
    ensures fine { OnOk result (child_fault directory.now name.now ≡ None) }
    ensures refused { IfErr result
        (λ refusal. RefusesStanding directory.now name.now contender.now.names.now contender.now.markers.now (refusal_code refusal)) }
    ensures same { OnErr result (room.new ≡ room.old) }
{
    let path = child_of(alloc, directory, name)?;
    let markers = lent_texts(alloc, contender.markers)?;
    let kind = match kind_in(markers.as_slice()) {
        Some(kind) => kind,
        None => return Err(DeviceRefusal::NotTexts),
    };
    let names = owned_texts(alloc, contender.names)?;
    let listing = Listing {
        directory,
        names: &names,
        zxid: contender.listed,
    };
    let stands = stands_by(client, &listing, &kind, name, &path, room);
    let Listing {
        directory: _directory,
        names: _names,
        zxid: _zxid,
    } = listing;
    Ok(stands)
}

/// Where the session stands by its node of this name in a directory: first, with the token, or after a rival, whose name is copied, as
/// much of it as there is room for. A refusal is as of [`peek_data`](crate::peek_data), of the directory and of the name, else
/// `NotTexts`.
pub fn standing(
    alloc: Global,
    client: &Client<Global>,
    contender: &Contender<'_>,
    room: &mut [u8],
) -> Result<Stands, DeviceRefusal>
    ensures stood { IfOk result (λ stands. Stood (view_of client.now) contender.now.directory.now contender.now.name.now
        contender.now.names.now contender.now.listed contender.now.markers.now stands room.old room.new) }
    ensures refused { IfErr result (λ refusal. RefusesStanding contender.now.directory.now contender.now.name.now contender.now.names.now
        contender.now.markers.now (refusal_code refusal)) }
    ensures same { OnErr result (room.new ≡ room.old) }
{
    let directory = path_of(alloc, contender.directory)?;
    let name = text_of(contender.name)?;
    stands_among(alloc, client, &directory, name, contender, room)
}
