//! Nodes of a tree, which wait to be printed.

ghost use Rattle.std.specs.Prelude.{◌≡◌, ◌≢◌, ◌++◌, [], ◌<◌, ◌-◌, ◌^◌, true, false, List, Contains, None, IfOk, IfErr, OnOk, map};
ghost use Rattle.std.specs.Prelude.{option_map, string_bytes, unwrap_or};
ghost use Rattle.std.specs.BTreeSet.{IsOrdered};
ghost use Rattle.std.specs.String.{string_cmp};
ghost use Rattle.zk_nodes.specs.Path.{Text};
ghost use Rattle.zk_nodes.specs.PathFault.{fault_told};
ghost use Rattle.shell_ask.specs.Trees.{child_of, AreInOrder, HasNoPath};
ghost use Rattle.shell_ask.specs.inner.Trees.{spot_view, waiting_view};

use script_replay::name_sets::set_of;
use std::alloc::{AllocError, Allocator};
use std::collections::BTreeSet;
use zk_client::{JoinedTexts, Path, PathFault};
use zk_driver::Stop;

/// A node of a tree: how many levels it lies below the tree's root, its path, and its path below the chroot.
#[derive(Drop)]
pub(crate) struct Spot<A: Allocator> {
    pub(crate) depth: u64,
    pub(crate) path: Path<A>,
    pub(crate) name: Path<A>,
}

/// The same path again.
pub(crate) fn copied<A: Allocator + Copy>(alloc: A, path: &Path<A>) -> Result<Path<A>, Stop>
    ensures { IfOk result (λ copy. copy ≡ path.now) }
{
    match Path::new(alloc, path.as_str()) {
        Ok(copy) => Ok(copy),
        Err(_) => Err(Stop::Memory),
    }
}

/// Whether a text has a fault: else memory ran out.
pub(crate) fn is_of_text(fault: &PathFault) -> bool
    ensures text { result ≡ true → fault_told fault.now ≢ None }
    ensures memory { result ≡ false → fault_told fault.now ≡ None }
{
    match fault {
        PathFault::Memory => false,
        _ => true,
    }
}

/// The node with this name below a node, or why it has no path.
fn child_of<A: Allocator + Copy>(alloc: A, spot: &Spot<A>, name: &str) -> Result<Spot<A>, PathFault>
    requires { spot.now.depth < 2 ^ 64 - 1 }
    ensures ok { IfOk result (λ child. spot_view child ≡ child_of (spot_view spot.now) name.now) }
    ensures err { IfErr result (λ fault. fault_told fault ≢ None → HasNoPath (spot_view spot.now) name.now) }
{
    Ok(Spot {
        depth: spot.depth + 1,
        path: spot.path.join(alloc, name)?,
        name: spot.name.join(alloc, name)?,
    })
}

/// The nodes below a node, by a set of their names, or why one has no path.
fn spots_of<A: Allocator + Copy>(
    alloc: A,
    spot: &Spot<A>,
    names: &BTreeSet<String<A>, A>,
) -> Result<Vec<Spot<A>, A>, PathFault>
    requires { spot.now.depth < 2 ^ 64 - 1 }
    ensures ok { IfOk result (λ spots. map spot_view spots.items ≡ map (child_of (spot_view spot.now)) (map string_bytes names.now.keys)) }
    ensures err { IfErr result (λ fault. fault_told fault ≢ None
        → (name : Text) × Contains (map string_bytes names.now.keys) name × HasNoPath (spot_view spot.now) name) }
    ensures ordered { IsOrdered string_cmp names.now }
{
    let mut spots = Vec::new(alloc);
    for name in names {
        let child = child_of(alloc, spot, name.as_str())?;
        if spots.push(child).is_err() {
            return Err(PathFault::Memory);
        }
    }
    Ok(spots)
}

/// The nodes below a node, in the order of their names, which come in any order, and may come more than once; or why one has no path.
/// If there are no names there are none.
pub(crate) fn spots_below<A: Allocator + Copy>(
    alloc: A,
    spot: &Spot<A>,
    names: Option<&JoinedTexts<A>>,
) -> Result<Vec<Spot<A>, A>, PathFault>
    requires { spot.now.depth < 2 ^ 64 - 1 }
    ensures ok { let all = unwrap_or (option_map (λ lent. lent.now) names.entry) [] in
        IfOk result (λ spots. (each : List Text) × AreInOrder each all
        × (map spot_view spots.items ≡ map (child_of (spot_view spot.now)) each)) }
    ensures err { let all = unwrap_or (option_map (λ lent. lent.now) names.entry) [] in
        IfErr result (λ fault. fault_told fault ≢ None → (each : List Text) × (child : Text) × AreInOrder each all
        × Contains each child × HasNoPath (spot_view spot.now) child) }
{
    let Some(names) = names else {
        return Ok(Vec::new(alloc));
    };
    let set = set_of(alloc, names)?;
    spots_of(alloc, spot, &set)
}

/// Puts nodes before all that wait.
pub(crate) fn put_first<A: Allocator + Copy>(
    waiting: &mut Vec<Spot<A>, A>,
    mut spots: Vec<Spot<A>, A>,
) -> Result<(), AllocError>
    ensures { OnOk result (waiting_view waiting.new.items ≡ map spot_view spots.items ++ waiting_view waiting.old.items) }
{
    spots.reverse();
    waiting.append(&mut spots)
}
