//! What is wanted of a tree.

ghost use Rattle.std.specs.Prelude.{◌≡◌, ◌++◌, ◌∷◌, [], IfOk, OnOk};
ghost use Rattle.zk_client.specs.Clients.{view_of};
ghost use Rattle.zk_trees.specs.Trees.{aims_at, aims_of, wants_of, AreWanted, IsWanted};

use crate::subject::NodeSide;
use std::alloc::{AllocError, Allocator};
use zk_client::{Client, Path, Side};
use zk_conclusions::{Lacking, NoSubtree};

/// What is wanted of a tree, and whether it has more nodes than the most.
#[derive(Drop)]
pub struct Wanted<A: Allocator> {
    pub subjects: Vec<NodeSide<A>, A>,
    pub is_bounded: bool,
}

/// Adds this side of each of the paths.
fn add_each<A: Allocator + Copy>(
    alloc: A,
    subjects: &mut Vec<NodeSide<A>, A>,
    side: Side,
    paths: &[Path<A>],
) -> Result<(), AllocError>
    ensures { OnOk result (aims_of subjects.new.items ≡ aims_of subjects.old.items ++ aims_at side paths.now) }
{
    for path in paths {
        subjects.push(NodeSide::of(alloc, side, path)?)?;
    }
    Ok(())
}

/// Adds what a tree lacks.
fn add_lacking<A: Allocator + Copy>(
    alloc: A,
    subjects: &mut Vec<NodeSide<A>, A>,
    lacking: &Lacking<A>,
) -> Result<(), AllocError>
    ensures { OnOk result (aims_of subjects.new.items
        ≡ aims_of subjects.old.items ++ (aims_at Side.Data lacking.now.data.items ++ aims_at Side.Child lacking.now.names.items)) }
{
    add_each(alloc, subjects, Side::Data, lacking.data.as_slice())?;
    add_each(alloc, subjects, Side::Child, lacking.names.as_slice())
}

/// Adds what is wanted of a tree.
fn add_wanted<A: Allocator + Copy>(
    alloc: A,
    client: &Client<A>,
    most: u64,
    root: &Path<A>,
    wanted: &mut Wanted<A>,
) -> Result<(), AllocError>
    ensures { OnOk result (IsWanted (view_of client.now) most root.now (wants_of wanted.old) (wants_of wanted.new)) }
{
    match Lacking::of(client, alloc, root, most as usize) {
        Ok(lacking) => add_lacking(alloc, &mut wanted.subjects, &lacking),
        Err(NoSubtree::TooMany) => {
            wanted.is_bounded = true;
            Ok(())
        }
        Err(NoSubtree::NotWhole) => Ok(()),
        Err(NoSubtree::Memory) => Err(AllocError),
    }
}

/// What is wanted of the tree of this root: what good names lead to from the root on, and that lacks something; and nothing of a tree that
/// has more nodes than the most. An error means that memory ran out.
pub fn wanted_at<A: Allocator + Copy>(
    alloc: A,
    client: &Client<A>,
    most: u64,
    root: &Path<A>,
) -> Result<Wanted<A>, AllocError>
    ensures { IfOk result (λ wanted. AreWanted (view_of client.now) most (root.now ∷ []) (wants_of wanted)) }
{
    let mut wanted = Wanted {
        subjects: Vec::new(alloc),
        is_bounded: false,
    };
    add_wanted(alloc, client, most, root, &mut wanted)?;
    Ok(wanted)
}
