//! Names as sets, for whoever is to have each once, in the order of its bytes.

ghost use Rattle.std.specs.Prelude.{◌≡◌, IfOk, map, string_bytes};
ghost use Rattle.std.specs.FinSet as set;
ghost use Rattle.zk_nodes.specs.Names.{name_cmp};

use std::alloc::{AllocError, Allocator};
use std::collections::BTreeSet;
use zk_cache::JoinedTexts;

/// The names of a reply, which come in any order, and may come more than once, as a set.
pub fn set_of<A: Allocator + Copy>(
    alloc: A,
    names: &JoinedTexts<A>,
) -> Result<BTreeSet<String<A>, A>, AllocError>
    ensures { IfOk result (λ s. set.from_list {R = name_cmp} (map string_bytes s.keys) ≡ set.from_list names.now) }
{
    let mut set = BTreeSet::new(alloc);
    for index in 0..names.len() {
        if let Some(name) = names.get(index) {
            set.insert(String::from_str(alloc, name)?)?;
        }
    }
    Ok(set)
}
