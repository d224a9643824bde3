//! What is kept of an answer.
ghost use Rattle.std.specs.Prelude.{◌≡◌, ℕ, List, true, is_some, bytes_eq, string_bytes, if◌then◌else◌, IsOk, OnOk, OnErr};
ghost use Rattle.indexmap.specs.IndexMap.{get_by_text, IsUnchanged};
ghost use Rattle.zk_cache.specs.Kept.{same_fields};
ghost use Rattle.zk_cache.specs.inner.Covered.{stays};
ghost use Rattle.zk_cache.specs.Contents.{answer_of};
ghost use Rattle.zk_cache.specs.inner.Renewed.{renewed, with_answer};

use crate::held::{Held, Kept, Mark, marked_good};
use std::alloc::{AllocError, Allocator, Global};
use zk_nodes::DataStat;

/// What a read of a node answered about the node itself.
#[derive(Drop)]
pub enum DataAnswer<A: Allocator = Global> {
    /// No node is there.
    Absent,
    /// A node is there with these fields, and its data were not read.
    Known(DataStat),
    /// The node's data, null or bytes, with its fields.
    Full(Option<Vec<u8, A>>, DataStat),
}

fn is_same(a: &DataStat, b: &DataStat) -> bool
    ensures { result ≡ same_fields a.now b.now }
{
    a == b
}

/// Whether the kept answer stays where the new one comes.
fn covers<A: Allocator>(kept: &Kept<DataAnswer<A>>, answer: &DataAnswer<A>) -> bool
    ensures { result ≡ stays (answer_of kept.now.answer) kept.now.mark (answer_of answer.now) }
{
    match (&kept.answer, kept.mark, answer) {
        (DataAnswer::Full(_, stat), Mark::Good, DataAnswer::Known(new)) => is_same(stat, new),
        _ => false,
    }
}

/// Puts the answer, marked good, in place of the kept one, unless that stays.
fn renew<A: Allocator>(kept: &mut Kept<DataAnswer<A>>, answer: DataAnswer<A>)
    ensures { kept.new ≡ renewed kept.old answer }
{
    if !covers(kept, &answer) {
        *kept = marked_good(answer);
    }
}

/// Keeps the answer, marked good, unless the kept one of the path stays. Only a path that is new to the map takes room in it.
pub(crate) fn keep<A: Allocator + Copy>(
    map: &mut Held<DataAnswer<A>, A>,
    path: String<A>,
    answer: DataAnswer<A>,
) -> Result<(), AllocError>
    ensures ok { OnOk result ((other : List ℕ) → get_by_text map.new other
        ≡ (if bytes_eq (string_bytes path) other then with_answer (get_by_text map.old (string_bytes path)) answer
        else get_by_text map.old other)) }
    ensures there { is_some (get_by_text map.old (string_bytes path)) ≡ true → IsOk result }
    ensures err { OnErr result (IsUnchanged map.old map.new) }
{
    // A path that is new to the map begins with an answer that does not stand, so that it is hashed once.
    let kept = map.entry(path)?.or_insert(Kept {
        answer: DataAnswer::Absent,
        mark: Mark::Stale,
    });
    renew(kept, answer);
    Ok(())
}
