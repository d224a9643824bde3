//! Maps from paths to answers with a mark.
ghost use Rattle.std.specs.Prelude.{◌≡◌, ℕ, List, Some, OnOk, OnErr, IsOk, true, is_some, option_map, bytes_eq, string_bytes};
ghost use Rattle.std.specs.Prelude.{if◌then◌else◌};
ghost use Rattle.indexmap.specs.IndexMap.{get_by_text, IsUnchanged};
ghost use Rattle.zk_cache.specs.Kept.{as_good, good, stale, without_stale, is_good};

use indexmap::IndexMap;
use std::alloc::{AllocError, Allocator};
use std::hash::{BuildHasherDefault, FoldHasher};

/// Whether an answer still stands.
#[derive(Clone, Copy, PartialEq, Eq)]
pub enum Mark {
    /// Nothing was told since that ends it.
    Good,
    /// A change was told, and the answer was not read again.
    Stale,
}

/// An answer with its mark.
#[derive(Drop)]
pub struct Kept<T> {
    pub answer: T,
    pub mark: Mark,
}

/// What is kept at each path.
pub(crate) type Held<T, A> = IndexMap<String<A>, Kept<T>, BuildHasherDefault<FoldHasher>, A>;

/// The answer, marked good.
pub(crate) fn marked_good<T>(answer: T) -> Kept<T>
    ensures { result ≡ as_good answer }
{
    Kept {
        answer,
        mark: Mark::Good,
    }
}

/// Keeps the answer, marked good. Only a path that is new to the map takes room in it.
pub(crate) fn put<T: Drop, A: Allocator + Copy>(
    map: &mut Held<T, A>,
    path: String<A>,
    answer: T,
) -> Result<(), AllocError>
    ensures ok { OnOk result ((other : List ℕ) → get_by_text map.new other
        ≡ (if bytes_eq (string_bytes path) other then good answer else get_by_text map.old other)) }
    ensures there { is_some (get_by_text map.old (string_bytes path)) ≡ true → IsOk result }
    ensures err { OnErr result (IsUnchanged map.old map.new) }
{
    map.insert(path, marked_good(answer))?;
    Ok(())
}

/// The answer of the path with its mark, if there is one.
pub(crate) fn peek<'a, T, A: Allocator + Copy>(
    map: &'a Held<T, A>,
    path: &str,
) -> Option<(&'a T, Mark)>
    ensures { option_map (λ kept. record { answer = kept.0.now; mark = kept.1 }) result ≡ get_by_text map.now path.now }
{
    let kept = map.get(path)?;
    Some((&kept.answer, kept.mark))
}

/// Marks the answer stale, if there is one.
pub(crate) fn mark_stale<T, A: Allocator + Copy>(map: &mut Held<T, A>, path: &str)
    ensures { (other : List ℕ) → get_by_text map.new other
        ≡ (if bytes_eq path.now other then stale (get_by_text map.old path.now) else get_by_text map.old other) }
{
    if let Some(kept) = map.get_mut(path) {
        kept.mark = Mark::Stale;
    }
}

/// Takes the stale answers out.
pub(crate) fn keep_good<T: Drop, A: Allocator + Copy>(map: &mut Held<T, A>)
    ensures { (path : List ℕ) → get_by_text map.new path ≡ without_stale (get_by_text map.old path) }
{
    // `len` is called for its clause that no key stands twice, which the proof cites.
    let _ = map.len();
    map.retain(
        |_path: &String<A>, held: &mut Kept<T>| -> bool
            ensures { (result ≡ is_good held.old.mark) × (held.new ≡ held.old) }
        { held.mark == Mark::Good },
    );
}
