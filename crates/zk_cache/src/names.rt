//! The names of a reply.
ghost use Rattle.std.specs.Prelude.{◌≡◌, map, IfOk};
ghost use Rattle.zk_cache.specs.inner.Contents.{name_in};

use std::alloc::{AllocError, Allocator};
use zk_jute::TextRef;

/// The names, in the order of the reply. A null name is the empty one. An error says that memory ran out.
pub(crate) fn texts_of<'a, A: Allocator>(
    alloc: A,
    names: &[TextRef<'a>],
) -> Result<Vec<&'a str, A>, AllocError>
    ensures { IfOk result (λ texts. map (λ text. text.now) texts.items ≡ map name_in names.now) }
{
    let mut texts = Vec::with_capacity(alloc, names.len())?;
    for name in names {
        texts.push(name.or_empty())?;
    }
    Ok(texts)
}
