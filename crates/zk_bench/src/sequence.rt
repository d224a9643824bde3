//! The numbers of sequential nodes.

ghost use Rattle.std.specs.Prelude.{◌≡◌, Some, None, IfOk, IfErr, min, count_by};
ghost use mathlib.Core.List.{IsPrefix};
ghost use Rattle.zk_nodes.specs.Path.{path_of as names_in};
ghost use Rattle.zk_history.specs.Made.{change_of};
ghost use Rattle.zk_nodes.specs.PathFault.{IsPath};
ghost use Rattle.zk_records.specs.declared.code.Code.TheVariants as codes;
ghost use Rattle.zk_bench.specs.inner.Refusals.{IsCode};
ghost use Rattle.zk_bench.specs.inner.Writing.{IsRefusedWith, makes_below, creates_below as creates_told, numbered_text};

use crate::stop::Refusal;
use std::alloc::Allocator;
use zk_history::{Change, History};
use zk_nodes::Path;
use zk_records::Code;

// The last number that ten digits say.
const LAST_NUMBER: u64 = 9_999_999_999;

// Whether a change makes a node right below a parent.
fn is_made_below<A: Allocator>(change: &Change<A>, parent: &str) -> bool
    requires { IsPath parent.now }
    ensures { result ≡ makes_below (names_in parent.now) (change_of change.now) }
{
    let Change::Create(path, _, _) = change else {
        return false;
    };
    match path.parent() {
        Some(above) => above == parent,
        None => false,
    }
}

// How many of some changes make a node right below a parent.
fn creates_in<A: Allocator>(changes: &[Change<A>], parent: &str) -> u64
    requires { IsPath parent.now }
    ensures { result ≡ count_by (λ change. makes_below (names_in parent.now) (change_of change)) changes.now }
{
    let mut count = 0u64;
    for change in changes {
        if is_made_below(change, parent) {
            count += 1;
        }
    }
    count
}

// How many nodes the transactions so far have made right below a parent, or 2^64 - 1 if they are more. Those that were deleted
// count too.
fn creates_below<A: Allocator + Copy>(history: &History<A>, parent: &str) -> u64
    requires { IsPath parent.now }
    ensures { result ≡ min (creates_told (names_in parent.now) history.now.transactions) 18446744073709551615 }
{
    // Zxids rise, so there are fewer transactions than zxids.
    let _last = history.last_zxid();
    let mut count = 0u64;
    for n in 0..usize::MAX {
        let Some((_, _, changes)) = history.transaction(n) else {
            break;
        };
        count = count.saturating_add(creates_in(changes, parent));
    }
    count
}

/// The path of a sequential node: the path that was asked for, and ten digits, which tell how many nodes have been made
/// below its parent. Where that is no path or the number has more digits, the code is -8.
pub(crate) fn numbered<A: Allocator + Copy>(
    alloc: A,
    history: &History<A>,
    path: &Path<A>,
    parent: &str,
) -> Result<Path<A>, Refusal>
    requires { IsPath parent.now }
    ensures begins { IfOk result (λ made. IsPrefix path.now made) }
    ensures made { IfOk result (λ made. numbered_text path.now (creates_told (names_in parent.now) history.now.transactions) ≡ Some made) }
    ensures none { IfErr result
        (λ refusal. IsCode refusal → numbered_text path.now (creates_told (names_in parent.now) history.now.transactions) ≡ None) }
    ensures refused { IfErr result (IsRefusedWith (Some codes.BadArguments)) }
{
    let number = creates_below(history, parent);
    if number > LAST_NUMBER {
        return Err(Refusal::Code(Code::BadArguments));
    }
    let text = format!(in alloc; "{}{:010}", path.as_str(), number)?;
    let path = Path::new(alloc, text.as_str())?;
    Ok(path)
}
