//! Which addresses of a list were in the list before it.

ghost use Rattle.std.specs.Prelude.{◌≡◌, ◌++◌, true, false, length, IfOk, OnOk};
ghost use Rattle.zk_driver.specs.Places.{group, is_of, stands_in};

use std::alloc::{AllocError, Allocator};

/// Whether the address is one of these.
pub(crate) fn is_among(addresses: &[&str], address: &str) -> bool
    ensures { result ≡ stands_in (λ a. a.now) addresses.now address.now }
{
    addresses.contains(&address)
}

/// Whether the address is of this group.
fn is_of(is_kept: bool, others: &[&str], address: &str) -> bool
    ensures { result ≡ is_of is_kept (stands_in (λ a. a.now) others.now address.now) }
{
    is_among(others, address) == is_kept
}

/// Adds those addresses that are in the other list, or those that are not.
fn add_group<'a, A: Allocator>(
    others: &[&str],
    is_kept: bool,
    addresses: &[&'a str],
    order: &mut Vec<&'a str, A>,
) -> Result<(), AllocError>
    ensures { OnOk result (order.new.items ≡ order.old.items ++ group (λ a. a.now) others.now is_kept addresses.now) }
{
    for address in addresses {
        if is_of(is_kept, others, address) {
            order.push(*address)?;
        }
    }
    Ok(())
}

/// The addresses in the order that an agent takes: first those that are in the other list, the one before, and after them those that are
/// not. And how many are kept so, and how many added.
pub(crate) fn places_of<'a, A: Allocator>(
    alloc: A,
    others: &[&str],
    addresses: &[&'a str],
) -> Result<(Vec<&'a str, A>, usize, usize), AllocError>
    ensures order { IfOk result (λ places. places.0.items
        ≡ group (λ a. a.now) others.now true addresses.now ++ group (λ a. a.now) others.now false addresses.now) }
    ensures kept { IfOk result (λ places. places.1 ≡ length (group (λ a. a.now) others.now true addresses.now)) }
    ensures added { IfOk result (λ places. places.2 ≡ length (group (λ a. a.now) others.now false addresses.now)) }
{
    let mut order = Vec::new(alloc);
    add_group(others, true, addresses, &mut order)?;
    let kept = order.len();
    add_group(others, false, addresses, &mut order)?;
    let added = order.len() - kept;
    Ok((order, kept, added))
}
