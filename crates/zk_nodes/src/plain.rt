//! A quick look at a text, which most texts of paths pass.

ghost use Rattle.std.specs.Prelude.{◌≡◌, ◌+◌, ◌<◌, ◌≤◌, IsTrue, length};
ghost use Rattle.zk_nodes.specs.inner.Plain.{ArePlain, IsPlain, may_follow};

use std::simd::prelude::*;

// A text is looked at by this many bytes together, and a shorter one by fewer.
const LANES: usize = 16;

const FEW_LANES: usize = 8;

const FEWEST_LANES: usize = 4;

fn may_follow(before: u8, byte: u8) -> bool
    ensures { result ≡ may_follow before byte }
{
    b' ' <= byte && byte <= b'~' && (before != b'/' || (byte != b'.' && byte != b'/'))
}

// The bytes from a place on, together.
fn are_plain(text: &[u8], at: usize) -> bool
    requires before { 0 < at }
    requires room { at + LANES ≤ length text.now }
    ensures { IsTrue result → ArePlain text.now at (at + LANES) }
{
    let bytes = u8x16::from_slice(&text[at..]);
    let before = u8x16::from_slice(&text[at - 1..]);
    let refused = bytes.simd_lt(u8x16::splat(b' ')) | bytes.simd_gt(u8x16::splat(b'~'));
    let begins_badly = bytes.simd_eq(u8x16::splat(b'.')) | bytes.simd_eq(u8x16::splat(b'/'));
    let stops = refused | (begins_badly & before.simd_eq(u8x16::splat(b'/')));
    stops.to_bitmask() == 0
}

fn few_are_plain(text: &[u8], at: usize) -> bool
    requires before { 0 < at }
    requires room { at + FEW_LANES ≤ length text.now }
    ensures { IsTrue result → ArePlain text.now at (at + FEW_LANES) }
{
    let bytes = u8x8::from_slice(&text[at..]);
    let before = u8x8::from_slice(&text[at - 1..]);
    let refused = bytes.simd_lt(u8x8::splat(b' ')) | bytes.simd_gt(u8x8::splat(b'~'));
    let begins_badly = bytes.simd_eq(u8x8::splat(b'.')) | bytes.simd_eq(u8x8::splat(b'/'));
    let stops = refused | (begins_badly & before.simd_eq(u8x8::splat(b'/')));
    stops.to_bitmask() == 0
}

fn fewest_are_plain(text: &[u8], at: usize) -> bool
    requires before { 0 < at }
    requires room { at + FEWEST_LANES ≤ length text.now }
    ensures { IsTrue result → ArePlain text.now at (at + FEWEST_LANES) }
{
    let bytes = u8x4::from_slice(&text[at..]);
    let before = u8x4::from_slice(&text[at - 1..]);
    let refused = bytes.simd_lt(u8x4::splat(b' ')) | bytes.simd_gt(u8x4::splat(b'~'));
    let begins_badly = bytes.simd_eq(u8x4::splat(b'.')) | bytes.simd_eq(u8x4::splat(b'/'));
    let stops = refused | (begins_badly & before.simd_eq(u8x4::splat(b'/')));
    stops.to_bitmask() == 0
}

fn short_is_plain(text: &[u8]) -> bool
    ensures { IsTrue result → ArePlain text.now 1 (length text.now) }
{
    for at in 1..text.len() {
        if !may_follow(text[at - 1], text[at]) {
            return false;
        }
    }
    true
}

// The last bytes may be looked at twice.
fn long_is_plain(text: &[u8]) -> bool
    requires { LANES < length text.now }
    ensures { IsTrue result → ArePlain text.now 1 (length text.now) }
{
    let last = text.len() - LANES;
    let mut at = 1;
    while at < last {
        if !are_plain(text, at) {
            return false;
        }
        at += LANES;
    }
    are_plain(text, last)
}

// Whether each byte but the first may follow the one before it.
fn all_may_follow(text: &[u8]) -> bool
    ensures { IsTrue result → ArePlain text.now 1 (length text.now) }
{
    if LANES < text.len() {
        return long_is_plain(text);
    }
    if FEW_LANES < text.len() {
        return few_are_plain(text, 1) && few_are_plain(text, text.len() - FEW_LANES);
    }
    if FEWEST_LANES < text.len() {
        return fewest_are_plain(text, 1) && fewest_are_plain(text, text.len() - FEWEST_LANES);
    }
    short_is_plain(text)
}

/// Whether a text that begins with a slash is plainly a path's. One of which it says no may be a path's all the same.
pub(crate) fn is_plain(text: &[u8]) -> bool
    ensures { IsTrue result → IsPlain text.now }
{
    let ends_with_slash = text.len() > 1 && text[text.len() - 1] == b'/';
    !ends_with_slash && all_may_follow(text)
}
