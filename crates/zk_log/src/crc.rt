//! The CRC of digests.

ghost use Rattle.std.specs.Prelude.{◌≡◌, ◌<◌, ◌^◌, ◌/◌, ◌%◌, IfOk, bit_xor};
ghost use Rattle.zk_log.specs.Crc.{crc_bit, crc_half, crc_row, crc_after, crc_byte, crc_ended, IsTable};

use std::alloc::{AllocError, Allocator};

/// The polynomial.
const POLYNOMIAL: u32 = 3_988_292_384;

/// The CRC of no bytes yet, and the bits that are turned at its end.
pub(crate) const ONES: u32 = 4_294_967_295;

/// A step of one bit.
fn crc_bit(crc: u32) -> u32
    ensures { result ≡ crc_bit crc }
{
    if crc % 2 == 0 {
        crc / 2
    } else {
        (crc / 2) ^ POLYNOMIAL
    }
}

/// Steps of four bits.
fn crc_half(crc: u32) -> u32
    ensures { result ≡ crc_half crc }
{
    crc_bit(crc_bit(crc_bit(crc_bit(crc))))
}

/// What a byte makes.
#[tactic(auto, unfolding(crate::specs::Crc::crc_row))]
fn crc_row(byte: u32) -> u32
    ensures { result ≡ crc_row byte }
{
    crc_half(crc_half(byte))
}

/// What each byte makes, in their order.
pub(crate) fn crc_rows<A: Allocator>(alloc: A) -> Result<Vec<u32, A>, AllocError>
    ensures { IfOk result (λ rows. IsTable rows.items) }
{
    let mut rows = Vec::with_capacity(alloc, 256)?;
    for byte in 0..256 {
        rows.push(crc_row(byte))?;
    }
    Ok(rows)
}

/// The CRC so far, after a byte.
#[tactic(auto, unfolding(crate::specs::Crc::crc_byte))]
fn crc_byte(rows: &[u32], crc: u32, byte: u8) -> u32
    requires { IsTable rows.now }
    ensures { result ≡ crc_byte crc byte }
{
    let at = (crc ^ u32::from(byte)) % 256;
    (crc / 256) ^ rows[at as usize]
}

/// The CRC so far, after these bytes.
pub(crate) fn crc_after(rows: &[u32], bytes: &[u8], mut crc: u32) -> u32
    requires { IsTable rows.now }
    ensures { result ≡ crc_after bytes.now crc }
{
    for byte in bytes {
        crc = crc_byte(rows, crc, *byte);
    }
    crc
}
