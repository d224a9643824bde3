//! The checksum of entries.

ghost use Rattle.std.specs.Prelude.{◌≡◌};
ghost use Rattle.zk_log.specs.Checksum.{adler32};

/// The largest prime below 65,536.
const PRIME: u32 = 65_521;

/// The bytes after which the sums are taken modulo the prime: they stay below 2 ^ 32 until then.
const PIECE: u32 = 1_024;

/// Adler-32 of these bytes (RFC 1950).
#[tactic(auto, unfolding(crate::specs::Checksum::adler32))]
pub fn adler32(bytes: &[u8]) -> u32
    ensures { result ≡ adler32 bytes.now }
{
    let mut first = 1;
    let mut second = 0;
    let mut count = 0;
    for byte in bytes {
        first += u32::from(*byte);
        second += first;
        count += 1;
        if count == PIECE {
            first %= PRIME;
            second %= PRIME;
            count = 0;
        }
    }
    (second % PRIME) * 65_536 + first % PRIME
}
