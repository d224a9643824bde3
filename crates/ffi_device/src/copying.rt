//! Bytes into a caller's buffer.

ghost use Rattle.std.specs.Prelude.{◌≡◌, ◌++◌, drop, length, take};

/// Copies as many of these bytes as there is room for, and tells how many there are. After them the room is as it was.
pub fn copy_into(bytes: &[u8], room: &mut [u8]) -> usize
    ensures count { result ≡ length bytes.now }
    ensures copied { room.new ≡ take (length room.old) bytes.now ++ drop (length bytes.now) room.old }
{
    let count = bytes.len().min(room.len());
    room[..count].copy_from_slice(&bytes[..count]);
    bytes.len()
}
