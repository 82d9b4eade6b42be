// Numbers in the bytes of a record: little-endian.
ghost use Rattle.std.specs.Prelude.{◌≡◌, ◌+◌, ◌≤◌, length};
ghost use Rattle.record.specs.Bytes.{le};

// The number of the four bytes at a place.
pub fn u32_at(part: &[u8], at: usize) -> u32
    requires { at + 4 ≤ length part.now }
    ensures { result ≡ le 4 part.now at }
{
    u32::from_le_bytes([part[at], part[at + 1], part[at + 2], part[at + 3]])
}

// The number of the eight bytes at a place.
pub fn u64_at(part: &[u8], at: usize) -> u64
    requires { at + 8 ≤ length part.now }
    ensures { result ≡ le 8 part.now at }
{
    let high = u64::from(u32_at(part, at + 4));
    u64::from(u32_at(part, at)) + 4294967296 * high
}
