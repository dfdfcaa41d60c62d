// The number in two bytes or in four: "All numbers are unsigned and big-endian."
#![tactic(auto)]

ghost use Rattle.std.specs.Prelude.{◌≡◌, ◌+◌, ◌≤◌, length};
ghost use Rattle.format.specs.Parse.{number_at};
ghost use Rattle.read_number.specs.Bytes.{RowBytes};
ghost use Rattle.read_number.specs.Standing.{standing_at};

// Two bytes as they stand, the first in the lowest bits: one load.
fn two(bytes: &[u8], at: usize) -> u16
    requires { at + 2 ≤ length bytes.now }
    ensures { result ≡ standing_at 2 bytes.now at }
{
    bytes[at + 1] as u16 * 256 + bytes[at] as u16
}

// Four bytes as they stand.
fn four(bytes: &[u8], at: usize) -> u32
    requires { at + 4 ≤ length bytes.now }
    ensures { result ≡ standing_at 4 bytes.now at }
{
    bytes[at + 3] as u32 * 16777216
        + bytes[at + 2] as u32 * 65536
        + bytes[at + 1] as u32 * 256
        + bytes[at] as u32
}

// `k` bytes, two or four, as they stand.
pub fn standing(bytes: &[u8], at: usize, k: usize) -> u32
    requires { RowBytes k × (at + k ≤ length bytes.now) }
    ensures { result ≡ standing_at k bytes.now at }
{
    if k == 2 {
        return two(bytes, at) as u32;
    }
    four(bytes, at)
}

// The number in `k` bytes, two or four.
pub fn number(bytes: &[u8], at: usize, k: usize) -> u32
    requires { RowBytes k × (at + k ≤ length bytes.now) }
    ensures { result ≡ number_at k bytes.now at }
{
    let low_first = standing(bytes, at, k);
    if k == 2 {
        return low_first % 256 * 256 + low_first / 256;
    }
    low_first % 256 * 16777216
        + low_first / 256 % 256 * 65536
        + low_first / 65536 % 256 * 256
        + low_first / 16777216
}
