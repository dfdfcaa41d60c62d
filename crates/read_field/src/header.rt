// What is tested before any field.
ghost use Rattle.std.specs.Prelude.{◌≡◌};
ghost use Rattle.format.specs.Parse.{wrong_length};

use read_number::number;

// Under 3 bytes, over 15,621, or not 3 plus the count: whatever the version.
pub fn wrong_length(bytes: &[u8]) -> bool
    ensures { result ≡ wrong_length bytes.now }
{
    if bytes.len() < 3 {
        return true;
    }
    if 15621 < bytes.len() {
        return true;
    }
    bytes.len() != 3 + number(bytes, 1, 2) as usize
}
