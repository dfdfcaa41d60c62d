// The sizes of a sheet.
ghost use Rattle.std.specs.Prelude.{◌≡◌, ◌≤◌, replicate};
ghost use Rattle.words.specs.Word.{width};
ghost use Rattle.pairs.specs.Pairs.{variables};
ghost use Rattle.read_body.specs.Reading.{SizesRead};

use cause::{Cause, Refusal};
use pairs::VARIABLES;
use read_field::Field;

// The sizes of `n` variables, from byte 4 on, none above `most`.
pub fn read_sizes(
    bytes: &[u8],
    n: usize,
    most: usize,
    sizes: &mut [u8; VARIABLES],
) -> Result<Field, Refusal>
    requires { (n ≤ variables) × (most ≤ width) × (sizes.old ≡ replicate variables 0) }
    ensures { SizesRead bytes.now n most sizes.new result }
{
    let mut at = 4;
    for i in 0..n {
        let size = read_field::byte_field(bytes, at, 1, most, Cause::Size)?;
        sizes[i] = size.value as u8;
        at = size.next;
    }
    Ok(Field { value: n, next: at })
}
