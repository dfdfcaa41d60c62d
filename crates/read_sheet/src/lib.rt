// A sheet's bytes, read into arrays that were zero.
#![tactic(auto)]

ghost use Rattle.std.specs.Prelude.{◌≡◌, replicate};
ghost use Rattle.pairs.specs.Pairs.{variables};
ghost use Rattle.format.specs.Parse.{parse};
ghost use Rattle.read_body.specs.Reading.{SheetRead};

use cause::{Cause, Refusal};
use pairs::{Rows, VARIABLES};
use read_body::read_body;
use read_field::Field;

// Reads a sheet; the value is n. After a refusal the arrays hold what had been read. A sheet of version 1 has rows of two bytes, and sizes to 16; one of
// version 2 has rows of four bytes, and sizes to 32; one of version 3 the same, and no all-zero row.
pub fn read_into(
    bytes: &[u8],
    sizes: &mut [u8; VARIABLES],
    stated: &mut [u32; VARIABLES],
    rows: &mut Rows,
) -> Result<Field, Refusal>
    requires { (sizes.old ≡ replicate variables 0) × (stated.old ≡ replicate variables 0) × (rows.old ≡ replicate 3840 0) }
    ensures { SheetRead (parse bytes.now) sizes.new stated.new rows.new result }
{
    if read_field::wrong_length(bytes) {
        return Err(Refusal {
            cause: Cause::Length,
            place: 0,
        });
    }
    let version = bytes[0];
    if version == 1 {
        return read_body(bytes, 2, 16, false, sizes, stated, rows);
    }
    if version == 2 {
        return read_body(bytes, 4, 32, false, sizes, stated, rows);
    }
    if version == 3 {
        return read_body(bytes, 4, 32, true, sizes, stated, rows);
    }
    Err(Refusal {
        cause: Cause::Version,
        place: 0,
    })
}
