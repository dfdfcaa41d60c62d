// All of a sheet's bytes after the count of bytes, read into arrays that were zero.
ghost use Rattle.std.specs.Prelude.{◌≡◌, ◌≤◌, replicate};
ghost use Rattle.words.specs.Word.{width};
ghost use Rattle.pairs.specs.Pairs.{variables};
ghost use Rattle.format.specs.Layout.{Layout};
ghost use Rattle.format.specs.Parse.{parse_body};
ghost use Rattle.read_number.specs.Bytes.{RowBytes};
ghost use Rattle.read_tables.specs.Tables.{RowsIn};
ghost use Rattle.read_body.specs.Reading.{SheetRead};

use crate::sizes;
use cause::{Cause, Refusal};
use pairs::{Rows, VARIABLES};
use read_field::Field;

// All that follows the count of bytes, in a layout whose rows have `k` bytes, whose sizes go to `most` and whose rows must be `filled`, or need not: n, the
// sizes, p, the tables, and no byte more. The value is n.
pub fn read_body(
    bytes: &[u8],
    k: usize,
    most: usize,
    filled: bool,
    sizes: &mut [u8; VARIABLES],
    stated: &mut [u32; VARIABLES],
    rows: &mut Rows,
) -> Result<Field, Refusal>
    requires { RowBytes k × (most ≤ width) × (sizes.old ≡ replicate variables 0) × (stated.old ≡ replicate variables 0) × (rows.old ≡ replicate 3840 0) }
    ensures { (L : Layout) → RowsIn L k filled → L.values_at_most ≡ most
        → SheetRead (parse_body L bytes.now) sizes.new stated.new rows.new result }
{
    let n = read_field::byte_field(bytes, 3, 1, VARIABLES, Cause::VariableCount)?.value;
    let after = sizes::read_sizes(bytes, n, most, sizes)?.next;
    let most_tables = n * (n - 1) / 2;
    let p = read_field::byte_field(bytes, after, 0, most_tables, Cause::ConstraintCount)?;
    let tables = read_tables::read_tables(
        bytes, p.next, k, filled, n, p.value, sizes, stated, rows,
    )?;
    let end = tables.next;
    if end < bytes.len() {
        return Err(Refusal {
            cause: Cause::Extent,
            place: end,
        });
    }
    Ok(Field {
        value: n,
        next: end,
    })
}
