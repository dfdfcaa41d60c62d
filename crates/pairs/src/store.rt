// Storing a row of a pair.
ghost use Rattle.std.specs.Prelude.{◌≡◌, ◌<◌, length};
ghost use Rattle.words.specs.Word.{width};
ghost use Rattle.pairs.specs.Pairs.{variables};
ghost use Rattle.pairs.specs.Frames.{RowPut};

use crate::Rows;
use crate::run::place;

// Value `a` of `i` goes with the members of `x`; `j` is higher, so that this is a row.
pub fn put_row(rows: &mut Rows, i: usize, j: usize, a: usize, x: u32)
    requires { (i < j) × (j < variables) × (a < width) × (length rows.old ≡ 3840) }
    ensures { RowPut width rows.old rows.new i j a x }
{
    let at = place(i, j) + a;
    rows[at] = x;
}
