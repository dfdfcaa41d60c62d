// Blank rows: which states a version that bans them takes.
ghost use Rattle.std.specs.Prelude.{true, ◌≡◌, ℕ, ◌<◌, ◌≤◌, get_or};
ghost use Rattle.words.specs.Word.{width};
ghost use Rattle.pairs.specs.Pairs.{variables};
ghost use Rattle.head.specs.Held.{held, sound_in};
ghost use Rattle.format.specs.Layout.{layout_of};
ghost use Rattle.format.specs.Writable.{rows_pass};
ghost use Rattle.write_version.specs.Filled.{pair_filled, earlier_filled, all_filled};

use crate::layout::fixed_by;
use folds::every;
use head::Head;
use pairs::{Rows, VARIABLES};
use words::{WIDTH, full};

// The table of `i` and the later `j`, if there is one, has no blank row: of the `size` values of `i` none lacks a partner. Seen from `j` that is one question
// for all of them.
fn pair_filled(size: u8, stated: u32, i: usize, j: usize, rows: &Rows) -> bool
    requires { (size ≤ width) × (i < j) × (j < variables) }
    ensures { result ≡ pair_filled width rows.now size stated i j }
{
    if !words::member(stated, j) {
        return true;
    }
    let partners = pairs_read::partners(rows, j, i, full(WIDTH));
    words::without(full(words::wide(size)), partners) == 0
}

// No table of `j` and an earlier variable has one.
fn earlier_filled<'a>(
    sizes: &'a [u8; VARIABLES],
    stated: &'a [u32; VARIABLES],
    j: usize,
    rows: &Rows,
) -> bool
    requires { (j < variables) × ((i : ℕ) → get_or sizes.now i 0 ≤ width) }
    ensures { result ≡ earlier_filled width rows.now sizes.now stated.now j }
{
    every(j, |i| pair_filled(sizes[i], stated[i], i, j, rows))
}

fn all_filled<'a>(
    n: usize,
    sizes: &'a [u8; VARIABLES],
    stated: &'a [u32; VARIABLES],
    rows: &Rows,
) -> bool
    requires { (n ≤ variables) × ((i : ℕ) → get_or sizes.now i 0 ≤ width) }
    ensures { result ≡ all_filled width rows.now n sizes.now stated.now }
{
    every(n, |j| earlier_filled(sizes, stated, j, rows))
}

// Whether a version takes the rows: "The writer in version 3 refuses a state where a stated table has such a row for its lower-numbered option."
pub fn rows_pass(head: Head, rows: &Rows, version: usize) -> bool
    requires { sound_in head rows.now ≡ true }
    ensures { result ≡ rows_pass (layout_of version) (held head rows.now) }
{
    if !fixed_by(version).filled {
        return true;
    }
    all_filled(head.n, &head.sizes, &head.stated, rows)
}
