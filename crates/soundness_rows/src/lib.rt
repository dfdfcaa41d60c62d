// Soundness of the rows beside a head that is sound by itself. They are tested where they stand, a run at a time, and every bit of every word is looked at.
#![tactic(auto)]

ghost use Rattle.std.specs.Prelude.{◌≡◌, ℕ, ◌+◌, ◌<◌, ◌≤◌, get_or};
ghost use Rattle.words.specs.Word.{width};
ghost use Rattle.pairs.specs.Pairs.{variables};
ghost use Rattle.head.specs.Held.{values_at_most};
ghost use Rattle.soundness_rows.specs.Fits.{past_fits, constraint_fits, pair_rows_fit, lower_rows_fit, rows_fit};

use folds::every;
use head::{Rows, VARIABLES};
use pairs::{PLACES, joined};
use words::{WIDTH, member, wide, within};

// The rows past the pairs of the first `n` variables are empty: they are one run.
fn past_sound(n: usize, rows: &Rows) -> bool
    requires { (1 ≤ n) × (n ≤ variables) }
    ensures { result ≡ past_fits width n rows.now }
{
    joined(rows, n * (n - 1) / 2 * WIDTH, PLACES) == 0
}

// The rows of a stated pair, from `at` on: the values at or above the size of the lower variable have none, and no row has a bit at or above the
// size of the other. Where every value has a row they are one run, whose length the compiler knows.
fn constraint_sound(rows: &Rows, at: usize, size: usize, other: usize) -> bool
    requires { (at + width ≤ 3840) × (size ≤ width) × (other ≤ width) }
    ensures { result ≡ constraint_fits width rows.now at size other }
{
    if size == WIDTH {
        return within(joined(rows, at, at + WIDTH), other);
    }
    let end = at + size;
    if joined(rows, end, at + WIDTH) != 0 {
        return false;
    }
    within(joined(rows, at, end), other)
}

// The rows of `i` and the higher `j`: all are empty where the pair is not stated.
fn pair_rows_sound(rows: &Rows, stated: bool, i: usize, j: usize, size: usize, other: usize) -> bool
    requires { (i < j) × (j < variables) × (size ≤ width) × (other ≤ width) }
    ensures { result ≡ pair_rows_fit width rows.now stated i j size other }
{
    let at = pairs::place(i, j);
    if !stated {
        return joined(rows, at, at + WIDTH) == 0;
    }
    constraint_sound(rows, at, size, other)
}

// The rows of `j` with each lower variable; `stated` is the word of `j`.
fn lower_rows_sound(sizes: &[u8; VARIABLES], stated: u32, rows: &Rows, j: usize) -> bool
    requires { (j < variables) × ((i : ℕ) → get_or sizes.now i 0 ≤ values_at_most) }
    ensures { result ≡ lower_rows_fit width sizes.now stated rows.now j }
{
    let other = wide(sizes[j]);
    every(
        j,
        |i| pair_rows_sound(rows, member(stated, i), i, j, wide(sizes[i]), other),
    )
}

pub fn rows_sound(n: usize, sizes: &[u8; VARIABLES], stated: &[u32; VARIABLES], rows: &Rows) -> bool
    requires { (1 ≤ n) × (n ≤ variables) × ((i : ℕ) → get_or sizes.now i 0 ≤ values_at_most) }
    ensures { result ≡ rows_fit width n sizes.now stated.now rows.now }
{
    if !past_sound(n, rows) {
        return false;
    }
    every(n, |j| lower_rows_sound(sizes, stated[j], rows, j))
}
