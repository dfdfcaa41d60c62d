// Whether a pair is functional: most pairs that are not say so at once, and the others in one pass over their rows.
ghost use Rattle.std.specs.Prelude.{true, false, ◌≡◌, ◌<◌};
ghost use Rattle.words.specs.Word.{width};
ghost use Rattle.pairs.specs.Pairs.{variables, partners_within};
ghost use Rattle.order_paths.specs.Crowded.{crowded_of};

use folds::gather;
use pairs::Rows;
use pairs_read::stored_row;
use words::{WIDTH, both, crowded, either, lowest};

// The values of `i` that have two partners or more in the domain `dj` of the higher `j`: their rows say it.
fn crowded_up(rows: &Rows, i: usize, j: usize, dj: u32) -> u32
    requires { (i < j) × (j < variables) }
    ensures { result ≡ crowded_of width rows.now i j dj }
{
    gather(WIDTH, |a| crowded(both(dj, stored_row(rows, i, j, a))))
}

// The lowest value of the domain `di` of `i` has two partners or more in the domain `dj` of the higher `j`. It says no to most tables that are not functional.
fn lowest_crowded(rows: &Rows, i: usize, j: usize, di: u32, dj: u32) -> bool
    requires { (i < j) × (j < variables) }
    ensures { result ≡ true → partners_within width rows.now i j di dj 0 1 ≡ false }
{
    if di == 0 {
        return false;
    }
    crowded(both(dj, stored_row(rows, i, j, lowest(di))))
}

// No value of the domain `di` of `i` stands in two rows of the values of the domain `dj` of the lower `j`. It leaves at the first row that shares one.
fn functional_down(rows: &Rows, i: usize, j: usize, di: u32, dj: u32) -> bool
    requires { (j < i) × (i < variables) }
    ensures { result ≡ partners_within width rows.now i j di dj 0 1 }
{
    let mut seen: u32 = 0;
    for b in words::members(dj) {
        let row = both(di, stored_row(rows, j, i, b));
        if both(seen, row) != 0 {
            return false;
        }
        seen = either(seen, row);
    }
    true
}

// No value of the domain `di` of `i` has two partners in the domain `dj` of `j`.
pub fn functional(rows: &Rows, i: usize, j: usize, di: u32, dj: u32) -> bool
    requires { (i < variables) × (j < variables) × (i ≡ j → ⊥) }
    ensures { result ≡ partners_within width rows.now i j di dj 0 1 }
{
    if i < j {
        if lowest_crowded(rows, i, j, di, dj) {
            return false;
        }
        return both(di, crowded_up(rows, i, j, dj)) == 0;
    }
    functional_down(rows, i, j, di, dj)
}
