// What two variables allow, whichever of them is lower: rows are read through `row` and `partners`.
#![tactic(auto)]

ghost use Rattle.std.specs.Prelude.{◌≡◌, ◌^◌, ◌<◌, leb};
ghost use Rattle.bounded.specs.Bool.{and};
ghost use Rattle.words.specs.Word.{width, word};
ghost use Rattle.pairs.specs.Pairs.{variables, allows_of, partners_of, partners_within};

use pairs::{Rows, hits, place, union};
use words::{both, count, single};

// What its type says of a word, which is not known of one behind a reference.
fn known(x: u32) -> u32
    ensures { (result ≡ x) × (result < 2 ^ width) }
{
    x
}

// The values of `j` that go with value `a` of `i`; `j` is higher, so that this is a row as it stands. Short enough to be inlined in a loop over values.
pub fn stored_row(rows: &Rows, i: usize, j: usize, a: usize) -> u32
    requires { (i < j) × (j < variables) × (a < width) }
    ensures { result ≡ word width (allows_of width rows.now i j a) }
{
    known(rows[place(i, j) + a])
}

// The values of `j` that go with value `a` of `i`, whichever of the two is lower.
pub fn row(rows: &Rows, i: usize, j: usize, a: usize) -> u32
    requires { (i < variables) × (j < variables) × (i ≡ j → ⊥) × (a < width) }
    ensures { result ≡ word width (allows_of width rows.now i j a) }
{
    if i < j {
        return stored_row(rows, i, j, a);
    }
    hits(rows, place(j, i), single(a))
}

// The values of `j` that go with some value in `set` of `i`.
pub fn partners(rows: &Rows, i: usize, j: usize, set: u32) -> u32
    requires { (i < variables) × (j < variables) × (i ≡ j → ⊥) }
    ensures { result ≡ partners_of width rows.now i j set }
{
    if i < j {
        return union(rows, place(i, j), set);
    }
    hits(rows, place(j, i), set)
}

fn between(least: usize, x: usize, most: usize) -> bool
    ensures { result ≡ and (leb least x) (leb x most) }
{
    (least <= x) & (x <= most)
}

// Each value of the domain `di` of `i` has from `least` to `most` partners in the domain `dj` of `j`: the ones of row AND domain decide. It leaves at the
// first value that has not.
pub fn partners_within(
    rows: &Rows,
    i: usize,
    j: usize,
    di: u32,
    dj: u32,
    least: usize,
    most: usize,
) -> bool
    requires { (i < variables) × (j < variables) × (i ≡ j → ⊥) }
    ensures { result ≡ partners_within width rows.now i j di dj least most }
{
    for a in words::members(di) {
        let partners = count(both(dj, row(rows, i, j, a)));
        if !between(least, partners, most) {
            return false;
        }
    }
    true
}
