// The rows of one pair where they stand: a run of 32.
ghost use Rattle.std.specs.Prelude.{◌≡◌, ℕ, ◌+◌, ◌-◌, ◌*◌, ◌≤◌, ◌<◌};
ghost use Rattle.bounded.specs.Bool.{and};
ghost use Rattle.bounded.specs.Fold.{some};
ghost use Rattle.words.specs.Word.{width, has};
ghost use Rattle.pairs.specs.Pairs.{variables, slot, hits_at, union_at, join_of};

use crate::Rows;
use folds::gather;
use words::{WIDTH, either};

// Where the rows of `i` and the higher `j` begin.
pub fn place(i: usize, j: usize) -> usize
    requires { (i < j) × (j < variables) }
    ensures { (result ≡ slot i j * width) × (result + width ≤ 3840) }
{
    (j * (j - 1) / 2 + i) * WIDTH
}

// Two words have a common member.
fn meets(x: u32, y: u32) -> bool
    ensures { result ≡ some width (λ (v : ℕ). and (has x v) (has y v)) }
{
    (x & y) != 0
}

// The values whose row has a member of `set`. All rows are looked at, with no branch for any: the compiler makes vectors of it.
pub fn hits(rows: &Rows, at: usize, set: u32) -> u32
    requires { at + width ≤ 3840 }
    ensures { result ≡ hits_at width rows.now at set }
{
    gather(WIDTH, |a| meets(rows[at + a], set))
}

// What the rows of the values in `set` have together.
pub fn union(rows: &Rows, at: usize, set: u32) -> u32
    requires { at + width ≤ 3840 }
    ensures { result ≡ union_at width rows.now at set }
{
    let mut all: u32 = 0;
    for a in words::members(set) {
        all = either(all, rows[at + a]);
    }
    all
}

// What the rows from `at` up to `end` have together. By index: over a part of the slice four rows take 1.6 of the time.
pub fn joined(rows: &Rows, at: usize, end: usize) -> u32
    requires { (at ≤ end) × (end ≤ 3840) }
    ensures { result ≡ join_of width rows.now at (end - at) }
{
    let mut all: u32 = 0;
    for k in at..end {
        all = either(all, rows[k]);
    }
    all
}
