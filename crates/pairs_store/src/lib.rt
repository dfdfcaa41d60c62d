// Storing what two variables allow, whichever of them is lower.
#![tactic(auto)]

ghost use Rattle.std.specs.Prelude.{◌≡◌, ℕ, ◌+◌, ◌≤◌, ◌<◌, eqb, length};
ghost use Rattle.bounded.specs.Bool.{and, if};
ghost use Rattle.words.specs.Word.{width, has, word};
ghost use Rattle.pairs.specs.Pairs.{variables};
ghost use Rattle.pairs.specs.Frames.{RowPut, Cleared, RunPut};

use pairs::{Rows, place, put_row};
use words::WIDTH;

// The word of `a` where `b` is a member of `x`, and else of nothing.
fn moved(x: u32, b: usize, a: usize) -> u32
    requires { (a < width) × (b < width) }
    ensures { result ≡ word width (λ (v : ℕ). and (eqb v a) (has x b)) }
{
    ((x >> b) & 1) << a
}

// `row` with `a` a member exactly where `b` is one of `x`.
fn marked(row: u32, a: usize, x: u32, b: usize) -> u32
    requires { (a < width) × (b < width) }
    ensures { result ≡ word width (λ (v : ℕ). if (eqb v a) (has x b) (has row v)) }
{
    words::either(words::without(row, words::single(a)), moved(x, b, a))
}

// Value `a` of `i` goes with the members of `x`; `j` is lower, so that this is a column of its rows.
fn put_column(rows: &mut Rows, i: usize, j: usize, a: usize, x: u32)
    requires { (j < i) × (i < variables) × (a < width) × (length rows.old ≡ 3840) }
    ensures { RowPut width rows.old rows.new i j a x }
{
    let at = place(j, i);
    for b in 0..WIDTH {
        rows[at + b] = marked(rows[at + b], a, x, b);
    }
}

// Value `a` of `i` goes with the members of `x`, whichever of the two is lower.
pub fn put(rows: &mut Rows, i: usize, j: usize, a: usize, x: u32)
    requires { (i < variables) × (j < variables) × (i ≡ j → ⊥) × (a < width) × (length rows.old ≡ 3840) }
    ensures { RowPut width rows.old rows.new i j a x }
{
    if i < j {
        put_row(rows, i, j, a, x);
        return;
    }
    put_column(rows, i, j, a, x);
}

// The rows from `at` on become 0.
fn clear_run(rows: &mut Rows, at: usize)
    requires { (at + width ≤ 3840) × (length rows.old ≡ 3840) }
    ensures { RunPut rows.old rows.new at (λ (a : ℕ). 0) width }
{
    rows[at..at + WIDTH].fill(0);
}

// The pair of `i` and `j` allows nothing any more.
pub fn clear(rows: &mut Rows, i: usize, j: usize)
    requires { (i < variables) × (j < variables) × (i ≡ j → ⊥) × (length rows.old ≡ 3840) }
    ensures { Cleared width rows.old rows.new i j }
{
    if i < j {
        clear_run(rows, place(i, j));
        return;
    }
    clear_run(rows, place(j, i));
}
