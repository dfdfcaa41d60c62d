// What refuses a table for two variables.
#![tactic(auto)]

ghost use Rattle.std.specs.Prelude.{List, ◌≡◌, ℕ, ◌-◌, ◌≤◌, eqb, ltb, get_or};
ghost use Rattle.bounded.specs.Bool.{or, not, if};
ghost use Rattle.words.specs.Word.{width};
ghost use Rattle.network.specs.Added.{add_refusal};
ghost use Rattle.pairs.specs.Pairs.{variables};
ghost use Rattle.head.specs.Held.{values_at_most, held};
ghost use Rattle.answers.specs.Answers.{outcome_number};
ghost use Rattle.step_add_judge.specs.Judging.{rows_within};

use cause::Cause;
use head::Head;
use words::wide;

// "option number 0 or above n"
fn outside(n: usize, x: usize) -> bool
    ensures { result ≡ or (eqb x 0) (ltb n x) }
{
    (x == 0) | (n < x)
}

// The size of the variable with the number `x`, whoever leads it.
fn size_of(head: Head, x: usize) -> usize
    requires { (1 ≤ x) × (x ≤ variables) }
    ensures { result ≡ get_or head.sizes (x - 1) 0 }
{
    wide(head.sizes[x - 1])
}

// There are `size` rows, and none has a bit at or above `other`.
fn rows_fit(table: &[u32], size: usize, other: usize) -> bool
    requires { other ≤ width }
    ensures { result ≡ rows_within table.now size other }
{
    if table.len() != size {
        return false;
    }
    for c in 0..table.len() {
        if !words::within(table[c], other) {
            return false;
        }
    }
    true
}

// Of two variables: "then 21 for two equal options, then 22 for a wrong count of rows or a bit at or above the size".
fn decided(same: bool, fits: bool) -> Result<(), Cause>
    ensures { outcome_number result ≡ if same 21 (if (not fits) 22 0) }
{
    if same {
        return Err(Cause::SameVariables);
    }
    if !fits {
        return Err(Cause::TableRows);
    }
    Ok(())
}

// What refuses the table, variables counted from 1. Tested upward: 10, 21, 22. It goes by n and the sizes alone, so that no rows are looked at.
pub fn judge_table(head: Head, first: usize, second: usize, table: &[u32]) -> Result<(), Cause>
    requires { (head.n ≤ variables) × ((i : ℕ) → get_or head.sizes i 0 ≤ values_at_most) }
    ensures { (rows : List ℕ) → outcome_number result ≡ add_refusal (held head rows) first second table.now }
{
    let n = head.n;
    if outside(n, first) {
        return Err(Cause::VariableNumber);
    }
    if outside(n, second) {
        return Err(Cause::VariableNumber);
    }
    let size = size_of(head, first);
    let other = size_of(head, second);
    decided(first == second, rows_fit(table, size, other))
}
