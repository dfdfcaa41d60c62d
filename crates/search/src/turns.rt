// The turns of the search: choosing a variable and trying its values call each other; the variables that are left and the values that are not tried yet
// fall. Rows are lent, and each value that is taken narrows a copy of the domains, 64 bytes, and of nothing else.
ghost use Rattle.std.specs.Prelude.{true, ◌≡◌, ℕ, ◌<◌, length};
ghost use Rattle.bounded.specs.Fold.{first};
ghost use Rattle.words.specs.Word.{width, has};
ghost use Rattle.pairs.specs.Pairs.{variables};
ghost use Rattle.search.specs.Turns.{ChosenFrom, TriedFrom};

use pairs::{Rows, VARIABLES};
use search_narrow::narrow;
use words::{both, dropped, lowest};

// "It picks the next option": the lowest of those that are left. Where a choice is found its values are written.
#[cycle(attempt_choose)]
pub(crate) fn choose(
    stated: &[u32; VARIABLES],
    rows: &Rows,
    domains: &[u32; VARIABLES],
    left: u32,
    values: &mut [u8; VARIABLES],
) -> bool
    requires { ((j : ℕ) → has left j ≡ true → j < variables) × (length domains.now ≡ variables) × (length values.old ≡ variables) }
    ensures { ChosenFrom width stated.now rows.now domains.now left result values.old values.new }
{
    if left == 0 {
        return true;
    }
    let k = lowest(left);
    attempt(stated, rows, domains, k, domains[k], dropped(left), values)
}

// "lower values first"
fn next_value(rest: u32) -> usize
    ensures { result ≡ first width (has rest) }
{
    lowest(rest)
}

// It "tries its values, and so on down": `rest` are those of `k` that are not tried yet. A value that an earlier choice forbids is not among them. Where one
// narrows the domain of no variable that is left, and these cannot be chosen, they cannot be with any other value of `k` either.
#[cycle(attempt_choose)]
fn attempt(
    stated: &[u32; VARIABLES],
    rows: &Rows,
    domains: &[u32; VARIABLES],
    k: usize,
    rest: u32,
    left: u32,
    values: &mut [u8; VARIABLES],
) -> bool
    requires { (k < variables) × ((j : ℕ) → has left j ≡ true → (k < j) × (j < variables)) × (length domains.now ≡ variables) × (length values.old ≡ variables) }
    ensures { TriedFrom width stated.now rows.now domains.now k rest left result values.old values.new }
{
    if rest == 0 {
        return false;
    }
    let v = next_value(rest);
    let mut later = *domains;
    let changed = narrow(&mut later, rows, both(stated[k], left), k, v);
    if choose(stated, rows, &later, left, values) {
        values[k] = v as u8;
        return true;
    }
    if !changed {
        return false;
    }
    attempt(stated, rows, domains, k, dropped(rest), left, values)
}
