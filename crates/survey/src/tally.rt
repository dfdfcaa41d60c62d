// The tally of the survey: choosing a variable and trying its values call each other, as in the search, and all values are tried. Rows are lent, and each value
// that is taken narrows a copy of the domains, 64 bytes, and of nothing else. One run counts the choices and marks their values.
ghost use Rattle.std.specs.Prelude.{true, ◌≡◌, ℕ, ◌+◌, ◌<◌, ◌≤◌, min, eqb, ltb, length};
ghost use Rattle.bounded.specs.Bool.{and, or};
ghost use Rattle.bounded.specs.Fold.{count};
ghost use Rattle.words.specs.Word.{width, has};
ghost use Rattle.network.specs.Survey.{count_limit};
ghost use Rattle.pairs.specs.Pairs.{variables};
ghost use Rattle.survey.specs.Tally.{TalliedFrom, TriedOf};

use pairs::{Rows, VARIABLES};
use search_narrow::narrow;
use words::{both, count, dropped, either, lowest, single};

// The sum, or the most that a count holds.
fn capped(a: u64, b: u64) -> u64
    ensures { result ≡ min (a + b) count_limit }
{
    a.saturating_add(b)
}

// `word` with the value `v`, where there is a choice with it.
fn marked(word: u32, v: usize, here: u64) -> u32
    requires { v < width }
    ensures { (u : ℕ) → has result u ≡ or (has word u) (and (ltb 0 here) (eqb u v)) }
{
    if here == 0 {
        return word;
    }
    either(word, single(v))
}

// The members of either word.
fn joined(x: u32, y: u32) -> u32
    ensures { (u : ℕ) → has result u ≡ or (has x u) (has y u) }
{
    either(x, y)
}

// How many members a word has: within any size that holds them all.
fn members(x: u32) -> u64
    ensures { (result ≤ width) × ((size : ℕ) → ((u : ℕ) → has x u ≡ true → u < size) → result ≡ count size (has x)) }
{
    count(x) as u64
}

// How many choices there are of the variables that are left; their values are marked. Each value of the last one is a choice.
#[cycle(tally_try_values)]
pub(crate) fn tally(
    stated: &[u32; VARIABLES],
    rows: &Rows,
    domains: &[u32; VARIABLES],
    left: u32,
    used: &mut [u32; VARIABLES],
) -> u64
    requires { ((j : ℕ) → has left j ≡ true → j < variables) × (length domains.now ≡ variables) × (length used.old ≡ variables) }
    ensures { TalliedFrom stated.now rows.now domains.now left result used.old used.new }
{
    if left == 0 {
        return 1;
    }
    let k = lowest(left);
    let domain = domains[k];
    let after = dropped(left);
    if after == 0 {
        let word = joined(used[k], domain);
        used[k] = word;
        return members(domain);
    }
    try_values(stated, rows, domains, k, domain, after, 0, used)
}

// `rest` are the values of `k` that are not tried yet, and `counted` the choices with those that are. A value that an earlier choice forbids is not among them.
#[cycle(tally_try_values)]
fn try_values(
    stated: &[u32; VARIABLES],
    rows: &Rows,
    domains: &[u32; VARIABLES],
    k: usize,
    rest: u32,
    left: u32,
    counted: u64,
    used: &mut [u32; VARIABLES],
) -> u64
    requires { (k < variables) × ((j : ℕ) → has left j ≡ true → (k < j) × (j < variables)) × (length domains.now ≡ variables) × (length used.old ≡ variables) }
    ensures { TriedOf stated.now rows.now domains.now k rest left counted result used.old used.new }
{
    if rest == 0 {
        return counted;
    }
    let v = lowest(rest);
    let mut later = *domains;
    narrow(&mut later, rows, both(stated[k], left), k, v);
    let here = tally(stated, rows, &later, left, used);
    let word = marked(used[k], v, here);
    used[k] = word;
    try_values(
        stated,
        rows,
        domains,
        k,
        dropped(rest),
        left,
        capped(counted, here),
        used,
    )
}
