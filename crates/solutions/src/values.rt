// Values against the lent arrays of a state: tests, completion and the lowest solution.
ghost use Rattle.std.specs.Prelude.{◌≡◌, true, ℕ, suc, ◌<◌, ◌≤◌, length, get_or};
ghost use Rattle.bounded.specs.Fold.{first};
ghost use Rattle.words.specs.Word.{width, has};
ghost use Rattle.pairs.specs.Pairs.{variables, allows_of};
ghost use Rattle.solutions.specs.Choices.{values_below, value_kept, values_kept, among_kept, pairs_kept, Mirrored, partner_of, completed_value, Led, Completed, LeaderReady, free_word};

use folds::{every, gather};
use pairs::{Rows, VARIABLES};
use words::WIDTH;

// Each value is below its size.
pub fn values_below(n: usize, sizes: &[u8; VARIABLES], values: &[u8]) -> bool
    requires { (n ≤ variables) × (n ≤ length values.now) }
    ensures { result ≡ values_below n sizes.now values.now }
{
    every(n, |i| values[i] < sizes[i])
}

// A number is a member. Numbers run past the bits of a word, members do not.
pub fn has_number(members: u32, v: usize) -> bool
    ensures { result ≡ has members v }
{
    if WIDTH <= v {
        return false;
    }
    words::member(members, v)
}

// A value is a member.
fn has_value(members: u32, value: u8) -> bool
    ensures { result ≡ has members value }
{
    has_number(members, words::wide(value))
}

// The value of a free variable is in its domain.
fn value_kept(leader: u8, domain: u32, value: u8) -> bool
    ensures { result ≡ value_kept leader domain value }
{
    if leader != 0 {
        return true;
    }
    has_value(domain, value)
}

pub fn values_kept<'a>(
    n: usize,
    leaders: &'a [u8; VARIABLES],
    domains: &'a [u32; VARIABLES],
    values: &[u8],
) -> bool
    requires { (n ≤ variables) × (n ≤ length values.now) }
    ensures { result ≡ values_kept n leaders.now domains.now values.now }
{
    every(n, |i| value_kept(leaders[i], domains[i], values[i]))
}

// The free variables, as a word.
pub fn free_variables(n: usize, leaders: &[u8; VARIABLES]) -> u32
    requires { n ≤ variables }
    ensures { result ≡ free_word n leaders.now }
{
    gather(n, |i| leaders[i] == 0)
}

// Value `a` of `i` goes with value `b` of the higher `j`: it is a member of the row of `a`.
fn row_allows(rows: &Rows, i: usize, j: usize, a: u8, b: u8) -> bool
    requires { (i < j) × (j < variables) }
    ensures { result ≡ allows_of width rows.now i j a b }
{
    let value = words::wide(a);
    if WIDTH <= value {
        return false;
    }
    has_value(pairs_read::stored_row(rows, i, j, value), b)
}

// The pairs of a free variable `i` with those of `among`, all of them higher, allow their two values.
fn among_kept(leader: u8, among: u32, rows: &Rows, values: &[u8], i: usize) -> bool
    requires { (i < length values.now) × ((j : ℕ) → has among j ≡ true → (i < j) × (j < variables) × (j < length values.now)) }
    ensures { result ≡ among_kept width leader among rows.now values.now i }
{
    if leader != 0 {
        return true;
    }
    for j in words::members(among) {
        if !row_allows(rows, i, j, values[i], values[j]) {
            return false;
        }
    }
    true
}

// Each stated pair of two free variables allows its two values. Each is looked at once, from its lower variable.
pub fn pairs_kept<'a>(
    n: usize,
    leaders: &'a [u8; VARIABLES],
    stated: &'a [u32; VARIABLES],
    rows: &'a Rows,
    values: &[u8],
) -> bool
    requires { (n ≤ variables) × (n ≤ length values.now) × Mirrored stated.now }
    ensures { result ≡ pairs_kept width n leaders.now stated.now rows.now values.now }
{
    let free = free_variables(n, leaders);
    for i in 0..n {
        let others = words::both(stated[i], free);
        let later = words::without(others, words::full(i + 1));
        if !among_kept(leaders[i], later, rows, values, i) {
            return false;
        }
    }
    true
}

// The lowest value of a domain: its trailing zeros.
pub fn lowest_value(domain: u32) -> u8
    ensures { result ≡ first width (has domain) }
{
    words::lowest(domain) as u8
}

// The value in `domain` of `i` that goes with value `a` of `l`: trailing zeros name the single partner.
pub fn partner_of(rows: &Rows, l: usize, i: usize, domain: u32, a: usize) -> u8
    requires { (l < variables) × (i < variables) × (l ≡ i → ⊥) × (a < width) }
    ensures { result ≡ partner_of width rows.now l i domain a }
{
    lowest_value(words::both(domain, pairs_read::row(rows, l, i, a)))
}

// A free variable keeps its value; a follower gets the partner of its leader's.
fn value_completed(
    domains: &[u32; VARIABLES],
    leaders: &[u8; VARIABLES],
    rows: &Rows,
    values: &[u8],
    i: usize,
) -> u8
    requires { (i < variables) × (i < length values.now) × ((l : ℕ) → get_or leaders.now i 0 ≡ suc l → LeaderReady width i l values.now) }
    ensures { result ≡ completed_value width domains.now leaders.now rows.now values.now i }
{
    let leader = leaders[i];
    if leader == 0 {
        return values[i];
    }
    let l = words::wide(leader) - 1;
    partner_of(rows, l, i, domains[i], words::wide(values[l]))
}

// Writes the values of followers. A leader is free, so its value is that of the entry, whichever of the two is written first.
pub fn complete_values<'a>(
    n: usize,
    domains: &'a [u32; VARIABLES],
    leaders: &'a [u8; VARIABLES],
    rows: &'a Rows,
    values: &mut [u8],
)
    requires { Led width n leaders.now values.old }
    ensures { Completed width n domains.now leaders.now rows.now values.old values.new }
{
    for i in 0..n {
        let value = value_completed(domains, leaders, rows, values, i);
        values[i] = value;
    }
}
