// What the verdict and the writer ask of a state's head, and the solution of lowest values.
#![tactic(auto)]

ghost use Rattle.std.specs.Prelude.{◌≡◌, ℕ, ◌≤◌, get_or};
ghost use Rattle.bounded.specs.Table.{tabulate};
ghost use Rattle.words.specs.Word.{width};
ghost use Rattle.pairs.specs.Pairs.{variables};
ghost use Rattle.solutions.specs.Choices.{Led, Completed, domain_open, domains_open, lowest_of, side_apart, free_apart, fresh_value, fresh_parts};

use folds::{every, table};
use head::Head;
use pairs::{Rows, VARIABLES};
use solutions::{complete_values, free_variables, lowest_value};

// A free variable has a value left.
fn domain_open(leader: u8, domain: u32) -> bool
    ensures { result ≡ domain_open leader domain }
{
    if leader != 0 {
        return true;
    }
    domain != 0
}

pub fn domains_open<'a>(
    n: usize,
    leaders: &'a [u8; VARIABLES],
    domains: &'a [u32; VARIABLES],
) -> bool
    requires { n ≤ variables }
    ensures { result ≡ domains_open n leaders.now domains.now }
{
    every(n, |i| domain_open(leaders[i], domains[i]))
}

// A free variable is stated with none of the free ones.
fn side_apart(leader: u8, stated: u32, free: u32) -> bool
    ensures { result ≡ side_apart width leader stated free }
{
    if leader != 0 {
        return true;
    }
    words::both(stated, free) == 0
}

// No two free variables are stated together. No row is read: stated is the mark, whatever the rows allow.
pub fn free_apart<'a>(n: usize, leaders: &'a [u8; VARIABLES], stated: &'a [u32; VARIABLES]) -> bool
    requires { n ≤ variables }
    ensures { result ≡ free_apart n leaders.now stated.now }
{
    let free = free_variables(n, leaders);
    every(n, |i| side_apart(leaders[i], stated[i], free))
}

// The lowest value of each domain.
fn lowest_values(n: usize, domains: &[u32; VARIABLES]) -> [u8; VARIABLES]
    requires { n ≤ variables }
    ensures { result ≡ tabulate variables (lowest_of width n domains.now) }
{
    table(|i| if i < n { lowest_value(domains[i]) } else { 0 })
}

// The solution in which free variables take their lowest values.
pub fn lowest_solution<'a>(
    n: usize,
    domains: &'a [u32; VARIABLES],
    leaders: &'a [u8; VARIABLES],
    rows: &'a Rows,
) -> [u8; VARIABLES]
    requires { Led width n leaders.now (tabulate variables (lowest_of width n domains.now)) }
    ensures { Completed width n domains.now leaders.now rows.now (tabulate variables (lowest_of width n domains.now)) result }
{
    let mut values = lowest_values(n, domains);
    complete_values(n, domains, leaders, rows, &mut values);
    values
}

// A free variable with a full domain.
fn fresh_value(leader: u8, domain: u32, size: u8) -> bool
    requires { size ≤ width }
    ensures { result ≡ fresh_value width leader domain size }
{
    if leader != 0 {
        return false;
    }
    domain == words::full(words::wide(size))
}

// No follower, and each domain is full.
pub fn fresh_parts(head: Head) -> bool
    requires { (head.n ≤ variables) × ((i : ℕ) → get_or head.sizes i 0 ≤ width) }
    ensures { result ≡ fresh_parts width head.n head.sizes head.domains head.leaders }
{
    let n = head.n;
    every(
        n,
        |i| fresh_value(head.leaders[i], head.domains[i], head.sizes[i]),
    )
}
