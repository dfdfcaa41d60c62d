// Variables of one value come first. Such a one costs no search, but each choice before it would pass through it: its value narrows the domains of all that it
// is stated with, lower or higher, and then it is tied no more.
ghost use Rattle.std.specs.Prelude.{true, ◌≡◌, ℕ, ◌<◌, ◌≤◌, length, get_or};
ghost use Rattle.bounded.specs.Table.{tabulate};
ghost use Rattle.words.specs.Word.{width};
ghost use Rattle.pairs.specs.Pairs.{variables};
ghost use Rattle.head.specs.Held.{held, sound_in};
ghost use Rattle.survey.specs.Settle.{single_of, single_word, Ready, SettledFrom, unstated_word, SettledIn};

use folds::{gather, table};
use head::Head;
use pairs::{Rows, VARIABLES};
use search_narrow::narrow_either;
use solutions::free_variables;
use survey_product::tied_variables;
use words::{count, lowest, member, without};

// What is searched once the variables of one value are settled.
#[derive(Clone, Copy)]
pub(crate) struct Settled {
    // The free variables, and those that are tied still.
    pub free: u32,
    pub left: u32,
    pub lists: [u32; VARIABLES],
    pub stated: [u32; VARIABLES],
}

// A tied variable has one value in its domain.
fn is_single(tied: u32, domain: u32, i: usize) -> bool
    requires { i < width }
    ensures { result ≡ single_of tied domain i }
{
    if !member(tied, i) {
        return false;
    }
    count(domain) == 1
}

// Those variables, as a word: by the domains as they are given, not as they are narrowed meanwhile.
fn single_variables(n: usize, tied: u32, domains: &[u32; VARIABLES]) -> u32
    requires { n ≤ variables }
    ensures { result ≡ single_word n tied domains.now }
{
    gather(n, |i| is_single(tied, domains[i], i))
}

// The value of each variable in `singles` narrows the lists of all that it is stated with.
fn narrow_lists<'a>(
    lists: &mut [u32; VARIABLES],
    rows: &Rows,
    singles: u32,
    domains: &'a [u32; VARIABLES],
    stated: &'a [u32; VARIABLES],
)
    requires { Ready singles domains.now stated.now × (length lists.old ≡ variables) }
    ensures { SettledFrom rows.now singles domains.now stated.now 0 lists.old lists.new }
{
    for i in words::members(singles) {
        let v = lowest(domains[i]);
        narrow_either(lists, rows, stated[i], i, v);
    }
}

// What `i` is stated with, but for the variables in `singles`.
fn unstated_word(singles: u32, stated: u32, i: usize) -> u32
    requires { i < width }
    ensures { result ≡ unstated_word singles stated i }
{
    if member(singles, i) {
        return 0;
    }
    without(stated, singles)
}

fn unstated(singles: u32, stated: [u32; VARIABLES]) -> [u32; VARIABLES]
    ensures { result ≡ tabulate variables (λ (i : ℕ). unstated_word singles (get_or stated i 0) i) }
{
    table(|i| unstated_word(singles, stated[i], i))
}

// The variables of one value are settled.
pub(crate) fn settle_singles(head: Head, rows: &Rows) -> Settled
    requires { sound_in head rows.now ≡ true }
    ensures { SettledIn (held head rows.now) result }
{
    let free = free_variables(head.n, &head.leaders);
    let tied = tied_variables(head.n, free, &head.stated);
    let singles = single_variables(head.n, tied, &head.domains);
    let mut lists = head.domains;
    narrow_lists(&mut lists, rows, singles, &head.domains, &head.stated);
    let stated = unstated(singles, head.stated);
    let left = tied_variables(head.n, free, &stated);
    Settled {
        free,
        left,
        lists,
        stated,
    }
}
