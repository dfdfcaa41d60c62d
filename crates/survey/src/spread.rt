// From the choices of the tied variables to those of all: counts are multiplied, with a cap and a flag, and each variable gets the word of its values.
ghost use Rattle.std.specs.Prelude.{◌≡◌, ℕ, ◌*◌, ◌^◌, ◌<◌, ◌≤◌, get_or};
ghost use Rattle.bounded.specs.Fold.{product};
ghost use Rattle.bounded.specs.Table.{tabulate};
ghost use Rattle.words.specs.Word.{width};
ghost use Rattle.pairs.specs.Pairs.{variables};
ghost use Rattle.survey.specs.Spread.{Counts, besides_of, used_of, word_of, LedIn};

use folds::table;
use pairs::{Rows, VARIABLES};
use pairs_read::partners;
use words::{both, member, wide};

// A count, capped, and whether there are more.
#[derive(Clone, Copy)]
pub(crate) struct Counted {
    pub count: u64,
    pub more: bool,
}

// One factor more.
fn times(counted: Counted, values: u64) -> Counted
    ensures { (x : ℕ) → Counts counted x → Counts result (values * x) }
{
    if values == 0 {
        return Counted {
            count: 0,
            more: false,
        };
    }
    match values.checked_mul(counted.count) {
        Some(count) => Counted { count, ..counted },
        None => Counted {
            count: u64::MAX,
            more: true,
        },
    }
}

// How many values a free variable that is tied no more multiplies the choices by.
fn besides(others: u32, list: u32, i: usize) -> u64
    requires { i < width }
    ensures { result ≡ besides_of others list i }
{
    if !member(others, i) {
        return 1;
    }
    words::count(list) as u64
}

// "An option that nothing ties down multiplies the builds".
pub(crate) fn multiplied(n: usize, others: u32, lists: &[u32; VARIABLES], tallied: u64) -> Counted
    requires { n ≤ variables }
    ensures { Counts result (product n (λ (i : ℕ). besides_of others (get_or lists.now i 0) i) * tallied) }
{
    let mut counted = Counted {
        count: tallied,
        more: false,
    };
    for i in 0..n {
        counted = times(counted, besides(others, lists[i], i));
    }
    counted
}

// The values of a free variable: those that are marked where it is tied still, and else its list.
fn used_word(left: u32, used: u32, list: u32, i: usize) -> u32
    requires { i < width }
    ensures { (result ≡ used_of left used list i) × (result < 2 ^ width) }
{
    if member(left, i) {
        return used;
    }
    list
}

// The values of any variable: a follower has the partners of its leader's.
fn any_word<'a>(
    leaders: &'a [u8; VARIABLES],
    domains: &'a [u32; VARIABLES],
    lists: &'a [u32; VARIABLES],
    rows: &Rows,
    left: u32,
    used: &[u32; VARIABLES],
    i: usize,
) -> u32
    requires { (i < variables) × LedIn leaders.now i }
    ensures { (result ≡ word_of leaders.now domains.now lists.now rows.now left used.now i) × (result < 2 ^ width) }
{
    let leader = leaders[i];
    if leader == 0 {
        return used_word(left, used[i], lists[i], i);
    }
    let l = wide(leader) - 1;
    let whole = used_word(left, used[l], lists[l], l);
    both(domains[i], partners(rows, l, i, whole))
}

pub(crate) fn all_words<'a>(
    leaders: &'a [u8; VARIABLES],
    domains: &'a [u32; VARIABLES],
    lists: &'a [u32; VARIABLES],
    rows: &Rows,
    left: u32,
    used: &[u32; VARIABLES],
) -> [u32; VARIABLES]
    requires { (i : ℕ) → i < variables → LedIn leaders.now i }
    ensures { (result ≡ tabulate variables (word_of leaders.now domains.now lists.now rows.now left used.now)) × ((k : ℕ) → get_or result k 0 < 2 ^ width) }
{
    table(|i| any_word(leaders, domains, lists, rows, left, used, i))
}
