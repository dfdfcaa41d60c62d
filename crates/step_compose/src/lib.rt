// Rules 1 and 2 of a follow step, on the array of rows.
#![tactic(auto)]

ghost use Rattle.std.specs.Prelude.{◌≡◌, List, ℕ, suc, ◌≤◌, ◌<◌, length};
ghost use Rattle.words.specs.Word.{width, word};
ghost use Rattle.pairs.specs.Pairs.{variables};
ghost use Rattle.step_compose.specs.Compose.{supported_at, composed_at, Apart, Unread, Composing};

use pairs::Rows;
use words::{WIDTH, both};

// Rule 1: the values of `di` that have a partner in `dj`.
pub fn supported(rows: &Rows, i: usize, j: usize, di: u32, dj: u32) -> u32
    requires { (i < variables) × (j < variables) × (i ≡ j → ⊥) }
    ensures { result ≡ supported_at width rows.now i j di dj }
{
    both(di, pairs_read::partners(rows, j, i, dj))
}

// One composition of rule 2: `j` is to follow `i`, and `k` is a third variable. `ti` is the new domain of `i`, `dj` and `dk` are those of `j` and `k`, and
// `was` says whether `i`, `k` was stated before.
#[derive(Clone, Copy)]
pub struct Third {
    pub i: usize,
    pub j: usize,
    pub k: usize,
    pub ti: u32,
    pub dj: u32,
    pub dk: u32,
    pub was: bool,
}

// Rule 2 for value `c` of `k`: the values of `i` that go with it. A value outside `dk` has none, and a pair that was stated bars what it barred.
fn composed_row(rows: &Rows, t: Third, c: usize) -> u32
    requires { Apart t × (c < width) }
    ensures { result ≡ word width (λ (a : ℕ). composed_at width rows.now t a c) }
{
    if !words::member(t.dk, c) {
        return 0;
    }
    let joining = both(t.dj, pairs_read::row(rows, t.k, t.j, c));
    let joined = both(t.ti, pairs_read::partners(rows, t.j, t.i, joining));
    if !t.was {
        return joined;
    }
    both(joined, pairs_read::row(rows, t.k, t.i, c))
}

// The turn of value `c` of `k`: what rule 2 says for it is found and stored, and the pair reads alike from both sides, before the next value is looked at.
fn compose_value(rows: &mut Rows, t: Third, c: usize)
    requires { Apart t × (c < width) × (length rows.old ≡ 3840) }
    ensures by_index { (given before : List ℕ) → Composing width given before rows.old t c → Unread width given before t
        → Composing width given before rows.new t (suc c) }
    ensures rows_len_unchanged { length rows.new ≡ length rows.old }
{
    let members = composed_row(rows, t, c);
    pairs_store::put(rows, t.k, t.i, c, members);
}

// The turns of the values of `k` below `n`, the lowest first: the pair is then as a reader finds it who stops there.
fn compose_below(rows: &mut Rows, t: Third, n: usize)
    requires { Apart t × (n ≤ width) × (length rows.old ≡ 3840) }
    ensures { (given : List ℕ) → Unread width given rows.old t
        → Composing width given rows.old rows.new t n }
{
    for c in 0..n {
        compose_value(rows, t, c);
    }
}

// Rule 2 for the third variable `k`: the turns of all its values.
pub fn compose(rows: &mut Rows, t: Third)
    requires { Apart t × (length rows.old ≡ 3840) }
    ensures { (given : List ℕ) → Unread width given rows.old t
        → Composing width given rows.old rows.new t width }
{
    compose_below(rows, t, WIDTH);
}
