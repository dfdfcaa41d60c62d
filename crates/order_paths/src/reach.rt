// Edges, paths and who governs whom, in sixteen words each.
ghost use Rattle.std.specs.Prelude.{true, ◌≡◌, ℕ, ◌≤◌, ◌<◌, eqb, ltb, get_or};
ghost use Rattle.bounded.specs.Bool.{and, not, or, if};
ghost use Rattle.bounded.specs.Table.{tabulate};
ghost use Rattle.words.specs.Word.{width, has, word};
ghost use Rattle.network.specs.Reach.{via};
ghost use Rattle.pairs.specs.Pairs.{variables, partners_within};
ghost use Rattle.head.specs.Held.{held, sound_in};
ghost use Rattle.order_paths.specs.Paths.{edges_of, paths_of, over_of};

use crate::partners::functional;
use folds::{gather, table};
use head::{Head, Rows, VARIABLES};
use words::{either, member, single, without};

// `x`, and `v` too where `also` says so.
fn joined_if(x: u32, v: usize, also: bool) -> u32
    requires { v < width }
    ensures { result ≡ word width (λ (u : ℕ). or (has x u) (and also (eqb u v))) }
{
    if !also {
        return x;
    }
    either(x, single(v))
}

// The variables that `i` leads to: those of `stated`, which it is stated with, to which its table is functional.
fn leads_to(rows: &Rows, domains: &[u32; VARIABLES], stated: u32, i: usize) -> u32
    requires { (i < variables) × ((j : ℕ) → has stated j ≡ true → (j < variables) × (i ≡ j → ⊥)) }
    ensures { result ≡ word width (λ (j : ℕ). and (has stated j) (partners_within width rows.now i j (get_or domains.now i 0) (get_or domains.now j 0) 0 1)) }
{
    let mut found: u32 = 0;
    for j in words::members(stated) {
        found = joined_if(found, j, functional(rows, i, j, domains[i], domains[j]));
    }
    found
}

// Bit `j` of word `i`: their table is stated, and functional from `i` to `j`.
pub fn edges(head: Head, rows: &Rows) -> [u32; VARIABLES]
    requires { sound_in head rows.now ≡ true }
    ensures { result ≡ edges_of (held head rows.now) }
{
    table(|i| leads_to(rows, &head.domains, head.stated[i], i))
}

// Each variable with itself besides.
fn with_own(edges: [u32; VARIABLES]) -> [u32; VARIABLES]
    ensures { result ≡ tabulate variables (λ (i : ℕ). word width (via (λ (x y : ℕ). has (get_or edges x 0) y) 0 i)) }
{
    table(|i| either(single(i), edges[i]))
}

// Row `x`, joined with the row `via` of `m` where it has `m`.
fn through(x: u32, via: u32, m: usize) -> u32
    requires { m < width }
    ensures { result ≡ if (has x m) (word width (λ (j : ℕ). or (has x j) (has via j))) x }
{
    if !member(x, m) {
        return x;
    }
    either(x, via)
}

// A round of Warshall: paths that go through `m` too.
fn round(paths: [u32; VARIABLES], m: usize) -> [u32; VARIABLES]
    requires { m < variables }
    ensures { result ≡ tabulate variables (λ (i : ℕ). if (has (get_or paths i 0) m) (word width (λ (j : ℕ). or (has (get_or paths i 0) j) (has (get_or paths m 0) j))) (get_or paths i 0)) }
{
    let via = paths[m];
    table(|i| through(paths[i], via, m))
}

// The paths of edges, through the first `n` variables.
pub fn closure(n: usize, edges: [u32; VARIABLES]) -> [u32; VARIABLES]
    requires { n ≤ variables }
    ensures { result ≡ tabulate variables (λ (i : ℕ). word width (via (λ (x y : ℕ). has (get_or edges x 0) y) n i)) }
{
    let mut paths = with_own(edges);
    for m in 0..n {
        // Under a name of its own: the borrow check refuses an array that the call's result is written over.
        let next = round(paths, m);
        paths = next;
    }
    paths
}

// Bit `j` of word `i`: there is a path from `i` to `j`.
pub fn paths(head: Head, rows: &Rows) -> [u32; VARIABLES]
    requires { sound_in head rows.now ≡ true }
    ensures { result ≡ paths_of (held head rows.now) }
{
    closure(head.n, edges(head, rows))
}

// The variables from which there is a path to `i`, and none back.
fn over(paths: &[u32; VARIABLES], i: usize) -> u32
    requires { i < variables }
    ensures { result ≡ word width (λ (j : ℕ). and (and (ltb j variables) (has (get_or paths.now j 0) i)) (not (has (get_or paths.now i 0) j))) }
{
    let column = gather(VARIABLES, |j| member(paths[j], i));
    without(column, paths[i])
}

// Bit `j` of word `i`: `j` governs `i`.
pub fn governors(head: Head, rows: &Rows) -> [u32; VARIABLES]
    requires { sound_in head rows.now ≡ true }
    ensures { result ≡ over_of (held head rows.now) }
{
    let reached = paths(head, rows);
    table(|i| over(&reached, i))
}
