// Soundness of a head by itself: each sentence of document 01 is a test of its own. A sound state passes them all, so no test of one array leaves
// early. Every bit of every word is looked at, whatever the sizes.
#![tactic(auto)]

ghost use Rattle.std.specs.Prelude.{◌≡◌, ℕ, ◌<◌, ◌≤◌, get_or};
ghost use Rattle.pairs.specs.Pairs.{variables};
ghost use Rattle.head.specs.Held.{values_at_most};
ghost use Rattle.soundness_head.specs.Fits.{size_fits, sizes_all_fit, domains_fit, stated_with, variable_fits, pairs_fit, head_fits};

use folds::{every, gather};
use head::{Head, VALUES, VARIABLES};
use words::{member, wide, within};

// A size is 1 to 32, and 0 past `n`.
fn size_sound(n: usize, i: usize, size: usize) -> bool
    ensures { result ≡ size_fits n i size }
{
    if n <= i {
        return size == 0;
    }
    if size < 1 {
        return false;
    }
    size <= VALUES
}

fn sizes_sound(n: usize, sizes: &[u8; VARIABLES]) -> bool
    ensures { result ≡ sizes_all_fit n sizes.now }
{
    every(VARIABLES, |i| size_sound(n, i, wide(sizes[i])))
}

// Each domain lies within its size.
fn domains_sound(sizes: &[u8; VARIABLES], domains: &[u32; VARIABLES]) -> bool
    requires { (i : ℕ) → get_or sizes.now i 0 ≤ values_at_most }
    ensures { result ≡ domains_fit sizes.now domains.now }
{
    every(VARIABLES, |i| within(domains[i], wide(sizes[i])))
}

// The variables that say that they are stated with `i`.
fn stated_with(stated: &[u32; VARIABLES], i: usize) -> u32
    requires { i < variables }
    ensures { result ≡ stated_with stated.now i }
{
    gather(VARIABLES, |j| member(stated[j], i))
}

// The pairs of `i` lie below `n`, none is with `i` itself, and the others say the same. Past `n` there is none.
fn variable_sound(n: usize, stated: &[u32; VARIABLES], i: usize) -> bool
    requires { (n ≤ variables) × (i < variables) }
    ensures { result ≡ variable_fits n stated.now i }
{
    let members = stated[i];
    if n <= i {
        return members == 0;
    }
    if !within(members, n) {
        return false;
    }
    if member(members, i) {
        return false;
    }
    members == stated_with(stated, i)
}

fn pairs_sound(n: usize, stated: &[u32; VARIABLES]) -> bool
    requires { n ≤ variables }
    ensures { result ≡ pairs_fit n stated.now }
{
    every(VARIABLES, |i| variable_sound(n, stated, i))
}

// What the head says by itself. `n` is tested before any loop.
pub fn head_sound(head: Head) -> bool
    ensures { result ≡ head_fits head }
{
    let n = head.n;
    if n < 1 {
        return false;
    }
    if VARIABLES < n {
        return false;
    }
    if !sizes_sound(n, &head.sizes) {
        return false;
    }
    if !domains_sound(&head.sizes, &head.domains) {
        return false;
    }
    pairs_sound(n, &head.stated)
}
