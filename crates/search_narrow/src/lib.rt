// A value that a variable takes narrows the domains of those that are still to be chosen: for the search and the survey.
#![tactic(auto)]

ghost use Rattle.std.specs.Prelude.{true, List, ◌≡◌, ℕ, ◌<◌, length};
ghost use Rattle.words.specs.Word.{width, has, word};
ghost use Rattle.pairs.specs.Pairs.{variables, allows_of};
ghost use Rattle.search_narrow.specs.Narrow.{Narrowed};

use pairs::{Rows, VARIABLES};
use pairs_read::{row, stored_row};
use words::{both, members};

// Narrows the domains of the variables in `among` to what `allowed` gives for each. It says whether any of them lost a value.
fn narrow_to<F: Fn(usize) -> u32>(domains: &mut [u32; VARIABLES], among: u32, allowed: F) -> bool
    requires { ((j : ℕ) → has among j ≡ true → j < variables) × ((j : ℕ) → has among j ≡ true → F.pre allowed j) × (length domains.old ≡ variables) }
    ensures { (rows : List ℕ) (k v : ℕ) → ((j : ℕ) (x : ℕ) → has among j ≡ true → F.post allowed j x → x ≡ word width (allows_of width rows k j v)) → Narrowed width rows among k v result domains.old domains.new }
{
    let mut changed = false;
    for j in members(among) {
        let before = domains[j];
        let after = both(before, allowed(j));
        changed |= after != before;
        domains[j] = after;
    }
    changed
}

// Narrows the domains of the variables in `among`, all above `k`, once `k` has taken the value `v`. It says whether any of them lost a value.
pub fn narrow(domains: &mut [u32; VARIABLES], rows: &Rows, among: u32, k: usize, v: usize) -> bool
    requires { (v < width) × ((j : ℕ) → has among j ≡ true → (k < j) × (j < variables)) × (length domains.old ≡ variables) }
    ensures { Narrowed width rows.now among k v result domains.old domains.new }
{
    narrow_to(domains, among, |j| stored_row(rows, k, j, v))
}

// Narrows the domains of the variables in `among`, on either side of `i`, which has the value `v` alone.
pub fn narrow_either(domains: &mut [u32; VARIABLES], rows: &Rows, among: u32, i: usize, v: usize)
    requires { (i < variables) × (v < width) × ((j : ℕ) → has among j ≡ true → (j < variables) × (i ≡ j → ⊥)) × (length domains.old ≡ variables) }
    ensures { Narrowed width rows.now among i v true domains.old domains.new }
{
    narrow_to(domains, among, |j| row(rows, i, j, v));
}
