// How many choices a search may have to try.
#![tactic(auto)]

ghost use Rattle.std.specs.Prelude.{true, List, ◌≡◌, ℕ, min, ◌<◌, ◌≤◌};
ghost use Rattle.bounded.specs.Fold.{product};
ghost use Rattle.network.specs.Search.{choice_product};
ghost use Rattle.pairs.specs.Pairs.{variables};
ghost use Rattle.head.specs.Held.{held, sound_in};
ghost use Rattle.search_product.specs.Choices.{open_of};

use head::Head;

// One more than the most choices that are searched: "exceeds 1,000,000".
const CAP: usize = 1_000_001;

// The product of `n` factors, capped at each: so it does not wrap, and a 0 stays 0 whatever the others are.
pub fn capped_product<F: Fn(usize) -> usize>(n: usize, factor: F) -> usize
    requires { (i : ℕ) → i < n → F.pre factor i }
    ensures { (f : ℕ → ℕ) → ((i : ℕ) (x : ℕ) → i < n → F.post factor i x → x ≡ f i) → result ≡ min (product n f) 1000001 }
{
    let mut choices: usize = 1;
    for i in 0..n {
        choices = factor(i).saturating_mul(choices).min(CAP);
    }
    choices
}

// How many values are open to a variable: a follower has no choice.
fn open_values(leader: u8, domain: u32) -> usize
    ensures { result ≡ open_of leader domain }
{
    if leader != 0 {
        return 1;
    }
    words::count(domain)
}

// "the product of the live list sizes", capped.
pub fn product(head: Head) -> usize
    requires { head.n ≤ variables }
    ensures { (rows : List ℕ) → sound_in head rows ≡ true → result ≡ min (choice_product (held head rows)) 1000001 }
{
    capped_product(head.n, |i| open_values(head.leaders[i], head.domains[i]))
}
