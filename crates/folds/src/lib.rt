// The loops that many functions share.
#![tactic(auto)]

ghost use Rattle.std.specs.Prelude.{Bool, ◌≡◌, ℕ, ◌<◌, ◌≤◌};
ghost use Rattle.bounded.specs.Fold.{every};
ghost use Rattle.bounded.specs.Table.{tabulate};
ghost use Rattle.words.specs.Word.{width, word};

use std::array;

// Every number below `n` passes. All are tested, with no branch for any: the compiler makes vectors of it.
pub fn every<F: Fn(usize) -> bool>(n: usize, test: F) -> bool
    requires { (i : ℕ) → i < n → F.pre test i }
    ensures { (p : ℕ → Bool) → ((i : ℕ) (r : Bool) → i < n → F.post test i r → r ≡ p i) → result ≡ every n p }
{
    let mut all = true;
    for i in 0..n {
        all &= test(i);
    }
    all
}

// The word of the numbers below `n` that pass.
pub fn gather<F: Fn(usize) -> bool>(n: usize, test: F) -> u32
    requires bound { n ≤ width }
    requires callable { (i : ℕ) → i < n → F.pre test i }
    ensures { (p : ℕ → Bool) → ((i : ℕ) (r : Bool) → i < n → F.post test i r → r ≡ p i) → result ≡ word n p }
{
    let mut members: u32 = 0;
    for i in 0..n {
        members |= (test(i) as u32) << i;
    }
    members
}

// The array of what `entry` gives for each index.
pub fn table<T, const N: usize, F: Fn(usize) -> T>(entry: F) -> [T; N]
    requires { (i : ℕ) → i < N → F.pre entry i }
    ensures { (g : ℕ → T) → ((i : ℕ) (x : T) → i < N → F.post entry i x → x ≡ g i) → result ≡ tabulate N g }
{
    array::from_fn(entry)
}
