// Which variables are stated with another free one, and how many choices of them a survey may have to try.
#![tactic(auto)]

ghost use Rattle.std.specs.Prelude.{true, List, ◌≡◌, ℕ, min, ◌<◌, ◌≤◌};
ghost use Rattle.words.specs.Word.{width};
ghost use Rattle.network.specs.Survey.{tied_product};
ghost use Rattle.pairs.specs.Pairs.{variables};
ghost use Rattle.head.specs.Held.{held, sound_in};
ghost use Rattle.survey_product.specs.Tied.{tied_of, tied_word, searched_of};

use folds::gather;
use head::Head;
use pairs::VARIABLES;
use search_product::capped_product;
use solutions::free_variables;
use words::{both, member};

// A free variable is "stated with another live option".
fn is_tied(free: u32, stated: u32, i: usize) -> bool
    requires { i < width }
    ensures { result ≡ tied_of free stated i }
{
    if !member(free, i) {
        return false;
    }
    both(free, stated) != 0
}

// The tied variables, as a word.
pub fn tied_variables(n: usize, free: u32, stated: &[u32; VARIABLES]) -> u32
    requires { n ≤ variables }
    ensures { result ≡ tied_word n free stated.now }
{
    gather(n, |i| is_tied(free, stated[i], i))
}

// How many values of a variable are searched: one that nothing ties down costs no search, but an empty domain leaves no choice.
fn searched_values(free: u32, tied: u32, domain: u32, i: usize) -> usize
    requires { i < width }
    ensures { result ≡ searched_of free tied domain i }
{
    if !member(free, i) {
        return 1;
    }
    if member(tied, i) {
        return words::count(domain);
    }
    if domain == 0 {
        return 0;
    }
    1
}

// "the product of the list sizes of those live options that are stated with another live option", capped.
pub fn tied_product(head: Head) -> usize
    requires { head.n ≤ variables }
    ensures { (rows : List ℕ) → sound_in head rows ≡ true → result ≡ min (tied_product (held head rows)) 1000001 }
{
    let free = free_variables(head.n, &head.leaders);
    let tied = tied_variables(head.n, free, &head.stated);
    capped_product(head.n, |i| searched_values(free, tied, head.domains[i], i))
}
