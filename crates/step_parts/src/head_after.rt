// Rules 2 and 3 on the parts of a head: who leads, and who is stated with whom.
ghost use Rattle.std.specs.Prelude.{false, ◌≡◌, ℕ, ◌^◌, ◌<◌, get_or};
ghost use Rattle.bounded.specs.Table.{tabulate};
ghost use Rattle.words.specs.Word.{width, has, word};
ghost use Rattle.pairs.specs.Pairs.{variables};
ghost use Rattle.step_parts.specs.StepParts.{led_after, leader_after, third_of, stated_after};

use folds::table;
use head::VARIABLES;
use words::{either, single, without};

// Rule 3 for a variable other than `j`, whose leader was `leader`.
fn leader_after(leader: u8, i: usize, j: usize) -> u8
    requires { (i < variables) × (j < variables) }
    ensures { result ≡ led_after i j leader }
{
    if leader == (j + 1) as u8 {
        return (i + 1) as u8;
    }
    leader
}

// Rule 3: "Followers of j get i as leader, and so does j."
pub fn leaders_after(leaders: [u8; VARIABLES], i: usize, j: usize) -> [u8; VARIABLES]
    requires { (i < variables) × (j < variables) }
    ensures { result ≡ tabulate variables (λ (x : ℕ). leader_after i j x (get_or leaders x 0)) }
{
    table(|x| {
        if x == j {
            (i + 1) as u8
        } else {
            leader_after(leaders[x], i, j)
        }
    })
}

// The third variables: `others` are those that are stated with `j`.
pub fn thirds_of(others: u32, i: usize, j: usize) -> u32
    requires { (i < variables) × (j < variables) }
    ensures { result ≡ word width (third_of i j (has others)) }
{
    without(without(others, single(i)), single(j))
}

// Rule 2: the pairs `i`, `k` become stated and the pairs `j`, `k` unstated, for each third variable `k`.
pub fn stated_after(stated: [u32; VARIABLES], thirds: u32, i: usize, j: usize) -> [u32; VARIABLES]
    requires { (i < variables) × (j < variables) × (i ≡ j → ⊥) × (has thirds i ≡ false) × (has thirds j ≡ false) × (thirds < 2 ^ variables) }
    ensures { result ≡ tabulate variables (λ (x : ℕ). word width (stated_after i j (has thirds) x (has (get_or stated x 0)))) }
{
    let mut after = stated;
    after[i] = either(stated[i], thirds);
    after[j] = without(stated[j], thirds);
    for k in words::members(thirds) {
        after[k] = without(either(stated[k], single(i)), single(j));
    }
    after
}
