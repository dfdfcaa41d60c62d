// Rule 2 on the rows.
ghost use Rattle.std.specs.Prelude.{false, ◌≡◌, ◌^◌, ◌<◌, length};
ghost use Rattle.words.specs.Word.{width, has};
ghost use Rattle.pairs.specs.Pairs.{variables};
ghost use Rattle.step_parts.specs.StepParts.{made_at, MovedRows};

use head::{Rows, VARIABLES};
use step_compose::Third;

// For each third variable `k` the pair `i`, `k` is composed and the pair `j`, `k` emptied. `ti` is the new domain of `i`, and `i` was stated with
// `others`.
pub fn move_thirds(
    rows: &mut Rows,
    domains: [u32; VARIABLES],
    others: u32,
    thirds: u32,
    i: usize,
    j: usize,
    ti: u32,
)
    requires { (i < variables) × (j < variables) × (i ≡ j → ⊥) × (has thirds i ≡ false) × (has thirds j ≡ false) × (thirds < 2 ^ variables) × (length rows.old ≡ 3840) }
    ensures { MovedRows width rows.old rows.new i j (has thirds) (made_at width rows.old domains others i j ti) }
{
    let dj = domains[j];
    for k in words::members(thirds) {
        let was = words::member(others, k);
        step_compose::compose(
            rows,
            Third {
                i,
                j,
                k,
                ti,
                dj,
                dk: domains[k],
                was,
            },
        );
        pairs_store::clear(rows, j, k);
    }
}
