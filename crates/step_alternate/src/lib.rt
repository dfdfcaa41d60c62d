// The reduction that alternates with the trimming of live lists.
#![tactic(auto)]

ghost use Rattle.std.specs.Prelude.{true, ◌≡◌};
ghost use Rattle.network.specs.Trimming.{alternate};
ghost use Rattle.head.specs.Held.{RowsShaped, held, sound_in};
ghost use Rattle.step_reduce.specs.Reduced.{RanTo};

use head::{Head, Rows};
use step_live::trim_live;
use step_reduce::{Reduction, reduce_sound};

// "This trimming comes first; then reduce fully, and alternate until neither changes anything. The state and the total number of follow steps come back."
// A reduction that takes no step changes nothing, and trimming again would not either. Where a trimming after a reduction
// changes no list no step is legal, so that none is looked for. The rows are worked on where they are.
pub fn alternate_sound(head: Head, rows: &mut Rows) -> Reduction
    requires { RowsShaped rows.old × (sound_in head rows.old ≡ true) }
    ensures { RanTo (alternate (held head rows.old)) result rows.new }
{
    let mut cut = head;
    let mut steps: usize = 0;
    loop {
        let trimmed = trim_live(cut, rows);
        let before = cut.domains;
        let after = trimmed.domains;
        if steps != 0 && before == after {
            return Reduction {
                head: trimmed,
                steps,
            };
        }
        let round = reduce_sound(trimmed, rows);
        cut = round.head;
        if round.steps == 0 {
            return Reduction { head: cut, steps };
        }
        steps += round.steps;
    }
}
