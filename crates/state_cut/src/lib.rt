// Reading, the full reduction and the verdict in one.
#![tactic(auto)]

ghost use Rattle.std.specs.Prelude.{◌≡◌};
ghost use Rattle.head.specs.Held.{zero_rows};
ghost use Rattle.state.specs.Cut.{cut_sheet};
ghost use Rattle.state_cut.specs.Parts.{cut_parts_told};

use answers::Verdict;
use cause::{Cause, Refusal};
use head::{Head, Rows};
use state_read::{read_parts, zero_head};
use state_verdict::verdict_of;
use step_reduce::reduce_sound;

// What a cut gives besides the rows. The outcome is held beside the head, which is zero where the sheet is refused.
#[derive(Clone, Copy)]
pub struct CutParts {
    pub outcome: Result<(), Refusal>,
    pub head: Head,
    pub steps: usize,
    pub verdict: Result<Verdict, Cause>,
}

// What the three calls give one after the other. A state just read is sound and a reduction keeps it so: nothing is tested twice. What refuses the
// sheet refuses the verdict too.
pub fn cut_parts(bytes: &[u8], rows: &mut Rows) -> CutParts
    requires { rows.old ≡ zero_rows }
    ensures { cut_parts_told result rows.new ≡ cut_sheet bytes.now }
{
    match read_parts(bytes, rows) {
        Ok(head) => {
            let cut = reduce_sound(head, rows);
            let verdict = verdict_of(cut.head, rows);
            CutParts {
                outcome: Ok(()),
                head: cut.head,
                steps: cut.steps,
                verdict: Ok(verdict),
            }
        }
        Err(refusal) => CutParts {
            outcome: Err(refusal),
            head: zero_head(),
            steps: 0,
            verdict: Err(refusal.cause),
        },
    }
}
