// Trimming the live lists against each other, in turn with the full reduction: the public call takes a state and hands it back beside the count of steps.
// Below it the head goes by value and the rows are lent.
ghost use Rattle.std.specs.Prelude.{◌≡◌};
ghost use Rattle.state.specs.View.{state_of};
ghost use Rattle.state.specs.Answers.{told};
ghost use Rattle.state.specs.Steps.{trimmed};
ghost use Rattle.state.specs.Worked.{worked_told};

use crate::answer::Answer;
use crate::reduction::handed_back;
use crate::state::{State, head_in};
use cause::Cause;
use head::{Head, Rows, whole};
use soundness::sound_parts;
use step_alternate::alternate_sound;
use step_reduce::Reduction;

// "It refuses only with 9." A refusal comes before anything is stored.
pub fn trim_parts(head: Head, rows: &mut Rows) -> Result<Reduction, Cause>
    ensures { worked_told head result rows.new ≡ trimmed (state_of head rows.old) }
{
    if !sound_parts(head, rows) {
        return Err(Cause::Unsound);
    }
    // What the type of lent rows says is learnt from a copy, which the compiler drops.
    whole(*rows);
    Ok(alternate_sound(head, rows))
}

impl State {
    // "This trimming comes first; then reduce fully, and alternate until neither changes anything. The state and the total number of follow steps come back."
    pub fn trim(self) -> Answer
        ensures { told result ≡ trimmed self }
    {
        let head = head_in(self);
        let mut rows = self.rows;
        let worked = trim_parts(head, &mut rows);
        handed_back(head, worked, rows)
    }
}
