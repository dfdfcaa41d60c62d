// A leader that is named: the public call takes a state and hands it back beside the count of steps. Below it the head goes by value and the rows are lent.
ghost use Rattle.std.specs.Prelude.{◌≡◌};
ghost use Rattle.state.specs.View.{state_of};
ghost use Rattle.answers.specs.Answers.{outcome_number};
ghost use Rattle.state.specs.Answers.{told};
ghost use Rattle.state.specs.Steps.{lead_number, led};
ghost use Rattle.state.specs.Worked.{worked_told};

use crate::answer::Answer;
use crate::reduction::handed_back;
use crate::state::{State, head_in};
use cause::Cause;
use head::{Head, Rows, whole};
use soundness::sound_parts;
use step_choice::judge_leader;
use step_reduce::{Reduction, lead_sound};

// Why a run that `leader` is to lead is refused, or `Ok`: soundness is tested first.
fn refuse_lead(head: Head, rows: &Rows, leader: usize) -> Result<(), Cause>
    ensures { outcome_number result ≡ lead_number (state_of head rows.now) leader }
{
    if !sound_parts(head, rows) {
        return Err(Cause::Unsound);
    }
    judge_leader(head, leader)
}

// The run that `leader` leads. A refusal comes before anything is stored.
pub fn lead_parts(head: Head, rows: &mut Rows, leader: usize) -> Result<Reduction, Cause>
    ensures { worked_told head result rows.new ≡ led (state_of head rows.old) leader }
{
    refuse_lead(head, rows, leader)?;
    // What the type of lent rows says is learnt from a copy, which the compiler drops.
    whole(*rows);
    Ok(lead_sound(head, rows, leader - 1))
}

impl State {
    // "Only it takes followers, the lowest possible one each time, until none can follow." `leader` is counted from 1. A refusal hands back the state given.
    pub fn lead(self, leader: usize) -> Answer
        ensures { told result ≡ led self leader }
    {
        let head = head_in(self);
        let mut rows = self.rows;
        let worked = lead_parts(head, &mut rows, leader);
        handed_back(head, worked, rows)
    }
}
