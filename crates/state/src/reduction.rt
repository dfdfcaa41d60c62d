// The follow step and the full reduction: the public calls take a state and hand it back beside the count of steps. Below them its head goes by value and
// its rows are lent: they are worked on where they are.
ghost use Rattle.std.specs.Prelude.{◌≡◌};
ghost use Rattle.state.specs.View.{state_of};
ghost use Rattle.answers.specs.Answers.{outcome_number};
ghost use Rattle.state.specs.Answers.{told};
ghost use Rattle.state.specs.Steps.{step_refusal, stepped, reduced};
ghost use Rattle.state.specs.Worked.{worked_told};

use crate::answer::Answer;
use crate::state::{State, head_in, state_of};
use cause::Cause;
use head::{Head, Rows, whole};
use soundness::sound_parts;
use step_choice::judge;
use step_reduce::{Reduction, reduce_sound};
use step_rules::step;

// Why a follow step is refused, or `Ok`: soundness is tested first.
fn refuse_step(head: Head, rows: &Rows, leader: usize, follower: usize) -> Result<(), Cause>
    ensures { outcome_number result ≡ step_refusal (state_of head rows.now) leader follower }
{
    if !sound_parts(head, rows) {
        return Err(Cause::Unsound);
    }
    judge(head, rows, leader, follower)
}

// One follow step. A refusal comes before anything is stored.
pub fn eliminate_parts(
    head: Head,
    rows: &mut Rows,
    leader: usize,
    follower: usize,
) -> Result<Reduction, Cause>
    ensures { worked_told head result rows.new ≡ stepped (state_of head rows.old) leader follower }
{
    refuse_step(head, rows, leader, follower)?;
    // What the type of lent rows says is learnt from a copy, which the compiler drops.
    whole(*rows);
    let after = step(head, rows, leader - 1, follower - 1);
    Ok(Reduction {
        head: after,
        steps: 1,
    })
}

// The full reduction. A refusal comes before anything is stored.
pub fn reduce_parts(head: Head, rows: &mut Rows) -> Result<Reduction, Cause>
    ensures { worked_told head result rows.new ≡ reduced (state_of head rows.old) }
{
    if !sound_parts(head, rows) {
        return Err(Cause::Unsound);
    }
    // What the type of lent rows says is learnt from a copy, which the compiler drops.
    whole(*rows);
    Ok(reduce_sound(head, rows))
}

// "It hands back the state and the number of steps": a refused call the state given.
#[tactic(auto, unfolding(crate::specs::Answers::told, answers::specs::Answers::outcome_number))]
pub(crate) fn handed_back(given: Head, worked: Result<Reduction, Cause>, rows: Rows) -> Answer
    ensures { told result ≡ worked_told given worked rows }
{
    match worked {
        Ok(run) => Answer {
            outcome: Ok(()),
            state: state_of(run.head, rows),
            steps: run.steps,
        },
        Err(cause) => Answer {
            outcome: Err(cause),
            state: state_of(given, rows),
            steps: 0,
        },
    }
}

impl State {
    // One follow step: `follower` comes to follow `leader`, variables counted from 1. A refusal hands back the state given.
    pub fn eliminate(self, leader: usize, follower: usize) -> Answer
        ensures { told result ≡ stepped self leader follower }
    {
        let head = head_in(self);
        let mut rows = self.rows;
        let worked = eliminate_parts(head, &mut rows, leader, follower);
        handed_back(head, worked, rows)
    }

    // The full reduction: the state that no step is legal in any more, and how many steps led there.
    pub fn reduce(self) -> Answer
        ensures { told result ≡ reduced self }
    {
        let head = head_in(self);
        let mut rows = self.rows;
        let worked = reduce_parts(head, &mut rows);
        handed_back(head, worked, rows)
    }
}
