// A table that arrives after the cutting down: the public call takes a state and hands it back. Below it the head goes by value and the rows are lent.
ghost use Rattle.std.specs.Prelude.{◌≡◌};
ghost use Rattle.state.specs.View.{state_of};
ghost use Rattle.answers.specs.Answers.{outcome_number};
ghost use Rattle.state.specs.Answers.{told};
ghost use Rattle.state.specs.Tables.{table_refusal, table_added};
ghost use Rattle.state.specs.Worked.{worked_told};

use crate::answer::Answer;
use crate::reduction::handed_back;
use crate::state::{State, head_in};
use cause::Cause;
use head::{Head, Rows, whole};
use soundness::sound_parts;
use step_add::add;
use step_add_judge::judge_table;
use step_reduce::Reduction;

// Why a table is refused, or `Ok`: soundness is tested first.
fn refuse_table(
    head: Head,
    rows: &Rows,
    first: usize,
    second: usize,
    table: &[u32],
) -> Result<(), Cause>
    ensures { outcome_number result ≡ table_refusal (state_of head rows.now) first second table.now }
{
    if !sound_parts(head, rows) {
        return Err(Cause::Unsound);
    }
    judge_table(head, first, second, table)
}

// One table, which takes no step. A refusal comes before anything is stored.
pub fn add_parts(
    head: Head,
    rows: &mut Rows,
    first: usize,
    second: usize,
    table: &[u32],
) -> Result<Reduction, Cause>
    ensures { worked_told head result rows.new ≡ table_added (state_of head rows.old) first second table.now }
{
    refuse_table(head, rows, first, second, table)?;
    // What the type of lent rows says is learnt from a copy, which the compiler drops.
    whole(*rows);
    let after = add(head, rows, first - 1, second - 1, table);
    Ok(Reduction {
        head: after,
        steps: 0,
    })
}

impl State {
    // Adds a table for the variables `first` and `second`, counted from 1: a row for each value of the first, with bits for the values of the second. A
    // refusal hands back the state given.
    pub fn add_table(self, first: usize, second: usize, table: &[u32]) -> Answer
        ensures { told result ≡ table_added self first second table.now }
    {
        let head = head_in(self);
        let mut rows = self.rows;
        let worked = add_parts(head, &mut rows, first, second, table);
        handed_back(head, worked, rows)
    }
}
