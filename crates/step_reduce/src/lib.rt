// Runs of follow steps on a head and rows: step after step, until none is left; the full reduction is one.
#![tactic(auto)]

ghost use Rattle.std.specs.Prelude.{true, ◌≡◌};
ghost use Rattle.network.specs.Reduction.{run_within, reduce, lead};
ghost use Rattle.head.specs.Held.{RowsShaped, held, sound_in};
ghost use Rattle.step_choice.specs.Judging.{who_leads};
ghost use Rattle.step_reduce.specs.Reduced.{RanTo};

use head::{Head, Rows};
use step_choice::{Leader, next_step};
use step_rules::step;

// The head at the end of a run, and how many steps led there.
#[derive(Clone, Copy)]
pub struct Reduction {
    pub head: Head,
    pub steps: usize,
}

// A run on a sound state: "until none can follow", step after step, each by the leader that `leader` says. The rows are worked on where they are.
fn run_sound(head: Head, rows: &mut Rows, leader: Leader) -> Reduction
    requires { RowsShaped rows.old × (sound_in head rows.old ≡ true) }
    ensures { RanTo (run_within (who_leads leader) head.n (held head rows.old)) result rows.new }
{
    let mut cut = head;
    let mut steps: usize = 0;
    while let Some((i, j)) = next_step(cut, rows, leader) {
        cut = step(cut, rows, i, j);
        steps += 1;
    }
    Reduction { head: cut, steps }
}

// The full reduction of a sound state: "repeats until no step is legal".
pub fn reduce_sound(head: Head, rows: &mut Rows) -> Reduction
    requires { RowsShaped rows.old × (sound_in head rows.old ≡ true) }
    ensures { RanTo (reduce (held head rows.old)) result rows.new }
{
    run_sound(head, rows, Leader::Lowest)
}

// The run that `l` leads, counted from 0: "Only it takes followers, the lowest possible one each time, until none can follow."
pub fn lead_sound(head: Head, rows: &mut Rows, l: usize) -> Reduction
    requires { RowsShaped rows.old × (sound_in head rows.old ≡ true) }
    ensures { RanTo (lead (held head rows.old) l) result rows.new }
{
    run_sound(head, rows, Leader::Named(l))
}
