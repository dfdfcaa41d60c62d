// The whole table.
ghost use Rattle.std.specs.Prelude.{true, ◌≡◌, ◌≤◌, length};
ghost use Rattle.head.specs.Held.{held, sound_in};
ghost use Rattle.state.specs.View.{state_of};
ghost use Rattle.state_survey.specs.Survey.{survey_told};
ghost use Rattle.text_put.specs.Put.{Put};
ghost use Rattle.plan_state.specs.Plan.{condition_lines, state_text};

use crate::rulings::{put_begin, put_rulings};
use crate::surveys::{no_build, put_survey};
use cause::Cause;
use head::{Head, Rows};
use plan_ifs::put_ifs;
use state_survey::{Surveyed, survey_parts};
use text_put::put_text;

// No line where there is no build.
#[tactic(auto, using(crate::proofs::Laws::conditions))]
fn put_conditions(
    buffer: &mut [u8],
    at: usize,
    head: Head,
    rows: &Rows,
    survey: Result<Surveyed, Cause>,
) -> usize
    requires { sound_in head rows.now ≡ true }
    ensures { Put buffer.old buffer.new (condition_lines (held head rows.now) (survey_told survey)) at result }
{
    if no_build(survey) {
        return at;
    }
    put_ifs(buffer, at, head, rows)
}

pub fn put_plan(buffer: &mut [u8], at: usize, head: Head, rows: &Rows) -> usize
    requires { sound_in head rows.now ≡ true }
    ensures { Put buffer.old buffer.new (state_text (state_of head rows.now)) at result
        × (length (state_text (state_of head rows.now)) ≤ 65000) }
{
    let begun = put_begin(buffer, at, head.n, &head.leaders, &head.domains);
    let ruled = put_rulings(buffer, begun, head, rows);
    let survey = survey_parts(head, rows);
    let tied = put_conditions(buffer, ruled, head, rows, survey);
    let stocked = put_survey(buffer, tied, head, survey);
    put_text(buffer, stocked, b"END 0 REFUSED\n")
}
