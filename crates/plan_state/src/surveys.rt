// What the survey says of values and builds.
ghost use Rattle.std.specs.Prelude.{◌≡◌, ℕ, ◌≤◌, ◌^◌, ◌<◌, length, get_or, Ok};
ghost use Rattle.words.specs.Word.{width};
ghost use Rattle.state_survey.specs.Survey.{survey_told};
ghost use Rattle.text_put.specs.Put.{Put};
ghost use Rattle.plan_state.specs.Plan.{builds_none, used_lines, maybe_lines, survey_lines};

use cause::Cause;
use head::Head;
use plan_lines::{put_builds, put_idle, put_stock};
use state_survey::Surveyed;

// The survey says that there is no build.
pub(crate) fn no_build(survey: Result<Surveyed, Cause>) -> bool
    ensures { result ≡ builds_none (survey_told survey) }
{
    survey.is_ok_and(|surveyed| surveyed.count == 0)
}

// The values that some build has, the others, and how many builds there are.
fn put_used(buffer: &mut [u8], at: usize, n: usize, sizes: &[u8; 16], survey: Surveyed) -> usize
    requires { (n ≤ 16) × ((i : ℕ) → get_or sizes.now i 0 ≤ width) }
    ensures { Put buffer.old buffer.new (used_lines n sizes.now (survey_told (Ok survey))) at result
        × (length (used_lines n sizes.now (survey_told (Ok survey))) ≤ 3601) }
{
    let used = put_stock(buffer, at, b"USED ", n, &survey.words);
    let idle = put_idle(buffer, used, n, sizes, &survey.words);
    put_builds(buffer, idle, survey.count, survey.more)
}

// What the lists leave open, and the other values.
fn put_maybe(buffer: &mut [u8], at: usize, n: usize, sizes: &[u8; 16], lists: &[u32; 16]) -> usize
    requires { (n ≤ 16) × ((i : ℕ) → get_or sizes.now i 0 ≤ width) }
    ensures { Put buffer.old buffer.new (maybe_lines n sizes.now lists.now) at result }
{
    let open = put_stock(buffer, at, b"MAYBE ", n, lists);
    put_idle(buffer, open, n, sizes, lists)
}

#[tactic(auto, using(crate::proofs::Laws::survey_done, crate::proofs::Laws::survey_refused, crate::proofs::Laws::maybe_le))]
pub(crate) fn put_survey(
    buffer: &mut [u8],
    at: usize,
    head: Head,
    survey: Result<Surveyed, Cause>,
) -> usize
    requires { (head.n ≤ 16) × ((i : ℕ) → get_or head.sizes i 0 ≤ width) }
    ensures { Put buffer.old buffer.new (survey_lines head.n head.sizes head.domains (survey_told survey)) at result
        × (length (survey_lines head.n head.sizes head.domains (survey_told survey)) ≤ 3601) }
{
    match survey {
        Ok(surveyed) => put_used(buffer, at, head.n, &head.sizes, surveyed),
        Err(_) => put_maybe(buffer, at, head.n, &head.sizes, &head.domains),
    }
}
