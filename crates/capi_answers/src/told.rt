// Answers as structs of numbers.
ghost use Rattle.std.specs.Prelude.{◌≡◌};
ghost use Rattle.answers.specs.Answers.{number_read, read_place, write_told, test_told, value_told, verdict_told};
ghost use Rattle.state.specs.declared.state.State.{State};
ghost use Rattle.state_survey.specs.Survey.{survey_told};
ghost use Rattle.capi_answers.specs.Answers.{read_out, written_out, tested_out, value_out, verdict_out, cut_out, survey_out};

use answers::{
    Verdict, outcome_number, read_number, read_place, test_agrees, test_number, value_answered,
    value_number, verdict_kind, verdict_number, verdict_solution, write_length, write_number,
};
use cause::{Cause, Refusal};
use survey::Surveyed;

// Reading: the number that refuses, and its place.
#[repr(C)]
#[derive(Clone, Copy)]
pub struct SheetRead {
    pub number: u8,
    pub place: usize,
}

// Writing: the number that refuses, and how many bytes the sheet has.
#[repr(C)]
#[derive(Clone, Copy)]
pub struct SheetWritten {
    pub number: u8,
    pub length: usize,
}

// Testing: the number that refuses, and whether the values are a build.
#[repr(C)]
#[derive(Clone, Copy)]
pub struct SheetTested {
    pub number: u8,
    pub agrees: bool,
}

// The value of a follower: the number that refuses, and the value.
#[repr(C)]
#[derive(Clone, Copy)]
pub struct SheetValue {
    pub number: u8,
    pub value: u8,
}

// The verdict, or what the search says: the number that refuses; 1 for NONE, 2 for BUILT, 3 for OPEN, 0 with a refusal; and the build shown, all zero unless
// BUILT. The search never says OPEN.
#[repr(C)]
#[derive(Clone, Copy)]
pub struct SheetVerdict {
    pub number: u8,
    pub kind: u8,
    pub solution: [u8; 16],
}

// Reading, the full reduction and the verdict: the number that refuses the sheet, its place, the steps, the kind of the verdict and the build shown; zero
// but for number and place where the sheet is refused.
#[repr(C)]
#[derive(Clone, Copy)]
pub struct SheetCut {
    pub number: u8,
    pub place: usize,
    pub steps: usize,
    pub kind: u8,
    pub solution: [u8; 16],
}

// The survey: the number that refuses, whether there are more builds than the count, for each option the values that some build has, zero past n, and the
// count of builds; zero but for the number where it is refused.
#[repr(C)]
#[derive(Clone, Copy)]
pub struct SheetSurvey {
    pub number: u8,
    pub more: bool,
    pub words: [u32; 16],
    pub count: u64,
}

#[tactic(auto, unfolding(crate::specs::Answers::read_out))]
pub fn read_told(outcome: Result<(), Refusal>) -> SheetRead
    ensures { (s : State) → result ≡ read_out (record { number = number_read outcome; place = read_place outcome; state = s }) }
{
    SheetRead {
        number: read_number(outcome),
        place: read_place(outcome),
    }
}

#[tactic(auto, unfolding(crate::specs::Answers::written_out))]
pub fn written(answer: Result<usize, Cause>) -> SheetWritten
    ensures { result ≡ written_out (write_told answer) }
{
    SheetWritten {
        number: write_number(answer),
        length: write_length(answer),
    }
}

#[tactic(auto, unfolding(crate::specs::Answers::tested_out))]
pub fn tested(answer: Result<bool, Cause>) -> SheetTested
    ensures { result ≡ tested_out (test_told answer) }
{
    SheetTested {
        number: test_number(answer),
        agrees: test_agrees(answer),
    }
}

#[tactic(auto, unfolding(crate::specs::Answers::value_out))]
pub fn value_told(answer: Result<u8, Cause>) -> SheetValue
    ensures { result ≡ value_out (value_told answer) }
{
    SheetValue {
        number: value_number(answer),
        value: value_answered(answer),
    }
}

// What a verdict or a search tells.
#[tactic(auto, unfolding(crate::specs::Answers::verdict_out))]
pub fn verdict_told(verdict: Result<Verdict, Cause>) -> SheetVerdict
    ensures { result ≡ verdict_out (verdict_told verdict) }
{
    SheetVerdict {
        number: verdict_number(verdict),
        kind: verdict_kind(verdict),
        solution: verdict_solution(verdict),
    }
}

#[tactic(auto, unfolding(crate::specs::Answers::cut_out))]
pub fn cut_told(
    outcome: Result<(), Refusal>,
    steps: usize,
    verdict: Result<Verdict, Cause>,
) -> SheetCut
    ensures { (s : State) → result ≡ cut_out (record { number = number_read outcome; place = read_place outcome; state = s; steps = steps; verdict = verdict_told verdict }) }
{
    SheetCut {
        number: read_number(outcome),
        place: read_place(outcome),
        steps,
        kind: verdict_kind(verdict),
        solution: verdict_solution(verdict),
    }
}

#[tactic(auto, unfolding(crate::specs::Answers::survey_out, state_survey::specs::Survey::survey_told, answers::specs::Answers::outcome_number))]
pub fn survey_told(answer: Result<Surveyed, Cause>) -> SheetSurvey
    ensures { result ≡ survey_out (survey_told answer) }
{
    match answer {
        Ok(found) => {
            let words = found.words;
            SheetSurvey {
                number: 0,
                more: found.more,
                words,
                count: found.count,
            }
        }
        Err(cause) => SheetSurvey {
            number: outcome_number(Err(cause)),
            more: false,
            words: [0; 16],
            count: 0,
        },
    }
}
