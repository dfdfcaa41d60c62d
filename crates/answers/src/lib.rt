// What a call answers besides states and buffers, and document 01's numbers for each case.
#![tactic(auto)]

ghost use Rattle.std.specs.Prelude.{◌≡◌};
ghost use Rattle.answers.specs.Answers.{refused_with, number_read, read_place, outcome_number, write_told, test_told, test_number, test_agrees, value_told, verdict_told, verdict_number, verdict_kind, verdict_solution};

use cause::{Cause, Refusal};

// What a verdict or a search says.
#[derive(Clone, Copy, Debug, PartialEq, Eq)]
pub enum Verdict {
    None,
    // The solution shown, zero past n.
    Built([u8; 16]),
    Open,
}

// The number that refuses, or 0.
#[tactic(auto, unfolding(crate::specs::Answers::refused_with))]
fn refused_with<T: Copy>(answer: Result<T, Cause>) -> u8
    ensures { result ≡ refused_with answer }
{
    match answer {
        Ok(_) => 0,
        Err(cause) => cause::number(cause),
    }
}

// Reading: the number that refuses, or 0.
#[tactic(auto, unfolding(crate::specs::Answers::number_read))]
pub fn read_number(outcome: Result<(), Refusal>) -> u8
    ensures { result ≡ number_read outcome }
{
    match outcome {
        Ok(()) => 0,
        Err(refusal) => cause::number(refusal.cause),
    }
}

#[tactic(auto, unfolding(crate::specs::Answers::read_place))]
pub fn read_place(outcome: Result<(), Refusal>) -> usize
    ensures { result ≡ read_place outcome }
{
    match outcome {
        Ok(()) => 0,
        Err(refusal) => refusal.place,
    }
}

// A step, a reduction or a completion.
#[tactic(auto, unfolding(crate::specs::Answers::refused_with, crate::specs::Answers::outcome_number))]
pub fn outcome_number(outcome: Result<(), Cause>) -> u8
    ensures { result ≡ outcome_number outcome }
{
    refused_with(outcome)
}

// Writing, which answers how many bytes were written.
#[tactic(auto, unfolding(crate::specs::Answers::refused_with, crate::specs::Answers::write_told))]
pub fn write_number(written: Result<usize, Cause>) -> u8
    ensures { result ≡ (write_told written).number }
{
    refused_with(written)
}

#[tactic(auto, unfolding(crate::specs::Answers::write_told))]
pub fn write_length(written: Result<usize, Cause>) -> usize
    ensures { result ≡ (write_told written).length }
{
    written.unwrap_or(0)
}

// The value of a follower at a value of its leader.
#[tactic(auto, unfolding(crate::specs::Answers::refused_with, crate::specs::Answers::value_told))]
pub fn value_number(value: Result<u8, Cause>) -> u8
    ensures { result ≡ (value_told value).number }
{
    refused_with(value)
}

// Beside a refusal it is 0.
#[tactic(auto, unfolding(crate::specs::Answers::value_told))]
pub fn value_answered(value: Result<u8, Cause>) -> u8
    ensures { result ≡ (value_told value).value }
{
    value.unwrap_or(0)
}

// A test, which says yes or no.
#[tactic(auto, unfolding(crate::specs::Answers::refused_with, crate::specs::Answers::test_number, crate::specs::Answers::test_told))]
pub fn test_number(tested: Result<bool, Cause>) -> u8
    ensures { result ≡ test_number (test_told tested) }
{
    refused_with(tested)
}

#[tactic(auto, unfolding(crate::specs::Answers::test_agrees, crate::specs::Answers::test_told))]
pub fn test_agrees(tested: Result<bool, Cause>) -> bool
    ensures { result ≡ test_agrees (test_told tested) }
{
    tested.unwrap_or(false)
}

#[tactic(auto, unfolding(crate::specs::Answers::refused_with, crate::specs::Answers::verdict_number, crate::specs::Answers::verdict_told))]
pub fn verdict_number(verdict: Result<Verdict, Cause>) -> u8
    ensures { result ≡ verdict_number (verdict_told verdict) }
{
    refused_with(verdict)
}

#[tactic(auto, unfolding(crate::specs::Answers::verdict_kind, crate::specs::Answers::verdict_told, crate::specs::Answers::kind_of))]
pub fn verdict_kind(verdict: Result<Verdict, Cause>) -> u8
    ensures { result ≡ verdict_kind (verdict_told verdict) }
{
    match verdict {
        Ok(Verdict::None) => 1,
        Ok(Verdict::Built(_)) => 2,
        Ok(Verdict::Open) => 3,
        Err(_) => 0,
    }
}

// The solution shown; all zero unless the verdict is BUILT.
#[tactic(auto, unfolding(crate::specs::Answers::verdict_solution, crate::specs::Answers::verdict_told))]
pub fn verdict_solution(verdict: Result<Verdict, Cause>) -> [u8; 16]
    ensures { result ≡ verdict_solution (verdict_told verdict) }
{
    match verdict {
        Ok(Verdict::Built(solution)) => solution,
        _ => [0; 16],
    }
}
