// Calls that lead from the state of a run to another, each with what it must come to.
use crate::values::{is_shown, option_at, rest_of, table_of};
use test_calls::states::same;
use test_calls::{calls, tally};
use test_checks::lists::Run;
use test_checks::{leads, lists};
use test_oracle::brute::{byte, index_of};

// An example that came out right or not.
fn expected(run: Run, is_right: bool) -> Run {
    lists::counted(run, tally::expect(run.tally, tally::EXAMPLES, is_right))
}

// A table that is added, or refused with a number.
pub(crate) fn add(run: Run, given: &[u8], answer: &[u8]) -> Run {
    let table = table_of(given);
    let added = calls::add_table(run.state, table);
    expected(
        lists::check_table(run, table),
        added.number == byte(answer, 0),
    )
}

// Two options, of which the second comes to follow the first, or the number of a refusal.
pub(crate) fn follow(run: Run, given: &[u8], answer: &[u8]) -> Run {
    let leader = option_at(given, 0);
    let follower = option_at(given, 1);
    let stepped = calls::eliminate(run.state, leader, follower);
    expected(
        lists::check_step(run, leader, follower),
        stepped.number == byte(answer, 0),
    )
}

// An option, and the steps of the run that it leads, or the number of a refusal.
pub(crate) fn lead(run: Run, given: &[u8], answer: &[u8]) -> Run {
    let leader = option_at(given, 0);
    let led = calls::lead(run.state, leader);
    let is_right = (led.number == byte(answer, 0)) & (led.steps == byte(answer, 1) as usize);
    expected(leads::check_lead(run, leader), is_right)
}

// Page nine: a number, then 1 for NONE, 2 for BUILT or 3 for OPEN, and the build. A refusal hands back the state given, and its verdict has its number.
pub(crate) fn fit(run: Run, answer: &[u8]) -> Run {
    let fitted = meter::fit(run.state);
    let verdict = fitted.verdict;
    let number = answers::outcome_number(fitted.outcome);
    let solution = answers::verdict_solution(verdict);
    let is_judged = is_shown(answers::verdict_kind(verdict), solution, rest_of(answer));
    let is_left = (number == 0) | same(fitted.state, run.state);
    let is_refused = answers::verdict_number(verdict) == number;
    let is_right = (number == byte(answer, 0)) & is_judged & is_refused & is_left;
    lists::start(
        fitted.state,
        tally::expect(run.tally, tally::EXAMPLES, is_right),
    )
}

// The state with another list of an option, as no call makes it.
pub(crate) fn relist(run: Run, given: &[u8]) -> Run {
    let i = index_of(byte(given, 0) as usize);
    let mut state = run.state;
    if i < 16 {
        state.domains[i] = byte(given, 1) as u32;
    }
    lists::start(state, run.tally)
}
