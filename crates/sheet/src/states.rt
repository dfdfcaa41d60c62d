// The calls that look at a state: whether it is sound, whether values are a solution of it, what its followers' values are, all or one, the verdict, the search,
// the survey, and in which order to plan. Each takes the state apart: its head goes by value, its rows are lent.
ghost use Rattle.std.specs.Prelude.{◌≡◌};
ghost use Rattle.answers.specs.Answers.{test_told, outcome_number, value_told, verdict_told};
ghost use Rattle.state.specs.View.{sound_state};
ghost use Rattle.state.specs.Solutions.{tested, complete_number, completed_buffer, verdict_of, search_of};
ghost use Rattle.state_solutions.specs.FollowerValue.{follower_value};
ghost use Rattle.state_order.specs.Orders.{order_told, find_number, order_buffer};
ghost use Rattle.state_survey.specs.Survey.{survey_told, survey_of};

use answers::Verdict;
use cause::Cause;
use soundness::sound_parts;
use state::{State, head_in};
use state_order::{find_order_parts, test_order_parts};
use state_search::search_parts;
use state_solutions::{complete_parts, follower_value_parts, test_parts};
use state_survey::{Surveyed, survey_parts};
use state_verdict::verdict_parts;

// "A state is sound when": every sentence holds of it.
pub fn is_sound(state: State) -> bool
    ensures { result ≡ sound_state state }
{
    sound_parts(head_in(state), &state.rows)
}

// The tester: "yes exactly when each value is in its option's list and each stated pair allows its two values".
pub fn test(state: State, solution: &[u8]) -> Result<bool, Cause>
    ensures { test_told result ≡ tested state solution.now }
{
    test_parts(head_in(state), &state.rows, solution)
}

// The completer: "reads the bytes of live options and writes those of followers". A refusal writes nothing.
pub fn complete(state: State, solution: &mut [u8]) -> Result<(), Cause>
    ensures { (outcome_number result ≡ complete_number state solution.old) × (solution.new ≡ completed_buffer state solution.old) }
{
    complete_parts(head_in(state), &state.rows, solution)
}

// The value of a follower at a value of its leader: what the completer writes. Variables count from 1.
pub fn follower_value(state: State, variable: usize, value: usize) -> Result<u8, Cause>
    ensures { value_told result ≡ follower_value state variable value }
{
    follower_value_parts(head_in(state), &state.rows, variable, value)
}

// The verdict does not reduce first.
pub fn verdict(state: State) -> Result<Verdict, Cause>
    ensures { verdict_told result ≡ verdict_of state }
{
    verdict_parts(head_in(state), &state.rows)
}

// The search "finds the first build, live options compared in ascending number and lower values first, or says there is none". It does not reduce first.
pub fn search(state: State) -> Result<Verdict, Cause>
    ensures { verdict_told result ≡ search_of state }
{
    search_parts(head_in(state), &state.rows)
}

// The survey: "how many builds the state has, and for each option the word of exactly those values that some build has". It changes nothing and does not reduce
// first.
pub fn survey(state: State) -> Result<Surveyed, Cause>
    ensures { survey_told result ≡ survey_of state }
{
    survey_parts(head_in(state), &state.rows)
}

// "One call tests a given order": good "when, for an earlier option i and a later option j, a path from j to i .. implies such a path from i to j".
pub fn test_order(state: State, order: &[u8]) -> Result<bool, Cause>
    ensures { test_told result ≡ order_told state order.now }
{
    test_order_parts(head_in(state), &state.rows, order)
}

// "and another produces one, the smallest permitted number at each place". A refusal writes nothing.
pub fn find_order(state: State, order: &mut [u8]) -> Result<(), Cause>
    ensures { (outcome_number result ≡ find_number state order.old) × (order.new ≡ order_buffer state order.old) }
{
    find_order_parts(head_in(state), &state.rows, order)
}
