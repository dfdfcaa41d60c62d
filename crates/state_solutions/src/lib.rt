// The tester, the completer and the value of a follower on a head and lent rows.
#![tactic(auto)]

mod follower;

ghost use Rattle.std.specs.Prelude.{◌≡◌};
ghost use Rattle.answers.specs.Answers.{test_told, outcome_number};
ghost use Rattle.state.specs.View.{state_of};
ghost use Rattle.state.specs.Solutions.{tested, complete_number, completed_buffer};

use cause::Cause;
pub use follower::follower_value_parts;
use head::{Head, Rows, VARIABLES};
use solutions::{complete_values, pairs_kept, values_below, values_kept};
use soundness::sound_parts;

// The tester: "yes exactly when each value is in its option's list and each stated pair allows its two values". It judges every variable as a free one.
pub fn test_parts(head: Head, rows: &Rows, solution: &[u8]) -> Result<bool, Cause>
    ensures { test_told result ≡ tested (state_of head rows.now) solution.now }
{
    if !sound_parts(head, rows) {
        return Err(Cause::Unsound);
    }
    let n = head.n;
    if solution.len() != n {
        return Err(Cause::SolutionLength);
    }
    if !values_below(n, &head.sizes, solution) {
        return Err(Cause::ValueRange);
    }
    let free = [0u8; VARIABLES];
    if !values_kept(n, &free, &head.domains, solution) {
        return Ok(false);
    }
    if !pairs_kept(n, &free, &head.stated, rows, solution) {
        return Ok(false);
    }
    Ok(true)
}

// The completer: "reads the bytes of live options and writes those of followers". A refusal comes before anything is written.
pub fn complete_parts(head: Head, rows: &Rows, solution: &mut [u8]) -> Result<(), Cause>
    ensures { (outcome_number result ≡ complete_number (state_of head rows.now) solution.old)
        × (solution.new ≡ completed_buffer (state_of head rows.now) solution.old) }
{
    if !sound_parts(head, rows) {
        return Err(Cause::Unsound);
    }
    let n = head.n;
    if n != solution.len() {
        return Err(Cause::SolutionLength);
    }
    if !values_kept(n, &head.leaders, &head.domains, solution) {
        return Err(Cause::ValueRange);
    }
    if !pairs_kept(n, &head.leaders, &head.stated, rows, solution) {
        return Err(Cause::ValuesForbidden);
    }
    complete_values(n, &head.domains, &head.leaders, rows, solution);
    Ok(())
}
