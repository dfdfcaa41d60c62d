// The verdict on a head and lent rows.
#![tactic(auto)]

ghost use Rattle.std.specs.Prelude.{◌≡◌, true, Ok};
ghost use Rattle.head.specs.Held.{sound_in};
ghost use Rattle.answers.specs.Answers.{verdict_told};
ghost use Rattle.state.specs.View.{state_of};
ghost use Rattle.state.specs.Solutions.{verdict_of};

use answers::Verdict;
use cause::Cause;
use head::{Head, Rows};
use solutions_head::{domains_open, free_apart, lowest_solution};
use soundness::sound_parts;

// The verdict of a sound state: NONE "if some live list is empty", even where two free variables are stated together; else BUILT where "no two live options
// are stated together"; else OPEN.
pub fn verdict_of(head: Head, rows: &Rows) -> Verdict
    requires { sound_in head rows.now ≡ true }
    ensures { verdict_told (Ok result) ≡ verdict_of (state_of head rows.now) }
{
    let n = head.n;
    if !domains_open(n, &head.leaders, &head.domains) {
        return Verdict::None;
    }
    if !free_apart(n, &head.leaders, &head.stated) {
        return Verdict::Open;
    }
    Verdict::Built(lowest_solution(n, &head.domains, &head.leaders, rows))
}

// The verdict of any state. It does not reduce first.
pub fn verdict_parts(head: Head, rows: &Rows) -> Result<Verdict, Cause>
    ensures { verdict_told result ≡ verdict_of (state_of head rows.now) }
{
    if !sound_parts(head, rows) {
        return Err(Cause::Unsound);
    }
    Ok(verdict_of(head, rows))
}
