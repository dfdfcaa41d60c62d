// The value of a follower at a value of its leader.
ghost use Rattle.std.specs.Prelude.{true, ◌≡◌, suc, ◌<◌, ◌≤◌, get_or};
ghost use Rattle.head.specs.Held.{sound_in};
ghost use Rattle.state.specs.View.{state_of};
ghost use Rattle.answers.specs.Answers.{value_told};
ghost use Rattle.state_solutions.specs.FollowerValue.{follower_value};

use cause::Cause;
use head::{Head, Rows};
use solutions::{has_number, partner_of};
use soundness::sound_parts;
use words::wide;

// Of the variable `i`, counted from 0, which has a leader.
fn follower_at(head: Head, rows: &Rows, i: usize, value: usize) -> Result<u8, Cause>
    requires { (sound_in head rows.now ≡ true) × (i < head.n) × (head.n ≤ 16) × (0 < get_or head.leaders i 0) × (get_or head.leaders i 0 ≤ head.n) }
    ensures { value_told result ≡ follower_value (state_of head rows.now) (suc i) value }
{
    let leaders = head.leaders;
    let domains = head.domains;
    let l = wide(leaders[i]) - 1;
    if !has_number(domains[l], value) {
        return Err(Cause::ValueRange);
    }
    Ok(partner_of(rows, l, i, domains[i], value))
}

// What the completer writes for the variable `option`, which counts from 1, where its leader has the value.
pub fn follower_value_parts(
    head: Head,
    rows: &Rows,
    option: usize,
    value: usize,
) -> Result<u8, Cause>
    ensures { value_told result ≡ follower_value (state_of head rows.now) option value }
{
    if !sound_parts(head, rows) {
        return Err(Cause::Unsound);
    }
    if option < 1 {
        return Err(Cause::VariableNumber);
    }
    if head.n < option {
        return Err(Cause::VariableNumber);
    }
    let leaders = head.leaders;
    if leaders[option - 1] == 0 {
        return Err(Cause::NotTwoFree);
    }
    follower_at(head, rows, option - 1, value)
}
