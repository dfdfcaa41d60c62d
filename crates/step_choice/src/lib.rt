// Which step is legal, and which comes next. The head goes by value once a call, and each pair is judged by the words that it needs.
#![tactic(auto)]

ghost use Rattle.std.specs.Prelude.{List, ◌≡◌, true, ℕ, ◌≤◌};
ghost use Rattle.head.specs.Held.{held, sound_in};
ghost use Rattle.pairs.specs.Pairs.{variables};
ghost use Rattle.network.specs.Step.{refusal};
ghost use Rattle.network.specs.Reduction.{lead_refusal};
ghost use Rattle.answers.specs.Answers.{outcome_number};
ghost use Rattle.step_choice.specs.Judging.{follower_pair, next_pair, who_leads};

use cause::Cause;
use head::Head;
use pairs::Rows;
use step_judge::judge_pair;

// Who leads each step of a run: the lowest variable that has a legal follower, or one that is named, counted from 0.
#[derive(Clone, Copy)]
pub enum Leader {
    Lowest,
    Named(usize),
}

// What refuses the step, variables counted from 1. Tested upward: 10, 11, 12, 13.
pub fn judge(head: Head, rows: &Rows, leader: usize, follower: usize) -> Result<(), Cause>
    requires { sound_in head rows.now ≡ true }
    ensures { outcome_number result ≡ refusal (held head rows.now) leader follower }
{
    let n = head.n;
    if leader == 0 {
        return Err(Cause::VariableNumber);
    }
    if n < leader {
        return Err(Cause::VariableNumber);
    }
    if follower == 0 {
        return Err(Cause::VariableNumber);
    }
    if n < follower {
        return Err(Cause::VariableNumber);
    }
    if leader == follower {
        return Err(Cause::NotTwoFree);
    }
    let leaders = head.leaders;
    let domains = head.domains;
    let stated = head.stated;
    let i = leader - 1;
    let j = follower - 1;
    judge_pair(
        leaders[i], leaders[j], stated[i], domains[i], domains[j], rows, i, j,
    )
}

// What refuses a run that `leader` is to lead, counted from 1: "then 10, then 11 when the named option is not live".
pub fn judge_leader(head: Head, leader: usize) -> Result<(), Cause>
    requires { head.n ≤ variables }
    ensures { (rows : List ℕ) → outcome_number result ≡ lead_refusal (held head rows) leader }
{
    if leader == 0 {
        return Err(Cause::VariableNumber);
    }
    if head.n < leader {
        return Err(Cause::VariableNumber);
    }
    let leaders = head.leaders;
    if leaders[leader - 1] != 0 {
        return Err(Cause::NotTwoFree);
    }
    Ok(())
}

// A step is a leader and a follower, counted from 0.
// The step that the reduction takes next: "the lowest i that has a legal j, with the lowest such j".
pub fn next_pair(head: Head, rows: &Rows) -> Option<(usize, usize)>
    requires { sound_in head rows.now ≡ true }
    ensures { result ≡ next_pair (held head rows.now) }
{
    let n = head.n;
    let leaders = head.leaders;
    let domains = head.domains;
    let stated = head.stated;
    let mut found = None;
    'search: for i in 0..n {
        if leaders[i] != 0 {
            continue;
        }
        for j in 0..n {
            let judgement = judge_pair(
                leaders[i], leaders[j], stated[i], domains[i], domains[j], rows, i, j,
            );
            if let Ok(()) = judgement {
                found = Some((i, j));
                break 'search;
            }
        }
    }
    found
}

// The step that `i` takes next as a leader: with the lowest variable that can follow it.
pub fn next_follower(head: Head, rows: &Rows, i: usize) -> Option<(usize, usize)>
    requires { sound_in head rows.now ≡ true }
    ensures { result ≡ follower_pair (held head rows.now) i }
{
    let n = head.n;
    if n <= i {
        return None;
    }
    let leaders = head.leaders;
    let domains = head.domains;
    let stated = head.stated;
    for j in 0..n {
        let judgement = judge_pair(
            leaders[i], leaders[j], stated[i], domains[i], domains[j], rows, i, j,
        );
        if let Ok(()) = judgement {
            return Some((i, j));
        }
    }
    None
}

// The step that a run takes next.
pub fn next_step(head: Head, rows: &Rows, leader: Leader) -> Option<(usize, usize)>
    requires { sound_in head rows.now ≡ true }
    ensures { result ≡ follower_pair (held head rows.now) (who_leads leader (held head rows.now)) }
{
    match leader {
        Leader::Lowest => next_pair(head, rows),
        Leader::Named(i) => next_follower(head, rows, i),
    }
}
