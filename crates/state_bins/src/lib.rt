// Deliveries and call-offs against the bins of a state: what each asks, as plain data, and the public calls on lent bins.
#![tactic(auto)]

ghost use Rattle.std.specs.Prelude.{◌≡◌};
ghost use Rattle.bounded.specs.Table.{tabulate};
ghost use Rattle.answers.specs.Answers.{outcome_number};
ghost use Rattle.state.specs.View.{state_of};
ghost use Rattle.state.specs.Solutions.{values_of};
ghost use Rattle.state_bins.specs.Bins.{delivery_number, delivered_bins, call_off_number, called_off_bins};
ghost use Rattle.state_bins.specs.Asked.{delivery_refusal, call_off_refusal, Delivers, CallsOff};
ghost use Rattle.state_bins.specs.Numbers.{one_of};

use answers::{test_agrees, test_number};
use bins::{Bin, Plan};
use bins_post::post;
use cause::Cause;
use folds::table;
use head::{Head, Rows, VARIABLES};
use soundness::sound_parts;
use state::{State, head_in};
use state_solutions::test_parts;

// A byte of a buffer, and 0 past it.
fn byte(solution: &[u8], i: usize) -> u8
    ensures { result ≡ values_of solution.now i }
{
    if i < solution.len() {
        return solution[i];
    }
    0
}

// The first sixteen.
fn sixteen(solution: &[u8]) -> [u8; VARIABLES]
    ensures { result ≡ tabulate 16 (values_of solution.now) }
{
    table(|i| byte(solution, i))
}

// What is refused whatever the bins hold: 9 or 28. A value that no list has is taken.
fn refuse_delivery(head: Head, rows: &Rows, variable: usize, value: usize) -> u8
    ensures { result ≡ delivery_refusal (state_of head rows.now) variable value }
{
    if !sound_parts(head, rows) {
        return 9;
    }
    if variable < 1 {
        return 28;
    }
    let n = head.n;
    if n < variable {
        return 28;
    }
    let sizes = head.sizes;
    let size = sizes[variable - 1] as usize;
    if value < size {
        return 0;
    }
    28
}

fn refuse_call_off(head: Head, rows: &Rows, solution: &[u8]) -> u8
    ensures { result ≡ call_off_refusal (state_of head rows.now) solution.now }
{
    let answer = test_parts(head, rows, solution);
    if test_number(answer) == 9 {
        return 9;
    }
    if test_agrees(answer) {
        return 0;
    }
    28
}

// A delivery: `amount` is added to the bin of `value` of `variable`, which counts from 1.
pub fn plan_delivery_parts(
    head: Head,
    rows: &Rows,
    variable: usize,
    value: usize,
    amount: u32,
) -> Plan
    ensures { Delivers result (state_of head rows.now) variable value amount }
{
    let refusal = refuse_delivery(head, rows, variable, value);
    let sizes = head.sizes;
    let values = [0u8; VARIABLES];
    Plan {
        refusal,
        n: head.n,
        sizes,
        adds: true,
        variable,
        value,
        values,
        amount,
    }
}

// A call-off: `amount` is drawn from the bin of each value of the solution.
pub fn plan_call_off_parts(head: Head, rows: &Rows, solution: &[u8], amount: u32) -> Plan
    ensures { CallsOff result (state_of head rows.now) solution.now amount }
{
    let refusal = refuse_call_off(head, rows, solution);
    let sizes = head.sizes;
    let values = sixteen(solution);
    Plan {
        refusal,
        n: head.n,
        sizes,
        adds: false,
        variable: 0,
        value: 0,
        values,
        amount,
    }
}

// A delivery, and a call-off, of a whole state.
pub fn plan_delivery(state: State, variable: usize, value: usize, amount: u32) -> Plan
    ensures { Delivers result state variable value amount }
{
    let head = head_in(state);
    let rows = state.rows;
    plan_delivery_parts(head, &rows, variable, value, amount)
}

pub fn plan_call_off(state: State, solution: &[u8], amount: u32) -> Plan
    ensures { CallsOff result state solution.now amount }
{
    let head = head_in(state);
    let rows = state.rows;
    plan_call_off_parts(head, &rows, solution, amount)
}

// The answer of a number that `post` gives.
pub fn outcome_of(code: u8) -> Result<(), Cause>
    ensures { outcome_number result ≡ one_of code }
{
    match code {
        0 => Ok(()),
        9 => Err(Cause::Unsound),
        27 => Err(Cause::BinRecords),
        28 => Err(Cause::NotInStock),
        _ => Err(Cause::BinTooLow),
    }
}

// "A delivery adds a number to one bin": that of `value` of `variable`, which counts from 1.
pub fn deliver(
    state: State,
    bins: &mut [Bin],
    variable: usize,
    value: usize,
    amount: u32,
) -> Result<(), Cause>
    ensures { (outcome_number result ≡ delivery_number state bins.old variable value amount)
        × (bins.new ≡ delivered_bins state bins.old variable value amount) }
{
    let p = plan_delivery(state, variable, value, amount);
    let code = post(bins, p);
    outcome_of(code)
}

// "A call-off names a build and a number, and draws that number from the bin of each of its values, or from none."
pub fn call_off(state: State, bins: &mut [Bin], solution: &[u8], amount: u32) -> Result<(), Cause>
    ensures { (outcome_number result ≡ call_off_number state bins.old solution.now amount)
        × (bins.new ≡ called_off_bins state bins.old solution.now amount) }
{
    let p = plan_call_off(state, solution, amount);
    let code = post(bins, p);
    outcome_of(code)
}
