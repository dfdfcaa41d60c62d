// A delivery and a call-off for C: the state's arrays are lent one by one, the bins as a pointer and a length.
ghost use Rattle.std.specs.Prelude.{◌≡◌};
ghost use Rattle.capi_lent.specs.Lent.{state_with};
ghost use Rattle.state_bins.specs.Bins.{delivery_number, delivered_bins, call_off_number, called_off_bins};
ghost use Rattle.state_bins.specs.Asked.{Delivers, CallsOff};

use bins::{Bin, Plan};
use bins_post::post;
use capi_lent::head_of;
use head::{Rows, VARIABLES};
use state_bins::{plan_call_off_parts, plan_delivery_parts};

// What each asks of lent arrays, as plain data.
fn delivery_lent<'a>(
    n: usize,
    sizes: &'a [u8; VARIABLES],
    lists: &'a [u32; VARIABLES],
    leaders: &'a [u8; VARIABLES],
    stated: &'a [u32; VARIABLES],
    rows: &'a Rows,
    variable: usize,
    value: usize,
    amount: u32,
) -> Plan
    ensures { Delivers result (state_with n sizes.now lists.now leaders.now stated.now rows.now) variable value amount }
{
    let head = head_of(n, sizes, lists, leaders, stated);
    plan_delivery_parts(head, rows, variable, value, amount)
}

fn call_off_lent<'a>(
    n: usize,
    sizes: &'a [u8; VARIABLES],
    lists: &'a [u32; VARIABLES],
    leaders: &'a [u8; VARIABLES],
    stated: &'a [u32; VARIABLES],
    rows: &'a Rows,
    solution: &'a [u8],
    amount: u32,
) -> Plan
    ensures { CallsOff result (state_with n sizes.now lists.now leaders.now stated.now rows.now) solution.now amount }
{
    let head = head_of(n, sizes, lists, leaders, stated);
    plan_call_off_parts(head, rows, solution, amount)
}

// "A delivery adds a number to one bin": that of `value` of `variable`, which counts from 1.
#[unsafe(no_mangle)]
pub extern "C" fn sheet_deliver_parts<'a>(
    n: usize,
    sizes: &'a [u8; VARIABLES],
    lists: &'a [u32; VARIABLES],
    leaders: &'a [u8; VARIABLES],
    stated: &'a [u32; VARIABLES],
    rows: &'a Rows,
    bins: &mut [Bin],
    variable: usize,
    value: usize,
    amount: u32,
) -> u8
    ensures { (result ≡ delivery_number (state_with n sizes.now lists.now leaders.now stated.now rows.now) bins.old variable value amount)
        × (bins.new ≡ delivered_bins (state_with n sizes.now lists.now leaders.now stated.now rows.now) bins.old variable value amount) }
{
    let p = delivery_lent(
        n, sizes, lists, leaders, stated, rows, variable, value, amount,
    );
    post(bins, p)
}

// "A call-off names a build and a number, and draws that number from the bin of each of its values, or from none."
#[unsafe(no_mangle)]
pub extern "C" fn sheet_call_off_parts<'a>(
    n: usize,
    sizes: &'a [u8; VARIABLES],
    lists: &'a [u32; VARIABLES],
    leaders: &'a [u8; VARIABLES],
    stated: &'a [u32; VARIABLES],
    rows: &'a Rows,
    bins: &mut [Bin],
    solution: &'a [u8],
    amount: u32,
) -> u8
    ensures { (result ≡ call_off_number (state_with n sizes.now lists.now leaders.now stated.now rows.now) bins.old solution.now amount)
        × (bins.new ≡ called_off_bins (state_with n sizes.now lists.now leaders.now stated.now rows.now) bins.old solution.now amount) }
{
    let p = call_off_lent(n, sizes, lists, leaders, stated, rows, solution, amount);
    post(bins, p)
}
