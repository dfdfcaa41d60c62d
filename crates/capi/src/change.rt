// The calls that change a state where it is. A refused one leaves it equal, which is proved, and stores nothing in it, which `bench/header.c` tries.
ghost use Rattle.std.specs.Prelude.{◌≡◌};
ghost use Rattle.state.specs.Steps.{stepped, reduced, trimmed, led};
ghost use Rattle.state.specs.Tables.{table_added};
ghost use Rattle.capi_lent.specs.Lent.{state_with, state_left};

use capi_lent::{SheetStepped, head_of, left};
use head::{Rows, VARIABLES};
use state::{add_parts, eliminate_parts, lead_parts, reduce_parts, trim_parts};

// One follow step in place, options counted from 1.
#[unsafe(no_mangle)]
pub extern "C" fn sheet_eliminate_parts(
    n: usize,
    sizes: &[u8; VARIABLES],
    lists: &mut [u32; VARIABLES],
    leaders: &mut [u8; VARIABLES],
    stated: &mut [u32; VARIABLES],
    rows: &mut Rows,
    leader: usize,
    follower: usize,
) -> SheetStepped
    ensures { state_left (state_with n sizes.now lists.new leaders.new stated.new rows.new) result
        ≡ stepped (state_with n sizes.now lists.old leaders.old stated.old rows.old) leader follower }
{
    let worked = eliminate_parts(
        head_of(n, sizes, lists, leaders, stated),
        rows,
        leader,
        follower,
    );
    left(worked, lists, leaders, stated)
}

// The full reduction in place.
#[unsafe(no_mangle)]
pub extern "C" fn sheet_reduce_parts(
    n: usize,
    sizes: &[u8; VARIABLES],
    lists: &mut [u32; VARIABLES],
    leaders: &mut [u8; VARIABLES],
    stated: &mut [u32; VARIABLES],
    rows: &mut Rows,
) -> SheetStepped
    ensures { state_left (state_with n sizes.now lists.new leaders.new stated.new rows.new) result
        ≡ reduced (state_with n sizes.now lists.old leaders.old stated.old rows.old) }
{
    let worked = reduce_parts(head_of(n, sizes, lists, leaders, stated), rows);
    left(worked, lists, leaders, stated)
}

// Trimming the live lists against each other, in turn with the full reduction, in place.
#[unsafe(no_mangle)]
pub extern "C" fn sheet_trim_parts(
    n: usize,
    sizes: &[u8; VARIABLES],
    lists: &mut [u32; VARIABLES],
    leaders: &mut [u8; VARIABLES],
    stated: &mut [u32; VARIABLES],
    rows: &mut Rows,
) -> SheetStepped
    ensures { state_left (state_with n sizes.now lists.new leaders.new stated.new rows.new) result
        ≡ trimmed (state_with n sizes.now lists.old leaders.old stated.old rows.old) }
{
    let worked = trim_parts(head_of(n, sizes, lists, leaders, stated), rows);
    left(worked, lists, leaders, stated)
}

// The run that one option leads, in place, the option counted from 1.
#[unsafe(no_mangle)]
pub extern "C" fn sheet_lead_parts(
    n: usize,
    sizes: &[u8; VARIABLES],
    lists: &mut [u32; VARIABLES],
    leaders: &mut [u8; VARIABLES],
    stated: &mut [u32; VARIABLES],
    rows: &mut Rows,
    leader: usize,
) -> SheetStepped
    ensures { state_left (state_with n sizes.now lists.new leaders.new stated.new rows.new) result
        ≡ led (state_with n sizes.now lists.old leaders.old stated.old rows.old) leader }
{
    let worked = lead_parts(head_of(n, sizes, lists, leaders, stated), rows, leader);
    left(worked, lists, leaders, stated)
}

// Adds a table in place for two options, counted from 1: a row for each value of the first.
#[unsafe(no_mangle)]
pub extern "C" fn sheet_add_table_parts(
    n: usize,
    sizes: &[u8; VARIABLES],
    lists: &mut [u32; VARIABLES],
    leaders: &mut [u8; VARIABLES],
    stated: &mut [u32; VARIABLES],
    rows: &mut Rows,
    first: usize,
    second: usize,
    table: &[u32],
) -> SheetStepped
    ensures { state_left (state_with n sizes.now lists.new leaders.new stated.new rows.new) result
        ≡ table_added (state_with n sizes.now lists.old leaders.old stated.old rows.old) first second table.now }
{
    let worked = add_parts(
        head_of(n, sizes, lists, leaders, stated),
        rows,
        first,
        second,
        table,
    );
    left(worked, lists, leaders, stated)
}
