// The calls that only look at a state: what they are lent of it is read, and nothing is stored in it.
ghost use Rattle.std.specs.Prelude.{◌≡◌};
ghost use Rattle.state.specs.View.{sound_state};
ghost use Rattle.state.specs.Write.{write_sheet};
ghost use Rattle.state.specs.Solutions.{tested, complete_number, completed_buffer, verdict_of, search_of};
ghost use Rattle.state_solutions.specs.FollowerValue.{follower_value};
ghost use Rattle.state_order.specs.Orders.{order_told, find_number, order_buffer};
ghost use Rattle.state_survey.specs.Survey.{survey_of};
ghost use Rattle.capi_lent.specs.Lent.{state_with};
ghost use Rattle.capi_answers.specs.Answers.{written_out, tested_out, value_out, verdict_out, survey_out};

use answers::outcome_number;
use capi_answers::{
    SheetSurvey, SheetTested, SheetValue, SheetVerdict, SheetWritten, survey_told, tested,
    value_told, verdict_told, written,
};
use capi_lent::head_of;
use head::{Rows, VARIABLES};

// Writes the sheet of a state in a version into the buffer.
#[unsafe(no_mangle)]
pub extern "C" fn sheet_write_parts<'a>(
    n: usize,
    sizes: &'a [u8; VARIABLES],
    lists: &'a [u32; VARIABLES],
    leaders: &'a [u8; VARIABLES],
    stated: &'a [u32; VARIABLES],
    rows: &'a Rows,
    version: usize,
    buffer: &mut [u8],
) -> SheetWritten
    ensures { (result ≡ written_out (write_sheet version (state_with n sizes.now lists.now leaders.now stated.now rows.now) buffer.old).answer)
        × (buffer.new ≡ (write_sheet version (state_with n sizes.now lists.now leaders.now stated.now rows.now) buffer.old).buffer) }
{
    let head = head_of(n, sizes, lists, leaders, stated);
    written(state_write::write_parts(head, rows, version, buffer))
}

// Whether a state is sound.
#[unsafe(no_mangle)]
pub extern "C" fn sheet_is_sound_parts<'a>(
    n: usize,
    sizes: &'a [u8; VARIABLES],
    lists: &'a [u32; VARIABLES],
    leaders: &'a [u8; VARIABLES],
    stated: &'a [u32; VARIABLES],
    rows: &'a Rows,
) -> bool
    ensures { result ≡ sound_state (state_with n sizes.now lists.now leaders.now stated.now rows.now) }
{
    soundness::sound_parts(head_of(n, sizes, lists, leaders, stated), rows)
}

// The tester.
#[unsafe(no_mangle)]
pub extern "C" fn sheet_test_parts<'a>(
    n: usize,
    sizes: &'a [u8; VARIABLES],
    lists: &'a [u32; VARIABLES],
    leaders: &'a [u8; VARIABLES],
    stated: &'a [u32; VARIABLES],
    rows: &'a Rows,
    solution: &[u8],
) -> SheetTested
    ensures { result ≡ tested_out (tested (state_with n sizes.now lists.now leaders.now stated.now rows.now) solution.now) }
{
    let head = head_of(n, sizes, lists, leaders, stated);
    tested(state_solutions::test_parts(head, rows, solution))
}

// The completer: the number that refuses.
#[unsafe(no_mangle)]
pub extern "C" fn sheet_complete_parts<'a>(
    n: usize,
    sizes: &'a [u8; VARIABLES],
    lists: &'a [u32; VARIABLES],
    leaders: &'a [u8; VARIABLES],
    stated: &'a [u32; VARIABLES],
    rows: &'a Rows,
    solution: &mut [u8],
) -> u8
    ensures { (result ≡ complete_number (state_with n sizes.now lists.now leaders.now stated.now rows.now) solution.old)
        × (solution.new ≡ completed_buffer (state_with n sizes.now lists.now leaders.now stated.now rows.now) solution.old) }
{
    let head = head_of(n, sizes, lists, leaders, stated);
    outcome_number(state_solutions::complete_parts(head, rows, solution))
}

// The value of a follower at a value of its leader, options counted from 1.
#[unsafe(no_mangle)]
pub extern "C" fn sheet_follower_value_parts<'a>(
    n: usize,
    sizes: &'a [u8; VARIABLES],
    lists: &'a [u32; VARIABLES],
    leaders: &'a [u8; VARIABLES],
    stated: &'a [u32; VARIABLES],
    rows: &'a Rows,
    variable: usize,
    value: usize,
) -> SheetValue
    ensures { result ≡ value_out (follower_value (state_with n sizes.now lists.now leaders.now stated.now rows.now) variable value) }
{
    let head = head_of(n, sizes, lists, leaders, stated);
    value_told(state_solutions::follower_value_parts(head, rows, variable, value))
}

// The verdict of a state as it is.
#[unsafe(no_mangle)]
pub extern "C" fn sheet_verdict_parts<'a>(
    n: usize,
    sizes: &'a [u8; VARIABLES],
    lists: &'a [u32; VARIABLES],
    leaders: &'a [u8; VARIABLES],
    stated: &'a [u32; VARIABLES],
    rows: &'a Rows,
) -> SheetVerdict
    ensures { result ≡ verdict_out (verdict_of (state_with n sizes.now lists.now leaders.now stated.now rows.now)) }
{
    let head = head_of(n, sizes, lists, leaders, stated);
    verdict_told(state_verdict::verdict_parts(head, rows))
}

// The search: NONE, or BUILT with the first build.
#[unsafe(no_mangle)]
pub extern "C" fn sheet_search_parts<'a>(
    n: usize,
    sizes: &'a [u8; VARIABLES],
    lists: &'a [u32; VARIABLES],
    leaders: &'a [u8; VARIABLES],
    stated: &'a [u32; VARIABLES],
    rows: &'a Rows,
) -> SheetVerdict
    ensures { result ≡ verdict_out (search_of (state_with n sizes.now lists.now leaders.now stated.now rows.now)) }
{
    let head = head_of(n, sizes, lists, leaders, stated);
    verdict_told(state_search::search_parts(head, rows))
}

// The survey: how many builds there are, and which values they have.
#[unsafe(no_mangle)]
pub extern "C" fn sheet_survey_parts<'a>(
    n: usize,
    sizes: &'a [u8; VARIABLES],
    lists: &'a [u32; VARIABLES],
    leaders: &'a [u8; VARIABLES],
    stated: &'a [u32; VARIABLES],
    rows: &'a Rows,
) -> SheetSurvey
    ensures { result ≡ survey_out (survey_of (state_with n sizes.now lists.now leaders.now stated.now rows.now)) }
{
    let head = head_of(n, sizes, lists, leaders, stated);
    survey_told(state_survey::survey_parts(head, rows))
}

// Whether an order is good.
#[unsafe(no_mangle)]
pub extern "C" fn sheet_test_order_parts<'a>(
    n: usize,
    sizes: &'a [u8; VARIABLES],
    lists: &'a [u32; VARIABLES],
    leaders: &'a [u8; VARIABLES],
    stated: &'a [u32; VARIABLES],
    rows: &'a Rows,
    order: &[u8],
) -> SheetTested
    ensures { result ≡ tested_out (order_told (state_with n sizes.now lists.now leaders.now stated.now rows.now) order.now) }
{
    let head = head_of(n, sizes, lists, leaders, stated);
    tested(state_order::test_order_parts(head, rows, order))
}

// The first good order: the number that refuses.
#[unsafe(no_mangle)]
pub extern "C" fn sheet_find_order_parts<'a>(
    n: usize,
    sizes: &'a [u8; VARIABLES],
    lists: &'a [u32; VARIABLES],
    leaders: &'a [u8; VARIABLES],
    stated: &'a [u32; VARIABLES],
    rows: &'a Rows,
    order: &mut [u8],
) -> u8
    ensures { (result ≡ find_number (state_with n sizes.now lists.now leaders.now stated.now rows.now) order.old)
        × (order.new ≡ order_buffer (state_with n sizes.now lists.now leaders.now stated.now rows.now) order.old) }
{
    let head = head_of(n, sizes, lists, leaders, stated);
    outcome_number(state_order::find_order_parts(head, rows, order))
}
