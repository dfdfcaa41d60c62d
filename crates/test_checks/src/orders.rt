// Finding an order and testing lists, on the states that lists of calls came to, against paths by code of its own.
use state::State;
use test_calls::calls::{NO, YES};
use test_calls::reads::UNTOUCHED;
use test_calls::tally::Tally;
use test_calls::{calls, tally};
use test_inputs::families::first;
use test_inputs::orders::List;
use test_inputs::{orders, random};
use test_oracle::fields::is_filled;
use test_oracle::orders::{is_order, numbers};
use test_rules::paths;

// The order that is found: of at most five options the first of all good ones, of more a good one.
fn is_found(reached: [u32; 16], order: [u8; 16], n: usize) -> bool {
    if 5 < n {
        return is_order(first(&order, n), n) && paths::is_good(reached, order, n);
    }
    let expected = paths::first_good(reached, n);
    first(&order, n) == first(&expected, n)
}

// The order that is found; what stands past it is left, and tested it is good. It is counted how often it is another than 1, 2, 3 and so on.
fn check_found(state: State, reached: [u32; 16], tally: Tally) -> Tally {
    let n = state.n;
    let found = calls::find_order(state, [UNTOUCHED; 16], n);
    let order = found.buffer;
    let is_left = is_filled(&order, first(&order, n), UNTOUCHED);
    let is_tested = calls::test_order(state, order, n) == YES;
    let is_right = (found.number == 0) & is_left & is_tested & is_found(reached, order, n);
    let by_number = numbers();
    let is_other = first(&order, n) != first(&by_number, n);
    let tried = tally::expect(tally, tally::ORDERS, is_right);
    tally::add(tried, tally::ORDERS_OTHER, is_other as u64)
}

// One list. What the test is to answer is decided here by the fields alone.
fn check_list(state: State, reached: [u32; 16], list: List, tally: Tally) -> Tally {
    let numbers = list.numbers;
    let length = list.length;
    let answer = calls::test_order(state, numbers, length);
    if !is_order(first(&numbers, length), state.n) {
        return tally::expect(tally, tally::ORDERS_WRONG, answer == 30);
    }
    if paths::is_good(reached, numbers, state.n) {
        return tally::expect(tally, tally::ORDERS_GOOD, answer == YES);
    }
    tally::expect(tally, tally::ORDERS_NOT, answer == NO)
}

fn check_any_list(state: State, reached: [u32; 16], tally: Tally) -> Tally {
    let mut seed = tally.seed;
    let list = orders::drawn(state.n, &mut seed);
    check_list(state, reached, list, tally::with_seed(tally, seed))
}

// A buffer of another length: refused, with the buffer as it was.
fn check_room(state: State, tally: Tally) -> Tally {
    let mut seed = tally.seed;
    let length = random::index(&mut seed, 17);
    let given = [random::byte(&mut seed); 16];
    let drawn = tally::with_seed(tally, seed);
    if length == state.n {
        return drawn;
    }
    let is_left = calls::is_unordered(state, given, length, 14);
    tally::expect(drawn, tally::ORDERS_ROOM, is_left)
}

// All that is claimed of the orders of a state.
pub fn check(state: State, tally: Tally) -> Tally {
    let reached = paths::reached(state);
    let mut after = check_found(state, reached, tally);
    after = check_any_list(state, reached, after);
    after = check_any_list(state, reached, after);
    after = check_any_list(state, reached, after);
    after = check_any_list(state, reached, after);
    check_room(state, after)
}
