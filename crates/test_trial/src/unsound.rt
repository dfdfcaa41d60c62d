// States with a fault: every call answers 9 and leaves the state and the buffer as they were.
use state::State;
use test_calls::calls::Judgement;
use test_calls::tally::Tally;
use test_calls::{calls, reads, tally, versions};
use test_inputs::families::ROOM;
use test_inputs::{random, tables};
use test_oracle::fields;
use test_rules::{faults, followers};

// The verdict or the search: 9, and no build is shown.
fn check_answer(answer: Judgement, tally: Tally) -> Tally {
    let solution = answer.solution;
    let is_zero = fields::is_zero_from(solution, 0);
    tally::expect(tally, tally::UNSOUND, (answer.verdict == 9) & is_zero)
}

// It is not called sound, and the tester, the completer, the verdict and the search say so.
fn check_solving(state: State, tally: Tally) -> Tally {
    let mut seed = tally.seed;
    let tuple = [random::byte(&mut seed) % 4; 16];
    let length = random::index(&mut seed, 17);
    let is_found = !calls::is_sound(state);
    let is_tested = calls::test(state, tuple, length) == 9;
    let is_left = calls::is_completed(state, tuple, length, 9, tuple);
    let mut after = tally::expect(tally::with_seed(tally, seed), tally::UNSOUND, is_found);
    after = tally::expect(after, tally::UNSOUND, is_tested);
    after = tally::expect(after, tally::UNSOUND, is_left);
    after = check_answer(calls::verdict(state), after);
    check_answer(calls::search(state), after)
}

// A step and the full reduction.
fn check_steps(state: State, tally: Tally) -> Tally {
    let mut seed = tally.seed;
    let leader = random::index(&mut seed, 18);
    let follower = random::index(&mut seed, 18);
    let is_refused = calls::is_refused(state, calls::eliminate(state, leader, follower), 9);
    let is_left = calls::is_refused(state, calls::reduce(state), 9);
    let stepped = tally::expect(tally::with_seed(tally, seed), tally::UNSOUND, is_refused);
    tally::expect(stepped, tally::UNSOUND, is_left)
}

// Trimming, which draws nothing.
fn check_trim(state: State, tally: Tally) -> Tally {
    let is_refused = calls::is_refused(state, calls::trim(state), 9);
    tally::expect(tally, tally::TRIMS_REFUSED, is_refused)
}

// The run that any option leads: the seed names it, and is not drawn from.
fn check_lead(state: State, tally: Tally) -> Tally {
    let leader = (tally.seed % 18) as usize;
    let is_refused = calls::is_refused(state, calls::lead(state, leader), 9);
    tally::expect(tally, tally::LEADS_UNSOUND, is_refused)
}

// An order, found and tested: the seed gives the buffer and its length, and is not drawn from.
fn check_orders(state: State, tally: Tally) -> Tally {
    let given = [(tally.seed % 251) as u8; 16];
    let length = (tally.seed % 17) as usize;
    let is_left = calls::is_unordered(state, given, length, 9);
    let is_refused = calls::test_order(state, given, length) == 9;
    let found = tally::expect(tally, tally::ORDERS_UNSOUND, is_left);
    tally::expect(found, tally::ORDERS_UNSOUND, is_refused)
}

// Whatever the table is.
fn check_table(state: State, tally: Tally) -> Tally {
    let mut seed = tally.seed;
    let n = random::from(&mut seed, 1, 17);
    let sizes = state.sizes;
    let table = tables::drawn(n, sizes, &mut seed);
    let is_refused = calls::is_refused(state, calls::add_table(state, table), 9);
    tally::expect(
        tally::with_seed(tally, seed),
        tally::TABLES_UNSOUND,
        is_refused,
    )
}

fn check_write(state: State, tally: Tally) -> Tally {
    let mut seed = tally.seed;
    let room = random::index(&mut seed, ROOM + 1);
    let version = versions::any(&mut seed);
    reads::check_unwritten(state, version, room, 9, tally::with_seed(tally, seed))
}

// Every call on a state that is not sound.
fn check_calls(state: State, tally: Tally) -> Tally {
    let mut after = check_solving(state, tally);
    after = check_write(state, after);
    after = check_steps(state, after);
    after = check_trim(state, after);
    after = check_lead(state, after);
    after = check_orders(state, after);
    check_table(state, after)
}

// With one fault.
fn check_damaged(state: State, tally: Tally) -> Tally {
    let mut seed = tally.seed;
    let damaged = faults::damaged(state, &mut seed);
    let counted = tally::count(tally, tally::DAMAGED_STATES);
    check_calls(damaged, tally::with_seed(counted, seed))
}

// What the seed of the faults below differs by.
const APART: u64 = 11400714819323198485;

// With a dead value in the list of a follower, where there is one: what is wrong is this alone. It is drawn from a seed of its own, as other inputs are not
// to hang on how many such states there are.
fn check_dead(state: State, tally: Tally) -> Tally {
    let mut seed = tally.seed ^ APART;
    let from = random::index(&mut seed, followers::VALUES);
    let Some(at) = followers::dead_from(state, from) else {
        return tally;
    };
    let run = check_calls(followers::with_value(state, at), tally::start(seed));
    let counted = tally::count(tally, tally::DEAD_VALUES);
    tally::with_unsound(counted, tally::DEAD_CALLS, run)
}

// The state with either fault.
pub(crate) fn check(state: State, tally: Tally) -> Tally {
    check_dead(state, check_damaged(state, tally))
}
