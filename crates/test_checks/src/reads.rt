// Reading and writing back: what was read is written in every version and read again.
use state::State;
use test_calls::reads::{UNTOUCHED, check_read_as};
pub use test_calls::reads::{
    check, check_refused, check_unwritten, check_written, is_paired_reading,
};
use test_calls::tally::Tally;
use test_calls::{calls, tally, versions};
use test_inputs::families;
use test_inputs::families::ROOM;
use test_oracle::{brute, judge};

// In another version the state has other bytes, which are read as the same state: where every size fits it, and it does not ban a row.
fn check_in(bytes: &[u8], state: State, version: u8, tally: Tally) -> Tally {
    let other = versions::rewritten(bytes, version);
    let buffer = other.bytes;
    let made = families::first(&buffer, other.length);
    let judged = judge::judge(made);
    let number = judged.number;
    match number {
        0 => check_read_as(made, state, check_written(made, state, tally)),
        26 => check_refused(state, version as usize, 26, tally),
        _ => check_refused(state, version as usize, 24, tally),
    }
}

// A state to which tables were added and in which no option follows is written as a sheet, which is read as the same state.
pub fn check_with_tables(state: State, tally: Tally) -> Tally {
    let written = calls::write(state, 2, [UNTOUCHED; ROOM], ROOM);
    let buffer = written.buffer;
    let held = tally::hold(tally, written.number == 0);
    let bytes = families::first(&buffer, written.length);
    check_round_trip(bytes, state, check_read_as(bytes, state, held))
}

// A sheet that was read is written back byte for byte, and in the other versions, but in none that is unknown.
pub fn check_round_trip(bytes: &[u8], state: State, tally: Tally) -> Tally {
    let mut seed = tally.seed;
    let unknown = versions::unknown(&mut seed);
    let second = versions::after(brute::byte(bytes, 0));
    let mut after = check_written(bytes, state, tally::with_seed(tally, seed));
    after = check_in(bytes, state, second, after);
    after = check_in(bytes, state, versions::after(second), after);
    check_refused(state, unknown, 24, after)
}
