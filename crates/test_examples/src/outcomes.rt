// What a state comes to, as a text: the number of steps taken, the verdict's first letter, and three digits for each option: its leader, its list where it
// is live, and its value in the build shown.
use state::State;
use test_calls::calls;
use test_calls::calls::{BUILT, NONE, OPEN};
use test_oracle::brute;

// The digit at a place, 0 past the end.
fn digit(expected: &[u8], at: usize) -> u8 {
    let byte = brute::byte(expected, at);
    if byte < b'0' {
        return 0;
    }
    byte - b'0'
}

fn letter(verdict: u8) -> u8 {
    match verdict {
        BUILT => b'B',
        NONE => b'N',
        OPEN => b'O',
        _ => 0,
    }
}

fn is_option(expected: &[u8], leader: u8, list: u32, value: u8, at: usize) -> bool {
    let is_led = digit(expected, at) == leader;
    let is_listed = digit(expected, brute::past(at, 1)) as u32 == list;
    let is_shown = digit(expected, brute::past(at, 2)) == value;
    is_led & (is_listed | (leader != 0)) & is_shown
}

fn are_options(expected: &[u8], leaders: [u8; 16], domains: [u32; 16], solution: [u8; 16]) -> bool {
    (0..16).all(|i| is_option(expected, leaders[i], domains[i], solution[i], 2 + 3 * i))
}

// The state, after so many steps, is what is expected.
pub fn is_outcome(state: State, steps: usize, expected: &[u8]) -> bool {
    let judged = calls::verdict(state);
    let is_counted = digit(expected, 0) as usize == steps;
    let is_judged = letter(judged.verdict) == brute::byte(expected, 1);
    let leaders = state.leaders;
    let domains = state.domains;
    let solution = judged.solution;
    let are_as_expected = are_options(expected, leaders, domains, solution);
    is_counted & is_judged & are_as_expected
}

// The sheet is accepted and comes to what is expected.
pub fn is_cut(bytes: &[u8], expected: &[u8]) -> bool {
    let reading = calls::read(bytes);
    let answer = calls::reduce(reading.state);
    let is_done = (reading.number == 0) & (answer.number == 0);
    is_done & is_outcome(answer.state, answer.steps, expected)
}
