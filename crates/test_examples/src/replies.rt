// What a state answers, compared with what it must.
use crate::outcomes::is_outcome;
use crate::values::{is_shown, option_at, table_of, values_of};
use state::State;
use test_calls::calls;
use test_checks::lists::Run;
use test_oracle::brute::{byte, index_of};
use test_oracle::fields;

// What the tester answers for the values.
fn is_tested(state: State, given: &[u8], answer: &[u8]) -> bool {
    calls::test(state, values_of(given), given.len()) == byte(answer, 0)
}

// The number that the completer answers for the values, and the values that it leaves.
fn is_completed(state: State, given: &[u8], answer: &[u8]) -> bool {
    let completed = calls::complete(state, values_of(given), given.len());
    let left = completed.buffer;
    is_shown(completed.number, left, answer)
}

// What the search says, and the build.
fn is_found(state: State, answer: &[u8]) -> bool {
    let found = calls::search(state);
    let solution = found.solution;
    is_shown(found.verdict, solution, answer)
}

// What the test of an order answers for the list.
fn is_ordered(state: State, given: &[u8], answer: &[u8]) -> bool {
    calls::test_order(state, values_of(given), given.len()) == byte(answer, 0)
}

// The number that the finding of an order answers, and the bytes that it leaves.
fn is_order_found(state: State, given: &[u8], answer: &[u8]) -> bool {
    let found = calls::find_order(state, values_of(given), given.len());
    let left = found.buffer;
    is_shown(found.number, left, answer)
}

// Two options that are stated together, a value of the first, and its row.
fn is_row(state: State, given: &[u8], answer: &[u8]) -> bool {
    let i = index_of(byte(given, 0) as usize);
    let j = index_of(byte(given, 1) as usize);
    let row = fields::row_at(&state.rows, i, j, byte(given, 2) as usize);
    let stated = state.stated;
    fields::has(fields::word_at(stated, i), j) & (row == byte(answer, 0) as u32)
}

// A table is refused with a number, by the call alone: the rules are those of sound states.
fn is_turned_away(state: State, given: &[u8], answer: &[u8]) -> bool {
    let added = calls::add_table(state, table_of(given));
    calls::is_refused(state, added, byte(answer, 0))
}

// A state that is not sound: a step of two options, the full reduction, trimming, the run that the first leads and the verdict are refused with a number.
fn is_unsound(state: State, given: &[u8], answer: &[u8]) -> bool {
    let number = byte(answer, 0);
    let stepped = calls::eliminate(state, option_at(given, 0), option_at(given, 1));
    let judged = calls::verdict(state);
    let solution = judged.solution;
    let is_left = calls::is_refused(state, stepped, number)
        & calls::is_refused(state, calls::reduce(state), number)
        & calls::is_refused(state, calls::trim(state), number)
        & calls::is_refused(state, calls::lead(state, option_at(given, 0)), number);
    let is_judged = (judged.verdict == number) & fields::is_zero_from(solution, 0);
    is_left & is_judged & !calls::is_sound(state)
}

// The lists of all options, a byte for each.
fn are_listed(domains: [u32; 16], answer: &[u8]) -> bool {
    domains
        .iter()
        .enumerate()
        .all(|(i, &list)| list == byte(answer, i) as u32)
}

// The state answers what it must. Another letter than these is none of a line.
pub(crate) fn is_answered(run: Run, letter: u8, given: &[u8], answer: &[u8]) -> bool {
    let state = run.state;
    let domains = state.domains;
    match letter {
        b't' => is_tested(state, given, answer),
        b'c' => is_completed(state, given, answer),
        b's' => is_found(state, answer),
        b'q' => is_ordered(state, given, answer),
        b'x' => is_order_found(state, given, answer),
        b'w' => is_row(state, given, answer),
        b'o' => is_outcome(state, run.steps, answer),
        b'l' => are_listed(domains, answer),
        b'u' => is_turned_away(state, given, answer),
        b'b' => is_unsound(state, given, answer),
        _ => false,
    }
}
