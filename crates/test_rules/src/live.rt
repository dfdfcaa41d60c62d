// Trimming the live lists against each other, and the full reduction in turn with it, by the words of document 02. Options are counted from 0, and `free`
// has the live ones as bits.
use crate::followers;
use crate::rules::reduced;
use sheet::State;
use std::array;
use test_oracle::fields;
use test_oracle::fields::{bits, has, row_at, word_at};

// "every value has a partner in each stated live pair": value `a` of `i` has one in each of these lists.
fn is_partnered(
    free: u32,
    lists: [u32; 16],
    stated: [u32; 16],
    rows: &[u32; 3840],
    i: usize,
    a: usize,
) -> bool {
    let others = free & word_at(stated, i);
    (0..16).all(|j| !has(others, j) || row_at(rows, i, j, a) & word_at(lists, j) != 0)
}

// The values in the list of `i` that have such partners.
pub(crate) fn left_of(
    free: u32,
    lists: [u32; 16],
    stated: [u32; 16],
    rows: &[u32; 3840],
    i: usize,
) -> u32 {
    let list = word_at(lists, i);
    bits(
        32,
        |a| has(list, a) && is_partnered(free, lists, stated, rows, i, a),
    )
}

// What a pass leaves of the list of `i`, by the lists before the pass.
fn list_after(free: u32, lists: [u32; 16], stated: [u32; 16], rows: &[u32; 3840], i: usize) -> u32 {
    if !has(free, i) {
        return word_at(lists, i);
    }
    left_of(free, lists, stated, rows, i)
}

fn lists_after(free: u32, lists: [u32; 16], stated: [u32; 16], rows: &[u32; 3840]) -> [u32; 16] {
    array::from_fn(|i| list_after(free, lists, stated, rows, i))
}

// One pass over all values of all live lists.
fn passed(state: State) -> State {
    let domains = state.domains;
    let leaders = state.leaders;
    let stated = state.stated;
    let free = fields::free(state.n, leaders);
    let lists = lists_after(free, domains, stated, &state.rows);
    let mut after = state;
    after.domains = lists;
    after
}

// Some list of the one is not that of the other.
pub fn are_other_lists(before: State, after: State) -> bool {
    before.domains != after.domains
}

// "Remove such values until none is left": passes until one changes nothing. A pass that changes a list takes one of 512 values.
fn largest(state: State) -> State {
    let mut after = state;
    for _ in 0..512usize {
        let next = passed(after);
        if !are_other_lists(after, next) {
            return after;
        }
        after = next;
    }
    after
}

// The state with its live lists trimmed against each other, and then those of the followers.
pub fn trimmed(state: State) -> State {
    let live = largest(state);
    let domains = live.domains;
    let leaders = live.leaders;
    let lists = followers::all_trimmed(domains, leaders, &live.rows);
    let mut after = live;
    after.domains = lists;
    after
}

// "This trimming comes first; then reduce fully"
pub fn round(state: State) -> State {
    reduced(trimmed(state))
}

// The number of options that follow is the same, so that no step was taken between the two.
fn is_stepless(before: State, after: State) -> bool {
    let leaders = before.leaders;
    let others = after.leaders;
    fields::free(before.n, leaders) == fields::free(after.n, others)
}

// "alternate until neither changes anything": a round without a step ends it. Sixteen options allow fifteen steps.
pub fn alternated(state: State) -> State {
    let mut after = state;
    for _ in 0..16usize {
        let next = round(after);
        if is_stepless(after, next) {
            return next;
        }
        after = next;
    }
    after
}
