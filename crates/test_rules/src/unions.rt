// "the largest choice of lists within the given ones in which every value has a partner in each stated live pair", as the union of all such choices: every
// choice of lists is gone through, and no value is ever removed. For live lists that have few values together.
use crate::live::left_of;
use sheet::State;
use std::array;
use test_oracle::fields;
use test_oracle::fields::{bit_if, has, wide, word_at};

// The most values that live lists may have together, and the number of choices of lists that so many have.
const FEW: usize = 7;

const CHOICES: usize = 128;

// The values of a list that a number picks, and what is left of the number for the next list.
#[derive(Clone, Copy)]
struct Picked {
    values: u32,
    left: usize,
}

// Bit by bit, one for each value of the list.
fn pick(list: u32, number: usize) -> Picked {
    let mut values: u32 = 0;
    let mut left = number;
    for a in 0..32usize {
        if has(list, a) {
            values = values | bit_if(left % 2 == 1, a);
            left = left / 2;
        }
    }
    Picked { values, left }
}

// The choice of lists that a number stands for.
fn choice(free: u32, lists: [u32; 16], number: usize) -> [u32; 16] {
    let mut chosen = [0u32; 16];
    let mut left = number;
    for i in 0..16 {
        if has(free, i) {
            let picked = pick(word_at(lists, i), left);
            chosen[i] = picked.values;
            left = picked.left;
        }
    }
    chosen
}

// "every value has a partner in each stated live pair"
fn are_partnered(free: u32, lists: [u32; 16], stated: [u32; 16], rows: &[u32; 3840]) -> bool {
    (0..16).all(|i| !has(free, i) || left_of(free, lists, stated, rows, i) == word_at(lists, i))
}

// The values of either.
fn joined(lists: [u32; 16], others: [u32; 16]) -> [u32; 16] {
    array::from_fn(|i| word_at(lists, i) | word_at(others, i))
}

// The union of all choices within the lists that are partnered.
fn union_of(free: u32, lists: [u32; 16], stated: [u32; 16], rows: &[u32; 3840]) -> [u32; 16] {
    let mut all = [0u32; 16];
    for number in 0..CHOICES {
        let chosen = choice(free, lists, number);
        if are_partnered(free, chosen, stated, rows) {
            let next = joined(all, chosen);
            all = next;
        }
    }
    all
}

// How many values the live lists have together.
fn value_count(free: u32, lists: [u32; 16]) -> usize {
    let mut count: usize = 0;
    for i in 0..16 {
        if has(free, i) {
            count = std::num::wrapping_add_usize(count, wide(u32::count_ones(word_at(lists, i))));
        }
    }
    count
}

// All choices of the lists of this state can be gone through.
pub fn is_small(state: State) -> bool {
    let domains = state.domains;
    let leaders = state.leaders;
    value_count(fields::free(state.n, leaders), domains) <= FEW
}

// The live lists of `after` are the union of all partnered choices within those of `before`.
pub fn is_union(before: State, after: State) -> bool {
    let domains = before.domains;
    let leaders = before.leaders;
    let stated = before.stated;
    let lists = after.domains;
    let free = fields::free(before.n, leaders);
    let all = union_of(free, domains, stated, &before.rows);
    let live = choice_of_live(free, lists);
    all == live
}

// The lists of live options, and no others.
fn choice_of_live(free: u32, lists: [u32; 16]) -> [u32; 16] {
    array::from_fn(|i| { if has(free, i) { word_at(lists, i) } else { 0 } })
}
