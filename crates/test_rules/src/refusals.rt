// What a follow step is to be refused with, and which is legal. `free` has the live options as bits.
use sheet::State;
use test_oracle::brute::index_of;
use test_oracle::fields;
use test_oracle::fields::{has, row_at, word_at};

pub(crate) fn is_option(n: usize, number: usize) -> bool {
    (number != 0) & (number <= n)
}

// No value in the list of `i` has more than one allowed partner in the list of `j`.
pub(crate) fn is_functional(domains: [u32; 16], rows: &[u32; 3840], i: usize, j: usize) -> bool {
    (0..32).all(|a| {
        let partners = row_at(rows, i, j, a) & word_at(domains, j);
        !has(word_at(domains, i), a) | (u32::count_ones(partners) <= 1)
    })
}

// What a step is to be refused with, options counted from 1; 0 where it is legal.
pub fn refusal(state: State, leader: usize, follower: usize) -> u8 {
    let n = state.n;
    if !(is_option(n, leader) & is_option(n, follower)) {
        return 10;
    }
    if leader == follower {
        return 11;
    }
    let leaders = state.leaders;
    let domains = state.domains;
    let stated = state.stated;
    refusal_of_pair(
        fields::free(n, leaders),
        domains,
        stated,
        &state.rows,
        index_of(leader),
        index_of(follower),
    )
}

fn refusal_of_pair(
    free: u32,
    domains: [u32; 16],
    stated: [u32; 16],
    rows: &[u32; 3840],
    i: usize,
    j: usize,
) -> u8 {
    if !(has(free, i) & has(free, j)) {
        return 11;
    }
    if !has(word_at(stated, i), j) {
        return 12;
    }
    if !is_functional(domains, rows, i, j) {
        return 13;
    }
    0
}

// Two option numbers, counted from 1.
#[derive(Clone, Copy)]
pub struct Pair {
    pub leader: usize,
    pub follower: usize,
}

// The first legal pair from the pair number `start` on, where the pair number `k` has the leader k / 16 and the follower k % 16, counted from 0.
// From 0 on it is the lowest leader that has a legal follower, with the lowest such follower.
pub fn legal_from(state: State, start: usize) -> Option<Pair> {
    let free = fields::free(state.n, state.leaders);
    for k in 0..256 {
        let p = std::num::wrapping_add_usize(start, k) % 256;
        if refusal_of_pair(
            free,
            state.domains,
            state.stated,
            &state.rows,
            p / 16,
            p % 16,
        ) == 0
        {
            return Some(Pair {
                leader: p / 16 + 1,
                follower: p % 16 + 1,
            });
        }
    }
    None
}
