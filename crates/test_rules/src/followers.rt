// The lists of followers: "A value stays in a follower's list exactly when it is the partner of a value in the leader's list." Options are counted from 0.
use sheet::State;
use std::array;
use test_oracle::brute::index_of;
use test_oracle::fields::{bit_if, byte_at, has, row_at, word_at};

// The partners in `x` of value `a` of its leader `l`: "A live option's value is its own partner."
pub(crate) fn partners(
    domains: [u32; 16],
    rows: &[u32; 3840],
    l: usize,
    x: usize,
    a: usize,
) -> u32 {
    if l == x {
        return bit_if(true, a);
    }
    row_at(rows, l, x, a) & word_at(domains, x)
}

// The partners in `x` of all values in the list of `l`.
fn all_partners(domains: [u32; 16], rows: &[u32; 3840], l: usize, x: usize) -> u32 {
    let list = word_at(domains, l);
    (0..32)
        .filter(|&a| has(list, a))
        .fold(0, |word, a| word | partners(domains, rows, l, x, a))
}

// The list of `x` once the followers of `l` are trimmed.
fn list_after(
    domains: [u32; 16],
    leaders: [u8; 16],
    rows: &[u32; 3840],
    l: usize,
    x: usize,
) -> u32 {
    let leader = byte_at(leaders, x);
    if (leader == 0) | (index_of(leader) != l) {
        return word_at(domains, x);
    }
    all_partners(domains, rows, l, x)
}

// "trims the lists of all followers of the leader concerned": the lists with those of all followers of `l` trimmed.
pub(crate) fn trimmed(
    domains: [u32; 16],
    leaders: [u8; 16],
    rows: &[u32; 3840],
    l: usize,
) -> [u32; 16] {
    array::from_fn(|x| list_after(domains, leaders, rows, l, x))
}

// The lists with those of all followers trimmed, each by its own leader.
pub(crate) fn all_trimmed(domains: [u32; 16], leaders: [u8; 16], rows: &[u32; 3840]) -> [u32; 16] {
    array::from_fn(|x| list_after(domains, leaders, rows, index_of(byte_at(leaders, x)), x))
}

// Value `b` goes with no value in the list of the leader of `x`; no value does so where `x` is live.
fn is_dead(domains: [u32; 16], leaders: [u8; 16], rows: &[u32; 3840], x: usize, b: usize) -> bool {
    let leader = byte_at(leaders, x);
    if leader == 0 {
        return false;
    }
    let l = index_of(leader);
    row_at(rows, x, l, b) & word_at(domains, l) == 0
}

// The values of all options are numbered: number `k` is value k % 32 of the option k / 32.
pub const VALUES: usize = 512;

// No list of a follower has a dead value.
pub fn are_trimmed(state: State) -> bool {
    let domains = state.domains;
    let leaders = state.leaders;
    (0..VALUES).all(|k| {
        let x = k / 32;
        let b = k % 32;
        !has(word_at(domains, x), b) || !is_dead(domains, leaders, &state.rows, x, b)
    })
}

// Some list of a follower is not what it was.
pub fn is_other_list(before: State, after: State) -> bool {
    let domains = after.domains;
    let leaders = after.leaders;
    let lists = before.domains;
    (0..16).any(|x| (byte_at(leaders, x) != 0) & (word_at(domains, x) != word_at(lists, x)))
}

// The first dead value below its follower's size, from the number `start` on.
pub fn dead_from(state: State, start: usize) -> Option<usize> {
    let sizes = state.sizes;
    let domains = state.domains;
    let leaders = state.leaders;
    for k in 0..VALUES {
        let at = std::num::wrapping_add_usize(start, k) % VALUES;
        let is_below = at % 32 < byte_at(sizes, at / 32);
        if is_below && is_dead(domains, leaders, &state.rows, at / 32, at % 32) {
            return Some(at);
        }
    }
    None
}

// With the value number `at` in its follower's list. Where it is dead, no value of the leader gets a partner by it, and nothing but the list is wrong.
pub fn with_value(state: State, at: usize) -> State {
    let x = at / 32 % 16;
    let mut other = state;
    other.domains[x] = other.domains[x] | bit_if(true, at % 32);
    other
}
