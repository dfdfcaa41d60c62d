// Choices of values for the live options, and the lists that they are drawn from. `free` has the live options as bits.
use crate::fields::{bit_if, byte_at, has, row_at, word_at};

// Each live option's value is in its list.
fn are_listed(free: u32, domains: [u32; 16], tuple: [u8; 16]) -> bool {
    (0..16).all(|i| !has(free, i) | has(word_at(domains, i), byte_at(tuple, i)))
}

fn is_allowed(
    free: u32,
    stated: [u32; 16],
    rows: &[u32; 3840],
    tuple: [u8; 16],
    i: usize,
    j: usize,
) -> bool {
    let are_stated = has(free, i) & has(free & word_at(stated, i), j);
    !are_stated || has(row_at(rows, i, j, byte_at(tuple, i)), byte_at(tuple, j))
}

// Each stated pair of two live options allows its two values.
fn are_allowed(free: u32, stated: [u32; 16], rows: &[u32; 3840], tuple: [u8; 16]) -> bool {
    (0..256).all(|k| is_allowed(free, stated, rows, tuple, k / 16, k % 16))
}

// What the completer is to refuse a choice with, 0 where it is allowed.
pub fn refusal(
    free: u32,
    domains: [u32; 16],
    stated: [u32; 16],
    rows: &[u32; 3840],
    tuple: [u8; 16],
) -> u8 {
    if !are_listed(free, domains, tuple) {
        return 15;
    }
    if !are_allowed(free, stated, rows, tuple) {
        return 16;
    }
    0
}

// The values of followers are 0: of the tuples that agree at the live options, one.
pub fn is_choice(free: u32, tuple: [u8; 16]) -> bool {
    (0..16).all(|i| has(free, i) | (byte_at(tuple, i) == 0))
}

// The bytes of live options, and those past n, are as they were.
pub fn are_kept(n: usize, free: u32, before: [u8; 16], after: [u8; 16]) -> bool {
    (0..16).all(|i| {
        let is_follower = (i < n) & !has(free, i);
        is_follower | (byte_at(before, i) == byte_at(after, i))
    })
}

// Some live list is empty.
pub fn has_empty_list(free: u32, domains: [u32; 16]) -> bool {
    (0..16).any(|i| has(free, i) & (word_at(domains, i) == 0))
}

fn is_lowest(free: u32, domains: [u32; 16], tuple: [u8; 16], i: usize) -> bool {
    let domain = word_at(domains, i);
    let value = byte_at(tuple, i);
    let lowest = domain ^ (domain & std::num::wrapping_sub_u32(domain, 1));
    !has(free, i) | (has(domain, value) & (bit_if(true, value) == lowest))
}

// Each live option has the lowest value of its list.
pub fn are_lowest(free: u32, domains: [u32; 16], tuple: [u8; 16]) -> bool {
    (0..16).all(|i| is_lowest(free, domains, tuple, i))
}

// No two live options are stated together.
pub fn are_apart(free: u32, stated: [u32; 16]) -> bool {
    (0..16).all(|i| !has(free, i) | (word_at(stated, i) & free == 0))
}

// "live options compared in ascending number and lower values first": the one comes before the other.
pub fn precedes(free: u32, one: [u8; 16], other: [u8; 16]) -> bool {
    for i in 0..16 {
        let value = byte_at(one, i);
        let second = byte_at(other, i);
        if has(free, i) & (value != second) {
            return value < second;
        }
    }
    false
}

// How often a list of a live option goes into `left`; `left` for another.
fn times_in(left: u32, free: u32, domain: u32, i: usize) -> u32 {
    let count = u32::count_ones(domain);
    if !has(free, i) {
        return left;
    }
    if count == 0 {
        return left;
    }
    left / count
}

// The product of the sizes of the live lists exceeds 1,000,000, where none is empty: 1,000,000 divided by each in turn is 0.
pub fn are_many(free: u32, domains: [u32; 16]) -> bool {
    let mut left: u32 = 1000000;
    for (i, &domain) in domains.iter().enumerate() {
        left = times_in(left, free, domain, i);
    }
    (left == 0) & !has_empty_list(free, domains)
}
