// Paths "through tables functional along the way", and good orders, by the words of document 02. Options are counted from 0, but in an order from 1.
use crate::refusals::is_functional;
use sheet::State;
use std::array;
use test_inputs::families::first;
use test_oracle::brute::index_of;
use test_oracle::fields::{bits, byte_at, has, word_at};
use test_oracle::orders::{LISTS, is_order, numbered};

// "The stated tables and lists of the given state count, followers included": the options that `i` is stated with, where the table is functional from `i`.
fn edges_from(domains: [u32; 16], stated: [u32; 16], rows: &[u32; 3840], i: usize) -> u32 {
    let others = word_at(stated, i);
    bits(16, |j| has(others, j) && is_functional(domains, rows, i, j))
}

fn edges_of(state: State) -> [u32; 16] {
    let domains = state.domains;
    let stated = state.stated;
    array::from_fn(|i| edges_from(domains, stated, &state.rows, i))
}

// Some options, and those that an edge from one of them leads to.
fn one_farther(edges: [u32; 16], some: u32) -> u32 {
    (0..16)
        .filter(|&j| has(some, j))
        .fold(some, |all, j| all | word_at(edges, j))
}

// The options that a path leads to from `i`: of sixteen options no two need a path of sixteen edges.
fn reached_from(edges: [u32; 16], i: usize) -> u32 {
    let mut reached = word_at(edges, i);
    for _ in 0..15usize {
        reached = one_farther(edges, reached);
    }
    reached
}

// For each option those that a path leads to from it.
pub fn reached(state: State) -> [u32; 16] {
    let edges = edges_of(state);
    array::from_fn(|i| reached_from(edges, i))
}

// "for an earlier option i and a later option j, a path from j to i .. implies such a path from i to j", where `i` is at the place `p` and `j` at `q`.
fn is_kept_at(reached: [u32; 16], order: [u8; 16], p: usize, q: usize) -> bool {
    let i = index_of(byte_at(order, p));
    let j = index_of(byte_at(order, q));
    !has(word_at(reached, j), i) | has(word_at(reached, i), j)
}

// "An order is good when" this holds of any two places, the earlier first.
pub fn is_good(reached: [u32; 16], order: [u8; 16], n: usize) -> bool {
    (0..256).all(|k| {
        let p = k / 16;
        let q = k % 16;
        (q <= p) | (n <= q) || is_kept_at(reached, order, p, q)
    })
}

// The list is an order, and a good one.
fn is_good_order(reached: [u32; 16], list: [u8; 16], n: usize) -> bool {
    is_order(first(&list, n), n) && is_good(reached, list, n)
}

// The first of all good orders of at most five options, by going through all lists.
pub fn first_good(reached: [u32; 16], n: usize) -> [u8; 16] {
    (0..LISTS)
        .map(|k| numbered(n, k))
        .find(|&list| is_good_order(reached, list, n))
        .unwrap_or([0; 16])
}
