// The three rules of a legal follow step by their words, value by value. `j` comes to follow `i`, both counted from 0.
use crate::followers;
use crate::refusals::legal_from;
use sheet::State;
use std::array;
use test_oracle::brute::index_of;
use test_oracle::fields::{ROWS, bits, has, place, row_at, word_at};

// Rule 1: "The list of i loses each value that has no allowed partner in the list of j."
fn trimmed(domains: [u32; 16], rows: &[u32; 3840], i: usize, j: usize) -> u32 {
    bits(32, |a| {
        let has_partner = row_at(rows, i, j, a) & word_at(domains, j) != 0;
        has_partner & has(word_at(domains, i), a)
    })
}

// "each third option k stated with j"
fn is_third(stated: [u32; 16], i: usize, j: usize, k: usize) -> bool {
    (k != i) & (k != j) & has(word_at(stated, j), k)
}

// "if i, k was stated before, it allowed (a, c) before"
pub(crate) fn was_allowed(
    stated: [u32; 16],
    rows: &[u32; 3840],
    i: usize,
    k: usize,
    a: usize,
    c: usize,
) -> bool {
    !has(word_at(stated, i), k) | has(row_at(rows, i, k, a), c)
}

// Rule 2 for the values `a` of `i` and `c` of `k`; `domains` has the new list of `i`.
fn is_composed(
    domains: [u32; 16],
    stated: [u32; 16],
    rows: &[u32; 3840],
    i: usize,
    j: usize,
    k: usize,
    a: usize,
    c: usize,
) -> bool {
    let are_listed = has(word_at(domains, i), a) & has(word_at(domains, k), c);
    // "some b in the list of j goes with both"
    let both = row_at(rows, i, j, a) & row_at(rows, k, j, c) & word_at(domains, j);
    are_listed & (both != 0) & was_allowed(stated, rows, i, k, a, c)
}

// Rule 2 for the values `a` of `p` and `c` of `q`, where one of the two is `i` and the other a third option.
fn is_composed_from(
    domains: [u32; 16],
    stated: [u32; 16],
    rows: &[u32; 3840],
    i: usize,
    j: usize,
    p: usize,
    q: usize,
    a: usize,
    c: usize,
) -> bool {
    if p == i {
        return is_composed(domains, stated, rows, i, j, q, a, c);
    }
    is_composed(domains, stated, rows, i, j, p, c, a)
}

fn composed_row(
    domains: [u32; 16],
    stated: [u32; 16],
    rows: &[u32; 3840],
    i: usize,
    j: usize,
    p: usize,
    q: usize,
    a: usize,
) -> u32 {
    bits(
        32,
        |c| is_composed_from(domains, stated, rows, i, j, p, q, a, c),
    )
}

// The options `p` and `q` are `x` and a third option, in either order.
fn is_with_third(stated: [u32; 16], i: usize, j: usize, p: usize, q: usize, x: usize) -> bool {
    if p == x {
        return is_third(stated, i, j, q);
    }
    if q == x {
        return is_third(stated, i, j, p);
    }
    false
}

// The row of value `a` of `p` against `q` after the step.
fn row_after(
    domains: [u32; 16],
    stated: [u32; 16],
    rows: &[u32; 3840],
    i: usize,
    j: usize,
    p: usize,
    q: usize,
    a: usize,
) -> u32 {
    if is_with_third(stated, i, j, p, q, i) {
        return composed_row(domains, stated, rows, i, j, p, q, a);
    }
    if is_with_third(stated, i, j, p, q, j) {
        return 0;
    }
    row_at(rows, p, q, a)
}

// Stores the row of value `a` of `p` against `q`, where `p` is the lower one.
pub(crate) fn put_row(rows: &mut [u32; 3840], p: usize, q: usize, a: usize, row: u32) {
    let at = place(p, q, a);
    if at < ROWS {
        rows[at] = row;
    }
}

// Of the rows after the step the one numbered `k`, where it is one from the lower option.
fn put_after(
    after: &mut [u32; 3840],
    domains: [u32; 16],
    stated: [u32; 16],
    rows: &[u32; 3840],
    i: usize,
    j: usize,
    k: usize,
) {
    let p = k / 512;
    let q = k / 32 % 16;
    let a = k % 32;
    if p < q {
        put_row(
            after,
            p,
            q,
            a,
            row_after(domains, stated, rows, i, j, p, q, a),
        );
    }
}

// Rule 2: the rows after the step; `domains` has the new list of `i`.
fn rows_after(
    domains: [u32; 16],
    stated: [u32; 16],
    rows: &[u32; 3840],
    i: usize,
    j: usize,
) -> [u32; 3840] {
    let mut after = [0u32; 3840];
    for k in 0..8192 {
        put_after(&mut after, domains, stated, rows, i, j, k);
    }
    after
}

// Whether `p` is stated with `q` after the step.
fn is_stated_after(stated: [u32; 16], i: usize, j: usize, p: usize, q: usize) -> bool {
    if is_with_third(stated, i, j, p, q, i) {
        return true;
    }
    if is_with_third(stated, i, j, p, q, j) {
        return false;
    }
    has(word_at(stated, p), q)
}

// Rule 2: which pairs are stated after the step.
fn stated_after(stated: [u32; 16], i: usize, j: usize) -> [u32; 16] {
    array::from_fn(|p| bits(16, |q| is_stated_after(stated, i, j, p, q)))
}

// Rule 3: "Followers of j get i as leader, and so does j."
fn leaders_after(leaders: [u8; 16], i: usize, j: usize) -> [u8; 16] {
    let leader = (i % 16) as u8 + 1;
    let follower = (j % 16) as u8 + 1;
    let mut after = leaders;
    for (x, led) in after.iter_mut().enumerate() {
        if (x == j) | (*led == follower) {
            *led = leader;
        }
    }
    after
}

// The state after a legal step, options counted from 1. "Each follow step .. now also trims the lists of all followers of the leader concerned, new ones
// included."
pub fn step(state: State, leader: usize, follower: usize) -> State {
    let i = index_of(leader);
    let j = index_of(follower);
    let leaders = state.leaders;
    let stated = state.stated;
    let mut domains = state.domains;
    if i < 16 {
        domains[i] = trimmed(domains, &state.rows, i, j);
    }
    let led = leaders_after(leaders, i, j);
    let rows = rows_after(domains, stated, &state.rows, i, j);
    State {
        domains: followers::trimmed(domains, led, &rows, i),
        leaders: led,
        stated: stated_after(stated, i, j),
        rows,
        ..state
    }
}

// The lowest legal step, again and again while there is one: sixteen options allow fifteen steps.
pub fn reduced(state: State) -> State {
    let mut after = state;
    for _ in 0..16usize {
        if let Some(pair) = legal_from(after, 0) {
            after = step(after, pair.leader, pair.follower);
        }
    }
    after
}
