// What an added table is to be refused with, and what it makes of a state, by the words of document 02.
use crate::followers;
use crate::followers::partners;
use crate::refusals::is_option;
use crate::rules::{put_row, was_allowed};
use sheet::State;
use std::array;
use test_inputs::tables::{Table, first_words};
use test_oracle::brute::index_of;
use test_oracle::fields::{bit_if, bits, byte_at, has, lower, wide, word_at};
use test_oracle::judge::is_row_wide;
use test_oracle::tables::row;

fn is_wide(rows: &[u32], size: usize) -> bool {
    rows.iter().any(|&row| is_row_wide(wide(row), size))
}

// "10, then 21 for two equal options, then 22 for a wrong count of rows or a bit at or above the size": 0 where none refuses. Options are counted from 1.
pub fn refusal(state: State, table: Table) -> u8 {
    let first = table.first;
    let second = table.second;
    if !(is_option(state.n, first) & is_option(state.n, second)) {
        return 10;
    }
    if first == second {
        return 21;
    }
    let rows = table.rows;
    let sizes = state.sizes;
    let given = first_words(&rows, table.count);
    let is_long = given.len() != byte_at(sizes, index_of(first));
    if is_long | is_wide(given, byte_at(sizes, index_of(second))) {
        return 22;
    }
    0
}

// The options named, counted from 0, and the leaders that they are traced to.
#[derive(Clone, Copy)]
pub struct Sides {
    pub first: usize,
    pub second: usize,
    pub first_leader: usize,
    pub second_leader: usize,
}

// "Each option is traced to its live leader; a live option is its own."
fn traced(leaders: [u8; 16], x: usize) -> usize {
    let leader = byte_at(leaders, x);
    if leader == 0 {
        return x;
    }
    index_of(leader)
}

// The sides of a table for two options of a state.
pub fn sides_of(state: State, table: Table) -> Sides {
    let leaders = state.leaders;
    let first = index_of(table.first);
    let second = index_of(table.second);
    Sides {
        first,
        second,
        first_leader: traced(leaders, first),
        second_leader: traced(leaders, second),
    }
}

// What the rows of the values in `set` have together.
fn reached(table: &[u32], set: u32) -> u32 {
    (0..32)
        .filter(|&c| has(set, c))
        .fold(0, |word, c| word | row(table, c))
}

// "the new table allows their partners", of value `a` of the first leader and `b` of the second
fn allows_partners(
    domains: [u32; 16],
    rows: &[u32; 3840],
    table: &[u32],
    sides: Sides,
    a: usize,
    b: usize,
) -> bool {
    let first = partners(domains, rows, sides.first_leader, sides.first, a);
    let second = partners(domains, rows, sides.second_leader, sides.second, b);
    reached(table, first) & second != 0
}

// "If they are one, its list loses the values whose partners the new table forbids."
fn trimmed(domains: [u32; 16], rows: &[u32; 3840], table: &[u32], sides: Sides) -> u32 {
    let list = word_at(domains, sides.first_leader);
    bits(
        32,
        |a| has(list, a) & allows_partners(domains, rows, table, sides, a, a),
    )
}

// "It then allows two values exactly when both are in the leaders' lists, the new table allows their partners, and the pair, if stated before, allowed
// them."
fn is_allowed(
    domains: [u32; 16],
    stated: [u32; 16],
    rows: &[u32; 3840],
    table: &[u32],
    sides: Sides,
    a: usize,
    b: usize,
) -> bool {
    let p = sides.first_leader;
    let q = sides.second_leader;
    if !(has(word_at(domains, p), a) & has(word_at(domains, q), b)) {
        return false;
    }
    was_allowed(stated, rows, p, q, a, b) & allows_partners(domains, rows, table, sides, a, b)
}

// What the table allows for value `a` of the lower of the two leaders and `b` of the higher.
fn is_allowed_from(
    domains: [u32; 16],
    stated: [u32; 16],
    rows: &[u32; 3840],
    table: &[u32],
    sides: Sides,
    a: usize,
    b: usize,
) -> bool {
    if sides.first_leader < sides.second_leader {
        return is_allowed(domains, stated, rows, table, sides, a, b);
    }
    is_allowed(domains, stated, rows, table, sides, b, a)
}

// The row of value `a` of the lower of the two leaders.
fn row_after(
    domains: [u32; 16],
    stated: [u32; 16],
    rows: &[u32; 3840],
    table: &[u32],
    sides: Sides,
    a: usize,
) -> u32 {
    bits(
        32,
        |b| is_allowed_from(domains, stated, rows, table, sides, a, b),
    )
}

// The rows where the two leaders differ.
fn rows_after(
    domains: [u32; 16],
    stated: [u32; 16],
    rows: &[u32; 3840],
    table: &[u32],
    sides: Sides,
) -> [u32; 3840] {
    let low = lower(sides.first_leader, sides.second_leader);
    let high = sides.first_leader ^ sides.second_leader ^ low;
    let mut after = *rows;
    for a in 0..32 {
        let made = row_after(domains, stated, rows, table, sides, a);
        put_row(&mut after, low, high, a, made);
    }
    after
}

// "If the leaders differ, their pair becomes stated."
fn stated_after(stated: [u32; 16], p: usize, q: usize) -> [u32; 16] {
    array::from_fn(|u| word_at(stated, u) | bit_if(u == p, q) | bit_if(u == q, p))
}

// Where the two leaders differ.
fn with_pair(state: State, table: &[u32], sides: Sides) -> State {
    let domains = state.domains;
    let stated = state.stated;
    let joined = stated_after(stated, sides.first_leader, sides.second_leader);
    let rows = rows_after(domains, stated, &state.rows, table, sides);
    let mut after = state;
    after.stated = joined;
    after.rows = rows;
    after
}

// Where they are one: "each added table now also trims the lists of all followers of the leader concerned".
fn with_lists(state: State, table: &[u32], sides: Sides) -> State {
    let p = sides.first_leader;
    let leaders = state.leaders;
    let mut domains = state.domains;
    if p < 16 {
        domains[p] = trimmed(domains, &state.rows, table, sides);
    }
    let lists = followers::trimmed(domains, leaders, &state.rows, p);
    let mut after = state;
    after.domains = lists;
    after
}

// The state after an added table that is not refused.
pub fn with_table(state: State, table: Table) -> State {
    let sides = sides_of(state, table);
    let rows = table.rows;
    let given = first_words(&rows, table.count);
    if sides.first_leader != sides.second_leader {
        return with_pair(state, given, sides);
    }
    with_lists(state, given, sides)
}
